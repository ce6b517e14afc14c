ghost use Rattle.std.specs.Prelude.{◌^◌, ◌<◌, ◌≤◌, IsTrue, length, sum};
ghost use Rattle.growth_plan.specs.Book.{IsBook, IsSmall};

use arrayvec::ArrayVec;
use growth_plan::{
    AdmitFault, ArrayNow, Progress, admit_add, admit_replace, left, next_work, target,
};
use pool_state::{Drive, Plan, State, Work, is_state_of};
use rack::Places;
use std::process::Abort;

const LIMIT: u64 = 1 << 52;

#[derive(Drop)]
struct Book {
    state: State,
    progress: Progress,
}

fn has_small_numbers(array: &ArrayNow) -> bool
    ensures pair { IsTrue result → 2 ≤ length array.now.members.items }
    ensures small { IsTrue result → IsSmall array.now }
{
    array.members.len() >= 2
        && array.height < LIMIT
        && array.rows < LIMIT
        && array.resync < LIMIT
        && array.rebuild < LIMIT
        && array.reshape < LIMIT
        && array.zero < LIMIT
}

/// Whether the calls may be made.
fn is_book(state: &State, progress: &Progress) -> bool
    ensures { IsTrue result → IsBook state.now progress.now }
{
    if !is_state_of(state, 0) {
        return false;
    }
    if progress.arrays.len() != state.made as usize || progress.extents >= LIMIT {
        return false;
    }
    for array in progress.arrays.as_slice() {
        if !has_small_numbers(array) {
            return false;
        }
    }
    true
}

/// The calls, each once it may be made.
impl Book {
    fn is_sound(&self) -> bool
        ensures { IsTrue result → IsBook self.now.state self.now.progress }
    {
        is_book(&self.state, &self.progress)
    }

    fn admit_add(&self, rt: &impl Abort, units: u64) -> Result<(), AdmitFault>
        requires { units < 2 ^ 41 }
    {
        assert!(rt; self.is_sound());
        admit_add(&self.state, &self.progress, units)
    }

    fn admit_replace(&self, rt: &impl Abort, place: u32, units: u64) -> Result<(), AdmitFault>
        requires { units < 2 ^ 41 }
    {
        assert!(rt; self.is_sound() && (place as usize) < self.state.drives.len());
        admit_replace(&self.state, &self.progress, place, units)
    }

    /// What is to be done next, and how many works are left.
    fn work(&self, rt: &impl Abort) -> (Option<Work>, u64) {
        assert!(rt; self.is_sound());
        (
            next_work(&self.state, &self.progress),
            left(&self.state, &self.progress),
        )
    }

    fn target(&self, rt: &impl Abort) -> ArrayVec<u64, 16>
        ensures { sum result.items < 2 ^ 64 }
    {
        assert!(rt; self.is_sound());
        target(&self.state, &self.progress)
    }
}

/// A pool of drives with these units and no plan, with extents of 128 sectors.
fn pool(units: &[u64]) -> State {
    let mut drives = ArrayVec::new();
    for own in units {
        let _ = drives.try_push(Drive {
            units: *own,
            ..Drive::default()
        });
    }
    State {
        pool: Drive::default().id,
        epoch: 1,
        extent: 128,
        drives,
        plan: Plan::Nothing,
        made: 1,
        joined: 1,
        serial: 0,
    }
}

/// A whole array of this height, over the drives of these places.
fn array(members: &[u32], height: u64) -> ArrayNow {
    let mut now = ArrayNow {
        level: if members.len() == 2 { 1 } else { 5 },
        height,
        rows: height.saturating_add(16),
        ..ArrayNow::default()
    };
    for place in members {
        let _ = now.members.try_push(*place);
    }
    now
}

/// A pool of drives with these units, freshly created: one array over all of them.
fn one_array(units: &[u64], members: &[u32], extents: u64) -> Book {
    let mut arrays = ArrayVec::new();
    arrays.push(array(members, 10));
    Book {
        state: pool(units),
        progress: Progress { arrays, extents },
    }
}

/// Drives of 10, 10 and 20 units.
fn three_drives() -> Book {
    one_array(&[10, 10, 20], &[0, 1, 2], 20)
}

/// Adds a drive at the next place.
fn add(book: &mut Book, units: u64) {
    let place = book.state.drives.len() as u32;
    let _ = book.state.drives.try_push(Drive {
        units,
        ..Drive::default()
    });
    book.state.plan = Plan::Add { place };
}

/// Puts a drive in the place of another, whose arrays are then left to rebuild.
fn replace(book: &mut Book, place: u32, units: u64) {
    if let Some(drive) = book.state.drives.as_mut_slice().get_mut(place as usize) {
        drive.units = units;
        drive.missing = false;
    }
    for array in book.progress.arrays.as_mut_slice() {
        array.rebuild = array.rows;
        array.rebuilding = place;
    }
    book.state.plan = Plan::Replace { place };
}

/// The array that a new layer of this height becomes.
fn make(book: &mut Book, height: u64) {
    let below: u64 = match book.progress.arrays.as_slice() {
        [] => 0,
        [first, ..] => first.height,
    };
    let mut members = Places::new();
    for (place, drive) in book.state.drives.as_slice().iter().enumerate() {
        if drive.units >= below.saturating_add(height) {
            let _ = members.try_push(place as u32);
        }
    }
    let mut now = array(&members, height);
    now.zero = now.rows;
    let _ = book.progress.arrays.try_push(now);
    book.state.made = 2;
}

/// The array after a row or a step of its own.
fn step(now: &mut ArrayNow, work: Work) {
    match work {
        Work::Resync { .. } => now.resync = now.resync.saturating_sub(1),
        Work::Rebuild { .. } => now.rebuild = now.rebuild.saturating_sub(1),
        Work::TakeOver { .. } => now.level = 5,
        Work::Begin { place, .. } => {
            let _ = now.members.try_push(place);
            now.reshaping = true;
            now.reshape = now.rows;
        }
        Work::Reshape { .. } => now.reshape = now.reshape.saturating_sub(1),
        Work::Finish { .. } => now.reshaping = false,
        Work::Zero { .. } => now.zero = now.zero.saturating_sub(1),
        _ => {}
    }
}

/// The book after a work, over at most two arrays; the volume then has so many extents.
fn done(book: &mut Book, work: Work, extents: u64) {
    match work {
        Work::Make { height, .. } => make(book, height),
        Work::Ready { .. } => book.state.joined = book.state.made,
        Work::Extend => book.progress.extents = extents,
        Work::Close => book.state.plan = Plan::Nothing,
        Work::Resync { array }
        | Work::Rebuild { array, .. }
        | Work::TakeOver { array }
        | Work::Begin { array, .. }
        | Work::Reshape { array }
        | Work::Finish { array }
        | Work::Zero { array } => {
            if let Some(now) = book.progress.arrays.as_mut_slice().get_mut(array as usize) {
                step(now, work);
            }
        }
    }
}

/// Does these works, each as often as it says; each lowers what is left by one, to none. The volume then has so many
/// extents.
fn all_works(rt: &impl Abort, book: &mut Book, works: &[(Work, u64)], extents: u64) {
    let mut count = book.work(rt).1;
    for (work, times) in works {
        for _ in 0..*times {
            assert_eq!(rt; book.work(rt), (Some(*work), count));
            let sum = book.target(rt).as_slice().iter().sum();
            done(book, *work, sum);
            count = count.saturating_sub(1);
        }
    }
    let end = (book.work(rt), count, book.progress.extents);
    assert_eq!(rt; end, ((None, 0), 0, extents));
}

#[test]
fn a_drive_is_added(rt: HostRuntime) {
    let mut book = three_drives();
    let answers = [book.admit_add(&rt, 15), book.admit_add(&rt, 20)];
    assert_eq!(rt; answers, [Err(AdmitFault::Size), Ok(())]);
    add(&mut book, 20);
    assert_eq!(rt; book.work(&rt).1, 58);
    let works = [
        (Work::Begin { array: 0, place: 3 }, 1),
        (Work::Reshape { array: 0 }, 26),
        (Work::Finish { array: 0 }, 1),
        (
            Work::Make {
                array: 1,
                height: 10,
            },
            1,
        ),
        (Work::Zero { array: 1 }, 26),
        (Work::Ready { array: 1 }, 1),
        (Work::Extend, 1),
        (Work::Close, 1),
    ];
    all_works(&rt, &mut book, &works, 40);
}

#[test]
fn a_drive_is_replaced(rt: HostRuntime) {
    let mut book = three_drives();
    assert_eq!(rt; book.admit_replace(&rt, 1, 10), Ok(()));
    replace(&mut book, 1, 10);
    let works = [(Work::Rebuild { array: 0, place: 1 }, 26), (Work::Close, 1)];
    all_works(&rt, &mut book, &works, 20);
}

#[test]
fn a_larger_drive_replaces_another(rt: HostRuntime) {
    let mut book = three_drives();
    assert_eq!(rt; book.admit_replace(&rt, 0, 20), Ok(()));
    replace(&mut book, 0, 20);
    let works = [
        (Work::Rebuild { array: 0, place: 0 }, 26),
        (
            Work::Make {
                array: 1,
                height: 10,
            },
            1,
        ),
        (Work::Zero { array: 1 }, 26),
        (Work::Ready { array: 1 }, 1),
        (Work::Extend, 1),
        (Work::Close, 1),
    ];
    all_works(&rt, &mut book, &works, 30);
}

#[test]
fn a_mirror_takes_in_a_drive(rt: HostRuntime) {
    let mut book = one_array(&[10, 10], &[0, 1], 10);
    assert_eq!(rt; book.admit_add(&rt, 10), Ok(()));
    add(&mut book, 10);
    let works = [
        (Work::TakeOver { array: 0 }, 1),
        (Work::Begin { array: 0, place: 2 }, 1),
        (Work::Reshape { array: 0 }, 26),
        (Work::Finish { array: 0 }, 1),
        (Work::Extend, 1),
        (Work::Close, 1),
    ];
    all_works(&rt, &mut book, &works, 20);
}

#[test]
fn a_smaller_drive_replaces_none(rt: HostRuntime) {
    let book = three_drives();
    let rows = [
        (9, Err(AdmitFault::Size)),
        (10, Err(AdmitFault::Smaller)),
        (15, Err(AdmitFault::Smaller)),
        (21, Ok(())),
    ];
    for (units, answer) in rows {
        assert_eq!(rt; book.admit_replace(&rt, 2, units), answer, "{units}");
    }
}

/// Whether a drive of so many units may be added, and whether it may replace the first one.
fn admits(rt: &impl Abort, book: &Book, units: u64) -> [Result<(), AdmitFault>; 2]
    requires { units < 2 ^ 41 }
{
    [book.admit_add(rt, units), book.admit_replace(rt, 0, units)]
}

#[test]
fn the_last_place_and_the_last_serial(rt: HostRuntime) {
    let full = Err(AdmitFault::TooManyDrives);
    let members = [0, 1, 2, 3, 4, 5, 6, 7, 8, 9, 10, 11, 12, 13, 14];
    let mut book = one_array(&[10; 15], &members, 140);
    book.state.serial = u32::MAX - 1;
    assert_eq!(rt; admits(&rt, &book, 10), [Ok(()), Ok(())]);
    book.state.serial = u32::MAX;
    assert_eq!(rt; admits(&rt, &book, 10), [full, full]);
    book.state.serial = 0;
    add(&mut book, 10);
    let last = (admits(&rt, &book, 10), book.state.drives.len());
    assert_eq!(rt; last, ([full, Ok(())], 16));
}

/// Two drives of 16 and 20 units, with so many arrays of one extent each.
fn many_layers(count: u32) -> Book {
    let mut book = Book {
        state: pool(&[16, 20]),
        progress: Progress {
            arrays: ArrayVec::new(),
            extents: count as u64,
        },
    };
    for _ in 0..count {
        let _ = book.progress.arrays.try_push(array(&[0, 1], 1));
    }
    book.state.made = count;
    book.state.joined = count;
    book
}

#[test]
fn the_last_layer(rt: HostRuntime) {
    let full = Err(AdmitFault::TooManyLayers);
    let book = many_layers(16);
    assert_eq!(rt; admits(&rt, &book, 20), [full, full]);
    assert_eq!(rt; admits(&rt, &book, 16), [Ok(()), Ok(())]);
    assert_eq!(rt; many_layers(15).admit_add(&rt, 20), Ok(()));
}

/// No part agrees with another: heights, rows and extents near their bounds, and no layer for the drives.
#[test]
fn books_that_disagree(rt: HostRuntime) {
    let mut book = many_layers(16);
    let rows = LIMIT - 1;
    for now in book.progress.arrays.as_mut_slice() {
        now.height = rows;
        now.rows = rows;
        now.resync = rows;
        now.rebuild = rows;
        now.reshape = rows;
        now.reshaping = true;
        now.zero = rows;
    }
    book.state.plan = Plan::Replace { place: 0 };
    book.state.joined = 15;
    // 16 arrays with all rows to resync, to rebuild and to reshape, each with its end; the last one's
    // rows of zeros and its start; the volume and the plan.
    let count = 16 * (3 * rows + 1) + rows + 1 + 2;
    assert_eq!(rt; book.work(&rt), (Some(Work::Resync { array: 0 }), count));
    assert_eq!(rt; book.target(&rt).as_slice(), [rows; 16].as_slice());
    // Two layers are missing; the lower one counts alone.
    let mut book = three_drives();
    for units in [20, 30, 30] {
        add(&mut book, units);
    }
    assert_eq!(rt; book.target(&rt).as_slice(), [30, 30].as_slice());
}
