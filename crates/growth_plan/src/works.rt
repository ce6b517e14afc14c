//! All works that a book has left.

ghost use Rattle.std.specs.Prelude.{◌≡◌, ℕ, ◌+◌, ◌++◌, ◌^◌, ◌<◌, ◌≤◌, IsTrue, length, slice_get, sum, All};
ghost use Rattle.std.specs.List.{flat_map};
ghost use Rattle.pool_state.specs.Valid.{has_places};
ghost use Rattle.growth_plan.specs.Book.{IsBook, IsSmall, standing};
ghost use Rattle.growth_plan.specs.Target.{targets};
ghost use Rattle.growth_plan.specs.Tally.{IsTally, Appends};
ghost use Rattle.growth_plan.specs.Works.{resyncs, rebuilt, rebuilds_on, rebuilds, reshapes, joins, growths_by, growths, is_mirror, rows_of, zeros, makes, extends, closes, grows, works_left};

use crate::layers::{joining, new_layer, planned};
use crate::tally::Tally;
use crate::{ArrayNow, Progress, target};
use pool_state::{Plan, State, Work};

/// The works that are left, from the first to the last.
pub(crate) fn tally(state: &State, progress: &Progress) -> Tally
    requires { IsBook state.now progress.now }
    ensures first { result.first ≡ slice_get (works_left state.now progress.now) 0 }
    ensures count { result.count ≡ length (works_left state.now progress.now) }
{
    let mut tally = Tally::new();
    append_resyncs(&mut tally, &progress.arrays);
    append_rebuilds(&mut tally, state, &progress.arrays);
    append_growths(&mut tally, state, &progress.arrays);
    append_makes(&mut tally, state, progress);
    append_end(&mut tally, state, progress);
    tally
}

/// What is left of a growth, from the first work to the last.
pub(crate) fn growth(state: &State, progress: &Progress) -> Tally
    requires { IsBook state.now progress.now }
    ensures { result.count ≡ length (grows state.now progress.now) }
{
    let mut left = Tally::new();
    append_growths(&mut left, state, &progress.arrays);
    append_makes(&mut left, state, progress);
    append_extension(&mut left, state, progress);
    left
}

/// Each row left to resync.
fn append_resyncs(tally: &mut Tally, arrays: &[ArrayNow])
    requires { length arrays.now ≤ 16 }
    ensures { Appends tally.old tally.new (flat_map resyncs (standing arrays.now)) }
{
    for (number, array) in arrays.iter().enumerate() {
        let array_number = number as u32;
        tally.append(
            Work::Resync {
                array: array_number,
            },
            array.resync,
        );
    }
}

/// The place that is rebuilt: that of a `Replace`, unless its drive is missing.
fn rebuilt(state: &State) -> Option<u32>
    requires { IsTrue (has_places state.now 0) }
    ensures { result ≡ rebuilt state.now }
{
    match state.plan {
        Plan::Replace { place } if !state.drives.as_slice()[place as usize].missing => Some(place),
        _ => None,
    }
}

/// Each row that is left to rebuild on the plan's place.
fn append_rebuilds(tally: &mut Tally, state: &State, arrays: &[ArrayNow])
    requires places { IsTrue (has_places state.now 0) }
    requires few { length arrays.now ≤ 16 }
    ensures { Appends tally.old tally.new (flat_map (rebuilds state.now) (standing arrays.now)) }
{
    let rebuilt = rebuilt(state);
    for (number, array) in arrays.iter().enumerate() {
        let array_number = number as u32;
        append_rebuild(tally, rebuilt, array_number, array);
    }
}

/// The rows of one array that are left to rebuild on this place.
fn append_rebuild(tally: &mut Tally, rebuilt: Option<u32>, number: u32, array: &ArrayNow)
    ensures { Appends tally.old tally.new (rebuilds_on rebuilt (record { number = number; top = 0; now = array.now })) }
{
    let Some(place) = rebuilt else {
        return;
    };
    if array.rebuilding == place {
        let work = Work::Rebuild {
            array: number,
            place,
        };
        tally.append(work, array.rebuild);
    }
}

/// What is left of taking the plan's drive into each array that it reaches.
fn append_growths(tally: &mut Tally, state: &State, arrays: &[ArrayNow])
    requires places { IsTrue (has_places state.now 0) }
    requires few { length arrays.now ≤ 16 }
    requires small { All IsSmall arrays.now }
    ensures { Appends tally.old tally.new (flat_map (growths state.now) (standing arrays.now)) }
{
    let mut top = 0;
    for (number, array) in arrays.iter().enumerate() {
        let array_number = number as u32;
        top += array.height;
        append_growth(tally, array_number, array, joining(state, array, top));
    }
}

/// The rest of a reshape, and all works by which a drive joins the array where one has still to.
fn append_growth(tally: &mut Tally, number: u32, array: &ArrayNow, joining: Option<u32>)
    ensures { Appends tally.old tally.new (growths_by joining (record { number = number; top = 0; now = array.now })) }
{
    if array.reshaping {
        append_reshape(tally, number, array.reshape);
    }
    if let Some(place) = joining {
        append_join(tally, number, array, place);
    }
}

/// All works by which a drive joins an array.
fn append_join(tally: &mut Tally, number: u32, array: &ArrayNow, place: u32)
    ensures { Appends tally.old tally.new (joins (record { number = number; top = 0; now = array.now }) place) }
{
    if is_mirror(array) {
        tally.append(Work::TakeOver { array: number }, 1);
    }
    let begin = Work::Begin {
        array: number,
        place,
    };
    tally.append(begin, 1);
    append_reshape(tally, number, array.rows);
}

fn is_mirror(array: &ArrayNow) -> bool
    ensures { result ≡ is_mirror array.now }
{
    array.level == 1
}

/// So many rows of a reshape, and its end.
fn append_reshape(tally: &mut Tally, number: u32, rows: u64)
    ensures { Appends tally.old tally.new (reshapes number rows) }
{
    tally.append(Work::Reshape { array: number }, rows);
    tally.append(Work::Finish { array: number }, 1);
}

/// What is left of a new array.
fn append_makes(tally: &mut Tally, state: &State, progress: &Progress)
    requires { IsBook state.now progress.now }
    ensures { Appends tally.old tally.new (makes state.now progress.now.arrays.items) }
{
    if state.joined < state.made {
        let rows = progress.arrays.as_slice()[state.joined as usize].zero;
        append_zeros(tally, state.joined, rows);
    } else if let Some(layer) = new_layer(state, progress) {
        let make = Work::Make {
            array: state.made,
            height: layer.height,
        };
        tally.append(make, 1);
        append_zeros(tally, state.made, rows_of(state, layer.height));
    }
}

/// The rows of an array of this height, each of 128 sectors, with 2048 sectors before its extents.
fn rows_of(state: &State, height: u64) -> u64
    requires extent { state.now.extent ≤ 65536 }
    requires small { height < 2 ^ 41 }
    ensures { result ≡ rows_of state.now height }
{
    (height * state.extent as u64 + 2048) / 128
}

/// Zeros to so many rows of a new array, and its start.
fn append_zeros(tally: &mut Tally, number: u32, rows: u64)
    ensures { Appends tally.old tally.new (zeros number rows) }
{
    tally.append(Work::Zero { array: number }, rows);
    tally.append(Work::Ready { array: number }, 1);
}

/// The volume's extension, where it gains extents.
fn append_extension(tally: &mut Tally, state: &State, progress: &Progress)
    requires { IsBook state.now progress.now }
    ensures { Appends tally.old tally.new (extends state.now progress.now) }
{
    if progress.extents < extents_at_end(state, progress) {
        tally.append(Work::Extend, 1);
    }
}

/// The volume's extension, where it gains extents, and the plan's end.
fn append_end(tally: &mut Tally, state: &State, progress: &Progress)
    requires { IsBook state.now progress.now }
    ensures { Appends tally.old tally.new (extends state.now progress.now ++ closes state.now) }
{
    append_extension(tally, state, progress);
    if planned(&state.plan).is_some() {
        tally.append(Work::Close, 1);
    }
}

/// The extents of the volume at the plan's end.
fn extents_at_end(state: &State, progress: &Progress) -> u64
    requires { IsBook state.now progress.now }
    ensures { result ≡ sum (targets state.now progress.now.arrays.items) }
{
    target(state, progress).as_slice().iter().sum()
}
