//! Which drives a pool takes in, and the works that are then left, in the order in which they are done.
//!
//! A pool's book is its [`State`] and its [`Progress`]. A plan names one drive, which is added or takes
//! the part of another. Each array that the drive reaches takes it in by a reshape, and where two drives
//! have units above all arrays, a new array is made there. The volume then grows over all of it at once.
//!
//! The model is `works_left` in `specs/Works.antt`, the list of all works that a book has left. The
//! contract for the layer above: [`next_work`] is its head and [`left`] its length, and the book after
//! that work, as `specs/Doing.antt` defines it, has the rest of the list left. On a sound book, by
//! `specs/Sound.antt`, the sum of [`target`] is the greatest capacity of all drives. No call takes
//! memory, and each answers for every book, also for one whose parts disagree.
#![tactic(auto)]

ghost use Rattle.std.specs.Prelude.{◌≡◌, ℕ, ◌+◌, ◌-◌, ◌*◌, ◌^◌, ◌<◌, ◌≤◌, true, nat_lt, length, drop, slice_get, slice_index, sum, IfSome};
ghost use Rattle.growth_plan.specs.declared.ArrayNow.{ArrayNow};
ghost use Rattle.std.specs.Result.{result_err};
ghost use Rattle.layer_plan.specs.Slicing.{IsBest};
ghost use Rattle.growth_plan.specs.Book.{IsBook, units_of};
ghost use Rattle.growth_plan.specs.Sound.{IsSoundBook};
ghost use Rattle.growth_plan.specs.Target.{targets};
ghost use Rattle.growth_plan.specs.Works.{grows, works_left};
ghost use Rattle.growth_plan.specs.Doing.{after, HasOneLayer, is_of_layer};
ghost use Rattle.growth_plan.specs.Admission.{add_refusals, replace_refusals, first_refusal};

mod admission;
mod layers;
mod tally;
mod works;

use admission::{is_fitting, makes_17th};
use arrayvec::ArrayVec;
use layers::{extents_at_end, new_layer, units_of};
use pool_state::{State, Work};
use rack::Places;

/// The most drives of a pool, and the most arrays.
pub(crate) const MOST: usize = 16;

/// Why a drive isn't taken in.
#[derive(Clone, Copy, Debug, PartialEq, Eq)]
pub enum AdmitFault {
    /// Its units lie between those of the drives, or below all of them.
    Size,
    /// It has fewer units than the drive that it replaces.
    Smaller,
    /// No place or no serial number is left.
    TooManyDrives,
    /// A 17th layer would be made.
    TooManyLayers,
}

/// How an array stands; all rows but `rows` are those still to do.
#[derive(Debug, Default, Drop)]
pub struct ArrayNow {
    /// Of RAID: 1 or 5.
    pub level: i32,
    /// The places of the member drives.
    pub members: Places,
    /// The extents that the array takes of each member.
    pub height: u64,
    /// All rows of the array.
    pub rows: u64,
    /// Rows to resync.
    pub resync: u64,
    /// Rows to rebuild, and 0 where no member is rebuilding.
    pub rebuild: u64,
    /// The place that is rebuilt, and 0 where none is.
    pub rebuilding: u32,
    /// A reshape was begun and hasn't ended.
    pub reshaping: bool,
    /// Rows to reshape.
    pub reshape: u64,
    /// Rows of a new array to write zeros to.
    pub zero: u64,
}

/// How far all arrays are, and the volume.
#[derive(Debug, Drop)]
pub struct Progress {
    /// The arrays that were made, the lowest first.
    pub arrays: ArrayVec<ArrayNow, 16>,
    /// The extents of the volume.
    pub extents: u64,
}

/// Whether a drive of so many units may be added, at the next place.
pub fn admit_add(state: &State, progress: &Progress, units: u64) -> Result<(), AdmitFault>
    requires book { IsBook state.now progress.now }
    requires small { units < 2 ^ 41 }
    ensures { result_err result ≡ first_refusal (add_refusals state.now progress.now.arrays.items units) }
{
    let mut drives = units_of(state);
    if !is_fitting(&drives, &drives, units) {
        return Err(AdmitFault::Size);
    }
    if drives.len() >= MOST || state.serial == u32::MAX {
        return Err(AdmitFault::TooManyDrives);
    }
    drives.push(units);
    if makes_17th(state, progress, &drives) {
        return Err(AdmitFault::TooManyLayers);
    }
    Ok(())
}

/// Whether a drive of so many units may take the part of the drive at a place.
pub fn admit_replace(
    state: &State,
    progress: &Progress,
    place: u32,
    units: u64,
) -> Result<(), AdmitFault>
    requires book { IsBook state.now progress.now }
    requires listed { place < length state.now.drives.items }
    requires small { units < 2 ^ 41 }
    ensures { result_err result ≡ first_refusal (replace_refusals state.now progress.now.arrays.items place units) }
{
    let mut drives = units_of(state);
    let mut others = units_of(state);
    let replaced = others.remove(place as usize);
    if !is_fitting(&drives, &others, units) {
        return Err(AdmitFault::Size);
    }
    if units < replaced {
        return Err(AdmitFault::Smaller);
    }
    if state.serial == u32::MAX {
        return Err(AdmitFault::TooManyDrives);
    }
    drives.as_mut_slice()[place as usize] = units;
    if makes_17th(state, progress, &drives) {
        return Err(AdmitFault::TooManyLayers);
    }
    Ok(())
}

/// The first work that is left, or none where all is done.
pub fn next_work(state: &State, progress: &Progress) -> Option<Work>
    requires { IsBook state.now progress.now }
    ensures first { result ≡ slice_get (works_left state.now progress.now) 0 }
    // The book after it has the rest of the works left. After a new layer there is none above it.
    ensures done { IfSome result (λ work. (is_of_layer work ≡ true → HasOneLayer state.now progress.now.arrays.items) →
        works_left (after work state.now progress.now).state (after work state.now progress.now).progress ≡ drop 1 (works_left state.now progress.now)) }
    ensures one_layer { IsSoundBook state.now progress.now → HasOneLayer state.now progress.now.arrays.items }
{
    works::tally(state, progress).first
}

/// How many works are left.
pub fn left(state: &State, progress: &Progress) -> u64
    requires { IsBook state.now progress.now }
    ensures { result ≡ length (works_left state.now progress.now) }
{
    works::tally(state, progress).count
}

/// Whether a work of a growth is left: any but a row to resync or to rebuild, and the plan's end.
pub fn has_growth(state: &State, progress: &Progress) -> bool
    requires { IsBook state.now progress.now }
    ensures { result ≡ nat_lt 0 (length (grows state.now progress.now)) }
{
    works::growth(state, progress).count > 0
}

/// The extents that each array offers to the volume at the plan's end, the lowest array first.
pub fn target(state: &State, progress: &Progress) -> ArrayVec<u64, 16>
    requires { IsBook state.now progress.now }
    ensures extents { result.items ≡ targets state.now progress.now.arrays.items }
    ensures small { sum result.items < 2 ^ 64 }
    // An array offers no less than it does now.
    ensures kept { (number : ℕ) (now : ArrayNow) → slice_get progress.now.arrays.items number ≡ Some now →
        (length now.members.items - 1) * now.height ≤ slice_index result.items number }
    // Where the parts of the book agree, no slicing of all drives into redundant arrays offers more.
    ensures greatest { IsSoundBook state.now progress.now → IsBest (units_of state.now) (sum result.items) }
{
    let mut extents = ArrayVec::new();
    let mut top = 0;
    for array in progress.arrays.as_slice() {
        top += array.height;
        extents.push(extents_at_end(state, array, top));
    }
    if let Some(layer) = new_layer(state, progress) {
        extents.push(layer.extents);
    }
    extents
}
