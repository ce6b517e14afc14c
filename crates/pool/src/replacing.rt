//! Why the drive of a place isn't replaced.

ghost use Rattle.std.specs.Prelude.{◌≡◌, ◌<◌, ◌≤◌, ◌^◌, length};
ghost use Rattle.std.specs.List.{list_any};
ghost use Rattle.std.specs.Result.{result_err};
ghost use Rattle.growth_plan.specs.Book.{IsBook};
ghost use Rattle.pool.specs.View.{book, view, volume};
ghost use Rattle.pool.specs.Works.{progress_by};
ghost use Rattle.pool.specs.Replacing as spec;

use crate::Pool;
use arrayvec::ArrayVec;
use growth_plan::{AdmitFault, Progress, admit_replace, target};
use pool_state::{Drive, Plan, State};
use rack::Bay;
use shr_base::{child_id, units};
use thiserror::Error;

/// Why a drive isn't taken in. They are looked for in this order, but for a `Smaller` by the arrays of a place: that is looked for last before `Gone`.
#[derive(Clone, Copy, Debug, PartialEq, Eq, Error)]
pub enum GrowFault {
    /// The place isn't in the list.
    #[error("the place isn't in the list")]
    NoSuchDrive,
    /// The name can't be attached.
    #[error("the name can't be attached")]
    Attach,
    /// The name's disk is that of a place that isn't missing.
    #[error("the disk is one of the pool's")]
    Twice,
    /// There was no memory to attach the name.
    #[error("there was no memory")]
    Memory,
    /// A plan is being carried out.
    #[error("a plan is being carried out")]
    PlanPending,
    /// Another place is missing.
    #[error("another place is missing")]
    NotWhole,
    /// Rows are left to resync.
    #[error("rows are left to resync")]
    NotResynced,
    /// Its units lie between those of the drives, or below all of them.
    #[error("its units lie between those of the drives, or below all of them")]
    Size,
    /// It has fewer units than the drive that it replaces, or doesn't reach an array of that one, which no sound pool meets.
    #[error("it has fewer units than the drive that it replaces")]
    Smaller,
    /// No serial number is left, or no place.
    #[error("no serial number is left, or no place")]
    TooManyDrives,
    /// A 17th layer would be made.
    #[error("a 17th layer would be made")]
    TooManyLayers,
    /// The volume would have too many segments.
    #[error("the volume would have too many segments")]
    TooManySegments,
    /// The new drive refused a call.
    #[error("the new drive refused a call")]
    Gone,
}

/// Whether a plan is being carried out.
pub(crate) fn is_planned(plan: Plan) -> bool
    ensures { result ≡ spec.is_planned plan }
{
    match plan {
        Plan::Nothing => false,
        Plan::Add { .. } | Plan::Replace { .. } => true,
    }
}

/// Whether one of these drives is marked missing.
pub(crate) fn lacks_one(drives: &[Drive]) -> bool
    ensures { result ≡ list_any (λ d. d.missing) drives.now }
{
    drives.iter().any(|drive| drive.missing)
}

/// Whether another drive than that of a place is marked missing.
pub(crate) fn has_other_missing(state: &State, place: u32) -> bool
    requires { place < length state.now.drives.items }
    ensures { result ≡ spec.has_other_missing state.now place }
{
    let drives = state.drives.as_slice();
    let place = place as usize;
    lacks_one(&drives[..place]) || lacks_one(&drives[place + 1..])
}

/// Whether the drive of a place has so many units.
fn has_units(state: &State, place: u32, units: u64) -> bool
    ensures { result ≡ spec.has_units state.now place units }
{
    match state.drives.as_slice().get(place as usize) {
        Some(drive) => drive.units == units,
        None => false,
    }
}

/// Whether an array has rows to resync.
pub(crate) fn has_resync(progress: &Progress) -> bool
    ensures { result ≡ spec.has_resync progress.now.arrays.items }
{
    progress
        .arrays
        .as_slice()
        .iter()
        .any(|array| 0 < array.resync)
}

/// A refusal of the plan.
pub(crate) fn fault_of(fault: AdmitFault) -> GrowFault
    ensures { result ≡ spec.fault_of fault }
{
    match fault {
        AdmitFault::Size => GrowFault::Size,
        AdmitFault::Smaller => GrowFault::Smaller,
        AdmitFault::TooManyDrives => GrowFault::TooManyDrives,
        AdmitFault::TooManyLayers => GrowFault::TooManyLayers,
    }
}

/// The pool's next drive, of so many units.
pub(crate) fn new_drive(units: u64, state: &State) -> Drive
    ensures { result ≡ spec.new_drive units state.now }
{
    Drive {
        id: child_id(&state.pool, 1, state.serial, 0),
        units,
        missing: false,
    }
}

/// A copy of drives. It takes no memory.
fn copy_of(drives: &[Drive]) -> ArrayVec<Drive, 16>
    requires { length drives.now ≤ 16 }
    ensures { result.items ≡ drives.now }
{
    let mut copy = ArrayVec::new();
    for place in 0..drives.len() {
        copy.push(drives[place]);
    }
    copy
}

/// A state with another plan. It takes no memory.
pub(crate) fn planning(plan: Plan, state: &State) -> State
    requires { length state.now.drives.items ≤ 16 }
    ensures { result ≡ spec.planning plan state.now }
{
    State {
        pool: state.pool,
        epoch: state.epoch,
        extent: state.extent,
        drives: copy_of(state.drives.as_slice()),
        plan,
        made: state.made,
        joined: state.joined,
        serial: state.serial,
    }
}

/// A state with the pool's next drive, of so many units, at a place of the list, and with the plan that replaces the place's drive. It takes no
/// memory.
fn replacing(place: u32, units: u64, state: &State) -> State
    requires listed { place < length state.now.drives.items }
    requires few { length state.now.drives.items ≤ 16 }
    ensures { result ≡ spec.replacing place units state.now }
{
    let mut planned = planning(Plan::Replace { place }, state);
    planned.drives.as_mut_slice()[place as usize] = new_drive(units, state);
    planned
}

impl<R: Bay> Pool<R> {
    /// Whether the drive of a place has the units of a disk of so many sectors.
    pub(crate) fn has_same(&self, place: u32, sectors: u64) -> bool
        requires fit { (volume (view R.seen R.shelf self.now)).fit }
        requires listed { place < length (book (view R.seen R.shelf self.now)).state.drives.items }
        ensures { result ≡ spec.has_same (book (view R.seen R.shelf self.now)) place sectors }
    {
        let state = self.state();
        has_units(state, place, units(sectors, state.extent))
    }

    /// Whether the pool stands so that the drive of a place can be replaced.
    fn stands_for(&self, progress: &Progress, place: u32) -> Result<(), GrowFault>
        requires listed { place < length (book (view R.seen R.shelf self.now)).state.drives.items }
        requires progress { progress.now ≡ progress_by (view R.seen R.shelf self.now).linear (book (view R.seen R.shelf self.now)) }
        ensures { result_err result ≡ spec.first_cause (spec.standing_refusals (book (view R.seen R.shelf self.now)) place) }
    {
        let state = self.state();
        if is_planned(state.plan) {
            return Err(GrowFault::PlanPending);
        }
        if has_other_missing(state, place) {
            return Err(GrowFault::NotWhole);
        }
        if has_resync(progress) {
            return Err(GrowFault::NotResynced);
        }
        Ok(())
    }

    /// Whether the volume doesn't fit over what the arrays offer once the drive of a place is replaced by one of so many units.
    fn lacks_segments(&self, progress: &Progress, place: u32, units: u64) -> bool
        requires listed { place < length (book (view R.seen R.shelf self.now)).state.drives.items }
        requires some { 0 < units }
        requires small { units < 2 ^ 41 }
        requires progress { progress.now ≡ progress_by (view R.seen R.shelf self.now).linear (book (view R.seen R.shelf self.now)) }
        requires book { IsBook (book (view R.seen R.shelf self.now)).state progress.now }
        ensures { result ≡ spec.lacks_segments (view R.seen R.shelf self.now).linear (book (view R.seen R.shelf self.now)) place units }
    {
        let planned = replacing(place, units, self.state());
        let extents = target(&planned, progress);
        !self.volume.fits(extents.as_slice())
    }

    /// Whether the drive of a place, which is in the list, may be replaced by a disk of so many sectors: else the first refusal.
    pub(crate) fn admits(&self, place: u32, sectors: u64) -> Result<(), GrowFault>
        requires fit { (volume (view R.seen R.shelf self.now)).fit }
        requires listed { place < length (book (view R.seen R.shelf self.now)).state.drives.items }
        requires small { sectors < 2 ^ 48 }
        ensures { result_err result ≡ spec.refusal_of (view R.seen R.shelf self.now).linear (book (view R.seen R.shelf self.now)) place sectors }
    {
        let progress = self.progress();
        self.stands_for(&progress, place)?;
        let state = self.state();
        let units = units(sectors, state.extent);
        match admit_replace(state, &progress, place, units) {
            Ok(()) => {}
            Err(fault) => return Err(fault_of(fault)),
        }
        if self.lacks_segments(&progress, place, units) {
            return Err(GrowFault::TooManySegments);
        }
        if !self.reaches_own(&progress, place, sectors) {
            return Err(GrowFault::Smaller);
        }
        Ok(())
    }
}
