//! What a scan says: the newest state, whether two pools are there, and which disk is which drive.

ghost use Rattle.std.specs.Prelude.{◌≡◌, ◌==◌, ◌^◌, ◌<◌, not, false, ℕ, List, length, map, position, bytes_eq, if◌then◌else◌, IfSome, Some, None};
ghost use Rattle.std.specs.List.{list_any, range_with_len};
ghost use Rattle.std.specs.Option.{option_and_then, option_copied, option_map_or};
ghost use Rattle.array_image.specs.Foremost.{ahead as ahead_by, foremost};
ghost use Rattle.array_image.specs.States.{epoch_of, is_current};
ghost use Rattle.pool_image.specs.Disks.{Disks, Identities, newest, seat_of};
ghost use Rattle.pool_scan.specs.Scanning.{copied_at, id_in};
ghost use Rattle.pool_scan.specs.Choosing as spec;
ghost use Rattle.pool_scan.specs.Choosing.{AreOf, HasCopyOf, id_at};

use crate::{Known, Scan};
use pool_state::{Copied, Drive, State};
use shr_base::Id;

impl Scan {
    /// The state of highest epoch, of equal ones that of the lowest disk.
    pub fn newest(&self) -> Option<&State>
        ensures newest { (disks : Disks) (identities : Identities) → AreOf disks identities self.now.disks.items
            → option_copied result ≡ newest disks identities }
        ensures copied { IfSome result (λ s. HasCopyOf self.now.disks.items s.now) }
    {
        match newest_copy(self.disks.as_slice()) {
            Some(copied) => Some(&copied.state),
            None => None,
        }
    }

    /// Whether a disk has a copy of a state of another pool.
    pub fn has_other_pool(&self, pool: &Id) -> bool
        ensures { (disks : Disks) (identities : Identities) → AreOf disks identities self.now.disks.items
            → result ≡ spec.has_pool_other_than pool.now.0 disks identities }
    {
        has_other(self.disks.as_slice(), pool)
    }

    /// The disk that is taken for a current place of a state: of those that stand for the place that of highest epoch, of equal
    /// ones the lowest. A place that isn't current has none.
    pub fn seat(&self, state: &State, place: u32) -> Option<u32>
        requires { length self.now.disks.items < 2 ^ 32 }
        ensures chosen { result ≡ spec.seat_by state.now self.now.disks.items place }
        ensures seated { (disks : Disks) (identities : Identities) → AreOf disks identities self.now.disks.items
            → result ≡ seat_of state.now disks identities place }
    {
        if is_there(state, place) {
            foremost_of(self.disks.as_slice(), state, place)
        } else {
            None
        }
    }
}

/// A place that is listed and not marked missing.
fn is_there(state: &State, place: u32) -> bool
    ensures { result ≡ is_current state.now place }
{
    match state.drives.as_slice().get(place as usize) {
        Some(drive) => !drive.missing,
        None => false,
    }
}

/// The copy that was read of a disk.
fn copy_at(known: &[Known], disk: usize) -> Option<&Copied>
    ensures { option_copied result ≡ copied_at known.now disk }
{
    match known.get(disk) {
        Some(known) => known.copied.as_ref(),
        None => None,
    }
}

/// The copy of higher epoch, of equal ones the first.
fn newer<'a>(first: Option<&'a Copied>, second: Option<&'a Copied>) -> Option<&'a Copied>
    ensures { option_copied result
        ≡ option_map_or (λ c. ahead_by epoch_of c (option_copied second.entry)) (option_copied first.entry) (option_copied second.entry) }
{
    match (first, second) {
        (Some(c), Some(d)) if c.state.epoch >= d.state.epoch => Some(c),
        (Some(c), None) => Some(c),
        _ => second,
    }
}

/// The copy of highest epoch, of equal ones that of the lowest disk.
fn newest_copy(known: &[Known]) -> Option<&Copied>
    ensures { option_copied result ≡ foremost epoch_of (map (copied_at known.now) (range_with_len 0 (length known.now))) }
{
    let count = known.len();
    let mut newest = None;
    for after in 0..count {
        newest = newer(copy_at(known, count - 1 - after), newest);
    }
    newest
}

/// Whether a disk's copy is of another pool.
fn has_other(known: &[Known], pool: &Id) -> bool
    ensures { result ≡ list_any (spec.is_of_other pool.now.0) known.now }
{
    known.iter().any(|known| is_of_other(known, pool))
}

/// Whether the copy of a disk is of another pool.
fn is_of_other(known: &Known, pool: &Id) -> bool
    ensures { result ≡ spec.is_of_other pool.now.0 known.now }
{
    match &known.copied {
        Some(copy) => !are_same(&copy.state.pool, pool),
        None => false,
    }
}

/// Whether two ids are the same.
fn are_same(id: &Id, other: &Id) -> bool
    ensures { result ≡ bytes_eq id.now.0 other.now.0 }
{
    id.0.as_slice() == other.0.as_slice()
}

/// The epoch of a disk's copy; one without a copy has the lowest.
fn epoch_at(known: &[Known], disk: u32) -> u64
    ensures { result ≡ spec.epoch_at known.now disk }
{
    match copy_at(known, disk as usize) {
        Some(copy) => copy.state.epoch,
        None => 0,
    }
}

/// The lowest place of a drive with this id.
fn place_with(drives: &[Drive], id: &Id) -> Option<usize>
    ensures { result ≡ position (λ drive. bytes_eq drive.id.0 id.now.0) drives.now }
{
    drives.iter().position(|drive| are_same(&drive.id, id))
}

/// The place for which a disk stands.
fn place_of(state: &State, known: &Known) -> Option<usize>
    ensures { result ≡ option_and_then (λ id. position (λ drive. bytes_eq drive.id.0 id) state.now.drives.items) (id_in known.now) }
{
    match &known.id {
        Some(id) => place_with(state.drives.as_slice(), id),
        None => None,
    }
}

/// A disk, if it stands for a place.
fn standing(known: &[Known], state: &State, place: u32, disk: u32) -> Option<u32>
    ensures { result ≡ spec.standing state.now known.now place disk }
{
    let stands = match known.get(disk as usize) {
        Some(known) => place_of(state, known),
        None => None,
    };
    if stands == Some(place as usize) {
        Some(disk)
    } else {
        None
    }
}

/// The disk of higher epoch, of equal ones the first.
fn ahead(known: &[Known], first: Option<u32>, second: Option<u32>) -> Option<u32>
    ensures { result ≡ option_map_or (λ d. ahead_by (spec.epoch_at known.now) d second) first second }
{
    match (first, second) {
        (Some(d), Some(e)) if epoch_at(known, d) >= epoch_at(known, e) => Some(d),
        (Some(d), None) => Some(d),
        _ => second,
    }
}

/// Of the disks that stand for a place that of highest epoch, of equal ones the lowest.
fn foremost_of(known: &[Known], state: &State, place: u32) -> Option<u32>
    requires { length known.now < 2 ^ 32 }
    ensures { result ≡ foremost (spec.epoch_at known.now) (map (spec.standing state.now known.now place) (range_with_len 0 (length known.now))) }
{
    let count = known.len() as u32;
    let mut best = None;
    for after in 0..count {
        best = ahead(
            known,
            standing(known, state, place, count - 1 - after),
            best,
        );
    }
    best
}
