//! What an array knows of its members, and how that changes with their drives.

ghost use Rattle.std.specs.List.{list_all};
ghost use Rattle.std.specs.Option.{option_copied};
ghost use Rattle.arrayvec.specs.ArrayVec.{array_vec_len};
ghost use Rattle.std.specs.Prelude.{nat_lt, ◌++◌, ◌||◌, ◌&&◌, ◌==◌, ◌%◌, ◌<◌, ◌+◌, if◌then◌else◌, ◌≡◌, ◌≤◌, ◌∷◌, [], map, option_map, length, Some, None, Option, true};
ghost use Rattle.array_model.specs.declared.Seat.TheVariants.{Missing};
ghost use Rattle.array_model.specs.View.{sectors_of, rows_of};
ghost use Rattle.array_image.specs.Places.{member_id};
ghost use Rattle.array_core.specs.Model.{is_truth};
ghost use Rattle.array_core.specs.Seats as spec;

use crate::Array;
use crate::opening::{CHUNK, REBUILDING};
use crate::slots::Slot;
use array_model::Seat;
use arrayvec::ArrayVec;
use md_super::Super;
use rack::Places;
use shr_base::{Id, child_id};

/// The feature bit of an array that is being reshaped.
pub(crate) const RESHAPING: u32 = 4;

/// The kind of a member's id.
const MEMBER: u8 = 3;

impl Array {
    /// The array's superblock: of its fields those of the array count.
    pub fn truth(&self) -> &Super
        ensures { result.now ≡ self.now.truth }
    {
        &self.truth
    }

    /// The seat of the member on a place.
    pub fn seat(&self, place: u32) -> Option<Seat>
        ensures { result ≡ spec.seat_of self.now place }
    {
        match slot_at(self.slots.as_slice(), place) {
            Some(slot) => Some(slot.seat),
            None => None,
        }
    }

    /// The sectors of the array.
    pub fn sectors(&self) -> u64
        ensures { result ≡ sectors_of self.now }
    {
        data_disks(&self.truth) * self.truth.size
    }

    /// The rows of its members' data.
    pub fn rows(&self) -> u64
        ensures { result ≡ rows_of self.now }
    {
        self.truth.size / CHUNK
    }

    /// The first row left to resync, and the number of rows where none is.
    pub fn resync_from(&self) -> u64
        ensures { result ≡ self.now.resync }
    {
        self.resync
    }

    /// Whether it is young: made anew, and not given to the volume yet. Its rows are left to zero, and none to resync.
    pub fn is_young(&self) -> bool
        ensures { result ≡ self.now.young }
    {
        self.young
    }

    /// The places that answered `Gone` since they were last heeded, in order. They are below 16.
    pub fn went(&self) -> &Places
        ensures places { result.now.items ≡ self.now.went }
        ensures few { list_all (λ place. nat_lt place 16) self.now.went ≡ true }
    {
        &self.went
    }

    /// The member of a place is missing from then on. Nothing changes where the place is no member.
    pub fn lose(&mut self, place: u32)
        ensures { self.new ≡ spec.losing (place ∷ []) self.old }
    {
        self.slots = reseated(self.slots.as_slice(), &[place], Seat::Missing, None);
    }

    /// The member of a place is on a new drive, and is rebuilt from row 0 on.
    pub fn renew(&mut self, place: u32, drive: &Id)
        requires { spec.seat_of self.old place ≡ Some Missing }
        ensures { self.new ≡ spec.renewed place drive.now self.old }
    {
        let device = child_id(drive, MEMBER, self.number, 0);
        self.slots = reseated(
            self.slots.as_slice(),
            &[place],
            Seat::Rebuilding { to: 0 },
            Some(device),
        );
    }

    /// It is young no more: the volume has it from then on. No row is left to resync in an array whose rows are all zeroed.
    pub fn ready(&mut self)
        ensures { self.new ≡ spec.ready self.old }
    {
        self.young = false;
    }

    /// Rebuilds that don't stand between two rows of their member's data begin again from row 0. On sound contents none is such.
    pub fn restart_rebuilds(&mut self)
        ensures { self.new ≡ spec.restarted self.old }
    {
        self.slots = restarted(self.slots.as_slice(), self.truth.size);
    }

    /// The members of these places, which are below 16, are missing from then on, and the places went.
    pub fn gone(&mut self, places: &Places)
        ensures { self.new ≡ spec.gone places.now.items self.old }
    {
        self.slots = reseated(
            self.slots.as_slice(),
            places.as_slice(),
            Seat::Missing,
            None,
        );
        self.went = joined(&self.went, places);
    }

    /// Nobody went from then on.
    pub fn heed(&mut self)
        ensures { self.new ≡ spec.heeded self.old }
    {
        self.went = Places::new();
    }
}

/// The member on a place.
pub(crate) fn slot_at(slots: &[Slot], place: u32) -> Option<&Slot>
    ensures { option_copied result ≡ spec.slot_at slots.now place }
{
    slots.iter().find(|slot| slot.place == place)
}

/// How many members' data make the array's sectors.
fn data_disks(truth: &Super) -> u64
    requires { is_truth truth.now ≡ true }
    ensures { result ≡ spec.data_disks truth.now }
{
    if truth.feature_map & RESHAPING == RESHAPING {
        u64::from(truth.raid_disks) - 2
    } else if truth.level == 1 {
        1
    } else {
        u64::from(truth.raid_disks) - 1
    }
}

/// The members once those of some places have this seat, and this id.
fn reseated(slots: &[Slot], places: &[u32], seat: Seat, device: Option<Id>) -> ArrayVec<Slot, 16>
    requires { length slots.now ≤ 16 }
    ensures { result.items ≡ map (spec.reseated places.now seat device) slots.now }
{
    let mut changed = ArrayVec::new();
    for slot in slots {
        changed.push(with_seat(*slot, places, seat, device));
    }
    changed
}

/// A member with this seat and id, if its place is one of these.
fn with_seat(slot: Slot, places: &[u32], seat: Seat, device: Option<Id>) -> Slot
    ensures { result ≡ spec.reseated places.now seat device slot }
{
    if places.contains(&slot.place) {
        Slot {
            place: slot.place,
            seat,
            device: device.unwrap_or(slot.device),
        }
    } else {
        slot
    }
}

/// The members, with rebuilds begun again that don't stand between two rows.
fn restarted(slots: &[Slot], size: u64) -> ArrayVec<Slot, 16>
    requires { length slots.now ≤ 16 }
    ensures { result.items ≡ map (spec.restarted_slot size) slots.now }
{
    let mut changed = ArrayVec::new();
    for slot in slots {
        changed.push(Slot {
            place: slot.place,
            seat: restart(slot.seat, size),
            device: slot.device,
        });
    }
    changed
}

/// A rebuild that doesn't stand between two rows of a member's data begins again.
fn restart(seat: Seat, size: u64) -> Seat
    ensures { result ≡ spec.restart size seat }
{
    match seat {
        Seat::Rebuilding { to } => Seat::Rebuilding {
            to: row_start(to, size),
        },
        other => other,
    }
}

/// A sector where a row of a member's data begins; any other sector is taken for the first one.
fn row_start(to: u64, size: u64) -> u64
    ensures { result ≡ (if (to % 128 == 0) && nat_lt to size then to else 0) }
{
    if to % CHUNK == 0 && to < size { to } else { 0 }
}

/// The places of two lists, in order.
pub(crate) fn joined(first: &Places, second: &Places) -> Places
    ensures { result.items ≡ spec.joined first.now.items second.now.items }
{
    let mut places = Places::new();
    for place in 0..16 {
        push_if(&mut places, place, has_either(first, second, place));
    }
    places
}

/// Whether one of two lists has this place.
fn has_either(first: &Places, second: &Places, place: u32) -> bool
    ensures { result ≡ (spec.names first.now.items place || spec.names second.now.items place) }
{
    first.contains(&place) || second.contains(&place)
}

/// Appends a place if it is wanted.
fn push_if(places: &mut Places, place: u32, wanted: bool)
    requires { array_vec_len places.old < 16 }
    ensures items { places.new.items ≡ places.old.items ++ (if wanted then place ∷ [] else []) }
    ensures few { array_vec_len places.new ≤ array_vec_len places.old + 1 }
{
    if wanted {
        places.push(place);
    }
}
