//! The superblocks of an array's members, and how the array changes with them.

ghost use Rattle.std.specs.Prelude.{◌≡◌, ◌≢◌, ◌⊎◌, ◌≤◌, ◌==◌, ◌&&◌, [], map, length, true, false};
ghost use Rattle.array_image.specs.SoundArray.{first_unsynced};
ghost use Rattle.array_core.specs.Model.{is_truth};
ghost use Rattle.array_core.specs.Slots.{places_by};
ghost use Rattle.array_core.specs.Superblocks as spec;
ghost use Rattle.array_core.specs.Settling.{unsynced};

use crate::opening::{CHUNK, REBUILDING, copied, is_unclean, place_by, resync_by};
use crate::seats::{RESHAPING, slot_at};
use crate::slots::Slot;
use crate::{Array, Change};
use array_model::Seat;
use arrayvec::ArrayVec;
use md_super::{Super, encode};

/// The `resync_offset` of an array that has no row left to resync.
const SYNCED: u64 = u64::MAX;

/// The last count of events of a valid superblock.
const LAST_EVENTS: u64 = (1 << 63) - 1;

impl Array {
    /// The array is that of a change: of its array fields, with that member rebuilt so far, and no longer rebuilding where that is
    /// all of it. A member that its roles newly name is whole, and one that is missing stays so. Rows left to resync, and the mark
    /// of this run, change only with `resync_offset`.
    pub fn adopt(&mut self, change: &Change)
        requires { is_truth change.now.truth ≡ true }
        ensures { self.new ≡ spec.adopted change.now self.old }
    {
        self.slots = adopted_slots(self.slots.as_slice(), change);
        self.resync = adopted_resync(self.young, self.resync, &self.truth, &change.truth);
        self.marked = adopted_mark(self.marked, &self.truth, &change.truth);
        self.truth = copied(&change.truth);
    }

    /// The change by which rows are left to resync, or in a young array to zero, from a sector of the members' data on, with one
    /// more event.
    pub fn resynced_to(&self, offset: u64) -> Change
        ensures change { result ≡ spec.resynced_to self.now offset }
        ensures truth { is_truth result.truth ≡ true }
    {
        let mut truth = copied(&self.truth);
        truth.events = raised(truth.events);
        truth.resync_offset = offset;
        Change {
            truth,
            place: None,
            to: 0,
        }
    }

    /// The change by which the member of a place is rebuilt up to a sector of its data.
    pub fn rebuilt_to(&self, place: u32, to: u64) -> Change
        ensures change { result ≡ spec.rebuilt_by self.now place to }
        ensures truth { is_truth result.truth ≡ true }
    {
        Change {
            truth: copied(&self.truth),
            place: Some(place),
            to,
        }
    }

    /// The member sector from which rows are left to resync, or in a young array to zero; all ones where none is.
    pub(crate) fn left_from(&self) -> u64
        ensures { result ≡ spec.left_offset self.now }
    {
        if self.young {
            if is_unclean(&self.truth) {
                self.truth.resync_offset
            } else {
                SYNCED
            }
        } else if self.resync < self.truth.size / CHUNK {
            self.resync * CHUNK
        } else {
            SYNCED
        }
    }

    /// Whether the truth says so already.
    pub(crate) fn is_settled(&self) -> bool
        ensures { result ≡ spec.is_settled self.now }
    {
        self.truth.resync_offset == self.left_from()
    }

    /// Whether a place has gone.
    pub(crate) fn has_lost(&self) -> bool
        ensures some { result ≡ true → self.now.went ≢ [] }
        ensures none { result ≡ false → self.now.went ≡ [] }
    {
        !self.went.is_empty()
    }

    /// The truth has one more event.
    fn count_event(&mut self)
        ensures { self.new ≡ record self.old { truth = record self.old.truth { events = spec.raised self.old.truth.events } } }
    {
        self.truth.events = raised(self.truth.events);
    }

    /// The truth leaves all rows to resync, with one more event.
    pub(crate) fn unsync_truth(&mut self)
        ensures { self.new ≡ unsynced self.old }
    {
        self.count_event();
        self.truth.resync_offset = 0;
        self.marked = false;
    }

    /// The array is marked where nobody went.
    pub(crate) fn mark_if_all(&mut self)
        ensures { ((self.old.went ≡ []) × (self.new ≡ record self.old { marked = true })) ⊎ ((self.old.went ≢ []) × (self.new ≡ self.old)) }
    {
        if !self.has_lost() {
            self.marked = true;
        }
    }

    /// Whether its `resync_offset` was made 0 durably by a write of this run.
    pub fn is_marked(&self) -> bool
        ensures { result ≡ self.now.marked }
    {
        self.marked
    }

    /// Each row that its truth leaves to resync is left.
    pub fn unsynced_rows(&self)
        ensures { first_unsynced self.now.truth ≤ self.now.resync }
    {
        let _number = self.number;
    }

    /// Its truth is one that an array can go by.
    pub fn truth_rules(&self)
        ensures { is_truth self.now.truth ≡ true }
    {
        let _number = self.number;
    }

    /// The truth says so, with one more event. A mark that this run made is taken back.
    pub(crate) fn settle_truth(&mut self)
        ensures { self.new ≡ spec.settled self.old }
    {
        let left = self.left_from();
        self.count_event();
        self.truth.resync_offset = left;
        self.marked = false;
    }
}

/// One more event; it stands still at the last count of a valid superblock.
fn raised(events: u64) -> u64
    ensures { result ≡ spec.raised events }
{
    if events < LAST_EVENTS {
        events + 1
    } else {
        events
    }
}

/// Whether a change of superblocks leaves what is left to resync, and the mark.
fn keeps_rows(old: &Super, new: &Super) -> bool
    ensures { result ≡ spec.keeps_rows old.now new.now }
{
    new.resync_offset == old.resync_offset && new.size == old.size
}

/// The first row left to resync after a change of superblocks.
fn adopted_resync(young: bool, resync: u64, old: &Super, new: &Super) -> u64
    ensures { result ≡ spec.adopted_resync young resync old.now new.now }
{
    if keeps_rows(old, new) {
        resync
    } else {
        resync_by(young, new)
    }
}

/// Whether the mark of this run stands after it.
fn adopted_mark(marked: bool, old: &Super, new: &Super) -> bool
    ensures { result ≡ (marked && spec.keeps_rows old.now new.now) }
{
    marked && keeps_rows(old, new)
}

/// The members after a change, by position.
pub(crate) fn adopted_slots(slots: &[Slot], change: &Change) -> ArrayVec<Slot, 16>
    requires { change.now.truth.raid_disks ≤ 16 }
    ensures { result.items ≡ map (spec.adopted_slot slots.now change.now) (places_by change.now.truth) }
{
    let mut adopted = ArrayVec::new();
    for position in 0..change.truth.raid_disks {
        let place = place_by(&change.truth, position);
        adopted.push(adopted_slot(slots, change, place));
    }
    adopted
}

/// The member of a place after a change.
fn adopted_slot(slots: &[Slot], change: &Change, place: u32) -> Slot
    ensures { result ≡ spec.adopted_slot slots.now change.now place }
{
    match slot_at(slots, place) {
        Some(slot) => Slot {
            place,
            seat: adopted_seat(change, place, slot.seat),
            device: slot.device,
        },
        None => Slot {
            place,
            seat: Seat::Whole,
            device: change.truth.device_id,
        },
    }
}

/// The seat of a member after a change.
fn adopted_seat(change: &Change, place: u32, seat: Seat) -> Seat
    ensures { result ≡ spec.adopted_seat change.now place seat }
{
    if seat == Seat::Missing || change.place != Some(place) {
        return seat;
    }
    if change.to == change.truth.size {
        Seat::Whole
    } else {
        Seat::Rebuilding { to: change.to }
    }
}

/// The sector of a member's superblock.
pub(crate) fn member_sector(truth: &Super, slot: &Slot) -> [u8; 512]
    requires { length truth.now.roles.items ≡ 128 }
    ensures { spec.IsSectorOf (spec.member_super truth.now slot.now) result }
{
    encode(&member_super(truth, slot))
}

/// The superblock of a member, with the array's fields of the truth.
fn member_super(truth: &Super, slot: &Slot) -> Super
    ensures { result ≡ spec.member_super truth.now slot.now }
{
    let mut own = copied(truth);
    own.feature_map = features(truth, slot.seat);
    own.recovery_offset = rebuilt_to(slot.seat);
    own.dev_number = slot.place;
    own.device_id = slot.device;
    own
}

/// The feature bits of a member: those of its reshape and its rebuild.
fn features(truth: &Super, seat: Seat) -> u32
    ensures { result ≡ spec.features truth.now seat }
{
    let reshaping = if truth.feature_map & RESHAPING == RESHAPING {
        RESHAPING
    } else {
        0
    };
    match seat {
        Seat::Rebuilding { .. } => reshaping + REBUILDING,
        Seat::Whole | Seat::Missing => reshaping,
    }
}

/// The sectors of a member's data that are rebuilt, where it is being rebuilt.
fn rebuilt_to(seat: Seat) -> u64
    ensures { result ≡ spec.rebuilt_to seat }
{
    match seat {
        Seat::Rebuilding { to } => to,
        Seat::Whole | Seat::Missing => 0,
    }
}
