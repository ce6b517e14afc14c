//! The members of an array: who counts where, and where a sector stands.

ghost use Rattle.std.specs.Prelude.{count_by, not, ◌≢◌, ◌==◌, ◌&&◌, false, slice_get, ◌≡◌, ◌<◌, ◌≤◌, ◌^◌, ℕ, Some, None, nat_lt, true, IfSome, IfNone, ◌+◌};
ghost use Rattle.std.specs.List.{list_all};
ghost use Rattle.raid_map.specs.LeftSymmetric.{parity_at, row_at, sector_of};
ghost use Rattle.array_image.specs.Stripes.{mirror, parity, width, position_in, sector_in};
ghost use Rattle.array_image.specs.Supers.{is_reshaping};
ghost use Rattle.md_super.specs.Profile.{is_mirror};
ghost use Rattle.array_image.specs.Arrays.{final_layout, layout_at};
ghost use Rattle.array_image.specs.Held.{source_in, first_counting};
ghost use Rattle.array_image.specs.Spent.{wanting, spent_with};
ghost use Rattle.array_model.specs.declared.Seat.TheVariants.{Missing};
ghost use Rattle.array_model.specs.View.{IsArray, is_alone, is_missing_seat, is_whole_array, is_whole_seat, rows_of, place_at, member_on, shape_of, sectors_of, spent_in};
ghost use Rattle.array_model.specs.Members.{members_of, row_layout, slice_on};
ghost use Rattle.array_model.proofs.Firsts.{firsts};
ghost use Rattle.array_core.specs.Stands.{IsSlot, IsStand, layout_of};

use crate::slots::Slot;
use crate::{Array, Seat};
use md_super::Super;
use raid_map::{CHUNK_SECTORS, place};

/// The feature bit of an array that is being reshaped.
const RESHAPING: u32 = 4;

/// Whether an array is being reshaped.
fn is_reshaping(truth: &Super) -> bool
    ensures { result ≡ is_reshaping truth.now }
{
    truth.feature_map & RESHAPING == RESHAPING
}

/// Whether an array is a mirror.
fn is_mirror(truth: &Super) -> bool
    ensures { result ≡ is_mirror truth.now }
{
    truth.level == 1
}

/// Whether four things hold.
fn are_all(first: bool, second: bool, third: bool, fourth: bool) -> bool
    ensures { result ≡ (first && (second && (third && fourth))) }
{
    first && second && third && fourth
}

/// Whether all data of each member counts.
fn are_whole(slots: &[Slot]) -> bool
    ensures { result ≡ list_all (λ s. is_whole_seat s.seat) slots.now }
{
    slots.iter().all(|slot| is_whole_seat(slot.seat))
}

/// Whether all data of a member counts.
fn is_whole_seat(seat: Seat) -> bool
    ensures { result ≡ is_whole_seat seat }
{
    match seat {
        Seat::Whole => true,
        Seat::Missing => false,
        Seat::Rebuilding { .. } => false,
    }
}

/// How many members aren't missing.
fn present(slots: &[Slot]) -> usize
    ensures { result ≡ count_by (λ s. not (is_missing_seat s.seat)) slots.now }
{
    slots
        .iter()
        .filter(|slot| slot.seat != Seat::Missing)
        .count()
}

/// How a sector's row is spread over the members.
#[derive(Clone, Copy, Debug, PartialEq, Eq)]
pub(crate) enum Spread {
    /// Copies on the first so many members.
    Mirror { members: u32 },
    /// Chunks and a parity on the first so many members.
    Parity { members: u32 },
}

/// Where a sector of the array stands.
#[derive(Clone, Copy, Debug, PartialEq, Eq)]
pub(crate) struct Stand {
    pub spread: Spread,
    /// The position that has it.
    pub position: usize,
    /// The sector of that member's data.
    pub sector: u64,
}

impl Array {
    /// What holds of each array.
    pub fn rules(&self)
        ensures { IsArray self.now }
    {
        let _number = self.number;
    }

    /// How many members it has.
    pub(crate) fn members(&self) -> usize
        ensures { result ≡ self.now.truth.raid_disks }
    {
        self.slots.len()
    }

    /// What is known of the member at a position.
    pub(crate) fn slot(&self, position: usize) -> Slot
        requires { position < self.now.truth.raid_disks }
        ensures { IsSlot self.now position result }
    {
        match self.slots.get(position) {
            Some(slot) => *slot,
            None => Slot::default(),
        }
    }

    /// The place of a member's drive.
    pub(crate) fn place_on(&self, position: usize) -> u32
        requires { position < self.now.truth.raid_disks }
        ensures place { result ≡ place_at self.now position }
        ensures few { result < 16 }
    {
        self.slot(position).place
    }

    /// The slice of a member.
    pub(crate) fn slice(&self, position: usize) -> u32
        requires { position < self.now.truth.raid_disks }
        ensures { result ≡ slice_on self.now position }
    {
        let place = self.place_on(position);
        17 * place + self.number + 1
    }

    /// The position of a member's place.
    pub fn position(&self, place: u32) -> u32
        requires { (k : ℕ) × (k < self.now.truth.raid_disks) × (place_at self.now k ≡ place) }
        ensures position { result < self.now.truth.raid_disks }
        ensures place { place_at self.now result ≡ place }
    {
        self.rules();
        for position in 0..self.truth.raid_disks {
            if self.place_on(position as usize) == place {
                return position;
            }
        }
        0
    }

    /// The seat of the member at a position.
    pub fn seat_on(&self, position: u32) -> Seat
        requires { position < self.now.truth.raid_disks }
        ensures { slice_get self.now.seats position ≡ Some result }
    {
        self.slot(position as usize).seat
    }

    /// The slice of a member.
    pub fn slice_at(&self, position: u32) -> u32
        requires { position < self.now.truth.raid_disks }
        ensures { result ≡ slice_on self.now position }
    {
        self.slice(position as usize)
    }

    /// Whether a member is missing.
    pub(crate) fn is_missing(&self, position: usize) -> bool
        requires { position < self.now.truth.raid_disks }
        ensures missing { result ≡ true → slice_get self.now.seats position ≡ Some Missing }
        ensures there { result ≡ false → slice_get self.now.seats position ≢ Some Missing }
    {
        match self.slot(position).seat {
            Seat::Whole => false,
            Seat::Missing => true,
            Seat::Rebuilding { .. } => false,
        }
    }

    /// Whether each member counts in all rows, none is left to resync, and the array is neither young nor reshaping.
    pub(crate) fn is_whole(&self) -> bool
        ensures { result ≡ is_whole_array self.now }
    {
        are_all(
            are_whole(self.slots.as_slice()),
            self.is_resynced(),
            !self.young,
            !is_reshaping(&self.truth),
        )
    }

    /// Whether no row is left to resync.
    fn is_resynced(&self) -> bool
        ensures { result ≡ (self.now.resync == rows_of self.now) }
    {
        self.resync == self.truth.size / CHUNK_SECTORS
    }

    /// The sectors of a member's data.
    pub(crate) fn size(&self) -> u64
        ensures { result ≡ self.now.truth.size }
    {
        self.truth.size
    }

    /// Whether the array is a mirror of which one member at most is left.
    pub(crate) fn is_alone(&self) -> bool
        ensures { result ≡ is_alone self.now }
    {
        if !is_mirror(&self.truth) {
            return false;
        }
        present(self.slots.as_slice()) <= 1
    }

    /// Whether a member counts at a sector of its data.
    pub(crate) fn counts(&self, position: usize, sector: u64) -> bool
        requires { position < self.now.truth.raid_disks }
        ensures { result ≡ nat_lt sector (member_on self.now position).reach }
    {
        match self.slot(position).seat {
            Seat::Whole => sector < self.size(),
            Seat::Missing => false,
            Seat::Rebuilding { to } => sector < to,
        }
    }

    /// How many members don't count at a sector of their data.
    pub fn wanting(&self, sector: u64) -> usize
        ensures { result ≡ wanting sector (members_of self.now) }
    {
        let mut wanting = 0;
        for position in 0..self.members() {
            if !self.counts(position, sector) {
                wanting += 1;
            }
        }
        wanting
    }

    /// Whether a row can't be had any more at a sector of its members' data.
    pub(crate) fn is_spent_at(&self, sector: u64) -> bool
        ensures { result ≡ spent_with (wanting sector (members_of self.now)) (nat_lt (row_at sector) self.now.resync) }
    {
        let wanting = self.wanting(sector);
        wanting > 1 || (wanting > 0 && !(sector / CHUNK_SECTORS < self.resync))
    }

    /// How the row of a sector of the array is spread.
    fn spread(&self, x: u64) -> Spread
        ensures { layout_of result ≡ layout_at (shape_of self.now) x }
    {
        let members = self.truth.raid_disks;
        if is_reshaping(&self.truth) {
            if x < self.truth.reshape_position {
                Spread::Parity { members }
            } else {
                Spread::Parity {
                    members: members - 1,
                }
            }
        } else if is_mirror(&self.truth) {
            Spread::Mirror { members }
        } else {
            Spread::Parity { members }
        }
    }

    /// Whether the array is a mirror.
    pub(crate) fn mirrors(&self) -> bool
        ensures mirror { result ≡ true → final_layout self.now.truth ≡ mirror self.now.truth.raid_disks }
        ensures parity { result ≡ false → final_layout self.now.truth ≡ parity self.now.truth.raid_disks }
    {
        is_mirror(&self.truth)
    }

    /// Whether a sector of the array can't be had any more.
    pub fn is_spent(&self, x: u64) -> bool
        requires { x < sectors_of self.now }
        ensures { result ≡ spent_in self.now x }
    {
        let at = self.stand(x);
        self.is_spent_at(at.sector)
    }

    /// Where a sector of the array stands.
    pub(crate) fn stand(&self, x: u64) -> Stand
        requires { x < sectors_of self.now }
        ensures spread { layout_of result.spread ≡ layout_at (shape_of self.now) x }
        ensures position { result.position ≡ position_in (layout_at (shape_of self.now) x) x }
        ensures sector { result.sector ≡ sector_in (layout_at (shape_of self.now) x) x }
        ensures stand { IsStand self.now result }
    {
        self.rules();
        let spread = self.spread(x);
        match spread {
            Spread::Mirror { .. } => Stand {
                spread,
                position: 0,
                sector: x,
            },
            Spread::Parity { members } => {
                let spot = place(members, x);
                Stand {
                    spread,
                    position: spot.member as usize,
                    sector: spot.sector,
                }
            }
        }
    }

    /// Where the parity of a sector of the array stands, in RAID-5 that doesn't reshape.
    pub(crate) fn parity_stand(&self, x: u64) -> Stand
        requires still { is_reshaping self.now.truth ≡ false }
        requires layout { final_layout self.now.truth ≡ parity self.now.truth.raid_disks }
        requires sector { x < sectors_of self.now }
        ensures position { result.position ≡ parity_at self.now.truth.raid_disks result.sector }
        ensures sector { result.sector ≡ sector_of self.now.truth.raid_disks x }
        ensures stand { IsStand self.now result }
    {
        self.rules();
        let members = self.members() as u32;
        let spot = place(members, x);
        Stand {
            spread: Spread::Parity { members },
            position: spot.parity as usize,
            sector: spot.sector,
        }
    }

    /// The first of so many members that counts at a sector of its data.
    pub(crate) fn first(&self, members: u32, sector: u64) -> Option<usize>
        requires { members ≤ self.now.truth.raid_disks }
        ensures found { IfSome result (λ k. (k < members) × (first_counting sector (firsts self.now members) ≡ Some (member_on self.now k))) }
        ensures none { IfNone result (first_counting sector (firsts self.now members) ≡ None) }
    {
        for position in 0..members as usize {
            if self.counts(position, sector) {
                return Some(position);
            }
        }
        None
    }

    /// The member whose own sector gives a row's sector, if it counts.
    pub(crate) fn source(&self, at: &Stand) -> Option<usize>
        requires { IsStand self.now at.now }
        ensures found { IfSome result (λ k. (k < self.now.truth.raid_disks)
            × (source_in (layout_of at.now.spread) at.now.sector at.now.position (members_of self.now) ≡ Some (member_on self.now k))) }
        ensures none { IfNone result (source_in (layout_of at.now.spread) at.now.sector at.now.position (members_of self.now) ≡ None) }
    {
        match at.spread {
            Spread::Mirror { members } => self.first(members, at.sector),
            Spread::Parity { .. } => {
                if self.counts(at.position, at.sector) {
                    Some(at.position)
                } else {
                    None
                }
            }
        }
    }

    /// How a row of the members' data is spread.
    pub(crate) fn row_spread(&self, sector: u64) -> Spread
        requires { sector < self.now.truth.size }
        ensures { layout_of result ≡ row_layout self.now sector }
    {
        self.rules();
        let members = self.truth.raid_disks;
        if is_reshaping(&self.truth) {
            let first = sector / CHUNK_SECTORS * (CHUNK_SECTORS * (u64::from(members) - 1));
            if first < self.truth.reshape_position {
                Spread::Parity { members }
            } else {
                Spread::Parity {
                    members: members - 1,
                }
            }
        } else if is_mirror(&self.truth) {
            Spread::Mirror { members }
        } else {
            Spread::Parity { members }
        }
    }

    /// A position of a row of the members' data.
    pub(crate) fn in_row(&self, position: u32, sector: u64) -> Stand
        requires position { position < width (row_layout self.now sector) }
        requires sector { sector < self.now.truth.size }
        ensures spread { layout_of result.spread ≡ row_layout self.now sector }
        ensures position { result.position ≡ position }
        ensures sector { result.sector ≡ sector }
        ensures stand { IsStand self.now result }
    {
        self.rules();
        let spread = self.row_spread(sector);
        Stand {
            spread,
            position: position as usize,
            sector,
        }
    }
}
