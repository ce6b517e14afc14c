//! The volume.

ghost use Rattle.std.specs.Prelude.{◌≡◌, ◌<◌, ◌≤◌, ◌+◌, ◌^◌, length, true, vec_capacity};
ghost use Rattle.lvm_group.specs.Group.{all_apart};
ghost use Rattle.lvm_group.specs.Own.{in_row};
ghost use Rattle.lvm_group.specs.Runs.{IsOrderly, extents_of};
ghost use Rattle.lvm_group.specs.Shown.{IsInside, volume_of};
ghost use Rattle.lvm_group.specs.Laws.{is_sound};

use crate::changing::{bring_up, next_seqno, put_grown};
use crate::founding::NewGroup;
use crate::growth::{copy, fits, grow};
use crate::making::{extents_in, make, take_room, take_room_to_open};
use crate::opening::find_runs;
use crate::runs::{Run, Spot, spot_with};
use crate::syncing::sync_first;
use lvm_label::{encoded_headers_decode, encoded_labels_decode};
use lvm_text::Text;
use rack::{Back, Gone, Rack};
use shr_base::Id;
use std::alloc::Global;
use std::mem::swap;

/// Why a volume can't be made or opened.
#[derive(Clone, Copy, Debug, PartialEq, Eq)]
pub enum VolumeFault {
    /// An array's part of the group is bad, or the array refused a call.
    BadVolume {
        /// The number of the array.
        array: u32,
    },
    /// No memory; nothing was called.
    Memory,
}

/// A linear volume over arrays: a rack of one disk.
#[derive(Drop)]
pub struct Volume<R> {
    rack: R,
    /// The id of the pool.
    pool: Id,
    /// The sectors of an extent.
    extent: u64,
    /// How many arrays the volume is over, the lowest ones of the rack.
    arrays: u32,
    /// Its extents.
    extents: u64,
    /// The seqno of the group's text.
    seqno: u64,
    runs: Vec<Run>,
    /// Room for the runs of an extended volume.
    spare: Vec<Run>,
    /// Room for its text.
    text: Text,
    ghost orderly: { IsOrderly (record { extent = extent; arrays = arrays; runs = runs.items }) },
    ghost row: { in_row 0 runs.items ≡ true },
    ghost apart: { all_apart runs.items ≡ true },
    ghost counted: { extents ≡ extents_of runs.items },
    ghost few: { length runs.items ≤ 1024 },
    ghost numbered: { seqno < 2 ^ 63 },
    ghost runs_room: { 1024 ≤ vec_capacity runs },
    ghost spare_room: { 1024 ≤ vec_capacity spare },
    ghost text_room: { 262144 ≤ length text.bytes + text.spare },
}

impl<R: Rack> Rack for Volume<R> {
    ghost use Rattle.std.specs.Prelude.{◌+◌};
    ghost use Rattle.rack.specs.Several.{Several};
    ghost use Rattle.lvm_group.specs.Volume.{linear};
    ghost use Rattle.lvm_group.specs.Framed.{Frames, frames_same, frames_then};

    ghost seen = { λ volume. volume_of (linear volume) (R.seen volume.rack) };

    ghost runs = { λ old new. R.runs old.rack new.rack × Frames R.seen old new };

    // A read or a write is one call below, and a sync at most one for each array.
    ghost once = { λ old new. Several R.once (1 + (linear old).arrays) old.rack new.rack };

    ghost unwritten = { λ old new. R.unwritten old.rack new.rack };

    fn disks(&self) -> u32 {
        1
    }

    fn sectors(&self, _disk: u32) -> u64 {
        self.extents * self.extent
    }

    fn read(&mut self, disk: u32, sector: u64, into: &mut [u8; 512]) -> Result<(), Gone> {
        let spot = self.spot(sector);
        match self.rack.read(spot.array, spot.sector, into) {
            Ok(()) => Ok(()),
            Err(_) => Err(Gone { disk }),
        }
    }

    fn write(&mut self, disk: u32, sector: u64, from: &[u8; 512]) -> Result<(), Gone> {
        let spot = self.spot(sector);
        match self.rack.write(spot.array, spot.sector, from) {
            Ok(()) => Ok(()),
            Err(_) => Err(Gone { disk }),
        }
    }

    fn sync(&mut self, disk: u32) -> Result<(), Gone> {
        match sync_first(&mut self.rack, self.arrays) {
            Ok(()) => Ok(()),
            Err(_) => Err(Gone { disk }),
        }
    }

    ghost sound = { λ volume fit traced. is_sound (linear volume) (R.seen volume.rack) volume.orderly fit.1 (R.sound volume.rack fit.0 traced) };

    ghost runs_same = { λ volume. (R.runs_same volume.rack, frames_same R.seen volume) };

    ghost runs_then = { λ x y z one two. (R.runs_then x.rack y.rack z.rack one.0 two.0, frames_then R.seen x y z one.1 two.1) };

    ghost unwritten_same = { λ volume. R.unwritten_same volume.rack };

    ghost unwritten_then = { λ x y z. R.unwritten_then x.rack y.rack z.rack };
}

impl<R: Rack> Volume<R> {
    ghost use Rattle.std.specs.Prelude.{◌<◌, ◌≤◌, ◌^◌, IfErr, IfOk, IsTrue, Ok, OnErr, OnOk, length, slice_index, ℕ};
    ghost use Rattle.lvm_text.specs.Printed.{printed};
    ghost use Rattle.lvm_group.specs.Changing.{Changes};
    ghost use Rattle.lvm_group.specs.Extending.{KeepsPlaces, extended, next_group, next_seqno};
    ghost use Rattle.lvm_group.specs.Founding as founding;
    ghost use Rattle.lvm_group.specs.Founding.{extent_of, numbers_of, sectors_of};
    ghost use Rattle.lvm_group.specs.Growth.{AreBelow, fits};
    ghost use Rattle.lvm_group.specs.Brought.{BringsUp};
    ghost use Rattle.lvm_group.specs.Images.{IsNew, IsOldOrNew};
    ghost use Rattle.rack.specs.Moments.{Leaves};
    ghost use Rattle.rack.specs.Several.{Several};
    ghost use Rattle.lvm_group.specs.Made.{IsUnmade, Makes, made_targets, new_volume};
    ghost use Rattle.lvm_group.specs.Own.{HoldAll};
    ghost use Rattle.lvm_group.specs.Opening.{IsUnopened, Opens};
    ghost use Rattle.rack.specs.Sequences.{OnlyReads};
    ghost use Rattle.lvm_group.specs.Shown.{total, volume_of};
    ghost use Rattle.lvm_group.specs.Writing.{Puts};
    ghost use Rattle.std.specs.Borrow.{sem, Lends};
    ghost use Rattle.lvm_group.specs.contracts.volume.Volume.{the_row};
    ghost use Rattle.lvm_group.specs.Runs.{array_of, sector_of, sectors_in};
    ghost use Rattle.lvm_group.specs.Volume.{below_of, linear, most_extended, most_opened, pool_of, seqno_of};

    /// Makes a volume group on the first arrays of a rack, as many as there are numbers, and the volume of their
    /// first extents: as many of each array as its number says, array by array. An extent has so many sectors.
    ///
    /// The arrays get labels, headers and the group's text; each is durable before a header has the text. Where an
    /// array refuses a call, it is the one that is named, and its arrays have some of these writes.
    pub fn create(
        alloc: Global,
        rack: R,
        pool: &Id,
        extent: u32,
        extents: &[u64],
    ) -> Result<Volume<R>, Back<R, VolumeFault>>
        requires fit { (R.seen rack).fit }
        requires small { total (R.seen rack).sectors (R.seen rack).disks < 2 ^ 52 }
        requires sized { 0 < extent }
        requires some { 0 < length extents.now }
        requires few { length extents.now ≤ 16 }
        requires below { AreBelow extents.now }
        requires arrays { length extents.now ≤ (R.seen rack).disks }
        requires holds { HoldAll extent (R.seen rack).sectors 0 extents.now }
        ensures volume { IfOk result (λ volume. linear volume ≡ new_volume extent extents.now) }
        ensures numbered { IfOk result (λ volume. (pool_of volume ≡ pool.now.0) × (seqno_of volume ≡ 1)) }
        ensures fit { IfOk result (λ volume. (volume_of (linear volume) (R.seen volume.rack)).fit) }
        ensures wrote { IfOk result (λ volume. Puts (R.seen rack) (R.seen volume.rack)
            (made_targets pool.now.0 extent (R.seen rack).sectors extents.now) {X = Unit {0}} (Ok tt)) }
        ensures makes { IfOk result (λ volume. Makes pool.now.0 extent extents.now (R.seen rack) (R.seen volume.rack)) }
        ensures refused { IfErr result (λ back. IsUnmade R.seen rack (made_targets pool.now.0 extent (R.seen rack).sectors extents.now) back.rack back.why) }
        ensures kept { IfOk result (λ volume. R.runs rack volume.rack) }
        ensures returned { IfErr result (λ back. R.runs rack back.rack) }
    {
        let Ok(room) = take_room(alloc) else {
            return Err(Back {
                rack,
                why: VolumeFault::Memory,
            });
        };
        let mut room = room;
        let mut rack = rack;
        let sectors = u64::from(extent);
        if let Err(gone) = make(&mut rack, pool, sectors, extents, &mut room) {
            return Err(Back {
                rack,
                why: VolumeFault::BadVolume { array: gone.disk },
            });
        }
        let count = extents_in(room.runs.as_slice());
        Ok(Volume {
            rack,
            pool: *pool,
            extent: sectors,
            arrays: extents.len() as u32,
            extents: count,
            seqno: 1,
            runs: room.runs,
            spare: room.spare,
            text: room.text,
        })
    }

    /// The volume of a new group over arrays of its sizes, which are to hold the group's sectors. Nothing is called.
    pub fn over(rack: R, group: NewGroup) -> Volume<R>
        requires fit { (R.seen rack).fit }
        requires small { total (R.seen rack).sectors (R.seen rack).disks < 2 ^ 52 }
        requires arrays { length (numbers_of group) ≤ (R.seen rack).disks }
        requires sizes { (array : ℕ) → array < length (numbers_of group) → (R.seen rack).sectors array ≡ slice_index (sectors_of group) array }
        ensures volume { linear result ≡ new_volume (extent_of group) (numbers_of group) }
        ensures numbered { (pool_of result ≡ founding.pool_of group) × (seqno_of result ≡ 1) }
        ensures fit { (volume_of (linear result) (R.seen result.rack)).fit }
        ensures below { below_of result ≡ rack }
    {
        let count = extents_in(group.room.runs.as_slice());
        let arrays = group.numbers.len() as u32;
        Volume {
            rack,
            pool: group.pool,
            extent: group.extent,
            arrays,
            extents: count,
            seqno: 1,
            runs: group.room.runs,
            spare: group.room.spare,
            text: group.room.text,
        }
    }

    /// Opens the volume of the group that stands in the first arrays of a rack, so many.
    ///
    /// The group is the one of highest seqno that they say, of equal ones the lowest array's. The fault names the
    /// lowest array that is bad: its header has a location that gives no group, or the group names it and it has no
    /// label with its id and no header, or it is the first one and the group isn't the pool's. A sector that is
    /// refused has no bytes.
    ///
    /// Where a joined array doesn't say a group of this seqno, its text is then written on all of them, as
    /// [`Volume::extend`] writes one. An array that refuses this keeps what it said: the volume is open all the same.
    pub fn open(
        alloc: Global,
        rack: R,
        pool: &Id,
        extent: u32,
        joined: u32,
    ) -> Result<Volume<R>, Back<R, VolumeFault>>
        requires fit { (R.seen rack).fit }
        requires small { total (R.seen rack).sectors (R.seen rack).disks < 2 ^ 52 }
        requires sized { 0 < extent }
        requires some { 0 < joined }
        requires arrays { joined ≤ (R.seen rack).disks }
        ensures opens { IfOk result (λ volume. (opens : Opens pool.now.0 extent joined (R.seen rack) (R.seen volume.rack) (linear volume) (seqno_of volume))
            × BringsUp pool.now.0 joined (linear volume) (seqno_of volume) opens.runs.group (R.seen rack) (R.seen volume.rack)) }
        ensures pool { IfOk result (λ volume. pool_of volume ≡ pool.now.0) }
        ensures fit { IfOk result (λ volume. (volume_of (linear volume) (R.seen volume.rack)).fit) }
        ensures refused { IfErr result (λ back. IsUnopened pool.now.0 extent joined (R.seen rack) (R.seen back.rack) back.why) }
        ensures looked { IfErr result (λ back. OnlyReads (R.seen rack) (R.seen back.rack)) }
        ensures unwritten { IfErr result (λ back. R.unwritten rack back.rack) }
        ensures kept { IfOk result (λ volume. R.runs rack volume.rack) }
        ensures several { IfOk result (λ volume. Several R.once (most_opened joined) rack volume.rack) }
        ensures returned { IfErr result (λ back. R.runs rack back.rack) }
    {
        let Ok((room, kept)) = take_room_to_open(alloc) else {
            return Err(Back {
                rack,
                why: VolumeFault::Memory,
            });
        };
        encoded_labels_decode();
        encoded_headers_decode();
        let mut room = room;
        let mut kept = kept;
        let mut rack = rack;
        match find_runs(
            alloc,
            &mut rack,
            pool,
            extent,
            joined,
            &mut room.text,
            &mut kept,
        ) {
            Ok(opened) => {
                bring_up(&mut rack, pool, joined, opened.even, kept.as_slice());
                copy(&mut room.runs, opened.runs.as_slice());
                let count = extents_in(opened.runs.as_slice());
                Ok(Volume {
                    rack,
                    pool: *pool,
                    extent: u64::from(extent),
                    arrays: joined,
                    extents: count,
                    seqno: opened.seqno,
                    runs: room.runs,
                    spare: room.spare,
                    text: room.text,
                })
            }
            Err(why) => Err(Back { rack, why }),
        }
    }

    /// Whether the volume can be extended to these numbers of extents of its arrays: each of its segments has
    /// extents and ends within its array's number, and the extended volume has 1024 segments at most.
    pub fn fits(&self, extents: &[u64]) -> bool
        requires few { length extents.now ≤ 16 }
        ensures { result ≡ fits (linear self.now).runs extents.now }
    {
        fits(self.runs.as_slice(), extents)
    }

    /// Extends the volume to these numbers of extents of its arrays: what is new comes behind what it has, array by
    /// array. The group has a new text then, on as many arrays as there are numbers. No memory is taken.
    ///
    /// Labels, empty headers where there are none, and the new text behind the last one are written and made durable
    /// before a header has the text. Where an array refuses a call, the volume stays what it was.
    pub fn extend(&mut self, extents: &[u64]) -> Result<(), Gone>
        requires fit { (volume_of (linear self.old) (R.seen (below_of self.old))).fit }
        requires some { 0 < length extents.now }
        requires few { length extents.now ≤ 16 }
        requires below { AreBelow extents.now }
        requires arrays { length extents.now ≤ (R.seen (below_of self.old)).disks }
        requires holds { HoldAll (linear self.old).extent (R.seen (below_of self.old)).sectors 0 extents.now }
        requires fits { IsTrue (fits (linear self.old).runs extents.now) }
        ensures changes { Changes (pool_of self.old) (printed (next_group (pool_of self.old) (linear self.old) (R.seen (below_of self.old)).sectors (seqno_of self.old) extents.now))
            (length extents.now) (R.seen (below_of self.old)) (R.seen (below_of self.new)) result }
        ensures images { (R.seen (below_of self.old)).traced → Leaves (R.seen (below_of self.old)) (R.seen (below_of self.new))
            (IsOldOrNew (pool_of self.old) (linear self.old) (seqno_of self.old) extents.now (R.seen (below_of self.old)) (R.seen (below_of self.new))) }
        ensures renewed { OnOk result (IsNew (pool_of self.old) (linear self.old) (seqno_of self.old) extents.now (R.seen (below_of self.old)) (R.seen (below_of self.new))) }
        ensures volume { OnOk result (linear self.new ≡ extended (linear self.old) extents.now) }
        ensures keeps { OnOk result (KeepsPlaces (linear self.old) (linear self.new)) }
        ensures seqno { OnOk result (seqno_of self.new ≡ next_seqno (seqno_of self.old)) }
        ensures same { OnErr result ((linear self.new ≡ linear self.old) × (seqno_of self.new ≡ seqno_of self.old)) }
        ensures pool { pool_of self.new ≡ pool_of self.old }
        ensures fit { (volume_of (linear self.new) (R.seen (below_of self.new))).fit }
        ensures kept { R.runs (below_of self.old) (below_of self.new) }
        ensures several { Several R.once (most_extended (length extents.now)) (below_of self.old) (below_of self.new) }
    {
        let arrays = extents.len() as u32;
        let seqno = next_seqno(self.seqno);
        grow(self.runs.as_slice(), self.extents, extents, &mut self.spare);
        put_grown(
            &mut self.rack,
            &self.pool,
            self.extent,
            seqno,
            extents,
            self.spare.as_slice(),
            &mut self.text,
        )?;
        swap(&mut self.runs, &mut self.spare);
        self.extents = extents_in(self.runs.as_slice());
        self.arrays = self.arrays.max(arrays);
        self.seqno = seqno;
        Ok(())
    }

    /// How many extents the volume has.
    pub fn extents(&self) -> u64
        ensures { result ≡ extents_of (linear self.now).runs }
    {
        self.extents
    }

    /// The rack below, lent. The volume's extents stay where they are.
    pub fn inner(&mut self) -> &mut R
        ensures* writes_back { sem 𝓛 (
            Lends (the_row R.row) R.row self.entry result (λ w. record self.old { rack = w })) }
        ensures value { result.now ≡ below_of self.old }
    {
        &mut self.rack
    }

    /// The rack below, for reading alone.
    pub fn below(&self) -> &R
        ensures { result.now ≡ below_of self.now }
    {
        &self.rack
    }

    /// The rack below, as it is.
    pub fn into_inner(self) -> R
        ensures { result ≡ below_of self }
    {
        self.rack
    }

    /// Where a sector of the volume stands.
    fn spot(&self, sector: u64) -> Spot
        requires inside { IsInside (linear self.now) (R.seen (below_of self.now)) }
        requires within { sector < sectors_in (linear self.now) }
        ensures array { result.array ≡ array_of (linear self.now) sector }
        ensures sector { result.sector ≡ sector_of (linear self.now) sector }
    {
        spot_with(self.runs.as_slice(), self.extent, sector)
    }
}
