//! The group of a new volume, and what the sectors of its arrays are to hold.

ghost use Rattle.std.specs.Prelude.{◌≡◌, ◌<◌, ◌≤◌, ◌+◌, ◌^◌, [], IfOk, length, slice_index, vec_capacity, ℕ};
ghost use Rattle.lvm_text.specs.Printed.{printed};
ghost use Rattle.lvm_group.specs.Growth.{AreBelow, grown};
ghost use Rattle.lvm_group.specs.Own.{HoldAll};
ghost use Rattle.lvm_group.specs.Made.{new_group, text_at};
ghost use Rattle.lvm_group.specs.Runs.{extents_of};

use crate::making::{Room, lay_out, take_room};
use crate::writing::{label_sector, labels_fit, own_locations_fit, piece, text_header};
use arrayvec::ArrayVec;
use lvm_label::{encoded_headers_decode, encoded_labels_decode};
use rack::NoMemory;
use shr_base::Id;
use std::alloc::Global;

/// The sectors of an array that have its label and its header, and the first one that has the text.
const LABEL_SECTOR: u64 = 1;

const HEADER_SECTOR: u64 = 8;

const TEXT_SECTOR: u64 = 9;

/// The group of a new volume on arrays of known sizes. Nothing of it is written.
#[derive(Drop)]
pub struct NewGroup {
    pub(crate) pool: Id,
    /// The sectors of an extent.
    pub(crate) extent: u64,
    /// The sectors of each array.
    pub(crate) sectors: ArrayVec<u64, 16>,
    /// The extents of each array.
    pub(crate) numbers: ArrayVec<u64, 16>,
    pub(crate) room: Room,
    ghost sized: { 0 < extent },
    ghost same: { length sectors.items ≡ length numbers.items },
    ghost counted: { extents_of room.runs.items < 2 ^ 52 },
    ghost holds: { HoldAll extent (slice_index sectors.items) 0 numbers.items },
    ghost small: { (array : ℕ) → array < length numbers.items → slice_index sectors.items array < 2 ^ 52 },
    ghost runs_are: { room.runs.items ≡ grown [] numbers.items },
    ghost text_is: { room.text.bytes ≡ printed (new_group pool.0 extent (slice_index sectors.items) numbers.items) },
    ghost short: { length room.text.bytes ≤ 262144 },
    ghost runs_room: { 1024 ≤ vec_capacity room.runs },
    ghost spare_room: { 1024 ≤ vec_capacity room.spare },
    ghost text_room: { 262144 ≤ length room.text.bytes + room.text.spare },
}

impl NewGroup {
    ghost use Rattle.lvm_group.specs.Founding as spec;
    ghost use Rattle.lvm_group.specs.Founding.{IsGroupOf, IsReadAgain};
    ghost use Rattle.lvm_group.specs.Made.{new_sector};

    /// The group of arrays of so many sectors, as many as there are numbers, of which each has as many extents as its number says.
    pub fn make(
        alloc: Global,
        pool: &Id,
        extent: u32,
        sectors: ArrayVec<u64, 16>,
        numbers: ArrayVec<u64, 16>,
    ) -> Result<NewGroup, NoMemory>
        requires sized { 0 < extent }
        requires same { length sectors.items ≡ length numbers.items }
        requires below { AreBelow numbers.items }
        requires holds { HoldAll extent (slice_index sectors.items) 0 numbers.items }
        requires small { (array : ℕ) → array < length numbers.items → slice_index sectors.items array < 2 ^ 52 }
        ensures group { IfOk result (λ group. IsGroupOf pool.now.0 extent sectors.items numbers.items group) }
        // What it says of the arrays' sectors is read again by the rules of a group.
        ensures read_again { IfOk result (λ group. IsReadAgain pool.now.0 extent sectors.items numbers.items) }
    {
        encoded_labels_decode();
        encoded_headers_decode();
        let mut room = take_room(alloc)?;
        lay_out(
            pool,
            u64::from(extent),
            sectors.as_slice(),
            numbers.as_slice(),
            &mut room,
        );
        labels_fit(pool, sectors.as_slice());
        own_locations_fit(room.text.as_slice());
        Ok(NewGroup {
            pool: *pool,
            extent: u64::from(extent),
            sectors,
            numbers,
            room,
        })
    }

    /// What a sector of an array is to hold.
    pub fn sector(&self, array: u32, sector: u64) -> [u8; 512]
        requires { array < length (spec.numbers_of self.now) }
        ensures { result ≡ new_sector (spec.pool_of self.now) (spec.extent_of self.now) (slice_index (spec.sectors_of self.now)) (spec.numbers_of self.now) array sector }
    {
        let text = self.room.text.as_slice();
        if sector == LABEL_SECTOR {
            return label_sector(&self.pool, array, self.sectors[array as usize]);
        }
        if sector == HEADER_SECTOR {
            return text_header(512, text);
        }
        text_sector(text, sector)
    }
}

/// What a sector of an array has of a text that begins behind the header: zeros past its end.
fn text_sector(text: &[u8], sector: u64) -> [u8; 512]
    requires { length text.now ≤ 262144 }
    ensures { result ≡ text_at text.now sector }
{
    let count = (text.len() as u64 + 511) / 512;
    if sector < TEXT_SECTOR || sector >= TEXT_SECTOR + count {
        return [0; 512];
    }
    piece(text, (sector - TEXT_SECTOR) as usize)
}
