//! Reading what stands in an array for its group.

ghost use Rattle.std.specs.Prelude.{◌≡◌, ◌<◌, ◌≤◌, ◌+◌, ◌/◌, ◌^◌, [], IfOk, IfSome, IsFalse, IsTrue, None, Some, length, replicate, unwrap_or};
ghost use Rattle.std.specs.Result.{result_ok};
ghost use Rattle.lvm_group.specs.Parts.{Array, behind, group_at, is_inside, label_on, row_at, text_at};
ghost use Rattle.rack.specs.Several.{Several};
ghost use Rattle.rack.specs.Sequences.{OnlyReads};
ghost use Rattle.lvm_group.specs.Reading.{AreRead, IsNow, IsRead, IsTextOf, held_on};
ghost use Rattle.lvm_label.specs.Header.{header_of};
ghost use Rattle.lvm_text.specs.Group.{group_of};
ghost use Rattle.lvm_text.specs.Written.{Grows};

use lvm_label::{Area, Header, Label, Location, decode_header, decode_label};
use lvm_text::{Group, Text, TextFault, parse};
use rack::{NoMemory, Rack};
use shr_base::lvm_crc;
use std::alloc::Global;

/// The bytes of the longest text.
const MOST_TEXT: u64 = 262144;

/// Reads a sector of an array, where it is there and isn't refused.
fn read_at<R: Rack>(rack: &mut R, array: u32, sector: u64) -> Option<[u8; 512]>
    requires fit { (R.seen rack.old).fit }
    requires array { array < (R.seen rack.old).disks }
    ensures looks { OnlyReads (R.seen rack.old) (R.seen rack.new) }
    ensures runs { R.runs rack.old rack.new }
    ensures several { Several R.once 1 rack.old rack.new }
    ensures unwritten { R.unwritten rack.old rack.new }
    ensures value { (now : Array) → IsNow (R.seen rack.old) array now
        → IsRead (R.seen rack.old) (R.seen rack.new) array now sector (unwrap_or result []) }
    ensures whole { IfSome result (λ bytes. length bytes ≡ 512) }
{
    if sector >= rack.sectors(array) {
        return None;
    }
    let mut into = [0; 512];
    match rack.read(array, sector, &mut into) {
        Ok(()) => Some(into),
        Err(_) => None,
    }
}

/// The sector, or zeros where there is none.
fn or_zeros(sector: Option<[u8; 512]>) -> [u8; 512]
    ensures { result ≡ unwrap_or sector (replicate 512 0) }
{
    sector.unwrap_or([0; 512])
}

/// Reads the label of an array.
pub(crate) fn read_label<R: Rack>(rack: &mut R, array: u32) -> Option<Label>
    requires fit { (R.seen rack.old).fit }
    requires array { array < (R.seen rack.old).disks }
    ensures looks { OnlyReads (R.seen rack.old) (R.seen rack.new) }
    ensures runs { R.runs rack.old rack.new }
    ensures several { Several R.once 4 rack.old rack.new }
    ensures unwritten { R.unwritten rack.old rack.new }
    ensures value { (now : Array) → IsNow (R.seen rack.old) array now
        → (c : Array) × AreRead (R.seen rack.old) (R.seen rack.new) array now c × (result ≡ label_on c) }
{
    let first = read_at(rack, array, 0);
    let second = read_at(rack, array, 1);
    let third = read_at(rack, array, 2);
    let fourth = read_at(rack, array, 3);
    let sectors = [
        or_zeros(first),
        or_zeros(second),
        or_zeros(third),
        or_zeros(fourth),
    ];
    decode_label(&sectors).ok()
}

/// Reads the header in a sector of an array.
pub(crate) fn read_header<R: Rack>(rack: &mut R, array: u32, sector: u64) -> Option<Header>
    requires fit { (R.seen rack.old).fit }
    requires array { array < (R.seen rack.old).disks }
    ensures looks { OnlyReads (R.seen rack.old) (R.seen rack.new) }
    ensures runs { R.runs rack.old rack.new }
    ensures several { Several R.once 1 rack.old rack.new }
    ensures unwritten { R.unwritten rack.old rack.new }
    ensures value { (now : Array) → IsNow (R.seen rack.old) array now
        → (c : Array) × AreRead (R.seen rack.old) (R.seen rack.new) array now c × (result ≡ result_ok (header_of (c sector))) }
{
    match read_at(rack, array, sector) {
        Some(bytes) => decode_header(&bytes).ok(),
        None => None,
    }
}

/// Appends bytes of an array that lie in a row, where all of them are there.
#[tactic(auto, unfolding(crate::specs::Parts::row_at))]
fn read_row<R: Rack>(rack: &mut R, array: u32, from: u128, count: u64, into: &mut Text) -> bool
    requires fit { (R.seen rack.old).fit }
    requires array { array < (R.seen rack.old).disks }
    requires from { from < 2 ^ 100 }
    requires room { count ≤ into.old.spare }
    ensures looks { OnlyReads (R.seen rack.old) (R.seen rack.new) }
    ensures runs { R.runs rack.old rack.new }
    ensures several { Several R.once (count / 512 + 2) rack.old rack.new }
    ensures unwritten { R.unwritten rack.old rack.new }
    ensures bytes { IsTrue result → (now : Array) → IsNow (R.seen rack.old) array now
        → behind into.old.bytes (row_at (held_on (R.seen rack.old) array now) from count) ≡ Some into.new.bytes }
    ensures none { IsFalse result → (now : Array) → IsNow (R.seen rack.old) array now
        → (c : Array) × AreRead (R.seen rack.old) (R.seen rack.new) array now c × (row_at c from count ≡ None) }
    ensures growth { Grows into.old into.new count }
{
    if count == 0 {
        return true;
    }
    if from + u128::from(count) > 512 * u128::from(rack.sectors(array)) {
        return false;
    }
    let mut at = from as u64;
    let mut left = count;
    while left > 0 {
        let Some(bytes) = read_at(rack, array, at / 512) else {
            return false;
        };
        let within = at % 512;
        let piece = left.min(512 - within);
        into.append(&bytes[within as usize..(within + piece) as usize]);
        at += piece;
        left -= piece;
    }
    true
}

/// Reads the text at a location into a buffer, in place of what that had.
#[tactic(auto, unfolding(crate::specs::Parts::text_at))]
fn read_text<R: Rack>(
    rack: &mut R,
    array: u32,
    area: &Area,
    location: &Location,
    into: &mut Text,
) -> bool
    requires fit { (R.seen rack.old).fit }
    requires array { array < (R.seen rack.old).disks }
    requires room { location.now.size ≤ length into.old.bytes + into.old.spare }
    ensures looks { OnlyReads (R.seen rack.old) (R.seen rack.new) }
    ensures runs { R.runs rack.old rack.new }
    ensures several { Several R.once (location.now.size / 512 + 4) rack.old rack.new }
    ensures unwritten { R.unwritten rack.old rack.new }
    ensures text { IsTrue result → (now : Array) → IsNow (R.seen rack.old) array now
        → text_at (held_on (R.seen rack.old) array now) area.now location.now ≡ Some into.new.bytes }
    ensures none { IsFalse result → (now : Array) → IsNow (R.seen rack.old) array now
        → (c : Array) × AreRead (R.seen rack.old) (R.seen rack.new) array now c × (text_at c area.now location.now ≡ None) }
    ensures short { length into.new.bytes ≤ location.now.size }
    ensures room { length into.old.bytes + into.old.spare ≤ length into.new.bytes + into.new.spare }
{
    into.clear();
    let front = location.size.min(area.size.saturating_sub(location.offset));
    let from = u128::from(area.offset) + u128::from(location.offset);
    if !read_row(rack, array, from, front, into) {
        return false;
    }
    let again = u128::from(area.offset) + 512;
    read_row(rack, array, again, location.size - front, into)
}

/// Whether a location lies inside an area, with a text that isn't too long.
pub(crate) fn is_inside(area: &Area, location: &Location) -> bool
    ensures { result ≡ is_inside area.now location.now }
{
    location.offset >= 512
        && location.offset < area.size
        && location.size <= area.size - 512
        && location.size <= MOST_TEXT
}

/// The group that a text says, where it says one.
fn group_of(alloc: Global, text: &[u8]) -> Result<Option<Group>, NoMemory>
    ensures { IfOk result (λ found. found ≡ result_ok (group_of text.now)) }
{
    match parse(alloc, text) {
        Ok(group) => Ok(Some(group)),
        Err(TextFault::Memory) => Err(NoMemory),
        Err(TextFault::Syntax { .. }) => Ok(None),
        Err(TextFault::Missing { .. }) => Ok(None),
        Err(TextFault::Range { .. }) => Ok(None),
    }
}

/// Reads the group at a location of an array, by a buffer with room for the longest text.
#[tactic(auto, unfolding(crate::specs::Parts::group_at))]
pub(crate) fn read_group<R: Rack>(
    alloc: Global,
    rack: &mut R,
    array: u32,
    area: &Area,
    location: &Location,
    into: &mut Text,
) -> Result<Option<Group>, NoMemory>
    requires fit { (R.seen rack.old).fit }
    requires array { array < (R.seen rack.old).disks }
    requires room { 262144 ≤ length into.old.bytes + into.old.spare }
    ensures looks { OnlyReads (R.seen rack.old) (R.seen rack.new) }
    ensures runs { R.runs rack.old rack.new }
    ensures several { Several R.once 516 rack.old rack.new }
    ensures unwritten { R.unwritten rack.old rack.new }
    ensures group { IfOk result (λ found. (now : Array) → IsNow (R.seen rack.old) array now
        → (c : Array) × AreRead (R.seen rack.old) (R.seen rack.new) array now c × (found ≡ group_at c area.now location.now)) }
    ensures said { IfOk result (λ found. IfSome found (IsTextOf into.new.bytes)) }
    ensures room { length into.old.bytes + into.old.spare ≤ length into.new.bytes + into.new.spare }
{
    if !is_inside(area, location) {
        return Ok(None);
    }
    if !read_text(rack, array, area, location, into) {
        return Ok(None);
    }
    if location.crc != lvm_crc(into.as_slice()) {
        return Ok(None);
    }
    group_of(alloc, into.as_slice())
}
