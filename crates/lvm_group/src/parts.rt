//! What stands in an array for its group, found by reading.

ghost use Rattle.std.specs.Prelude.{◌≡◌, ◌<◌, ◌≤◌, ◌+◌, ◌*◌, ◌++◌, ◌∷◌, ◌^◌, [], IfOk, IfSome, OnOk, Option, length, nat_lt, true};
ghost use Rattle.std.specs.Option.{option_map_or};
ghost use Rattle.lvm_group.specs.Parts.{Array, area_of, location_in};
ghost use Rattle.rack.specs.Several.{Several};
ghost use Rattle.rack.specs.Sequences.{OnlyReads};
ghost use Rattle.lvm_group.specs.Reading.{IsNow, IsTextOf};
ghost use Rattle.lvm_group.specs.Group.{newer, seqno_of};
ghost use Rattle.lvm_group.specs.Opening.{group_by};
ghost use Rattle.lvm_group.specs.Found.{AreParts, IsInArea, IsPart};

use crate::reading::{read_group, read_header, read_label};
use lvm_label::{Area, Header, Label, Location};
use lvm_text::{Group, Text};
use rack::{NoMemory, Rack};
use std::alloc::Global;
use std::mem::swap;

/// Where the header stands on an array without a label.
const OWN_HEADER_SECTOR: u64 = 8;

/// An array's part of its group, each where it is valid.
#[derive(Debug, Drop)]
pub(crate) struct Part {
    pub label: Option<Label>,
    pub header: Option<Header>,
    /// The group that the text at the header's first location says.
    pub group: Option<Group>,
}

/// What stands in the metadata area of an array.
#[derive(Debug, Drop)]
struct InArea {
    header: Option<Header>,
    group: Option<Group>,
}

/// The first metadata area of a label, on an array of so many sectors.
fn area_of(sectors: u64, label: &Label) -> Option<Area>
    requires { sectors < 2 ^ 52 }
    ensures { result ≡ area_of sectors label.now }
{
    let area = label.metadata.as_slice().first()?;
    let size = if area.size == 0 {
        (512 * sectors).saturating_sub(area.offset)
    } else {
        area.size
    };
    Some(Area {
        offset: area.offset,
        size,
    })
}

/// The first location of a header.
pub(crate) fn location_in(header: &Header) -> Option<Location>
    ensures { result ≡ location_in header.now }
{
    header.locations.as_slice().first().copied()
}

/// Reads the header and the group in a metadata area, by a buffer with room for the longest text.
fn read_in_area<R: Rack>(
    alloc: Global,
    rack: &mut R,
    array: u32,
    area: Option<Area>,
    into: &mut Text,
) -> Result<InArea, NoMemory>
    requires fit { (R.seen rack.old).fit }
    requires array { array < (R.seen rack.old).disks }
    requires room { 262144 ≤ length into.old.bytes + into.old.spare }
    ensures looks { OnlyReads (R.seen rack.old) (R.seen rack.new) }
    ensures runs { R.runs rack.old rack.new }
    ensures several { Several R.once 517 rack.old rack.new }
    ensures unwritten { R.unwritten rack.old rack.new }
    ensures found { IfOk result (λ found. (now : Array) → IsNow (R.seen rack.old) array now
        → IsInArea (R.seen rack.old) (R.seen rack.new) array now area found.header found.group) }
    ensures said { IfOk result (λ found. IfSome found.group (IsTextOf into.new.bytes)) }
    ensures room { length into.old.bytes + into.old.spare ≤ length into.new.bytes + into.new.spare }
{
    let mut found = InArea {
        header: None,
        group: None,
    };
    let Some(area) = area else {
        return Ok(found);
    };
    if area.offset % 512 != 0 {
        return Ok(found);
    }
    let Some(header) = read_header(rack, array, area.offset / 512) else {
        return Ok(found);
    };
    let location = location_in(&header);
    found.header = Some(header);
    let Some(location) = location else {
        return Ok(found);
    };
    found.group = read_group(alloc, rack, array, &area, &location, into)?;
    Ok(found)
}

/// Reads an array's part, by a buffer with room for the longest text.
pub(crate) fn read_part<R: Rack>(
    alloc: Global,
    rack: &mut R,
    array: u32,
    into: &mut Text,
) -> Result<Part, NoMemory>
    requires fit { (R.seen rack.old).fit }
    requires array { array < (R.seen rack.old).disks }
    requires room { 262144 ≤ length into.old.bytes + into.old.spare }
    ensures looks { OnlyReads (R.seen rack.old) (R.seen rack.new) }
    ensures runs { R.runs rack.old rack.new }
    ensures several { Several R.once 521 rack.old rack.new }
    ensures unwritten { R.unwritten rack.old rack.new }
    ensures part { IfOk result (λ part. (now : Array) → IsNow (R.seen rack.old) array now
        → IsPart (R.seen rack.old) (R.seen rack.new) array now part) }
    ensures said { IfOk result (λ part. IfSome part.group (IsTextOf into.new.bytes)) }
    ensures room { length into.old.bytes + into.old.spare ≤ length into.new.bytes + into.new.spare }
{
    let sectors = rack.sectors(array);
    let Some(label) = read_label(rack, array) else {
        let header = read_header(rack, array, OWN_HEADER_SECTOR);
        return Ok(Part {
            label: None,
            header,
            group: None,
        });
    };
    let area = area_of(sectors, &label);
    let found = read_in_area(alloc, rack, array, area, into)?;
    Ok(Part {
        label: Some(label),
        header: found.header,
        group: found.group,
    })
}

/// Appends a part.
fn append(parts: &mut Vec<Part>, part: Part) -> Result<(), NoMemory>
    ensures { OnOk result (parts.new.items ≡ parts.old.items ++ part ∷ []) }
{
    match parts.push(part) {
        Ok(()) => Ok(()),
        Err(_) => Err(NoMemory),
    }
}

/// Whether a group is newer than one of this seqno, or the first one.
fn is_newer(group: &Group, newest: Option<u64>) -> bool
    ensures { result ≡ option_map_or (λ seqno. nat_lt seqno group.now.seqno) newest true }
{
    match newest {
        Some(seqno) => seqno < group.seqno,
        None => true,
    }
}

/// Keeps a part's text where its group is newer than the one of the kept text, whose seqno is given; the seqno of the
/// group of the text that is kept then.
fn keep_newer(part: &Part, newest: Option<u64>, text: &mut Text, kept: &mut Text) -> Option<u64>
    requires said { IfSome part.now.group (IsTextOf text.old.bytes) }
    requires room { 262144 ≤ length text.old.bytes + text.old.spare }
    requires kept_room { 262144 ≤ length kept.old.bytes + kept.old.spare }
    ensures keeps { (o : Option Group) → newest ≡ seqno_of o → IfSome o (IsTextOf kept.old.bytes)
        → (result ≡ seqno_of (newer o part.now.group)) × IfSome (newer o part.now.group) (IsTextOf kept.new.bytes) }
    ensures room { 262144 ≤ length text.new.bytes + text.new.spare }
    ensures kept_room { 262144 ≤ length kept.new.bytes + kept.new.spare }
{
    let Some(group) = &part.group else {
        return newest;
    };
    if !is_newer(group, newest) {
        return newest;
    }
    swap(text, kept);
    Some(group.seqno)
}

/// Reads the parts of the first arrays, so many, and keeps the text of the group that counts. Both buffers have room
/// for the longest text.
pub(crate) fn read_parts<R: Rack>(
    alloc: Global,
    rack: &mut R,
    joined: u32,
    into: &mut Text,
    kept: &mut Text,
) -> Result<Vec<Part>, NoMemory>
    requires fit { (R.seen rack.old).fit }
    requires joined { joined ≤ (R.seen rack.old).disks }
    requires room { 262144 ≤ length into.old.bytes + into.old.spare }
    requires kept_room { 262144 ≤ length kept.old.bytes + kept.old.spare }
    ensures looks { OnlyReads (R.seen rack.old) (R.seen rack.new) }
    ensures runs { R.runs rack.old rack.new }
    ensures several { Several R.once (521 * joined) rack.old rack.new }
    ensures unwritten { R.unwritten rack.old rack.new }
    ensures count { IfOk result (λ parts. length parts.items ≡ joined) }
    ensures said { IfOk result (λ parts. IfSome (group_by parts.items) (IsTextOf kept.new.bytes)) }
    ensures room { IfOk result (λ parts. 262144 ≤ length into.new.bytes + into.new.spare) }
    ensures parts { IfOk result (λ parts. AreParts (R.seen rack.old) (R.seen rack.new) joined parts.items) }
{
    let mut parts = Vec::new(alloc);
    let mut newest = None;
    for array in 0..joined {
        let part = read_part(alloc, rack, array, into)?;
        newest = keep_newer(&part, newest, into, kept);
        append(&mut parts, part)?;
    }
    Ok(parts)
}
