//! Finding the volume of a group that stands in arrays.

ghost use Rattle.std.specs.Prelude.{◌≡◌, ◌≤◌, ◌<◌, ◌^◌, IfErr, IfOk, length, map, slice_index, option_copied, ◌+◌, ◌*◌};
ghost use Rattle.std.specs.List.{list_all, range_with_len};
ghost use Rattle.std.specs.Option.{option_map_or};
ghost use Rattle.rack.specs.Several.{Several};
ghost use Rattle.rack.specs.Sequences.{OnlyReads};
ghost use Rattle.lvm_group.specs.Group.{ahead, has_own_label};
ghost use Rattle.lvm_group.specs.Parts.{has_bad_text};
ghost use Rattle.lvm_group.specs.Opening.{Finds, HasFault, HasRuns, IsUnopened, first_bad_with, group_by, is_bad_with, says};

use crate::parts::{Part, location_in, read_parts};
use crate::profile::{extents_of, own_runs};
use crate::runs::Run;
use crate::volume::VolumeFault;
use lvm_text::{Group, Pv, Text};
use rack::{NoMemory, Rack};
use shr_base::{Id, child_id, lvm_id};
use std::alloc::Global;

/// The volume that stands in arrays.
#[derive(Debug, Drop)]
pub(crate) struct Opened {
    pub runs: Vec<Run>,
    /// The seqno of the group's text.
    pub seqno: u64,
    /// Whether each array says a group of this seqno.
    pub even: bool,
}

/// The sectors of the first arrays, so many.
fn sectors_of<R: Rack>(alloc: Global, rack: &R, arrays: u32) -> Result<Vec<u64>, NoMemory>
    requires fit { (R.seen rack.now).fit }
    requires arrays { arrays ≤ (R.seen rack.now).disks }
    ensures { IfOk result (λ sizes. sizes.items ≡ map (R.seen rack.now).sectors (range_with_len 0 arrays)) }
{
    let mut sizes = Vec::new(alloc);
    for array in 0..arrays {
        let size = rack.sectors(array);
        match sizes.push(size) {
            Ok(()) => {}
            Err(_) => return Err(NoMemory),
        }
    }
    Ok(sizes)
}

/// The group of higher seqno, of equal ones the first.
fn ahead<'a>(group: Option<&'a Group>, other: Option<&'a Group>) -> Option<&'a Group>
    ensures { option_copied result
        ≡ option_map_or (λ g. ahead g (option_copied other.entry)) (option_copied group.entry) (option_copied other.entry) }
{
    match (group, other) {
        (Some(first), Some(second)) if first.seqno < second.seqno => other,
        (Some(_), _) => group,
        _ => other,
    }
}

/// The group of highest seqno among parts, of equal ones that of the lowest array.
fn highest(parts: &[Part]) -> Option<&Group>
    ensures { option_copied result ≡ group_by parts.now }
{
    let mut found = None;
    for after in 0..parts.len() {
        let part = &parts[parts.len() - 1 - after];
        found = ahead(part.group.as_ref(), found);
    }
    found
}

/// Whether a header has a location that gives no group.
fn has_bad_text(part: &Part) -> bool
    ensures { result ≡ has_bad_text part.now }
{
    let Some(header) = &part.header else {
        return false;
    };
    location_in(header).is_some() && part.group.is_none()
}

/// Whether an array has a label with its id, and a header.
fn has_own_label(pool: &Id, array: u32, part: &Part) -> bool
    ensures { result ≡ has_own_label pool.now.0 array part.now }
{
    let Some(label) = &part.label else {
        return false;
    };
    let id = lvm_id(&child_id(pool, 6, array, 0));
    label.pv_id.as_slice() == id.as_slice() && part.header.is_some()
}

/// Whether an array is bad, where the group is the pool's and has these physical volumes.
fn is_bad(pool: &Id, pvs: &[Pv], array: u32, part: &Part) -> bool
    ensures { result ≡ is_bad_with pool.now.0 pvs.now array part.now }
{
    has_bad_text(part) || (extents_of(pvs, array).is_some() && !has_own_label(pool, array, part))
}

/// The lowest bad array.
fn first_bad(pool: &Id, pvs: &[Pv], parts: &[Part]) -> Option<u32>
    requires { length parts.now < 2 ^ 32 }
    ensures { result ≡ first_bad_with pool.now.0 pvs.now parts.now }
{
    for array in 0..parts.len() as u32 {
        if is_bad(pool, pvs, array, &parts[array as usize]) {
            return Some(array);
        }
    }
    None
}

/// Whether each part says a group of this seqno.
fn are_even(parts: &[Part], seqno: u64) -> bool
    ensures { result ≡ list_all (says seqno) parts.now }
{
    let mut rest = parts;
    while let Some((part, after)) = rest.split_first() {
        if !part
            .group
            .as_ref()
            .is_some_and(|group| group.seqno == seqno)
        {
            return false;
        }
        rest = after;
    }
    true
}

/// The volume that stands in arrays of these sectors, by their parts.
fn runs_by(
    alloc: Global,
    pool: &Id,
    extent: u32,
    sectors: &[u64],
    parts: &[Part],
) -> Result<Opened, VolumeFault>
    requires some { 0 < length parts.now }
    requires few { length parts.now < 2 ^ 32 }
    requires same { length sectors.now ≡ length parts.now }
    ensures runs { IfOk result (λ opened. HasRuns pool.now.0 extent (slice_index sectors.now) parts.now
        (record { extent = extent; arrays = length parts.now; runs = opened.runs.items }) opened.seqno) }
    ensures even { IfOk result (λ opened. opened.even ≡ list_all (says opened.seqno) parts.now) }
    ensures fault { IfErr result (HasFault pool.now.0 extent (slice_index sectors.now) parts.now) }
{
    let Some(group) = highest(parts) else {
        return Err(VolumeFault::BadVolume { array: 0 });
    };
    let Ok(runs) = own_runs(alloc, pool, extent, sectors, group) else {
        return Err(VolumeFault::Memory);
    };
    let Some(runs) = runs else {
        return Err(VolumeFault::BadVolume { array: 0 });
    };
    match first_bad(pool, group.pvs.as_slice(), parts) {
        Some(array) => Err(VolumeFault::BadVolume { array }),
        None => Ok(Opened {
            runs,
            seqno: group.seqno,
            even: are_even(parts, group.seqno),
        }),
    }
}

/// Reads the joined arrays, so many, for their volume, by a buffer with room for the longest text, and keeps the text
/// of its group in another one.
pub(crate) fn find_runs<R: Rack>(
    alloc: Global,
    rack: &mut R,
    pool: &Id,
    extent: u32,
    joined: u32,
    into: &mut Text,
    kept: &mut Text,
) -> Result<Opened, VolumeFault>
    requires fit { (R.seen rack.old).fit }
    requires some { 0 < joined }
    requires joined { joined ≤ (R.seen rack.old).disks }
    requires room { 262144 ≤ length into.old.bytes + into.old.spare }
    requires kept_room { 262144 ≤ length kept.old.bytes + kept.old.spare }
    ensures looks { OnlyReads (R.seen rack.old) (R.seen rack.new) }
    ensures kept { R.runs rack.old rack.new }
    ensures several { Several R.once (521 * joined) rack.old rack.new }
    ensures unwritten { R.unwritten rack.old rack.new }
    ensures opens { IfOk result (λ opened. Finds pool.now.0 extent joined (R.seen rack.old) (R.seen rack.new)
        (record { extent = extent; arrays = joined; runs = opened.runs.items }) opened.seqno opened.even kept.new.bytes) }
    ensures room { IfOk result (λ opened. 262144 ≤ length into.new.bytes + into.new.spare) }
    ensures refused { IfErr result (IsUnopened pool.now.0 extent joined (R.seen rack.old) (R.seen rack.new)) }
{
    let Ok(sectors) = sectors_of(alloc, rack, joined) else {
        return Err(VolumeFault::Memory);
    };
    let Ok(parts) = read_parts(alloc, rack, joined, into, kept) else {
        return Err(VolumeFault::Memory);
    };
    runs_by(alloc, pool, extent, sectors.as_slice(), parts.as_slice())
}
