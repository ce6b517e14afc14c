//! Whether a group is one that the pool writes, and the runs of its volume.

ghost use Rattle.std.specs.Prelude.{◌≡◌, ◌≤◌, ◌==◌, ◌&&◌, ◌^◌, IfOk, IfSome, bytes_eq, is_some, length, nat_lt, not, option_map, slice_index};
ghost use Rattle.std.specs.List.{list_all, list_any};
ghost use Rattle.lvm_group.specs.Group.{
  all_apart,
  are_apart,
  differ,
  follow,
  has_own_head,
  has_own_name,
  is_lv,
  is_only_lv,
  is_own_group,
  is_pv,
  is_pv_of,
  lies_in,
  names,
  pv_of,
  run_in,
  runs_from,
  runs_in,
};

use crate::naming::{array_named, text_id};
use crate::runs::{DATA_START, Run};
use lvm_text::{Group, Lv, Pv, Segment, SegmentKind};
use rack::NoMemory;
use shr_base::{Id, child_id};
use std::alloc::Global;

/// At most so many segments.
pub(crate) const MOST_SEGMENTS: usize = 1024;

/// The run of a segment, where it is linear on an array's physical volume.
fn run_in(segment: &Segment) -> Option<Run>
    ensures { result ≡ run_in segment.now }
{
    let SegmentKind::Linear { pv, first } = &segment.kind else {
        return None;
    };
    let array = array_named(pv.bytes())?;
    Some(Run {
        start: segment.start,
        count: segment.count,
        array,
        first: *first,
    })
}

/// The runs of segments.
#[tactic(auto, unfolding(crate::specs::Group::runs_from))]
fn runs_from(alloc: Global, segments: &[Segment]) -> Result<Vec<Run>, NoMemory>
    ensures { IfOk result (λ runs. runs.items ≡ runs_from segments.now) }
{
    let mut runs = Vec::new(alloc);
    let mut rest = segments;
    while let Some((segment, after)) = rest.split_first() {
        if let Some(run) = run_in(segment) {
            if runs.push(run).is_err() {
                return Err(NoMemory);
            }
        }
        rest = after;
    }
    Ok(runs)
}

/// Whether segments are linear and follow each other from extent 0 on.
#[tactic(auto, unfolding(crate::specs::Group::follow))]
fn follow(segments: &[Segment]) -> bool
    requires { length segments.now ≤ 1024 }
    ensures { result ≡ follow 0 segments.now }
{
    let mut start = 0u128;
    let mut rest = segments;
    while let Some((segment, after)) = rest.split_first() {
        if u128::from(segment.start) != start || run_in(segment).is_none() {
            return false;
        }
        start += u128::from(segment.count);
        rest = after;
    }
    true
}

/// Whether a physical volume has the name of an array's.
fn names(array: u32, pv: &Pv) -> bool
    ensures { result ≡ names array pv.now }
{
    match array_named(pv.name.bytes()) {
        Some(named) => named == array,
        None => false,
    }
}

/// The extents of an array's physical volume, where the group has it.
pub(crate) fn extents_of(pvs: &[Pv], array: u32) -> Option<u64>
    ensures { result ≡ option_map (λ pv. pv.pe_count) (pv_of pvs.now array) }
{
    let mut rest = pvs;
    while let Some((pv, after)) = rest.split_first() {
        if names(array, pv) {
            return Some(pv.pe_count);
        }
        rest = after;
    }
    None
}

/// Whether a run lies in the physical volume of its array.
fn lies_in(pvs: &[Pv], run: &Run) -> bool
    ensures { result ≡ lies_in pvs.now run.now }
{
    match extents_of(pvs, run.array) {
        Some(extents) => u128::from(run.first) + u128::from(run.count) <= u128::from(extents),
        None => false,
    }
}

/// Whether all do.
fn all_lie(pvs: &[Pv], runs: &[Run]) -> bool
    ensures { result ≡ list_all (lies_in pvs.now) runs.now }
{
    let mut rest = runs;
    while let Some((run, after)) = rest.split_first() {
        if !lies_in(pvs, run) {
            return false;
        }
        rest = after;
    }
    true
}

/// Whether two runs share no extent of an array.
fn are_apart(run: &Run, other: &Run) -> bool
    ensures { result ≡ are_apart run.now other.now }
{
    let end = u128::from(run.first) + u128::from(run.count);
    let other_end = u128::from(other.first) + u128::from(other.count);
    run.array != other.array || end.min(other_end) <= u128::from(run.first.max(other.first))
}

/// Whether a run shares none with others.
fn is_apart(run: &Run, others: &[Run]) -> bool
    ensures { result ≡ list_all (are_apart run.now) others.now }
{
    let mut rest = others;
    while let Some((other, after)) = rest.split_first() {
        if !are_apart(run, other) {
            return false;
        }
        rest = after;
    }
    true
}

/// Whether no two runs share one.
#[tactic(auto, unfolding(crate::specs::Group::all_apart))]
fn all_apart(runs: &[Run]) -> bool
    ensures { result ≡ all_apart runs.now }
{
    let mut rest = runs;
    while let Some((run, after)) = rest.split_first() {
        if !is_apart(run, after) {
            return false;
        }
        rest = after;
    }
    true
}

/// Whether a physical volume is that of a joined array, which holds its extents. The slice has the
/// joined arrays' sectors.
fn is_pv_of(pool: &Id, extent: u32, sectors: &[u64], pv: &Pv, array: u32) -> bool
    ensures { result ≡ is_pv_of pool.now.0 extent (slice_index sectors.now) (length sectors.now) pv.now array }
{
    (array as usize) < sectors.len()
        && pv.id.bytes() == text_id(&child_id(pool, 6, array, 0)).as_slice()
        && pv.pe_start == DATA_START
        && 2048 + u128::from(pv.pe_count) * u128::from(extent)
            <= u128::from(sectors[array as usize])
}

fn is_pv(pool: &Id, extent: u32, sectors: &[u64], pv: &Pv) -> bool
    ensures { result ≡ is_pv pool.now.0 extent (slice_index sectors.now) (length sectors.now) pv.now }
{
    match array_named(pv.name.bytes()) {
        Some(array) => is_pv_of(pool, extent, sectors, pv, array),
        None => false,
    }
}

/// Whether all physical volumes are those of joined arrays.
fn are_pvs(pool: &Id, extent: u32, sectors: &[u64], pvs: &[Pv]) -> bool
    ensures { result ≡ list_all (is_pv pool.now.0 extent (slice_index sectors.now) (length sectors.now)) pvs.now }
{
    let mut rest = pvs;
    while let Some((pv, after)) = rest.split_first() {
        if !is_pv(pool, extent, sectors, pv) {
            return false;
        }
        rest = after;
    }
    true
}

/// Whether a physical volume has a name.
fn is_named(pvs: &[Pv], name: &[u8]) -> bool
    ensures { result ≡ list_any (λ other. bytes_eq other.name name.now) pvs.now }
{
    let mut rest = pvs;
    while let Some((pv, after)) = rest.split_first() {
        if pv.name.bytes() == name {
            return true;
        }
        rest = after;
    }
    false
}

/// Whether no two physical volumes have one name.
#[tactic(auto, unfolding(crate::specs::Group::differ))]
fn differ(pvs: &[Pv]) -> bool
    ensures { result ≡ differ pvs.now }
{
    let mut rest = pvs;
    while let Some((pv, after)) = rest.split_first() {
        if is_named(after, pv.name.bytes()) {
            return false;
        }
        rest = after;
    }
    true
}

/// Whether a group has the pool's name and id, its size of an extent, and a seqno with room.
fn has_own_head(pool: &Id, extent: u32, group: &Group) -> bool
    ensures { result ≡ has_own_head pool.now.0 extent group.now }
{
    group.name.bytes() == b"vg1000".as_slice()
        && group.id.bytes() == text_id(&child_id(pool, 5, 0, 0)).as_slice()
        && group.extent_size == u64::from(extent)
        && group.seqno < 1 << 63
}

/// Whether a logical volume has the pool's name and id.
fn has_own_name(pool: &Id, lv: &Lv) -> bool
    ensures { result ≡ has_own_name pool.now.0 lv.now }
{
    lv.name.bytes() == b"lv".as_slice()
        && lv.id.bytes() == text_id(&child_id(pool, 7, 0, 0)).as_slice()
}

/// The runs of a logical volume, where it is the pool's.
fn own_lv_runs(alloc: Global, pool: &Id, pvs: &[Pv], lv: &Lv) -> Result<Option<Vec<Run>>, NoMemory>
    ensures own { IfOk result (λ found. is_some found ≡ is_lv pool.now.0 pvs.now lv.now) }
    ensures runs { IfOk result (λ found. IfSome found (λ runs. runs.items ≡ runs_from lv.now.segments)) }
{
    let segments = lv.segments.as_slice();
    if !has_own_name(pool, lv) || segments.len() > MOST_SEGMENTS || !follow(segments) {
        return Ok(None);
    }
    let runs = runs_from(alloc, segments)?;
    if !all_lie(pvs, runs.as_slice()) || !all_apart(runs.as_slice()) {
        return Ok(None);
    }
    Ok(Some(runs))
}

/// The runs of a group's volume, where the group is one that the pool writes. The slice has the
/// joined arrays' sectors.
pub(crate) fn own_runs(
    alloc: Global,
    pool: &Id,
    extent: u32,
    sectors: &[u64],
    group: &Group,
) -> Result<Option<Vec<Run>>, NoMemory>
    ensures own { IfOk result (λ found. is_some found
        ≡ is_own_group pool.now.0 extent (slice_index sectors.now) (length sectors.now) group.now) }
    ensures runs { IfOk result (λ found. IfSome found (λ runs. runs.items ≡ runs_in group.now.lvs)) }
{
    let pvs = group.pvs.as_slice();
    if !has_own_head(pool, extent, group) || !are_pvs(pool, extent, sectors, pvs) || !differ(pvs) {
        return Ok(None);
    }
    match group.lvs.as_slice() {
        [lv] => own_lv_runs(alloc, pool, pvs, lv),
        _ => Ok(None),
    }
}
