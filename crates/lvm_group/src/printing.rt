//! The text of the pool's group, printed without memory.

ghost use Rattle.std.specs.Prelude.{◌≡◌, ◌≤◌, ◌<◌, ◌+◌, ◌*◌, ◌++◌, ◌^◌, Ok, map, length, slice_index};
ghost use Rattle.std.specs.List.{AllByRecursion, flat_map, list_all};
ghost use Rattle.lvm_text.specs.Group.{group_of};
ghost use Rattle.lvm_text.specs.Printed.{
  IsPrintablePv,
  IsPrintableSegment,
  PvInRange,
  SegmentInRange,
  printed,
  pv_text,
  segment_text,
  segments_text,
};
ghost use Rattle.lvm_text.specs.Written.{Grows};
ghost use Rattle.lvm_group.specs.Growth.{is_within};
ghost use Rattle.lvm_group.specs.Own.{own_group, own_pv, own_pvs, segment_of};

use crate::naming::{pv_name, text_id};
use crate::runs::{DATA_START, Run};
use lvm_text::{Text, print_group_head, print_lv_head, print_pv, print_segment};
use shr_base::{Id, child_id};

/// Appends the sections of the arrays' physical volumes, by their sectors and numbers of extents.
#[tactic(auto, unfolding(crate::specs::Own::own_pvs))]
fn print_pvs(pool: &Id, sectors: &[u64], numbers: &[u64], into: &mut Text)
    requires few { length numbers.now ≤ 16 }
    requires same { length sectors.now ≡ length numbers.now }
    requires room { 256 * length numbers.now ≤ into.old.spare }
    ensures text { into.new.bytes ≡ into.old.bytes ++ flat_map pv_text (own_pvs pool.now.0 (slice_index sectors.now) 0 numbers.now) }
    ensures growth { Grows into.old into.new (256 * length numbers.now) }
    ensures printable { AllByRecursion IsPrintablePv (own_pvs pool.now.0 (slice_index sectors.now) 0 numbers.now) }
    ensures range { AllByRecursion PvInRange (own_pvs pool.now.0 (slice_index sectors.now) 0 numbers.now) }
{
    let mut array = 0u32;
    let mut rest = numbers;
    while let Some((number, after)) = rest.split_first() {
        let size = sectors[array as usize];
        print_one_pv(pool, array, size, *number, into);
        array += 1;
        rest = after;
    }
}

/// Appends the section of an array's physical volume.
fn print_one_pv(pool: &Id, array: u32, sectors: u64, number: u64, into: &mut Text)
    requires few { array < 16 }
    requires room { 256 ≤ into.old.spare }
    ensures text { into.new.bytes ≡ into.old.bytes ++ pv_text (own_pv pool.now.0 sectors array number) }
    ensures growth { Grows into.old into.new 256 }
    ensures printable { IsPrintablePv (own_pv pool.now.0 sectors array number) }
    ensures range { PvInRange (own_pv pool.now.0 sectors array number) }
{
    let name = pv_name(array);
    let id = text_id(&child_id(pool, 6, array, 0));
    print_pv(
        name.as_slice(),
        id.as_slice(),
        sectors,
        DATA_START,
        number,
        into,
    );
}

/// Appends the section of a run's segment.
fn print_run(number: u64, run: &Run, into: &mut Text)
    requires few { run.now.array < 16 }
    requires room { 224 ≤ into.old.spare }
    ensures text { into.new.bytes ≡ into.old.bytes ++ segment_text number (segment_of run.now) }
    ensures growth { Grows into.old into.new 224 }
    ensures printable { IsPrintableSegment (segment_of run.now) }
    ensures range { SegmentInRange (segment_of run.now) }
{
    let name = pv_name(run.array);
    print_segment(
        number,
        run.start,
        run.count,
        name.as_slice(),
        run.first,
        into,
    );
}

/// Appends the sections of the runs' segments.
#[tactic(auto, unfolding(lvm_text::specs::Printed::segments_text))]
fn print_runs(runs: &[Run], into: &mut Text)
    requires few { AllByRecursion (λ run. run.array < 16) runs.now }
    requires room { 224 * length runs.now ≤ into.old.spare }
    ensures text { into.new.bytes ≡ into.old.bytes ++ segments_text 1 (map segment_of runs.now) }
    ensures growth { Grows into.old into.new (224 * length runs.now) }
    ensures printable { AllByRecursion IsPrintableSegment (map segment_of runs.now) }
    ensures range { AllByRecursion SegmentInRange (map segment_of runs.now) }
{
    let mut before = 0u64;
    let mut rest = runs;
    while let Some((run, after)) = rest.split_first() {
        print_run(before + 1, run, into);
        before += 1;
        rest = after;
    }
}

/// Appends the text of the pool's group.
#[tactic(auto, unfolding(crate::specs::Own::own_pvs))]
pub(crate) fn print_own(
    pool: &Id,
    extent: u64,
    sectors: &[u64],
    seqno: u64,
    numbers: &[u64],
    runs: &[Run],
    into: &mut Text,
)
    requires few { length numbers.now ≤ 16 }
    requires same { length sectors.now ≡ length numbers.now }
    requires arrays { AllByRecursion (λ run. run.array < 16) runs.now }
    requires short { length runs.now ≤ 1024 }
    requires room { 262144 ≤ into.old.spare }
    ensures text { into.new.bytes ≡ into.old.bytes ++ printed (own_group pool.now.0 extent (slice_index sectors.now) seqno numbers.now runs.now) }
    ensures room { length into.old.bytes + into.old.spare ≤ length into.new.bytes + into.new.spare }
    ensures most { length (printed (own_group pool.now.0 extent (slice_index sectors.now) seqno numbers.now runs.now)) ≤ 262144 }
    ensures read_back { group_of (printed (own_group pool.now.0 extent (slice_index sectors.now) seqno numbers.now runs.now))
        ≡ Ok (own_group pool.now.0 extent (slice_index sectors.now) seqno numbers.now runs.now) }
{
    let id = text_id(&child_id(pool, 5, 0, 0));
    print_group_head(b"vg1000", id.as_slice(), seqno, extent, into);
    into.append(b"physical_volumes {\n");
    print_pvs(pool, sectors, numbers, into);
    into.append(b"}\nlogical_volumes {\n");
    let id = text_id(&child_id(pool, 7, 0, 0));
    print_lv_head(b"lv", id.as_slice(), runs.len() as u64, into);
    print_runs(runs, into);
    into.append(b"}\n}\n}\ncontents = \"Text Format Volume Group\"\nversion = 1\n\0");
}
