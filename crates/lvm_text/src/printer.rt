//! Writing a group's text.

ghost use Rattle.lvm_text.specs.Group.{group_of};
ghost use Rattle.lvm_text.specs.Printed.{
  IsId,
  IsName,
  IsPrintable,
  IsPrintableLv,
  IsPrintablePv,
  IsPrintableSegment,
  LvInRange,
  PvInRange,
  SegmentInRange,
  bare_group,
  group_head,
  linear,
  lv_head,
  lv_text,
  number_line,
  opening,
  printed,
  pv_text,
  segment_text,
  segment_total,
  segments_text,
  stripes_line,
  text_line,
};
ghost use Rattle.lvm_text.specs.Written.{Grows};
ghost use Rattle.std.specs.List.{AllByRecursion, flat_map};
ghost use Rattle.std.specs.Prelude.{◌≡◌, ◌≤◌, ◌<◌, ◌+◌, ◌*◌, ◌++◌, ◌^◌, codes, decimal, length};

use crate::group::{Group, Lv, Lvs, Pv, Pvs, Segment, SegmentKind, Segments};
use crate::text::Text;
use itoa::Buffer;

/// A number in digits.
fn digits(n: u64, into: &mut Text)
    requires { 20 ≤ into.old.spare }
    ensures text { into.new.bytes ≡ into.old.bytes ++ decimal n }
    ensures growth { Grows into.old into.new 20 }
    ensures range { n < 2 ^ 64 }
{
    into.append(Buffer::new().format(n).as_bytes());
}

/// A key and its number.
#[tactic(auto, unfolding(crate::specs::Printed::number_line))]
fn number_line(key: &[u8], n: u64, into: &mut Text)
    requires { length key.now + 24 ≤ into.old.spare }
    ensures text { into.new.bytes ≡ into.old.bytes ++ number_line key.now n }
    ensures growth { Grows into.old into.new (length key.now + 24) }
    ensures range { n < 2 ^ 64 }
{
    into.append(key);
    into.append(b" = ");
    digits(n, into);
    into.append(b"\n");
}

/// A key and its string.
#[tactic(auto, unfolding(crate::specs::Printed::text_line))]
fn text_line(key: &[u8], text: &[u8], into: &mut Text)
    requires { length key.now + length text.now + 6 ≤ into.old.spare }
    ensures text { into.new.bytes ≡ into.old.bytes ++ text_line key.now text.now }
    ensures growth { Grows into.old into.new (length key.now + length text.now + 6) }
{
    into.append(key);
    into.append(b" = \"");
    into.append(text);
    into.append(b"\"\n");
}

/// Where a section begins.
#[tactic(auto, unfolding(crate::specs::Printed::opening))]
fn opening(name: &[u8], into: &mut Text)
    requires { length name.now + 3 ≤ into.old.spare }
    ensures text { into.new.bytes ≡ into.old.bytes ++ opening name.now }
    ensures growth { Grows into.old into.new (length name.now + 3) }
{
    into.append(name);
    into.append(b" {\n");
}

/// Appends the section of a physical volume: name and id, its sectors, the sector of its first extent and
/// how many extents it has.
#[tactic(auto, unfolding(crate::specs::Printed::pv_text))]
pub fn print_pv(
    name: &[u8],
    id: &[u8],
    dev_size: u64,
    pe_start: u64,
    pe_count: u64,
    into: &mut Text,
)
    requires printable { IsName name.now × IsId id.now }
    requires room { 256 ≤ into.old.spare }
    ensures text { into.new.bytes ≡ into.old.bytes
        ++ pv_text (record { name = name.now; id = id.now; dev_size = dev_size; pe_start = pe_start; pe_count = pe_count }) }
    ensures growth { Grows into.old into.new 256 }
    ensures range { (dev_size < 2 ^ 64) × (pe_start < 2 ^ 64) × (pe_count < 2 ^ 64) }
{
    opening(name, into);
    text_line(b"id", id, into);
    into.append(b"device = \"unknown\"\nstatus = [\"ALLOCATABLE\"]\nflags = []\n");
    number_line(b"dev_size", dev_size, into);
    number_line(b"pe_start", pe_start, into);
    number_line(b"pe_count", pe_count, into);
    into.append(b"}\n");
}

/// A physical volume's section.
fn pv(pv: &Pv, into: &mut Text)
    requires printable { IsPrintablePv pv.now }
    requires room { 256 ≤ into.old.spare }
    ensures text { into.new.bytes ≡ into.old.bytes ++ pv_text pv.now }
    ensures growth { Grows into.old into.new 256 }
    ensures range { PvInRange pv.now }
{
    print_pv(
        pv.name.bytes(),
        pv.id.bytes(),
        pv.dev_size,
        pv.pe_start,
        pv.pe_count,
        into,
    );
}

/// The sections of physical volumes.
fn pvs(pvs: &Pvs, into: &mut Text)
    requires printable { AllByRecursion IsPrintablePv pvs.now }
    requires room { 256 * length pvs.now ≤ into.old.spare }
    ensures text { into.new.bytes ≡ into.old.bytes ++ flat_map pv_text pvs.now }
    ensures growth { Grows into.old into.new (256 * length pvs.now) }
    ensures range { AllByRecursion PvInRange pvs.now }
{
    let mut rest = pvs.as_slice();
    while let Some((first, after)) = rest.split_first() {
        pv(first, into);
        rest = after;
    }
}

/// Where a linear segment's extents lie.
#[tactic(auto, unfolding(crate::specs::Printed::stripes_line))]
fn stripes_line(pv: &[u8], first: u64, into: &mut Text)
    requires printable { IsName pv.now }
    requires room { 72 ≤ into.old.spare }
    ensures text { into.new.bytes ≡ into.old.bytes ++ stripes_line (linear pv.now first) }
    ensures growth { Grows into.old into.new 72 }
    ensures range { first < 2 ^ 64 }
{
    into.append(b"stripes = [\"");
    into.append(pv);
    into.append(b"\", ");
    digits(first, into);
    into.append(b"]\n");
}

/// Where a segment's section begins.
#[tactic(auto, unfolding(crate::specs::Printed::opening))]
fn segment_opening(number: u64, into: &mut Text)
    requires { 30 ≤ into.old.spare }
    ensures text { into.new.bytes ≡ into.old.bytes ++ opening (codes "segment" ++ decimal number) }
    ensures growth { Grows into.old into.new 30 }
{
    into.append(b"segment");
    digits(number, into);
    into.append(b" {\n");
}

/// Appends the section of a linear segment: the extents of a logical volume from `start` on, which lie on
/// a physical volume from its extent `first` on.
#[tactic(auto, unfolding(crate::specs::Printed::segment_text))]
pub fn print_segment(number: u64, start: u64, count: u64, pv: &[u8], first: u64, into: &mut Text)
    requires printable { IsName pv.now }
    requires room { 224 ≤ into.old.spare }
    ensures text { into.new.bytes ≡ into.old.bytes ++ segment_text number (record { start = start; count = count; kind = linear pv.now first }) }
    ensures growth { Grows into.old into.new 224 }
    ensures range { (start < 2 ^ 64) × (count < 2 ^ 64) × (first < 2 ^ 64) }
{
    segment_opening(number, into);
    number_line(b"start_extent", start, into);
    number_line(b"extent_count", count, into);
    into.append(b"type = \"striped\"\nstripe_count = 1\n");
    stripes_line(pv, first, into);
    into.append(b"}\n");
}

/// A segment's section.
fn segment(number: u64, segment: &Segment, into: &mut Text)
    requires printable { IsPrintableSegment segment.now }
    requires room { 224 ≤ into.old.spare }
    ensures text { into.new.bytes ≡ into.old.bytes ++ segment_text number segment.now }
    ensures growth { Grows into.old into.new 224 }
    ensures range { SegmentInRange segment.now }
{
    match &segment.kind {
        SegmentKind::Linear { pv, first } => {
            print_segment(
                number,
                segment.start,
                segment.count,
                pv.bytes(),
                *first,
                into,
            );
        }
        SegmentKind::Other => {}
    }
}

/// The sections of segments.
#[tactic(auto, unfolding(crate::specs::Printed::segments_text))]
fn segments(segments: &Segments, into: &mut Text)
    requires printable { AllByRecursion IsPrintableSegment segments.now }
    requires room { 224 * length segments.now ≤ into.old.spare }
    ensures text { into.new.bytes ≡ into.old.bytes ++ segments_text 1 segments.now }
    ensures growth { Grows into.old into.new (224 * length segments.now) }
    ensures range { AllByRecursion SegmentInRange segments.now }
{
    let mut before = 0u64;
    let mut rest = segments.as_slice();
    while let Some((first, after)) = rest.split_first() {
        segment(before + 1, first, into);
        before += 1;
        rest = after;
    }
}

/// Appends what stands before the segments of a logical volume of so many.
#[tactic(auto, unfolding(crate::specs::Printed::lv_head))]
pub fn print_lv_head(name: &[u8], id: &[u8], segment_count: u64, into: &mut Text)
    requires printable { IsName name.now × IsId id.now }
    requires room { 254 ≤ into.old.spare }
    ensures text { into.new.bytes ≡ into.old.bytes ++ lv_head name.now id.now segment_count }
    ensures growth { Grows into.old into.new 254 }
{
    opening(name, into);
    text_line(b"id", id, into);
    into.append(b"status = [\"READ\", \"WRITE\", \"VISIBLE\"]\nflags = []\n");
    number_line(b"segment_count", segment_count, into);
}

/// A logical volume's section.
#[tactic(auto, unfolding(crate::specs::Printed::lv_text))]
fn lv(lv: &Lv, into: &mut Text)
    requires printable { IsPrintableLv lv.now }
    requires room { 256 + 224 * length lv.now.segments ≤ into.old.spare }
    ensures text { into.new.bytes ≡ into.old.bytes ++ lv_text lv.now }
    ensures growth { Grows into.old into.new (256 + 224 * length lv.now.segments) }
    ensures range { LvInRange lv.now }
{
    print_lv_head(
        lv.name.bytes(),
        lv.id.bytes(),
        lv.segments.as_slice().len() as u64,
        into,
    );
    segments(&lv.segments, into);
    into.append(b"}\n");
}

/// The sections of logical volumes.
#[tactic(auto, unfolding(crate::specs::Printed::segment_total))]
fn lvs(lvs: &Lvs, into: &mut Text)
    requires printable { AllByRecursion IsPrintableLv lvs.now }
    requires room { 256 * length lvs.now + 224 * segment_total lvs.now ≤ into.old.spare }
    ensures text { into.new.bytes ≡ into.old.bytes ++ flat_map lv_text lvs.now }
    ensures growth { Grows into.old into.new (256 * length lvs.now + 224 * segment_total lvs.now) }
    ensures range { AllByRecursion LvInRange lvs.now }
{
    let mut rest = lvs.as_slice();
    while let Some((first, after)) = rest.split_first() {
        lv(first, into);
        rest = after;
    }
}

/// Appends what stands before the volumes of a group of this name, id, number and sectors of an extent.
#[tactic(auto, unfolding(crate::specs::Printed::group_head))]
pub fn print_group_head(name: &[u8], id: &[u8], seqno: u64, extent_size: u64, into: &mut Text)
    requires printable { IsName name.now × IsId id.now }
    requires room { 512 ≤ into.old.spare }
    ensures text { into.new.bytes ≡ into.old.bytes ++ group_head (bare_group name.now id.now seqno extent_size) }
    ensures growth { Grows into.old into.new 512 }
    ensures range { (seqno < 2 ^ 64) × (extent_size < 2 ^ 64) }
{
    opening(name, into);
    text_line(b"id", id, into);
    number_line(b"seqno", seqno, into);
    into.append(b"format = \"lvm2\"\nstatus = [\"RESIZEABLE\", \"READ\", \"WRITE\"]\nflags = []\n");
    number_line(b"extent_size", extent_size, into);
    into.append(b"max_lv = 0\nmax_pv = 0\nmetadata_copies = 0\n");
}

/// Appends the text of a group, with the zero byte that ends it. It takes no memory.
#[tactic(auto, unfolding(crate::specs::Printed::printed))]
pub fn print(group: &Group, into: &mut Text)
    requires printable { IsPrintable group.now }
    requires room { 262144 ≤ into.old.spare }
    ensures text { into.new.bytes ≡ into.old.bytes ++ printed group.now }
    ensures short { length (printed group.now) ≤ 262144 }
    ensures room { length into.old.bytes + into.old.spare ≤ length into.new.bytes + into.new.spare }
    ensures read_back { group_of (printed group.now) ≡ Ok group.now }
{
    print_group_head(
        group.name.bytes(),
        group.id.bytes(),
        group.seqno,
        group.extent_size,
        into,
    );
    opening(b"physical_volumes", into);
    pvs(&group.pvs, into);
    into.append(b"}\n");
    opening(b"logical_volumes", into);
    lvs(&group.lvs, into);
    into.append(b"}\n}\n");
    into.append(b"contents = \"Text Format Volume Group\"\nversion = 1\n\0");
}
