//! The group that a text's words tell.

ghost use Rattle.lvm_text.specs.Group.{
  Tells,
  counts,
  each_at,
  found,
  group_at,
  group_in,
  group_of,
  kind_at,
  logical_volumes,
  lv_at,
  lvs_in,
  name_of,
  number_at,
  numbered,
  or_zero,
  pv_at,
  says,
  section_at,
  section_in,
  segment_at,
  segment_name,
  segment_numbered,
  segments_at,
  stripe_in,
  text_at,
};
ghost use Rattle.lvm_text.specs.Table.{IsTable};
ghost use Rattle.std.specs.Prelude.{◌≡◌, ◌+◌, ◌<◌, ◌^◌, ◌++◌, IfErr, IfOk, codes, decimal, option_map, string_bytes};

use crate::group::{Group, Key, Lv, Lvs, Pv, Pvs, Segment, SegmentKind, Segments, TextFault};
use crate::reader;
use crate::stop::Stop;
use crate::table::table_of;
use crate::words::Word;
use rack::Name;
use std::alloc::Global;

/// The words behind the first item of this name in the section whose words these are.
#[tactic(auto, unfolding(crate::specs::Group::found_at))]
fn find<'a>(words: &'a [Word], name: &[u8]) -> Option<&'a [Word]>
    ensures { option_map (λ words. words.now) result ≡ found name.now words.now }
{
    let mut depth = 0usize;
    let mut rest = words;
    while let Some((word, after)) = rest.split_first() {
        match word {
            Word::Name(other) => {
                if depth == 0 && other.bytes() == name {
                    return Some(after);
                }
            }
            Word::Open => depth += 1,
            Word::Close => {
                if depth == 0 {
                    return None;
                }
                depth -= 1;
            }
            _ => {}
        }
        rest = after;
    }
    None
}

/// What a key is called.
#[tactic(auto, unfolding(crate::specs::Group::name_of))]
fn key_name(key: Key) -> &'static [u8]
    ensures { result.now ≡ name_of key }
{
    match key {
        Key::Id => b"id",
        Key::Seqno => b"seqno",
        Key::ExtentSize => b"extent_size",
        Key::PhysicalVolumes => b"physical_volumes",
        Key::DevSize => b"dev_size",
        Key::PeStart => b"pe_start",
        Key::PeCount => b"pe_count",
        Key::SegmentCount => b"segment_count",
        Key::StartExtent => b"start_extent",
        Key::ExtentCount => b"extent_count",
    }
}

/// The number that an item has.
#[tactic(auto, unfolding(crate::specs::Group::number_at, crate::specs::Group::number_in))]
fn number(words: &[Word], key: Key) -> Result<u64, TextFault>
    ensures { Tells (λ n. n) result (number_at key words.now) }
{
    match find(words, key_name(key)) {
        Some([Word::Equals, Word::Number(Some(value)), ..]) => Ok(*value),
        Some([Word::Equals, ..]) => Err(TextFault::Range { key }),
        _ => Err(TextFault::Missing { key }),
    }
}

/// The string that an item has.
#[tactic(auto, unfolding(crate::specs::Group::text_at, crate::specs::Group::text_in))]
fn text(alloc: Global, words: &[Word], key: Key) -> Result<Name, TextFault>
    ensures { Tells (λ t. t) result (text_at key words.now) }
{
    match find(words, key_name(key)) {
        Some([Word::Equals, Word::Text(text), ..]) => Ok(Name::of(alloc, text.bytes())?),
        Some([Word::Equals, ..]) => Err(TextFault::Range { key }),
        _ => Err(TextFault::Missing { key }),
    }
}

/// The words of an item that is a section.
#[tactic(auto, unfolding(crate::specs::Group::section_in))]
fn section<'a>(words: &'a [Word], name: &[u8]) -> Option<&'a [Word]>
    ensures { option_map (λ words. words.now) result ≡ section_in (found name.now words.now) }
{
    match find(words, name) {
        Some([Word::Open, body @ ..]) => Some(body),
        _ => None,
    }
}

/// The words of a section that must be there.
#[tactic(auto, unfolding(crate::specs::Group::section_at))]
fn needed(words: &[Word], key: Key) -> Result<&[Word], TextFault>
    ensures { Tells (λ words. words.now) result (section_at key words.now) }
{
    match section(words, key_name(key)) {
        Some(body) => Ok(body),
        None => Err(TextFault::Missing { key }),
    }
}

/// The words of the logical volumes, which may be absent.
#[tactic(auto, unfolding(crate::specs::Group::logical_volumes))]
fn lv_words(words: &[Word]) -> Option<&[Word]>
    ensures { option_map (λ words. words.now) result ≡ logical_volumes words.now }
{
    section(words, b"logical_volumes")
}

/// The words of a section, where they follow its name.
#[tactic(auto, unfolding(crate::specs::Group::section_in))]
fn opened(after: &[Word]) -> Option<&[Word]>
    ensures { option_map (λ words. words.now) result ≡ section_in (Some after.now) }
{
    match after {
        [Word::Open, body @ ..] => Some(body),
        _ => None,
    }
}

/// The number that an item has, 0 where it isn't there.
fn number_or_zero(words: &[Word], key: Key) -> Result<u64, TextFault>
    ensures { Tells (λ n. n) result (or_zero (number_at key words.now)) }
{
    match number(words, key) {
        Err(TextFault::Missing { .. }) => Ok(0),
        told => told,
    }
}

/// The physical volume of a section.
#[tactic(auto, unfolding(crate::specs::Group::pv_at))]
fn pv(alloc: Global, name: &Name, words: &[Word]) -> Result<Pv, TextFault>
    ensures { Tells (λ pv. pv) result (pv_at name.now words.now) }
{
    let id = text(alloc, words, Key::Id)?;
    let dev_size = number_or_zero(words, Key::DevSize)?;
    let pe_start = number(words, Key::PeStart)?;
    let pe_count = number(words, Key::PeCount)?;
    Ok(Pv {
        name: Name::of(alloc, name.bytes())?,
        id,
        dev_size,
        pe_start,
        pe_count,
    })
}

/// Whether an item has this string.
fn has_text(words: &[Word], name: &[u8], text: &[u8]) -> bool
    ensures { result ≡ says text.now (found name.now words.now) }
{
    match find(words, name) {
        Some([Word::Equals, Word::Text(other), ..]) => other.bytes() == text,
        _ => false,
    }
}

/// Whether an item has this number.
fn has_number(words: &[Word], name: &[u8], wanted: u64) -> bool
    ensures { result ≡ counts wanted (found name.now words.now) }
{
    match find(words, name) {
        Some([Word::Equals, Word::Number(Some(value)), ..]) => *value == wanted,
        _ => false,
    }
}

/// Where the extents of a segment lie that is striped over one physical volume.
#[tactic(auto, unfolding(crate::specs::Group::stripe_in))]
fn stripe(alloc: Global, words: &[Word]) -> Result<SegmentKind, TextFault>
    ensures { Tells (λ k. k) result (Ok (stripe_in (found (codes "stripes") words.now))) }
{
    match find(words, b"stripes") {
        Some(
            [
                Word::Equals,
                Word::ListOpen,
                Word::Text(pv),
                Word::Comma,
                Word::Number(Some(first)),
                Word::ListClose,
                ..
            ],
        ) => Ok(SegmentKind::Linear {
            pv: Name::of(alloc, pv.bytes())?,
            first: *first,
        }),
        _ => Ok(SegmentKind::Other),
    }
}

/// Where the extents of a segment lie.
#[tactic(auto, unfolding(crate::specs::Group::kind_at))]
fn kind(alloc: Global, words: &[Word]) -> Result<SegmentKind, TextFault>
    ensures { Tells (λ k. k) result (Ok (kind_at words.now)) }
{
    if has_text(words, b"type", b"striped") && has_number(words, b"stripe_count", 1) {
        stripe(alloc, words)
    } else {
        Ok(SegmentKind::Other)
    }
}

/// The segment of a section.
#[tactic(auto, unfolding(crate::specs::Group::segment_at))]
fn segment(alloc: Global, words: &[Word]) -> Result<Segment, TextFault>
    ensures { Tells (λ s. s) result (segment_at words.now) }
{
    let start = number(words, Key::StartExtent)?;
    let count = number(words, Key::ExtentCount)?;
    let kind = kind(alloc, words)?;
    Ok(Segment { start, count, kind })
}

/// The name of a segment's section.
fn name_of_segment(alloc: Global, number: u64) -> Result<String, TextFault>
    ensures name { IfOk result (λ name. string_bytes name ≡ segment_name number) }
    ensures err { IfErr result (λ e. e ≡ TextFault.Memory) }
{
    match format!(in alloc; "segment{number}") {
        Ok(name) => Ok(name),
        Err(_) => Err(TextFault::Memory),
    }
}

/// The words behind the name of the segment behind so many others. It is searched for only past the
/// table's end, which no text reaches that has all segments before it.
fn segment_item<'a>(
    alloc: Global,
    words: &'a [Word],
    table: &[Option<usize>],
    before: usize,
) -> Result<Option<&'a [Word]>, TextFault>
    requires table { IsTable table.now words.now }
    requires number { before + 1 < 2 ^ 64 }
    ensures item { IfOk result (λ item. option_map (λ words. words.now) item ≡ found (segment_name (before + 1)) words.now) }
    ensures err { IfErr result (λ e. e ≡ TextFault.Memory) }
{
    match table.get(before) {
        Some(Some(place)) => Ok(Some(&words[*place..])),
        Some(None) => Ok(None),
        None => {
            let name = name_of_segment(alloc, before as u64 + 1)?;
            Ok(find(words, name.as_bytes()))
        }
    }
}

/// The words of the section of the segment behind so many others.
#[tactic(auto, unfolding(crate::specs::Group::numbered, crate::specs::Group::section_in))]
fn numbered_section<'a>(
    alloc: Global,
    words: &'a [Word],
    table: &[Option<usize>],
    before: usize,
) -> Result<&'a [Word], TextFault>
    requires table { IsTable table.now words.now }
    requires number { before + 1 < 2 ^ 64 }
    ensures { Tells (λ words. words.now) result (numbered (before + 1) words.now) }
{
    match segment_item(alloc, words, table, before)? {
        Some(after) => opened(after).ok_or(TextFault::Missing {
            key: Key::SegmentCount,
        }),
        None => Err(TextFault::Missing {
            key: Key::SegmentCount,
        }),
    }
}

/// The segment behind so many others.
#[tactic(auto, unfolding(crate::specs::Group::segment_numbered))]
fn numbered_segment(
    alloc: Global,
    words: &[Word],
    table: &[Option<usize>],
    before: usize,
) -> Result<Segment, TextFault>
    requires table { IsTable table.now words.now }
    requires number { before + 1 < 2 ^ 64 }
    ensures { Tells (λ s. s) result (segment_numbered (before + 1) words.now) }
{
    let body = numbered_section(alloc, words, table, before)?;
    segment(alloc, body)
}

/// So many segments, from number 1 on.
fn segments(alloc: Global, words: &[Word], count: u64) -> Result<Segments, TextFault>
    ensures { Tells (λ segments. segments) result (segments_at count 1 words.now) }
{
    let count = count as usize;
    let table = table_of(alloc, words, count.min(words.len()))?;
    let mut segments = Segments::new(alloc);
    for before in 0..count {
        segments.push(numbered_segment(alloc, words, table.as_slice(), before)?)?;
    }
    Ok(segments)
}

/// The logical volume of a section.
#[tactic(auto, unfolding(crate::specs::Group::lv_at))]
fn lv(alloc: Global, name: &Name, words: &[Word]) -> Result<Lv, TextFault>
    ensures { Tells (λ lv. lv) result (lv_at name.now words.now) }
{
    let id = text(alloc, words, Key::Id)?;
    let count = number(words, Key::SegmentCount)?;
    let segments = segments(alloc, words, count)?;
    Ok(Lv {
        name: Name::of(alloc, name.bytes())?,
        id,
        segments,
    })
}

/// The physical volumes of a section.
#[tactic(auto, unfolding(crate::specs::Group::each_at))]
fn pvs(alloc: Global, words: &[Word]) -> Result<Pvs, TextFault>
    ensures { Tells (λ pvs. pvs) result (each_at pv_at 0 words.now) }
{
    let mut pvs = Pvs::new(alloc);
    let mut depth = 0usize;
    let mut rest = words;
    while let Some((word, after)) = rest.split_first() {
        match word {
            Word::Name(name) => {
                if depth == 0
                    && let Some(body) = opened(after)
                {
                    pvs.push(pv(alloc, name, body)?)?;
                }
            }
            Word::Open => depth += 1,
            Word::Close => {
                if depth == 0 {
                    return Ok(pvs);
                }
                depth -= 1;
            }
            _ => {}
        }
        rest = after;
    }
    Ok(pvs)
}

/// The logical volumes of a section.
#[tactic(auto, unfolding(crate::specs::Group::each_at))]
fn lvs(alloc: Global, words: &[Word]) -> Result<Lvs, TextFault>
    ensures { Tells (λ lvs. lvs) result (each_at lv_at 0 words.now) }
{
    let mut lvs = Lvs::new(alloc);
    let mut depth = 0usize;
    let mut rest = words;
    while let Some((word, after)) = rest.split_first() {
        match word {
            Word::Name(name) => {
                if depth == 0
                    && let Some(body) = opened(after)
                {
                    lvs.push(lv(alloc, name, body)?)?;
                }
            }
            Word::Open => depth += 1,
            Word::Close => {
                if depth == 0 {
                    return Ok(lvs);
                }
                depth -= 1;
            }
            _ => {}
        }
        rest = after;
    }
    Ok(lvs)
}

/// The logical volumes of a section that may be absent.
fn lvs_of(alloc: Global, words: Option<&[Word]>) -> Result<Lvs, TextFault>
    ensures { Tells (λ lvs. lvs) result (lvs_in (option_map (λ words. words.now) words.entry)) }
{
    match words {
        Some(words) => lvs(alloc, words),
        None => Ok(Lvs::new(alloc)),
    }
}

/// The group of a section.
#[tactic(auto, unfolding(crate::specs::Group::group_at))]
fn group(alloc: Global, name: &Name, words: &[Word]) -> Result<Group, TextFault>
    ensures { Tells (λ group. group) result (group_at name.now words.now) }
{
    let id = text(alloc, words, Key::Id)?;
    let seqno = number(words, Key::Seqno)?;
    let extent_size = number(words, Key::ExtentSize)?;
    let volumes = needed(words, Key::PhysicalVolumes)?;
    let pvs = pvs(alloc, volumes)?;
    let lvs = lvs_of(alloc, lv_words(words))?;
    Ok(Group {
        name: Name::of(alloc, name.bytes())?,
        id,
        seqno,
        extent_size,
        pvs,
        lvs,
    })
}

/// The group that the words of a text tell: its first section.
#[tactic(auto, unfolding(crate::specs::Group::group_in))]
fn first_group(alloc: Global, words: &[Word]) -> Result<Group, TextFault>
    ensures { Tells (λ group. group) result (group_in words.now) }
{
    let mut rest = words;
    while let Some((word, after)) = rest.split_first() {
        match word {
            Word::Name(name) => {
                if let Some(body) = opened(after) {
                    return group(alloc, name, body);
                }
            }
            _ => {}
        }
        rest = after;
    }
    Err(TextFault::Missing { key: Key::Id })
}

/// The volume group that a text tells. Of the faults the first counts, what the grammar refuses
/// before the others.
pub fn parse(alloc: Global, text: &[u8]) -> Result<Group, TextFault>
    ensures { Tells (λ group. group) result (group_of text.now) }
{
    match reader::words(alloc, text) {
        Ok(words) => first_group(alloc, words.as_slice()),
        Err(Stop::Left(left)) => Err(TextFault::Syntax {
            at: text.len().saturating_sub(left) as u64,
        }),
        Err(Stop::Memory) => Err(TextFault::Memory),
    }
}
