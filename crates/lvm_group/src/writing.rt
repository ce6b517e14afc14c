//! Writing labels, headers and texts on the arrays.

ghost use Rattle.std.specs.Prelude.{◌≡◌, ◌<◌, ◌≤◌, ◌+◌, ◌*◌, ◌^◌, ◌++◌, ℕ, List, OnOk, length, slice_index};
ghost use Rattle.lvm_label.specs.Fields.{padded};
ghost use Rattle.lvm_label.specs.Header.{IsLocation, header_bytes};
ghost use Rattle.lvm_label.specs.Label.{IsLabel, label_bytes};
ghost use Rattle.rack.specs.Several.{Several};
ghost use Rattle.rack.specs.Targets.{target};
ghost use Rattle.lvm_group.specs.Sequences.{AreSingle};
ghost use Rattle.rack.specs.Moments.{Leaves};
ghost use Rattle.lvm_group.specs.Changing.{IsInTurn};
ghost use Rattle.lvm_group.specs.Writing.{
  AreStarts,
  Puts,
  blank_targets,
  first_targets,
  header_target,
  label_with,
  own_header,
  own_label,
  own_location,
  piece,
  place_at,
  start_at,
  targets_to,
  text_targets,
};
ghost use Rattle.std.specs.Prelude.{◌∷◌, []};

use crate::starts::{TextStart, start_at};
use crate::syncing::sync_first;
use arrayvec::ArrayVec;
use lvm_label::{Area, Header, Label, Location, encode_header, encode_label};
use rack::{Gone, Rack};
use shr_base::{Id, child_id, lvm_crc, lvm_id};

/// The byte of an array at which its metadata area begins, and the bytes of the area.
const AREA_START: u64 = 4096;

const AREA_SIZE: u64 = 1044480;

/// Writes a sector.
fn put<R: Rack>(rack: &mut R, array: u32, sector: u64, from: &[u8; 512]) -> Result<(), Gone>
    requires fit { (R.seen rack.old).fit }
    requires array { array < (R.seen rack.old).disks }
    requires sector { sector < (R.seen rack.old).sectors array }
    ensures puts { Puts (R.seen rack.old) (R.seen rack.new) (target array sector from.now ∷ []) result }
    ensures runs { R.runs rack.old rack.new }
    ensures several { Several R.once 1 rack.old rack.new }
{
    rack.write(array, sector, from)
}

/// Puts bytes behind a text that zeros follow.
fn put_bytes(buffer: &mut [u8], at: usize, bytes: &[u8])
    requires { at + length bytes.now ≤ length buffer.old }
    ensures { (size : ℕ) (text : List ℕ) → length buffer.old ≡ size → length text ≡ at → buffer.old ≡ padded size text
        → buffer.new ≡ padded size (text ++ bytes.now) }
{
    let end = at + bytes.len();
    buffer[at..end].copy_from_slice(bytes);
}

/// Bytes with zeros behind them.
#[tactic(auto, unfolding(lvm_label::specs::Fields::padded))]
fn filled(bytes: &[u8]) -> [u8; 512]
    requires { length bytes.now ≤ 512 }
    ensures { result ≡ padded 512 bytes.now }
{
    let mut sector = [0; 512];
    put_bytes(&mut sector, 0, bytes);
    sector
}

/// A sector of a text, the last one filled up with zeros.
#[tactic(auto, unfolding(crate::specs::Writing::piece))]
pub(crate) fn piece(text: &[u8], k: usize) -> [u8; 512]
    requires { 512 * k < length text.now }
    ensures { result ≡ piece text.now k }
{
    let (_, rest) = text.split_at(512 * k);
    match rest.split_at_checked(512) {
        Some((first, _)) => filled(first),
        None => filled(rest),
    }
}

/// The sector of an array that has a text's sector, where the text begins in a sector of the area.
fn place_at(first: u64, k: usize) -> u64
    requires { first + k < 2 ^ 32 }
    ensures { result ≡ place_at first k }
{
    let at = first + k as u64;
    if at < 2040 { 8 + at } else { 8 + (at - 2039) }
}

/// Writes a text on an array, from a sector of the metadata area on.
fn put_text<R: Rack>(rack: &mut R, array: u32, first: u64, text: &[u8]) -> Result<(), Gone>
    requires fit { (R.seen rack.old).fit }
    requires array { array < (R.seen rack.old).disks }
    requires sectors { 2048 ≤ (R.seen rack.old).sectors array }
    requires first { first < 2040 }
    requires short { length text.now ≤ 262144 }
    ensures puts { Puts (R.seen rack.old) (R.seen rack.new) (text_targets array first text.now) result }
    ensures runs { R.runs rack.old rack.new }
    ensures several { Several R.once 512 rack.old rack.new }
{
    let count = (text.len() + 511) / 512;
    for k in 0..count {
        if let Err(gone) = put(rack, array, place_at(first, k), &piece(text, k)) {
            return Err(gone);
        }
    }
    Ok(())
}

/// The sector of a label with this id, for an array of so many sectors.
fn label_with(pv_id: &[u8; 32], sectors: u64) -> [u8; 512]
    requires { sectors < 2 ^ 52 }
    ensures bytes { result ≡ label_bytes (label_with pv_id.now sectors) }
    ensures is_label { IsLabel (label_with pv_id.now sectors) }
{
    let mut areas = ArrayVec::new();
    areas.push(Area {
        offset: 1048576,
        size: 0,
    });
    let mut metadata = ArrayVec::new();
    metadata.push(Area {
        offset: AREA_START,
        size: AREA_SIZE,
    });
    encode_label(&Label {
        pv_id: *pv_id,
        device_size: 512 * sectors,
        areas,
        metadata,
    })
}

/// The sector of an array's label.
pub(crate) fn label_sector(pool: &Id, array: u32, sectors: u64) -> [u8; 512]
    requires { sectors < 2 ^ 52 }
    ensures bytes { result ≡ label_bytes (own_label pool.now.0 array sectors) }
    ensures is_label { IsLabel (own_label pool.now.0 array sectors) }
{
    label_with(&lvm_id(&child_id(pool, 6, array, 0)), sectors)
}

/// The sector of a header without a text.
fn empty_header() -> [u8; 512]
    ensures { result ≡ header_bytes (own_header []) }
{
    encode_header(&Header {
        start: AREA_START,
        size: AREA_SIZE,
        locations: ArrayVec::new(),
    })
}

/// The sector of a header with a text that begins at an offset of the area.
pub(crate) fn text_header(offset: u64, text: &[u8]) -> [u8; 512]
    requires { 0 < offset }
    ensures bytes { result ≡ header_bytes (own_header (own_location offset text.now ∷ [])) }
    ensures is_location { IsLocation (own_location offset text.now) }
{
    let mut locations = ArrayVec::new();
    locations.push(Location {
        offset,
        size: text.len() as u64,
        crc: lvm_crc(text),
        flags: 0,
    });
    encode_header(&Header {
        start: AREA_START,
        size: AREA_SIZE,
        locations,
    })
}

/// The labels of the first arrays, so many, have fields that fit: what is written of them is read again. This writes
/// nothing; it computes what the fields are.
pub(crate) fn own_labels_fit<R: Rack>(rack: &R, pool: &Id, arrays: u32)
    requires fit { (R.seen rack.now).fit }
    requires arrays { arrays ≤ (R.seen rack.now).disks }
    ensures { (array : ℕ) → array < arrays → IsLabel (own_label pool.now.0 array ((R.seen rack.now).sectors array)) }
{
    for array in 0..arrays {
        let _ = label_sector(pool, array, rack.sectors(array));
    }
}

/// So have those of arrays of these sizes.
pub(crate) fn labels_fit(pool: &Id, sizes: &[u64])
    requires few { length sizes.now ≤ 16 }
    requires small { (array : ℕ) → array < length sizes.now → slice_index sizes.now array < 2 ^ 52 }
    ensures { (array : ℕ) → array < length sizes.now → IsLabel (own_label pool.now.0 array (slice_index sizes.now array)) }
{
    for array in 0..sizes.len() as u32 {
        let _ = label_sector(pool, array, sizes[array as usize]);
    }
}

/// So have the locations of a text, at any offset.
pub(crate) fn own_locations_fit(text: &[u8])
    ensures { (offset : ℕ) → 0 < offset → offset < 2 ^ 64 → IsLocation (own_location offset text.now) }
{
    let _ = (text.len(), lvm_crc(text));
}

/// Writes an empty header, where there is none.
fn put_blank<R: Rack>(rack: &mut R, array: u32, blank: bool) -> Result<(), Gone>
    requires fit { (R.seen rack.old).fit }
    requires array { array < (R.seen rack.old).disks }
    requires sectors { 8 < (R.seen rack.old).sectors array }
    ensures puts { Puts (R.seen rack.old) (R.seen rack.new) (blank_targets array blank) result }
    ensures runs { R.runs rack.old rack.new }
    ensures several { Several R.once 1 rack.old rack.new }
{
    if !blank {
        return Ok(());
    }
    put(rack, array, 8, &empty_header())
}

/// Writes label, empty header and text on an array, in this order.
fn put_first<R: Rack>(
    rack: &mut R,
    pool: &Id,
    array: u32,
    starts: &[TextStart],
    text: &[u8],
) -> Result<(), Gone>
    requires fit { (R.seen rack.old).fit }
    requires array { array < (R.seen rack.old).disks }
    requires sectors { 2048 ≤ (R.seen rack.old).sectors array }
    requires starts { AreStarts starts.now }
    requires short { length text.now ≤ 262144 }
    ensures puts { Puts (R.seen rack.old) (R.seen rack.new) (first_targets pool.now.0 (R.seen rack.old).sectors starts.now text.now array) result }
    ensures is_label { OnOk result (IsLabel (own_label pool.now.0 array ((R.seen rack.old).sectors array))) }
    ensures runs { R.runs rack.old rack.new }
    ensures several { Several R.once 514 rack.old rack.new }
{
    let sectors = rack.sectors(array);
    let start = start_at(starts, array);
    if let Err(gone) = put(rack, array, 1, &label_sector(pool, array, sectors)) {
        return Err(gone);
    }
    if let Err(gone) = put_blank(rack, array, start.blank) {
        return Err(gone);
    }
    // Behind the text that the header has: a stop amid it leaves that one whole.
    put_text(rack, array, start.sector, text)
}

/// Does so on the first arrays, so many.
fn put_firsts<R: Rack>(
    rack: &mut R,
    pool: &Id,
    arrays: u32,
    starts: &[TextStart],
    text: &[u8],
) -> Result<(), Gone>
    requires fit { (R.seen rack.old).fit }
    requires arrays { arrays ≤ (R.seen rack.old).disks }
    requires sectors { (array : ℕ) → array < arrays → 2048 ≤ (R.seen rack.old).sectors array }
    requires starts { AreStarts starts.now }
    requires short { length text.now ≤ 262144 }
    ensures puts { Puts (R.seen rack.old) (R.seen rack.new) (targets_to (first_targets pool.now.0 (R.seen rack.old).sectors starts.now text.now) arrays) result }
    ensures labels { OnOk result ((array : ℕ) → array < arrays → IsLabel (own_label pool.now.0 array ((R.seen rack.old).sectors array))) }
    ensures runs { R.runs rack.old rack.new }
    ensures several { Several R.once (514 * arrays) rack.old rack.new }
{
    for array in 0..arrays {
        if let Err(gone) = put_first(rack, pool, array, starts, text) {
            return Err(gone);
        }
    }
    Ok(())
}

/// Writes the headers of a text on the first arrays, so many.
fn put_headers<R: Rack>(
    rack: &mut R,
    arrays: u32,
    starts: &[TextStart],
    text: &[u8],
) -> Result<(), Gone>
    requires fit { (R.seen rack.old).fit }
    requires arrays { arrays ≤ (R.seen rack.old).disks }
    requires sectors { (array : ℕ) → array < arrays → 2048 ≤ (R.seen rack.old).sectors array }
    requires starts { AreStarts starts.now }
    ensures puts { Puts (R.seen rack.old) (R.seen rack.new) (targets_to (header_target starts.now text.now) arrays) result }
    ensures locations { OnOk result ((array : ℕ) → array < arrays → IsLocation (own_location (512 * (start_at starts.now array).sector) text.now)) }
    ensures runs { R.runs rack.old rack.new }
    ensures several { Several R.once arrays rack.old rack.new }
{
    for array in 0..arrays {
        let start = start_at(starts, array);
        let header = text_header(512 * start.sector, text);
        if let Err(gone) = put(rack, array, 8, &header) {
            return Err(gone);
        }
    }
    Ok(())
}

/// Writes labels, headers and a new text on the first arrays, so many: the headers have the text once all else
/// is durable.
pub(crate) fn put_new<R: Rack>(
    rack: &mut R,
    pool: &Id,
    arrays: u32,
    starts: &[TextStart],
    text: &[u8],
) -> Result<(), Gone>
    requires fit { (R.seen rack.old).fit }
    requires arrays { arrays ≤ (R.seen rack.old).disks }
    requires sectors { (array : ℕ) → array < arrays → 2048 ≤ (R.seen rack.old).sectors array }
    requires starts { AreStarts starts.now }
    requires short { length text.now ≤ 262144 }
    ensures puts { Puts (R.seen rack.old) (R.seen rack.new) (targets_to (first_targets pool.now.0 (R.seen rack.old).sectors starts.now text.now) arrays
        ++ targets_to (header_target starts.now text.now) arrays) result }
    ensures stops { (R.seen rack.old).traced → Leaves (R.seen rack.old) (R.seen rack.new) (IsInTurn (R.seen rack.old) (R.seen rack.new)
        (targets_to (first_targets pool.now.0 (R.seen rack.old).sectors starts.now text.now) arrays) (targets_to (header_target starts.now text.now) arrays) arrays) }
    ensures labels { OnOk result ((array : ℕ) → array < arrays → IsLabel (own_label pool.now.0 array ((R.seen rack.old).sectors array))) }
    ensures locations { OnOk result ((array : ℕ) → array < arrays → IsLocation (own_location (512 * (start_at starts.now array).sector) text.now)) }
    ensures single { OnOk result (AreSingle (R.seen rack.old) (R.seen rack.new) arrays) }
    ensures runs { R.runs rack.old rack.new }
    ensures several { Several R.once (517 * arrays) rack.old rack.new }
{
    if let Err(gone) = put_firsts(rack, pool, arrays, starts, text) {
        return Err(gone);
    }
    // A stop before all are synced leaves headers with the text from before, or with none.
    if let Err(gone) = sync_first(rack, arrays) {
        return Err(gone);
    }
    // The text is durable on all arrays: a stop amid the headers leaves a group by the first that has it.
    if let Err(gone) = put_headers(rack, arrays, starts, text) {
        return Err(gone);
    }
    sync_first(rack, arrays)
}
