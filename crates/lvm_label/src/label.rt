//! The label.

ghost use Rattle.lvm_label.specs.Fields.{number_at, padded};
ghost use Rattle.lvm_label.specs.Label.{
  HasRealAreas,
  HaveLabelsDecoded,
  are_fixed_fields,
  area_at,
  area_bytes,
  area_list_bytes,
  areas_at,
  body_bytes,
  ends_list,
  fields_at,
  label_bytes,
  label_in,
  label_of,
};
ghost use Rattle.std.specs.Prelude.{
  ◌*◌,
  ◌+◌,
  ◌++◌,
  ◌≡◌,
  ◌≤◌,
  IsTrue,
  List,
  length,
  option_map,
  take,
  ℕ,
};

use crate::LabelFault;
use crate::fields::{from, put, u32_at, u64_at};
use arrayvec::ArrayVec;
use byteorder::{ByteOrder, LittleEndian};
use shr_base::lvm_crc;

/// What a label begins with.
const LABEL_WORD: [u8; 8] = *b"LABELONE";

/// The type of the labels of LVM2.
const LABEL_TYPE: [u8; 8] = *b"LVM2 001";

/// The sector that the writer puts the label in.
const LABEL_SECTOR: u64 = 1;

/// Where the writer's fields begin in the label's sector.
const FIELDS_OFFSET: u32 = 32;

/// A part of a physical volume, in bytes; a size of 0 means up to the end.
#[derive(Clone, Copy, Debug, Default, PartialEq, Eq)]
pub struct Area {
    /// The first byte, from the start of the physical volume.
    pub offset: u64,
    /// How many bytes it has.
    pub size: u64,
}

/// The fields of a label.
#[derive(Debug, PartialEq, Drop)]
pub struct Label {
    /// The physical volume's id, 32 characters.
    pub pv_id: [u8; 32],
    /// The bytes of the device.
    pub device_size: u64,
    /// Where data lies.
    pub areas: ArrayVec<Area, 8>,
    /// Where metadata lies.
    pub metadata: ArrayVec<Area, 8>,
}

/// The label in the first four sectors of a physical volume, that of the first sector that begins
/// with the label's word.
pub fn decode_label(sectors: &[[u8; 512]; 4]) -> Result<Label, LabelFault>
    ensures { result ≡ label_in 0 sectors.now }
{
    for (number, sector) in sectors.iter().enumerate() {
        if sector.starts_with(&LABEL_WORD) {
            return decode_at(number as u64, sector);
        }
    }
    Err(LabelFault::NoLabel)
}

/// The label in a sector that begins with the label's word.
#[tactic(auto, unfolding(crate::specs::Label::label_of))]
fn decode_at(number: u64, sector: &[u8]) -> Result<Label, LabelFault>
    requires { length sector.now ≡ 512 }
    ensures { result ≡ label_of number sector.now }
{
    if u32_at(sector, 16) != lvm_crc(from(sector, 20)) {
        return Err(LabelFault::BadCrc);
    }
    if !has_fixed_fields(number, sector) {
        return Err(LabelFault::BadHeader);
    }
    let offset = u32_at(sector, 20) as usize;
    fields_of(from(sector, offset)).ok_or(LabelFault::BadHeader)
}

/// Whether number, type and offset are those of a label in this sector.
fn has_fixed_fields(number: u64, sector: &[u8]) -> bool
    requires { length sector.now ≡ 512 }
    ensures same { result ≡ are_fixed_fields number sector.now }
    ensures within { IsTrue result → number_at 4 20 sector.now ≤ 448 }
{
    let offset = u32_at(sector, 20);
    u64_at(sector, 8) == number
        && from(sector, 24).starts_with(&LABEL_TYPE)
        && 32 <= offset
        && offset <= 448
}

/// The fields of a label from its id on.
#[tactic(auto, unfolding(crate::specs::Label::fields_at))]
fn fields_of(bytes: &[u8]) -> Option<Label>
    requires { 64 ≤ length bytes.now }
    ensures { result ≡ fields_at bytes.now }
{
    let (areas, rest) = areas_of(from(bytes, 40))?;
    let (metadata, _) = areas_of(rest)?;
    Some(Label {
        pv_id: id_of(bytes),
        device_size: u64_at(bytes, 32),
        areas,
        metadata,
    })
}

/// The 32 bytes at the front.
fn id_of(bytes: &[u8]) -> [u8; 32]
    requires { 32 ≤ length bytes.now }
    ensures { result ≡ take 32 bytes.now }
{
    let mut id = [0u8; 32];
    id.copy_from_slice(bytes.split_at(32).0);
    id
}

/// A list of areas, and the bytes behind it.
fn areas_of(bytes: &[u8]) -> Option<(ArrayVec<Area, 8>, &[u8])>
    ensures { option_map (λ found. (found.0.items, found.1.now)) result ≡ areas_at 8 bytes.now }
{
    let mut areas = ArrayVec::new();
    let mut rest = bytes;
    while rest.len() >= 16 {
        let area = area_of(rest);
        if is_end(&area) {
            return Some((areas, from(rest, 16)));
        }
        if areas.is_full() {
            return None;
        }
        areas.push(area);
        rest = from(rest, 16);
    }
    None
}

/// Whether it is the pair of zeros that ends a list.
fn is_end(area: &Area) -> bool
    ensures { result ≡ ends_list area.now }
{
    area.offset == 0 && area.size == 0
}

/// The area that the bytes begin with.
fn area_of(bytes: &[u8]) -> Area
    requires { 16 ≤ length bytes.now }
    ensures { result ≡ area_at bytes.now }
{
    Area {
        offset: u64_at(bytes, 0),
        size: u64_at(bytes, 8),
    }
}

/// The sector with the label, for sector 1.
pub fn encode_label(label: &Label) -> [u8; 512]
    requires { HasRealAreas label.now }
    ensures { result ≡ label_bytes label.now }
{
    let body = body_of(label);
    let mut sector = [0u8; 512];
    let at = put(&mut sector, 0, &LABEL_WORD);
    let at = put(&mut sector, at, &LABEL_SECTOR.to_le_bytes());
    let at = put(&mut sector, at, &lvm_crc(&body).to_le_bytes());
    put(&mut sector, at, &body);
    sector
}

/// What the CRC of a label is taken over.
fn body_of(label: &Label) -> [u8; 492]
    ensures { result ≡ body_bytes label.now }
{
    let mut body = [0u8; 492];
    let at = put(&mut body, 0, &FIELDS_OFFSET.to_le_bytes());
    let at = put(&mut body, at, &LABEL_TYPE);
    let at = put(&mut body, at, &label.pv_id);
    let at = put(&mut body, at, &label.device_size.to_le_bytes());
    let at = put_areas(&mut body, at, label.areas.as_slice());
    put_areas(&mut body, at, label.metadata.as_slice());
    body
}

/// Writes a list of areas at `at`, and answers where it ends.
fn put_areas(body: &mut [u8; 492], at: usize, areas: &[Area]) -> usize
    requires few { length areas.now ≤ 8 }
    requires room { at + 16 * length areas.now + 16 ≤ 492 }
    ensures end { result ≡ at + 16 * length areas.now + 16 }
    ensures appended { (text : List ℕ) → length text ≡ at → body.old ≡ padded 492 text → body.new ≡ padded 492 (text ++ area_list_bytes areas.now) }
{
    let mut end = at;
    for area in areas {
        end = put(body, end, &bytes_of(area));
    }
    put(body, end, &[0; 16])
}

/// An area as a label has it.
#[tactic(auto, unfolding(crate::specs::Label::area_bytes))]
fn bytes_of(area: &Area) -> [u8; 16]
    ensures { result ≡ area_bytes area.now }
{
    let mut bytes = [0u8; 16];
    LittleEndian::write_u64(&mut bytes[..8], area.offset);
    LittleEndian::write_u64(&mut bytes[8..16], area.size);
    bytes
}

/// What [`encode_label`] writes, [`decode_label`] reads in sector 1.
pub fn encoded_labels_decode()
    ensures { HaveLabelsDecoded }
{}
