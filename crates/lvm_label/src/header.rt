//! The header of a metadata area.

ghost use Rattle.lvm_label.specs.Fields.{padded};
ghost use Rattle.lvm_label.specs.Header.{
  HasRealLocations,
  HaveHeadersDecoded,
  are_header_fields,
  header_body,
  header_bytes,
  header_of,
  location_at,
  location_bytes,
  locations_at,
};
ghost use Rattle.std.specs.List.{flat_map};
ghost use Rattle.std.specs.Prelude.{
  ◌*◌,
  ◌+◌,
  ◌++◌,
  ◌≡◌,
  ◌≤◌,
  List,
  length,
  option_map,
  ℕ,
};

use crate::LabelFault;
use crate::fields::{from, put, u32_at, u64_at};
use arrayvec::ArrayVec;
use byteorder::{ByteOrder, LittleEndian};
use shr_base::lvm_crc;

/// What a header has behind its CRC.
const HEADER_MAGIC: [u8; 16] = *b" LVM2 x[5A%r0N*>";

/// The version of the text format.
const HEADER_VERSION: u32 = 1;

/// Where a text stands in its metadata area.
#[derive(Clone, Copy, Debug, Default, PartialEq, Eq)]
pub struct Location {
    /// The first byte, from the start of the area; bytes past the area's end go on at its byte 512.
    pub offset: u64,
    /// How many bytes the text has, with its closing zero byte.
    pub size: u64,
    /// The CRC of these bytes.
    pub crc: u32,
    /// Flags, of which bit 0 says that the text doesn't count.
    pub flags: u32,
}

/// The fields of a metadata area's header.
#[derive(Debug, PartialEq, Drop)]
pub struct Header {
    /// The area's first byte, from the start of the physical volume.
    pub start: u64,
    /// The bytes of the area.
    pub size: u64,
    /// Where texts stand, the current one first.
    pub locations: ArrayVec<Location, 4>,
}

/// The header in the first sector of a metadata area. It is never `NoLabel`.
#[tactic(auto, unfolding(crate::specs::Header::header_of))]
pub fn decode_header(sector: &[u8; 512]) -> Result<Header, LabelFault>
    ensures { result ≡ header_of sector.now }
{
    if u32_at(sector, 0) != lvm_crc(from(sector, 4)) {
        return Err(LabelFault::BadCrc);
    }
    if !from(sector, 4).starts_with(&HEADER_MAGIC) || u32_at(sector, 20) != HEADER_VERSION {
        return Err(LabelFault::BadHeader);
    }
    let Some(locations) = locations_of(from(sector, 40)) else {
        return Err(LabelFault::BadHeader);
    };
    Ok(Header {
        start: u64_at(sector, 24),
        size: u64_at(sector, 32),
        locations,
    })
}

/// The locations up to one whose offset is 0.
fn locations_of(bytes: &[u8]) -> Option<ArrayVec<Location, 4>>
    requires { length bytes.now ≡ 472 }
    ensures { option_map (λ found. found.items) result ≡ locations_at 4 bytes.now }
{
    let mut locations = ArrayVec::new();
    let mut rest = bytes;
    while u64_at(rest, 0) != 0 {
        if locations.is_full() {
            return None;
        }
        locations.push(location_of(rest));
        rest = from(rest, 24);
    }
    Some(locations)
}

/// The location that the bytes begin with.
fn location_of(bytes: &[u8]) -> Location
    requires { 24 ≤ length bytes.now }
    ensures { result ≡ location_at bytes.now }
{
    Location {
        offset: u64_at(bytes, 0),
        size: u64_at(bytes, 8),
        crc: u32_at(bytes, 16),
        flags: u32_at(bytes, 20),
    }
}

/// The sector with the header.
pub fn encode_header(header: &Header) -> [u8; 512]
    requires { HasRealLocations header.now }
    ensures { result ≡ header_bytes header.now }
{
    let body = body_of(header);
    let mut sector = [0u8; 512];
    let at = put(&mut sector, 0, &lvm_crc(&body).to_le_bytes());
    put(&mut sector, at, &body);
    sector
}

/// What the CRC of a header is taken over.
fn body_of(header: &Header) -> [u8; 508]
    ensures { result ≡ header_body header.now }
{
    let mut body = [0u8; 508];
    let at = put(&mut body, 0, &HEADER_MAGIC);
    let at = put(&mut body, at, &HEADER_VERSION.to_le_bytes());
    let at = put(&mut body, at, &header.start.to_le_bytes());
    let at = put(&mut body, at, &header.size.to_le_bytes());
    put_locations(&mut body, at, header.locations.as_slice());
    body
}

/// Writes locations at `at`, one behind the other.
fn put_locations(body: &mut [u8; 508], at: usize, locations: &[Location])
    requires few { length locations.now ≤ 4 }
    requires room { at + 24 * length locations.now ≤ 508 }
    ensures { (text : List ℕ) → length text ≡ at → body.old ≡ padded 508 text → body.new ≡ padded 508 (text ++ flat_map location_bytes locations.now) }
{
    let mut end = at;
    for location in locations {
        end = put(body, end, &bytes_of(location));
    }
}

/// A location as a header has it.
#[tactic(auto, unfolding(crate::specs::Header::location_bytes))]
fn bytes_of(location: &Location) -> [u8; 24]
    ensures { result ≡ location_bytes location.now }
{
    let mut bytes = [0u8; 24];
    LittleEndian::write_u64(&mut bytes[..8], location.offset);
    LittleEndian::write_u64(&mut bytes[8..16], location.size);
    LittleEndian::write_u32(&mut bytes[16..20], location.crc);
    LittleEndian::write_u32(&mut bytes[20..24], location.flags);
    bytes
}

/// What [`encode_header`] writes, [`decode_header`] reads.
pub fn encoded_headers_decode()
    ensures { HaveHeadersDecoded }
{}
