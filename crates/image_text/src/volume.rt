//! The LVM metadata of a place.

ghost use Rattle.std.specs.Prelude.{◌≡◌, ◌+◌, ◌-◌, ◌*◌, ◌≤◌, ◌<◌, ◌^◌, [], ◌∷◌, IfOk, true};
ghost use Rattle.lvm_label.specs.Label.{label_in};
ghost use Rattle.lvm_label.specs.Header.{header_of};
ghost use Rattle.image_text.specs.Contents.{bytes_from};
ghost use Rattle.image_text.specs.Reading.{Gives};
ghost use Rattle.image_text.specs.Volume.{volume_at, four_sectors, area_at as area_in, text_at as text_in, text_bytes, area_size as area_size_of, has_text_inside as text_inside, front_count as front_of, checked as checked_text};

use crate::bytes::{Bytes, Unread, append_bytes, read_pair};
use lvm_label::{Area, Header, Label, LabelFault, Location, decode_header, decode_label};
use rack::{Bay, Rack};
use shr_base::lvm_crc;
use std::alloc::Global;

/// The most bytes of a text.
const MOST_TEXT: u64 = 1 << 20;

/// What LVM metadata a place holds.
#[derive(Debug, Drop)]
pub enum Volume {
    /// No label.
    Nothing,
    /// A label or a header whose sum isn't that of its bytes.
    BadCrc,
    /// A label or a header that isn't well formed.
    BadHeader,
    /// No metadata area, or none with a text.
    Empty,
    /// An area or a text that doesn't lie inside the place, or a text of more than 2^20 bytes.
    Outside,
    /// A text whose sum isn't that of its bytes.
    BadText,
    /// A text, as long as its location says.
    Text {
        /// Its bytes.
        bytes: Bytes,
    },
}

/// The metadata of so many sectors from this one on.
pub fn read_volume<B: Bay>(
    alloc: Global,
    bay: &mut B,
    disk: u32,
    base: u64,
    sectors: u64,
) -> Result<Volume, Unread>
    requires disk { disk < (B.seen bay.old).disks }
    requires inside { 4 ≤ sectors → base + sectors ≤ (B.seen bay.old).sectors disk }
    ensures { Gives (B.seen bay.old) (B.seen bay.new) disk (λ image volume. volume ≡ volume_at image base sectors) result }
{
    if sectors < 4 {
        return Ok(Volume::Nothing);
    }
    let label = match read_label(bay, disk, base) {
        Ok(label) => label,
        Err(why) => return Err(why),
    };
    match label {
        Ok(label) => match label.metadata.as_slice().split_first() {
            None => Ok(Volume::Empty),
            Some((area, _others)) => read_area(alloc, bay, disk, base, 512 * sectors, area),
        },
        Err(LabelFault::NoLabel) => Ok(Volume::Nothing),
        Err(LabelFault::BadCrc) => Ok(Volume::BadCrc),
        Err(LabelFault::BadHeader) => Ok(Volume::BadHeader),
    }
}

// The label in four sectors.
fn read_label<B: Bay>(
    bay: &mut B,
    disk: u32,
    base: u64,
) -> Result<Result<Label, LabelFault>, Unread>
    requires disk { disk < (B.seen bay.old).disks }
    requires inside { base + 4 ≤ (B.seen bay.old).sectors disk }
    ensures { Gives (B.seen bay.old) (B.seen bay.new) disk (λ image label. label ≡ label_in 0 (four_sectors image base)) result }
{
    let mut first = [0; 512];
    let mut second = [0; 512];
    match read_pair(bay, disk, base, &mut first, &mut second) {
        Ok(()) => {}
        Err(why) => return Err(why),
    }
    let mut third = [0; 512];
    let mut fourth = [0; 512];
    match read_pair(bay, disk, base + 2, &mut third, &mut fourth) {
        Ok(()) => {}
        Err(why) => return Err(why),
    }
    Ok(decode_label(&[first, second, third, fourth]))
}

// What the area leads to, in a place of so many bytes.
fn read_area<B: Bay>(
    alloc: Global,
    bay: &mut B,
    disk: u32,
    base: u64,
    bytes: u64,
    area: &Area,
) -> Result<Volume, Unread>
    requires disk { disk < (B.seen bay.old).disks }
    requires inside { 512 * base + bytes ≤ 512 * (B.seen bay.old).sectors disk }
    requires least { 2048 ≤ bytes }
    ensures { Gives (B.seen bay.old) (B.seen bay.new) disk (λ image volume. volume ≡ area_in image base bytes area.now) result }
{
    if area.offset > bytes - 512 {
        return Ok(Volume::Outside);
    }
    let header = match read_header(alloc, bay, disk, 512 * base + area.offset) {
        Ok(header) => header,
        Err(why) => return Err(why),
    };
    match header {
        Ok(header) => match header.locations.as_slice().split_first() {
            None => Ok(Volume::Empty),
            Some((place, _others)) => read_text(alloc, bay, disk, base, bytes, area, place),
        },
        Err(LabelFault::BadCrc) => Ok(Volume::BadCrc),
        Err(_) => Ok(Volume::BadHeader),
    }
}

// The header that begins at a byte of the image.
fn read_header<B: Bay>(
    alloc: Global,
    bay: &mut B,
    disk: u32,
    at: u64,
) -> Result<Result<Header, LabelFault>, Unread>
    requires disk { disk < (B.seen bay.old).disks }
    requires inside { at + 512 ≤ 512 * (B.seen bay.old).sectors disk }
    requires bounded { at < 2 ^ 62 }
    ensures { Gives (B.seen bay.old) (B.seen bay.new) disk (λ image header. header ≡ header_of (bytes_from image at 512)) result }
{
    let Ok(mut bytes) = Bytes::with_room(alloc, 512) else {
        return Err(Unread::Memory);
    };
    match append_bytes(alloc, bay, disk, at, 512, &mut bytes) {
        Ok(()) => {}
        Err(why) => return Err(why),
    }
    let mut sector = [0; 512];
    sector.copy_from_slice(bytes.as_slice());
    Ok(decode_header(&sector))
}

// What the location leads to.
fn read_text<B: Bay>(
    alloc: Global,
    bay: &mut B,
    disk: u32,
    base: u64,
    bytes: u64,
    area: &Area,
    place: &Location,
) -> Result<Volume, Unread>
    requires disk { disk < (B.seen bay.old).disks }
    requires inside { 512 * base + bytes ≤ 512 * (B.seen bay.old).sectors disk }
    requires offset { area.now.offset ≤ bytes }
    ensures { Gives (B.seen bay.old) (B.seen bay.new) disk (λ image volume. volume ≡ text_in image base bytes area.now place.now) result }
{
    let size = area_size(bytes, area);
    if !has_text_inside(bytes, size, area, place) {
        return Ok(Volume::Outside);
    }
    match read_parts(alloc, bay, disk, 512 * base + area.offset, size, place) {
        Ok(text) => Ok(checked(place.crc, text)),
        Err(why) => Err(why),
    }
}

// The bytes of an area of a place of so many bytes.
fn area_size(bytes: u64, area: &Area) -> u64
    requires { area.now.offset ≤ bytes }
    ensures { result ≡ area_size_of bytes area.now }
{
    if area.size == 0 {
        bytes - area.offset
    } else {
        area.size
    }
}

// Area and text lie inside the place, and the text isn't too long.
fn has_text_inside(bytes: u64, size: u64, area: &Area, place: &Location) -> bool
    requires { area.now.offset ≤ bytes }
    ensures { result ≡ text_inside bytes size area.now place.now }
{
    place.size <= MOST_TEXT
        && size <= bytes - area.offset
        && place.offset <= size
        && (place.size <= size - place.offset || 512 + (place.size - (size - place.offset)) <= size)
}

// The bytes of a text, in an area of so many bytes that begins at this byte of the image.
fn read_parts<B: Bay>(
    alloc: Global,
    bay: &mut B,
    disk: u32,
    start: u64,
    size: u64,
    place: &Location,
) -> Result<Bytes, Unread>
    requires disk { disk < (B.seen bay.old).disks }
    requires inside { start + size ≤ 512 * (B.seen bay.old).sectors disk }
    requires few { place.now.size ≤ 1048576 }
    requires offset { place.now.offset ≤ size }
    requires wraps { size - place.now.offset < place.now.size → 512 + (place.now.size - (size - place.now.offset)) ≤ size }
    ensures { Gives (B.seen bay.old) (B.seen bay.new) disk (λ image bytes. bytes ≡ text_bytes image start size place.now) result }
{
    let front = front_count(size, place);
    let Ok(mut bytes) = Bytes::with_room(alloc, place.size as usize) else {
        return Err(Unread::Memory);
    };
    match append_bytes(
        alloc,
        bay,
        disk,
        start + place.offset,
        front as usize,
        &mut bytes,
    ) {
        Ok(()) => {}
        Err(why) => return Err(why),
    }
    let back = (place.size - front) as usize;
    if back == 0 {
        return Ok(bytes);
    }
    match append_bytes(alloc, bay, disk, start + 512, back, &mut bytes) {
        Ok(()) => Ok(bytes),
        Err(why) => Err(why),
    }
}

// How much of a text stands before the area's end.
fn front_count(size: u64, place: &Location) -> u64
    requires { place.now.offset ≤ size }
    ensures is { result ≡ front_of size place.now }
    ensures within { result ≤ place.now.size }
    ensures inside { place.now.offset + result ≤ size }
{
    place.size.min(size - place.offset)
}

// A text whose sum is right.
fn checked(crc: u32, text: Bytes) -> Volume
    ensures { result ≡ checked_text crc text }
{
    if lvm_crc(text.as_slice()) == crc {
        Volume::Text { bytes: text }
    } else {
        Volume::BadText
    }
}
