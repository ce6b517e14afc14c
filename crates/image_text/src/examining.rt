//! The text of an image, place by place.

ghost use Rattle.std.specs.Prelude.{◌≡◌, ◌+◌, ◌-◌, ◌≤◌, ◌<◌, ◌++◌, [], ◌∷◌, All, true, length, IfOk, ◌≢◌, Err, Option, Some, None};
ghost use Rattle.shr_script.specs.Reply.{as_line};
ghost use Rattle.gpt_table.specs.Format.{is_inside};
ghost use Rattle.gpt_table.specs.Disk.{first_table};
ghost use Rattle.image_text.specs.Reading.{Gives};
ghost use Rattle.image_text.specs.Putting.{Says, Shows};
ghost use Rattle.image_text.specs.Volume.{volume_at};
ghost use Rattle.image_text.specs.Lines.{image_lines, place_lines, data_lines, slices_lines, slice_line, image_line, table_words, entries_in, superblock_at, data_start as start_in, md_words, volume_lines, count_of};

use crate::Stop;
use crate::bytes::{Unread, read_pair};
use crate::putting::{put_line, put_volume};
use crate::texts::{image_text, md_text, slice_text, table_text};
use crate::volume::read_volume;
use gpt_table::{Entry, Seen, TableFault, read_table};
use io_ends::Sink;
use md_super::{Super, SuperFault, decode};
use rack::{Bay, Rack};
use shr_base::fields::put_bytes;
use shr_script::ReplyText;
use std::alloc::Global;

/// The fewest sectors of a place that holds a superblock.
const SUPERBLOCK_END: u64 = 10;

/// Puts the lines of the image that a disk holds.
pub fn examine<B: Bay, O: Sink>(
    alloc: Global,
    bay: &mut B,
    disk: u32,
    out: &mut O,
) -> Result<(), Stop>
    requires { disk < (B.seen bay.old).disks }
    ensures { Shows (B.seen bay.old) (B.seen bay.new) disk (O.faults out.old) (O.faults out.new) (O.told out.old) (O.told out.new) (O.taken out.old) (O.taken out.new)
        (image_lines ((B.seen bay.old).sectors disk)) result }
{
    let sectors = bay.sectors(disk);
    match put_size(sectors, out) {
        Ok(()) => {}
        Err(stop) => return Err(stop),
    }
    let found = match find_table(bay, disk) {
        Ok(found) => found,
        Err(_) => return Err(Stop::Gone),
    };
    examine_all(alloc, bay, disk, sectors, &found, out)
}

// `image N`
fn put_size<O: Sink>(sectors: u64, out: &mut O) -> Result<(), Stop>
    ensures { Says (O.faults out.old) (O.faults out.new) (O.told out.old) (O.told out.new) (O.taken out.old) (O.taken out.new) (image_line sectors ∷ []) result }
{
    let mut text = ReplyText::new();
    image_text(&mut text, sectors);
    put_line(&text, out)
}

// The table of a disk, if it has one.
fn find_table<B: Bay>(bay: &mut B, disk: u32) -> Result<Option<Seen>, Unread>
    requires { disk < (B.seen bay.old).disks }
    ensures gives { Gives (B.seen bay.old) (B.seen bay.new) disk (λ image found. found ≡ first_table ((B.seen bay.old).sectors disk) image) result }
    ensures inside { IfOk result (λ found. All (λ entry. is_inside ((B.seen bay.old).sectors disk) entry.slice ≡ true) (entries_in found)) }
    ensures cause { result ≢ Err Unread.Memory }
{
    match read_table(bay, disk) {
        Ok(found) => Ok(Some(found)),
        Err(TableFault::NoTable) => Ok(None),
        Err(TableFault::Gone) => Err(Unread::Gone),
    }
}

// Puts the lines behind the first one.
fn examine_all<B: Bay, O: Sink>(
    alloc: Global,
    bay: &mut B,
    disk: u32,
    sectors: u64,
    found: &Option<Seen>,
    out: &mut O,
) -> Result<(), Stop>
    requires disk { disk < (B.seen bay.old).disks }
    requires size { sectors ≡ (B.seen bay.old).sectors disk }
    requires inside { All (λ entry. is_inside sectors entry.slice ≡ true) (entries_in found.now) }
    ensures { Shows (B.seen bay.old) (B.seen bay.new) disk (O.faults out.old) (O.faults out.new) (O.told out.old) (O.told out.new) (O.taken out.old) (O.taken out.new)
        (λ image. (as_line (table_words found.now) ∷ place_lines image 0 sectors) ++ slices_lines image (entries_in found.now)) result }
{
    match put_table(found, out) {
        Ok(()) => {}
        Err(stop) => return Err(stop),
    }
    match examine_place(alloc, bay, disk, 0, sectors, out) {
        Ok(()) => {}
        Err(stop) => return Err(stop),
    }
    match found {
        None => Ok(()),
        Some(seen) => examine_slices(
            alloc,
            bay,
            disk,
            sectors,
            seen.table.entries.as_slice(),
            out,
        ),
    }
}

// Which copy of a table is the first valid one.
fn put_table<O: Sink>(found: &Option<Seen>, out: &mut O) -> Result<(), Stop>
    ensures { Says (O.faults out.old) (O.faults out.new) (O.told out.old) (O.told out.new) (O.taken out.old) (O.taken out.new) (as_line (table_words found.now) ∷ []) result }
{
    let mut text = ReplyText::new();
    table_text(&mut text, found);
    put_line(&text, out)
}

// Puts the lines of each entry in order.
fn examine_slices<B: Bay, O: Sink>(
    alloc: Global,
    bay: &mut B,
    disk: u32,
    sectors: u64,
    entries: &[Entry],
    out: &mut O,
) -> Result<(), Stop>
    requires disk { disk < (B.seen bay.old).disks }
    requires size { sectors ≡ (B.seen bay.old).sectors disk }
    requires inside { All (λ entry. is_inside sectors entry.slice ≡ true) entries.now }
    ensures { Shows (B.seen bay.old) (B.seen bay.new) disk (O.faults out.old) (O.faults out.new) (O.told out.old) (O.told out.new) (O.taken out.old) (O.taken out.new)
        (λ image. slices_lines image entries.now) result }
{
    let Some((entry, others)) = entries.split_first() else {
        return Ok(());
    };
    match examine_slice(alloc, bay, disk, entry, out) {
        Ok(()) => {}
        Err(stop) => return Err(stop),
    }
    examine_slices(alloc, bay, disk, sectors, others, out)
}

// Puts the lines of one entry.
fn examine_slice<B: Bay, O: Sink>(
    alloc: Global,
    bay: &mut B,
    disk: u32,
    entry: &Entry,
    out: &mut O,
) -> Result<(), Stop>
    requires disk { disk < (B.seen bay.old).disks }
    requires inside { is_inside ((B.seen bay.old).sectors disk) entry.now.slice ≡ true }
    ensures { Shows (B.seen bay.old) (B.seen bay.new) disk (O.faults out.old) (O.faults out.new) (O.told out.old) (O.told out.new) (O.taken out.old) (O.taken out.new)
        (λ image. slice_line entry.now ∷ place_lines image entry.now.slice.first (count_of entry.now)) result }
{
    let mut text = ReplyText::new();
    slice_text(&mut text, entry);
    match put_line(&text, out) {
        Ok(()) => {}
        Err(stop) => return Err(stop),
    }
    let count = entry.slice.last - entry.slice.first + 1;
    examine_place(alloc, bay, disk, entry.slice.first, count, out)
}

// Puts the lines of a place of so many sectors.
fn examine_place<B: Bay, O: Sink>(
    alloc: Global,
    bay: &mut B,
    disk: u32,
    first: u64,
    count: u64,
    out: &mut O,
) -> Result<(), Stop>
    requires disk { disk < (B.seen bay.old).disks }
    requires inside { first + count ≤ (B.seen bay.old).sectors disk }
    ensures { Shows (B.seen bay.old) (B.seen bay.new) disk (O.faults out.old) (O.faults out.new) (O.told out.old) (O.told out.new) (O.taken out.old) (O.taken out.new)
        (λ image. place_lines image first count) result }
{
    let found = match read_superblock(bay, disk, first, count) {
        Ok(found) => found,
        Err(_) => return Err(Stop::Gone),
    };
    match put_superblock(&found, out) {
        Ok(()) => {}
        Err(stop) => return Err(stop),
    }
    match data_start(&found) {
        None => Ok(()),
        Some(start) => examine_volume(alloc, bay, disk, first, count, start, out),
    }
}

// The superblock that a place holds.
fn read_superblock<B: Bay>(
    bay: &mut B,
    disk: u32,
    first: u64,
    count: u64,
) -> Result<Result<Super, SuperFault>, Unread>
    requires disk { disk < (B.seen bay.old).disks }
    requires inside { first + count ≤ (B.seen bay.old).sectors disk }
    ensures gives { Gives (B.seen bay.old) (B.seen bay.new) disk (λ image found. found ≡ superblock_at image first count) result }
    ensures cause { result ≢ Err Unread.Memory }
{
    if count < SUPERBLOCK_END {
        return Ok(Err(SuperFault::NotMd));
    }
    let mut low = [0; 512];
    let mut high = [0; 512];
    match read_pair(bay, disk, first + 8, &mut low, &mut high) {
        Ok(()) => Ok(decode(&joined(&low, &high))),
        Err(why) => Err(why),
    }
}

// Two sectors, one behind the other.
fn joined(low: &[u8; 512], high: &[u8; 512]) -> [u8; 1024]
    ensures { result ≡ low.now ++ high.now }
{
    let mut block = [0; 1024];
    put_bytes(&mut block, 0, low);
    put_bytes(&mut block, 512, high);
    block
}

// The superblock of a place, or why it has none.
fn put_superblock<O: Sink>(found: &Result<Super, SuperFault>, out: &mut O) -> Result<(), Stop>
    ensures { Says (O.faults out.old) (O.faults out.new) (O.told out.old) (O.told out.new) (O.taken out.old) (O.taken out.new) (as_line (md_words found.now) ∷ []) result }
{
    let mut text = ReplyText::new();
    md_text(&mut text, found);
    put_line(&text, out)
}

// The sector of a place from which LVM is looked for, where it is.
fn data_start(found: &Result<Super, SuperFault>) -> Option<u64>
    ensures { result ≡ start_in found.now }
{
    match found {
        Ok(seen) => {
            if seen.level == 1 {
                Some(seen.data_offset)
            } else {
                None
            }
        }
        Err(SuperFault::NotMd) => Some(0),
        Err(_) => None,
    }
}

// Puts the LVM lines of a place.
fn examine_volume<B: Bay, O: Sink>(
    alloc: Global,
    bay: &mut B,
    disk: u32,
    first: u64,
    count: u64,
    start: u64,
    out: &mut O,
) -> Result<(), Stop>
    requires disk { disk < (B.seen bay.old).disks }
    requires inside { first + count ≤ (B.seen bay.old).sectors disk }
    ensures { Shows (B.seen bay.old) (B.seen bay.new) disk (O.faults out.old) (O.faults out.new) (O.told out.old) (O.told out.new) (O.taken out.old) (O.taken out.new)
        (λ image. volume_lines (volume_at image (first + start) (count - start))) result }
{
    let sectors = count.saturating_sub(start);
    match read_volume(alloc, bay, disk, first.saturating_add(start), sectors) {
        Ok(volume) => put_volume(alloc, &volume, out),
        Err(Unread::Gone) => Err(Stop::Gone),
        Err(Unread::Memory) => Err(Stop::Memory),
    }
}
