//! Tests of a volume over arrays: that it is made, extended and opened where there is memory, that its group is what LVM2's
//! formats say, that texts go round their area, and which array is bad.

ghost use Rattle.std.specs.Prelude.{◌≡◌, ◌+◌, ◌^◌, ◌<◌, IfOk};
ghost use Rattle.rack_mem.specs.MemBay.{memory};
ghost use Rattle.rack_mem.specs.Memory.{seen_of};
ghost use Rattle.lvm_group.specs.Shown.{volume_of};
ghost use Rattle.lvm_group.specs.Volume.{below_of, linear};

use crate::disks::{attach, bay, write};
use arrayvec::ArrayVec;
use lvm_group::{Volume, VolumeFault};
use lvm_label::{Header, Location, decode_header, decode_label, encode_header};
use lvm_text::parse;
use rack::Rack;
use rack_mem::{MemBay, Pick};
use shr_base::Id;
use std::alloc::Global;
use std::process::Abort;
use std::test::Fail;

// A volume of so many extents of each of three arrays, which have so many sectors.
fn created(
    rt: &impl Abort,
    alloc: Global,
    sectors: [u64; 3],
    numbers: [u64; 3],
) -> Result<Volume<MemBay>, Fail>
    ensures fit { IfOk result (λ volume. (volume_of (linear volume) (seen_of (memory (below_of volume)))).fit) }
    ensures sized { IfOk result (λ volume. (linear volume).extent ≡ 128) }
{
    let bay = bay(rt, alloc, &sectors, 500_000)?;
    let [first, second, third] = numbers;
    assert!(rt; first <= 512 && second <= 512 && third <= 512);
    assert!(rt; bay.disks() == 3);
    assert!(rt; 2048 + first * 128 <= bay.sectors(0));
    assert!(rt; 2048 + second * 128 <= bay.sectors(1));
    assert!(rt; 2048 + third * 128 <= bay.sectors(2));
    match Volume::create(alloc, bay, &Id([7; 16]), 128, &[first, second, third]) {
        Ok(volume) => Ok(volume),
        Err(_) => panic!(rt; "no volume"),
    }
}

// A volume of 20 extents of one array, 8 of another and 5 of a third.
fn three_runs(rt: &impl Abort, alloc: Global) -> Result<Volume<MemBay>, Fail>
    ensures fit { IfOk result (λ volume. (volume_of (linear volume) (seen_of (memory (below_of volume)))).fit) }
    ensures sized { IfOk result (λ volume. (linear volume).extent ≡ 128) }
{
    created(rt, alloc, [6656, 3328, 3328], [20, 8, 5])
}

// The bytes of so many sectors of a disk, from one on.
fn bytes_at(alloc: Global, bay: &MemBay, disk: u32, first: u64, count: u64) -> Result<Vec<u8>, Fail>
    requires { first + count < 2 ^ 32 }
{
    let mut bytes = Vec::new(alloc);
    for at in first..first + count {
        bytes.extend_from_slice(&bay.sector_now(disk, at))?;
    }
    Ok(bytes)
}

// The text that the header of an array names.
fn text_on(rt: &impl Abort, alloc: Global, bay: &MemBay, disk: u32) -> Result<Vec<u8>, Fail> {
    let header = decode_header(&bay.sector_now(disk, 8))
        .ok()
        .ok_or("a header")?;
    let text = header
        .locations
        .as_slice()
        .first()
        .copied()
        .ok_or("a text")?;
    let mut bytes = bytes_at(alloc, bay, disk, 9, 6)?;
    bytes.truncate(text.size as usize);
    let found = (header.locations.len(), text.offset, bytes.len());
    assert_eq!(rt; found, (1, 512, text.size as usize));
    Ok(bytes)
}

#[test]
fn a_made_group_is_read(rt: HostRuntime) -> Result<(), Fail> {
    let volume = three_runs(&rt, rt.alloc())?;
    let fits = [
        volume.fits(&[20, 8, 5]),
        volume.fits(&[30, 10, 5, 2]),
        volume.fits(&[20, 7, 5]),
    ];
    assert_eq!(rt; (volume.extents(), fits), (33, [true, true, false]));
    let bay = volume.into_inner();
    let sectors = [
        bay.sector_now(1, 0),
        bay.sector_now(1, 1),
        bay.sector_now(1, 2),
        bay.sector_now(1, 3),
    ];
    let label = decode_label(&sectors).ok().ok_or("a label")?;
    assert_eq!(rt; label.device_size, 3328 * 512);
    let text = text_on(&rt, rt.alloc(), &bay, 1)?;
    let group = parse(rt.alloc(), text.as_slice()).ok().ok_or("a group")?;
    let (arrays, volumes) = (group.pvs.as_slice(), group.lvs.as_slice());
    assert_eq!(rt; (group.seqno, arrays.len(), volumes.len()), (1, 3, 1));
    assert!(rt; arrays.len() == 3 && arrays[1].name.bytes() == b"pv1".as_slice());
    Ok(())
}

// Extends the volume to these numbers of extents of its arrays.
fn extend_to(rt: &impl Abort, volume: &mut Volume<MemBay>, numbers: [u64; 3])
    requires fit { (volume_of (linear volume.old) (seen_of (memory (below_of volume.old)))).fit }
    requires sized { (linear volume.old).extent ≡ 128 }
    ensures fit { (volume_of (linear volume.new) (seen_of (memory (below_of volume.new)))).fit }
    ensures sized { (linear volume.new).extent ≡ 128 }
{
    let [first, second, third] = numbers;
    assert!(rt; volume.below().disks() == 3);
    assert!(rt; first <= 512 && 2048 + first * 128 <= volume.below().sectors(0));
    assert!(rt; second <= 512 && 2048 + second * 128 <= volume.below().sectors(1));
    assert!(rt; third <= 512 && 2048 + third * 128 <= volume.below().sectors(2));
    let numbers = [first, second, third];
    assert!(rt; volume.fits(&numbers));
    assert_eq!(rt; volume.extend(&numbers), Ok(()));
}

// The extents of the volume that three arrays keep, or why there is none.
fn extents_in(rt: &impl Abort, alloc: Global, bay: MemBay) -> Result<u64, VolumeFault> {
    assert!(rt; bay.disks() == 3);
    match Volume::open(alloc, bay, &Id([7; 16]), 128, 3) {
        Ok(volume) => Ok(volume.extents()),
        Err(back) => Err(back.why),
    }
}

#[test]
fn an_extended_group_is_opened(rt: HostRuntime) -> Result<(), Fail> {
    let mut volume = three_runs(&rt, rt.alloc())?;
    for numbers in [
        [22, 8, 5],
        [22, 10, 5],
        [22, 10, 7],
        [30, 10, 7],
        [36, 10, 10],
    ] {
        extend_to(&rt, &mut volume, numbers);
    }
    let extents = volume.extents();
    let opened = extents_in(&rt, rt.alloc(), volume.into_inner());
    assert_eq!(rt; (extents, opened), (56, Ok(56)));
    Ok(())
}

#[test]
fn a_stop_in_an_extension_leaves_the_old_volume_or_the_new_one(
    rt: HostRuntime,
) -> Result<(), Fail> {
    let mut volume = three_runs(&rt, rt.alloc())?;
    extend_to(&rt, &mut volume, [30, 8, 5]);
    let start = volume.below().calls();
    extend_to(&rt, &mut volume, [36, 10, 5]);
    let bay = volume.into_inner();
    let mut last = Ok(0);
    for moment in start..bay.calls() + 1 {
        for pick in [Pick::Oldest, Pick::Newest, Pick::Seeded { seed: moment }] {
            assert!(rt; moment <= bay.calls());
            let mut image = bay.image_at(rt.alloc(), moment, pick)?;
            attach(&rt, &mut image, 3);
            last = extents_in(&rt, rt.alloc(), image);
            assert!(rt; last == Ok(43) || last == Ok(51), "at {moment}");
        }
    }
    assert_eq!(rt; last, Ok(51));
    Ok(())
}

// The sector of a header with the text at this offset.
fn header_sector(offset: u64) -> [u8; 512]
    requires { 0 < offset }
{
    let mut locations = ArrayVec::new();
    locations.push(Location {
        offset,
        size: 1022,
        crc: 0x7c30904b,
        flags: 0,
    });
    encode_header(&Header {
        start: 4096,
        size: 2048,
        locations,
    })
}

// What opening a group answers whose arrays were extended once, with one sector of an array replaced.
fn answer(
    rt: &impl Abort,
    alloc: Global,
    disk: u32,
    sector: u64,
    bytes: &[u8; 512],
) -> Result<Result<u64, VolumeFault>, Fail> {
    let mut volume = three_runs(rt, alloc)?;
    extend_to(rt, &mut volume, [30, 10, 5]);
    let mut bay = volume.into_inner();
    assert_eq!(rt; write(rt, &mut bay, disk, sector, bytes), Ok(()));
    Ok(extents_in(rt, alloc, bay))
}

#[test]
fn what_array_is_bad(rt: HostRuntime) -> Result<(), Fail> {
    let zeros = [0; 512];
    let old = three_runs(&rt, rt.alloc())?.below().sector_now(1, 8);
    let outside = header_sector(1 << 20);
    let torn = header_sector(512);
    let bad = |array| Err(VolumeFault::BadVolume { array });
    let rows = [
        // an array with an older text, and a sector that no text has any longer
        (1, 8, old, Ok(45)),
        (0, 9, zeros, Ok(45)),
        // no header, a location outside, a torn text, no label
        (1, 8, zeros, bad(1)),
        (1, 8, outside, bad(1)),
        (0, 8, torn, bad(0)),
        (0, 1, zeros, bad(0)),
    ];
    for (disk, sector, bytes, wanted) in rows {
        let opened = answer(&rt, rt.alloc(), disk, sector, &bytes)?;
        assert_eq!(rt; opened, wanted, "{sector} of {disk}");
    }
    Ok(())
}

// The texts of these extensions go round their area many times.
#[test]
fn no_more_segments_than_a_text_has(rt: HostRuntime) -> Result<(), Fail> {
    let mut volume = created(&rt, rt.alloc(), [45824; 3], [1; 3])?;
    for extents in 2..342 {
        extend_to(&rt, &mut volume, [extents; 3]);
    }
    extend_to(&rt, &mut volume, [342, 341, 341]);
    let fits = [volume.fits(&[342, 341, 341]), volume.fits(&[342, 342, 341])];
    let extents = volume.extents();
    let opened = extents_in(&rt, rt.alloc(), volume.into_inner());
    assert_eq!(rt; (extents, fits, opened), (1024, [true, false], Ok(1024)));
    Ok(())
}
