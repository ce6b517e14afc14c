//! Tests over disks in memory, on bytes that other tools wrote.

mod vectors;

use image_text::{Stop, examine};
use io_ends::MemSink;
use rack::{Bay, Name, Rack};
use rack_mem::{DiskSpec, MemBay};
use std::alloc::Global;
use std::process::Abort;
use std::test::Fail;
use vectors::{BACKUP_HEADER, HEADER, LABEL, MIRROR, RAID5, TABLE_ENTRIES, TABLE_HEADER, TEXT};

// The sectors of the disk that sgdisk wrote a table on.
const SECTORS: u64 = 98304;

// The lines of an image without a table, a superblock and a label.
const NOTHING: &str = "table none\nmd none\nlvm none\n";

// A bay with one disk of so many sectors of zeros, on which these calls fail.
fn bay_of(rt: &impl Abort, alloc: Global, sectors: u64, failing: Vec<u64>) -> Result<MemBay, Fail> {
    let mut shelf = Vec::new(alloc);
    let name = Name::of(alloc, b"A")?;
    shelf.push(DiskSpec { name, sectors })?;
    assert!(rt; shelf.len() == 1 && shelf.iter().all(|disk| disk.sectors <= SECTORS));
    let mut bay = MemBay::new(alloc, shelf, failing, 10000)?;
    assert_eq!(rt; bay.attach("A"), Ok(0));
    Ok(bay)
}

// Lays bytes on the disk, from a sector on.
fn lay(rt: &impl Abort, bay: &mut MemBay, first: u64, bytes: &[u8]) -> Result<(), Fail> {
    let mut at = first;
    for piece in bytes.chunks(512) {
        let mut sector = [0; 512];
        assert!(rt; piece.len() <= 512 && bay.disks() == 1 && at < bay.sectors(0));
        sector[..piece.len()].copy_from_slice(piece);
        assert_eq!(rt; bay.write(0, at, &sector), Ok(()));
        at += 1;
    }
    Ok(())
}

// Lays a physical volume of lvm2 on the disk, its data from this sector on.
fn lay_volume(rt: &impl Abort, bay: &mut MemBay, start: u64, text: &[u8]) -> Result<(), Fail> {
    assert!(rt; start < SECTORS);
    lay(rt, bay, start + 1, &LABEL)?;
    lay(rt, bay, start + 8, &HEADER)?;
    lay(rt, bay, start + 11, text)
}

// What is put of the disk, to a sink of which a call may fail, and how it ended.
fn text_of(
    rt: &impl Abort,
    alloc: Global,
    bay: &mut MemBay,
    sink_fails_at: Option<u64>,
) -> Result<(Vec<u8>, Result<(), Stop>), Fail> {
    let mut out = MemSink::new(alloc, 1 << 16, sink_fails_at)?;
    assert!(rt; bay.disks() == 1);
    let ended = examine(alloc, bay, 0, &mut out);
    Ok((out.bytes().to_vec(alloc)?, ended))
}

// The disk has this text.
fn check(rt: &impl Abort, alloc: Global, bay: &mut MemBay, wanted: &str) -> Result<(), Fail> {
    let (put, ended) = text_of(rt, alloc, bay, None)?;
    assert_eq!(rt; (put.as_slice(), ended), (wanted.as_bytes(), Ok(())));
    Ok(())
}

#[test]
fn images_of_zeros(rt: HostRuntime) -> Result<(), Fail> {
    for sectors in [0, 1, 3, 9, 10, 66, 67, 4096] {
        let mut bay = bay_of(&rt, rt.alloc(), sectors, Vec::new(rt.alloc()))?;
        let wanted = format!(in rt.alloc(); "image {sectors}\n{NOTHING}")?;
        check(&rt, rt.alloc(), &mut bay, wanted.as_str())?;
    }
    Ok(())
}

// A disk with the table of sgdisk: a member of a mirror of mdadm with a physical volume of lvm2 in its first slice,
// and a member of a RAID-5 in its second.
fn disk_of_tools(rt: &impl Abort, alloc: Global, text: &[u8]) -> Result<MemBay, Fail> {
    let mut bay = bay_of(rt, alloc, SECTORS, Vec::new(alloc))?;
    lay(rt, &mut bay, 1, &TABLE_HEADER)?;
    lay(rt, &mut bay, 2, &TABLE_ENTRIES)?;
    lay(rt, &mut bay, 2048 + 8, &MIRROR)?;
    lay_volume(rt, &mut bay, 2048 + 2048, text)?;
    lay(rt, &mut bay, 49152 + 8, &RAID5)?;
    Ok(bay)
}

const OF_IMAGE: &str = "md none\nlvm none\n";

const OF_MIRROR: &str = "slice 1 2048 47104\n\
    md level 1 members 2 chunk 0 size 45056 events 17 resync 18446744073709551615 role 0 features 0\n";

const OF_RAID5: &str = "slice 2 49152 49119\n\
    md level 5 members 3 chunk 128 size 45056 events 18 resync 18446744073709551615 role 1 features 0\n";

#[test]
fn what_sgdisk_mdadm_and_lvm2_wrote(rt: HostRuntime) -> Result<(), Fail> {
    let mut bay = disk_of_tools(&rt, rt.alloc(), TEXT.as_bytes())?;
    let wanted = format!(in rt.alloc();
        "image 98304\ntable primary\n{OF_IMAGE}{OF_MIRROR}text 1021\n{TEXT}\ngroup vga seqno 2 extent 2048 pvs 1 lvs 1\n{OF_RAID5}"
    )?;
    check(&rt, rt.alloc(), &mut bay, wanted.as_str())
}

#[test]
fn a_text_with_another_byte(rt: HostRuntime) -> Result<(), Fail> {
    let mut text = TEXT.as_bytes().to_vec(rt.alloc())?;
    text[3] = b'b';
    let mut bay = disk_of_tools(&rt, rt.alloc(), text.as_slice())?;
    let wanted = format!(in rt.alloc();
        "image 98304\ntable primary\n{OF_IMAGE}{OF_MIRROR}lvm bad-text\n{OF_RAID5}"
    )?;
    check(&rt, rt.alloc(), &mut bay, wanted.as_str())
}

#[test]
fn the_other_copy_of_a_table(rt: HostRuntime) -> Result<(), Fail> {
    let mut bay = bay_of(&rt, rt.alloc(), SECTORS, Vec::new(rt.alloc()))?;
    lay(&rt, &mut bay, SECTORS - 33, &TABLE_ENTRIES)?;
    lay(&rt, &mut bay, SECTORS - 1, &BACKUP_HEADER)?;
    check(
        &rt,
        rt.alloc(),
        &mut bay,
        "image 98304\ntable backup\nmd none\nlvm none\nslice 1 2048 47104\nmd none\nlvm none\n\
         slice 2 49152 49119\nmd none\nlvm none\n",
    )
}

// A disk of so many sectors with a physical volume of lvm2 and no table.
fn volume_on(rt: &impl Abort, alloc: Global, sectors: u64) -> Result<MemBay, Fail> {
    let mut bay = bay_of(rt, alloc, sectors, Vec::new(alloc))?;
    lay_volume(rt, &mut bay, 0, TEXT.as_bytes())?;
    Ok(bay)
}

#[test]
fn a_volume_that_ends_outside_its_disk(rt: HostRuntime) -> Result<(), Fail> {
    let mut bay = volume_on(&rt, rt.alloc(), 2000)?;
    let cut = "image 2000\ntable none\nmd none\nlvm outside\n";
    check(&rt, rt.alloc(), &mut bay, cut)
}

#[test]
fn volumes_without_a_table(rt: HostRuntime) -> Result<(), Fail> {
    let mut bay = volume_on(&rt, rt.alloc(), 2048)?;
    let wanted = format!(in rt.alloc();
        "image 2048\ntable none\nmd none\ntext 1021\n{TEXT}\ngroup vga seqno 2 extent 2048 pvs 1 lvs 1\n"
    )?;
    check(&rt, rt.alloc(), &mut bay, wanted.as_str())?;
    lay(&rt, &mut bay, 8, &[0; 512])?;
    let broken = "image 2048\ntable none\nmd none\nlvm bad-crc\n";
    check(&rt, rt.alloc(), &mut bay, broken)
}

// What is put before the second, the third and the fourth line.
const PARTS: [&str; 4] = [
    "",
    "image 0\n",
    "image 0\ntable none\n",
    "image 0\ntable none\nmd none\n",
];

// The disk ends so once this is put.
fn check_stop(rt: &impl Abort, found: (Vec<u8>, Result<(), Stop>), put: &str, why: Stop) {
    let (text, ended) = found;
    assert_eq!(rt; (text.as_slice(), ended), (put.as_bytes(), Err(why)));
}

#[test]
fn a_disk_that_fails_at_each_call(rt: HostRuntime) -> Result<(), Fail> {
    let parts = ["image 12\ntable none\n", "image 12\ntable none\nmd none\n"];
    for call in 0..6 {
        let failing = vec![in rt.alloc(); call]?;
        let mut bay = bay_of(&rt, rt.alloc(), 12, failing)?;
        let found = text_of(&rt, rt.alloc(), &mut bay, None)?;
        check_stop(&rt, found, parts[(call / 2).min(1) as usize], Stop::Gone);
    }
    let mut bay = bay_of(&rt, rt.alloc(), 12, Vec::new(rt.alloc()))?;
    check(
        &rt,
        rt.alloc(),
        &mut bay,
        "image 12\ntable none\nmd none\nlvm none\n",
    )
}

#[test]
fn a_sink_that_fails_at_each_line(rt: HostRuntime) -> Result<(), Fail> {
    for (number, part) in PARTS.iter().enumerate() {
        let mut bay = bay_of(&rt, rt.alloc(), 0, Vec::new(rt.alloc()))?;
        let found = text_of(&rt, rt.alloc(), &mut bay, Some(number as u64))?;
        check_stop(&rt, found, part, Stop::Sink);
    }
    Ok(())
}
