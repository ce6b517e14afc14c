//! The table that sgdisk 1.0.9 wrote on a disk of 98304 sectors: both copies are read, and written again byte for
//! byte. `tests/gpt.sh` takes these bytes from here, and has sgdisk verify them.

use gpt_table::{Seen, TableCopy, TableFault, read_table, write_whole};
use rack::{Bay, Name, Rack};
use rack_mem::{DiskSpec, MemBay};
use shr_base::fields::put_u32;
use shr_base::{Id, crc32};
use std::alloc::Global;
use std::process::Abort;
use std::test::Fail;

/// The sectors of the disk.
const SECTORS: u64 = 98304;

/// The partition in sector 0, from byte 446 on. sgdisk ends it at another cylinder, head and sector: 7f 20 17.
const PARTITION: [u8; 16] = [
    0x00, 0x00, 0x02, 0x00, 0xee, 0xff, 0xff, 0xff, 0x01, 0x00, 0x00, 0x00, 0xff, 0x7f, 0x01, 0x00,
];

/// The header in sector 1; zeros follow.
const PRIMARY: [u8; 92] = [
    0x45, 0x46, 0x49, 0x20, 0x50, 0x41, 0x52, 0x54, 0x00, 0x00, 0x01, 0x00, 0x5c, 0x00, 0x00, 0x00,
    0xa1, 0x54, 0xe2, 0x7b, 0x00, 0x00, 0x00, 0x00, 0x01, 0x00, 0x00, 0x00, 0x00, 0x00, 0x00, 0x00,
    0xff, 0x7f, 0x01, 0x00, 0x00, 0x00, 0x00, 0x00, 0x22, 0x00, 0x00, 0x00, 0x00, 0x00, 0x00, 0x00,
    0xde, 0x7f, 0x01, 0x00, 0x00, 0x00, 0x00, 0x00, 0xcf, 0xd0, 0x4e, 0x92, 0xfb, 0x1f, 0x49, 0x48,
    0xaf, 0xcd, 0x9f, 0x8e, 0x46, 0x9f, 0xdb, 0x6f, 0x02, 0x00, 0x00, 0x00, 0x00, 0x00, 0x00, 0x00,
    0x80, 0x00, 0x00, 0x00, 0x80, 0x00, 0x00, 0x00, 0xe5, 0xaa, 0xe7, 0x26,
];

/// The header in the last sector; zeros follow.
const BACKUP: [u8; 92] = [
    0x45, 0x46, 0x49, 0x20, 0x50, 0x41, 0x52, 0x54, 0x00, 0x00, 0x01, 0x00, 0x5c, 0x00, 0x00, 0x00,
    0x72, 0x11, 0x68, 0x6e, 0x00, 0x00, 0x00, 0x00, 0xff, 0x7f, 0x01, 0x00, 0x00, 0x00, 0x00, 0x00,
    0x01, 0x00, 0x00, 0x00, 0x00, 0x00, 0x00, 0x00, 0x22, 0x00, 0x00, 0x00, 0x00, 0x00, 0x00, 0x00,
    0xde, 0x7f, 0x01, 0x00, 0x00, 0x00, 0x00, 0x00, 0xcf, 0xd0, 0x4e, 0x92, 0xfb, 0x1f, 0x49, 0x48,
    0xaf, 0xcd, 0x9f, 0x8e, 0x46, 0x9f, 0xdb, 0x6f, 0xdf, 0x7f, 0x01, 0x00, 0x00, 0x00, 0x00, 0x00,
    0x80, 0x00, 0x00, 0x00, 0x80, 0x00, 0x00, 0x00, 0xe5, 0xaa, 0xe7, 0x26,
];

/// The first of the two entries; zeros follow.
const FIRST: [u8; 48] = [
    0x0f, 0x88, 0x9d, 0xa1, 0xfc, 0x05, 0x3b, 0x4d, 0xa0, 0x06, 0x74, 0x3f, 0x0f, 0x84, 0x91, 0x1e,
    0xec, 0xfa, 0x91, 0x81, 0x52, 0x05, 0x6e, 0x4e, 0xbe, 0x2d, 0x54, 0xb3, 0x08, 0xa1, 0x4f, 0xa1,
    0x00, 0x08, 0x00, 0x00, 0x00, 0x00, 0x00, 0x00, 0xff, 0xbf, 0x00, 0x00, 0x00, 0x00, 0x00, 0x00,
];

/// The second one; zeros follow.
const SECOND: [u8; 48] = [
    0x0f, 0x88, 0x9d, 0xa1, 0xfc, 0x05, 0x3b, 0x4d, 0xa0, 0x06, 0x74, 0x3f, 0x0f, 0x84, 0x91, 0x1e,
    0xdd, 0xba, 0xa1, 0x40, 0x03, 0xce, 0x52, 0x47, 0x91, 0xa2, 0x08, 0x79, 0x84, 0xe7, 0x49, 0x8f,
    0x00, 0xc0, 0x00, 0x00, 0x00, 0x00, 0x00, 0x00, 0xde, 0x7f, 0x01, 0x00, 0x00, 0x00, 0x00, 0x00,
];

/// What a sector of the disk holds, in the first 34 sectors and the last 33.
fn sector(number: u64) -> [u8; 512] {
    let mut bytes = [0; 512];
    match number {
        0 => {
            bytes[446..462].copy_from_slice(&PARTITION);
            bytes[510] = 0x55;
            bytes[511] = 0xaa;
        }
        1 => bytes[0..92].copy_from_slice(&PRIMARY),
        2 | 98271 => {
            bytes[0..48].copy_from_slice(&FIRST);
            bytes[128..176].copy_from_slice(&SECOND);
        }
        98303 => bytes[0..92].copy_from_slice(&BACKUP),
        _ => {}
    }
    bytes
}

// A bay of one attached disk with the sectors of both copies, and with another header in the primary.
fn bay(rt: &impl Abort, alloc: Global, header: &[u8; 512]) -> Result<MemBay, Fail> {
    let mut shelf = Vec::new(alloc);
    let name = Name::of(alloc, b"a")?;
    shelf.push(DiskSpec {
        name,
        sectors: SECTORS,
    })?;
    assert!(rt; shelf.len() == 1 && shelf.iter().all(|disk| disk.sectors <= SECTORS));
    let mut bay = MemBay::new(alloc, shelf, Vec::new(alloc), 1000)?;
    assert_eq!(rt; bay.attach("a"), Ok(0));
    put(rt, &mut bay, 1, header);
    for number in [2, SECTORS - 33, SECTORS - 1] {
        put(rt, &mut bay, number, &sector(number));
    }
    Ok(bay)
}

fn put(rt: &impl Abort, bay: &mut MemBay, number: u64, bytes: &[u8; 512]) {
    assert!(rt; 0 < bay.disks() && number < bay.sectors(0));
    assert_eq!(rt; bay.write(0, number, bytes), Ok(()));
}

fn found(rt: &impl Abort, bay: &mut MemBay) -> Result<Seen, TableFault> {
    assert!(rt; 0 < bay.disks());
    read_table(bay, 0)
}

// The copy that the table is read from, where the primary has this header and the backup's is cleared.
fn primary_with(rt: &impl Abort, bay: &mut MemBay, header: &[u8; 512]) -> bool {
    put(rt, bay, SECTORS - 1, &[0; 512]);
    put(rt, bay, 1, header);
    found(rt, bay).is_ok()
}

/// The header of the primary with another number at `offset`, and with the sum of its first `size` bytes.
fn with(rt: &impl Abort, offset: usize, number: u32, size: usize) -> [u8; 512] {
    assert!(rt; offset <= 508 && size <= 512);
    let mut header = sector(1);
    put_u32(&mut header, offset, number);
    put_u32(&mut header, 16, 0);
    let sum = crc32(&header[0..size]);
    put_u32(&mut header, 16, sum);
    header
}

#[test]
fn reads_what_sgdisk_wrote(rt: HostRuntime) -> Result<(), Fail> {
    let disk = [
        0x92, 0x4e, 0xd0, 0xcf, 0x1f, 0xfb, 0x48, 0x49, 0xaf, 0xcd, 0x9f, 0x8e, 0x46, 0x9f, 0xdb,
        0x6f,
    ];
    let raid = [
        0xa1, 0x9d, 0x88, 0x0f, 0x05, 0xfc, 0x4d, 0x3b, 0xa0, 0x06, 0x74, 0x3f, 0x0f, 0x84, 0x91,
        0x1e,
    ];
    // the primary as it is, and one that is cleared
    for (copy, header) in [
        (TableCopy::Primary, sector(1)),
        (TableCopy::Backup, [0; 512]),
    ] {
        let mut bay = bay(&rt, rt.alloc(), &header)?;
        let seen = found(&rt, &mut bay).ok().ok_or("a table")?;
        assert_eq!(rt; (seen.copy, seen.table.disk_id), (copy, Id(disk)));
        let slices = [(1, 2048, 49151, Id(raid)), (2, 49152, 98270, Id(raid))];
        assert!(rt; slices_of(&seen) == Some(slices));
    }
    Ok(())
}

// The number, the first sector, the last one and the type of each of two slices.
fn slices_of(seen: &Seen) -> Option<[(u32, u64, u64, Id); 2]> {
    match seen.table.entries.as_slice() {
        [first, second] => Some([first, second].map(|entry| {
            (
                entry.number,
                entry.slice.first,
                entry.slice.last,
                entry.slice.kind,
            )
        })),
        _ => None,
    }
}

#[test]
fn writes_what_sgdisk_wrote(rt: HostRuntime) -> Result<(), Fail> {
    let mut bay = bay(&rt, rt.alloc(), &sector(1))?;
    assert!(rt; 0 < bay.disks() && bay.sectors(0) == SECTORS);
    let Ok(seen) = read_table(&mut bay, 0) else {
        return Err("no table")?;
    };
    for number in [1, 2, SECTORS - 33, SECTORS - 1] {
        put(&rt, &mut bay, number, &[0x55; 512]);
    }
    assert!(rt; 0 < bay.disks() && bay.sectors(0) == SECTORS);
    assert_eq!(rt; write_whole(&mut bay, 0, &seen.table), Ok(()));
    for number in (0..34).chain(SECTORS - 33..SECTORS) {
        assert!(rt; bay.sector_now(0, number) == sector(number), "at {number}");
    }
    Ok(())
}

// A number of the header, at an offset, the bytes that its sum is of, and whether the table is read then: a header of 92 to
// 512 bytes, its own sector, the first one of its entries, their number and their size.
static NUMBERS: [(usize, u32, usize, bool); 9] = [
    (12, 92, 92, true),
    (12, 512, 512, true),
    (12, 91, 91, false),
    (12, 513, 512, false),
    (12, u32::MAX, 512, false),
    (24, 2, 92, false),
    (72, 3, 92, false),
    (80, u32::MAX, 92, false),
    (84, u32::MAX, 92, false),
];

#[test]
fn refuses_what_breaks_a_rule(rt: HostRuntime) -> Result<(), Fail> {
    let mut bay = bay(&rt, rt.alloc(), &sector(1))?;
    for (offset, number, size, is_read) in NUMBERS.iter() {
        let header = with(&rt, *offset, *number, *size);
        let found = primary_with(&rt, &mut bay, &header);
        assert!(rt; found == *is_read, "{number} at {offset}");
    }
    // the other copy's header
    assert!(rt; !primary_with(&rt, &mut bay, &sector(SECTORS - 1)));
    // a bit of the entries changed
    put(&rt, &mut bay, 33, &[1; 512]);
    assert!(rt; !primary_with(&rt, &mut bay, &sector(1)));
    Ok(())
}
