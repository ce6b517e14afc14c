//! Gates and records as bytes, and what is told of each damage of them.

use crate::disks::{first_places, look, made, write};
use commit_log::{Looked, Target};
use rack_mem::MemBay;
use shr_base::crc32;
use std::alloc::Global;
use std::process::Abort;
use std::test::Fail;

/// Two numbers that are put at places of a block.
pub(crate) type Change = [(usize, u32); 2];

/// No change: the upper half of the number is 0 anyway.
pub(crate) const WHOLE: Change = [(20, 0); 2];

/// The fields of a gate, which is open and has number 7.
const GATE: [(usize, u32); 8] = [
    (0, 0x4752_4853),
    (4, 0x3145_5441),
    (12, 1),
    (16, 7),
    (20, 0),
    (20, 0),
    (20, 0),
    (20, 0),
];

/// The fields of a record with number 7 and two targets, sector 5 of slice 18 and sector 6 of slice 35.
const RECORD: [(usize, u32); 8] = [
    (0, 0x4252_4853),
    (4, 0x3159_444f),
    (12, 2),
    (16, 7),
    (64, 18),
    (68, 5),
    (76, 35),
    (80, 6),
];

/// Puts fields into a block, which has its sum behind its first word. They are changed before the sum is taken, or after it.
fn sealed(block: &mut [u8], fields: [(usize, u32); 8], changes: Change, after: bool) {
    for (at, value) in fields {
        put(block, at, value);
    }
    for change in changes {
        if !after {
            put(block, change.0, change.1);
        }
    }
    let sum = crc32(block);
    put(block, 8, sum);
    for change in changes {
        if after {
            put(block, change.0, change.1);
        }
    }
}

fn put(block: &mut [u8], at: usize, value: u32) {
    for (cell, byte) in block.iter_mut().skip(at).zip(value.to_le_bytes()) {
        *cell = byte;
    }
}

/// The closed gate with a number.
pub(crate) fn closed_gate(number: u32) -> [u8; 512] {
    let mut block = [0; 512];
    sealed(&mut block, GATE, [(12, 0), (16, number)], false);
    block
}

/// Writes the 98 sectors of a record to the second half of a log slice.
fn write_half(rt: &impl Abort, bay: &mut MemBay, disk: u32, bytes: &[u8]) {
    let (sectors, _) = bytes.as_chunks::<512>();
    for at in 0..98 {
        if at < sectors.len() {
            write(rt, bay, disk, 4100 + at as u64, &sectors[at]);
        }
    }
}

/// Writes the open gate and the record to a place, with changes of either.
pub(crate) fn write_log(
    rt: &impl Abort,
    alloc: Global,
    bay: &mut MemBay,
    place: u32,
    gate: Change,
    record: Change,
    after: bool,
) -> Result<(), Fail> {
    assert!(rt; place < 16);
    let mut block = [0; 512];
    sealed(&mut block, GATE, gate, after);
    write(rt, bay, 17 * place, 1, &block);
    let mut bytes = vec![in alloc; 0u8; 98 * 512]?;
    sealed(bytes.as_mut_slice(), RECORD, record, after);
    write_half(rt, bay, 17 * place, bytes.as_slice());
    Ok(())
}

/// The damages of a gate and a record of one place of two, whether they come after the sums were taken, and which place is told as
/// damaged.
static DAMAGES: [(&str, u32, Change, Change, bool, Option<u32>); 15] = [
    ("nothing", 0, WHOLE, WHOLE, true, None),
    ("a gate's word", 0, [(0, 0); 2], WHOLE, false, Some(0)),
    ("a gate's sum", 1, [(8, 0); 2], WHOLE, true, Some(1)),
    (
        "a gate's last bytes",
        1,
        [(508, 1); 2],
        WHOLE,
        true,
        Some(1),
    ),
    ("a record's word", 0, WHOLE, [(0, 0); 2], false, Some(0)),
    ("its number", 0, WHOLE, [(16, 9); 2], false, Some(0)),
    ("its sum", 0, WHOLE, [(8, 0); 2], true, Some(0)),
    ("no target", 0, WHOLE, [(12, 0); 2], false, Some(0)),
    ("too many", 0, WHOLE, [(12, 3997); 2], false, Some(0)),
    ("one twice", 0, WHOLE, [(76, 18), (80, 5)], false, Some(0)),
    ("no disk", 0, WHOLE, [(76, 272); 2], false, Some(0)),
    ("a part of a log", 0, WHOLE, [(76, 34); 2], false, Some(0)),
    ("a state", 0, WHOLE, [(76, 34), (80, 0)], false, None),
    ("one not read", 1, WHOLE, [(0, 0); 2], false, None),
    ("both", 1, [(0, 0); 2], [(0, 0); 2], false, Some(1)),
];

/// What is looked at on two places, one of which has these changes, and whether the record is kept.
fn looked_at(
    rt: &impl Abort,
    alloc: Global,
    place: u32,
    (gate, record): (Change, Change),
    after: bool,
) -> Result<(Looked, bool), Fail> {
    let (mut bay, mut log) = made(rt, alloc, &[], 400)?;
    write_log(rt, alloc, &mut bay, place, gate, record, after)?;
    write_log(
        rt,
        alloc,
        &mut bay,
        u32::from(place == 0),
        WHOLE,
        WHOLE,
        after,
    )?;
    let looked = look(rt, &mut log, &mut bay, &first_places(2));
    let first = Target {
        disk: 18,
        sector: 5,
    };
    Ok((looked, log.payload(&first).is_some()))
}

#[test]
fn each_damage_is_told(rt: HostRuntime) -> Result<(), Fail> {
    for (name, place, gate, record, after, damaged) in DAMAGES.iter() {
        let (looked, is_kept) = looked_at(&rt, rt.alloc(), *place, (*gate, *record), *after)?;
        assert_eq!(rt;
            (looked.damaged, looked.gone.is_empty(), is_kept),
            (*damaged, true, damaged.is_none()),
            "{name}"
        );
    }
    Ok(())
}
