//! With ample memory the disks are read, and the newest copy decides.

use crate::disks::{bay, write};
use arrayvec::ArrayVec;
use pool_scan::{Scan, scan_disks};
use pool_state::{Drive, Plan, State, encode_state};
use shr_base::Id;
use std::alloc::Global;
use std::process::Abort;
use std::test::Fail;

// A drive of ten units, with an id of these bytes.
fn drive_of(byte: u8) -> Drive {
    Drive {
        id: Id([byte; 16]),
        units: 10,
        missing: false,
    }
}

// A state of two drives, of this epoch.
fn state_of(epoch: u64) -> State {
    let mut drives = ArrayVec::new();
    drives.push(drive_of(0));
    drives.push(drive_of(1));
    State {
        pool: Id([7; 16]),
        epoch,
        extent: 128,
        drives,
        plan: Plan::Nothing,
        made: 1,
        joined: 1,
        serial: 2,
    }
}

// Three disks: the first has no copy, the others one of these places and epochs.
fn scan_of(rt: &impl Abort, alloc: Global, copies: [(u32, u64); 2]) -> Result<Scan, Fail> {
    let mut bay = bay(rt, alloc, &[2100; 3], 1000)?;
    for (disk, (place, epoch)) in (1..).zip(copies) {
        let copy = encode_state(&state_of(epoch), place);
        assert_eq!(rt; write(rt, &mut bay, disk, 2048, &copy), Ok(()));
    }
    Ok(scan_disks(alloc, &mut bay)?)
}

#[test]
fn the_newest_copy_decides(rt: HostRuntime) -> Result<(), Fail> {
    let rows = [
        ([(0, 3), (1, 5)], 5, [Some(1), Some(2)]),
        ([(0, 5), (1, 3)], 5, [Some(1), Some(2)]),
        ([(1, 4), (1, 4)], 4, [None, Some(1)]),
        ([(0, 4), (0, 6)], 6, [Some(2), None]),
    ];
    for (copies, epoch, seats) in rows {
        let scan = scan_of(&rt, rt.alloc(), copies)?;
        let state = scan.newest().expect(&rt, "a state");
        assert!(rt; scan.disks.len() < 1 << 32);
        let found = [scan.seat(state, 0), scan.seat(state, 1)];
        assert_eq!(rt; (state.epoch, found), (epoch, seats));
        let others = [7, 8].map(|byte| scan.has_other_pool(&Id([byte; 16])));
        assert_eq!(rt; others, [false, true]);
    }
    Ok(())
}
