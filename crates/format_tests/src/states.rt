use arrayvec::ArrayVec;
use pool_state::{Drive, Plan, State, StateFault, decode_state, encode_state};
use shr_base::fields::{put_bytes, put_u32};
use shr_base::{Id, crc32};
use std::test::Fail;

const POOL: [u8; 16] = [0, 1, 2, 3, 4, 5, 6, 7, 8, 9, 10, 11, 12, 13, 14, 15];

/// The sector of a pool of two drives, the second of which is missing, while a drive joins; the sum
/// is zlib's.
fn sector() -> [u8; 512] {
    let mut block = [0; 512];
    put_bytes(&mut block, 0, b"SHRPOOL1\x01\0\0\0");
    put_u32(&mut block, 12, 0x8086_e4fb);
    put_bytes(&mut block, 16, &POOL);
    put_bytes(&mut block, 32, &[7, 0, 0, 0, 0, 0, 0, 0]);
    put_bytes(&mut block, 40, &[128, 0, 0, 0, 2, 1, 1, 1, 1, 1]);
    put_bytes(&mut block, 56, &[2, 0, 0, 0]);
    put_bytes(&mut block, 64, &[0x11; 16]);
    put_bytes(&mut block, 80, &[10, 0, 0, 0, 0, 0, 0, 0, 0, 0, 0, 0]);
    put_bytes(&mut block, 92, &[0x22; 16]);
    put_bytes(&mut block, 108, &[20, 0, 0, 0, 0, 0, 0, 0, 1, 0, 0, 0]);
    block
}

/// The sector with one or two bytes changed, and its sum made right.
fn changed(edits: [(usize, u8); 2]) -> [u8; 512] {
    let mut block = sector();
    for (at, byte) in edits {
        if let Some(cell) = block.get_mut(at) {
            *cell = byte;
        }
    }
    put_u32(&mut block, 12, 0);
    let sum = crc32(&block);
    put_u32(&mut block, 12, sum);
    block
}

#[test]
fn both_ways(rt: HostRuntime) -> Result<(), Fail> {
    let copied = decode_state(&sector())?;
    let mut drives = ArrayVec::new();
    drives.push(Drive {
        id: Id([0x11; 16]),
        units: 10,
        missing: false,
    });
    drives.push(Drive {
        id: Id([0x22; 16]),
        units: 20,
        missing: true,
    });
    let state = State {
        pool: Id(POOL),
        epoch: 7,
        extent: 128,
        drives,
        plan: Plan::Add { place: 1 },
        made: 1,
        joined: 1,
        serial: 2,
    };
    assert!(rt; encode_state(&state, 1) == sector());
    assert_eq!(rt; (copied.own, copied.state), (1, state));
    Ok(())
}

fn plan_of(edits: [(usize, u8); 2]) -> Result<Plan, Fail> {
    Ok(decode_state(&changed(edits))?.state.plan)
}

#[test]
fn plans(rt: HostRuntime) -> Result<(), Fail> {
    let plans = [plan_of([(46, 0), (47, 0)])?, plan_of([(46, 2), (47, 0)])?];
    assert_eq!(rt; plans, [Plan::Nothing, Plan::Replace { place: 0 }]);
    Ok(())
}

#[test]
fn faults_in_order(rt: HostRuntime) {
    let mut other_sum = sector();
    other_sum[32] = 0;
    let mut other_version = other_sum;
    other_version[8] = 2;
    let mut other_name = sector();
    other_name[7] = b'2';
    for (block, fault) in [
        (other_sum, StateFault::BadSum),
        (other_version, StateFault::NotState),
        (other_name, StateFault::NotState),
    ] {
        assert!(rt; decode_state(&block) == Err(fault), "{fault:?}");
    }
}

/// The last byte of the sector, as it is.
const SAME: (usize, u8) = (511, 0);

/// Each rule in turn, broken by one or two bytes.
static BROKEN: [(&str, [(usize, u8); 2]); 29] = [
    ("zeros behind joined", [(50, 1), SAME]),
    ("zeros behind joined", [(55, 1), SAME]),
    ("zeros behind serial", [(60, 1), SAME]),
    ("zeros behind serial", [(63, 1), SAME]),
    ("zeros behind the last drive", [(120, 1), SAME]),
    ("zeros behind the last drive", [(511, 1), (511, 1)]),
    ("extent 0", [(40, 0), SAME]),
    ("extent 64", [(40, 64), SAME]),
    ("extent 129", [(40, 129), SAME]),
    ("extent 131072", [(40, 0), (42, 2)]),
    ("no drive", [(44, 0), SAME]),
    ("one drive", [(44, 1), (45, 0)]),
    ("17 drives", [(44, 17), SAME]),
    ("255 drives", [(44, 255), SAME]),
    ("own place outside", [(45, 2), SAME]),
    ("plan kind 3", [(46, 3), SAME]),
    ("plan place outside", [(47, 2), SAME]),
    ("place of no plan", [(46, 0), SAME]),
    ("no array", [(48, 0), (49, 0)]),
    ("17 arrays", [(48, 17), (49, 16)]),
    ("none ready", [(49, 0), SAME]),
    ("more ready than made", [(49, 2), SAME]),
    ("two not ready", [(48, 3), SAME]),
    ("flags 2", [(88, 2), SAME]),
    ("flags 256", [(89, 1), SAME]),
    ("no units", [(80, 0), SAME]),
    ("units of 2^41", [(80, 0), (85, 2)]),
    ("epoch 0", [(32, 0), SAME]),
    ("epoch of 2^63", [(32, 0), (39, 0x80)]),
];

#[test]
fn broken_rules(rt: HostRuntime) {
    for (rule, edits) in BROKEN.iter() {
        let read = decode_state(&changed(*edits));
        assert!(rt; read == Err(StateFault::BadField), "{rule}");
    }
    assert!(rt; decode_state(&changed([SAME, SAME])).is_ok());
}
