//! Members that go: at each call of a first write and of a second one.

use crate::geometries::Geometry;
use crate::runs::{Run, sector_of};
use array_core::Spent;
use rack::Rack;
use std::alloc::Global;
use std::process::Abort;
use std::test::Fail;

/// Asserts that the first sectors hold these values, and zeros where none is given.
fn assert_holds(rt: &impl Abort, run: &mut Run, values: [(u64, u64); 2], call: u64) {
    for sector in 0..256 {
        let mut wanted = [0; 512];
        for (at, value) in values {
            if at == sector {
                wanted = sector_of(value);
            }
        }
        assert!(rt; run.read(rt, sector) == Ok(wanted), "{sector} at {call}");
    }
}

/// Makes each disk fail but those of the place that has gone.
fn fail_others(rt: &impl Abort, run: &mut Run, gone: u32) {
    for disk in 0..272 {
        if disk / 17 != gone {
            assert!(rt; disk < run.bay.disks());
            run.bay.fail_disk(disk);
        }
    }
}

/// Two writes during which the call of a number fails, and reads of what they left. Then everybody goes.
fn goes_at(rt: &impl Abort, alloc: Global, geometry: Geometry, call: u64) -> Result<(), Fail> {
    let mut run = Run::new(rt, alloc, geometry, &[call], 9000)?;
    let values = [(5, 0x1234_5678_9abc_def1), (133, 0xfedc_ba98_7654_3211)];
    for (sector, value) in values {
        assert_eq!(rt; run.write(rt, sector, value), Ok(()), "at {call}");
    }
    let gone = run.gone(rt, call);
    assert_holds(rt, &mut run, values, call);

    fail_others(rt, &mut run, gone);
    for sector in [5, 133, 200] {
        let answers = (run.write(rt, sector, 1), run.read(rt, sector));
        let spent = Spent { sector };
        assert_eq!(rt; answers, (Err(spent), Err(spent)), "at {call}");
    }
    Ok(())
}

#[test]
fn a_member_may_go_at_any_call(rt: HostRuntime) -> Result<(), Fail> {
    // Each superblock is written and synced, and then are the calls of the two writes.
    let rows = [
        (Geometry::Mirror, 4 + 2 + 2),
        (Geometry::Three, 6 + 4 + 4),
        (Geometry::Five, 10 + 4 + 4),
        (Geometry::Sixteen, 32 + 4 + 4),
    ];
    for (geometry, calls) in rows {
        for call in 0..calls {
            goes_at(&rt, rt.alloc(), geometry, call)?;
        }
    }
    Ok(())
}
