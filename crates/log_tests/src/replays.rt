//! Logs that are looked at and replayed: after any stop, with a call that fails, and with nothing to replay.

use crate::blocks::{WHOLE, closed_gate, write_log};
use crate::disks::{attach_all, commit_on_all, first_places, look, made, replay, write};
use commit_log::{Log, Looked};
use rack::{Places, Rack};
use rack_mem::{MemBay, Pick};
use std::alloc::Global;
use std::process::Abort;
use std::test::Fail;

/// Writes the closed gate of a new pool to some places.
fn write_gates(rt: &impl Abort, bay: &mut MemBay, count: usize) {
    for slice in (0..272).step_by(17).take(count) {
        write(rt, bay, slice, 1, &closed_gate(0));
        assert!(rt; slice < bay.disks() && bay.sync(slice).is_ok());
    }
}

/// Replays three places by a fresh log, and answers what their targets hold then.
fn replayed(rt: &impl Abort, alloc: Global, bay: &mut MemBay) -> Result<[u8; 3], Fail> {
    attach_all(rt, alloc, bay)?;
    let on = first_places(3);
    let mut log = Log::make(alloc)?;
    let looked = look(rt, &mut log, bay, &on);
    let lost = replay(rt, &mut log, bay, &on);
    let again = look(rt, &mut log, bay, &on);
    assert!(rt;
        looked.damaged.is_none() && looked.gone.is_empty() && lost.is_empty() && !again.pending
    );
    Ok([
        bay.sector_now(1, 7)[511],
        bay.sector_now(18, 7)[511],
        bay.sector_now(35, 7)[511],
    ])
}

#[test]
fn a_stop_leaves_all_or_nothing(rt: HostRuntime) -> Result<(), Fail> {
    let (mut bay, mut log) = made(&rt, rt.alloc(), &[], 800)?;
    write_gates(&rt, &mut bay, 3);
    let first = bay.calls();
    for byte in 1..3 {
        let targets = [(1, 7, byte), (18, 7, byte), (35, 7, byte)];
        commit_on_all(&rt, &mut log, &mut bay, &targets, 3);
    }
    let mut last = 0;
    for moment in first..bay.calls() + 1 {
        for pick in [Pick::Oldest, Pick::Newest, Pick::Seeded { seed: moment }] {
            assert!(rt; moment <= bay.calls());
            let mut image = bay.image_at(rt.alloc(), moment, pick)?;
            let values = replayed(&rt, rt.alloc(), &mut image)?;
            assert!(rt; values == [values[0]; 3] && values[0] < 3, "at {moment}");
            last = values[0];
        }
    }
    assert_eq!(rt; last, 2);
    Ok(())
}

/// Two places are looked at and replayed, where a call fails: those that went in each, and which gates are closed.
fn reopened_failing_at(
    rt: &impl Abort,
    alloc: Global,
    call: u64,
) -> Result<(Looked, Places, bool, bool), Fail> {
    let (mut bay, mut log) = made(rt, alloc, &[call], 999)?;
    for place in 0..2 {
        write_log(rt, alloc, &mut bay, place, WHOLE, WHOLE, true)?;
    }
    let on = first_places(2);
    let looked = look(rt, &mut log, &mut bay, &on);
    let lost = replay(rt, &mut log, &mut bay, &on);
    let first = bay.sector_now(0, 1) == closed_gate(7);
    let second = bay.sector_now(17, 1) == closed_gate(7);
    Ok((looked, lost, first, second))
}

#[test]
fn a_place_that_goes_is_passed_over(rt: HostRuntime) -> Result<(), Fail> {
    // The gates and the record are written by 198 calls and read by 100, and then are the targets' calls and the gates'.
    for call in 198..306 {
        let (looked, lost, first, second) = reopened_failing_at(&rt, rt.alloc(), call)?;
        let went = looked.gone.len() + lost.len();
        assert!(rt;
            looked.pending
                && looked.damaged.is_none()
                && went == 1
                && lost.is_empty() == (call < 298),
            "at {call}"
        );
        let closed = call < 298 || call >= 302;
        assert_eq!(rt;
            (first, second),
            (closed && call != 302, closed && call != 303),
            "at {call}"
        );
    }
    Ok(())
}

#[test]
fn an_open_gate_alone_is_closed(rt: HostRuntime) -> Result<(), Fail> {
    let (mut bay, mut log) = made(&rt, rt.alloc(), &[], 400)?;
    write_log(&rt, rt.alloc(), &mut bay, 0, [(12, 0); 2], WHOLE, false)?;
    write_log(&rt, rt.alloc(), &mut bay, 1, WHOLE, WHOLE, false)?;
    // 198 calls wrote the logs. A look reads both gates, and a replay closes the one that is open.
    check_reopened(&rt, &mut log, &mut bay, [200, 204]);
    check_reopened(&rt, &mut log, &mut bay, [206, 206]);
    assert!(rt; bay.sector_now(17, 1) == closed_gate(7));
    Ok(())
}

/// Two places have nothing to replay, and so many calls have been made once they are looked at, and once they are replayed.
fn check_reopened(rt: &impl Abort, log: &mut Log, bay: &mut MemBay, calls: [u64; 2]) {
    let on = first_places(2);
    let looked = look(rt, log, bay, &on);
    let looked_by = bay.calls();
    let lost = replay(rt, log, bay, &on);
    assert!(rt; !looked.pending && looked.damaged.is_none() && lost.is_empty());
    assert_eq!(rt; [looked_by, bay.calls()], calls);
}
