//! Commits: the bytes that they leave, their calls, and who is answered when one of these fails.

use crate::disks::{Filled, commit, commit_on_all, fill, first_places, made};
use commit_log::{Log, Target};
use hex::decode_to_slice;
use rack::{Places, Rack};
use rack_mem::MemBay;
use std::alloc::Global;
use std::process::Abort;
use std::test::Fail;

/// The sector that begins with these digits, zeros behind them.
fn sector(digits: &str) -> Result<[u8; 512], Fail> {
    let mut sector = [0; 512];
    if digits.len() <= 1024 {
        decode_to_slice(digits, &mut sector[..digits.len() / 2])?;
    }
    Ok(sector)
}

/// What a sector of a disk has to hold.
type Held = (u32, u64, [u8; 512]);

fn check_held(rt: &impl Abort, bay: &MemBay, held: &[Held]) {
    for (disk, sector, bytes) in held {
        assert!(rt;
            bay.sector_now(*disk, *sector) == *bytes,
            "sector {sector} of {disk}"
        );
    }
}

#[test]
fn the_seventh_record(rt: HostRuntime) -> Result<(), Fail> {
    let (mut bay, mut log) = made(&rt, rt.alloc(), &[], 4000)?;
    for _ in 0..6 {
        commit_on_all(&rt, &mut log, &mut bay, &[(0, 0, 9)], 2);
    }
    commit_on_all(&rt, &mut log, &mut bay, &[(18, 2053, 7), (35, 3, 1)], 2);
    let gate = sector("5348524741544531a78f8feb0000000007")?;
    let head = sector(
        "534852424f4459311e532704020000000700000000000000000000000000000000000000000000000000000000000000000000000000000000000000000000001200000005080000000000002300000003",
    )?;
    for slice in [0, 17] {
        let held = [
            (slice, 1, gate),
            (slice, 4100, head),
            (slice, 4101, [0; 512]),
            (slice, 4196, [7; 512]),
            (slice, 4197, [1; 512]),
        ];
        check_held(&rt, &bay, &held);
    }
    check_held(&rt, &bay, &[(18, 2053, [7; 512]), (35, 3, [1; 512])]);
    Ok(())
}

/// How many targets a log takes yet, and what it has for one.
fn kept(log: &Log, target: &Target) -> (u32, Option<[u8; 512]>) {
    (log.room(), log.payload(target).copied())
}

#[test]
fn the_longest_record(rt: HostRuntime) -> Result<(), Fail> {
    let (mut bay, mut log) = made(&rt, rt.alloc(), &[], 9000)?;
    let mut targets = Vec::new(rt.alloc());
    for sector in 0..3996u64 {
        targets.push((4, sector, (sector % 251) as u8))?;
    }
    fill(&rt, &mut log, &bay, targets.as_slice());
    let last = Target {
        disk: 4,
        sector: 3995,
    };
    let bytes = [(3995 % 251) as u8; 512];
    let before = kept(&log, &last);
    let lost = commit(&rt, &mut log, &mut bay, &first_places(1));
    assert_eq!(rt; before, (0, Some(bytes)));
    assert_eq!(rt; (lost.is_empty(), kept(&log, &last)), (true, (3996, None)));
    let calls = 96 + 3996 + 1 + 2 + 3996 + 1 + 2;
    assert_eq!(rt; (bay.sector_now(4, 3995), bay.calls()), (bytes, calls));
    Ok(())
}

/// The calls of a commit of two targets on one slice, with some places.
fn calls_with(rt: &impl Abort, alloc: Global, count: u32) -> Result<u64, Fail> {
    let (mut bay, mut log) = made(rt, alloc, &[], 4000)?;
    commit_on_all(rt, &mut log, &mut bay, &[(1, 7, 3), (1, 9, 4)], count);
    Ok(bay.calls())
}

#[test]
fn no_more_calls_than_the_format_says(rt: HostRuntime) -> Result<(), Fail> {
    let each = 98 + 1 + 2 + 2;
    for (count, calls) in [(1, each + 3), (2, 2 * each + 3), (16, 16 * each + 3)] {
        assert_eq!(rt;
            calls_with(&rt, rt.alloc(), count)?,
            calls,
            "{count} places"
        );
    }
    Ok(())
}

/// Targets on two places.
const ON_TWO: [Filled; 2] = [(1, 7, 3), (18, 7, 3)];

/// A commit in which the call of a number fails: the answer, and whether the target on each place was written.
fn failing_at(rt: &impl Abort, alloc: Global, call: u64) -> Result<(Places, bool, bool), Fail> {
    let (mut bay, mut log) = made(rt, alloc, &[call], 999)?;
    fill(rt, &mut log, &bay, &ON_TWO);
    let lost = commit(rt, &mut log, &mut bay, &first_places(2));
    let first = bay.sector_now(1, 7) == [3; 512];
    let second = bay.sector_now(18, 7) == [3; 512];
    Ok((lost, first, second))
}

#[test]
fn a_place_that_goes_is_answered(rt: HostRuntime) -> Result<(), Fail> {
    // The ends of the record, and then each sync, gate and target.
    for call in [0, 97, 195].into_iter().chain(196..210) {
        let (lost, first, second) = failing_at(&rt, rt.alloc(), call)?;
        let went = if lost.is_empty() { 2 } else { lost[0] };
        assert!(rt; lost.len() == 1 && went < 2, "at {call}");
        assert!(rt; if went == 0 { second } else { first }, "at {call}");
    }
    Ok(())
}
