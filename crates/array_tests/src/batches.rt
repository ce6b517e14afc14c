//! Rows of maintenance, done by one commit and by many.

use crate::geometries::{Geometry, ROWS};
use crate::runs::{Run, first_unsynced};
use array_core::Seat;
use std::alloc::Global;
use std::process::Abort;
use std::test::Fail;

/// What is done to each row of an array.
#[derive(Clone, Copy, Debug, PartialEq, Eq)]
enum Work {
    Resync,
    Rebuild,
    Zero,
}

/// An array of which each row is left for a work, and the members of each row differ from one on.
fn ready(
    rt: &impl Abort,
    alloc: Global,
    geometry: Geometry,
    work: Work,
    from: u64,
) -> Result<Run, Fail> {
    let mut run = Run::new(rt, alloc, geometry, &[], 200_000)?;
    for row in from..ROWS {
        for place in 0..2 {
            run.spoil(rt, place, row * 128 + 7, row * 2 + u64::from(place) + 1);
        }
    }
    match work {
        Work::Resync => run.leave_rows(),
        Work::Rebuild => {
            run.lose(1);
            run.renew(rt, 1);
        }
        Work::Zero => run.make_young(alloc, geometry)?,
    }
    Ok(run)
}

/// Whether no row is left for a work.
fn is_done(run: &Run, work: Work) -> bool {
    match work {
        Work::Resync => run.array.resync_from() == run.array.rows(),
        Work::Rebuild => run.array.seat(1) == Some(Seat::Whole),
        Work::Zero => first_unsynced(&run.array) == run.array.rows(),
    }
}

/// An array whose rows are all done, at most so many by a call, and how many each call did.
fn done(
    rt: &impl Abort,
    alloc: Global,
    geometry: Geometry,
    work: Work,
    from: u64,
    most: u64,
) -> Result<(Run, Vec<u64>), Fail> {
    let mut run = ready(rt, alloc, geometry, work, from)?;
    let mut calls = Vec::new(alloc);
    for _ in 0..ROWS {
        if is_done(&run, work) {
            break;
        }
        let rows = match work {
            Work::Resync => run.resync(rt, most),
            Work::Rebuild => run.rebuild(rt, 1, most),
            Work::Zero => run.zero(rt, most),
        };
        assert!(rt; rows.is_ok(), "{work:?} {geometry:?} {most}");
        calls.push(rows.unwrap_or(0))?;
    }
    assert!(rt; is_done(&run, work), "{work:?} {geometry:?} {most}");
    Ok((run, calls))
}

#[test]
fn rows_are_done_alike_by_one_commit_and_by_many(rt: HostRuntime) -> Result<(), Fail> {
    // A record of the log has 3996 sectors, of which each member's superblock is one. Rows whose members agree need none of it.
    let rows = [
        (Work::Rebuild, Geometry::Mirror, 0, 7, [7, 7, 7, 7, 7, 5]),
        (Work::Rebuild, Geometry::Three, 0, 100, [31, 9, 0, 0, 0, 0]),
        (Work::Resync, Geometry::Mirror, 0, 9, [9, 9, 9, 9, 4, 0]),
        (Work::Resync, Geometry::Three, 0, 100, [31, 9, 0, 0, 0, 0]),
        (Work::Resync, Geometry::Mirror, 6, 99, [6, 31, 3, 0, 0, 0]),
        (Work::Resync, Geometry::Three, 40, 99, [40, 0, 0, 0, 0, 0]),
        (Work::Zero, Geometry::Mirror, 0, 40, [15, 15, 10, 0, 0, 0]),
        (Work::Zero, Geometry::Three, 0, 8, [8, 8, 8, 8, 8, 0]),
    ];
    for (work, geometry, from, most, calls) in rows {
        let one = done(&rt, rt.alloc(), geometry, work, from, 1)?;
        let many = done(&rt, rt.alloc(), geometry, work, from, most)?;
        let mut counts = [0; 6];
        for (count, rows) in counts.iter_mut().zip(many.1.iter()) {
            *count = *rows;
        }
        assert_eq!(rt;
            (one.1.len() as u64, counts),
            (ROWS, calls),
            "{work:?} {geometry:?} {most}"
        );
        for sector in (7..ROWS * 128).step_by(64) {
            for place in 0..geometry.members() {
                let held = one.0.held(place, sector) == many.0.held(place, sector);
                assert!(rt; held, "{work:?} {geometry:?} {most}, {sector} of {place}");
            }
        }
    }
    Ok(())
}
