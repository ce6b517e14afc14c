//! Rows of a member that are rebuilt.

use crate::geometries::{Geometry, ROWS};
use crate::runs::{Run, sector_of};
use array_core::{Seat, Spent};
use rack::Rack;
use std::alloc::Global;
use std::process::Abort;
use std::test::Fail;

/// Asserts that the first array rows, as many as a member's data has, hold these values in one sector each.
fn assert_holds(rt: &impl Abort, run: &mut Run, values: &[u64; ROWS as usize]) {
    for row in 0..ROWS {
        let sector = row * 128 + 5;
        assert!(rt;
            run.read(rt, sector) == Ok(sector_of(values[row as usize])),
            "{sector}"
        );
    }
}

/// A lost member is rebuilt, with a write before each row. Then another one is lost, and all values are there.
fn rebuilt(
    rt: &impl Abort,
    alloc: Global,
    geometry: Geometry,
    place: u32,
    other: u32,
) -> Result<(), Fail> {
    let mut run = Run::new(rt, alloc, geometry, &[], 120_000)?;
    let mut values = [0; ROWS as usize];
    run.lose(place);
    assert!(rt; run.write(rt, 5, 11).is_ok());
    values[0] = 11;
    run.renew(rt, place);
    for row in 0..ROWS {
        let next = (row * 7 + 3) % ROWS;
        let value = row + 100;
        let written = run.write(rt, next * 128 + 5, value);
        values[next as usize] = value;
        assert_eq!(rt;
            (written, run.rebuild(rt, place, 1)),
            (Ok(()), Ok(1)),
            "{row}"
        );
    }
    assert!(rt; run.array.seat(place) == Some(Seat::Whole));
    run.lose(other);
    assert_holds(rt, &mut run, &values);
    Ok(())
}

#[test]
fn a_member_is_rebuilt_from_the_others(rt: HostRuntime) -> Result<(), Fail> {
    for geometry in [Geometry::Mirror, Geometry::Three, Geometry::Five] {
        rebuilt(&rt, rt.alloc(), geometry, 0, 1)?;
        rebuilt(&rt, rt.alloc(), geometry, 1, 0)?;
    }
    Ok(())
}

/// The call of a number fails in the first rows of a rebuild. They are done where the rebuilt member went, and refused where another
/// one did.
fn goes_at(
    rt: &impl Abort,
    alloc: Global,
    geometry: Geometry,
    most: u64,
    call: u64,
) -> Result<(), Fail> {
    let mut run = Run::new(rt, alloc, geometry, &[call], 30_000)?;
    run.lose(1);
    run.renew(rt, 1);
    let answer = run.rebuild(rt, 1, most);
    let gone = run.gone(rt, call);
    let wanted = if gone == 1 {
        Ok(most)
    } else {
        Err(Spent { sector: 0 })
    };
    let found = (answer, run.array.seat(gone));
    assert_eq!(rt; found, (wanted, Some(Seat::Missing)), "at {call}");
    Ok(())
}

/// A member goes at calls of so many rows of a rebuild, of which so many are between one and the next.
fn goes_in(
    rt: &impl Abort,
    alloc: Global,
    geometry: Geometry,
    most: u64,
    apart: usize,
) -> Result<(), Fail> {
    let mut run = Run::new(rt, alloc, geometry, &[], 30_000)?;
    run.lose(1);
    run.renew(rt, 1);
    assert_eq!(rt; run.rebuild(rt, 1, most), Ok(most));
    assert!(rt; apart > 0);
    for call in (0..run.calls()).step_by(apart) {
        goes_at(rt, alloc, geometry, most, call)?;
    }
    Ok(())
}

#[test]
fn a_member_may_go_at_any_call_of_its_rows(rt: HostRuntime) -> Result<(), Fail> {
    for geometry in [Geometry::Mirror, Geometry::Three] {
        goes_in(&rt, rt.alloc(), geometry, 1, 37)?;
        goes_in(&rt, rt.alloc(), geometry, 31, 1511)?;
    }
    Ok(())
}
