//! How many calls of its members an array makes.

use crate::geometries::Geometry;
use crate::runs::Run;
use std::alloc::Global;
use std::process::Abort;
use std::test::Fail;

/// The calls of a whole array so far, after a write, after another one, and after a read.
fn calls_whole(rt: &impl Abort, alloc: Global, geometry: Geometry) -> Result<[u64; 3], Fail> {
    let mut run = Run::new(rt, alloc, geometry, &[], 100)?;
    let first = (run.write(rt, 0, 7).is_ok(), run.calls());
    let second = (run.write(rt, 200, 8).is_ok(), run.calls());
    let third = (run.read(rt, 200).is_ok(), run.calls());
    assert!(rt; first.0 && second.0 && third.0);
    Ok([first.1, second.1, third.1])
}

#[test]
fn no_more_calls_than_members(rt: HostRuntime) -> Result<(), Fail> {
    // A superblock is written and synced on each member first, and once. A write has two calls or four, and a read one.
    let rows = [
        (Geometry::Mirror, [4 + 2, 6 + 2, 8 + 1]),
        (Geometry::Three, [6 + 4, 10 + 4, 14 + 1]),
        (Geometry::Five, [10 + 4, 14 + 4, 18 + 1]),
        (Geometry::Sixteen, [32 + 4, 36 + 4, 40 + 1]),
    ];
    for (geometry, calls) in rows {
        let made = calls_whole(&rt, rt.alloc(), geometry)?;
        assert_eq!(rt; made, calls, "{geometry:?}");
    }
    Ok(())
}

#[test]
fn a_missing_member_is_read_from_the_others(rt: HostRuntime) -> Result<(), Fail> {
    // Chunk 1 is on place 1.
    let rows = [
        (Geometry::Mirror, 1),
        (Geometry::Three, 2),
        (Geometry::Five, 4),
        (Geometry::Sixteen, 15),
    ];
    for (geometry, reads) in rows {
        let mut run = Run::new(&rt, rt.alloc(), geometry, &[], 100)?;
        run.lose(1);
        let read = (run.read(&rt, 200).is_ok(), run.calls());
        assert_eq!(rt; read, (true, reads), "{geometry:?}");
    }
    Ok(())
}
