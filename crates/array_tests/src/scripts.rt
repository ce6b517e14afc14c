//! Scripts of writes, against a plain array of sectors.

use crate::geometries::Geometry;
use crate::runs::{Run, sector_of};
use std::alloc::Global;
use std::process::Abort;
use std::test::Fail;

/// The next number of a script, by Knuth's linear congruential generator.
fn next(number: u64) -> u64 {
    number
        .wrapping_mul(6364136223846793005)
        .wrapping_add(1442695040888963407)
}

/// Writes the values of a script to an array, and keeps them.
fn write_script(rt: &impl Abort, run: &mut Run, values: &mut [u64], writes: u32) {
    let mut number = 1;
    for _ in 0..writes {
        number = next(number);
        assert!(rt; !values.is_empty());
        let sector = (number >> 33) % (values.len() as u64);
        number = next(number);
        assert!(rt; run.write(rt, sector, number).is_ok(), "{sector}");
        values[sector as usize] = number;
    }
}

/// When the member of a place is lost.
#[derive(Clone, Copy, Debug, PartialEq, Eq)]
enum Loss {
    Never,
    Before(u32),
    After(u32),
}

/// Asserts that the first sectors of an array hold these values.
fn assert_holds(rt: &impl Abort, run: &mut Run, values: &[u64], loss: Loss) {
    for (sector, value) in values.iter().enumerate() {
        let wanted = sector_of(*value);
        assert!(rt;
            run.read(rt, sector as u64) == Ok(wanted),
            "{sector}, {loss:?}"
        );
    }
}

/// A script in the first rows of an array.
fn script(rt: &impl Abort, alloc: Global, geometry: Geometry, loss: Loss) -> Result<(), Fail> {
    let mut run = Run::new(rt, alloc, geometry, &[], 100_000)?;
    let mut values = vec![in alloc; 0u64; 256 * geometry.members() as usize]?;
    if let Loss::Before(place) = loss {
        run.lose(place);
    }
    write_script(rt, &mut run, values.as_mut_slice(), 40);
    if let Loss::After(place) = loss {
        run.lose(place);
    }
    assert_holds(rt, &mut run, values.as_slice(), loss);
    Ok(())
}

#[test]
fn an_array_holds_what_was_written(rt: HostRuntime) -> Result<(), Fail> {
    let geometries = [
        Geometry::Mirror,
        Geometry::Three,
        Geometry::Five,
        Geometry::Sixteen,
    ];
    for geometry in geometries {
        script(&rt, rt.alloc(), geometry, Loss::Never)?;
        for place in 0..geometry.members() {
            script(&rt, rt.alloc(), geometry, Loss::Before(place))?;
            script(&rt, rt.alloc(), geometry, Loss::After(place))?;
        }
    }
    Ok(())
}
