//! Tests of what no clause says: that calls succeed, and images of a small run.

ghost use Rattle.std.specs.Prelude.{◌<◌};

use crate::disks::{attach, bay, shelf, sync, write};
use rack::{AttachFault, Bay, Gone, Rack};
use rack_mem::{MemBay, Pick};
use std::alloc::Global;
use std::process::Abort;
use std::test::Fail;

// Writes a sector, syncs its disk and reads the sector back, through the bound.
fn round_trip<R: Rack>(rack: &mut R, value: &[u8; 512]) -> Result<[u8; 512], Gone>
    requires fit { (R.seen rack.old).fit }
    requires disk { 0 < (R.seen rack.old).disks }
    requires sector { 7 < (R.seen rack.old).sectors 0 }
{
    let mut back = [0; 512];
    rack.write(0, 7, value)?;
    rack.sync(0)?;
    rack.read(0, 7, &mut back)?;
    Ok(back)
}

#[test]
fn attaches_by_name(rt: HostRuntime) -> Result<(), Fail> {
    let mut bay = shelf(&rt, rt.alloc(), &[8, 8], &[], 0)?;
    let rows = [
        ("a", Ok(0)),
        ("c", Err(AttachFault::Failed)),
        ("a", Err(AttachFault::Twice { disk: 0 })),
        ("b", Ok(1)),
    ];
    for (name, answer) in rows {
        assert_eq!(rt; bay.attach(name), answer, "{name}");
    }
    assert!(rt; bay.disks() == 2);
    assert_eq!(rt; bay.sectors(1), 8);
    Ok(())
}

#[test]
fn reads_what_was_written(rt: HostRuntime) -> Result<(), Fail> {
    let mut bay = bay(&rt, rt.alloc(), &[8], 3)?;
    assert!(rt; 0 < bay.disks() && 7 < bay.sectors(0));
    let back = round_trip(&mut bay, &[5; 512]);
    assert_eq!(rt; (back, bay.calls()), (Ok([5; 512]), 3));
    Ok(())
}

#[test]
fn refuses_for_its_three_causes(rt: HostRuntime) -> Result<(), Fail> {
    let mut bay = shelf(&rt, rt.alloc(), &[8, 8], &[1], 4)?;
    attach(&rt, &mut bay, 1);
    assert!(rt; 0 < bay.disks());
    let gone = Err(Gone { disk: 0 });
    let before = [
        bay.write(0, 3, &[1; 512]),
        bay.write(0, 3, &[2; 512]),
        bay.sync(0),
    ];
    bay.fail_disk(0);
    let after = (bay.sync(0), bay.calls(), bay.sync(0), bay.calls());
    assert_eq!(rt; before, [Ok(()), gone, Ok(())]);
    assert_eq!(rt; after, (gone, 4, gone, 4));
    assert_eq!(rt; bay.sector_now(0, 3), [1; 512]);
    Ok(())
}

// What a stop leaves in the sectors 3 and 5 of the first disk.
fn sectors_at(
    rt: &impl Abort,
    alloc: Global,
    bay: &MemBay,
    moment: u64,
    pick: Pick,
) -> Result<[[u8; 512]; 2], Fail> {
    assert!(rt; moment <= bay.calls());
    let mut image = bay.image_at(alloc, moment, pick)?;
    attach(rt, &mut image, 1);
    Ok([image.sector_now(0, 3), image.sector_now(0, 5)])
}

#[test]
fn a_stop_leaves_each_held_value(rt: HostRuntime) -> Result<(), Fail> {
    let mut bay = bay(&rt, rt.alloc(), &[8], 9)?;
    assert_eq!(rt; write(&rt, &mut bay, 0, 3, &[1; 512]), Ok(()));
    assert_eq!(rt; sync(&rt, &mut bay, 0), Ok(()));
    for (sector, value) in [(3, 2), (5, 9), (3, 3)] {
        assert_eq!(rt; write(&rt, &mut bay, 0, sector, &[value; 512]), Ok(()));
    }
    let images = [
        (0, Pick::Newest, 0, 0),
        (1, Pick::Oldest, 0, 0),
        (1, Pick::Newest, 1, 0),
        (2, Pick::Oldest, 1, 0),
        (5, Pick::Oldest, 1, 0),
        (5, Pick::Newest, 3, 9),
        (5, Pick::Seeded { seed: 0 }, 1, 9),
        (5, Pick::Seeded { seed: 1 }, 2, 0),
        (5, Pick::Seeded { seed: 2 }, 3, 9),
        (5, Pick::Seeded { seed: u64::MAX }, 3, 0),
    ];
    for (moment, pick, third, fifth) in images {
        let found = sectors_at(&rt, rt.alloc(), &bay, moment, pick)?;
        assert_eq!(rt; found, [[third; 512], [fifth; 512]], "after {moment}");
    }
    let held = [3, 5, 0].map(|sector| bay.held_at(0, sector));
    assert_eq!(rt; held, [3, 2, 1]);
    assert_eq!(rt; sync(&rt, &mut bay, 0), Ok(()));
    assert_eq!(rt; bay.held_at(0, 3), 1);
    Ok(())
}
