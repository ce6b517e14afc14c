//! Tests of what no clause says: that calls succeed over a bay in memory, at the edges of a disk and in each slice.

ghost use Rattle.std.specs.Prelude.{◌<◌};
ghost use Rattle.slice_rack.specs.Sliced.{slices_of};
ghost use Rattle.slice_rack.specs.SliceRack.{tables, below_of};

use crate::disks::bay;
use rack::{Gone, Rack};
use slice_rack::{SliceFault, SliceRack};
use std::process::Abort;
use std::test::Fail;

// Makes a slice.
fn add<R: Rack>(
    slices: &mut SliceRack<R>,
    place: u32,
    slice: u32,
    first: u64,
    sectors: u64,
) -> Result<(), SliceFault>
    requires place { place < 16 }
    requires slice { slice < 17 }
    requires fit { (slices_of (tables slices.old) (R.seen (below_of slices.old))).fit }
    ensures { (slices_of (tables slices.new) (R.seen (below_of slices.new))).fit }
{
    slices.add_slice(place, slice, first, sectors)
}

#[test]
fn slices_at_the_edges_of_a_disk(rt: HostRuntime) -> Result<(), Fail> {
    let bay = bay(&rt, rt.alloc(), &[16], 99)?;
    assert!(rt; 0 < bay.disks());
    let mut slices = SliceRack::new(bay);
    let unseated = slices.add_slice(2, 0, 0, 4);
    slices.seat(2, 0);
    let seated = slices.seated(0);
    assert_eq!(rt; (unseated, seated), (Err(SliceFault::Unseated), Some(2)));
    let answers = [
        add(&mut slices, 2, 0, 13, 4),
        add(&mut slices, 2, 0, 12, 4),
        add(&mut slices, 2, 1, 9, 4),
        add(&mut slices, 2, 1, 8, 4),
    ];
    let wanted = [
        Err(SliceFault::Outside),
        Ok(()),
        Err(SliceFault::Overlap),
        Ok(()),
    ];
    assert_eq!(rt; answers, wanted);
    assert_eq!(rt; [slices.sectors(34), slices.sectors(36)], [4, 0]);
    Ok(())
}

// Writes the last sector of a disk, syncs the disk and reads the sector back, through the bound.
fn round_trip<R: Rack>(rack: &mut R, disk: u32, value: &[u8; 512]) -> Result<[u8; 512], Gone>
    requires fit { (R.seen rack.old).fit }
    requires disk { disk < (R.seen rack.old).disks }
    requires sector { 3 < (R.seen rack.old).sectors disk }
{
    let mut back = [0; 512];
    rack.write(disk, 3, value)?;
    rack.sync(disk)?;
    rack.read(disk, 3, &mut back)?;
    Ok(back)
}

#[test]
fn a_slice_is_a_disk(rt: HostRuntime) -> Result<(), Fail> {
    let bay = bay(&rt, rt.alloc(), &[16], 99)?;
    assert!(rt; 0 < bay.disks());
    let mut slices = SliceRack::new(bay);
    slices.seat(15, 0);
    assert_eq!(rt; add(&mut slices, 15, 16, 8, 4), Ok(()));
    assert!(rt; slices.sectors(271) == 4);
    let back = round_trip(&mut slices, 271, &[7; 512]);
    let below = slices.into_inner().sector_now(0, 11);
    assert_eq!(rt; (back, below), (Ok([7; 512]), [7; 512]));
    Ok(())
}

// Cuts the disk of a place into seventeen slices of two sectors.
fn cut<R: Rack>(rt: &impl Abort, slices: &mut SliceRack<R>, place: u32)
    requires place { place < 16 }
    requires fit { (slices_of (tables slices.old) (R.seen (below_of slices.old))).fit }
    ensures { (slices_of (tables slices.new) (R.seen (below_of slices.new))).fit }
{
    for slice in 0..17 {
        let added = add(slices, place, slice, 2 * u64::from(slice), 2);
        assert_eq!(rt; added, Ok(()));
    }
}

// Seats each disk at the place of its number, and cuts it.
fn cut_all<R: Rack>(rt: &impl Abort, slices: &mut SliceRack<R>)
    requires { (slices_of (tables slices.old) (R.seen (below_of slices.old))).fit }
    ensures { (slices_of (tables slices.new) (R.seen (below_of slices.new))).fit }
{
    for place in 0..16 {
        assert!(rt; place < slices.below().disks());
        assert_eq!(rt; slices.seated(place), None);
        slices.seat(place, place);
        cut(rt, slices, place);
    }
}

// Another value for each disk.
fn value_of(disk: u32) -> [u8; 512] {
    let mut value = [0x5a; 512];
    value[0] = (disk / 256 % 256) as u8;
    value[511] = (disk % 256) as u8;
    value
}

// Writes the last of two sectors of each disk, through the bound.
fn write_all<R: Rack>(rt: &impl Abort, rack: &mut R)
    requires { (R.seen rack.old).fit }
    ensures { (R.seen rack.new).fit }
{
    for disk in 0..272 {
        assert!(rt; disk < rack.disks() && rack.sectors(disk) == 2);
        assert_eq!(rt; rack.write(disk, 1, &value_of(disk)), Ok(()));
    }
}

// Reads them back.
fn read_all<R: Rack>(rt: &impl Abort, rack: &mut R)
    requires { (R.seen rack.old).fit }
{
    for disk in 0..272 {
        let mut value = [0; 512];
        assert!(rt; disk < rack.disks() && rack.sectors(disk) == 2);
        let answer = rack.read(disk, 1, &mut value);
        assert!(rt; (answer, value) == (Ok(()), value_of(disk)), "at {disk}");
    }
}

#[test]
fn sixteen_places_of_seventeen_slices(rt: HostRuntime) -> Result<(), Fail> {
    let bay = bay(&rt, rt.alloc(), &[34; 16], 999)?;
    let mut slices = SliceRack::new(bay);
    cut_all(&rt, &mut slices);
    write_all(&rt, &mut slices);
    read_all(&rt, &mut slices);
    Ok(())
}
