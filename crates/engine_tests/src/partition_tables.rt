//! Tests of what no clause says: that calls on a partition table succeed, and images of whole runs.

ghost use Rattle.std.specs.Prelude.{◌≡◌, ◌<◌};
ghost use Rattle.gpt_table.specs.declared.Table.{Table};
ghost use Rattle.gpt_table.specs.Format.{IsWritable};
ghost use Rattle.gpt_table.specs.Changes.{changed};

use crate::disks::{attach, bay, sync, write};
use arrayvec::ArrayVec;
use gpt_table::{
    Entry, Slice, Table, TableFault, change_entry, read_table, settle_table, write_whole,
};
use rack::{Gone, Rack};
use rack_mem::{MemBay, Pick};
use shr_base::Id;
use std::alloc::Global;
use std::process::Abort;
use std::test::Fail;

/// The picks by which each stop is looked at.
const PICKS: [Pick; 5] = [
    Pick::Oldest,
    Pick::Newest,
    Pick::Seeded { seed: 0 },
    Pick::Seeded { seed: 1 },
    Pick::Seeded { seed: 2 },
];

// A table without entries, of the smallest disk.
fn empty() -> Table
    ensures writable { IsWritable result }
    ensures size { result.sectors ≡ 67 }
{
    Table {
        disk_id: Id([7; 16]),
        sectors: 67,
        entries: ArrayVec::new(),
    }
}

// A slice of one sector.
fn entry() -> Entry
    ensures { (table : Table) → IsWritable table → table.sectors ≡ 67 → IsWritable (changed result table) }
{
    let slice = Slice {
        kind: Id([1; 16]),
        id: Id([2; 16]),
        first: 40,
        last: 40,
    };
    Entry { number: 2, slice }
}

// Writes a table to the first disk.
fn put(rt: &impl Abort, bay: &mut MemBay, table: &Table) -> Result<(), Gone>
    requires writable { IsWritable table.now }
    requires size { table.now.sectors ≡ 67 }
{
    assert!(rt; 0 < bay.disks() && bay.sectors(0) == 67);
    write_whole(bay, 0, table)
}

// Changes it there by the entry above.
fn change(rt: &impl Abort, bay: &mut MemBay, table: &mut Table) -> Result<(), Gone>
    requires writable { IsWritable table.old }
    requires size { table.old.sectors ≡ 67 }
{
    let entry = entry();
    assert!(rt; 0 < bay.disks() && bay.sectors(0) == 67);
    change_entry(bay, 0, table, &entry)
}

// The table of the first disk.
fn read(rt: &impl Abort, bay: &mut MemBay) -> Result<Table, TableFault> {
    assert!(rt; 0 < bay.disks());
    read_table(bay, 0).map(|seen| seen.table)
}

// Settles it.
fn settle(rt: &impl Abort, bay: &mut MemBay) -> Result<(), TableFault> {
    assert!(rt; 0 < bay.disks());
    settle_table(bay, 0)
}

// Asserts that a stop leaves one of two tables, for each pick.
fn assert_stop(
    rt: &impl Abort,
    alloc: Global,
    bay: &MemBay,
    moment: u64,
    tables: [&Table; 2],
) -> Result<(), Fail> {
    assert!(rt; moment <= bay.calls());
    for pick in PICKS {
        let mut image = bay.image_at(alloc, moment, pick)?;
        attach(rt, &mut image, 1);
        match read(rt, &mut image) {
            Ok(table) => assert!(rt; tables.contains(&&table), "at {moment}"),
            Err(fault) => panic!(rt; "{fault:?} at {moment}"),
        }
    }
    Ok(())
}

// Asserts so of the stops from a moment on.
fn assert_stops(
    rt: &impl Abort,
    alloc: Global,
    bay: &MemBay,
    start: u64,
    tables: [&Table; 2],
) -> Result<(), Fail> {
    for moment in start..bay.calls() + 1 {
        assert_stop(rt, alloc, bay, moment, tables)?;
    }
    Ok(())
}

#[test]
fn a_stop_leaves_the_old_table_or_the_new_one(rt: HostRuntime) -> Result<(), Fail> {
    let mut bay = bay(&rt, rt.alloc(), &[67], 400)?;
    let (old, mut new) = (empty(), empty());
    assert_eq!(rt; put(&rt, &mut bay, &old), Ok(()));
    let start = bay.calls();
    let answer = change(&rt, &mut bay, &mut new);
    assert_eq!(rt; (answer, new.entries.len()), (Ok(()), 1));
    assert_stops(&rt, rt.alloc(), &bay, start, [&old, &new])
}

#[test]
fn settling_leaves_the_table_at_every_stop(rt: HostRuntime) -> Result<(), Fail> {
    let table = empty();
    // the header of the primary, then that of the backup
    for spoiled in [1, 66] {
        let mut bay = bay(&rt, rt.alloc(), &[67], 400)?;
        let answers = [
            put(&rt, &mut bay, &table),
            write(&rt, &mut bay, 0, spoiled, &[0x55; 512]),
            sync(&rt, &mut bay, 0),
        ];
        assert_eq!(rt; answers, [Ok(()); 3]);
        let start = bay.calls();
        assert_eq!(rt; settle(&rt, &mut bay), Ok(()));
        assert_stops(&rt, rt.alloc(), &bay, start, [&table, &table])?;
        // now nothing has to be written: two copies are read
        let end = bay.calls();
        assert_eq!(rt; (settle(&rt, &mut bay), bay.calls()), (Ok(()), end + 66));
    }
    Ok(())
}

#[test]
fn a_small_disk_has_no_table(rt: HostRuntime) -> Result<(), Fail> {
    for sectors in [66, 67] {
        let mut bay = bay(&rt, rt.alloc(), &[sectors], 400)?;
        let answers = (read(&rt, &mut bay).err(), settle(&rt, &mut bay));
        assert_eq!(rt;
            answers,
            (Some(TableFault::NoTable), Err(TableFault::NoTable))
        );
    }
    Ok(())
}
