//! Both copies of a table: whether they agree, and settling them, so that both say that of the first valid one.
#![tactic(auto)]

ghost use Rattle.std.specs.Prelude.{◌≡◌, ◌≢◌, ◌≤◌, ◌<◌, ◌^◌, ◌↔◌, true, IfOk, IfSome, OnErr, None, Some, option_map};
ghost use Rattle.rack.specs.Seen.{Rose};
ghost use Rattle.rack.specs.Sequences.{OnlyReads};
ghost use Rattle.gpt_table.specs.Format.{IsWritable, IsWritableOn};
ghost use Rattle.gpt_table.specs.Calls.{Looks};
ghost use Rattle.gpt_table.specs.Disk.{AgreesUnspent, Contents, CopiesAgree, SaySame, now_on, table_at, first_of, first_table};
ghost use Rattle.gpt_table.specs.declared.TableCopy.TheVariants.{Primary, Backup};
ghost use Rattle.gpt_table.specs.Changes.{IsOfCopies, ReplacesCopy, Settles, SettlesTable, the_table};

use crate::changing::replace_copy;
use crate::reading::read_copy;
use crate::{Compared, FEWEST_SECTORS, Table, TableCopy, TableFault};
use rack::{Gone, Rack};

/// What the copies of a disk say, each where it is valid.
#[derive(Drop)]
struct Copies {
    primary: Option<Table>,
    backup: Option<Table>,
}

/// Reads both copies.
fn read_copies<R: Rack>(rack: &mut R, disk: u32, sectors: u64) -> Result<Copies, Gone>
    requires fit { (R.seen rack.old).fit }
    requires disk { disk < (R.seen rack.old).disks }
    requires size { sectors ≡ (R.seen rack.old).sectors disk }
    requires room { FEWEST_SECTORS ≤ sectors }
    requires bounded { sectors < 2 ^ 52 }
    ensures looks { Looks (R.seen rack.old) (R.seen rack.new) disk (IsOfCopies sectors) (λ found. (found.primary ≡ table_at Primary sectors (now_on (R.seen rack.old) disk)) × (found.backup ≡ table_at Backup sectors (now_on (R.seen rack.old) disk))) result }
    ensures primary { IfOk result (λ found. IfSome found.primary (λ table. IsWritableOn sectors table)) }
    ensures backup { IfOk result (λ found. IfSome found.backup (λ table. IsWritableOn sectors table)) }
    ensures runs { R.runs rack.old rack.new }
{
    let primary = match read_copy(rack, disk, TableCopy::Primary, sectors) {
        Ok(primary) => primary,
        Err(gone) => return Err(gone),
    };
    match read_copy(rack, disk, TableCopy::Backup, sectors) {
        Ok(backup) => Ok(Copies { primary, backup }),
        Err(gone) => Err(gone),
    }
}

/// Whether two tables say the same.
fn are_same(first: &Table, second: &Table) -> bool
    ensures { result ≡ true ↔ first.now ≡ second.now }
{
    first == second
}

/// What two copies say: the table of the first valid one, and whether both say it.
fn compared(copies: Copies) -> Result<Compared, TableFault>
    ensures first { IfOk result (λ found. option_map (λ seen. seen.table) (first_of copies.primary copies.backup) ≡ Some found.table) }
    ensures none { OnErr result (option_map (λ seen. seen.table) (first_of copies.primary copies.backup) ≡ None) }
    ensures fault { result ≢ Err TableFault.Gone }
    ensures agree { IfOk result (λ found. (found.agree ≡ true) ↔ SaySame copies.primary copies.backup) }
{
    match (copies.primary, copies.backup) {
        (Some(table), Some(backup)) => {
            let agree = are_same(&table, &backup);
            Ok(Compared { table, agree })
        }
        (Some(table), None) | (None, Some(table)) => Ok(Compared {
            table,
            agree: false,
        }),
        (None, None) => Err(TableFault::NoTable),
    }
}

/// The table of a disk, and whether both copies say it. Each sector of both is read once.
///
/// A refused read is `Gone`, whichever copy it was for.
pub fn compare_copies<R: Rack>(rack: &mut R, disk: u32) -> Result<Compared, TableFault>
    requires fit { (R.seen rack.old).fit }
    requires disk { disk < (R.seen rack.old).disks }
    ensures only { OnlyReads (R.seen rack.old) (R.seen rack.new) }
    // Spent sectors have no part in it.
    ensures table { IfOk result (λ found. (R.seen rack.old).told disk → (contents : Contents) → AgreesUnspent (R.seen rack.old) disk contents
        → the_table ((R.seen rack.old).sectors disk) contents ≡ Some found.table) }
    ensures agree { IfOk result (λ found. (R.seen rack.old).told disk → (contents : Contents) → AgreesUnspent (R.seen rack.old) disk contents
        → (found.agree ≡ true) ↔ CopiesAgree ((R.seen rack.old).sectors disk) contents) }
    ensures writable { IfOk result (λ found. IsWritableOn ((R.seen rack.old).sectors disk) found.table) }
    ensures none { result ≡ Err TableFault.NoTable → (R.seen rack.old).told disk → (contents : Contents) → AgreesUnspent (R.seen rack.old) disk contents
        → the_table ((R.seen rack.old).sectors disk) contents ≡ None }
    ensures gone { result ≡ Err TableFault.Gone → Rose ((R.seen rack.old).faults disk) ((R.seen rack.new).faults disk) }
    ensures runs { R.runs rack.old rack.new }
{
    let sectors = rack.sectors(disk);
    if sectors < FEWEST_SECTORS {
        return Err(TableFault::NoTable);
    }
    let copies = match read_copies(rack, disk, sectors) {
        Ok(copies) => copies,
        Err(_) => return Err(TableFault::Gone),
    };
    compared(copies)
}

/// Replaces the copy that doesn't say what the first valid one says.
fn replace_stale<R: Rack>(
    rack: &mut R,
    disk: u32,
    copy: TableCopy,
    table: &Table,
) -> Result<(), TableFault>
    requires fit { (R.seen rack.old).fit }
    requires disk { disk < (R.seen rack.old).disks }
    requires writable { IsWritableOn ((R.seen rack.old).sectors disk) table.now }
    ensures replaced { ReplacesCopy (R.seen rack.old) (R.seen rack.new) disk copy table.now result }
    ensures cause { result ≢ Err TableFault.NoTable }
    ensures runs { R.runs rack.old rack.new }
{
    match replace_copy(rack, disk, copy, table) {
        Ok(()) => Ok(()),
        Err(_) => Err(TableFault::Gone),
    }
}

/// Writes what the first valid copy says over the other one, unless it says the same.
fn settle_copies<R: Rack>(rack: &mut R, disk: u32, copies: &Copies) -> Result<(), TableFault>
    requires fit { (R.seen rack.old).fit }
    requires disk { disk < (R.seen rack.old).disks }
    requires primary { IfSome copies.now.primary (λ table. IsWritableOn ((R.seen rack.old).sectors disk) table) }
    requires backup { IfSome copies.now.backup (λ table. IsWritableOn ((R.seen rack.old).sectors disk) table) }
    ensures settles { Settles (R.seen rack.old) (R.seen rack.new) disk copies.now.primary copies.now.backup result }
    ensures runs { R.runs rack.old rack.new }
{
    let Some(primary) = &copies.primary else {
        return match &copies.backup {
            Some(backup) => replace_stale(rack, disk, TableCopy::Primary, backup),
            None => Err(TableFault::NoTable),
        };
    };
    if let Some(backup) = &copies.backup {
        if are_same(primary, backup) {
            return Ok(());
        }
    }
    // The first valid copy isn't touched: after a stop amid the other one the table is read from it.
    replace_stale(rack, disk, TableCopy::Backup, primary)
}

/// Writes the first valid copy over the other one where they differ.
///
/// At every moment the first valid copy says the same table, where each sector of both copies had one
/// held value at the call; at `Ok` both copies say it. The copy that is written has no attributes and
/// no names. A refused read is `Gone`, whichever copy it was for.
pub fn settle_table<R: Rack>(rack: &mut R, disk: u32) -> Result<(), TableFault>
    requires fit { (R.seen rack.old).fit }
    requires disk { disk < (R.seen rack.old).disks }
    ensures settles { SettlesTable (R.seen rack.old) (R.seen rack.new) disk ((R.seen rack.old).sectors disk) result }
    ensures none { result ≡ Err TableFault.NoTable → (R.seen rack.old).told disk → first_table ((R.seen rack.old).sectors disk) (now_on (R.seen rack.old) disk) ≡ None }
    ensures gone { result ≡ Err TableFault.Gone → Rose ((R.seen rack.old).faults disk) ((R.seen rack.new).faults disk) }
    ensures runs { R.runs rack.old rack.new }
{
    let sectors = rack.sectors(disk);
    if sectors < FEWEST_SECTORS {
        return Err(TableFault::NoTable);
    }
    let copies = match read_copies(rack, disk, sectors) {
        Ok(copies) => copies,
        Err(_) => return Err(TableFault::Gone),
    };
    settle_copies(rack, disk, &copies)
}
