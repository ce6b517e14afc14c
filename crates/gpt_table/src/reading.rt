//! Reading a table from a disk. No field is trusted before it was checked.
#![tactic(auto)]

ghost use Rattle.std.specs.Prelude.{◌≡◌, ◌≢◌, ◌≤◌, ◌<◌, ◌+◌, ◌*◌, ◌^◌, ℕ, List, length, OnOk, IfOk, IfSome, None};
ghost use Rattle.rack.specs.Seen.{Rose};
ghost use Rattle.rack.specs.Sequences.{OnlyReads};
ghost use Rattle.gpt_table.specs.Calls.{Looks};
ghost use Rattle.gpt_table.specs.Format.{IsWritableOn};
ghost use Rattle.gpt_table.specs.Disk.{IsAmong, IsOfCopy, table_at, first_table, entries_bytes, now_on, Contents, AgreesUnspent};

use crate::codec::{decode, entries_sector, header_sector};
use crate::{ENTRIES_BYTES, FEWEST_SECTORS, Seen, Table, TableCopy, TableFault};
use rack::{Gone, Rack};
use shr_base::fields::put_bytes;

/// The sectors of the entries of one copy.
const ENTRIES_SECTORS: usize = 32;

/// Reads the sectors of a copy's entries.
fn read_entries<R: Rack>(rack: &mut R, disk: u32, first: u64) -> Result<[u8; ENTRIES_BYTES], Gone>
    requires fit { (R.seen rack.old).fit }
    requires disk { disk < (R.seen rack.old).disks }
    requires within { first + ENTRIES_SECTORS ≤ (R.seen rack.old).sectors disk }
    requires bounded { first < 2 ^ 52 }
    ensures looks { Looks (R.seen rack.old) (R.seen rack.new) disk (IsAmong first 32) (λ (bytes : List ℕ). bytes ≡ entries_bytes (now_on (R.seen rack.old) disk) first) result }
    ensures runs { R.runs rack.old rack.new }
{
    let mut bytes = [0; ENTRIES_BYTES];
    for place in 0..ENTRIES_SECTORS {
        let mut sector = [0; 512];
        if let Err(gone) = rack.read(disk, first + place as u64, &mut sector) {
            return Err(gone);
        }
        put_bytes(&mut bytes, 512 * place, &sector);
    }
    Ok(bytes)
}

/// Reads one copy, and gives its table if it is valid.
pub(crate) fn read_copy<R: Rack>(
    rack: &mut R,
    disk: u32,
    copy: TableCopy,
    sectors: u64,
) -> Result<Option<Table>, Gone>
    requires fit { (R.seen rack.old).fit }
    requires disk { disk < (R.seen rack.old).disks }
    requires size { sectors ≡ (R.seen rack.old).sectors disk }
    requires room { FEWEST_SECTORS ≤ sectors }
    requires bounded { sectors < 2 ^ 52 }
    ensures looks { Looks (R.seen rack.old) (R.seen rack.new) disk (IsOfCopy copy sectors) (λ table. table ≡ table_at copy sectors (now_on (R.seen rack.old) disk)) result }
    ensures writable { IfOk result (λ found. IfSome found (λ table. IsWritableOn sectors table)) }
    ensures runs { R.runs rack.old rack.new }
{
    let mut header = [0; 512];
    if let Err(gone) = rack.read(disk, header_sector(copy, sectors), &mut header) {
        return Err(gone);
    }
    match read_entries(rack, disk, entries_sector(copy, sectors)) {
        Ok(entries) => Ok(decode(copy, sectors, &header, &entries)),
        Err(gone) => Err(gone),
    }
}

/// The table of a disk: that of its first valid copy, the primary before the backup.
///
/// A refused read is `Gone`, whichever copy it was for: what a copy holds that can't be read, and so
/// which valid copy is the first, isn't known.
pub fn read_table<R: Rack>(rack: &mut R, disk: u32) -> Result<Seen, TableFault>
    requires fit { (R.seen rack.old).fit }
    requires disk { disk < (R.seen rack.old).disks }
    ensures only { OnlyReads (R.seen rack.old) (R.seen rack.new) }
    ensures table { IfOk result (λ found. (R.seen rack.old).told disk → Some found ≡ first_table ((R.seen rack.old).sectors disk) (now_on (R.seen rack.old) disk)) }
    ensures writable { IfOk result (λ found. IsWritableOn ((R.seen rack.old).sectors disk) found.table) }
    // Spent sectors have no part in it.
    ensures unspent { result ≢ Err TableFault.Gone → (R.seen rack.old).told disk → (contents : Contents) → AgreesUnspent (R.seen rack.old) disk contents
        → first_table ((R.seen rack.old).sectors disk) contents ≡ first_table ((R.seen rack.old).sectors disk) (now_on (R.seen rack.old) disk) }
    ensures none { result ≡ Err TableFault.NoTable → (R.seen rack.old).told disk → first_table ((R.seen rack.old).sectors disk) (now_on (R.seen rack.old) disk) ≡ None }
    ensures gone { result ≡ Err TableFault.Gone → Rose ((R.seen rack.old).faults disk) ((R.seen rack.new).faults disk) }
    ensures runs { R.runs rack.old rack.new }
{
    let sectors = rack.sectors(disk);
    if sectors < FEWEST_SECTORS {
        return Err(TableFault::NoTable);
    }
    match first_copy(rack, disk, sectors) {
        Ok(Some(found)) => Ok(found),
        Ok(None) => Err(TableFault::NoTable),
        Err(_) => Err(TableFault::Gone),
    }
}

/// The table of the first valid copy, on a disk that has room for both.
fn first_copy<R: Rack>(rack: &mut R, disk: u32, sectors: u64) -> Result<Option<Seen>, Gone>
    requires fit { (R.seen rack.old).fit }
    requires disk { disk < (R.seen rack.old).disks }
    requires size { sectors ≡ (R.seen rack.old).sectors disk }
    requires room { FEWEST_SECTORS ≤ sectors }
    requires bounded { sectors < 2 ^ 52 }
    ensures looks { Looks (R.seen rack.old) (R.seen rack.new) disk (λ sector. ⊥) (λ found. found ≡ first_table sectors (now_on (R.seen rack.old) disk)) result }
    ensures unspent { OnOk result ((R.seen rack.old).told disk → (contents : Contents) → AgreesUnspent (R.seen rack.old) disk contents → first_table sectors contents ≡ first_table sectors (now_on (R.seen rack.old) disk)) }
    ensures writable { IfOk result (λ found. IfSome found (λ seen. IsWritableOn sectors seen.table)) }
    ensures runs { R.runs rack.old rack.new }
{
    match read_copy(rack, disk, TableCopy::Primary, sectors) {
        Ok(None) => {}
        Ok(Some(table)) => {
            let copy = TableCopy::Primary;
            return Ok(Some(Seen { table, copy }));
        }
        Err(gone) => return Err(gone),
    }
    match read_copy(rack, disk, TableCopy::Backup, sectors) {
        Ok(None) => Ok(None),
        Ok(Some(table)) => {
            let copy = TableCopy::Backup;
            Ok(Some(Seen { table, copy }))
        }
        Err(gone) => Err(gone),
    }
}
