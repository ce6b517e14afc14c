//! Changing a table, so that a stop leaves the old one or the new one.
#![tactic(auto)]

ghost use Rattle.std.specs.Prelude.{◌≡◌, ◌≤◌, ◌<◌, ◌+◌, ◌++◌, ◌^◌, length, filter, IfErr};
ghost use Rattle.gpt_table.specs.Format.{IsWritable};
ghost use Rattle.gpt_table.specs.Plans.{entries_plan, WritesSectors};
ghost use Rattle.gpt_table.specs.Changes.{is_below, is_above, with_entry, changed, ReplacesCopy, ChangesTable};

use crate::codec::{entries_sector, header_sector};
use crate::encoding::{encode_entries, encode_header};
use crate::writing::write_entries;
use crate::{ENTRIES, ENTRIES_BYTES, Entry, Table, TableCopy};
use arrayvec::ArrayVec;
use rack::{Gone, Rack, write_durably};

/// Writes the sectors of a copy's entries, and makes them durable.
fn write_entries_durably<R: Rack>(
    rack: &mut R,
    disk: u32,
    first: u64,
    bytes: &[u8; ENTRIES_BYTES],
) -> Result<(), Gone>
    requires fit { (R.seen rack.old).fit }
    requires disk { disk < (R.seen rack.old).disks }
    requires within { first + 32 ≤ (R.seen rack.old).sectors disk }
    requires bounded { first < 2 ^ 52 }
    ensures writes { WritesSectors (R.seen rack.old) (R.seen rack.new) disk (entries_plan first bytes.now) result }
    ensures runs { R.runs rack.old rack.new }
{
    if let Err(gone) = write_entries(rack, disk, first, bytes) {
        return Err(gone);
    }
    match rack.sync(disk) {
        Ok(()) => Ok(()),
        Err(gone) => Err(gone),
    }
}

/// Replaces one copy of a table. Its header is cleared first: a copy with old and new entries side by
/// side is never taken for a valid one, whatever their sums.
pub(crate) fn replace_copy<R: Rack>(
    rack: &mut R,
    disk: u32,
    copy: TableCopy,
    table: &Table,
) -> Result<(), Gone>
    requires fit { (R.seen rack.old).fit }
    requires disk { disk < (R.seen rack.old).disks }
    requires size { table.now.sectors ≡ (R.seen rack.old).sectors disk }
    requires writable { IsWritable table.now }
    ensures replaced { ReplacesCopy (R.seen rack.old) (R.seen rack.new) disk copy table.now result }
    ensures named { IfErr result (λ gone. gone.disk ≡ disk) }
    ensures runs { R.runs rack.old rack.new }
{
    let bytes = encode_entries(table);
    let header = encode_header(copy, table, &bytes);
    let sectors = rack.sectors(disk);
    let own = header_sector(copy, sectors);
    let first = entries_sector(copy, sectors);
    // A stop between this and the last write leaves this copy invalid, and the other one to go by.
    if let Err(gone) = write_durably(rack, disk, own, &[0; 512]) {
        return Err(gone);
    }
    if let Err(gone) = write_entries_durably(rack, disk, first, &bytes) {
        return Err(gone);
    }
    write_durably(rack, disk, own, &header)
}

/// Appends the entries below a number.
fn push_below(chosen: &mut ArrayVec<Entry, ENTRIES>, entries: &[Entry], number: u32)
    requires { length chosen.old.items + length (filter (is_below number) entries.now) ≤ 128 }
    ensures { chosen.new.items ≡ chosen.old.items ++ filter (is_below number) entries.now }
{
    for entry in entries {
        if entry.number < number {
            chosen.push(*entry);
        }
    }
}

/// Appends the entries above a number.
fn push_above(chosen: &mut ArrayVec<Entry, ENTRIES>, entries: &[Entry], number: u32)
    requires { length chosen.old.items + length (filter (is_above number) entries.now) ≤ 128 }
    ensures { chosen.new.items ≡ chosen.old.items ++ filter (is_above number) entries.now }
{
    for entry in entries {
        if number < entry.number {
            chosen.push(*entry);
        }
    }
}

/// The entries with this one in the place of its number.
fn with_entry(entries: &[Entry], entry: &Entry) -> ArrayVec<Entry, ENTRIES>
    requires { length (with_entry entry.now entries.now) ≤ 128 }
    ensures { result.items ≡ with_entry entry.now entries.now }
{
    let mut chosen = ArrayVec::new();
    push_below(&mut chosen, entries, entry.number);
    chosen.push(*entry);
    push_above(&mut chosen, entries, entry.number);
    chosen
}

/// Puts an entry in the place of its number, in `table` and in both copies, the backup first.
///
/// `table` is the table of both copies, and has the entry afterwards, whatever the answer. At every
/// moment the first valid copy says the old table or the new one; at `Ok` both copies are durable and
/// say the new one.
pub fn change_entry<R: Rack>(
    rack: &mut R,
    disk: u32,
    table: &mut Table,
    entry: &Entry,
) -> Result<(), Gone>
    requires fit { (R.seen rack.old).fit }
    requires disk { disk < (R.seen rack.old).disks }
    requires size { table.old.sectors ≡ (R.seen rack.old).sectors disk }
    requires writable { IsWritable (changed entry.now table.old) }
    ensures table { table.new ≡ changed entry.now table.old }
    ensures changes { ChangesTable (R.seen rack.old) (R.seen rack.new) disk table.old (changed entry.now table.old) result }
    ensures runs { R.runs rack.old rack.new }
{
    table.entries = with_entry(table.entries.as_slice(), entry);
    // A stop in it leaves the primary with the old table; one in the primary's turn leaves the backup with the new.
    if let Err(gone) = replace_copy(rack, disk, TableCopy::Backup, table) {
        return Err(gone);
    }
    replace_copy(rack, disk, TableCopy::Primary, table)
}
