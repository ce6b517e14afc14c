//! Reading a record from its half of a log slice.

ghost use Rattle.std.specs.Prelude.{◌≡◌, ◌≤◌, ◌<◌, ◌+◌, ◌*◌, ◌==◌, ℕ, length, take, replicate, OnOk, IfOk, IfErr, MatchOption, ◌⊎◌, false};
ghost use Rattle.rack.specs.Seen.{Rose};
ghost use Rattle.rack.specs.Sequences.{OnlyReads};
ghost use Rattle.shr_base.specs.Blocks.{number_at, put_at};
ghost use Rattle.shr_base.specs.Crc.{crc32_of};
ghost use Rattle.log_laws.specs.Bytes.{record_bytes, sector_in, targets_in};

use crate::record::{HEAD, MOST};
use rack::{Gone, Rack};
use shr_base::crc32;
use shr_base::fields::{put_bytes, put_u32, u32_at};

/// Reads the sectors of a record from its half: at first the head, then as many as that says. Answers the count of
/// its targets, none where no record has so many.
pub(crate) fn read_record<R: Rack>(
    rack: &mut R,
    disk: u32,
    first: u64,
    bytes: &mut [u8],
) -> Result<Option<u32>, Gone>
    requires fit { (R.seen rack.old).fit }
    requires disk { disk < (R.seen rack.old).disks }
    requires half { first + 4092 ≤ (R.seen rack.old).sectors disk }
    requires first { first ≤ 4100 }
    requires long { length bytes.old ≡ record_bytes }
    ensures reads { OnlyReads (R.seen rack.old) (R.seen rack.new) }
    ensures gone { IfErr result (λ e. Rose ((R.seen rack.old).faults disk) ((R.seen rack.new).faults disk)) }
    ensures head { OnOk result ((R.seen rack.old).told disk → (k : ℕ) → k < 96 → sector_in bytes.new k ≡ ((R.seen rack.old).held disk (first + k)).current) }
    ensures unspent { OnOk result ((k : ℕ) → k < 96 → (R.seen rack.old).spent disk (first + k) ≡ false) }
    ensures all { IfOk result (λ count. MatchOption count (number_at 12 4 bytes.new ≡ 0 ⊎ 3996 < number_at 12 4 bytes.new) (λ n. (n ≡ number_at 12 4 bytes.new) × (1 ≤ n) × (n ≤ 3996) × ((R.seen rack.old).told disk → (k : ℕ) → k < 96 + n → sector_in bytes.new k ≡ ((R.seen rack.old).held disk (first + k)).current) × ((k : ℕ) → k < 96 + n → (R.seen rack.old).spent disk (first + k) ≡ false))) }
    ensures runs { R.runs rack.old rack.new }
{
    if let Err(gone) = read_sectors(rack, disk, first, bytes, 0, HEAD) {
        return Err(gone);
    }
    let count = u32_at(bytes, 12);
    if count == 0 || count > MOST {
        return Ok(None);
    }
    match read_sectors(rack, disk, first, bytes, HEAD, HEAD + count) {
        Ok(()) => Ok(Some(count)),
        Err(gone) => Err(gone),
    }
}

// Some sectors in a row.
fn read_sectors<R: Rack>(
    rack: &mut R,
    disk: u32,
    first: u64,
    bytes: &mut [u8],
    from: u32,
    until: u32,
) -> Result<(), Gone>
    requires fit { (R.seen rack.old).fit }
    requires disk { disk < (R.seen rack.old).disks }
    requires half { first + 4092 ≤ (R.seen rack.old).sectors disk }
    requires first { first ≤ 4100 }
    requires until { until ≤ 4092 }
    requires long { length bytes.old ≡ record_bytes }
    ensures reads { OnlyReads (R.seen rack.old) (R.seen rack.new) }
    ensures gone { IfErr result (λ e. Rose ((R.seen rack.old).faults disk) ((R.seen rack.new).faults disk)) }
    ensures read { OnOk result ((R.seen rack.old).told disk → (k : ℕ) → from ≤ k → k < until → sector_in bytes.new k ≡ ((R.seen rack.old).held disk (first + k)).current) }
    ensures unspent { OnOk result ((k : ℕ) → from ≤ k → k < until → (R.seen rack.old).spent disk (first + k) ≡ false) }
    ensures kept { (k : ℕ) → k < from → sector_in bytes.new k ≡ sector_in bytes.old k }
    ensures runs { R.runs rack.old rack.new }
{
    for at in from..until {
        let mut block = [0; 512];
        if let Err(gone) = rack.read(disk, first + u64::from(at), &mut block) {
            return Err(gone);
        }
        put_bytes(bytes, 512 * at as usize, &block);
    }
    Ok(())
}

/// Whether the sum in a record's head is that of all that is used. It takes the sum out.
pub(crate) fn take_sum(bytes: &mut [u8], count: u32) -> bool
    requires long { length bytes.old ≡ record_bytes }
    requires few { count ≤ 3996 }
    ensures sum { result ≡ (number_at 8 4 bytes.old == crc32_of (put_at 8 4 (replicate 4 0) (take (512 * (96 + count)) bytes.old))) }
    ensures targets { targets_in bytes.new count ≡ targets_in bytes.old count }
{
    let sum = u32_at(bytes, 8);
    put_u32(bytes, 8, 0);
    let used = 512 * (HEAD + count) as usize;
    sum == crc32(&bytes[..used])
}
