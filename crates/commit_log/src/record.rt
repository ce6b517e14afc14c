//! A record: the targets of a commit and their payloads, as the bytes of its sectors.

ghost use Rattle.std.specs.Prelude.{◌≡◌, ◌<◌, ◌≤◌, ◌+◌, ◌*◌, ◌^◌, ◌++◌, ◌∷◌, [], length, IfOk, MatchOption, Some, None, take, replicate, nat_lt, not, ◌==◌, ◌&&◌, ◌||◌, true, false, if◌then◌else◌, codes, bytes_eq, IfErr, OnErr, ℕ, List};
ghost use Rattle.std.specs.List.{list_all, list_any};
ghost use Rattle.rack.specs.Seen.{Rose};
ghost use Rattle.rack.specs.Sequences.{OnlyReads};
ghost use Rattle.array_image.specs.Places.{slice_of, log_sectors};
ghost use Rattle.array_image.specs.Record.{is_target, are_apart, record_of};
ghost use Rattle.shr_base.specs.Blocks.{put_at, bytes_at, number_at};
ghost use Rattle.rack.specs.Targets.{target, look, is_at};
ghost use Rattle.log_laws.specs.Bytes.{targets_in, target_in, sector_in, IsSealed, record_bytes, passes};
ghost use Rattle.log_laws.specs.Phases.{has_target};
ghost use Rattle.commit_log.specs.Scans.{Agrees};
ghost use Rattle.commit_log.specs.Slices.{is_in};

use crate::gates::begins_with;
use crate::loading::{read_record, take_sum};
use crate::log::half;
use crate::slices::Slices;
use rack::{Gone, NoMemory, Rack};
use shr_base::crc32;
use shr_base::fields::{put_bytes, put_u32, put_u64, u32_at, u64_at};
use std::alloc::Global;

/// Bytes of a sector.
const SECTOR: usize = 512;

/// Sectors of a record's head: its fields and the table of its targets.
pub(crate) const HEAD: u32 = 96;

/// The most targets of a record.
pub(crate) const MOST: u32 = 3996;

/// Bytes of the longest record.
const BYTES: usize = 2_095_104;

/// The first word of a record.
const WORD: [u8; 8] = *b"SHRBODY1";

/// Room for one record.
#[derive(Drop)]
pub(crate) struct Record {
    bytes: Vec<u8>,
    count: u32,
    ghost sized: { length bytes.items ≡ record_bytes },
    ghost counted: { count ≤ 3996 },
}

impl Record {
    /// Room for a record, with no targets.
    #[tactic(auto, using(log_laws::proofs::Targets::no_targets))]
    pub(crate) fn make(alloc: Global) -> Result<Record, NoMemory>
        ensures { IfOk result (λ r. targets_in r.bytes.items r.count ≡ []) }
    {
        match vec![in alloc; 0u8; BYTES] {
            Ok(bytes) => Ok(Record { bytes, count: 0 }),
            Err(_) => Err(NoMemory),
        }
    }

    /// How many targets it has.
    #[tactic(auto, using(log_laws::proofs::Targets::length_targets))]
    pub(crate) fn count(&self) -> u32
        ensures count { result ≡ self.now.count }
        ensures length { result ≡ length (targets_in self.now.bytes.items self.now.count) }
    {
        self.count
    }

    /// No targets any more.
    #[tactic(auto, using(log_laws::proofs::Targets::no_targets))]
    pub(crate) fn clear(&mut self)
        ensures { targets_in self.new.bytes.items self.new.count ≡ [] }
    {
        let is_used = self.count > 0;
        self.count = 0;
        // Each write of a sector begins with a record that nothing was added to: its head has zeros.
        if is_used {
            put_zeros(self.bytes.as_mut_slice());
        }
    }

    /// No targets any more, unless it is whole.
    pub(crate) fn keep_if(&mut self, whole: bool)
        ensures { targets_in self.new.bytes.items self.new.count ≡ (if whole then targets_in self.old.bytes.items self.old.count else []) }
    {
        if !whole {
            self.clear();
        }
    }

    /// Adds a target and its payload.
    #[tactic(auto, using(log_laws::proofs::Targets::length_targets))]
    pub(crate) fn add(&mut self, disk: u32, sector: u64, from: &[u8; 512])
        requires { length (targets_in self.old.bytes.items self.old.count) < 3996 }
        ensures { targets_in self.new.bytes.items self.new.count ≡ targets_in self.old.bytes.items self.old.count ++ target disk sector from.now ∷ [] }
    {
        let at = self.count as usize;
        put_target(self.bytes.as_mut_slice(), at, disk, sector, from);
        self.count += 1;
    }

    /// The slice and the sector of a target.
    pub(crate) fn target(&self, at: u32) -> (u32, u64)
        requires { at < self.now.count }
        ensures disk { result.0 ≡ (target_in self.now.bytes.items at).disk }
        ensures sector { result.1 ≡ (target_in self.now.bytes.items at).sector }
    {
        let bytes = self.bytes.as_slice();
        let field = 12 * at as usize;
        (u32_at(bytes, 64 + field), u64_at(bytes, 68 + field))
    }

    /// Reads the record of a number from its half of a log slice, and answers whether it is well formed. There are
    /// no targets where it isn't, or where the disk has answered `Gone`.
    #[tactic(auto, using(log_laws::proofs::Targets::no_targets))]
    pub(crate) fn load<R: Rack>(
        &mut self,
        rack: &mut R,
        disk: u32,
        number: u64,
    ) -> Result<bool, Gone>
        requires fit { (R.seen rack.old).fit }
        requires disk { disk < (R.seen rack.old).disks }
        requires slice { (R.seen rack.old).sectors disk ≡ log_sectors }
        ensures reads { OnlyReads (R.seen rack.old) (R.seen rack.new) }
        ensures gone { IfErr result (λ e. Rose ((R.seen rack.old).faults disk) ((R.seen rack.new).faults disk)) }
        ensures ok { IfOk result (λ whole. (R.seen rack.old).told disk → (slice : ℕ → List ℕ) → Agrees (R.seen rack.old) disk slice → record_of number slice ≡ (if whole then Some (targets_in self.new.bytes.items self.new.count) else None)) }
        ensures none { IfOk result (λ whole. whole ≡ false → targets_in self.new.bytes.items self.new.count ≡ []) }
        ensures empty { OnErr result (targets_in self.new.bytes.items self.new.count ≡ []) }
        ensures runs { R.runs rack.old rack.new }
    {
        self.count = 0;
        match read_record(rack, disk, half(number), self.bytes.as_mut_slice()) {
            Ok(Some(count)) => {
                self.count = count;
                Ok(self.check(number))
            }
            Ok(None) => Ok(false),
            Err(gone) => Err(gone),
        }
    }

    // Whether what was read is the record of a number. There are no targets where it isn't.
    #[tactic(auto, using(log_laws::proofs::Targets::no_targets))]
    fn check(&mut self, number: u64) -> bool
        ensures passes { result ≡ passes number self.old.count self.old.bytes.items }
        ensures kept { result ≡ true → targets_in self.new.bytes.items self.new.count ≡ targets_in self.old.bytes.items self.old.count }
        ensures none { result ≡ false → targets_in self.new.bytes.items self.new.count ≡ [] }
    {
        let begins = self.begins(number);
        let summed = take_sum(self.bytes.as_mut_slice(), self.count);
        if begins && summed && self.are_valid() && self.are_apart() {
            return true;
        }
        self.count = 0;
        false
    }

    // Whether the head has the first word of a record, and this number.
    fn begins(&self, number: u64) -> bool
        ensures { result ≡ (bytes_eq (bytes_at 0 8 self.now.bytes.items) (codes "SHRBODY1") && (number_at 16 8 self.now.bytes.items == number)) }
    {
        let bytes = self.bytes.as_slice();
        begins_with(bytes, &WORD) && u64_at(bytes, 16) == number
    }

    /// Whether each target is one that a record may have: of a slice, and of a log slice the first sector alone.
    pub(crate) fn are_valid(&self) -> bool
        ensures { result ≡ list_all is_target (targets_in self.now.bytes.items self.now.count) }
    {
        for at in 0..self.count {
            let (disk, sector) = self.target(at);
            if !is_valid(disk, sector) {
                return false;
            }
        }
        true
    }

    /// Whether no sector has two targets.
    pub(crate) fn are_apart(&self) -> bool
        ensures { result ≡ are_apart (targets_in self.now.bytes.items self.now.count) }
    {
        for at in 0..self.count {
            if self.is_before(at) {
                return false;
            }
        }
        true
    }

    // Whether a target before this one has its sector.
    fn is_before(&self, at: u32) -> bool
        requires { at < self.now.count }
        ensures { let t = target_in self.now.bytes.items at in result ≡ list_any (is_at t.disk t.sector) (targets_in self.now.bytes.items at) }
    {
        let target = self.target(at);
        for before in 0..at {
            if self.target(before) == target {
                return true;
            }
        }
        false
    }

    /// The slices that have a target.
    pub(crate) fn slices(&self) -> Slices
        ensures { (d : ℕ) → d < 272 → is_in result.flags d ≡ has_target (targets_in self.now.bytes.items self.now.count) d }
    {
        let mut slices = Slices::none();
        for at in 0..self.count {
            let (disk, _) = self.target(at);
            slices.add(disk);
        }
        slices
    }

    /// The payload for a sector: that of its last target.
    pub(crate) fn payload(&self, disk: u32, sector: u64) -> Option<&[u8; 512]>
        ensures { MatchOption result (look (targets_in self.now.bytes.items self.now.count) disk sector ≡ None) (λ p. look (targets_in self.now.bytes.items self.now.count) disk sector ≡ Some p.now) }
    {
        let mut at = self.count;
        while at > 0 {
            at -= 1;
            if self.target(at) == (disk, sector) {
                return Some(self.sector(HEAD + at));
            }
        }
        None
    }

    /// A sector of it.
    pub(crate) fn sector(&self, at: u32) -> &[u8; 512]
        requires { at < 4092 }
        ensures { result.now ≡ sector_in self.now.bytes.items at }
    {
        let (sectors, _) = self.bytes.as_slice().as_chunks::<512>();
        &sectors[at as usize]
    }

    /// Writes the fields of the head, so that it is the record of a number.
    #[tactic(auto, using(log_laws::proofs::Targets::length_targets))]
    pub(crate) fn seal(&mut self, number: u64)
        requires { 0 < length (targets_in self.old.bytes.items self.old.count) }
        ensures count { self.new.count ≡ self.old.count }
        ensures targets { targets_in self.new.bytes.items self.new.count ≡ targets_in self.old.bytes.items self.old.count }
        ensures sealed { IsSealed number self.new.count self.new.bytes.items }
    {
        put_head(self.bytes.as_mut_slice(), number, self.count);
    }
}

// A slice's sector that a record may write.
fn is_valid(disk: u32, sector: u64) -> bool
    ensures { result ≡ (nat_lt disk 272 && (not (slice_of disk == 0) || (sector == 0))) }
{
    disk < 272 && (disk % 17 != 0 || sector == 0)
}

// The head without targets.
fn put_zeros(bytes: &mut [u8])
    requires { length bytes.old ≡ record_bytes }
{
    for at in 0..SECTOR * HEAD as usize {
        bytes[at] = 0;
    }
}

// A target in the table, and its payload.
fn put_target(bytes: &mut [u8], at: usize, disk: u32, sector: u64, from: &[u8; 512])
    requires long { length bytes.old ≡ record_bytes }
    requires room { at < 3996 }
    ensures targets { targets_in bytes.new (at + 1) ≡ targets_in bytes.old at ++ target disk sector from.now ∷ [] }
{
    put_u32(bytes, 64 + 12 * at, disk);
    put_u64(bytes, 68 + 12 * at, sector);
    put_bytes(bytes, SECTOR * (HEAD as usize + at), from);
}

// The fields of the head, and then the sum over all that is used.
fn put_head(bytes: &mut [u8], number: u64, count: u32)
    requires long { length bytes.old ≡ record_bytes }
    requires some { 0 < count }
    requires few { count ≤ 3996 }
    ensures targets { targets_in bytes.new count ≡ targets_in bytes.old count }
    ensures sealed { IsSealed number count bytes.new }
{
    put_bytes(bytes, 0, &WORD);
    put_u32(bytes, 8, 0);
    put_u32(bytes, 12, count);
    put_u64(bytes, 16, number);
    let used = SECTOR * (HEAD + count) as usize;
    let sum = crc32(&bytes[..used]);
    put_u32(bytes, 8, sum);
}
