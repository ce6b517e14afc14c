//! The log of a pool, and its calls.

ghost use Rattle.std.specs.Prelude.{◌≡◌, ◌<◌, ◌-◌, ◌++◌, ◌∷◌, [], ℕ, List, length, IfOk, true, false, MatchOption, Some, None, option_map, slice_get};
ghost use Rattle.std.specs.List.{list_all};
ghost use Rattle.rack.specs.Targets.{target, look};
ghost use Rattle.array_image.specs.Record.{is_target, are_apart, half_of};
ghost use Rattle.log_laws.specs.View.{LogView, new_log, emptied, committed, settled, next_number, most_sectors, payload_of};
ghost use Rattle.log_laws.specs.Bytes.{targets_in};
ghost use Rattle.log_laws.specs.Phases.{AreLogs, IsHad, Settles, IsLogOf, went};
ghost use Rattle.log_laws.specs.Commits.{CommitCall};
ghost use Rattle.log_laws.specs.Opening.{PendingCall, ReplayCall, HasWork, IsShut};

use crate::gates::Gate;
use crate::lost::Lost;
use crate::record::{HEAD, MOST, Record};
use crate::scan::Scan;
use crate::writing::{close_gates, settle_each, settle_record, settle_targets};
use rack::{NoMemory, Places, Rack};
use std::alloc::Global;
use std::marker::Model;

/// Where the gate stands in a log slice.
pub(crate) const GATE: u64 = 1;

/// Numbers of commits end here.
const LAST_NUMBER: u64 = 0x7fff_ffff_ffff_ffff;

/// A sector of a slice that a record writes.
#[derive(Clone, Copy, Debug, PartialEq, Eq)]
pub struct Target {
    /// The slice, `17 * place + slice`.
    pub disk: u32,
    /// Its sector.
    pub sector: u64,
}

/// What looking for a pending record found.
#[derive(Drop)]
pub struct Looked {
    /// Whether a record is pending.
    pub pending: bool,
    /// The lowest place whose gate isn't well formed, or whose record isn't where it is read from there.
    pub damaged: Option<u32>,
    /// The places that went.
    pub gone: Places,
}

/// The commit log of a pool: room for a record to be committed, and for one that is pending.
#[derive(Drop)]
pub struct Log {
    number: u64,
    added: Record,
    pending: Record,
    lent: bool,
    opened: bool,
}

impl Model for Log {
    ghost Value = { LogView };

    ghost view = { λ log. record {
      number = log.number;
      added = targets_in log.added.bytes.items log.added.count;
      pending = targets_in log.pending.bytes.items log.pending.count;
      is_lent = log.lent;
      is_open = log.opened;
    } };
}

impl Log {
    /// A log of a new pool.
    pub fn make(alloc: Global) -> Result<Log, NoMemory>
        ensures { IfOk result (λ log. log ≡ new_log) }
    {
        Ok(Log {
            number: 0,
            added: Record::make(alloc)?,
            pending: Record::make(alloc)?,
            lent: false,
            opened: false,
        })
    }

    /// The greatest number of a commit that it has seen or made.
    pub fn number(&self) -> u64
        ensures { result ≡ self.now.number }
    {
        self.number
    }

    /// Forgets what was added, and lends no payload any more.
    pub fn clear(&mut self)
        ensures { self.new ≡ emptied self.old }
    {
        self.added.clear();
        self.lent = false;
    }

    /// How many sectors can still be added.
    pub fn room(&self) -> u32
        ensures { result ≡ most_sectors - length self.now.added }
    {
        MOST - self.added.count()
    }

    /// Adds a target and its payload.
    pub fn add(&mut self, at: Target, from: &[u8; 512])
        requires { length self.old.added < most_sectors }
        ensures { self.new ≡ record self.old { added = self.old.added ++ target at.disk at.sector from.now ∷ [] } }
    {
        self.added.add(at.disk, at.sector, from);
    }

    /// Writes all that was added as one: whatever stops, all targets are written once the log is replayed,
    /// or none. Answers the places that went; where there is one the gates stay open, and the next commit
    /// takes their place.
    pub fn commit<R: Rack>(&mut self, rack: &mut R, on: &Places) -> Places
        requires fit { (R.seen rack.old).fit }
        requires disks { (R.seen rack.old).disks ≡ 272 }
        requires logs { AreLogs (R.seen rack.old).sectors on.now.items }
        requires some { 0 < length self.old.added }
        requires valid { list_all is_target self.old.added ≡ true }
        requires apart { are_apart self.old.added ≡ true }
        requires had { (d s : ℕ) (v : List ℕ) → look self.old.added d s ≡ Some v → IsHad (R.seen rack.old) d s }
        ensures commits { CommitCall self.old on.now.items result.items (R.seen rack.old) (R.seen rack.new) }
        ensures log { self.new ≡ committed self.old }
        ensures runs { R.runs rack.old rack.new }
    {
        let number = next(self.number);
        let on = on.as_slice();
        self.added.seal(number);
        let mut lost = Lost::none();
        // A stop in it leaves the gates at the number before, and the record of that one whole in the other half:
        // what was pending stays pending, and this record doesn't count yet.
        settle_record(rack, &mut lost, on, half(number), &self.added);
        let opened = Gate { open: true, number };
        // The record is durable: a stop amid the gates leaves it uncounted, or pending by the first that is open.
        settle_each(rack, &mut lost, on, GATE, &opened.encode());
        // All gates are open, durably: a stop amid the targets leaves the record pending, and a replay writes the rest.
        settle_targets(rack, &mut lost, &self.added);
        let closed = Gate {
            open: false,
            number,
        };
        // The targets are durable: a stop amid the gates needs no replay, and does no harm by one.
        close_gates(rack, &mut lost, on, &closed.encode());
        self.number = number;
        self.forget();
        lost.list()
    }

    /// Looks for the pending record among the gates of some places, and loads it. It writes nothing. Places that go
    /// are passed over.
    pub fn pending<R: Rack>(&mut self, rack: &mut R, on: &Places) -> Looked
        requires fit { (R.seen rack.old).fit }
        requires disks { (R.seen rack.old).disks ≡ 272 }
        requires logs { AreLogs (R.seen rack.old).sectors on.now.items }
        ensures looks { PendingCall self.old self.new on.now.items result.gone.items result.pending result.damaged (R.seen rack.old) (R.seen rack.new) }
        ensures runs { R.runs rack.old rack.new }
    {
        let mut scan = Scan::of(rack, on.as_slice());
        self.number = scan.greatest();
        self.opened = scan.is_open();
        let broken = scan.load(rack, &mut self.pending);
        let damaged = scan.first_damaged(broken);
        self.pending.keep_if(damaged.is_none());
        self.lent = true;
        Looked {
            pending: scan.pending().is_some(),
            damaged,
            gone: scan.lost.list(),
        }
    }

    /// The bytes that were added for a target, or else those that the pending record has for it, since the last
    /// `clear`, `commit` or `replay`.
    pub fn payload(&self, at: &Target) -> Option<&[u8; 512]>
        ensures { MatchOption result (payload_of self.now at.now.disk at.now.sector ≡ None) (λ p. payload_of self.now at.now.disk at.now.sector ≡ Some p.now) }
    {
        if let Some(added) = self.added.payload(at.disk, at.sector) {
            return Some(added);
        }
        if self.lent {
            self.pending.payload(at.disk, at.sector)
        } else {
            None
        }
    }

    /// How many targets the pending record has that was found and isn't replayed yet.
    pub fn pending_count(&self) -> u32
        ensures { result ≡ length self.now.pending }
    {
        self.pending.count()
    }

    /// One of them, in the record's order.
    #[tactic(auto, using(log_laws::proofs::Targets::target_of, log_laws::proofs::Targets::length_targets))]
    pub fn pending_target(&self, at: u32) -> Target
        requires { at < length self.now.pending }
        ensures disk { option_map (λ t. t.disk) (slice_get self.now.pending at) ≡ Some result.disk }
        ensures sector { option_map (λ t. t.sector) (slice_get self.now.pending at) ≡ Some result.sector }
    {
        let (disk, sector) = self.pending.target(at);
        Target { disk, sector }
    }

    /// Its payload.
    #[tactic(auto, using(log_laws::proofs::Targets::target_of, log_laws::proofs::Targets::length_targets))]
    pub fn pending_payload(&self, at: u32) -> &[u8; 512]
        requires { at < length self.now.pending }
        ensures { option_map (λ t. t.bytes) (slice_get self.now.pending at) ≡ Some result.now }
    {
        self.pending.sector(HEAD + at)
    }

    /// Writes the pending record's targets that the rack has, as the commit would have, and closes the gates
    /// unless a place went. Where no record is pending it only closes gates, if one was open. Answers the places
    /// that went.
    pub fn replay<R: Rack>(&mut self, rack: &mut R, on: &Places) -> Places
        requires fit { (R.seen rack.old).fit }
        requires disks { (R.seen rack.old).disks ≡ 272 }
        requires logs { AreLogs (R.seen rack.old).sectors on.now.items }
        ensures replays { ReplayCall self.old on.now.items result.items (R.seen rack.old) (R.seen rack.new) }
        ensures log { self.new ≡ settled self.old }
        ensures runs { R.runs rack.old rack.new }
    {
        let on = on.as_slice();
        let closed = Gate {
            open: false,
            number: self.number,
        };
        let mut lost = Lost::none();
        settle_targets(rack, &mut lost, &self.pending);
        // The targets are durable: until here a stop leaves the record pending, and it is replayed once more.
        self.close(rack, &mut lost, on, &closed.encode());
        self.forget();
        lost.list()
    }

    // Closes gates where there is work, unless a place has gone.
    fn close<R: Rack>(&self, rack: &mut R, lost: &mut Lost, on: &[u32], block: &[u8; 512])
        requires fit { (R.seen rack.old).fit }
        requires disks { (R.seen rack.old).disks ≡ 272 }
        requires logs { AreLogs (R.seen rack.old).sectors on.now }
        ensures settles { Settles (R.seen rack.old) (R.seen rack.new) (IsLogOf on.now (length on.now)) (IsShut self.now (went lost.old.places) on.now block.now) (IsShut self.now (went lost.old.places) on.now block.now) (went lost.old.places) (went lost.new.places) }
        ensures runs { R.runs rack.old rack.new }
    {
        if self.has_work() {
            close_gates(rack, lost, on, block);
        }
    }

    // Whether a record is pending or a gate is open.
    fn has_work(&self) -> bool
        ensures work { result ≡ true → HasWork self.now }
        ensures idle { result ≡ false → HasWork self.now → ⊥ }
    {
        self.opened || self.pending.count() > 0
    }

    // Neither a record nor an open gate is left to replay.
    fn forget(&mut self)
        ensures { self.new ≡ record self.old { added = []; pending = []; is_lent = false; is_open = false } }
    {
        self.added.clear();
        self.pending.clear();
        self.lent = false;
        self.opened = false;
    }
}

// The number after one, below 2^63.
fn next(number: u64) -> u64
    ensures { result ≡ next_number number }
{
    if number < LAST_NUMBER {
        number + 1
    } else {
        number
    }
}

// The first sector of the half of a number.
pub(crate) fn half(number: u64) -> u64
    ensures { result ≡ half_of number }
{
    if number % 2 == 0 { 8 } else { 4100 }
}
