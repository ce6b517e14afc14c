//! Looking for the pending record: the gates of places as they were read, and the record that they say.

ghost use Rattle.std.specs.Prelude.{◌≡◌, ◌≢◌, ◌<◌, ◌≤◌, ◌||◌, ◌==◌, ℕ, List, length, true, false, MatchOption, IfOk, OnOk, IfErr, IfSome, Some, None, option_map, is_some, is_none, find};
ghost use Rattle.std.specs.List.{list_all, list_any, range_with_len};
ghost use Rattle.std.specs.Option.{option_map_or};
ghost use Rattle.rack.specs.Seen.{Rose};
ghost use Rattle.rack.specs.Sequences.{OnlyReads};
ghost use Rattle.array_image.specs.Foremost.{ahead};
ghost use Rattle.array_image.specs.Places.{log_slice, log_sectors};
ghost use Rattle.array_image.specs.Record.{Gate, GateAt, gate_sector, gate_in, is_bad_gate, is_open_if_of};
ghost use Rattle.array_image.specs.Held.{current_in};
ghost use Rattle.log_laws.specs.Bytes.{targets_in};
ghost use Rattle.log_laws.specs.Phases.{AreLogs, went};
ghost use Rattle.commit_log.specs.Scans.{gate_is, at_is, gate_seen, all_seen, decisive_seen, pending_seen, is_open_gate, is_damaged, number_of, IsScan, IsFound, Drops, Loads};

use crate::gates::Gate;
use crate::log::GATE;
use crate::lost::Lost;
use crate::record::Record;
use crate::writing::SLICES;
use rack::{Gone, Rack};

/// A gate and its place.
#[derive(Clone, Copy)]
pub(crate) struct PlacedGate {
    pub(crate) place: u32,
    pub(crate) gate: Gate,
}

/// What was read of the gates of places.
#[derive(Drop)]
pub(crate) struct Scan {
    /// The gates that are well formed, by place.
    pub(crate) gates: [Option<Gate>; 16],
    /// The places whose gate isn't.
    pub(crate) damaged: Lost,
    /// The places that went. They have no gate here.
    pub(crate) lost: Lost,
}

impl Scan {
    /// Reads the gates of places, the lowest first.
    pub(crate) fn of<R: Rack>(rack: &mut R, on: &[u32]) -> Scan
        requires fit { (R.seen rack.old).fit }
        requires disks { (R.seen rack.old).disks ≡ 272 }
        requires logs { AreLogs (R.seen rack.old).sectors on.now }
        ensures scan { IsScan on.now 16 (R.seen rack.old) (R.seen rack.new) result }
        ensures runs { R.runs rack.old rack.new }
    {
        let mut scan = Scan {
            gates: [None; 16],
            damaged: Lost::none(),
            lost: Lost::none(),
        };
        for place in 0..16 {
            if on.contains(&place) {
                scan.read(rack, place);
            }
        }
        scan
    }

    // Reads the gate of a place.
    fn read<R: Rack>(&mut self, rack: &mut R, place: u32)
        requires fit { (R.seen rack.old).fit }
        requires disk { log_slice place < (R.seen rack.old).disks }
        requires slice { gate_sector < (R.seen rack.old).sectors (log_slice place) }
        requires place { place < 16 }
        requires gate { gate_seen self.old.gates place ≡ None }
        requires damaged { went self.old.damaged.places place ≡ false }
        requires lost { went self.old.lost.places place ≡ false }
        ensures reads { OnlyReads (R.seen rack.old) (R.seen rack.new) }
        ensures found { IsFound place (R.seen rack.old) (R.seen rack.new) self.old self.new }
        ensures runs { R.runs rack.old rack.new }
    {
        match read_gate(rack, place) {
            Ok(Some(gate)) => self.set(place, Some(gate)),
            Ok(None) => self.damaged.mark(place),
            Err(_) => self.lost.mark(place),
        }
    }

    // Notes the gate of a place.
    fn set(&mut self, place: u32, gate: Option<Gate>)
        requires place { place < 16 }
        ensures here { gate_seen self.new.gates place ≡ option_map gate_is gate }
        ensures others { (p : ℕ) → p ≢ place → gate_seen self.new.gates p ≡ gate_seen self.old.gates p }
        ensures damaged { self.new.damaged ≡ self.old.damaged }
        ensures lost { self.new.lost ≡ self.old.lost }
    {
        self.gates[place as usize] = gate;
    }

    /// Loads the record that is pending by the gates, and passes over places that go. Answers its place where it
    /// isn't well formed.
    pub(crate) fn load<R: Rack>(&mut self, rack: &mut R, into: &mut Record) -> Option<u32>
        requires fit { (R.seen rack.old).fit }
        requires disks { (R.seen rack.old).disks ≡ 272 }
        requires logs { (p : ℕ) → is_some (gate_seen self.old.gates p) ≡ true → (R.seen rack.old).sectors (log_slice p) ≡ log_sectors }
        ensures drops { Drops (R.seen rack.old) (R.seen rack.new) self.old self.new }
        ensures loads { Loads (R.seen rack.old) self.new.gates result (targets_in into.new.bytes.items into.new.count) }
        ensures place { IfSome result (λ p. p < 16) }
        ensures runs { R.runs rack.old rack.new }
    {
        while let Some(at) = self.pending() {
            match into.load(rack, SLICES * at.place, at.gate.number) {
                Ok(true) => return None,
                Ok(false) => return Some(at.place),
                Err(_) => self.lose(at.place),
            }
        }
        into.clear();
        None
    }

    /// The lowest place whose log isn't well formed: its gate, or the record where it is read from there.
    pub(crate) fn first_damaged(&self, broken: Option<u32>) -> Option<u32>
        requires place { IfSome broken (λ p. p < 16) }
        ensures { result ≡ find (is_damaged broken self.now) (range_with_len 0 16) }
    {
        let mut damaged = self.damaged;
        if let Some(place) = broken {
            damaged.mark(place);
        }
        damaged.first()
    }

    /// The place and the gate of the record that is pending: all gates of its number are open, and none is greater.
    pub(crate) fn pending(&self) -> Option<PlacedGate>
        ensures gate { option_map at_is result ≡ pending_seen self.now.gates }
        ensures place { IfSome result (λ a. a.place < 16) }
    {
        let at = self.decisive()?;
        if self.all_open(at.gate.number) {
            Some(at)
        } else {
            None
        }
    }

    /// The greatest number of the gates, 0 without one.
    pub(crate) fn greatest(&self) -> u64
        ensures { result ≡ option_map_or number_of (decisive_seen self.now.gates) 0 }
    {
        match self.decisive() {
            Some(at) => at.gate.number,
            None => 0,
        }
    }

    /// Whether a gate is open.
    pub(crate) fn is_open(&self) -> bool
        ensures { result ≡ list_any is_open_gate (all_seen self.now.gates) }
    {
        let mut open = false;
        for place in (0..16u32).rev() {
            if let Some(gate) = self.gate(place) {
                open = gate.open || open;
            }
        }
        open
    }

    // Of the gates of greatest number the one of the lowest place.
    fn decisive(&self) -> Option<PlacedGate>
        ensures gate { option_map at_is result ≡ decisive_seen self.now.gates }
        ensures place { IfSome result (λ a. a.place < 16) }
    {
        let mut decisive = None;
        for place in (0..16u32).rev() {
            if let Some(gate) = self.gate(place) {
                decisive = Some(ahead(PlacedGate { place, gate }, decisive));
            }
        }
        decisive
    }

    // Whether all gates of a number are open.
    fn all_open(&self, number: u64) -> bool
        ensures { result ≡ list_all (is_open_if_of number) (all_seen self.now.gates) }
    {
        let mut all = true;
        for place in (0..16u32).rev() {
            if let Some(gate) = self.gate(place) {
                all = (gate.number != number || gate.open) && all;
            }
        }
        all
    }

    // The gate of a place.
    fn gate(&self, place: u32) -> Option<Gate>
        requires place { place < 16 }
        ensures { option_map gate_is result ≡ gate_seen self.now.gates place }
    {
        self.gates[place as usize]
    }

    // A place went.
    fn lose(&mut self, place: u32)
        requires place { place < 16 }
        ensures none { gate_seen self.new.gates place ≡ None }
        ensures others { (p : ℕ) → p ≢ place → gate_seen self.new.gates p ≡ gate_seen self.old.gates p }
        ensures damaged { self.new.damaged ≡ self.old.damaged }
        ensures lost { (p : ℕ) → went self.new.lost.places p ≡ ((p == place) || went self.old.lost.places p) }
    {
        self.set(place, None);
        self.lost.mark(place);
    }
}

// The first of two gates, unless the other's number is greater.
fn ahead(first: PlacedGate, other: Option<PlacedGate>) -> PlacedGate
    ensures gate { Some (at_is result) ≡ ahead (λ (a : GateAt). a.gate.number) (at_is first) (option_map at_is other) }
    ensures place { first.place < 16 → IfSome other (λ a. a.place < 16) → result.place < 16 }
{
    match other {
        Some(other) if first.gate.number < other.gate.number => other,
        _ => first,
    }
}

// Reads the gate of a place, none where it isn't well formed.
fn read_gate<R: Rack>(rack: &mut R, place: u32) -> Result<Option<Gate>, Gone>
    requires fit { (R.seen rack.old).fit }
    requires disk { log_slice place < (R.seen rack.old).disks }
    requires slice { gate_sector < (R.seen rack.old).sectors (log_slice place) }
    requires place { place < 16 }
    ensures reads { OnlyReads (R.seen rack.old) (R.seen rack.new) }
    ensures gone { IfErr result (λ e. Rose ((R.seen rack.old).faults (log_slice place)) ((R.seen rack.new).faults (log_slice place))) }
    ensures unspent { OnOk result ((R.seen rack.old).spent (log_slice place) gate_sector ≡ false) }
    ensures gate { IfOk result (λ gate. (R.seen rack.old).told (log_slice place) → gate_in (current_in (R.seen rack.old).held) place ≡ option_map gate_is gate) }
    ensures bad { IfOk result (λ gate. (R.seen rack.old).told (log_slice place) → is_bad_gate (current_in (R.seen rack.old).held) place ≡ is_none gate) }
    ensures runs { R.runs rack.old rack.new }
{
    let mut block = [0; 512];
    match rack.read(SLICES * place, GATE, &mut block) {
        Ok(()) => Ok(Gate::decode(&block)),
        Err(gone) => Err(gone),
    }
}
