//! The arrays of a pool, over slices of its drives.

ghost use Rattle.std.specs.Prelude.{◌≡◌, ℕ, true, false, [], ◌∷◌, slice_get, MatchOption, Some, None, OnOk, OnErr};
ghost use Rattle.std.specs.List.{list_any};

use crate::losses::has_other;
use array_core::Array;
use arrayvec::ArrayVec;
use commit_log::Log;
use pool_state::State;
use rack::Rack;
use slice_rack::SliceRack;

/// The arrays of a pool, with its state and its log.
#[derive(Drop)]
pub(crate) struct Arrays {
    pub(crate) state: State,
    /// By number.
    pub(crate) all: ArrayVec<Array, 16>,
    pub(crate) log: Log,
}

/// A rack of all arrays of a pool: disk `n` is array `n`.
#[derive(Drop)]
pub struct RaidRack<R> {
    pub(crate) slices: SliceRack<R>,
    pub(crate) arrays: Arrays,
    /// The spent answers of each array so far.
    pub(crate) refused: [u64; 16],
    /// The arrays that this run has written, by number. Images leave no rows of others to resync but those that were left before.
    pub(crate) written: [bool; 16],
    /// When the pool was opened, in seconds since 1970: the times in superblocks of new arrays.
    pub(crate) seconds: u64,
}

/// The drive to be lost is the only one that is left.
#[derive(Clone, Copy, Debug, PartialEq, Eq)]
pub struct LastDrive;

impl<R: Rack> RaidRack<R> {
    ghost use Rattle.std.specs.Borrow.{sem, Lends};
    ghost use Rattle.slice_rack.specs.contracts.SliceRack as sliced;
    ghost use Rattle.raid_rack.specs.contracts.arrays.RaidRack.{the_row};
    ghost use Rattle.array_image.specs.States.{is_current};
    ghost use Rattle.raid_laws.specs.Losses.{has_other};
    ghost use Rattle.raid_laws.specs.Moves.{AreMarked, Mends, RaisesBy, noted_at};
    ghost use Rattle.raid_laws.specs.Cleaning.{CleansAll, LeavesItsRows};
    ghost use Rattle.raid_laws.specs.Agreeing.{MakesAgree};
    ghost use Rattle.raid_laws.specs.Runs.{CrashInvariant, RaidRuns};
    ghost use Rattle.raid_laws.specs.Truths.{KeepsTruths, MakesTruths};
    ghost use Rattle.raid_laws.specs.Unlost.{KeepsUnlost};
    ghost use Rattle.raid_rack.specs.RaidRack.{SliceRuns, IsFit, IsRunning, KeepsRack, arrays_in, arrays_of, raid_seen, raid_in, refused_in, slices_in, slices_seen, written_in};

    /// The rack of these arrays, which are those below the state's `made`, by number, over these slices. Nothing is added to the
    /// log, and nothing is pending in it.
    pub fn new(
        slices: SliceRack<R>,
        state: State,
        arrays: ArrayVec<Array, 16>,
        log: Log,
        seconds: u64,
    ) -> RaidRack<R>
        ensures slices { slices_in result ≡ slices }
        ensures state { (raid_in result).state ≡ state }
        ensures arrays { arrays_of result ≡ arrays.items }
        ensures number { (raid_in result).number ≡ log.number }
        ensures refused { (n : ℕ) → refused_in result n ≡ 0 }
        ensures written { (n : ℕ) → written_in result n ≡ false }
    {
        RaidRack {
            slices,
            arrays: Arrays {
                state,
                all: arrays,
                log,
            },
            refused: [0; 16],
            written: [false; 16],
            seconds,
        }
    }

    /// Takes other arrays in place of these, over the same slices: those of a pool that was made anew on them, with its state and a log
    /// to which nothing is added. No array is written yet, and no sector is refused.
    pub fn renew(&mut self, state: State, arrays: ArrayVec<Array, 16>, log: Log)
        ensures slices { slices_in self.new ≡ slices_in self.old }
        ensures state { (raid_in self.new).state ≡ state }
        ensures arrays { arrays_of self.new ≡ arrays.items }
        ensures number { (raid_in self.new).number ≡ log.number }
        ensures refused { (n : ℕ) → refused_in self.new n ≡ 0 }
        ensures written { (n : ℕ) → written_in self.new n ≡ false }
    {
        self.arrays = Arrays {
            state,
            all: arrays,
            log,
        };
        self.refused = [0; 16];
        self.written = [false; 16];
    }

    /// The state of the pool, with the marks of the drives that were lost.
    pub fn state(&self) -> &State
        ensures { result.now ≡ (raid_in self.now).state }
    {
        &self.arrays.state
    }

    /// Whether this run has written an array. Superblocks that agreed before the run may differ in such an array alone.
    pub fn has_written(&self) -> bool
        ensures none { result ≡ false → (n : ℕ) → written_in self.now n ≡ false }
        ensures some { result ≡ true → (n : ℕ) × (written_in self.now n ≡ true) }
    {
        is_any(&self.written)
    }

    /// The array of a number, if there is one.
    pub fn array(&self, number: u32) -> Option<&Array>
        ensures { MatchOption result (slice_get (arrays_of self.now) number ≡ None) (λ a. slice_get (arrays_of self.now) number ≡ Some a.now) }
    {
        self.arrays.all.get(number as usize)
    }

    /// Loses the drive of a place, which isn't marked missing: its mark is durable when this returns. Refused exactly where no other
    /// drive is left, and then nothing changes.
    pub fn lose(&mut self, place: u32) -> Result<(), LastDrive>
        requires fit { IsFit (arrays_in self.old) (slices_seen R.seen self.old) }
        requires place { is_current (raid_in self.old).state place ≡ true }
        ensures served { OnOk result (has_other (raid_in self.old).state place ≡ true) }
        ensures refused { OnErr result (has_other (raid_in self.old).state place ≡ false) }
        ensures kept { OnErr result (self.new ≡ self.old) }
        ensures mends { OnOk result (Mends (noted_at (place ∷ []) (raid_in self.old)) (raid_in self.new) (slices_seen R.seen self.old) (slices_seen R.seen self.new)) }
        ensures keeps { OnOk result (KeepsRack (raid_seen R.seen self.old) (raid_seen R.seen self.new)) }
        ensures moments { OnOk result (CrashInvariant (raid_in self.old) (raid_in self.new) (slices_seen R.seen self.old) (slices_seen R.seen self.new)) }
        ensures raises { RaisesBy 17 (raid_in self.old) (raid_in self.new) }
        ensures truths { KeepsTruths (raid_in self.old) (raid_in self.new) (slices_seen R.seen self.old) (slices_seen R.seen self.new) }
        ensures runs { SliceRuns R.seen R.runs (slices_in self.old) (slices_in self.new) }
    {
        if !has_other(&self.arrays.state, place) {
            return Err(LastDrive);
        }
        self.arrays.lose_place(&mut self.slices, place);
        Ok(())
    }

    /// Ends a run: each array's members are synced, and its superblocks leave no rows to resync but those that were left when the
    /// pool was opened, less those resynced since. A superblock that says so already isn't written. Drives that go meanwhile are
    /// marked.
    pub fn clean(&mut self)
        requires fit { IsFit (arrays_in self.old) (slices_seen R.seen self.old) }
        ensures cleans { CleansAll (raid_in self.old) (raid_in self.new) (slices_seen R.seen self.old) (slices_seen R.seen self.new) }
        ensures images { LeavesItsRows (raid_in self.old) (raid_in self.new) (slices_seen R.seen self.old) (slices_seen R.seen self.new) }
        ensures unlost { KeepsUnlost (raid_in self.old).state (raid_in self.new).state (slices_seen R.seen self.old) (slices_seen R.seen self.new) }
        ensures keeps { KeepsRack (raid_seen R.seen self.old) (raid_seen R.seen self.new) }
        ensures raises { RaisesBy 288 (raid_in self.old) (raid_in self.new) }
        ensures written { (n : ℕ) → written_in self.new n ≡ written_in self.old n }
        ensures runs { SliceRuns R.seen R.runs (slices_in self.old) (slices_in self.new) }
        ensures book { RaidRuns (written_in self.old) (written_in self.new) (raid_in self.old) (raid_in self.new) (slices_seen R.seen self.old) (slices_seen R.seen self.new) }
    {
        self.arrays.clean_all(&mut self.slices);
    }

    /// Marks the places that are noted as gone in the arrays: those that an opening found absent. Their marks are durable when this
    /// returns, where a drive is left to write them on, and nobody went from then on.
    pub fn mark_gone(&mut self)
        requires running { IsRunning (arrays_in self.old) (slices_seen R.seen self.old) }
        ensures mends { Mends (raid_in self.old) (raid_in self.new) (slices_seen R.seen self.old) (slices_seen R.seen self.new) }
        // Where nobody is noted who isn't marked, nothing is called.
        ensures idle { AreMarked (raid_in self.old) → (slices_in self.new ≡ slices_in self.old) × ((raid_in self.new).state ≡ (raid_in self.old).state) }
        // Else the superblocks of each array agree afterwards, where no drive refuses a call.
        ensures supers { (AreMarked (raid_in self.old) → ⊥) → MakesAgree (raid_in self.old) (raid_in self.new) (slices_seen R.seen self.old) (slices_seen R.seen self.new) }
        ensures truths { KeepsTruths (raid_in self.old) (raid_in self.new) (slices_seen R.seen self.old) (slices_seen R.seen self.new) }
        ensures makes { (AreMarked (raid_in self.old) → ⊥) → MakesTruths (raid_in self.old) (raid_in self.new) (slices_seen R.seen self.old) (slices_seen R.seen self.new) }
        ensures raises { RaisesBy 17 (raid_in self.old) (raid_in self.new) }
        ensures fit { IsFit (arrays_in self.new) (slices_seen R.seen self.new) }
        ensures refused { (n : ℕ) → refused_in self.new n ≡ refused_in self.old n }
        ensures written { (n : ℕ) → written_in self.new n ≡ written_in self.old n }
        ensures runs { SliceRuns R.seen R.runs (slices_in self.old) (slices_in self.new) }
    {
        self.arrays.mend(&mut self.slices);
    }

    /// Makes the superblocks of each array agree, durably: those that said another state of it than its truth, or fewer events, are
    /// written over. All superblocks are written by one commit, with one more event. No value moves. Whoever goes is marked.
    pub fn restate(&mut self)
        requires fit { IsFit (arrays_in self.old) (slices_seen R.seen self.old) }
        ensures mends { Mends (raid_in self.old) (raid_in self.new) (slices_seen R.seen self.old) (slices_seen R.seen self.new) }
        ensures supers { MakesAgree (raid_in self.old) (raid_in self.new) (slices_seen R.seen self.old) (slices_seen R.seen self.new) }
        ensures truths { MakesTruths (raid_in self.old) (raid_in self.new) (slices_seen R.seen self.old) (slices_seen R.seen self.new) }
        ensures keeps { KeepsRack (raid_seen R.seen self.old) (raid_seen R.seen self.new) }
        ensures raises { RaisesBy 18 (raid_in self.old) (raid_in self.new) }
        ensures refused { (n : ℕ) → refused_in self.new n ≡ refused_in self.old n }
        ensures written { (n : ℕ) → written_in self.new n ≡ written_in self.old n }
        ensures runs { SliceRuns R.seen R.runs (slices_in self.old) (slices_in self.new) }
        ensures book { RaidRuns (written_in self.old) (written_in self.new) (raid_in self.old) (raid_in self.new) (slices_seen R.seen self.old) (slices_seen R.seen self.new) }
    {
        self.arrays.restate(&mut self.slices);
    }

    /// The rack of slices, lent. The arrays, their state and their log stay as they are.
    pub fn slices(&mut self) -> &mut SliceRack<R>
        ensures* writes_back { sem 𝓛 (
            Lends (the_row R.row) (sliced.the_row R.row) self.entry result (λ w. record self.old { slices = w })) }
        ensures value { result.now ≡ slices_in self.old }
    {
        &mut self.slices
    }

    /// The rack of slices, as it is.
    pub fn into_inner(self) -> SliceRack<R>
        ensures { result ≡ slices_in self }
    {
        self.slices
    }
}

/// Whether a flag is set.
fn is_any(flags: &[bool]) -> bool
    ensures { result ≡ list_any (λ flag. flag) flags.now }
{
    flags.iter().any(|flag| *flag)
}
