//! `trial SEED NAME..`: fills the volume's first sectors with zeros, and then writes, reads and flushes as a generator draws it.

ghost use Rattle.std.specs.Prelude.{◌≡◌, ◌≢◌, ◌≤◌, ◌<◌, []};
ghost use Rattle.flat_array.specs.Array.{FlatArray};
ghost use Rattle.pool.specs.Calls.{CallFrame};
ghost use Rattle.pool.specs.Moment.{moment_of};
ghost use Rattle.pool.specs.View.{bay_in, view, volume};
ghost use Rattle.pool.specs.Volume.{size_of};
ghost use Rattle.shr_tool.specs.Outcome.{HasStatusCause};
ghost use Rattle.shr_tool.specs.Serving.{IsServing};
ghost use Rattle.shr_tool.specs.Trial.{IsSmall, IsWithin, SaysTried, Takes, TrialOutcome, TriesOn, counted, drawn, next, tally_line, tally_of, turn_from};

use crate::perform::{SpentAt, fill_sectors};
use crate::saying::{refuse_spent, say};
use crate::status::Status;
use io_ends::Sink;
use pool::{Pool, SectorFault};
use rack::{Bay, Rack};
use shr_script::{ReplyText, add, add_field};

// The most sectors that a trial is over.
const SPAN: u64 = 4096;

// How many turns it has.
const TURNS: u64 = 20000;

// The step of the generator, after Knuth's MMIX.
const MULTIPLIER: u64 = 6364136223846793005;

const INCREMENT: u64 = 1442695040888963407;

/// A linear congruential generator of 64 bits.
#[derive(Clone, Copy, Debug)]
struct Generator {
    state: u64,
}

/// What is done in a turn.
#[derive(Clone, Copy, Debug, PartialEq, Eq)]
enum Turn {
    /// All bytes of the sector are set to this one.
    Write { sector: u64, byte: u8 },
    /// The sector is read, and its first byte is added to the sum.
    Read { sector: u64 },
    /// The pool is flushed.
    Flush,
}

/// What turns did.
#[derive(Clone, Copy, Debug, PartialEq, Eq)]
struct Tally {
    turns: u64,
    writes: u64,
    reads: u64,
    flushes: u64,
    sum: u64,
}

/// Does the trial of a seed, ends the pool, and says what the turns did.
pub fn try_pool<R: Bay, O: Sink>(pool: &mut Pool<R>, seed: u64, out: &mut O) -> Status
    requires { (volume (view R.seen R.shelf pool.old)).fit }
    ensures passes { CallFrame (view R.seen R.shelf pool.old) (view R.seen R.shelf pool.new) }
    ensures runs { R.runs (bay_in pool.old) (bay_in pool.new) }
    ensures sink { O.faults out.old ≤ O.faults out.new }
    ensures cause { HasStatusCause result 0 0 (O.faults out.old) (O.faults out.new) }
    ensures other { result ≢ Status.Limit }
    ensures outcome { O.told out.old → (a : FlatArray)
        → TrialOutcome seed result (IsServing (view R.seen R.shelf pool.old) a) (R.seen (bay_in pool.old)).traced (R.seen (bay_in pool.old)) (R.seen (bay_in pool.new))
        (moment_of (view R.seen R.shelf pool.old)) a (O.taken out.old) (O.taken out.new) }
{
    let tried = take_turns(pool, seed);
    pool.end();
    say_tried(tried, out)
}

// Says what the turns did, or which sector was refused.
fn say_tried<O: Sink>(tried: Result<Tally, SpentAt>, out: &mut O) -> Status
    ensures sink { O.faults out.old ≤ O.faults out.new }
    ensures cause { HasStatusCause result 0 0 (O.faults out.old) (O.faults out.new) }
    ensures other { result ≢ Status.Limit }
    ensures says { O.told out.old → SaysTried tried (O.taken out.old) (O.taken out.new) result }
{
    match tried {
        Ok(tally) => {
            let mut text = ReplyText::new();
            tally_text(&mut text, &tally);
            say(out, &text, Status::Done)
        }
        Err(at) => refuse_spent(out, at.sector),
    }
}

// `trial turns N writes W reads R flushes F sum S`
fn tally_text(text: &mut ReplyText, tally: &Tally)
    ensures { text.new.items ≡ tally_line tally.now }
{
    text.clear();
    add_field(text, b"trial turns ", tally.turns);
    add_field(text, b" writes ", tally.writes);
    add_field(text, b" reads ", tally.reads);
    add_field(text, b" flushes ", tally.flushes);
    add_field(text, b" sum ", tally.sum);
    add(text, b"\n");
}

// Fills the first sectors with zeros and takes the turns on them, up to the first sector that is refused. A pool whose volume has
// no sector has no turn: `create` makes none, but what a pool promises doesn't exclude it.
fn take_turns<R: Bay>(pool: &mut Pool<R>, seed: u64) -> Result<Tally, SpentAt>
    requires { (volume (view R.seen R.shelf pool.old)).fit }
    ensures passes { CallFrame (view R.seen R.shelf pool.old) (view R.seen R.shelf pool.new) }
    ensures runs { R.runs (bay_in pool.old) (bay_in pool.new) }
    ensures tries { TriesOn (view R.seen R.shelf pool.old) (view R.seen R.shelf pool.new) seed result }
{
    let span = pool.size().min(SPAN);
    fill_sectors(pool, 0, span, &[0; 512])?;
    let turns = if span == 0 { 0 } else { TURNS };
    let mut generator = Generator { state: seed };
    let mut tally = Tally::new();
    while tally.turns < turns {
        let turn = generator.draw_turn(span);
        let byte = take_turn(pool, turn)?;
        tally.count(turn, byte);
    }
    Ok(tally)
}

// Takes a turn, and answers what it adds to the sum.
fn take_turn<R: Bay>(pool: &mut Pool<R>, turn: Turn) -> Result<u8, SpentAt>
    requires fit { (volume (view R.seen R.shelf pool.old)).fit }
    requires within { IsWithin (size_of (view R.seen R.shelf pool.old)) turn }
    ensures takes { Takes (view R.seen R.shelf pool.old) (view R.seen R.shelf pool.new) turn result }
    ensures runs { R.runs (bay_in pool.old) (bay_in pool.new) }
{
    match turn {
        Turn::Write { sector, byte } => match pool.write(sector, &[byte; 512]) {
            Ok(()) => Ok(0),
            Err(SectorFault::Range) => unreachable!(),
            Err(SectorFault::Spent) => Err(SpentAt { sector }),
        },
        Turn::Read { sector } => read_first(pool, sector),
        Turn::Flush => {
            pool.flush();
            Ok(0)
        }
    }
}

// Reads a sector, and answers its first byte.
fn read_first<R: Bay>(pool: &mut Pool<R>, sector: u64) -> Result<u8, SpentAt>
    requires fit { (volume (view R.seen R.shelf pool.old)).fit }
    requires within { sector < size_of (view R.seen R.shelf pool.old) }
    ensures takes { Takes (view R.seen R.shelf pool.old) (view R.seen R.shelf pool.new) (Turn.Read sector) result }
    ensures runs { R.runs (bay_in pool.old) (bay_in pool.new) }
{
    let mut bytes = [0; 512];
    match pool.read(sector, &mut bytes) {
        Ok(()) => Ok(bytes[0]),
        Err(SectorFault::Range) => unreachable!(),
        Err(SectorFault::Spent) => Err(SpentAt { sector }),
    }
}

impl Generator {
    // Draws a turn on one of the first sectors.
    fn draw_turn(&mut self, span: u64) -> Turn
        requires { 0 < span }
        ensures state { self.new.state ≡ next (next (next self.old.state)) }
        ensures turn { result ≡ turn_from span self.old.state }
    {
        let sector = self.draw() % span;
        let kind = self.draw() % 8;
        let byte = (self.draw() % 256) as u8;
        match kind {
            0..=4 => Turn::Write { sector, byte },
            5 | 6 => Turn::Read { sector },
            _ => Turn::Flush,
        }
    }

    // Draws a number of 31 bits.
    fn draw(&mut self) -> u64
        ensures state { self.new.state ≡ next self.old.state }
        ensures drawn { result ≡ drawn (next self.old.state) }
    {
        self.state = self.state.wrapping_mul(MULTIPLIER).wrapping_add(INCREMENT);
        self.state >> 33
    }
}

impl Tally {
    // The tally of no turn.
    fn new() -> Tally
        ensures turns { result.turns ≡ 0 }
        ensures tally { (a : FlatArray) → result ≡ tally_of a [] }
        ensures small { IsSmall result }
    {
        Tally {
            turns: 0,
            writes: 0,
            reads: 0,
            flushes: 0,
            sum: 0,
        }
    }

    // Counts a turn that adds this to the sum.
    fn count(&mut self, turn: Turn, byte: u8)
        requires few { self.old.turns < 20000 }
        requires small { IsSmall self.old }
        ensures counted { self.new ≡ counted turn byte self.old }
        ensures small { IsSmall self.new }
    {
        self.turns += 1;
        self.sum += u64::from(byte);
        match turn {
            Turn::Write { .. } => self.writes += 1,
            Turn::Read { .. } => self.reads += 1,
            Turn::Flush => self.flushes += 1,
        }
    }
}
