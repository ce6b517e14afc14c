//! A line of a script, answered on a pool.

ghost use Rattle.std.specs.Prelude.{◌≡◌, ◌+◌, ◌≤◌, ◌<◌, true, false, Ok, Result};
ghost use Rattle.shr_script.specs.declared.Command.TheVariants.{Read, Write, Fill, Flush, Lose, Replace, Add, Step};
ghost use Rattle.flat_array.specs.Reply.{fault_word, spent_line};
ghost use Rattle.pool.specs.Proceeding.{has_growth};
ghost use Rattle.pool.specs.View.{bay_in, book, view, volume};
ghost use Rattle.pool.specs.Volume.{size_of};
ghost use Rattle.shr_tool.specs.Events.{answer_by, grow_word, stuck_line};
ghost use Rattle.shr_script.specs.Reply.{refused_line};
ghost use Rattle.shr_tool.specs.Growing.{GrowsOn};
ghost use Rattle.shr_tool.specs.Serving.{Acts, Answers};
ghost use Rattle.shr_tool.specs.Filling.{Fills};

use crate::showing::show;
use pool::{GrowFault, LoseFault, Pool, SectorFault};
use rack::{Bay, Rack};
use shr_script::{
    Command, ImageName, LineFault, ReplyText, data_reply, left_reply, line_reply,
    refused_number_reply, refused_reply, size_reply,
};

/// How a line was answered.
#[derive(Clone, Copy, Debug, PartialEq, Eq)]
pub enum Answer {
    /// By its reply, or a refusal that isn't the one below.
    Given,
    /// A sector was refused, since too many of its copies are lost, or a work of maintenance.
    Spent,
    /// There was no memory for what it asks.
    Memory,
}

/// The first sector of a row of writes that was refused, since too many of its copies are lost.
#[derive(Clone, Copy, Debug, PartialEq, Eq)]
pub(crate) struct SpentAt {
    pub sector: u64,
}

/// Answers a line: does its command, or says why it is none.
pub fn answer_in<R: Bay>(
    pool: &mut Pool<R>,
    line: &Result<Command, LineFault>,
    text: &mut ReplyText,
) -> Answer
    requires { (volume (view R.seen R.shelf pool.old)).fit }
    ensures answers { Acts (view R.seen R.shelf pool.old) (view R.seen R.shelf pool.new) line.now result text.new.items }
    ensures frame { R.frame (bay_in pool.old) (bay_in pool.new) }
{
    match line {
        Ok(command) => perform(pool, command, text),
        Err(fault) => {
            refused_reply(text, word_of(*fault));
            Answer::Given
        }
    }
}

// The word of a refused line.
fn word_of(fault: LineFault) -> &'static [u8]
    ensures { result.now ≡ fault_word fault }
{
    match fault {
        LineFault::Syntax => b"syntax",
        LineFault::Memory => b"memory",
    }
}

// Does a command and sets its reply.
fn perform<R: Bay>(pool: &mut Pool<R>, command: &Command, text: &mut ReplyText) -> Answer
    requires { (volume (view R.seen R.shelf pool.old)).fit }
    ensures answers { Acts (view R.seen R.shelf pool.old) (view R.seen R.shelf pool.new) (Ok command.now) result text.new.items }
    ensures frame { R.frame (bay_in pool.old) (bay_in pool.new) }
{
    match command {
        Command::Read { sector } => return perform_read(pool, *sector, text),
        Command::Write { sector, bytes } => return perform_write(pool, *sector, bytes, text),
        Command::Fill {
            sector,
            count,
            byte,
        } => return perform_fill(pool, *sector, *count, *byte, text),
        Command::Step { count } => return perform_step(pool, *count, text),
        Command::Replace { place, name } => return perform_replace(pool, *place, name, text),
        Command::Add { name } => return perform_add(pool, name, text),
        Command::Lose { place } => perform_lose(pool, *place, text),
        Command::Flush => perform_flush(pool, text),
        Command::Size => size_reply(text, pool.size()),
        Command::Status => show(pool, text),
        Command::Quit => text.clear(),
    }
    Answer::Given
}

// `refused spent S`
fn spent_reply(text: &mut ReplyText, sector: u64) -> Answer
    ensures text { text.new.items ≡ spent_line sector }
    ensures answer { result ≡ Answer.Spent }
{
    refused_number_reply(text, b"spent", sector);
    Answer::Spent
}

// `read S`
fn perform_read<R: Bay>(pool: &mut Pool<R>, sector: u64, text: &mut ReplyText) -> Answer
    requires { (volume (view R.seen R.shelf pool.old)).fit }
    ensures answers { Answers (view R.seen R.shelf pool.old) (view R.seen R.shelf pool.new) (Ok (Read sector)) result text.new.items }
    ensures runs { R.runs (bay_in pool.old) (bay_in pool.new) }
{
    let mut bytes = [0; 512];
    match pool.read(sector, &mut bytes) {
        Ok(()) => data_reply(text, &bytes),
        Err(SectorFault::Range) => refused_reply(text, b"range"),
        Err(SectorFault::Spent) => return spent_reply(text, sector),
    }
    Answer::Given
}

// `write S HEX`
fn perform_write<R: Bay>(
    pool: &mut Pool<R>,
    sector: u64,
    bytes: &[u8; 512],
    text: &mut ReplyText,
) -> Answer
    requires { (volume (view R.seen R.shelf pool.old)).fit }
    ensures answers { Answers (view R.seen R.shelf pool.old) (view R.seen R.shelf pool.new) (Ok (Write sector bytes.now)) result text.new.items }
    ensures runs { R.runs (bay_in pool.old) (bay_in pool.new) }
{
    match pool.write(sector, bytes) {
        Ok(()) => line_reply(text, b"ok"),
        Err(SectorFault::Range) => refused_reply(text, b"range"),
        Err(SectorFault::Spent) => return spent_reply(text, sector),
    }
    Answer::Given
}

// `fill S N XX`
fn perform_fill<R: Bay>(
    pool: &mut Pool<R>,
    sector: u64,
    count: u64,
    byte: u8,
    text: &mut ReplyText,
) -> Answer
    requires { (volume (view R.seen R.shelf pool.old)).fit }
    ensures answers { Answers (view R.seen R.shelf pool.old) (view R.seen R.shelf pool.new) (Ok (Fill sector count byte)) result text.new.items }
    ensures runs { R.runs (bay_in pool.old) (bay_in pool.new) }
{
    let size = pool.size();
    if count > size || sector > size - count {
        refused_reply(text, b"range");
        return Answer::Given;
    }
    match fill_sectors(pool, sector, count, &[byte; 512]) {
        Ok(()) => {
            line_reply(text, b"ok");
            Answer::Given
        }
        Err(at) => spent_reply(text, at.sector),
    }
}

// Writes the same bytes to sectors of the volume, one after the other, up to the first that is refused.
pub(crate) fn fill_sectors<R: Bay>(
    pool: &mut Pool<R>,
    sector: u64,
    count: u64,
    bytes: &[u8; 512],
) -> Result<(), SpentAt>
    requires fit { (volume (view R.seen R.shelf pool.old)).fit }
    requires inside { sector + count ≤ size_of (view R.seen R.shelf pool.old) }
    ensures fills { Fills (view R.seen R.shelf pool.old) (view R.seen R.shelf pool.new) sector count bytes.now result }
    ensures runs { R.runs (bay_in pool.old) (bay_in pool.new) }
{
    for at in sector..sector + count {
        match pool.write(at, bytes) {
            Ok(()) => {}
            Err(SectorFault::Range) => unreachable!(),
            Err(SectorFault::Spent) => return Err(SpentAt { sector: at }),
        }
    }
    Ok(())
}

// `flush`
fn perform_flush<R: Bay>(pool: &mut Pool<R>, text: &mut ReplyText)
    requires { (volume (view R.seen R.shelf pool.old)).fit }
    ensures answers { Answers (view R.seen R.shelf pool.old) (view R.seen R.shelf pool.new) (Ok Flush) Answer.Given text.new.items }
    ensures runs { R.runs (bay_in pool.old) (bay_in pool.new) }
{
    pool.flush();
    line_reply(text, b"ok");
}

// `lose D`
fn perform_lose<R: Bay>(pool: &mut Pool<R>, place: u64, text: &mut ReplyText)
    requires { (volume (view R.seen R.shelf pool.old)).fit }
    ensures answers { Answers (view R.seen R.shelf pool.old) (view R.seen R.shelf pool.new) (Ok (Lose place)) Answer.Given text.new.items }
    ensures runs { R.runs (bay_in pool.old) (bay_in pool.new) }
{
    // No place is greater than the last number of 32 bits.
    let place = place.min(u64::from(u32::MAX)) as u32;
    match pool.lose(place) {
        Ok(()) => line_reply(text, b"ok"),
        Err(LoseFault::NoSuchDrive) => refused_reply(text, b"no-such-drive"),
        Err(LoseFault::LastDrive) => refused_reply(text, b"last-drive"),
    }
}

// `replace D NAME`
fn perform_replace<R: Bay>(
    pool: &mut Pool<R>,
    place: u64,
    name: &ImageName,
    text: &mut ReplyText,
) -> Answer
    requires { (volume (view R.seen R.shelf pool.old)).fit }
    ensures answers { Acts (view R.seen R.shelf pool.old) (view R.seen R.shelf pool.new) (Ok (Replace place name.now)) result text.new.items }
    ensures frame { R.frame (bay_in pool.old) (bay_in pool.new) }
{
    // No place is greater than the last number of 32 bits.
    let place = place.min(u64::from(u32::MAX)) as u32;
    match pool.replace(place, name.as_str()) {
        Ok(()) => {
            line_reply(text, b"ok");
            Answer::Given
        }
        Err(fault) => decline_reply(text, fault),
    }
}

// `add NAME`
fn perform_add<R: Bay>(pool: &mut Pool<R>, name: &ImageName, text: &mut ReplyText) -> Answer
    requires { (volume (view R.seen R.shelf pool.old)).fit }
    ensures grows { GrowsOn (view R.seen R.shelf pool.old) (view R.seen R.shelf pool.new) (Ok (Add name.now)) result text.new.items }
    ensures frame { R.frame (bay_in pool.old) (bay_in pool.new) }
{
    match pool.add(name.as_str()) {
        Ok(()) => {
            line_reply(text, b"ok");
            Answer::Given
        }
        Err(fault) => decline_reply(text, fault),
    }
}

// `refused W`, where W is the word of why a drive isn't taken in.
fn decline_reply(text: &mut ReplyText, fault: GrowFault) -> Answer
    ensures text { text.new.items ≡ refused_line (grow_word fault) }
    ensures answer { result ≡ answer_by fault }
{
    refused_reply(text, word_of_fault(fault));
    match fault {
        GrowFault::Memory => Answer::Memory,
        _ => Answer::Given,
    }
}

// The word of why a drive isn't taken in.
fn word_of_fault(fault: GrowFault) -> &'static [u8]
    ensures { result.now ≡ grow_word fault }
{
    match fault {
        GrowFault::NoSuchDrive => b"no-such-drive",
        GrowFault::Attach => b"attach",
        GrowFault::Twice => b"twice",
        GrowFault::Memory => b"memory",
        GrowFault::PlanPending => b"plan-pending",
        GrowFault::NotWhole => b"not-whole",
        GrowFault::NotResynced => b"not-resynced",
        GrowFault::Size => b"size",
        GrowFault::Smaller => b"smaller",
        GrowFault::TooManyDrives => b"too-many-drives",
        GrowFault::TooManyLayers => b"too-many-layers",
        GrowFault::TooManySegments => b"too-many-segments",
        GrowFault::Gone => b"drive-gone",
    }
}

// `refused stuck A`
fn stuck_reply(text: &mut ReplyText, array: u32) -> Answer
    ensures text { text.new.items ≡ stuck_line array }
    ensures answer { result ≡ Answer.Spent }
{
    refused_number_reply(text, b"stuck", u64::from(array));
    Answer::Spent
}

// `step N`
fn perform_step<R: Bay>(pool: &mut Pool<R>, count: u64, text: &mut ReplyText) -> Answer
    requires { (volume (view R.seen R.shelf pool.old)).fit }
    ensures answers { Acts (view R.seen R.shelf pool.old) (view R.seen R.shelf pool.new) (Ok (Step count)) result text.new.items }
    ensures runs { R.runs (bay_in pool.old) (bay_in pool.new) }
{
    if pool.has_growth_left() {
        grow(pool, count, text)
    } else {
        maintain(pool, count, text)
    }
}

// `step N`, where a work of a growth is left.
fn grow<R: Bay>(pool: &mut Pool<R>, count: u64, text: &mut ReplyText) -> Answer
    requires fit { (volume (view R.seen R.shelf pool.old)).fit }
    requires left { has_growth (view R.seen R.shelf pool.old).linear (book (view R.seen R.shelf pool.old)) ≡ true }
    ensures grows { GrowsOn (view R.seen R.shelf pool.old) (view R.seen R.shelf pool.new) (Ok (Step count)) result text.new.items }
    ensures runs { R.runs (bay_in pool.old) (bay_in pool.new) }
{
    match pool.grow(count) {
        Ok(left) => {
            left_reply(text, left);
            Answer::Given
        }
        Err(stuck) => stuck_reply(text, stuck.array),
    }
}

// `step N`, where none is.
fn maintain<R: Bay>(pool: &mut Pool<R>, count: u64, text: &mut ReplyText) -> Answer
    requires fit { (volume (view R.seen R.shelf pool.old)).fit }
    requires none { has_growth (view R.seen R.shelf pool.old).linear (book (view R.seen R.shelf pool.old)) ≡ false }
    ensures answers { Answers (view R.seen R.shelf pool.old) (view R.seen R.shelf pool.new) (Ok (Step count)) result text.new.items }
    ensures runs { R.runs (bay_in pool.old) (bay_in pool.new) }
{
    match pool.step(count) {
        Ok(left) => {
            left_reply(text, left);
            Answer::Given
        }
        Err(stuck) => stuck_reply(text, stuck.array),
    }
}
