//! Answers a script on a pool, line by line.

mod finish;
mod once;

ghost use Rattle.std.specs.Prelude.{◌≡◌, ◌≢◌, ◌<◌, ◌≤◌, ◌^◌, Some, Ok, IsOk, IfErr};
ghost use Rattle.shr_script.specs.declared.Command.TheVariants.{Quit};
ghost use Rattle.shr_script.specs.Line.{line_of};
ghost use Rattle.shr_script.specs.Script.{without_return as line_without_return};
ghost use Rattle.pool.specs.Proceeding.{Proceeds};
ghost use Rattle.pool.specs.View.{bay_in, view, volume};
ghost use Rattle.shr_tool.specs.Limits.{KeepsLimit};
ghost use Rattle.shr_tool.specs.Events as spec;
ghost use Rattle.shr_tool.specs.Serving.{IsReplied, LineAnswers, Serves, HasStopCause, LastAnswers};

use crate::perform::{Answer, answer_in};
pub use finish::serve_pool;
use io_ends::{Sink, Source};
pub use once::show_pool;
use pool::Pool;
use rack::{Bay, Rack};
use shr_script::{
    Command, Ended, LineFault, LineReader, ReplyText, SCRIPT_LIMIT, next_line, without_return,
};

/// Why the answering of a script stopped.
#[derive(Clone, Copy, Debug, PartialEq, Eq)]
pub enum Stop {
    /// A line `quit` was read.
    Quit,
    /// All lines of the input were answered.
    Input,
    /// The source failed.
    SourceFault,
    /// The limit of a script was reached, with more to come.
    Limit,
    /// The sink refused a reply.
    SinkFault,
}

/// How far a script was answered.
#[derive(Clone, Copy, Debug, PartialEq, Eq)]
pub struct Stopped {
    /// Why no further.
    pub cause: Stop,
    /// The worst of the answers.
    pub worst: Answer,
}

/// Answers the lines of the input until one of the causes in [`Stop`].
pub fn answer_script<R: Bay, I: Source, O: Sink>(
    pool: &mut Pool<R>,
    input: &mut I,
    out: &mut O,
) -> Stopped
    requires { (volume (view R.seen R.shelf pool.old)).fit }
    ensures proceeds { Proceeds (view R.seen R.shelf pool.old) (view R.seen R.shelf pool.new) }
    ensures frame { R.frame (bay_in pool.old) (bay_in pool.new) }
    ensures source { I.faults input.old ≤ I.faults input.new }
    ensures sink { O.faults out.old ≤ O.faults out.new }
    ensures cause { HasStopCause result.cause (I.faults input.old) (I.faults input.new) (O.faults out.old) (O.faults out.new) }
    ensures told { O.told out.old → O.told out.new }
    ensures limit { I.told input.old → KeepsLimit (result.cause ≡ Stop.Limit) (2 ^ 32) (I.left input.old) (I.left input.new) }
    ensures serves { I.told input.old → O.told out.old → Serves result.cause (view R.seen R.shelf pool.old) (view R.seen R.shelf pool.new) (I.left input.old) (I.left input.new) (O.taken out.old) (O.taken out.new) result.worst }
{
    let mut reader = LineReader::new();
    let mut text = ReplyText::new();
    let mut worst = Answer::Given;
    'lines: loop {
        match reader.next(input, SCRIPT_LIMIT) {
            Ended::Fault => return stop_at(Stop::SourceFault, worst),
            Ended::Limit => return stop_at(Stop::Limit, worst),
            Ended::Input => return answer_last(pool, reader.line(), worst, &mut text, out),
            Ended::LineFeed => {}
        }
        match answer_line(pool, reader.line(), &mut text, out) {
            Ok(answer) => worst = worse(worst, answer),
            Err(cause) => return stop_at(cause, worst),
        }
    }
}

// The worse of two answers.
fn worse(one: Answer, other: Answer) -> Answer
    ensures { result ≡ spec.worse one other }
{
    match one {
        Answer::Given => other,
        Answer::Spent => match other {
            Answer::Given | Answer::Spent => Answer::Spent,
            Answer::Memory => Answer::Memory,
        },
        Answer::Memory => Answer::Memory,
    }
}

// A script that stopped.
fn stop_at(cause: Stop, worst: Answer) -> Stopped
    ensures cause { result.cause ≡ cause }
    ensures worst { result.worst ≡ worst }
{
    Stopped { cause, worst }
}

// Answers the last line of the input. `worst` is the worst of the answers before it.
fn answer_last<R: Bay, O: Sink>(
    pool: &mut Pool<R>,
    line: &[u8],
    worst: Answer,
    text: &mut ReplyText,
    out: &mut O,
) -> Stopped
    requires { (volume (view R.seen R.shelf pool.old)).fit }
    ensures proceeds { Proceeds (view R.seen R.shelf pool.old) (view R.seen R.shelf pool.new) }
    ensures frame { R.frame (bay_in pool.old) (bay_in pool.new) }
    ensures sink { O.faults out.old ≤ O.faults out.new }
    ensures cause { HasStopCause result.cause 0 0 (O.faults out.old) (O.faults out.new) }
    ensures told { O.told out.old → O.told out.new }
    ensures other { result.cause ≢ Stop.Limit }
    ensures answers { O.told out.old → LastAnswers (view R.seen R.shelf) worst result.worst result.cause (line_of (line_without_return line.now)) pool.old pool.new (O.taken out.old) (O.taken out.new) }
{
    match answer_line(pool, line, text, out) {
        Ok(answer) => stop_at(Stop::Input, worse(worst, answer)),
        Err(cause) => stop_at(cause, worst),
    }
}

// Answers one line.
fn answer_line<R: Bay, O: Sink>(
    pool: &mut Pool<R>,
    line: &[u8],
    text: &mut ReplyText,
    out: &mut O,
) -> Result<Answer, Stop>
    requires { (volume (view R.seen R.shelf pool.old)).fit }
    ensures proceeds { Proceeds (view R.seen R.shelf pool.old) (view R.seen R.shelf pool.new) }
    ensures frame { R.frame (bay_in pool.old) (bay_in pool.new) }
    ensures sink { O.faults out.old ≤ O.faults out.new }
    ensures cause { IfErr result (λ stop. HasStopCause stop 0 0 (O.faults out.old) (O.faults out.new)) }
    ensures told { O.told out.old → O.told out.new }
    ensures goes_on { IsOk result → line_of (line_without_return line.now) ≢ Some (Ok Quit) }
    ensures other { IfErr result (λ stop. stop ≢ Stop.Limit) }
    ensures answers { O.told out.old → LineAnswers (view R.seen R.shelf) result (line_of (line_without_return line.now)) pool.old pool.new (O.taken out.old) (O.taken out.new) }
{
    match next_line(without_return(line)).transpose() {
        None => Ok(Answer::Given),
        Some(Ok(Command::Quit)) => Err(Stop::Quit),
        Some(said) => answer(pool, &said, text, out),
    }
}

// Answers what a line says and puts the reply.
fn answer<R: Bay, O: Sink>(
    pool: &mut Pool<R>,
    said: &Result<Command, LineFault>,
    text: &mut ReplyText,
    out: &mut O,
) -> Result<Answer, Stop>
    requires fit { (volume (view R.seen R.shelf pool.old)).fit }
    requires replied { IsReplied said.now }
    ensures proceeds { Proceeds (view R.seen R.shelf pool.old) (view R.seen R.shelf pool.new) }
    ensures frame { R.frame (bay_in pool.old) (bay_in pool.new) }
    ensures sink { O.faults out.old ≤ O.faults out.new }
    ensures cause { IfErr result (λ stop. HasStopCause stop 0 0 (O.faults out.old) (O.faults out.new)) }
    ensures told { O.told out.old → O.told out.new }
    ensures other { IfErr result (λ stop. stop ≢ Stop.Limit) }
    ensures answers { O.told out.old → LineAnswers (view R.seen R.shelf) result (Some said.now) pool.old pool.new (O.taken out.old) (O.taken out.new) }
{
    let answer = answer_in(pool, said, text);
    match out.put(text.as_slice()) {
        Ok(()) => Ok(answer),
        Err(_) => Err(Stop::SinkFault),
    }
}
