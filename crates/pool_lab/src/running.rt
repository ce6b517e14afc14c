//! One run of the program over the drives of a case.

use crate::bay::LabBay;
use crate::drives::{Contents, Drive};
use crate::ends::{Ends, ScriptSource, WatchedSink};
use crate::machine::{Entry, Machine, Refusals};
use io_ends::MemSink;
use pool::Birth;
use shr_script::{Command, next_line, without_return};
use shr_tool::run;
use std::alloc::{AllocError, Global};
use std::cell::Cell;

// The bytes that a run may put.
const ROOM: usize = 1 << 24;

// Each pool of a case is born at the same second, with the id of its case's choice.
const SECONDS: u64 = 0;

/// What a run is given.
#[derive(Drop)]
pub struct Given<'a> {
    /// The words of the program.
    pub words: &'a [String],
    /// Its input.
    pub script: &'a [u8],
    /// The calls of the drives that are refused.
    pub refusals: &'a Refusals,
    /// How its ends fail.
    pub ends: Ends,
    /// The first byte of the id of a pool that it makes.
    pub id: u8,
}

/// What came of a run.
#[derive(Drop)]
pub struct Ran {
    /// The status that the program ends with.
    pub status: u8,
    /// What it put.
    pub output: Vec<u8>,
    /// How many calls the drives were asked.
    pub calls: u64,
    /// Those calls that changed something.
    pub log: Vec<Entry>,
    /// How many calls had been made when each line of the script was asked for.
    pub starts: Vec<u64>,
    /// How many had been made when each reply was put.
    pub puts: Vec<u64>,
}

impl Ran {
    /// Whether each reply to a script was put after the calls of its line, and before those of the next one.
    pub fn is_in_order(&self, lines: &[&[u8]]) -> bool {
        let mut puts = self.puts.iter();
        for (line, next) in lines.iter().zip(self.starts.iter().skip(1)) {
            if has_reply(line) && puts.next() != Some(next) {
                return false;
            }
        }
        true
    }
}

// Whether a line of a script has a reply.
fn has_reply(line: &[u8]) -> bool {
    match next_line(without_return(line)) {
        Ok(None) => false,
        Ok(Some(Command::Quit)) => false,
        _ => true,
    }
}

/// Runs the program over drives with these contents, and leaves in them what the run has left.
pub fn run_over(
    alloc: Global,
    drives: &[Drive],
    contents: &mut Contents,
    given: &Given<'_>,
) -> Result<Ran, AllocError> {
    let calls = Cell::new(0);
    let machine = Machine {
        drives,
        contents: contents.copy()?,
        refusals: given.refusals,
        calls: &calls,
        log: Vec::new(alloc),
        dead: Vec::new(alloc),
    };
    let mut bay = LabBay::new(alloc, machine);
    let mut input = ScriptSource::new(given.script, given.ends, &calls, Vec::new(alloc));
    let mut out = WatchedSink {
        sink: sink(alloc, given.ends.put)?,
        calls: &calls,
        puts: Vec::new(alloc),
    };
    let mut pool = [0; 16];
    pool[0] = given.id;
    let birth = Birth {
        seconds: SECONDS,
        pool,
    };
    let status = run(alloc, given.words, &mut bay, &mut input, &mut out, &birth);
    let output = out.sink.bytes().to_vec(alloc)?;
    let machine = bay.into_machine();
    *contents = machine.contents;
    Ok(Ran {
        status,
        output,
        calls: calls.get(),
        log: machine.log,
        starts: input.into_starts(),
        puts: out.puts,
    })
}

// A sink with room for all that a run puts.
fn sink(alloc: Global, fails_at: Option<u64>) -> Result<MemSink, AllocError> {
    MemSink::new(alloc, ROOM, fails_at).map_err(|_| AllocError)
}
