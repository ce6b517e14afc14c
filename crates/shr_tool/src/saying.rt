//! Lines that end a run.

ghost use Rattle.std.specs.Prelude.{◌≡◌, ◌≢◌, ◌⊎◌, ◌≤◌, ◌++◌, codes, decimal, length};
ghost use Rattle.rack.specs.Seen.{Rose};
ghost use Rattle.shr_script.specs.Reply.{as_line, refused_line};
ghost use Rattle.flat_array.specs.Reply.{spent_line};
ghost use Rattle.shr_tool.specs.Outcome.{HasStatusCause};
ghost use Rattle.shr_tool.specs.Saying.{IsSaid, Says};

use crate::status::Status;
use io_ends::Sink;
use itoa::Buffer;
use shr_script::{ReplyText, add, refused_number_reply, refused_reply};

/// Puts `refused WHY`.
pub fn refuse<O: Sink>(out: &mut O, why: &[u8], status: Status) -> Status
    requires short { length why.now ≤ 100 }
    requires said { IsSaid status }
    ensures sink { O.faults out.old ≤ O.faults out.new }
    ensures cause { HasStatusCause result 0 0 (O.faults out.old) (O.faults out.new) }
    ensures other { result ≢ Status.Limit }
    ensures says { O.told out.old → Says status (refused_line why.now) (O.taken out.old) (O.taken out.new) result }
{
    let mut text = ReplyText::new();
    refused_reply(&mut text, why);
    say(out, &text, status)
}

/// Puts `refused spent S`.
pub fn refuse_spent<O: Sink>(out: &mut O, sector: u64) -> Status
    ensures sink { O.faults out.old ≤ O.faults out.new }
    ensures cause { HasStatusCause result 0 0 (O.faults out.old) (O.faults out.new) }
    ensures other { result ≢ Status.Limit }
    ensures says { O.told out.old → Says Status.Spent (spent_line sector) (O.taken out.old) (O.taken out.new) result }
{
    let mut text = ReplyText::new();
    refused_number_reply(&mut text, b"spent", sector);
    say(out, &text, Status::Spent)
}

/// Puts what a run did, and how many.
pub fn say_number<O: Sink>(out: &mut O, what: &[u8], number: u64) -> Status
    requires short { length what.now ≤ 100 }
    ensures sink { O.faults out.old ≤ O.faults out.new }
    ensures cause { HasStatusCause result 0 0 (O.faults out.old) (O.faults out.new) }
    ensures other { result ≢ Status.Limit }
    ensures says { O.told out.old → Says Status.Done (as_line (what.now ++ decimal number)) (O.taken out.old) (O.taken out.new) result }
{
    let mut text = ReplyText::new();
    number_text(&mut text, what, number);
    say(out, &text, Status::Done)
}

// A text and a number, as a line.
fn number_text(text: &mut ReplyText, what: &[u8], number: u64)
    requires { length what.now ≤ 100 }
    ensures { text.new.items ≡ as_line (what.now ++ decimal number) }
{
    let mut digits = Buffer::new();
    text.clear();
    add(text, what);
    add(text, digits.format(number).as_bytes());
    add(text, b"\n");
}

/// Puts a line; the status is that of the sink where it fails.
pub fn say<O: Sink>(out: &mut O, text: &ReplyText, status: Status) -> Status
    requires { IsSaid status }
    ensures sink { O.faults out.old ≤ O.faults out.new }
    ensures cause { HasStatusCause result 0 0 (O.faults out.old) (O.faults out.new) }
    ensures other { result ≢ Status.Limit }
    ensures says { O.told out.old → Says status text.now.items (O.taken out.old) (O.taken out.new) result }
{
    match out.put(text.as_slice()) {
        Ok(()) => status,
        Err(_) => Status::Sink,
    }
}

/// Puts `refused words`.
pub fn refuse_words<O: Sink>(out: &mut O) -> Status
    ensures sink { O.faults out.old ≤ O.faults out.new }
    ensures status { (result ≡ Status.Words) ⊎ ((result ≡ Status.Sink) × Rose (O.faults out.old) (O.faults out.new)) }
    ensures says { O.told out.old → Says Status.Words (refused_line (codes "words")) (O.taken out.old) (O.taken out.new) result }
{
    let mut text = ReplyText::new();
    refused_reply(&mut text, b"words");
    match out.put(text.as_slice()) {
        Ok(()) => Status::Words,
        Err(_) => Status::Sink,
    }
}
