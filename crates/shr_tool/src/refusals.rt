//! Says why a pool couldn't be opened or made.

ghost use Rattle.std.specs.Prelude.{◌≡◌, ◌≢◌, ◌≤◌, ◌++◌, codes, decimal, length};
ghost use Rattle.shr_script.specs.Reply.{refused_line};
ghost use Rattle.shr_tool.specs.Outcome.{HasStatusCause};
ghost use Rattle.shr_tool.specs.Refusing.{part_word as word_for, refusal_words, refusal_status, plan_words, fault_words, fault_status};
ghost use Rattle.shr_tool.specs.Saying.{Says};

use crate::saying::{refuse, say};
use crate::status::Status;
use io_ends::Sink;
use itoa::Buffer;
use layer_plan::PlanError;
use pool::{CreateFault, Part, Refusal};
use shr_script::{ReplyText, add, refused_number_reply};

/// Says why a pool couldn't be opened.
pub fn refuse_open<O: Sink>(out: &mut O, why: Refusal) -> Status
    ensures sink { O.faults out.old ≤ O.faults out.new }
    ensures cause { HasStatusCause result 0 0 (O.faults out.old) (O.faults out.new) }
    ensures other { result ≢ Status.Limit }
    ensures says { O.told out.old → Says (refusal_status why) (refused_line (refusal_words why)) (O.taken out.old) (O.taken out.new) result }
{
    match why {
        Refusal::NoPool => refuse(out, b"no-pool", Status::Refused),
        Refusal::TwoPools => refuse(out, b"two-pools", Status::Refused),
        Refusal::Absent { count } => refuse_number(out, b"absent", count),
        Refusal::Damaged { place, part } => refuse_damaged(out, place, part),
        Refusal::TooFew { array } => refuse_number(out, b"too-few", array),
        Refusal::DirtyDegraded { array } => refuse_number(out, b"dirty-degraded", array),
        Refusal::BadVolume { array } => refuse_number(out, b"bad-volume", array),
        Refusal::Memory => refuse(out, b"memory", Status::Memory),
    }
}

/// Says why a pool couldn't be made.
pub fn refuse_create<O: Sink>(out: &mut O, why: CreateFault) -> Status
    ensures sink { O.faults out.old ≤ O.faults out.new }
    ensures cause { HasStatusCause result 0 0 (O.faults out.old) (O.faults out.new) }
    ensures other { result ≢ Status.Limit }
    ensures says { O.told out.old → Says (fault_status why) (refused_line (fault_words why)) (O.taken out.old) (O.taken out.new) result }
{
    match why {
        CreateFault::Layout(error) => refuse_plan(out, error),
        CreateFault::Gone { disk } => refuse_number(out, b"drive-gone", disk),
        CreateFault::Memory => refuse(out, b"memory", Status::Memory),
    }
}

// Says why drives have no plan.
fn refuse_plan<O: Sink>(out: &mut O, error: PlanError) -> Status
    ensures sink { O.faults out.old ≤ O.faults out.new }
    ensures cause { HasStatusCause result 0 0 (O.faults out.old) (O.faults out.new) }
    ensures other { result ≢ Status.Limit }
    ensures says { O.told out.old → Says Status.Refused (refused_line (plan_words error)) (O.taken out.old) (O.taken out.new) result }
{
    match error {
        PlanError::TooFew => refuse(out, b"too-few", Status::Refused),
        PlanError::TooMany => refuse(out, b"too-many", Status::Refused),
        PlanError::NoRoom { drive } => refuse_number(out, b"no-room", drive),
    }
}

// Puts `refused WHY N`.
fn refuse_number<O: Sink>(out: &mut O, why: &[u8], number: u32) -> Status
    requires { length why.now ≤ 100 }
    ensures sink { O.faults out.old ≤ O.faults out.new }
    ensures cause { HasStatusCause result 0 0 (O.faults out.old) (O.faults out.new) }
    ensures other { result ≢ Status.Limit }
    ensures says { O.told out.old → Says Status.Refused (refused_line (why.now ++ codes " " ++ decimal number)) (O.taken out.old) (O.taken out.new) result }
{
    let mut text = ReplyText::new();
    refused_number_reply(&mut text, why, u64::from(number));
    say(out, &text, Status::Refused)
}

// Puts `refused damaged P PART`.
fn refuse_damaged<O: Sink>(out: &mut O, place: u32, part: Part) -> Status
    ensures sink { O.faults out.old ≤ O.faults out.new }
    ensures cause { HasStatusCause result 0 0 (O.faults out.old) (O.faults out.new) }
    ensures other { result ≢ Status.Limit }
    ensures says { O.told out.old → Says Status.Refused (refused_line (codes "damaged " ++ decimal place ++ codes " " ++ word_for part)) (O.taken out.old) (O.taken out.new) result }
{
    let mut text = ReplyText::new();
    damaged_reply(&mut text, place, part);
    say(out, &text, Status::Refused)
}

// `refused damaged P PART`
fn damaged_reply(text: &mut ReplyText, place: u32, part: Part)
    ensures { text.new.items ≡ refused_line (codes "damaged " ++ decimal place ++ codes " " ++ word_for part) }
{
    let mut digits = Buffer::new();
    text.clear();
    add(text, b"refused damaged ");
    add(text, digits.format(place).as_bytes());
    add(text, b" ");
    add(text, part_word(part));
    add(text, b"\n");
}

// The word for a part of a drive.
fn part_word(part: Part) -> &'static [u8]
    ensures word { result.now ≡ word_for part }
    ensures short { length result.now ≤ 10 }
{
    match part {
        Part::Table => b"table",
        Part::State => b"state",
        Part::Log => b"log",
        Part::Superblock => b"superblock",
    }
}
