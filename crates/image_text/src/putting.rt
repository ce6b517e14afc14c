//! Lines, put in a sink.

ghost use Rattle.std.specs.Prelude.{◌≡◌, ◌≤◌, ◌++◌, [], ◌∷◌, Ok, codes, decimal, length, position};
ghost use Rattle.shr_script.specs.Reply.{as_line};
ghost use Rattle.lvm_text.specs.Group.{group_of};
ghost use Rattle.image_text.specs.Putting.{Says};
ghost use Rattle.image_text.specs.Lines.{volume_lines, text_lines, group_words};
ghost use Rattle.image_text.specs.Volume.{is_zero, before_zero};

use crate::Stop;
use crate::volume::Volume;
use io_ends::Sink;
use lvm_text::{Group, TextFault, parse};
use shr_script::{ReplyText, add, add_field, line_reply};
use std::alloc::Global;

/// Puts one line.
pub fn put_line<O: Sink>(text: &ReplyText, out: &mut O) -> Result<(), Stop>
    ensures { Says (O.faults out.old) (O.faults out.new) (O.told out.old) (O.told out.new) (O.taken out.old) (O.taken out.new) (text.now.items ∷ []) result }
{
    match out.put(text.as_slice()) {
        Ok(()) => Ok(()),
        Err(_) => Err(Stop::Sink),
    }
}

// Puts words as a line.
fn put_words<O: Sink>(words: &[u8], out: &mut O) -> Result<(), Stop>
    requires { length words.now ≤ 100 }
    ensures { Says (O.faults out.old) (O.faults out.new) (O.told out.old) (O.told out.new) (O.taken out.old) (O.taken out.new) (as_line words.now ∷ []) result }
{
    let mut text = ReplyText::new();
    line_reply(&mut text, words);
    put_line(&text, out)
}

/// Puts the LVM lines of a place.
pub fn put_volume<O: Sink>(alloc: Global, volume: &Volume, out: &mut O) -> Result<(), Stop>
    ensures { Says (O.faults out.old) (O.faults out.new) (O.told out.old) (O.told out.new) (O.taken out.old) (O.taken out.new) (volume_lines volume.now) result }
{
    match volume {
        Volume::Nothing => put_words(b"lvm none", out),
        Volume::BadCrc => put_words(b"lvm bad-crc", out),
        Volume::BadHeader => put_words(b"lvm bad-header", out),
        Volume::Empty => put_words(b"lvm empty", out),
        Volume::Outside => put_words(b"lvm outside", out),
        Volume::BadText => put_words(b"lvm bad-text", out),
        Volume::Text { bytes } => put_text(alloc, without_zero(bytes.as_slice()), out),
    }
}

// The bytes up to the first zero.
fn without_zero(bytes: &[u8]) -> &[u8]
    ensures { result.now ≡ before_zero bytes.now }
{
    match first_zero(bytes) {
        Some(end) => &bytes[..end],
        None => bytes,
    }
}

// The place of the first zero.
fn first_zero(bytes: &[u8]) -> Option<usize>
    ensures { result ≡ position is_zero bytes.now }
{
    bytes.iter().position(|byte| *byte == 0)
}

// Puts a text, its length before it and its group behind it.
fn put_text<O: Sink>(alloc: Global, text: &[u8], out: &mut O) -> Result<(), Stop>
    ensures { Says (O.faults out.old) (O.faults out.new) (O.told out.old) (O.told out.new) (O.taken out.old) (O.taken out.new) (text_lines text.now) result }
{
    match put_length(text, out) {
        Ok(()) => {}
        Err(stop) => return Err(stop),
    }
    match put_bytes(text, out) {
        Ok(()) => {}
        Err(stop) => return Err(stop),
    }
    put_group(alloc, text, out)
}

// `text LEN`
fn put_length<O: Sink>(text: &[u8], out: &mut O) -> Result<(), Stop>
    ensures { Says (O.faults out.old) (O.faults out.new) (O.told out.old) (O.told out.new) (O.taken out.old) (O.taken out.new) (as_line (codes "text " ++ decimal (length text.now)) ∷ []) result }
{
    let mut line = ReplyText::new();
    add_field(&mut line, b"text ", text.len() as u64);
    add(&mut line, b"\n");
    put_line(&line, out)
}

// Puts bytes and a line feed.
fn put_bytes<O: Sink>(bytes: &[u8], out: &mut O) -> Result<(), Stop>
    ensures { Says (O.faults out.old) (O.faults out.new) (O.told out.old) (O.told out.new) (O.taken out.old) (O.taken out.new) (as_line bytes.now ∷ []) result }
{
    match out.put(bytes) {
        Ok(()) => {}
        Err(_) => return Err(Stop::Sink),
    }
    match out.put(b"\n") {
        Ok(()) => Ok(()),
        Err(_) => Err(Stop::Sink),
    }
}

// The group that a text tells, or why it tells none.
fn put_group<O: Sink>(alloc: Global, text: &[u8], out: &mut O) -> Result<(), Stop>
    ensures { Says (O.faults out.old) (O.faults out.new) (O.told out.old) (O.told out.new) (O.taken out.old) (O.taken out.new) (as_line (group_words (group_of text.now)) ∷ []) result }
{
    match parse(alloc, text) {
        Ok(group) => put_found(&group, out),
        Err(TextFault::Memory) => Err(Stop::Memory),
        Err(TextFault::Syntax { at }) => {
            let mut line = ReplyText::new();
            add(&mut line, b"group refused ");
            add_field(&mut line, b"syntax ", at);
            add(&mut line, b"\n");
            put_line(&line, out)
        }
        Err(TextFault::Missing { .. }) => put_words(b"group refused missing", out),
        Err(TextFault::Range { .. }) => put_words(b"group refused range", out),
    }
}

// `group NAME seqno Q extent E pvs P lvs V`
fn put_found<O: Sink>(group: &Group, out: &mut O) -> Result<(), Stop>
    ensures { Says (O.faults out.old) (O.faults out.new) (O.told out.old) (O.told out.new) (O.taken out.old) (O.taken out.new) (as_line (group_words (Ok group.now)) ∷ []) result }
{
    match out.put(b"group ") {
        Ok(()) => {}
        Err(_) => return Err(Stop::Sink),
    }
    match out.put(group.name.bytes()) {
        Ok(()) => {}
        Err(_) => return Err(Stop::Sink),
    }
    let mut line = ReplyText::new();
    counts_text(&mut line, group);
    match out.put(line.as_slice()) {
        Ok(()) => Ok(()),
        Err(_) => Err(Stop::Sink),
    }
}

// ` seqno Q extent E pvs P lvs V` and a line feed
fn counts_text(line: &mut ReplyText, group: &Group)
    ensures { line.new.items ≡ codes " seqno " ++ decimal group.now.seqno ++ codes " extent " ++ decimal group.now.extent_size ++ codes " pvs " ++ decimal (length group.now.pvs) ++ codes " lvs " ++ decimal (length group.now.lvs) ++ 10 ∷ [] }
{
    line.clear();
    add_field(line, b" seqno ", group.seqno);
    add_field(line, b" extent ", group.extent_size);
    add_field(line, b" pvs ", group.pvs.as_slice().len() as u64);
    add_field(line, b" lvs ", group.lvs.as_slice().len() as u64);
    add(line, b"\n");
}
