//! `examine NAME`: prints what stands on an image.

ghost use Rattle.std.specs.Prelude.{◌≡◌, ◌≢◌, ◌≤◌, ◌<◌, length, map, string_bytes};
ghost use Rattle.shr_tool.specs.Outcome.{HasStatusCause};
ghost use Rattle.shr_tool.specs.Examining.{ExamineOutcome};

use crate::attaching::{attach_all, refuse_name};
use crate::saying::refuse;
use crate::status::Status;
use image_text::{Stop, examine};
use io_ends::Sink;
use rack::{Bay, Rack};
use std::alloc::Global;

/// Attaches the image, and puts its text.
pub fn examine_image<B: Bay, O: Sink>(
    alloc: Global,
    bay: &mut B,
    names: &[String],
    out: &mut O,
) -> Status
    requires none { (B.seen bay.old).disks ≡ 0 }
    requires some { 0 < length names.now }
    ensures sink { O.faults out.old ≤ O.faults out.new }
    ensures cause { HasStatusCause result 0 0 (O.faults out.old) (O.faults out.new) }
    ensures other { result ≢ Status.Limit }
    ensures outcome { O.told out.old → ExamineOutcome (B.seen bay.old) (B.shelf bay.old) (B.seen bay.new) (B.shelf bay.new)
        (map string_bytes names.now) (O.taken out.old) (O.taken out.new) result }
{
    match attach_all(bay, names) {
        Ok(()) => {}
        Err(at) => return refuse_name(out, at),
    }
    match examine(alloc, bay, 0, out) {
        Ok(()) => Status::Done,
        Err(Stop::Sink) => Status::Sink,
        Err(Stop::Gone) => refuse(out, b"drive-gone 0", Status::Refused),
        Err(Stop::Memory) => refuse(out, b"memory", Status::Memory),
    }
}
