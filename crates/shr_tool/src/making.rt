//! `create E NAME..`: makes a pool of zeros of the named disks.

ghost use Rattle.std.specs.Prelude.{◌≡◌, ◌≢◌, ◌≤◌, map, string_bytes, true};
ghost use Rattle.pool_state.specs.Valid.{is_extent};
ghost use Rattle.shr_tool.specs.Outcome.{HasStatusCause};
ghost use Rattle.shr_tool.specs.Made.{MakeOutcome};
ghost use Rattle.shr_tool.specs.Run.{CreateOutcome};

use crate::attaching::{attach_all, refuse_name};
use crate::refusals::refuse_create;
use crate::saying::say_number;
use crate::status::Status;
use io_ends::Sink;
use pool::{Birth, Pool};
use rack::{Bay, Rack};
use std::alloc::Global;

/// Attaches the disks, and makes their pool.
pub fn create<B: Bay, O: Sink>(
    alloc: Global,
    bay: &mut B,
    names: &[String],
    extent: u32,
    birth: &Birth,
    out: &mut O,
) -> Status
    requires none { (B.seen bay.old).disks ≡ 0 }
    requires extent { is_extent extent ≡ true }
    ensures sink { O.faults out.old ≤ O.faults out.new }
    ensures cause { HasStatusCause result 0 0 (O.faults out.old) (O.faults out.new) }
    ensures other { result ≢ Status.Limit }
    ensures outcome { O.told out.old → CreateOutcome B.seen B.shelf B.runs bay.old bay.new
        (map string_bytes names.now) extent birth.now (O.taken out.old) (O.taken out.new) result }
{
    match attach_all(bay, names) {
        Ok(()) => create_attached(alloc, bay, extent, birth, out),
        Err(at) => refuse_name(out, at),
    }
}

// Makes a pool of the attached disks. All of it is durable then, and nothing is left for an end of it to write.
fn create_attached<B: Bay, O: Sink>(
    alloc: Global,
    bay: &mut B,
    extent: u32,
    birth: &Birth,
    out: &mut O,
) -> Status
    requires extent { is_extent extent ≡ true }
    ensures sink { O.faults out.old ≤ O.faults out.new }
    ensures cause { HasStatusCause result 0 0 (O.faults out.old) (O.faults out.new) }
    ensures other { result ≢ Status.Limit }
    ensures outcome { O.told out.old → MakeOutcome B.seen B.runs bay.old bay.new extent birth.now (O.taken out.old) (O.taken out.new) result }
{
    match Pool::create(alloc, bay, extent, birth) {
        Ok(pool) => {
            let sectors = pool.size();
            let _bay = pool.into_inner();
            say_number(out, b"created ", sectors)
        }
        Err(back) => refuse_create(out, back.why),
    }
}
