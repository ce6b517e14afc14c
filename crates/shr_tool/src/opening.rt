//! `serve NAME..`, `import NAME..`, `export NAME..`, `status NAME..` and `trial SEED NAME..`: opens the pool of the named disks and does the task on it.

ghost use Rattle.std.specs.Prelude.{◌≡◌, ◌≢◌, ◌⊎◌, ◌≤◌, ◌^◌, false, map, codes, string_bytes};
ghost use Rattle.rack.specs.Sequences.{OnlyReads};
ghost use Rattle.flat_array.specs.Array.{FlatArray};
ghost use Rattle.pool.specs.Proceeding.{Proceeds};
ghost use Rattle.pool.specs.View.{bay_in, view, volume};
ghost use Rattle.shr_tool.specs.Serving.{IsServing};
ghost use Rattle.shr_tool.specs.Limits.{KeepsLimit};
ghost use Rattle.shr_tool.specs.Outcome.{HasStatusCause};
ghost use Rattle.shr_script.specs.Reply.{refused_line};
ghost use Rattle.shr_tool.specs.Online.{OnlineOutcome};
ghost use Rattle.shr_tool.specs.Opened.{OpenOutcome};
ghost use Rattle.shr_tool.specs.Run.{PoolOutcome};
ghost use Rattle.shr_tool.specs.Saying.{Says};
ghost use Rattle.shr_tool.specs.Tasks.{NeedsInput, TaskOutcome, takes_input};
ghost use Rattle.pool.specs.Moment.{moment_of};

use crate::attaching::{attach_all, refuse_name};
use crate::exporting::export_pool;
use crate::importing::import_pool;
use crate::refusals::refuse_open;
use crate::saying::refuse;
use crate::serve::{serve_pool, show_pool};
use crate::status::Status;
use crate::trial::try_pool;
use io_ends::{Sink, Source};
use online_bay::OnlineBay;
use pool::Pool;
use rack::{Bay, Rack};
use std::alloc::Global;

/// The sector of a drive's state, which each disk is asked for.
const STATE_SECTOR: u64 = 2048;

/// What is done on a pool once it is opened.
#[derive(Clone, Copy, Debug, PartialEq, Eq)]
pub enum Task {
    /// The script on the input is answered.
    Serve,
    /// The input's bytes are written to the volume.
    Import,
    /// The volume's bytes are put.
    Export,
    /// How the pool stands is said, as the script `status` is answered.
    Show,
    /// The turns that a generator draws are taken.
    Trial {
        /// What the generator starts with.
        seed: u64,
    },
}

/// Attaches the disks, opens their pool, does the task on it, and ends the pool.
pub fn open_for<B: Bay, I: Source, O: Sink>(
    alloc: Global,
    bay: &mut B,
    names: &[String],
    seconds: u64,
    task: Task,
    input: &mut I,
    out: &mut O,
) -> Status
    requires { (B.seen bay.old).disks ≡ 0 }
    ensures source { I.faults input.old ≤ I.faults input.new }
    ensures sink { O.faults out.old ≤ O.faults out.new }
    ensures cause { HasStatusCause result (I.faults input.old) (I.faults input.new) (O.faults out.old) (O.faults out.new) }
    ensures limit { task ≡ Task.Serve → I.told input.old → KeepsLimit (result ≡ Status.Limit) (2 ^ 32) (I.left input.old) (I.left input.new) }
    ensures other { task ≢ Task.Serve → result ≢ Status.Limit }
    ensures unread { takes_input task ≡ false → input.new ≡ input.old }
    ensures outcome { NeedsInput task (I.told input.old) → O.told out.old
        → PoolOutcome B.seen B.shelf B.runs bay.old bay.new task (map string_bytes names.now)
        (I.left input.old) (I.left input.new) (O.taken out.old) (O.taken out.new) result }
{
    match attach_all(bay, names) {
        Ok(()) => open_online(alloc, bay, seconds, task, input, out),
        Err(at) => refuse_name(out, at),
    }
}

/// Opens the pool of the attached disks that answer, and does the task on it.
pub(crate) fn open_online<B: Bay, I: Source, O: Sink>(
    alloc: Global,
    bay: &mut B,
    seconds: u64,
    task: Task,
    input: &mut I,
    out: &mut O,
) -> Status
    ensures source { I.faults input.old ≤ I.faults input.new }
    ensures sink { O.faults out.old ≤ O.faults out.new }
    ensures cause { HasStatusCause result (I.faults input.old) (I.faults input.new) (O.faults out.old) (O.faults out.new) }
    ensures limit { task ≡ Task.Serve → I.told input.old → KeepsLimit (result ≡ Status.Limit) (2 ^ 32) (I.left input.old) (I.left input.new) }
    ensures other { task ≢ Task.Serve → result ≢ Status.Limit }
    ensures unread { takes_input task ≡ false → input.new ≡ input.old }
    ensures outcome { NeedsInput task (I.told input.old) → O.told out.old
        → (OnlyReads (B.seen bay.old) (B.seen bay.new) × B.runs bay.old bay.new × Says Status.Memory (refused_line (codes "memory")) (O.taken out.old) (O.taken out.new) result)
        ⊎ OnlineOutcome B.seen B.shelf B.runs bay.old bay.new task
        (I.left input.old) (I.left input.new) (O.taken out.old) (O.taken out.new) result }
{
    match OnlineBay::probe(alloc, bay, STATE_SECTOR) {
        Ok(mut online) => {
            let status = open_attached(alloc, &mut online, seconds, task, input, out);
            let _bay = online.into_inner();
            status
        }
        Err(back) => {
            let _bay = back.rack;
            refuse(out, b"memory", Status::Memory)
        }
    }
}

/// Opens the pool of the attached disks, and does the task on it.
fn open_attached<B: Bay, I: Source, O: Sink>(
    alloc: Global,
    bay: &mut B,
    seconds: u64,
    task: Task,
    input: &mut I,
    out: &mut O,
) -> Status
    ensures frame { B.frame bay.old bay.new }
    ensures source { I.faults input.old ≤ I.faults input.new }
    ensures sink { O.faults out.old ≤ O.faults out.new }
    ensures cause { HasStatusCause result (I.faults input.old) (I.faults input.new) (O.faults out.old) (O.faults out.new) }
    ensures limit { task ≡ Task.Serve → I.told input.old → KeepsLimit (result ≡ Status.Limit) (2 ^ 32) (I.left input.old) (I.left input.new) }
    ensures other { task ≢ Task.Serve → result ≢ Status.Limit }
    ensures unread { takes_input task ≡ false → input.new ≡ input.old }
    ensures outcome { NeedsInput task (I.told input.old) → O.told out.old
        → OpenOutcome B.seen B.shelf B.runs bay.old bay.new task
        (I.left input.old) (I.left input.new) (O.taken out.old) (O.taken out.new) result }
{
    match Pool::open(alloc, bay, seconds) {
        Ok(mut pool) => {
            let status = do_on(&mut pool, task, input, out);
            let _bay = pool.into_inner();
            status
        }
        Err(back) => refuse_open(out, back.why),
    }
}

// Does the task on a pool, and ends it.
fn do_on<R: Bay, I: Source, O: Sink>(
    pool: &mut Pool<R>,
    task: Task,
    input: &mut I,
    out: &mut O,
) -> Status
    requires { (volume (view R.seen R.shelf pool.old)).fit }
    ensures proceeds { Proceeds (view R.seen R.shelf pool.old) (view R.seen R.shelf pool.new) }
    ensures frame { R.frame (bay_in pool.old) (bay_in pool.new) }
    ensures source { I.faults input.old ≤ I.faults input.new }
    ensures sink { O.faults out.old ≤ O.faults out.new }
    ensures cause { HasStatusCause result (I.faults input.old) (I.faults input.new) (O.faults out.old) (O.faults out.new) }
    ensures limit { task ≡ Task.Serve → I.told input.old → KeepsLimit (result ≡ Status.Limit) (2 ^ 32) (I.left input.old) (I.left input.new) }
    ensures other { task ≢ Task.Serve → result ≢ Status.Limit }
    ensures unread { takes_input task ≡ false → input.new ≡ input.old }
    ensures outcome { NeedsInput task (I.told input.old) → O.told out.old → (a : FlatArray)
        → TaskOutcome task result (IsServing (view R.seen R.shelf pool.old) a) (R.seen (bay_in pool.old)).traced (R.seen (bay_in pool.old)) (R.seen (bay_in pool.new))
        (moment_of (view R.seen R.shelf pool.old)) a
        (I.left input.old) (I.left input.new) (O.taken out.old) (O.taken out.new) }
{
    match task {
        Task::Serve => serve_pool(pool, input, out),
        Task::Import => import_pool(pool, input, out),
        Task::Export => export_pool(pool, out),
        Task::Show => show_pool(pool, out),
        Task::Trial { seed } => try_pool(pool, seed, out),
    }
}
