//! Serves a pool: answers the script and ends the pool.

ghost use Rattle.std.specs.Prelude.{◌≡◌, ◌≤◌, ◌^◌};
ghost use Rattle.flat_array.specs.Array.{FlatArray};
ghost use Rattle.pool.specs.Proceeding.{Proceeds};
ghost use Rattle.pool.specs.View.{bay_in, view, volume};
ghost use Rattle.shr_tool.specs.Serving.{IsServing};
ghost use Rattle.shr_tool.specs.Limits.{KeepsLimit};
ghost use Rattle.shr_tool.specs.Outcome.{Outcome, HasStatusCause, status_by};
ghost use Rattle.pool.specs.Moment.{moment_of};

use crate::perform::Answer;
use crate::serve::{Stop, Stopped, answer_script};
use crate::status::Status;
use io_ends::{Sink, Source};
use pool::Pool;
use rack::{Bay, Rack};

/// Answers the script on the input, and ends the pool.
pub fn serve_pool<R: Bay, I: Source, O: Sink>(
    pool: &mut Pool<R>,
    input: &mut I,
    out: &mut O,
) -> Status
    requires { (volume (view R.seen R.shelf pool.old)).fit }
    ensures proceeds { Proceeds (view R.seen R.shelf pool.old) (view R.seen R.shelf pool.new) }
    ensures frame { R.frame (bay_in pool.old) (bay_in pool.new) }
    ensures source { I.faults input.old ≤ I.faults input.new }
    ensures sink { O.faults out.old ≤ O.faults out.new }
    ensures cause { HasStatusCause result (I.faults input.old) (I.faults input.new) (O.faults out.old) (O.faults out.new) }
    ensures limit { I.told input.old → KeepsLimit (result ≡ Status.Limit) (2 ^ 32) (I.left input.old) (I.left input.new) }
    ensures outcome { I.told input.old → O.told out.old → (a : FlatArray)
        → Outcome result (IsServing (view R.seen R.shelf pool.old) a) (R.seen (bay_in pool.old)).traced (R.seen (bay_in pool.old)) (R.seen (bay_in pool.new))
        (moment_of (view R.seen R.shelf pool.old)) a
        (I.left input.old) (I.left input.new) (O.taken out.old) (O.taken out.new) }
{
    let stopped = answer_script(pool, input, out);
    pool.end();
    status_of(stopped)
}

/// The status of a script that stopped, on a pool that was ended.
pub(crate) fn status_of(stopped: Stopped) -> Status
    ensures { result ≡ status_by stopped.cause stopped.worst }
{
    match stopped.cause {
        Stop::Quit | Stop::Input => match stopped.worst {
            Answer::Given => Status::Done,
            Answer::Spent => Status::Spent,
            Answer::Memory => Status::Memory,
        },
        Stop::SourceFault => Status::Source,
        Stop::Limit => Status::Limit,
        Stop::SinkFault => Status::Sink,
    }
}
