//! Says how a pool stands: answers the script `status` and ends the pool.

ghost use Rattle.std.specs.Prelude.{◌≢◌, ◌≤◌, [], codes};
ghost use Rattle.flat_array.specs.Array.{FlatArray};
ghost use Rattle.pool.specs.Proceeding.{Proceeds};
ghost use Rattle.pool.specs.View.{bay_in, view, volume};
ghost use Rattle.shr_tool.specs.Outcome.{EventsOutcome, HasStatusCause};
ghost use Rattle.shr_tool.specs.Serving.{HasStopCause, IsServing, ServesEvents};
ghost use Rattle.pool.specs.Moment.{moment_of};

use crate::perform::Answer;
use crate::serve::finish::status_of;
use crate::serve::{Stop, Stopped, answer_last};
use crate::status::Status;
use io_ends::Sink;
use pool::Pool;
use rack::{Bay, Rack};
use shr_script::ReplyText;

/// Answers the script `status`, and ends the pool.
pub fn show_pool<R: Bay, O: Sink>(pool: &mut Pool<R>, out: &mut O) -> Status
    requires { (volume (view R.seen R.shelf pool.old)).fit }
    ensures proceeds { Proceeds (view R.seen R.shelf pool.old) (view R.seen R.shelf pool.new) }
    ensures frame { R.frame (bay_in pool.old) (bay_in pool.new) }
    ensures sink { O.faults out.old ≤ O.faults out.new }
    ensures cause { HasStatusCause result 0 0 (O.faults out.old) (O.faults out.new) }
    ensures other { result ≢ Status.Limit }
    ensures outcome { O.told out.old → (a : FlatArray)
        → EventsOutcome result (IsServing (view R.seen R.shelf pool.old) a) (R.seen (bay_in pool.old)).traced (R.seen (bay_in pool.old)) (R.seen (bay_in pool.new))
        (moment_of (view R.seen R.shelf pool.old)) a
        (codes "status") [] (O.taken out.old) (O.taken out.new) }
{
    let stopped = answer_status(pool, out);
    pool.end();
    status_of(stopped)
}

// Answers the script `status`.
fn answer_status<R: Bay, O: Sink>(pool: &mut Pool<R>, out: &mut O) -> Stopped
    requires { (volume (view R.seen R.shelf pool.old)).fit }
    ensures proceeds { Proceeds (view R.seen R.shelf pool.old) (view R.seen R.shelf pool.new) }
    ensures frame { R.frame (bay_in pool.old) (bay_in pool.new) }
    ensures sink { O.faults out.old ≤ O.faults out.new }
    ensures cause { HasStopCause result.cause 0 0 (O.faults out.old) (O.faults out.new) }
    ensures other { result.cause ≢ Stop.Limit }
    ensures serves { O.told out.old → ServesEvents result.cause (view R.seen R.shelf pool.old) (view R.seen R.shelf pool.new) (codes "status") [] (O.taken out.old) (O.taken out.new) result.worst }
{
    let mut text = ReplyText::new();
    answer_last(pool, b"status", Answer::Given, &mut text, out)
}
