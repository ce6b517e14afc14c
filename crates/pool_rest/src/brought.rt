//! The state that a pending record brings.

ghost use Rattle.std.specs.Prelude.{◌≡◌, ◌<◌, length, option_map, slice_get};
ghost use Rattle.std.specs.Option.{option_and_then, option_map_or};
ghost use Rattle.array_image.specs.Foremost.{ahead as ahead_by};
ghost use Rattle.array_image.specs.States.{epoch_of};
ghost use Rattle.pool_image.specs.Replay.{brought as brought_by, brought_state as state_of};

use commit_log::Log;
use pool_state::{Copied, State, decode_state};

/// Slices of a place; the first one is its log slice, whose first sector is the copy of the state.
const SLICES: u32 = 17;

/// The copy of a state that a target brings, if it is one.
fn copy_at(log: &Log, at: u32) -> Option<Copied>
    requires { at < length log.now.pending }
    ensures { result ≡ option_and_then brought_by (slice_get log.now.pending at) }
{
    let target = log.pending_target(at);
    if target.disk % SLICES == 0 && target.sector == 0 {
        decode_state(log.pending_payload(at)).ok()
    } else {
        None
    }
}

/// The copy of higher epoch, of equal ones the first.
fn newer(first: Option<Copied>, second: Option<Copied>) -> Option<Copied>
    ensures { result ≡ option_map_or (λ c. ahead_by epoch_of c second) first second }
{
    match (first, second) {
        (Some(c), Some(d)) => {
            if c.state.epoch >= d.state.epoch {
                Some(c)
            } else {
                Some(d)
            }
        }
        (Some(c), None) => Some(c),
        (None, second) => second,
    }
}

/// The state of highest epoch among the copies that the pending record brings, of equal ones that of its first target.
pub(crate) fn brought_state(log: &Log) -> Option<State>
    ensures { result ≡ state_of log.now.pending }
{
    let count = log.pending_count();
    let mut newest = None;
    for after in 0..count {
        newest = newer(copy_at(log, count - 1 - after), newest);
    }
    state_in(newest)
}

/// The state of a copy.
fn state_in(copied: Option<Copied>) -> Option<State>
    ensures { result ≡ option_map (λ copy. copy.state) copied }
{
    match copied {
        Some(copied) => Some(copied.state),
        None => None,
    }
}
