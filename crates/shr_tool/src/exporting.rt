//! `export NAME..`: puts the volume's bytes in the order of its sectors.

ghost use Rattle.std.specs.Prelude.{◌≡◌, ◌≢◌, ◌≤◌};
ghost use Rattle.flat_array.specs.Array.{FlatArray};
ghost use Rattle.pool.specs.Calls.{CallFrame};
ghost use Rattle.pool.specs.View.{bay_in, view, volume};
ghost use Rattle.shr_tool.specs.Serving.{IsServing};
ghost use Rattle.shr_tool.specs.Exporting.{ExportOutcome, HasExportCause, Puts, export_status};
ghost use Rattle.shr_tool.specs.Outcome.{HasStatusCause};
ghost use Rattle.pool.specs.Moment.{moment_of};

use crate::status::Status;
use io_ends::Sink;
use pool::{Pool, SectorFault};
use rack::{Bay, Rack};

/// Why not all of a volume was put.
#[derive(Clone, Copy, Debug, PartialEq, Eq)]
pub enum ExportFault {
    /// A sector was refused, since too many of its copies are lost.
    Spent,
    /// The sink failed.
    Sink,
}

/// Puts the bytes of the volume, and ends the pool.
pub fn export_pool<R: Bay, O: Sink>(pool: &mut Pool<R>, out: &mut O) -> Status
    requires { (volume (view R.seen R.shelf pool.old)).fit }
    ensures passes { CallFrame (view R.seen R.shelf pool.old) (view R.seen R.shelf pool.new) }
    ensures runs { R.runs (bay_in pool.old) (bay_in pool.new) }
    ensures sink { O.faults out.old ≤ O.faults out.new }
    ensures cause { HasStatusCause result 0 0 (O.faults out.old) (O.faults out.new) }
    ensures other { result ≢ Status.Limit }
    ensures outcome { O.told out.old → (a : FlatArray)
        → ExportOutcome result (IsServing (view R.seen R.shelf pool.old) a) (R.seen (bay_in pool.old)).traced (R.seen (bay_in pool.old)) (R.seen (bay_in pool.new))
        (moment_of (view R.seen R.shelf pool.old)) a (O.taken out.old) (O.taken out.new) }
{
    let put = put_sectors(pool, out);
    pool.end();
    status_of(put)
}

// The status of an export that came out so.
fn status_of(put: Result<(), ExportFault>) -> Status
    ensures { result ≡ export_status put }
{
    match put {
        Ok(()) => Status::Done,
        Err(ExportFault::Spent) => Status::Spent,
        Err(ExportFault::Sink) => Status::Sink,
    }
}

// Puts the bytes of each sector, up to the first that is refused.
fn put_sectors<R: Bay, O: Sink>(pool: &mut Pool<R>, out: &mut O) -> Result<(), ExportFault>
    requires { (volume (view R.seen R.shelf pool.old)).fit }
    ensures passes { CallFrame (view R.seen R.shelf pool.old) (view R.seen R.shelf pool.new) }
    ensures runs { R.runs (bay_in pool.old) (bay_in pool.new) }
    ensures sink { O.faults out.old ≤ O.faults out.new }
    ensures cause { HasExportCause result (O.faults out.old) (O.faults out.new) }
    ensures puts { O.told out.old → Puts (view R.seen R.shelf pool.old) (view R.seen R.shelf pool.new) result (O.taken out.old) (O.taken out.new) }
{
    let mut bytes = [0; 512];
    let size = pool.size();
    for sector in 0..size {
        match pool.read(sector, &mut bytes) {
            Ok(()) => {}
            Err(SectorFault::Range) => unreachable!(),
            Err(SectorFault::Spent) => return Err(ExportFault::Spent),
        }
        match out.put(&bytes) {
            Ok(()) => {}
            Err(_) => return Err(ExportFault::Sink),
        }
    }
    Ok(())
}
