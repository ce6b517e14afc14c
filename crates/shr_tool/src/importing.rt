//! `import NAME..`: writes the input's bytes to the volume from its first sector on, a sector a piece.

ghost use Rattle.std.specs.Prelude.{◌≡◌, ◌≢◌, ◌≤◌, ◌<◌, ◌+◌, ◌↔◌, ◌++◌, take, IfOk, OnErr, [], ℕ};
ghost use Rattle.rack.specs.Seen.{Rose};
ghost use Rattle.flat_array.specs.Array.{FlatArray};
ghost use Rattle.pool.specs.Calls.{CallFrame};
ghost use Rattle.pool.specs.View.{bay_in, view, volume};
ghost use Rattle.shr_tool.specs.Serving.{IsServing};
ghost use Rattle.shr_tool.specs.Importing.{HasImportCause, ImportOutcome, Imports, SaysWritten, TakesSector, filled_up};
ghost use Rattle.shr_tool.specs.Outcome.{HasStatusCause};
ghost use Rattle.pool.specs.Moment.{moment_of};

use crate::saying::{refuse, refuse_spent, say_number};
use crate::status::Status;
use io_ends::{Failed, Sink, Source};
use pool::{Pool, SectorFault};
use rack::{Bay, Rack};

// The bytes of a sector.
const SECTOR: usize = 512;

/// Why not all of the input was written.
#[derive(Clone, Copy, Debug, PartialEq, Eq)]
pub enum ImportFault {
    /// The source failed.
    Source,
    /// The input is longer than the volume.
    Long,
    /// The sector was refused, since too many of its copies are lost.
    Spent { sector: u64 },
}

/// Writes the input's bytes to the volume, ends the pool, and says how many bytes there were.
pub fn import_pool<R: Bay, I: Source, O: Sink>(
    pool: &mut Pool<R>,
    input: &mut I,
    out: &mut O,
) -> Status
    requires { (volume (view R.seen R.shelf pool.old)).fit }
    ensures passes { CallFrame (view R.seen R.shelf pool.old) (view R.seen R.shelf pool.new) }
    ensures runs { R.runs (bay_in pool.old) (bay_in pool.new) }
    ensures source { I.faults input.old ≤ I.faults input.new }
    ensures sink { O.faults out.old ≤ O.faults out.new }
    ensures cause { HasStatusCause result (I.faults input.old) (I.faults input.new) (O.faults out.old) (O.faults out.new) }
    ensures other { result ≢ Status.Limit }
    ensures outcome { I.told input.old → O.told out.old → (a : FlatArray)
        → ImportOutcome result (IsServing (view R.seen R.shelf pool.old) a) (R.seen (bay_in pool.old)).traced (R.seen (bay_in pool.old)) (R.seen (bay_in pool.new))
        (moment_of (view R.seen R.shelf pool.old)) a
        (I.left input.old) (I.left input.new) (O.taken out.old) (O.taken out.new) }
{
    let written = write_pieces(pool, input);
    pool.end();
    say_written(written, out)
}

// Says how the pieces were written.
fn say_written<O: Sink>(written: Result<u64, ImportFault>, out: &mut O) -> Status
    ensures sink { O.faults out.old ≤ O.faults out.new }
    ensures cause { (from : ℕ) → (to : ℕ) → HasImportCause written from to → HasStatusCause result from to (O.faults out.old) (O.faults out.new) }
    ensures other { result ≢ Status.Limit }
    ensures says { O.told out.old → SaysWritten written (O.taken out.old) (O.taken out.new) result }
{
    match written {
        Ok(bytes) => say_number(out, b"imported ", bytes),
        Err(ImportFault::Source) => Status::Source,
        Err(ImportFault::Long) => refuse(out, b"long", Status::Refused),
        Err(ImportFault::Spent { sector }) => refuse_spent(out, sector),
    }
}

// Writes each piece of the input to its sector, and answers the number of the input's bytes.
fn write_pieces<R: Bay, I: Source>(pool: &mut Pool<R>, input: &mut I) -> Result<u64, ImportFault>
    requires { (volume (view R.seen R.shelf pool.old)).fit }
    ensures passes { CallFrame (view R.seen R.shelf pool.old) (view R.seen R.shelf pool.new) }
    ensures ended { (volume (view R.seen R.shelf pool.new)).fit }
    ensures runs { R.runs (bay_in pool.old) (bay_in pool.new) }
    ensures source { I.faults input.old ≤ I.faults input.new }
    ensures cause { HasImportCause result (I.faults input.old) (I.faults input.new) }
    ensures imports { I.told input.old → Imports (view R.seen R.shelf pool.old) (view R.seen R.shelf pool.new) (I.left input.old) (I.left input.new) result }
{
    let size = pool.size();
    let mut piece = [0; SECTOR];
    for sector in 0..size {
        let count = match take_sector(input, &mut piece) {
            Ok(count) => count,
            Err(_) => return Err(ImportFault::Source),
        };
        if count == 0 {
            return Ok(sector * 512);
        }
        match pool.write(sector, &piece) {
            Ok(()) => {}
            Err(SectorFault::Range) => unreachable!(),
            Err(SectorFault::Spent) => return Err(ImportFault::Spent { sector }),
        }
        if count < SECTOR {
            return Ok(sector * 512 + count as u64);
        }
    }
    match input.take(&mut piece) {
        Ok(0) => Ok(size * 512),
        Ok(_) => Err(ImportFault::Long),
        Err(_) => Err(ImportFault::Source),
    }
}

// Takes the bytes of a sector, and fills it up with zeros where the input ends. Answers how many bytes there were.
fn take_sector<I: Source>(input: &mut I, into: &mut [u8; SECTOR]) -> Result<usize, Failed>
    ensures bounded { IfOk result (λ count. count ≤ 512) }
    ensures told { I.told input.old → I.told input.new }
    ensures faults { I.faults input.old ≤ I.faults input.new }
    ensures failed { OnErr result (Rose (I.faults input.old) (I.faults input.new)) }
    ensures taken { I.told input.old → TakesSector result (I.left input.old) (I.left input.new) into.new }
{
    let mut filled = 0;
    while filled < SECTOR {
        match take_behind(input, into, filled) {
            Ok(0) => {
                fill_up(into, filled);
                return Ok(filled);
            }
            Ok(count) => filled += count,
            Err(fault) => return Err(fault),
        }
    }
    Ok(filled)
}

// Takes the next bytes behind the first `filled` ones of a sector.
fn take_behind<I: Source>(
    input: &mut I,
    into: &mut [u8; SECTOR],
    filled: usize,
) -> Result<usize, Failed>
    requires { filled < 512 }
    ensures bounded { IfOk result (λ count. filled + count ≤ 512) }
    ensures told { I.told input.old → I.told input.new }
    ensures faults { I.faults input.old ≤ I.faults input.new }
    ensures failed { OnErr result (Rose (I.faults input.old) (I.faults input.new)) }
    ensures kept { I.told input.old → OnErr result (I.left input.new ≡ I.left input.old) }
    ensures taken { I.told input.old → IfOk result (λ count.
        take filled into.old ++ I.left input.old ≡ take (filled + count) into.new ++ I.left input.new) }
    ensures end { I.told input.old → IfOk result (λ count. (count ≡ 0) ↔ (I.left input.old ≡ [])) }
    ensures same { take filled into.new ≡ take filled into.old }
{
    input.take(&mut into[filled..512])
}

// Sets the bytes behind the first `filled` ones to zero.
fn fill_up(into: &mut [u8; SECTOR], filled: usize)
    requires { filled ≤ 512 }
    ensures { into.new ≡ filled_up (take filled into.old) }
{
    into[filled..512].fill(0);
}
