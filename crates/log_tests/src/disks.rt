//! Slices in memory with a log, and its calls, once all that they need has been tested.

ghost use Rattle.std.specs.Prelude.{◌≡◌, ◌<◌, ◌++◌, ◌∷◌, ℕ, List, [], length, true};
ghost use Rattle.log_laws.specs.View.{most_sectors};
ghost use Rattle.array_image.specs.Record.{is_target};
ghost use Rattle.log_laws.specs.Phases.{AreLogs};
ghost use Rattle.log_tests.specs.Ready.{CanCommit};
ghost use Rattle.rack.specs.Targets.{target};

use commit_log::{Log, Looked, Target};
use rack::{Bay, Name, Places, Rack};
use rack_mem::{DiskSpec, MemBay};
use std::alloc::Global;
use std::process::Abort;
use std::test::Fail;

/// The sectors that a disk of a bay may not have.
const TOO_MANY: u64 = 1 << 48;

/// A target, and the byte that fills its payload.
pub(crate) type Filled = (u32, u64, u8);

/// Whether each place has a log slice.
fn are_logs<R: Rack>(rack: &R, on: &[u32]) -> bool
    requires fit { (R.seen rack.now).fit }
    requires disks { (R.seen rack.now).disks ≡ 272 }
    ensures { result ≡ true → AreLogs (R.seen rack.now).sectors on.now }
{
    for place in on {
        if *place >= 16 {
            return false;
        }
        if rack.sectors(17 * *place) != 8192 {
            return false;
        }
    }
    true
}

/// Whether a record may have a target: of a slice, and of a log slice the first sector alone.
fn is_valid(at: Target) -> bool
    ensures { result ≡ is_target (target at.disk at.sector []) }
{
    at.disk < 272 && (at.disk % 17 != 0 || at.sector == 0)
}

/// Whether a log takes a target: one that a bay has, apart from those that were added.
fn takes<R: Bay>(log: &Log, bay: &R, at: Target) -> bool
    requires ready { CanCommit log.now.added (R.seen bay.now) }
    ensures room { result ≡ true → length log.now.added < most_sectors }
    ensures ready { result ≡ true → (v : List ℕ) → CanCommit (log.now.added ++ target at.disk at.sector v ∷ []) (R.seen bay.now) }
{
    if !is_valid(at) {
        return false;
    }
    if at.disk >= bay.disks() {
        return false;
    }
    if at.sector >= bay.sectors(at.disk) {
        return false;
    }
    match log.payload(&at) {
        Some(_) => false,
        None => log.room() > 0,
    }
}

/// Adds a target.
fn add<R: Bay>(rt: &impl Abort, log: &mut Log, bay: &R, at: Target, byte: u8)
    requires ready { CanCommit log.old.added (R.seen bay.now) }
    ensures ready { CanCommit log.new.added (R.seen bay.now) }
{
    assert!(rt; takes(log, bay, at));
    log.add(at, &[byte; 512]);
}

/// Adds these targets alone.
#[tactic(auto, using(crate::proofs::Adding::none_added))]
pub(crate) fn fill<R: Bay>(rt: &impl Abort, log: &mut Log, bay: &R, targets: &[Filled])
    ensures ready { CanCommit log.new.added (R.seen bay.now) }
{
    log.clear();
    for (disk, sector, byte) in targets {
        let at = Target {
            disk: *disk,
            sector: *sector,
        };
        add(rt, log, bay, at, *byte);
    }
}

/// Commits what was added, and answers who went.
pub(crate) fn commit<R: Bay>(rt: &impl Abort, log: &mut Log, bay: &mut R, on: &Places) -> Places
    requires ready { CanCommit log.old.added (R.seen bay.old) }
{
    assert!(rt; log.room() < 3996);
    assert!(rt; bay.disks() == 272);
    assert!(rt; are_logs(bay, on.as_slice()));
    log.commit(bay, on)
}

/// Commits these targets on the first places, at which none of them goes.
pub(crate) fn commit_on_all(
    rt: &impl Abort,
    log: &mut Log,
    bay: &mut MemBay,
    targets: &[Filled],
    count: u32,
) {
    fill(rt, log, bay, targets);
    let lost = commit(rt, log, bay, &first_places(count));
    assert!(rt; lost.is_empty());
}

/// Looks for a pending record.
pub(crate) fn look(rt: &impl Abort, log: &mut Log, bay: &mut MemBay, on: &Places) -> Looked {
    assert!(rt; bay.disks() == 272 && are_logs(bay, on.as_slice()));
    log.pending(bay, on)
}

/// Replays it, and answers who went.
pub(crate) fn replay(rt: &impl Abort, log: &mut Log, bay: &mut MemBay, on: &Places) -> Places {
    assert!(rt; bay.disks() == 272 && are_logs(bay, on.as_slice()));
    log.replay(bay, on)
}

/// A log, and all slices of sixteen places as attached disks of a bay: log slices, and others of 4000 sectors.
pub(crate) fn made(
    rt: &impl Abort,
    alloc: Global,
    failing: &[u64],
    room: u64,
) -> Result<(MemBay, Log), Fail> {
    let mut bay = bay(rt, alloc, failing, room)?;
    attach_all(rt, alloc, &mut bay)?;
    Ok((bay, Log::make(alloc)?))
}

fn bay(rt: &impl Abort, alloc: Global, failing: &[u64], room: u64) -> Result<MemBay, Fail> {
    let mut shelf = Vec::new(alloc);
    for disk in 0..272u64 {
        let name = Name::of(alloc, format!(in alloc; "{disk}")?.as_bytes())?;
        let sectors = if disk % 17 == 0 { 8192 } else { 4000 };
        shelf.push(DiskSpec { name, sectors })?;
    }
    assert!(rt; shelf.len() == 272 && shelf.iter().all(|disk| disk.sectors < TOO_MANY));
    Ok(MemBay::new(alloc, shelf, failing.to_vec(alloc)?, room)?)
}

/// Attaches the disks of a bay.
pub(crate) fn attach_all(rt: &impl Abort, alloc: Global, bay: &mut MemBay) -> Result<(), Fail> {
    for disk in 0..272u64 {
        assert!(rt; bay.attach(format!(in alloc; "{disk}")?.as_str()).is_ok());
    }
    Ok(())
}

/// Writes a sector of a disk.
pub(crate) fn write(rt: &impl Abort, bay: &mut MemBay, disk: u32, sector: u64, block: &[u8; 512]) {
    assert!(rt; disk < bay.disks() && sector < bay.sectors(disk));
    assert!(rt; bay.write(disk, sector, block).is_ok());
}

/// Places 0 to `count - 1`.
pub(crate) fn first_places(count: u32) -> Places {
    let mut on = Places::new();
    for place in 0..count {
        if !on.is_full() {
            on.push(place);
        }
    }
    on
}
