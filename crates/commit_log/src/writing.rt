//! Writing to the slices of many places, of which some go.

ghost use Rattle.std.specs.Prelude.{◌≡◌, ◌<◌, ◌≤◌, ◌+◌, ℕ, length, slice_index};
ghost use Rattle.rack.specs.Sequences.{IsPayload};
ghost use Rattle.array_image.specs.Places.{log_sectors};
ghost use Rattle.log_laws.specs.Bytes.{targets_in, target_in};
ghost use Rattle.log_laws.specs.Phases.{Puts, SyncsAll, Settles, AreLogs, IsLogOf, IsOnEach, IsThere, IsOfRecord, IsHad, IsWanted, IsTargeted, IsTargetedBelow, IsClosing, went};

use crate::log::GATE;
use crate::lost::Lost;
use crate::record::{HEAD, Record};
use crate::slices::DISKS;
use rack::Rack;

/// Slices of a place.
pub(crate) const SLICES: u32 = 17;

/// Writes a sector of a slice, unless its place has gone.
pub(crate) fn write_one<R: Rack>(
    rack: &mut R,
    lost: &mut Lost,
    disk: u32,
    sector: u64,
    from: &[u8; 512],
)
    requires fit { (R.seen rack.old).fit }
    requires disk { disk < (R.seen rack.old).disks }
    requires sector { sector < (R.seen rack.old).sectors disk }
    requires place { disk < 272 }
    ensures puts { Puts (R.seen rack.old) (R.seen rack.new) (λ d. d ≡ disk) (IsThere disk sector from.now) (IsThere disk sector from.now) (went lost.old.places) (went lost.new.places) }
    ensures runs { R.runs rack.old rack.new }
{
    let place = disk / SLICES;
    if lost.has(place) {
        return;
    }
    if let Err(_) = rack.write(disk, sector, from) {
        lost.mark(place);
    }
}

/// Syncs a slice, unless its place has gone.
pub(crate) fn sync_one<R: Rack>(rack: &mut R, lost: &mut Lost, disk: u32)
    requires fit { (R.seen rack.old).fit }
    requires disk { disk < (R.seen rack.old).disks }
    requires place { disk < 272 }
    ensures syncs { SyncsAll (R.seen rack.old) (R.seen rack.new) (λ d. d ≡ disk) (λ d. d ≡ disk) (went lost.old.places) (went lost.new.places) }
    ensures runs { R.runs rack.old rack.new }
{
    let place = disk / SLICES;
    if lost.has(place) {
        return;
    }
    if let Err(_) = rack.sync(disk) {
        lost.mark(place);
    }
}

/// Writes a sector of the log slice of each place.
pub(crate) fn write_each<R: Rack>(
    rack: &mut R,
    lost: &mut Lost,
    on: &[u32],
    sector: u64,
    from: &[u8; 512],
)
    requires fit { (R.seen rack.old).fit }
    requires disks { (R.seen rack.old).disks ≡ 272 }
    requires logs { AreLogs (R.seen rack.old).sectors on.now }
    requires sector { sector < log_sectors }
    ensures puts { Puts (R.seen rack.old) (R.seen rack.new) (IsLogOf on.now (length on.now)) (IsOnEach on.now (length on.now) sector from.now) (IsOnEach on.now (length on.now) sector from.now) (went lost.old.places) (went lost.new.places) }
    ensures runs { R.runs rack.old rack.new }
{
    for place in on {
        write_one(rack, lost, SLICES * *place, sector, from);
    }
}

/// Syncs the log slice of each place.
pub(crate) fn sync_each<R: Rack>(rack: &mut R, lost: &mut Lost, on: &[u32])
    requires fit { (R.seen rack.old).fit }
    requires disks { (R.seen rack.old).disks ≡ 272 }
    requires logs { AreLogs (R.seen rack.old).sectors on.now }
    ensures syncs { SyncsAll (R.seen rack.old) (R.seen rack.new) (IsLogOf on.now (length on.now)) (IsLogOf on.now (length on.now)) (went lost.old.places) (went lost.new.places) }
    ensures runs { R.runs rack.old rack.new }
{
    for place in on {
        sync_one(rack, lost, SLICES * *place);
    }
}

/// Writes a record to a half of the log slice of each place, and syncs these slices.
pub(crate) fn settle_record<R: Rack>(
    rack: &mut R,
    lost: &mut Lost,
    on: &[u32],
    first: u64,
    record: &Record,
)
    requires fit { (R.seen rack.old).fit }
    requires disks { (R.seen rack.old).disks ≡ 272 }
    requires logs { AreLogs (R.seen rack.old).sectors on.now }
    requires half { first ≤ 4100 }
    ensures settles { Settles (R.seen rack.old) (R.seen rack.new) (IsLogOf on.now (length on.now)) (IsOfRecord on.now first record.now.bytes.items (96 + record.now.count)) (IsOfRecord on.now first record.now.bytes.items (96 + record.now.count)) (went lost.old.places) (went lost.new.places) }
    ensures runs { R.runs rack.old rack.new }
{
    for at in 0..HEAD + record.count() {
        write_each(rack, lost, on, first + u64::from(at), record.sector(at));
    }
    sync_each(rack, lost, on);
}

/// Writes a sector of the log slice of each place, and syncs these slices.
pub(crate) fn settle_each<R: Rack>(
    rack: &mut R,
    lost: &mut Lost,
    on: &[u32],
    sector: u64,
    from: &[u8; 512],
)
    requires fit { (R.seen rack.old).fit }
    requires disks { (R.seen rack.old).disks ≡ 272 }
    requires logs { AreLogs (R.seen rack.old).sectors on.now }
    requires sector { sector < log_sectors }
    ensures settles { Settles (R.seen rack.old) (R.seen rack.new) (IsLogOf on.now (length on.now)) (IsOnEach on.now (length on.now) sector from.now) (IsOnEach on.now (length on.now) sector from.now) (went lost.old.places) (went lost.new.places) }
    ensures runs { R.runs rack.old rack.new }
{
    write_each(rack, lost, on, sector, from);
    sync_each(rack, lost, on);
}

/// Writes the payloads to their targets, and syncs the slices that have some. A target that the rack hasn't is
/// passed over.
pub(crate) fn settle_targets<R: Rack>(rack: &mut R, lost: &mut Lost, record: &Record)
    requires fit { (R.seen rack.old).fit }
    requires disks { (R.seen rack.old).disks ≡ 272 }
    ensures settles { let xs = targets_in record.now.bytes.items record.now.count in Settles (R.seen rack.old) (R.seen rack.new) (IsTargeted xs) (IsPayload xs) (IsWanted (R.seen rack.old) xs) (went lost.old.places) (went lost.new.places) }
    ensures runs { R.runs rack.old rack.new }
{
    for at in 0..record.count() {
        write_target(rack, lost, record, at);
    }
    sync_targets(rack, lost, record);
}

// A target, if the rack has its sector.
fn write_target<R: Rack>(rack: &mut R, lost: &mut Lost, record: &Record, at: u32)
    requires fit { (R.seen rack.old).fit }
    requires disks { (R.seen rack.old).disks ≡ 272 }
    requires at { at < record.now.count }
    ensures puts { let t = target_in record.now.bytes.items at in Puts (R.seen rack.old) (R.seen rack.new) (λ d. d ≡ t.disk) (IsThere t.disk t.sector t.bytes) (λ d s v. IsHad (R.seen rack.old) d s × IsThere t.disk t.sector t.bytes d s v) (went lost.old.places) (went lost.new.places) }
    ensures runs { R.runs rack.old rack.new }
{
    let (disk, sector) = record.target(at);
    if disk >= DISKS {
        return;
    }
    if sector >= rack.sectors(disk) {
        return;
    }
    write_one(rack, lost, disk, sector, record.sector(HEAD + at));
}

// The slices that have a target, the lowest first.
fn sync_targets<R: Rack>(rack: &mut R, lost: &mut Lost, record: &Record)
    requires fit { (R.seen rack.old).fit }
    requires disks { (R.seen rack.old).disks ≡ 272 }
    ensures syncs { let xs = targets_in record.now.bytes.items record.now.count in SyncsAll (R.seen rack.old) (R.seen rack.new) (IsTargeted xs) (IsTargetedBelow xs 272) (went lost.old.places) (went lost.new.places) }
    ensures runs { R.runs rack.old rack.new }
{
    let slices = record.slices();
    for disk in 0..DISKS {
        if slices.has(disk) {
            sync_one(rack, lost, disk);
        }
    }
}

/// Writes gates and syncs them, unless a place has gone.
pub(crate) fn close_gates<R: Rack>(rack: &mut R, lost: &mut Lost, on: &[u32], block: &[u8; 512])
    requires fit { (R.seen rack.old).fit }
    requires disks { (R.seen rack.old).disks ≡ 272 }
    requires logs { AreLogs (R.seen rack.old).sectors on.now }
    ensures settles { Settles (R.seen rack.old) (R.seen rack.new) (IsLogOf on.now (length on.now)) (IsClosing (went lost.old.places) on.now block.now) (IsClosing (went lost.old.places) on.now block.now) (went lost.old.places) (went lost.new.places) }
    ensures runs { R.runs rack.old rack.new }
{
    // Else they stay open: after a stop the record is pending still, also for a drive that went and comes back.
    if lost.is_none() {
        settle_each(rack, lost, on, GATE, block);
    }
}
