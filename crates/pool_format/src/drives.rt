//! What is written on each drive of a new pool before its volume and after it.

ghost use Rattle.std.specs.Prelude.{◌≡◌, ◌<◌, ℕ, length, OnOk};
ghost use Rattle.pool_format.specs.Plan.{HasRoom, IsPlan};
ghost use Rattle.pool_format.specs.Data.{IsNewGroup};
ghost use Rattle.pool_format.specs.Drives as spec;
ghost use Rattle.pool_format.specs.Drives.{LeavesClosed, LeavesLaid, LeavesSingle, LeavesSuper};
ghost use Rattle.pool_format.specs.Writing.{InClosing, InClosings, InLaying, InLayings, InSuper, InSupers, Lays};

use crate::Birth;
use crate::members::write_members;
use crate::planning::{NewPool, array_at, has_member};
use crate::superblocks::new_super;
use crate::tables::write_table;
use commit_log::first_gate;
use lvm_group::NewGroup;
use md_super::encode;
use rack::{Gone, Rack};

/// The sector of the gate, the second one of the log slice.
const GATE_SECTOR: u64 = 2049;

/// The sector of a superblock in its slice.
const SUPER_SECTOR: u64 = 8;

/// Writes the table of a place's drive and the data of its members, durably.
fn lay_drive<R: Rack>(
    rack: &mut R,
    plan: &NewPool,
    birth: &Birth,
    group: &NewGroup,
    place: u32,
) -> Result<(), Gone>
    requires fit { (R.seen rack.old).fit }
    requires plan { IsPlan plan.now }
    requires room { HasRoom plan.now (R.seen rack.old) }
    requires group { IsNewGroup plan.now birth.now group.now }
    requires place { place < length plan.now.units.items }
    ensures lays { Lays (InLaying plan.now (R.seen rack.old).sectors place) (R.seen rack.old) (R.seen rack.new) result }
    ensures laid { OnOk result (LeavesLaid plan.now birth.now place (R.seen rack.old) (R.seen rack.new)) }
    ensures runs { R.runs rack.old rack.new }
{
    if let Err(gone) = write_table(rack, plan, birth, place) {
        return Err(gone);
    }
    if let Err(gone) = write_members(rack, plan, birth, group, place) {
        return Err(gone);
    }
    rack.sync(place)
}

/// Writes the tables of all drives and the data of their members, durably.
pub(crate) fn lay_drives<R: Rack>(
    rack: &mut R,
    plan: &NewPool,
    birth: &Birth,
    group: &NewGroup,
) -> Result<(), Gone>
    requires fit { (R.seen rack.old).fit }
    requires plan { IsPlan plan.now }
    requires room { HasRoom plan.now (R.seen rack.old) }
    requires group { IsNewGroup plan.now birth.now group.now }
    ensures lays { Lays (InLayings plan.now (R.seen rack.old).sectors) (R.seen rack.old) (R.seen rack.new) result }
    ensures laid { OnOk result ((d : ℕ) → d < length plan.now.units.items → LeavesLaid plan.now birth.now d (R.seen rack.old) (R.seen rack.new)) }
    ensures runs { R.runs rack.old rack.new }
{
    for place in 0..plan.units.len() as u32 {
        if let Err(gone) = lay_drive(rack, plan, birth, group, place) {
            return Err(gone);
        }
    }
    Ok(())
}

/// Writes the superblock of a place's member, if it is one. It isn't durable yet.
fn write_super<R: Rack>(
    rack: &mut R,
    plan: &NewPool,
    birth: &Birth,
    place: u32,
    number: u32,
) -> Result<(), Gone>
    requires fit { (R.seen rack.old).fit }
    requires plan { IsPlan plan.now }
    requires room { HasRoom plan.now (R.seen rack.old) }
    requires place { place < length plan.now.units.items }
    requires number { number < length plan.now.arrays.items }
    ensures lays { Lays (InSuper plan.now place number) (R.seen rack.old) (R.seen rack.new) result }
    ensures stands { OnOk result (LeavesSuper plan.now birth.now place number (R.seen rack.old) (R.seen rack.new)) }
    ensures runs { R.runs rack.old rack.new }
{
    let array = array_at(plan, number);
    if !has_member(array, place) {
        return Ok(());
    }
    let block = encode(&new_super(birth, array, number, place));
    rack.write(place, array.first + SUPER_SECTOR, &block)
}

/// Writes the superblocks of a place's members. They aren't durable yet.
fn write_supers<R: Rack>(
    rack: &mut R,
    plan: &NewPool,
    birth: &Birth,
    place: u32,
) -> Result<(), Gone>
    requires fit { (R.seen rack.old).fit }
    requires plan { IsPlan plan.now }
    requires room { HasRoom plan.now (R.seen rack.old) }
    requires place { place < length plan.now.units.items }
    ensures lays { Lays (InSupers plan.now place) (R.seen rack.old) (R.seen rack.new) result }
    ensures stand { OnOk result ((n : ℕ) → LeavesSuper plan.now birth.now place n (R.seen rack.old) (R.seen rack.new)) }
    ensures runs { R.runs rack.old rack.new }
{
    for number in 0..plan.arrays.len() as u32 {
        if let Err(gone) = write_super(rack, plan, birth, place, number) {
            return Err(gone);
        }
    }
    Ok(())
}

/// Writes the closed gate and the superblocks of a place's drive, durably.
fn close_drive<R: Rack>(rack: &mut R, plan: &NewPool, birth: &Birth, place: u32) -> Result<(), Gone>
    requires fit { (R.seen rack.old).fit }
    requires plan { IsPlan plan.now }
    requires room { HasRoom plan.now (R.seen rack.old) }
    requires place { place < length plan.now.units.items }
    ensures lays { Lays (InClosing plan.now place) (R.seen rack.old) (R.seen rack.new) result }
    ensures closed { OnOk result (LeavesClosed plan.now birth.now place (R.seen rack.old) (R.seen rack.new)) }
    ensures single { OnOk result (LeavesSingle place (R.seen rack.old) (R.seen rack.new)) }
    ensures runs { R.runs rack.old rack.new }
{
    if let Err(gone) = rack.write(place, GATE_SECTOR, &first_gate()) {
        return Err(gone);
    }
    if let Err(gone) = write_supers(rack, plan, birth, place) {
        return Err(gone);
    }
    rack.sync(place)
}

/// Writes the closed gates and the superblocks of all drives, durably.
pub(crate) fn close_drives<R: Rack>(rack: &mut R, plan: &NewPool, birth: &Birth) -> Result<(), Gone>
    requires fit { (R.seen rack.old).fit }
    requires plan { IsPlan plan.now }
    requires room { HasRoom plan.now (R.seen rack.old) }
    ensures lays { Lays (InClosings plan.now) (R.seen rack.old) (R.seen rack.new) result }
    ensures closed { OnOk result ((d : ℕ) → d < length plan.now.units.items → LeavesClosed plan.now birth.now d (R.seen rack.old) (R.seen rack.new)) }
    ensures single { OnOk result ((d : ℕ) → d < length plan.now.units.items → LeavesSingle d (R.seen rack.old) (R.seen rack.new)) }
    ensures runs { R.runs rack.old rack.new }
{
    for place in 0..plan.units.len() as u32 {
        if let Err(gone) = close_drive(rack, plan, birth, place) {
            return Err(gone);
        }
    }
    Ok(())
}
