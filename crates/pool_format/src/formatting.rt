//! The making of a pool, from its plan to its state.

ghost use Rattle.std.specs.Prelude.{◌≡◌, ◌<◌, ◌≤◌, ◌^◌, ◌↔◌, ◌*◌, ℕ, length, true, IfOk, IfErr, OnOk};
ghost use Rattle.rack.specs.Values.{IsSingle};
ghost use Rattle.rack.specs.Seen.{IsLive, Rose};
ghost use Rattle.gpt_table.specs.Disk.{now_on};
ghost use Rattle.rack.specs.Sequences.{WritesOnly};
ghost use Rattle.pool_state.specs.Valid.{is_extent};
ghost use Rattle.layer_plan.specs.declared.PlanError.{PlanError};
ghost use Rattle.slice_rack.specs.SliceRack.{below_of};
ghost use Rattle.lvm_group.specs.Made as made;
ghost use Rattle.lvm_group.specs.Shown.{volume_of};
ghost use Rattle.lvm_group.specs.Volume.{below_of as rack_in, linear};
ghost use Rattle.raid_rack.specs.RaidRack.{arrays_in, arrays_of, raid_in, raid_seen, slices_in};
ghost use Rattle.pool_format.specs.Plan.{HasRoom, IsPlan, IsPlanOf, IsUnplanned, units_on};
ghost use Rattle.pool_format.specs.Format.{IsGivenBack, IsMade, IsRefusedFor};
ghost use Rattle.pool_format.specs.Arrays.{new_views};
ghost use Rattle.pool_format.specs.Parts as parts;
ghost use Rattle.pool_format.specs.Volume.{HasLayout};
ghost use Rattle.pool_format.specs.Data.{IsGroupRead, IsNewGroup, extents_of};
ghost use Rattle.pool_format.specs.Drives.{HasParts, IsNewDrive, IsWhole, LeavesSingle};
ghost use Rattle.pool_format.specs.Stops.{StopsAmid};
ghost use Rattle.pool_format.specs.Writing.{InFilling, IsPart, Lays};

use crate::Birth;
use crate::drives::{close_drives, lay_drives};
use crate::planning::{NewPool, plan};
use crate::states::{clear_states, write_states};
use crate::volume::{new_group, new_volume};
use commit_log::Log;
use layer_plan::PlanError;
use lvm_group::{NewGroup, Volume};
use rack::{Back, Gone, NoMemory, Rack};
use raid_rack::RaidRack;
use std::alloc::Global;

/// Why a pool can't be made.
#[derive(Clone, Copy, Debug, PartialEq, Eq)]
pub enum CreateFault {
    /// The drives have no plan. Nothing was written.
    Layout(PlanError),
    /// A drive refused a call; its count of faults rose.
    Gone {
        /// The number of its disk.
        disk: u32,
    },
    /// No memory could be had.
    Memory,
}

/// What a pool needs in memory: its log, and the group of its volume.
#[derive(Drop)]
struct Memory {
    log: Log,
    group: NewGroup,
}

/// Takes it.
fn take_memory(alloc: Global, plan: &NewPool, birth: &Birth) -> Result<Memory, NoMemory>
    requires { IsPlan plan.now }
    ensures group { IfOk result (λ memory. IsNewGroup plan.now birth.now memory.group) }
    ensures read { IfOk result (λ memory. IsGroupRead plan.now birth.now) }
{
    let log = Log::make(alloc)?;
    let group = new_group(alloc, plan, birth)?;
    Ok(Memory { log, group })
}

/// Writes all parts of the drives but their copies of the state, durably: tables and members' data first, then gates and superblocks.
fn fill_drives<R: Rack>(
    rack: &mut R,
    plan: &NewPool,
    birth: &Birth,
    group: &NewGroup,
) -> Result<(), Gone>
    requires fit { (R.seen rack.old).fit }
    requires lasting { (R.seen rack.old).lasting }
    requires plan { IsPlan plan.now }
    requires room { HasRoom plan.now (R.seen rack.old) }
    requires group { IsNewGroup plan.now birth.now group.now }
    ensures lays { Lays (InFilling plan.now (R.seen rack.old).sectors) (R.seen rack.old) (R.seen rack.new) result }
    ensures parts { OnOk result ((d : ℕ) → IsWhole (R.seen rack.old) d → HasParts plan.now birth.now d ((R.seen rack.old).sectors d) (now_on (R.seen rack.new) d)) }
    ensures single { OnOk result ((d : ℕ) → d < length plan.now.units.items → LeavesSingle d (R.seen rack.old) (R.seen rack.new)) }
    ensures runs { R.runs rack.old rack.new }
{
    match lay_drives(rack, plan, birth, group) {
        Ok(()) => close_drives(rack, plan, birth),
        Err(gone) => Err(gone),
    }
}

/// Writes a pool, durably: clears the copies of a state, fills the drives, and writes the copies last.
fn write_pool<R: Rack>(
    rack: &mut R,
    plan: &NewPool,
    birth: &Birth,
    group: &NewGroup,
) -> Result<(), Gone>
    requires fit { (R.seen rack.old).fit }
    requires lasting { (R.seen rack.old).lasting }
    requires plan { IsPlan plan.now }
    requires room { HasRoom plan.now (R.seen rack.old) }
    requires group { IsNewGroup plan.now birth.now group.now }
    requires read { IsGroupRead plan.now birth.now }
    ensures lays { Lays (IsPart plan.now (R.seen rack.old).sectors) (R.seen rack.old) (R.seen rack.new) result }
    ensures stops { StopsAmid plan.now birth.now (R.seen rack.old) (R.seen rack.new) }
    ensures single { OnOk result ((d s : ℕ) → IsLive (R.seen rack.old) (R.seen rack.new) d s → IsSingle ((R.seen rack.new).held d s)) }
    ensures drives { OnOk result ((d : ℕ) → IsWhole (R.seen rack.old) d → IsNewDrive plan.now birth.now d ((R.seen rack.old).sectors d) (now_on (R.seen rack.new) d)) }
    ensures runs { R.runs rack.old rack.new }
{
    // A stop amid these leaves all else that the disks held.
    if let Err(gone) = clear_states(rack, plan) {
        return Err(gone);
    }
    // No disk has a state: a stop in it leaves no pool.
    if let Err(gone) = fill_drives(rack, plan, birth, group) {
        return Err(gone);
    }
    // All else is durable: a stop amid the copies leaves a pool that is refused while one is wanting, or a whole one.
    write_states(rack, plan, birth)
}

/// Writes a pool of this plan, and gives its volume.
fn build<R: Rack>(
    rack: R,
    plan: &NewPool,
    birth: &Birth,
    memory: Memory,
) -> Result<Volume<RaidRack<R>>, Back<R, CreateFault>>
    requires fit { (R.seen rack).fit }
    requires lasting { (R.seen rack).lasting }
    requires plan { IsPlan plan.now }
    requires room { HasRoom plan.now (R.seen rack) }
    requires group { IsNewGroup plan.now birth.now memory.group }
    requires read { IsGroupRead plan.now birth.now }
    ensures fit { IfOk result (λ volume. (volume_of (linear volume) (raid_seen R.seen (rack_in volume))).fit) }
    ensures state { IfOk result (λ volume. (raid_in (rack_in volume)).state ≡ parts.new_state plan.now birth.now) }
    ensures arrays { IfOk result (λ volume. arrays_of (rack_in volume) ≡ new_views birth.now 0 plan.now.arrays.items) }
    ensures volume { IfOk result (λ volume. linear volume ≡ made.new_volume plan.now.extent (extents_of plan.now)) }
    ensures only { IfOk result (λ volume. WritesOnly (R.seen rack) (R.seen (below_of (slices_in (rack_in volume)))) (IsPart plan.now (R.seen rack).sectors)) }
    ensures stops { IfOk result (λ volume. StopsAmid plan.now birth.now (R.seen rack) (R.seen (below_of (slices_in (rack_in volume))))) }
    ensures single { IfOk result (λ volume. (d s : ℕ) → IsLive (R.seen rack) (R.seen (below_of (slices_in (rack_in volume)))) d s → IsSingle ((R.seen (below_of (slices_in (rack_in volume)))).held d s)) }
    ensures drives { IfOk result (λ volume. (d : ℕ) → IsWhole (R.seen rack) d → IsNewDrive plan.now birth.now d ((R.seen rack).sectors d) (now_on (R.seen (below_of (slices_in (rack_in volume)))) d)) }
    ensures some { IfErr result (λ back. WritesOnly (R.seen rack) (R.seen back.rack) (IsPart plan.now (R.seen rack).sectors)) }
    ensures stopped { IfErr result (λ back. StopsAmid plan.now birth.now (R.seen rack) (R.seen back.rack)) }
    ensures gone { IfErr result (λ back. (disk : ℕ) → back.why ≡ CreateFault.Gone disk → (disk < (R.seen rack).disks) × Rose ((R.seen rack).faults disk) ((R.seen back.rack).faults disk)) }
    ensures planned { IfErr result (λ back. HasLayout back.why) }
    ensures runs { IfOk result (λ volume. R.runs rack (below_of (slices_in (rack_in volume)))) }
    ensures returned { IfErr result (λ back. R.runs rack back.rack) }
{
    let mut rack = rack;
    match write_pool(&mut rack, plan, birth, &memory.group) {
        Ok(()) => Ok(new_volume(rack, plan, birth, memory.group, memory.log)),
        Err(gone) => Err(Back {
            rack,
            why: CreateFault::Gone { disk: gone.disk },
        }),
    }
}

/// Makes a pool on the disks of a rack, in their order, and gives its volume, which is all zeros. What the disks held is lost.
///
/// The disks, 2 to 16 of fewer than 2^48 sectors, are the places 0, 1 and so on. Its arrays are the layers of their units: a mirror of
/// two members, RAID-5 of more. An extent has `extent` sectors, a power of two from 128 to 65536. Copies of a state are cleared first and
/// written last, so that a stop leaves no pool before the drives have all their other parts. The result's arrays have events 1 and no
/// mark, so that a clean end writes no superblock.
pub fn format<R: Rack>(
    alloc: Global,
    rack: R,
    extent: u32,
    birth: &Birth,
) -> Result<Volume<RaidRack<R>>, Back<R, CreateFault>>
    requires fit { (R.seen rack).fit }
    requires lasting { (R.seen rack).lasting }
    requires small { (d : ℕ) → d < (R.seen rack).disks → (R.seen rack).sectors d < 2 ^ 48 }
    requires extent { is_extent extent ≡ true }
    ensures layout { (fault : PlanError) → IsRefusedFor (CreateFault.Layout fault) result ↔ IsUnplanned (units_on (R.seen rack) extent) fault }
    ensures unchanged { IfErr result (λ back. (fault : PlanError) → back.why ≡ CreateFault.Layout fault → back.rack ≡ rack) }
    ensures gone { IfErr result (λ back. (disk : ℕ) → back.why ≡ CreateFault.Gone disk → (disk < (R.seen rack).disks) × Rose ((R.seen rack).faults disk) ((R.seen back.rack).faults disk)) }
    // Whatever the disks tell, each call of the volume may be made.
    ensures fit { IfOk result (λ volume. (volume_of (linear volume) (raid_seen R.seen (rack_in volume))).fit) }
    ensures made { IfOk result (λ volume. IsMade (R.seen rack) (R.seen (below_of (slices_in (rack_in volume)))) extent birth.now (arrays_in (rack_in volume)) (linear volume)) }
    ensures some { IfErr result (λ back. HasLayout back.why → IsGivenBack (R.seen rack) (R.seen back.rack) extent birth.now) }
    ensures runs { IfOk result (λ volume. R.runs rack (below_of (slices_in (rack_in volume)))) }
    ensures returned { IfErr result (λ back. R.runs rack back.rack) }
{
    let plan = match plan(&rack, extent) {
        Ok(plan) => plan,
        Err(fault) => {
            return Err(Back {
                rack,
                why: CreateFault::Layout(fault),
            });
        }
    };
    match take_memory(alloc, &plan, birth) {
        Ok(memory) => build(rack, &plan, birth, memory),
        Err(_) => Err(Back {
            rack,
            why: CreateFault::Memory,
        }),
    }
}
