//! The data of a new pool's members: zeros, but for the labels, the headers and the text of the volume's group.

ghost use Rattle.std.specs.Prelude.{◌≡◌, ◌<◌, ◌+◌, ◌-◌, ◌*◌, ◌≤◌, ◌^◌, ◌%◌, ℕ, OnOk, length, map};
ghost use Rattle.gpt_table.specs.Disk.{now_on};
ghost use Rattle.lvm_group.specs.Founding.{numbers_of};
ghost use Rattle.parity.specs.Xor.{xor_all};
ghost use Rattle.rack.specs.Seen.{IsLive};
ghost use Rattle.raid_map.specs.LeftSymmetric.{IsMemberCount, row_at};
ghost use Rattle.pool_format.specs.Data as spec;
ghost use Rattle.pool_format.specs.Data.{IsMemberData, IsNewGroup, LeavesData, group_sector, row_sectors};
ghost use Rattle.pool_format.specs.Plan.{HasRoom, IsPlan};
ghost use Rattle.pool_format.specs.Writing.{InData, InDatas, InRows, Lays};

use crate::Birth;
use crate::planning::{NewPool, array_at, has_member};
use crate::tables::DATA_SECTOR;
use lvm_group::NewGroup;
use new_array::role_of;
use parity::xor_into;
use rack::{Gone, Rack};
use raid_map::{CHUNK_SECTORS, unplace};

/// A member of a new array.
#[derive(Clone, Copy)]
struct Member {
    place: u32,
    /// The number of its array, and of the array's members.
    number: u32,
    members: u32,
    /// Its position among these.
    position: u32,
    /// The sector of its drive where its data begins.
    first: u64,
}

/// The sector of an array that stands in a column of the row of a sector of its members' data.
fn row_sector(members: u32, sector: u64, column: u64) -> u64
    requires members { (2 ≤ members) × (members ≤ 16) }
    requires sector { sector < 2 ^ 48 }
    requires column { column < members - 1 }
    ensures { result ≡ (row_at sector * (members - 1) + column) * 128 + sector % 128 }
{
    (sector / CHUNK_SECTORS * u64::from(members - 1) + column) * CHUNK_SECTORS
        + sector % CHUNK_SECTORS
}

/// The parity of the row of a sector of an array's members' data.
fn parity_sector(group: &NewGroup, member: &Member, sector: u64) -> [u8; 512]
    requires number { member.now.number < length (numbers_of group.now) }
    requires members { IsMemberCount member.now.members }
    requires sector { sector < 2 ^ 48 }
    ensures { result ≡ xor_all 512 (map (group_sector group.now member.now.number) (row_sectors member.now.members sector)) }
{
    let mut sum = [0; 512];
    for column in 0..u64::from(member.members - 1) {
        let own = row_sector(member.members, sector, column);
        xor_into(&mut sum, &group.sector(member.number, own));
    }
    sum
}

/// A sector of a member's data.
fn member_sector(group: &NewGroup, member: &Member, sector: u64) -> [u8; 512]
    requires number { member.now.number < length (numbers_of group.now) }
    requires members { IsMemberCount member.now.members }
    requires position { member.now.position < member.now.members }
    requires sector { sector < 2 ^ 48 }
    ensures { IsMemberData member.now.members (group_sector group.now member.now.number) member.now.position sector result }
{
    if member.members == 2 {
        return group.sector(member.number, sector);
    }
    match unplace(member.members, member.position, sector) {
        Some(own) => group.sector(member.number, own),
        None => parity_sector(group, member, sector),
    }
}

/// Writes the data of a member of so many sectors. It isn't durable yet.
fn write_rows<R: Rack>(
    rack: &mut R,
    group: &NewGroup,
    member: &Member,
    size: u64,
) -> Result<(), Gone>
    requires fit { (R.seen rack.old).fit }
    requires number { member.now.number < length (numbers_of group.now) }
    requires members { IsMemberCount member.now.members }
    requires position { member.now.position < member.now.members }
    requires disk { member.now.place < (R.seen rack.old).disks }
    requires within { member.now.first + size ≤ (R.seen rack.old).sectors member.now.place }
    requires bounded { member.now.first + size < 2 ^ 48 }
    ensures lays { Lays (InRows member.now.place member.now.first size) (R.seen rack.old) (R.seen rack.new) result }
    ensures stand { OnOk result ((s : ℕ) → s < size → IsLive (R.seen rack.old) (R.seen rack.new) member.now.place (member.now.first + s)
        → IsMemberData member.now.members (group_sector group.now member.now.number) member.now.position s (now_on (R.seen rack.new) member.now.place (member.now.first + s))) }
    ensures runs { R.runs rack.old rack.new }
{
    for sector in 0..size {
        let bytes = member_sector(group, member, sector);
        if let Err(gone) = rack.write(member.place, member.first + sector, &bytes) {
            return Err(gone);
        }
    }
    Ok(())
}

/// Writes the data of a place's member, if it is one.
fn write_member<R: Rack>(
    rack: &mut R,
    plan: &NewPool,
    birth: &Birth,
    group: &NewGroup,
    place: u32,
    number: u32,
) -> Result<(), Gone>
    requires fit { (R.seen rack.old).fit }
    requires plan { IsPlan plan.now }
    requires room { HasRoom plan.now (R.seen rack.old) }
    requires group { IsNewGroup plan.now birth.now group.now }
    requires place { place < length plan.now.units.items }
    requires number { number < length plan.now.arrays.items }
    ensures lays { Lays (InData plan.now place number) (R.seen rack.old) (R.seen rack.new) result }
    ensures stands { OnOk result (LeavesData plan.now birth.now place number (R.seen rack.old) (R.seen rack.new)) }
    ensures runs { R.runs rack.old rack.new }
{
    let array = array_at(plan, number);
    if !has_member(array, place) {
        return Ok(());
    }
    let member = Member {
        place,
        number,
        members: array.members.len() as u32,
        position: u32::from(role_of(array.members.as_slice(), place)),
        first: array.first + DATA_SECTOR,
    };
    write_rows(rack, group, &member, array.size)
}

/// Writes the data of all members of a place's drive. It isn't durable yet.
pub(crate) fn write_members<R: Rack>(
    rack: &mut R,
    plan: &NewPool,
    birth: &Birth,
    group: &NewGroup,
    place: u32,
) -> Result<(), Gone>
    requires fit { (R.seen rack.old).fit }
    requires plan { IsPlan plan.now }
    requires room { HasRoom plan.now (R.seen rack.old) }
    requires group { IsNewGroup plan.now birth.now group.now }
    requires place { place < length plan.now.units.items }
    ensures lays { Lays (InDatas plan.now place) (R.seen rack.old) (R.seen rack.new) result }
    ensures stand { OnOk result ((n : ℕ) → LeavesData plan.now birth.now place n (R.seen rack.old) (R.seen rack.new)) }
    ensures runs { R.runs rack.old rack.new }
{
    for number in 0..plan.arrays.len() as u32 {
        if let Err(gone) = write_member(rack, plan, birth, group, place, number) {
            return Err(gone);
        }
    }
    Ok(())
}
