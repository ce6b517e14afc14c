//! The addresses of RAID-5 with rotating parity, as Linux md lays them out: `raid5`, left-symmetric.
//!
//! The data of each of `n` members is cut into chunks of 128 sectors. A row is one chunk on each
//! member, at the same sectors: one of them has the parity, the others the row's `n - 1` chunks of
//! the array, in ascending order from the member after the parity's, wrapping at the last member.
//! The parity moves back by one member from row to row.
//!
//! [`place`] says where a sector of the array stands, and [`unplace`] what stands at a sector of a
//! member. The layers above needn't open the formula: [`row_members_differ`], [`each_place_once`]
//! and [`rows_are_apart`] say all that they use of it.
#![tactic(auto)]

ghost use Rattle.raid_map.specs.LeftSymmetric.{
  HasEachPlaceOnce,
  HasRowMembersDiffer,
  HasRowsApart,
  IsMemberCount,
  StandsAt,
  member_of,
  parity_at,
  parity_of,
  sector_of,
};
ghost use Rattle.std.specs.Prelude.{◌<◌, ◌^◌, ◌↔◌, ◌≡◌, ℕ};

/// The sectors of a chunk.
pub const CHUNK_SECTORS: u64 = 128;

/// Where a sector of the array stands: a sector of the data of one member, and the member that has
/// the parity of that sector.
#[derive(Clone, Copy, Debug, PartialEq, Eq)]
pub struct Spot {
    /// The member that has the data, from 0.
    pub member: u32,
    /// The sector of the data, and of the parity, in the data area of its member.
    pub sector: u64,
    /// The member that has the parity, from 0.
    pub parity: u32,
}

/// The place of sector `x` of an array of `n` members.
pub fn place(n: u32, x: u64) -> Spot
    requires members { IsMemberCount n }
    requires sector { x < 2 ^ 52 }
    ensures member { result.member ≡ member_of n x }
    ensures sector { result.sector ≡ sector_of n x }
    ensures parity { result.parity ≡ parity_at n result.sector }
{
    let members = u64::from(n);
    let chunk = x / CHUNK_SECTORS;
    let row = chunk / (members - 1);
    let column = chunk % (members - 1);
    let parity = parity_member(members, row);
    Spot {
        member: ((parity + 1 + column) % members) as u32,
        sector: row * CHUNK_SECTORS + x % CHUNK_SECTORS,
        parity: parity as u32,
    }
}

/// The sector of the array that stands at a sector of a member's data, and None where that sector
/// has parity.
pub fn unplace(n: u32, member: u32, sector: u64) -> Option<u64>
    requires members { IsMemberCount n }
    requires member { member < n }
    requires sector { sector < 2 ^ 48 }
    ensures data { (x : ℕ) → (result ≡ Some x) ↔ StandsAt n x member sector }
    ensures parity { (result ≡ None) ↔ (member ≡ parity_at n sector) }
{
    let members = u64::from(n);
    let member = u64::from(member);
    let row = sector / CHUNK_SECTORS;
    let parity = parity_member(members, row);
    if member == parity {
        return None;
    }
    let column = (member + members - parity - 1) % members;
    let chunk = row * (members - 1) + column;
    Some(chunk * CHUNK_SECTORS + sector % CHUNK_SECTORS)
}

/// The member that has a row's parity: the last one in row 0, and then one less from row to row.
#[tactic(auto, unfolding(crate::specs::LeftSymmetric::parity_of))]
fn parity_member(members: u64, row: u64) -> u64
    requires { 0 < members }
    ensures formula { result ≡ parity_of members row }
    ensures member { result < members }
{
    members - 1 - row % members
}

/// Within a row the members of the chunks and of the parity are all different, and are members.
pub fn row_members_differ()
    ensures { HasRowMembersDiffer }
{}

/// Each sector of each member has parity, or exactly one sector of the array.
pub fn each_place_once()
    ensures { HasEachPlaceOnce }
{}

/// Rows share no sector, on the members and in the array.
pub fn rows_are_apart()
    ensures { HasRowsApart }
{}
