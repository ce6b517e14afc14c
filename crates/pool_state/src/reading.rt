ghost use Rattle.std.specs.Prelude.{◌≡◌, ◌≤◌, ◌<◌, ◌&&◌, map, length};
ghost use Rattle.std.specs.List.{list_all, range_with_len};
ghost use Rattle.shr_base.specs.Blocks.{number_at};
ghost use Rattle.pool_state.specs.Sector.{copied_of, count_of, decoded, drive_at, has_flags, has_zeros, is_canonical, is_plan, is_state, is_zero, plan_of, sum_of};

use crate::contents::{Copied, Drive, Plan, State, StateFault};
use crate::offsets::*;
use crate::rules::is_state_of;
use arrayvec::ArrayVec;
use shr_base::crc32;
use shr_base::fields::{id_at, put_u32, u8_at, u32_at, u64_at};

/// What a sector says, or its first fault.
pub fn decode_state(bytes: &[u8; 512]) -> Result<Copied, StateFault>
    ensures { result ≡ decoded bytes.now }
{
    if !is_named(bytes) {
        return Err(StateFault::NotState);
    }
    if u32_at(bytes, SUM) != sum(bytes) {
        return Err(StateFault::BadSum);
    }
    if !is_written_so(bytes) {
        return Err(StateFault::BadField);
    }
    let copied = fields(bytes);
    if !is_state_of(&copied.state, copied.own) {
        return Err(StateFault::BadField);
    }
    Ok(copied)
}

fn is_named(bytes: &[u8; 512]) -> bool
    ensures { result ≡ is_state bytes.now }
{
    u64_at(bytes, NAME) == u64::from_le_bytes(*b"SHRPOOL1") && u32_at(bytes, VERSION) == 1
}

/// The CRC-32 of the sector with zeros for the sum itself.
#[tactic(auto, unfolding(crate::specs::Sector::sum_of))]
fn sum(bytes: &[u8; 512]) -> u32
    ensures { result ≡ sum_of bytes.now }
{
    let mut cleared = *bytes;
    put_u32(&mut cleared, SUM, 0);
    crc32(&cleared)
}

/// Whether each part is written as parts of its kind are, in a list of at most 16 drives.
#[tactic(auto, unfolding(crate::specs::Sector::is_canonical))]
fn is_written_so(bytes: &[u8; 512]) -> bool
    ensures { result ≡ is_canonical bytes.now }
{
    let count = u8_at(bytes, COUNT) as usize;
    count <= 16
        && has_its_zeros(bytes, count)
        && is_plan_of(u8_at(bytes, PLAN_KIND), u8_at(bytes, PLAN_PLACE))
        && has_its_flags(bytes, count)
}

/// Whether the bytes that no part takes are zeros, those behind the last drive too.
#[tactic(auto, unfolding(crate::specs::Sector::has_zeros, shr_base::specs::Blocks::bytes_at))]
fn has_its_zeros(bytes: &[u8; 512], count: usize) -> bool
    requires is_count { count ≡ count_of bytes.now }
    requires fits { count ≤ 16 }
    ensures { result ≡ has_zeros bytes.now }
{
    are_zeros(&bytes[AFTER_JOINED..SERIAL])
        && are_zeros(&bytes[AFTER_SERIAL..DRIVES])
        && are_zeros(&bytes[DRIVES + DRIVE_BYTES * count..])
}

fn are_zeros(bytes: &[u8]) -> bool
    ensures { result ≡ is_zero bytes.now }
{
    bytes.iter().all(|byte| *byte == 0)
}

fn is_plan_of(kind: u8, place: u8) -> bool
    ensures { result ≡ is_plan kind place }
{
    kind <= 2 && (kind != 0 || place == 0)
}

/// Whether the flags of the first `count` drives are 0 or 1.
fn has_its_flags(bytes: &[u8; 512], count: usize) -> bool
    requires { count ≤ 16 }
    ensures { result ≡ has_flags count bytes.now }
{
    for place in 0..count {
        if u32_at(bytes, DRIVES + DRIVE_BYTES * place + DRIVE_FLAGS) > 1 {
            return false;
        }
    }
    true
}

/// The parts of a sector with at most 16 drives.
fn fields(bytes: &[u8; 512]) -> Copied
    requires { count_of bytes.now ≤ 16 }
    ensures { result ≡ copied_of bytes.now }
{
    let count = u8_at(bytes, COUNT) as usize;
    let state = State {
        pool: id_at(bytes, POOL),
        epoch: u64_at(bytes, EPOCH),
        extent: u32_at(bytes, EXTENT),
        drives: drives(bytes, count),
        plan: plan(u8_at(bytes, PLAN_KIND), u8_at(bytes, PLAN_PLACE)),
        made: u32::from(u8_at(bytes, MADE)),
        joined: u32::from(u8_at(bytes, JOINED)),
        serial: u32_at(bytes, SERIAL),
    };
    Copied {
        state,
        own: u32::from(u8_at(bytes, OWN)),
    }
}

fn plan(kind: u8, place: u8) -> Plan
    ensures { result ≡ plan_of kind place }
{
    let place = u32::from(place);
    match kind {
        0 => Plan::Nothing,
        1 => Plan::Add { place },
        _ => Plan::Replace { place },
    }
}

/// The first `count` drives.
fn drives(bytes: &[u8; 512], count: usize) -> ArrayVec<Drive, 16>
    requires { count ≤ 16 }
    ensures { result.items ≡ map (λ place. drive_at place bytes.now) (range_with_len 0 count) }
{
    let mut drives = ArrayVec::new();
    for place in 0..count {
        drives.push(drive(bytes, place));
    }
    drives
}

#[tactic(auto, unfolding(crate::specs::Sector::drive_at))]
fn drive(bytes: &[u8; 512], place: usize) -> Drive
    requires { place < 16 }
    ensures { result ≡ drive_at place bytes.now }
{
    let start = DRIVES + DRIVE_BYTES * place;
    Drive {
        id: id_at(bytes, start),
        units: u64_at(bytes, start + DRIVE_UNITS),
        missing: u32_at(bytes, start + DRIVE_FLAGS) == 1,
    }
}
