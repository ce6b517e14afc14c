ghost use Rattle.std.specs.Prelude.{◌≡◌, ◌≤◌, ◌%◌, length, IsTrue, Ok};
ghost use Rattle.pool_state.specs.Sector.{decoded};
ghost use Rattle.pool_state.specs.Valid.{is_valid, place_of};
ghost use Rattle.pool_state.specs.Written.{drive_bytes, kind_of, table_of, HaveIds};

use crate::contents::{Drive, Plan, State};
use crate::offsets::*;
use crate::rules::plan_place;
use shr_base::crc32;
use shr_base::fields::{put_bytes, put_u8, put_u32, put_u64};

/// The sector that the drive of place `own` keeps of a valid state. Nothing is promised of any other.
pub fn encode_state(state: &State, own: u32) -> [u8; 512]
    ensures { IsTrue (is_valid state.now own) → decoded result ≡ Ok (record { state = state.now; own = own }) }
{
    let mut block = [0; 512];
    put_bytes(&mut block, NAME, b"SHRPOOL1");
    put_u32(&mut block, VERSION, 1);
    put_bytes(&mut block, POOL, &state.pool.0);
    put_u64(&mut block, EPOCH, state.epoch);
    put_u32(&mut block, EXTENT, state.extent);
    put_u8(&mut block, COUNT, state.drives.len() as u8);
    put_u8(&mut block, OWN, low_byte(own));
    put_u8(&mut block, PLAN_KIND, plan_kind(&state.plan));
    put_u8(&mut block, PLAN_PLACE, low_byte(plan_place(&state.plan)));
    put_u8(&mut block, MADE, low_byte(state.made));
    put_u8(&mut block, JOINED, low_byte(state.joined));
    put_u32(&mut block, SERIAL, state.serial);
    put_bytes(&mut block, DRIVES, &drive_table(state.drives.as_slice()));
    let sum = crc32(&block);
    put_u32(&mut block, SUM, sum);
    block
}

fn low_byte(number: u32) -> u8
    ensures { result ≡ number % 256 }
{
    number.to_le_bytes()[0]
}

fn plan_kind(plan: &Plan) -> u8
    ensures { result ≡ kind_of plan.now }
{
    match *plan {
        Plan::Nothing => 0,
        Plan::Add { .. } => 1,
        Plan::Replace { .. } => 2,
    }
}

/// The drives one after the other, and zeros.
fn drive_table(drives: &[Drive]) -> [u8; TABLE_BYTES]
    requires { length drives.now ≤ 16 }
    ensures ids { HaveIds drives.now }
    ensures value { result ≡ table_of drives.now }
{
    let mut table = [0; TABLE_BYTES];
    for (place, drive) in drives.iter().enumerate() {
        put_bytes(&mut table, DRIVE_BYTES * place, &bytes_of(drive));
    }
    table
}

fn bytes_of(drive: &Drive) -> [u8; DRIVE_BYTES]
    ensures id { length drive.now.id.0 ≡ 16 }
    ensures value { result ≡ drive_bytes drive.now }
{
    let mut bytes = [0; DRIVE_BYTES];
    put_bytes(&mut bytes, 0, &drive.id.0);
    put_u64(&mut bytes, DRIVE_UNITS, drive.units);
    put_u32(&mut bytes, DRIVE_FLAGS, u32::from(drive.missing));
    bytes
}
