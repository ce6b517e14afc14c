//! How an array of the pool stands, by what it knows of its members.

ghost use Rattle.std.specs.Prelude.{◌≡◌, ◌<◌, ◌≤◌, length, find};
ghost use Rattle.std.specs.Option.{option_map_or};
ghost use Rattle.array_image.specs.SoundArray.{first_unsynced};
ghost use Rattle.array_image.specs.Supers.{is_named, is_reshaping, named_places};
ghost use Rattle.sync_laws.specs.Steps.{reach_on};
ghost use Rattle.pool.specs.Works as spec;

use array_core::{Array, Seat};
use growth_plan::ArrayNow;
use md_super::Super;
use rack::Places;

/// The sectors of a row of a member's data.
const ROW_SECTORS: u64 = 128;

/// The sectors of a member's data before its extents.
const HEAD_SECTORS: u64 = 2048;

/// The feature bit of an array that is being reshaped.
const RESHAPING: u32 = 4;

/// The first role that is no position.
const NO_POSITION: u16 = 0xfffe;

/// Whether the roles give a place a position.
fn is_named(truth: &Super, place: usize) -> bool
    ensures { result ≡ is_named truth.now place }
{
    match truth.roles.as_slice().get(place) {
        Some(role) => *role < NO_POSITION,
        None => false,
    }
}

/// The places of the members, in order.
fn members(truth: &Super) -> Places
    requires { length (named_places truth.now) ≤ 16 }
    ensures { result.items ≡ named_places truth.now }
{
    let mut members = Places::new();
    for place in 0..truth.roles.len() {
        if is_named(truth, place) {
            members.push(place as u32);
        }
    }
    members
}

/// Whether the member of a place is being rebuilt.
fn is_rebuilding(array: &Array, place: u32) -> bool
    ensures { result ≡ spec.is_rebuilding_on array.now place }
{
    match array.seat(place) {
        Some(Seat::Rebuilding { .. }) => true,
        Some(Seat::Whole) | Some(Seat::Missing) | None => false,
    }
}

/// The first of these members that is being rebuilt.
fn rebuilding(array: &Array, members: &[u32]) -> Option<u32>
    ensures { result ≡ find (spec.is_rebuilding_on array.now) members.now }
{
    members
        .iter()
        .copied()
        .find(|place| is_rebuilding(array, *place))
}

/// The sectors of a place's member that count.
fn reach(array: &Array, place: u32) -> u64
    ensures { result ≡ reach_on array.now place }
{
    match array.seat(place) {
        Some(Seat::Whole) => array.truth().size,
        Some(Seat::Rebuilding { to }) => to,
        Some(Seat::Missing) | None => 0,
    }
}

/// The rows that the member of this place has still to rebuild, and 0 where there is no place.
fn rows_to_rebuild(array: &Array, place: Option<u32>) -> u64
    ensures { result ≡ option_map_or (spec.rows_to_rebuild array.now) place 0 }
{
    match place {
        Some(place) => array
            .rows()
            .saturating_sub(reach(array, place) / ROW_SECTORS),
        None => 0,
    }
}

/// Whether the array is being reshaped.
fn is_reshaping(truth: &Super) -> bool
    ensures { result ≡ is_reshaping truth.now }
{
    truth.feature_map & RESHAPING == RESHAPING
}

/// The rows that a reshape has still to move.
fn rows_to_reshape(array: &Array) -> u64
    ensures { result ≡ spec.rows_to_reshape array.now }
{
    array.rules();
    let truth = array.truth();
    if !is_reshaping(truth) {
        return 0;
    }
    let row = ROW_SECTORS * (u64::from(truth.raid_disks) - 1);
    array.rows().saturating_sub(truth.reshape_position / row)
}

/// The first row that the truth leaves to resync or to zero.
fn first_unsynced(truth: &Super) -> u64
    ensures { result ≡ first_unsynced truth.now }
{
    if truth.resync_offset < truth.size {
        truth.resync_offset / ROW_SECTORS
    } else {
        truth.size / ROW_SECTORS
    }
}

/// The rows of a young array that are left to zero.
fn rows_to_zero(array: &Array) -> u64
    ensures { result ≡ spec.rows_to_zero array.now }
{
    if array.is_young() {
        array.rows().saturating_sub(first_unsynced(array.truth()))
    } else {
        0
    }
}

/// How an array stands, by extents of so many sectors.
pub(crate) fn array_now(extent: u32, array: &Array) -> ArrayNow
    requires extent { 0 < extent }
    requires members { length (named_places array.now.truth) ≤ 16 }
    ensures { result ≡ spec.array_now extent array.now }
{
    let truth = array.truth();
    let members = members(truth);
    let place = rebuilding(array, members.as_slice());
    ArrayNow {
        level: truth.level,
        height: truth.size.saturating_sub(HEAD_SECTORS) / u64::from(extent),
        rows: array.rows(),
        resync: array.rows().saturating_sub(array.resync_from()),
        rebuild: rows_to_rebuild(array, place),
        rebuilding: place.unwrap_or(0),
        reshaping: is_reshaping(truth),
        reshape: rows_to_reshape(array),
        zero: rows_to_zero(array),
        members,
    }
}
