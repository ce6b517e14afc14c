//! One pass over the ordered units finds the layers.
#![tactic(auto)]

ghost use Rattle.std.specs.Prelude.{◌≡◌, ℕ, ◌+◌, ◌^◌, ◌<◌, ◌≤◌, length, All, IsPermutation, map, sum, sum_by, slice_index};
ghost use Rattle.std.specs.List.{IsFirstMaxByKey};
ghost use Rattle.std.specs.List.Sorted.{IsNonDecreasing};
ghost use Rattle.layer_plan.specs.Slicing.{IsSlicing, slicing_capacity};
ghost use Rattle.layer_plan.specs.Layering.{IsLayering, array_of, layer_between, places_reaching};

use crate::{Layer, MAX_DRIVES};
use arrayvec::ArrayVec;
use rack::Places;

/// The fewest members of a redundant array.
const FEWEST_MEMBERS: usize = 2;

/// The units of all drives, ascending.
fn ascending(units: &[u64]) -> ArrayVec<u64, MAX_DRIVES>
    requires { length units.now ≤ MAX_DRIVES }
    ensures permutation { IsPermutation units.now result.items }
    ensures ordered { IsNonDecreasing result.items }
{
    let mut ordered = ArrayVec::new();
    for own in units {
        ordered.push(*own);
    }
    ordered.sort_unstable();
    ordered
}

/// The places of the drives that have at least `level` units, ascending.
fn reaching(units: &[u64], level: u64) -> Places
    requires { length units.now ≤ MAX_DRIVES }
    ensures { result.items ≡ places_reaching units.now level }
{
    let mut places = Places::new();
    for (place, own) in units.iter().enumerate() {
        if level <= *own {
            places.push(place as u32);
        }
    }
    places
}

/// The layer between two cut points, whether or not it has two members.
pub fn between(units: &[u64], lower: u64, upper: u64) -> Layer
    requires drives { length units.now ≤ MAX_DRIVES }
    requires rising { lower < upper }
    requires small { upper < 2 ^ 41 }
    ensures { result ≡ layer_between units.now (lower, upper) }
{
    let members = reaching(units, upper);
    let height = upper - lower;
    let extents = (members.len() as u64).saturating_sub(1) * height;
    Layer {
        members,
        height,
        extents,
    }
}

/// The layers of these drives, the lowest first.
pub fn layers_of(units: &[u64]) -> ArrayVec<Layer, MAX_DRIVES>
    requires drives { length units.now ≤ MAX_DRIVES }
    requires small { All (λ own. own < 2 ^ 41) units.now }
    ensures layering { IsLayering units.now result.items }
    ensures slicing { IsSlicing units.now (map array_of result.items) }
    ensures extents { sum_by (λ layer. layer.extents) result.items ≡ slicing_capacity (map array_of result.items) }
    // They hold the units of all drives but one of most units.
    ensures whole { (spared : ℕ) → IsFirstMaxByKey (λ own. own) units.now (length units.now) spared →
        slicing_capacity (map array_of result.items) + slice_index units.now spared ≡ sum units.now }
{
    let ordered = ascending(units);
    let mut layers = ArrayVec::new();
    let mut lower = 0;
    for upper in ordered.as_slice() {
        if lower < *upper {
            let layer = between(units, lower, *upper);
            if layer.members.len() >= FEWEST_MEMBERS {
                layers.push(layer);
            }
            lower = *upper;
        }
    }
    layers
}

/// The lowest place among the drives of most units.
pub fn largest_drive(units: &[u64]) -> usize
    requires { 0 < length units.now }
    ensures { IsFirstMaxByKey (λ own. own) units.now (length units.now) result }
{
    let mut largest = 0;
    for (place, own) in units.iter().enumerate() {
        if units[largest] < *own {
            largest = place;
        }
    }
    largest
}
