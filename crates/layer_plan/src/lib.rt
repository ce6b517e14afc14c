//! The layers of drives of unequal size, and the most that any slicing into redundant arrays can hold.
//!
//! A drive is its place in a list of units, a unit being one extent. The layers lie between
//! neighbouring cut points, which are 0 and the distinct units in ascending order. Each layer is a
//! redundant array over all drives that reach its upper cut point. One member's height of it goes to
//! redundancy, as in RAID 1 with two members and RAID 5 with more.
//!
//! The model is `specs/Slicing.antt`: any list of arrays over sets of at least two drives which
//! together take of no drive more than it has. The contract for the layer above is that of
//! [`layout`]: its layers are such a slicing, and no slicing has a greater capacity.
#![tactic(auto)]

ghost use Rattle.std.specs.Prelude.{◌≡◌, ℕ, ◌+◌, ◌^◌, ◌<◌, ◌≤◌, ◌↔◌, ◌==◌, length, All, IfOk, map, sum, sum_by, remove, position};
ghost use Rattle.std.specs.List.{IsFirstMaxByKey};
ghost use Rattle.layer_plan.specs.Slicing.{IsSlicing, IsBest, slicing_capacity};
ghost use Rattle.layer_plan.specs.Layering.{IsLayering, array_of};

mod layering;
pub mod search;

use arrayvec::ArrayVec;
pub use layering::between;
use layering::{largest_drive, layers_of};
use rack::Places;

/// The most drives that a plan takes.
pub const MAX_DRIVES: usize = 16;

/// One layer: an array over equal parts of its member drives.
#[derive(Debug, Default, Drop)]
pub struct Layer {
    /// The places of the member drives, ascending; two or more.
    pub members: Places,
    /// How many extents the layer takes of each member.
    pub height: u64,
    /// The extents that the layer offers: its height times one less than its members.
    pub extents: u64,
}

/// The plan for a list of drives.
#[derive(Debug, Drop)]
pub struct Layers {
    /// The layers, the lowest first.
    pub layers: ArrayVec<Layer, MAX_DRIVES>,
    /// The extents that all layers offer together.
    pub capacity: u64,
    /// The units of all drives but the spared one, which no slicing can exceed.
    pub bound: u64,
    /// The lowest place among the drives of most units.
    pub spared: u32,
}

/// Why drives have no plan.
#[derive(Clone, Copy, Debug, PartialEq, Eq)]
pub enum PlanError {
    /// Fewer than two drives.
    TooFew,
    /// More than sixteen drives.
    TooMany,
    /// A drive without a single unit, the lowest such place.
    NoRoom { drive: u32 },
}

/// Plans the layers of drives of so many units each, and takes no memory.
///
/// The errors are looked for in the order of [`PlanError`].
pub fn layout(units: &[u64]) -> Result<Layers, PlanError>
    requires { All (λ own. own < 2 ^ 41) units.now }

    ensures layers { IfOk result (λ plan. IsLayering units.now plan.layers.items) }
    ensures slicing { IfOk result (λ plan. IsSlicing units.now (map array_of plan.layers.items)) }
    ensures capacity { IfOk result (λ plan. plan.capacity ≡ slicing_capacity (map array_of plan.layers.items)) }
    ensures best { IfOk result (λ plan. IsBest units.now plan.capacity) }

    ensures spared { IfOk result (λ plan. IsFirstMaxByKey (λ own. own) units.now (length units.now) plan.spared) }
    ensures bound { IfOk result (λ plan. plan.bound ≡ sum (remove units.now plan.spared)) }
    ensures tight { IfOk result (λ plan. plan.bound ≡ plan.capacity) }

    ensures too_few { (result ≡ Err PlanError.TooFew) ↔ (length units.now < 2) }
    ensures too_many { (result ≡ Err PlanError.TooMany) ↔ (MAX_DRIVES < length units.now) }
    // The lowest drive without a unit, where neither of the others came.
    ensures no_room { (drive : ℕ) → (result ≡ Err (PlanError.NoRoom drive))
        ↔ ((2 ≤ length units.now) × (length units.now ≤ MAX_DRIVES) × (position (λ own. own == 0) units.now ≡ Some drive)) }
{
    if units.len() < 2 {
        return Err(PlanError::TooFew);
    }
    if units.len() > MAX_DRIVES {
        return Err(PlanError::TooMany);
    }
    if let Some(drive) = first_empty(units) {
        return Err(PlanError::NoRoom {
            drive: drive as u32,
        });
    }
    let spared = largest_drive(units);
    let bound = total_units(units) - units[spared];
    let layers = layers_of(units);
    let capacity = total_extents(&layers);
    Ok(Layers {
        layers,
        capacity,
        bound,
        spared: spared as u32,
    })
}

/// The lowest place of a drive without a unit.
fn first_empty(units: &[u64]) -> Option<usize>
    ensures { result ≡ position (λ own. own == 0) units.now }
{
    units.iter().position(|own| *own == 0)
}

/// The extents that these layers offer together.
fn total_extents(layers: &[Layer]) -> u64
    requires { sum_by (λ layer. layer.extents) layers.now < 2 ^ 64 }
    ensures { result ≡ sum_by (λ layer. layer.extents) layers.now }
{
    layers.iter().map(|layer| layer.extents).sum()
}

/// The units of all drives.
fn total_units(units: &[u64]) -> u64
    requires { sum units.now < 2 ^ 64 }
    ensures { result ≡ sum units.now }
{
    units.iter().sum()
}

#[cfg(test)]
mod tests {
    use super::*;
    use std::test::Fail;

    fn is_layer(layer: &Layer, members: &[u32], height: u64, extents: u64) -> bool {
        layer.members.as_slice() == members && layer.height == height && layer.extents == extents
    }

    #[test]
    fn four_drives_of_three_sizes(rt: HostRuntime) -> Result<(), Fail> {
        let plan = layout(&[238457, 476922, 953852, 953852])
            .ok()
            .ok_or("a plan")?;
        let [first, second, third] = plan.layers.as_slice() else {
            return Err("three layers")?;
        };
        assert!(rt;
            is_layer(first, &[0, 1, 2, 3], 238457, 715371)
                && is_layer(second, &[1, 2, 3], 238465, 476930)
                && is_layer(third, &[2, 3], 476930, 476930)
        );
        assert_eq!(rt;
            (plan.capacity, plan.bound, plan.spared),
            (1669231, 1669231, 2)
        );
        Ok(())
    }

    #[test]
    fn a_part_of_one_drive_is_unused(rt: HostRuntime) -> Result<(), Fail> {
        let plan = layout(&[10, 10, 20]).ok().ok_or("a plan")?;
        let [layer] = plan.layers.as_slice() else {
            return Err("one layer")?;
        };
        assert!(rt; is_layer(layer, &[0, 1, 2], 10, 20));
        assert_eq!(rt; (plan.capacity, plan.bound, plan.spared), (20, 20, 2));
        Ok(())
    }

    #[test]
    fn refusals(rt: HostRuntime) {
        let refused = [
            layout(&[0, 10]).err(),
            layout(&[10]).err(),
            layout(&[10; 17]).err(),
        ];
        let wanted = [
            Some(PlanError::NoRoom { drive: 0 }),
            Some(PlanError::TooFew),
            Some(PlanError::TooMany),
        ];
        assert_eq!(rt; refused, wanted);
    }

    fn capacity_of(units: &[u64]) -> Option<u64>
        requires { All (λ own. own < 2 ^ 41) units.now }
    {
        layout(units).ok().map(|plan| plan.capacity)
    }

    /// Mixes that owners of such pools know, with the units that they offer.
    #[test]
    fn known_mixes(rt: HostRuntime) {
        let steps = [1, 2, 3, 4, 5, 6, 7, 8, 9, 10, 11, 12, 13, 14, 15, 16];
        let offered = [
            capacity_of(&[2, 2, 4]),
            capacity_of(&[1, 2, 3]),
            capacity_of(&[4, 4, 8, 8]),
            capacity_of(&[1, 8]),
            capacity_of(&[7; 16]),
            capacity_of(&steps),
        ];
        let wanted = [Some(4), Some(3), Some(16), Some(1), Some(105), Some(120)];
        assert_eq!(rt; offered, wanted);
    }
}
