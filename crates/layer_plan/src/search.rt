//! The best capacity of a few small drives by trying every height of every set of them: slow, and
//! apart from the layers.
#![tactic(auto)]

ghost use Rattle.std.specs.Prelude.{◌≡◌, ℕ, ◌+◌, ◌-◌, ◌*◌, ◌<◌, ◌≤◌, if◌then◌else◌, length, All, IfSome, IfNone, IsTrue, count_by, slice_index};
ghost use Rattle.layer_plan.specs.Search.{is_member, IsBestOver};

/// Whether each of four drives is a member.
pub type Set = [bool; 4];

/// The most units of a drive that is searched.
pub const MAX_UNITS: u64 = 6;

/// Each set of at least two of four drives.
pub const SETS: [Set; 11] = [
    [true, true, false, false],
    [true, false, true, false],
    [true, false, false, true],
    [false, true, true, false],
    [false, true, false, true],
    [false, false, true, true],
    [true, true, true, false],
    [true, true, false, true],
    [true, false, true, true],
    [false, true, true, true],
    [true, true, true, true],
];

/// What the members keep above an array of this height, where each has as much.
fn lowered(units: &[u64; 4], set: &Set, height: u64) -> Option<[u64; 4]>
    ensures left { IfSome result (λ left. (place : ℕ) → place < 4 →
        slice_index left place + (if is_member set.now place then height else 0) ≡ slice_index units.now place) }
    ensures lacking { IfNone result ((place : ℕ) × (place < 4) × IsTrue (is_member set.now place) × (slice_index units.now place < height)) }
{
    let mut left = *units;
    for place in 0..4 {
        if set[place] {
            if units[place] < height {
                return None;
            }
            left[place] = units[place] - height;
        }
    }
    Some(left)
}

/// How many members of a set hold data.
fn data_members(set: &Set) -> u64
    ensures value { result ≡ count_by (λ member. member) set.now - 1 }
    ensures few { result ≤ 3 }
{
    (set.iter().filter(|member| **member).count() as u64).saturating_sub(1)
}

/// The most that arrays over these sets can offer.
pub fn best_over(sets: &[Set], units: &[u64; 4]) -> u64
    requires few { length sets.now ≤ 11 }
    requires small { All (λ own. own ≤ MAX_UNITS) units.now }
    ensures best { IsBestOver sets.now units.now result }
    ensures bound { result ≤ length sets.now * 18 }
{
    let Some((set, others)) = sets.split_first() else {
        return 0;
    };
    let mut best = 0;
    for height in 0..MAX_UNITS + 1 {
        if let Some(left) = lowered(units, set, height) {
            best = best.max(data_members(set) * height + best_over(others, &left));
        }
    }
    best
}

#[cfg(test)]
mod tests {
    use super::*;
    use crate::layout;
    use std::test::Fail;

    /// Each list of two to four drives of one to six units, by its number; 0 for a drive that isn't there.
    fn drives(count: usize, number: u64) -> [u64; 4]
        ensures { All (λ own. own ≤ MAX_UNITS) result }
    {
        let third = if count > 2 { number / 36 % 6 + 1 } else { 0 };
        let fourth = if count > 3 { number / 216 % 6 + 1 } else { 0 };
        [number % 6 + 1, number / 6 % 6 + 1, third, fourth]
    }

    #[test]
    fn the_plan_is_the_best_of_all_small_slicings(rt: HostRuntime) -> Result<(), Fail> {
        for (count, numbers) in [(2, 36), (3, 216), (4, 1296)] {
            for number in 0..numbers {
                let units = drives(count, number);
                let plan = layout(&units[..count]).ok().ok_or("a plan")?;
                assert_eq!(rt; plan.capacity, best_over(&SETS, &units), "{units:?}");
            }
        }
        Ok(())
    }
}
