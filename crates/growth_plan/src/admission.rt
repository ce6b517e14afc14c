//! The causes for which a drive is refused.

ghost use Rattle.std.specs.Prelude.{◌≡◌, ℕ, ◌^◌, ◌<◌, ◌≤◌, ◌==◌, nat_le, length, All};
ghost use Rattle.std.specs.List.{list_any, list_all};
ghost use Rattle.growth_plan.specs.Book.{IsBook};
ghost use Rattle.growth_plan.specs.Admission.{is_fitting, makes_17th};

use crate::layers::{height_of, layer_above};
use crate::{MOST, Progress};
use pool_state::State;

/// Whether these units are those of one of the drives, or at least those of all others.
pub(crate) fn is_fitting(drives: &[u64], others: &[u64], units: u64) -> bool
    ensures { result ≡ is_fitting drives.now others.now units }
{
    is_known(drives, units) || is_largest(others, units)
}

fn is_known(drives: &[u64], units: u64) -> bool
    ensures { result ≡ list_any (λ own. own == units) drives.now }
{
    drives.iter().any(|own| *own == units)
}

fn is_largest(others: &[u64], units: u64) -> bool
    ensures { result ≡ list_all (λ own. nat_le own units) others.now }
{
    others.iter().all(|own| *own <= units)
}

/// Whether a 17th layer would be made over drives of these units.
#[tactic(auto, using(crate::proofs::Books::height_small))]
pub(crate) fn makes_17th(state: &State, progress: &Progress, units: &[u64]) -> bool
    requires book { IsBook state.now progress.now }
    requires drives { length units.now ≤ 16 }
    requires small { All (λ own. own < 2 ^ 41) units.now }
    ensures { result ≡ makes_17th state.now progress.now.arrays.items units.now }
{
    if (state.made as usize) < MOST {
        return false;
    }
    layer_above(units, height_of(&progress.arrays)).is_some()
}
