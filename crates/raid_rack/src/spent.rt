//! Which sectors of the arrays can't be had any more.

ghost use Rattle.std.specs.Prelude.{◌≡◌, ◌<◌, ◌≤◌, ◌||◌, nat_lt, length};
ghost use Rattle.std.specs.List.{list_any};
ghost use Rattle.array_model.specs.View.{IsArray, sectors_of};
ghost use Rattle.raid_laws.specs.Moves.{IsHeeded};
ghost use Rattle.raid_laws.specs.Raid as spec;
ghost use Rattle.raid_rack.specs.RaidRack.{raid_by};

use crate::arrays::{Arrays, RaidRack};
use crate::marks::current_places;
use array_core::Array;
use rack::Rack;

/// Numbers of commits, epochs and events end at 2^63. After this one every sector is refused.
const LAST_NUMBER: u64 = (1 << 63) - 1024;

/// Whether the events of an array come to their end.
fn has_late_events(arrays: &[Array]) -> bool
    ensures { result ≡ list_any (λ v. nat_lt spec.last_number v.truth.events) arrays.now }
{
    arrays
        .iter()
        .any(|array| array.truth().events > LAST_NUMBER)
}

impl Arrays {
    /// Whether the epochs or the events of an array come to their end.
    fn is_late(&self) -> bool
        ensures { result ≡ (nat_lt spec.last_number self.now.state.epoch
            || list_any (λ v. nat_lt spec.last_number v.truth.events) self.now.all.items) }
    {
        self.state.epoch > LAST_NUMBER || has_late_events(self.all.as_slice())
    }

    /// Whether they do, or the numbers of commits.
    fn is_used_up(&self) -> bool
        requires count { length self.now.all.items ≡ self.now.state.made }
        ensures { result ≡ spec.is_used_up (raid_by self.now) }
    {
        self.log.number() > LAST_NUMBER || self.is_late()
    }

    /// Whether no drive is left, or numbers are used up.
    pub(crate) fn is_ended(&self) -> bool
        requires count { length self.now.all.items ≡ self.now.state.made }
        requires few { length self.now.state.drives.items ≤ 16 }
        requires heeded { IsHeeded (raid_by self.now) }
        ensures { result ≡ (spec.is_empty (raid_by self.now) || spec.is_used_up (raid_by self.now)) }
    {
        current_places(&self.state).is_empty() || self.is_used_up()
    }

    /// Whether a sector of an array can't be had any more: no drive is left, numbers are used up, or too many of its copies are lost.
    pub(crate) fn is_spent(&self, number: u32, sector: u64) -> bool
        requires count { length self.now.all.items ≡ self.now.state.made }
        requires few { length self.now.state.drives.items ≤ 16 }
        requires heeded { IsHeeded (raid_by self.now) }
        requires number { number < self.now.state.made }
        requires array { IsArray ((raid_by self.now).arrays number) }
        requires sector { sector < sectors_of ((raid_by self.now).arrays number) }
        ensures { result ≡ spec.spent_of (raid_by self.now) number sector }
    {
        self.is_ended() || self.all[number as usize].is_spent(sector)
    }
}

impl<R: Rack> RaidRack<R> {
    ghost use Rattle.raid_rack.specs.RaidRack.{IsFit, arrays_in, raid_in, slices_seen};

    /// Whether epochs, events or numbers of commits are used up, so that every sector is refused. A pool of which fewer than 2^62
    /// changes were made never comes there.
    pub fn is_used_up(&self) -> bool
        requires fit { IsFit (arrays_in self.now) (slices_seen R.seen self.now) }
        ensures { result ≡ spec.is_used_up (raid_in self.now) }
    {
        self.arrays.is_used_up()
    }
}
