//! The first of a list of works and its length, without the list.

ghost use Rattle.std.specs.Prelude.{[], replicate};
ghost use Rattle.growth_plan.specs.Tally.{IsTally, Appends};

use pool_state::Work;

#[derive(Drop)]
pub(crate) struct Tally {
    pub first: Option<Work>,
    /// No book has as many works as a `u64` counts.
    pub count: u64,
}

impl Tally {
    /// Of no work at all.
    pub(crate) fn new() -> Tally
        ensures { IsTally result [] }
    {
        Tally {
            first: None,
            count: 0,
        }
    }

    /// Appends a work that is done so many times.
    pub(crate) fn append(&mut self, work: Work, times: u64)
        ensures { Appends self.old self.new (replicate times work) }
    {
        if self.first.is_none() && times > 0 {
            self.first = Some(work);
        }
        self.count = self.count.saturating_add(times);
    }
}
