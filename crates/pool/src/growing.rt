//! The works of a growth: an opened pool does any work that is left, and extends its volume.

ghost use Rattle.std.specs.Prelude.{◌≡◌, ◌<◌, ◌≤◌, length};
ghost use Rattle.std.specs.List.{list_all, range_with_len};
ghost use Rattle.pool.specs.View.{bay_in, book, view, volume};
ghost use Rattle.pool_state.specs.declared.contents.Work.TheVariants.{Extend};
ghost use Rattle.pool.specs.Growing as spec;

use crate::Pool;
use growth_plan::target;
use pool_state::Work;
use rack::{Bay, Rack};
use raid_rack::Stuck;

/// The sectors of an array before the volume's first extent.
const DATA_START: u64 = 2048;

/// No array has so many extents.
const MOST_EXTENTS: u64 = 1 << 45;

impl<R: Bay> Pool<R> {
    /// Whether an array has room for so many extents of so many sectors.
    fn holds_number(&self, array: usize, extents: u64, extent: u64) -> bool
        requires fit { (volume (view R.seen R.shelf self.now)).fit }
        requires array { array < (book (view R.seen R.shelf self.now)).state.made }
        ensures { result ≡ spec.holds_extents (book (view R.seen R.shelf self.now)) array extents extent }
    {
        let sectors = self.volume.below().sectors(array as u32);
        extents < MOST_EXTENTS
            && u128::from(DATA_START) + u128::from(extents) * u128::from(extent)
                <= u128::from(sectors)
    }

    /// Whether the first arrays have room for these numbers of extents of so many sectors.
    fn hold_numbers(&self, numbers: &[u64], extent: u64) -> bool
        requires fit { (volume (view R.seen R.shelf self.now)).fit }
        requires arrays { length numbers.now ≤ (book (view R.seen R.shelf self.now)).state.made }
        ensures { result ≡ list_all (spec.holds_number (book (view R.seen R.shelf self.now)) numbers.now extent) (range_with_len 0 (length numbers.now)) }
    {
        for array in 0..numbers.len() {
            if !self.holds_number(array, numbers[array], extent) {
                return false;
            }
        }
        true
    }

    /// Whether the volume, which has an extent, can be extended to these numbers of extents of the first arrays.
    fn can_extend(&self, numbers: &[u64]) -> bool
        requires fit { (volume (view R.seen R.shelf self.now)).fit }
        requires few { length numbers.now ≤ 16 }
        ensures { result ≡ spec.can_extend (view R.seen R.shelf self.now).linear (book (view R.seen R.shelf self.now)) numbers.now }
    {
        let extents = self.volume.extents();
        if extents == 0 || numbers.is_empty() || numbers.len() > self.state().made as usize {
            return false;
        }
        self.hold_numbers(numbers, self.size() / extents) && self.volume.fits(numbers)
    }

    /// Extends the volume over all that its arrays offer, durably. It is refused where they have no room for it, and then nothing is called; or
    /// by an array that has lost a sector.
    fn extend(&mut self) -> Result<(), Stuck>
        requires fit { (volume (view R.seen R.shelf self.old)).fit }
        requires listed { 0 < length (book (view R.seen R.shelf self.old)).state.drives.items }
        ensures tries { spec.TriesWork Extend (view R.seen R.shelf self.old) (view R.seen R.shelf self.new) R.runs (bay_in self.old) result }
        ensures runs { R.runs (bay_in self.old) (bay_in self.new) }
    {
        let extents = target(self.state(), &self.progress());
        if !self.can_extend(extents.as_slice()) {
            return Err(Stuck { array: 0 });
        }
        // A stop leaves the volume shorter or longer: what is new holds zeros, durably, before a text says it.
        match self.volume.extend(extents.as_slice()) {
            Ok(()) => Ok(()),
            Err(gone) => Err(Stuck { array: gone.disk }),
        }
    }

    /// Tries a work, by the call of the arrays or of the volume that is its own.
    fn try_work(&mut self, work: &Work) -> Result<(), Stuck>
        requires fit { (volume (view R.seen R.shelf self.old)).fit }
        requires listed { 0 < length (book (view R.seen R.shelf self.old)).state.drives.items }
        ensures tries { spec.TriesWork work.now (view R.seen R.shelf self.old) (view R.seen R.shelf self.new) R.runs (bay_in self.old) result }
        ensures runs { R.runs (bay_in self.old) (bay_in self.new) }
    {
        match *work {
            Work::Resync { .. } => self.volume.inner().work(work),
            Work::Rebuild { .. } => self.volume.inner().work(work),
            Work::TakeOver { array } => self.volume.inner().take_over(array),
            Work::Begin { array, place } => self.volume.inner().begin(array, place),
            Work::Reshape { array } => self.volume.inner().reshape(array),
            Work::Finish { array } => self.volume.inner().finish(array),
            Work::Make { array, height } => self.volume.inner().make(array, height),
            Work::Zero { array } => self.volume.inner().zero(array),
            Work::Ready { array } => self.volume.inner().ready(array),
            Work::Extend => self.extend(),
            Work::Close => self.volume.inner().work(work),
        }
    }

    /// Tries the first of the works that are left, where one is, and those after it that one commit takes, at most so many. It answers how
    /// many are done: as many as were asked for where none is left.
    fn try_first(&mut self, most: u64) -> Result<u64, Stuck>
        requires fit { (volume (view R.seen R.shelf self.old)).fit }
        requires some { 0 < most }
        ensures tries { spec.TriesFirst most (view R.seen R.shelf self.old) (view R.seen R.shelf self.new) R.runs result }
        ensures runs { R.runs (bay_in self.old) (bay_in self.new) }
    {
        match self.next_work() {
            Some(Work::Reshape { array }) => self.volume.inner().reshape_rows(array, most),
            Some(Work::Zero { array }) => self.volume.inner().zero_rows(array, most),
            Some(work) => {
                if is_row(&work) {
                    return self.volume.inner().works(&work, most);
                }
                self.try_work(&work)?;
                Ok(1)
            }
            None => Ok(most),
        }
    }

    /// Does the first of the works that are left, whatever it is, so many times or until none is left, and answers how many are left then.
    /// Arrays get longer meanwhile, and new ones are made; the volume gets longer as the last work but one of a plan. A drive that is lost
    /// changes what is left, and the works go on. They end where a work can't be done, which names its array; those before it are done.
    /// Rows to resync, to rebuild, to move or to zero that follow each other are done several by one commit.
    pub fn grow(&mut self, count: u64) -> Result<u64, Stuck>
        requires { (volume (view R.seen R.shelf self.old)).fit }
        ensures grows { spec.GrowsBy count (view R.seen R.shelf self.old) (view R.seen R.shelf self.new) R.runs result }
        ensures runs { R.runs (bay_in self.old) (bay_in self.new) }
    {
        let most = count.min(self.left());
        let mut done = 0;
        while done < most {
            done += self.try_first(most - done)?;
        }
        Ok(self.left())
    }
}

/// Whether a work is a row to resync or to rebuild.
fn is_row(work: &Work) -> bool
    ensures { result ≡ spec.is_row work.now }
{
    match *work {
        Work::Resync { .. } | Work::Rebuild { .. } => true,
        Work::TakeOver { .. }
        | Work::Begin { .. }
        | Work::Reshape { .. }
        | Work::Finish { .. }
        | Work::Make { .. }
        | Work::Zero { .. }
        | Work::Ready { .. }
        | Work::Extend
        | Work::Close => false,
    }
}
