//! The works of maintenance of an opened pool.

ghost use Rattle.std.specs.Prelude.{◌≡◌, ◌<◌, ◌≤◌, nat_lt, length, slice_get, IfErr, IfOk};
ghost use Rattle.growth_plan.specs.Book.{IsBook};
ghost use Rattle.pool.specs.View.{bay_in, book, view, volume};
ghost use Rattle.pool.specs.Proceeding as proceeding;
ghost use Rattle.pool.specs.Works.{IsStuck, IsWorked, left_of, progress_by, works_of};
ghost use Rattle.pool.specs.Calls.{DoesFirst, Steps};

use crate::Pool;
use crate::standing::array_now;
use arrayvec::ArrayVec;
use growth_plan::{Progress, has_growth, left, next_work};
use pool_state::Work;
use rack::Bay;
use raid_rack::Stuck;

impl<R: Bay> Pool<R> {
    /// Whether the pool's list has a drive, as that of each state that was read.
    fn has_drives(&self) -> bool
        ensures { result ≡ nat_lt 0 (length (book (view R.seen R.shelf self.now)).state.drives.items) }
    {
        self.state().drives.len() > 0
    }

    /// How far all arrays are, and the volume.
    pub(crate) fn progress(&self) -> Progress
        requires fit { (volume (view R.seen R.shelf self.now)).fit }
        requires listed { 0 < length (book (view R.seen R.shelf self.now)).state.drives.items }
        ensures value { result ≡ progress_by (view R.seen R.shelf self.now).linear (book (view R.seen R.shelf self.now)) }
        ensures book { IsBook (book (view R.seen R.shelf self.now)).state result }
    {
        let extent = self.state().extent;
        let mut arrays = ArrayVec::new();
        for number in 0..self.state().made {
            match self.array(number) {
                Some(array) => arrays.push(array_now(extent, array)),
                None => {}
            }
        }
        Progress {
            arrays,
            extents: self.volume.extents(),
        }
    }

    /// How many works of maintenance are left: rows to resync and to rebuild, and what is left of the plan.
    pub fn left(&self) -> u64
        requires { (volume (view R.seen R.shelf self.now)).fit }
        ensures { result ≡ left_of (view R.seen R.shelf self.now) }
    {
        if self.has_drives() {
            left(self.state(), &self.progress())
        } else {
            0
        }
    }

    /// Whether a work of a growth is left: any but a row to resync or to rebuild, and the plan's end.
    pub fn has_growth_left(&self) -> bool
        requires { (volume (view R.seen R.shelf self.now)).fit }
        ensures { result ≡ proceeding.has_growth (view R.seen R.shelf self.now).linear (book (view R.seen R.shelf self.now)) }
    {
        if self.has_drives() {
            has_growth(self.state(), &self.progress())
        } else {
            false
        }
    }

    /// The first of the works that are left.
    pub(crate) fn next_work(&self) -> Option<Work>
        requires { (volume (view R.seen R.shelf self.now)).fit }
        ensures first { result ≡ slice_get (works_of (view R.seen R.shelf self.now)) 0 }
    {
        if self.has_drives() {
            next_work(self.state(), &self.progress())
        } else {
            None
        }
    }

    /// Does the first of the works that are left, and those after it of its kind that one commit takes, at most so many. It answers how
    /// many are done: as many as were asked for where none is left.
    fn advance(&mut self, most: u64) -> Result<u64, Stuck>
        requires fit { (volume (view R.seen R.shelf self.old)).fit }
        requires some { 0 < most }
        ensures worked { IsWorked R.seen R.runs 1 self.old self.new }
        ensures some { IfOk result (λ count. (0 < count) × (count ≤ most)) }
        ensures done { IfOk result (λ count. DoesFirst count (view R.seen R.shelf self.old) (view R.seen R.shelf self.new)) }
        ensures stuck { IfErr result
            (λ e. IsStuck (view R.seen R.shelf self.new).linear (book (view R.seen R.shelf self.old)) (book (view R.seen R.shelf self.new)) e.array) }
    {
        match self.next_work() {
            Some(work) => self.volume.inner().works(&work, most),
            None => Ok(most),
        }
    }

    /// Does the first of the works that are left, so many times or until none is left, and answers how many are left then. No value
    /// moves. A drive that is lost meanwhile changes what is left, and the steps go on. They end where a work can't be done, which
    /// names its array; those before it are done. Rows of one array that follow each other are done several by one commit.
    pub fn step(&mut self, count: u64) -> Result<u64, Stuck>
        requires { (volume (view R.seen R.shelf self.old)).fit }
        ensures steps { Steps (view R.seen R.shelf self.old) (view R.seen R.shelf self.new) count result }
        ensures runs { R.runs (bay_in self.old) (bay_in self.new) }
    {
        let most = count.min(self.left());
        let mut done = 0;
        while done < most {
            done += self.advance(most - done)?;
        }
        Ok(self.left())
    }
}
