//! Runs that are tried again: with stops at their moments, and the pools that those leave.

use crate::drives::{Contents, Drive, Sector, ZEROS};
use crate::ends::SOUND;
use crate::images::Moment;
use crate::machine::Refusals;
use crate::running::{Given, Ran, run_over};
use crate::text::{holds, lines_of, number_in, push_digits, push_number};
use crate::volume::{Volume, Walk};
use rack_mem::Pick;
use std::alloc::{AllocError, Global};

/// A run that is tried: what it began with and was given.
#[derive(Drop)]
pub struct Trial<'a> {
    pub alloc: Global,
    /// The shelf.
    pub drives: &'a [Drive],
    /// What the drives held before it.
    pub before: &'a Contents,
    /// The volume before it, or of zeros where it makes the pool.
    pub volume: &'a Volume,
    /// The volume after it, where its input is no script.
    pub after: Option<&'a Volume>,
    /// What it was given.
    pub words: &'a [String],
    pub script: &'a [u8],
    /// The drives that a pool is opened with after it.
    pub names: &'a [String],
    /// A pool may be refused, since the run makes it or loses drives.
    pub may_refuse: bool,
    /// Sectors may be refused, since the run loses drives.
    pub may_spend: bool,
    /// A drive that refuses a call refuses all that follow.
    pub lasting: bool,
}

/// A volume that isn't as it has to be, or an opening that is refused.
pub type Complaint = Option<Vec<u8>>;

/// What the openings of a trial gave.
#[derive(Drop)]
pub struct Tally {
    /// The pools that were opened.
    pub opened: u64,
    /// Those that were refused, as they may be.
    pub refused: u64,
    /// What is wrong with the first one that is.
    pub complaint: Complaint,
    /// The calls that were refused before it, and the stop that left it.
    pub calls: Vec<u64>,
    pub stop: Option<(u64, Pick)>,
    /// The stop in the opening that came after it, and the script of that.
    pub again: Option<(u64, Pick)>,
    pub steps: Vec<u8>,
    /// A drive that refused one refused all that followed.
    pub lasting: bool,
}

impl Tally {
    /// Nothing was opened.
    pub fn new(alloc: Global) -> Tally {
        Tally {
            opened: 0,
            refused: 0,
            complaint: None,
            calls: Vec::new(alloc),
            stop: None,
            again: None,
            steps: Vec::new(alloc),
            lasting: false,
        }
    }

    /// Counts an opening.
    pub fn count(&mut self, opened: Opened) {
        match opened {
            Opened::Right => self.opened = self.opened.saturating_add(1),
            Opened::Refused => self.refused = self.refused.saturating_add(1),
            Opened::Wrong { complaint } => self.complaint = Some(complaint),
        }
    }
}

/// What came of opening a pool again.
#[derive(Drop)]
pub enum Opened {
    /// All is as it has to be.
    Right,
    /// It was refused, as it may be.
    Refused,
    /// Something is wrong.
    Wrong {
        /// What.
        complaint: Vec<u8>,
    },
}

/// The pick number `number` at a moment: a seed's, the oldest, the newest, and those of other seeds.
pub fn pick_of(moment: u64, number: u64) -> Pick {
    match number {
        1 => Pick::Oldest,
        2 => Pick::Newest,
        _ => Pick::Seeded {
            seed: moment.wrapping_add(number.wrapping_mul(7919)),
        },
    }
}

// No call is refused.
fn none_refused(alloc: Global) -> Refusals {
    Refusals {
        once: Vec::new(alloc),
        deaths: Vec::new(alloc),
        lasting: false,
    }
}

impl<'a> Trial<'a> {
    /// Runs the program on contents, with nothing refused.
    pub fn open(
        &self,
        contents: &mut Contents,
        form: &str,
        script: &[u8],
    ) -> Result<Ran, AllocError> {
        self.open_without(contents, form, script, None)
    }

    // The same with one of the drives left out.
    fn open_without(
        &self,
        contents: &mut Contents,
        form: &str,
        script: &[u8],
        left_out: Option<usize>,
    ) -> Result<Ran, AllocError> {
        let mut words = Vec::new(self.alloc);
        words.push(String::from_str(self.alloc, form)?)?;
        for (at, name) in self.names.iter().enumerate() {
            if left_out != Some(at) {
                words.push(name.clone()?)?;
            }
        }
        let refusals = none_refused(self.alloc);
        let given = Given {
            words: &words,
            script,
            refusals: &refusals,
            ends: SOUND,
            id: 0,
        };
        run_over(self.alloc, self.drives, contents, &given)
    }

    /// The run once more, with some calls refused, from what it began with.
    pub fn repeat(&self, contents: &mut Contents, refusals: &Refusals) -> Result<Ran, AllocError> {
        let given = Given {
            words: self.words,
            script: self.script,
            refusals,
            ends: SOUND,
            id: 0,
        };
        *contents = self.before.copy()?;
        run_over(self.alloc, self.drives, contents, &given)
    }

    /// Whether the run answers a script.
    pub fn is_script(&self) -> bool {
        self.after.is_none()
    }

    /// Stops a run at each `every`-th moment and at the last one, under so many picks.
    pub fn sweep(&self, ran: &Ran, every: u64, picks: u64) -> Result<Tally, AllocError> {
        let mut tally = Tally::new(self.alloc);
        let mut at = Stops::new(self, ran)?;
        let last = ran.calls.checked_div(every).unwrap_or(0);
        for number in 0..=last.saturating_add(1) {
            let moment = number.saturating_mul(every).min(ran.calls);
            at.advance(moment)?;
            for pick in 0..picks {
                let pick = pick_of(moment, pick);
                tally.count(at.open(pick)?);
                tally.stop = Some((moment, pick));
                if tally.complaint.is_some() {
                    return Ok(tally);
                }
            }
        }
        Ok(tally)
    }

    /// Stops a run at each `every`-th moment, and the one after it, which does the works that a script asks for, at each
    /// `then`-th one.
    pub fn sweep_twice(
        &self,
        ran: &Ran,
        every: u64,
        then: u64,
        steps: &[u8],
    ) -> Result<Tally, AllocError> {
        let mut tally = Tally::new(self.alloc);
        tally.steps.extend_from_slice(steps)?;
        let mut at = Stops::new(self, ran)?;
        let last = ran.calls.checked_div(every).unwrap_or(0);
        for number in 0..=last.saturating_add(1) {
            let moment = number.saturating_mul(every).min(ran.calls);
            at.advance(moment)?;
            tally.stop = Some((moment, pick_of(moment, 0)));
            at.open_twice(pick_of(moment, 0), then, &mut tally)?;
            if tally.complaint.is_some() {
                break;
            }
        }
        Ok(tally)
    }

    /// Stops a run at one moment under a pick.
    pub fn stop(&self, ran: &Ran, moment: u64, pick: Pick) -> Result<Opened, AllocError> {
        let mut at = Stops::new(self, ran)?;
        at.advance(moment)?;
        at.open(pick)
    }

    /// Opens a pool again: all its sectors are read, its plan is ended, and each drive is left out in turn. Where the plan
    /// makes the volume grow, it is the same then with zeros behind it.
    pub fn judge(
        &self,
        contents: &mut Contents,
        walk: &Walk<'_>,
        in_hand: Option<&[u8]>,
    ) -> Result<Opened, AllocError> {
        let exported = self.open(contents, "export", b"")?;
        let is_making = self.may_refuse && !self.may_spend && exported.status == 6;
        if is_making || (self.may_refuse && is_excused(&exported)) {
            return Ok(Opened::Refused);
        }
        if let Some(complaint) = self.complain(&exported, walk, in_hand)? {
            return Ok(Opened::Wrong { complaint });
        }
        let ended = self.open(contents, "serve", b"status\nstep 1000000\nsize\n")?;
        let mut volume = exported.output;
        if holds(&ended.output, b"\nplan ") && !holds(&ended.output, b"\nplan nothing\n") {
            push_zeros(&mut volume, walk.goal())?;
        }
        if let Some(complaint) = self.complain_of_works(&ended, (volume.len() / 512) as u64)? {
            return Ok(Opened::Wrong { complaint });
        }
        if exported.status != 0 || holds(&ended.output, b"\nrefused stuck ") {
            return Ok(Opened::Right);
        }
        if holds(&ended.output, b" missing\n") {
            return self.compare(contents, &volume, None);
        }
        self.leave_out(contents, &volume)
    }

    /// The sectors that the volume has once the plan of a pool has ended; none where the pool doesn't open.
    pub fn size_in_the_end(&self, contents: &Contents) -> Result<Option<u64>, AllocError> {
        let mut contents = contents.copy()?;
        let ended = self.open(&mut contents, "serve", b"step 1000000\nsize\n")?;
        let lines = lines_of(self.alloc, &ended.output)?;
        let size = lines.last().and_then(|line| line.strip_prefix(b"size "));
        Ok(size.and_then(number_in))
    }

    // What is wrong with the volume that a pool exported.
    fn complain(
        &self,
        exported: &Ran,
        walk: &Walk<'_>,
        in_hand: Option<&[u8]>,
    ) -> Result<Complaint, AllocError> {
        let is_whole = exported.status == 0 && walk.may_have(exported.output.len() as u64);
        let is_spent = self.may_spend && exported.status == 8;
        if !is_whole && !is_spent {
            return self.say(b"the pool answers ", &exported.output);
        }
        for (sector, piece) in exported.output.as_slice().chunks(512).enumerate() {
            let sector = sector as u64;
            let value = crate::volume::sector_of(piece);
            if !walk.allows(sector, &value, in_hand) && !self.is_after(sector, &value) {
                return self.say_sector(sector, &value);
            }
        }
        Ok(None)
    }

    // Whether a sector has a value after the run, where that isn't told line by line.
    fn is_after(&self, sector: u64, value: &Sector) -> bool {
        match self.after {
            Some(volume) => volume.values.as_slice().get(sector as usize) == Some(value),
            None => false,
        }
    }

    // What is wrong with how the works of a pool ended, where the volume has so many sectors then.
    fn complain_of_works(&self, ended: &Ran, sectors: u64) -> Result<Complaint, AllocError> {
        let mut want = b"left 0\nsize ".to_vec(self.alloc)?;
        push_number(&mut want, sectors)?;
        want.push(b'\n')?;
        let replies = behind_standing(&ended.output);
        let is_done = ended.status == 0 && replies == want.as_slice();
        let is_stuck = self.may_spend && replies.starts_with(b"refused stuck ");
        if is_done || is_stuck {
            return Ok(None);
        }
        let wrong = replies.strip_prefix(b"left 0\n").unwrap_or(replies);
        self.say(b"the works end with ", wrong)
    }

    // Leaves each drive of a whole pool out in turn: the volume has to be the same.
    fn leave_out(&self, contents: &Contents, volume: &[u8]) -> Result<Opened, AllocError> {
        for at in 0..self.names.len() {
            let opened = self.compare(contents, volume, Some(at))?;
            if !matches!(opened, Opened::Right) {
                return Ok(opened);
            }
        }
        Ok(Opened::Right)
    }

    // The volume has to be this one once the works are done, also with one of the drives left out.
    fn compare(
        &self,
        contents: &Contents,
        volume: &[u8],
        left_out: Option<usize>,
    ) -> Result<Opened, AllocError> {
        let mut left = contents.copy()?;
        let exported = self.open_without(&mut left, "export", b"", left_out)?;
        if exported.status == 0 && exported.output.as_slice() == volume {
            return Ok(Opened::Right);
        }
        let mut complaint = b"the volume is another one after the works".to_vec(self.alloc)?;
        if let Some(at) = left_out {
            complaint.extend_from_slice(b", without drive number ")?;
            push_number(&mut complaint, at as u64)?;
        }
        Ok(Opened::Wrong { complaint })
    }

    // A complaint with the first line of an output.
    fn say(&self, what: &[u8], output: &[u8]) -> Result<Complaint, AllocError> {
        let mut text = what.to_vec(self.alloc)?;
        let line = output.split(|byte| *byte == b'\n').next().unwrap_or(&[]);
        text.extend_from_slice(line.get(..100).unwrap_or(line))?;
        Ok(Some(text))
    }

    // A complaint of a sector.
    fn say_sector(&self, sector: u64, value: &Sector) -> Result<Complaint, AllocError> {
        let mut text = b"sector ".to_vec(self.alloc)?;
        push_number(&mut text, sector)?;
        text.extend_from_slice(b" has ")?;
        push_digits(self.alloc, &mut text, &value.bytes)?;
        Ok(Some(text))
    }
}

// Appends sectors of zeros up to so many.
fn push_zeros(volume: &mut Vec<u8>, sectors: u64) -> Result<(), AllocError> {
    for _ in (volume.len() / 512) as u64..sectors {
        volume.extend_from_slice(&ZEROS.bytes)?;
    }
    Ok(())
}

// What a run put behind the lines that say how its pool stands.
fn behind_standing(output: &[u8]) -> &[u8] {
    let end = output
        .windows(5)
        .position(|window| window == b"\nend\n".as_slice());
    let behind = end.and_then(|at| output.get(at.saturating_add(5)..));
    behind.unwrap_or(output)
}

// Whether a pool was refused as one may be that lost drives or that isn't made yet.
fn is_excused(ran: &Ran) -> bool {
    let output = ran.output.as_slice();
    ran.status == 6
        && (output.starts_with(b"refused absent ")
            || output.starts_with(b"refused too-few ")
            || output.starts_with(b"refused dirty-degraded ")
            || output.starts_with(b"refused no-pool"))
}

// The moments of a run, in ascending order, beside its lines.
#[derive(Drop)]
struct Stops<'a> {
    trial: &'a Trial<'a>,
    ran: &'a Ran,
    lines: Vec<&'a [u8]>,
    // How many lines have been answered.
    done: usize,
    calls: u64,
    moment: Moment<'a>,
    walk: Walk<'a>,
}

impl<'a> Stops<'a> {
    // Before the first call.
    fn new(trial: &'a Trial<'a>, ran: &'a Ran) -> Result<Stops<'a>, AllocError> {
        let alloc = trial.alloc;
        let script: &[u8] = if trial.is_script() { trial.script } else { b"" };
        Ok(Stops {
            trial,
            ran,
            lines: lines_of(alloc, script)?,
            done: 0,
            calls: 0,
            moment: Moment::first(alloc, trial.before, &ran.log)?,
            walk: Walk::new(alloc, trial.volume, &ran.output, trial.may_spend)?,
        })
    }

    // Goes on to the moment after so many calls.
    fn advance(&mut self, calls: u64) -> Result<(), AllocError> {
        self.calls = calls;
        self.moment.advance(calls)?;
        let next = self
            .ran
            .starts
            .as_slice()
            .get(self.done.saturating_add(1)..)
            .unwrap_or(&[]);
        let lines = self.lines.as_slice().get(self.done..).unwrap_or(&[]);
        let mut passed = 0usize;
        for (line, start) in lines.iter().zip(next) {
            if *start > calls {
                break;
            }
            let _ = self.walk.pass(line)?;
            passed = passed.saturating_add(1);
        }
        self.done = self.done.saturating_add(passed);
        Ok(())
    }

    // The line whose calls have begun and not ended.
    fn in_hand(&self) -> Option<&'a [u8]> {
        let start = self.ran.starts.as_slice().get(self.done).copied()?;
        if start < self.calls {
            self.lines.as_slice().get(self.done).copied()
        } else {
            None
        }
    }

    // Opens what a stop here leaves under a pick.
    fn open(&self, pick: Pick) -> Result<Opened, AllocError> {
        let mut image = self.moment.image(self.trial.alloc, pick)?;
        self.trial.judge(&mut image, &self.walk, self.in_hand())
    }

    // Opens what a stop here leaves under a pick, and stops that run at each `every`-th moment.
    fn open_twice(&self, pick: Pick, every: u64, tally: &mut Tally) -> Result<(), AllocError> {
        let alloc = self.trial.alloc;
        let image = self.moment.image(alloc, pick)?;
        let mut left = image.copy()?;
        let opening = self.trial.open(&mut left, "serve", &tally.steps)?;
        let mut moment = Moment::first(alloc, &image, &opening.log)?;
        let last = opening.calls.checked_div(every).unwrap_or(0);
        for number in 0..=last {
            let calls = number.saturating_mul(every);
            moment.advance(calls)?;
            let pick = pick_of(calls, 0);
            tally.again = Some((calls, pick));
            let mut image = moment.image(alloc, pick)?;
            tally.count(self.trial.judge(&mut image, &self.walk, self.in_hand())?);
            if tally.complaint.is_some() {
                break;
            }
        }
        Ok(())
    }
}
