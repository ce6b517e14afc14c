//! The state of a case: its drives, the last run, and what is told of them.

use crate::drives::{Contents, Drive, Place, Sector};
use crate::ends::{Ends, SOUND};
use crate::faults::judge_replies;
use crate::images::Moment;
use crate::machine::{Refusals, find};
use crate::running::{Given, Ran, run_over};
use crate::text::{holds, lines_of, number_in, push_number, text_of, words_of};
use crate::trials::Trial;
use crate::volume::{Volume, Walk, sector_of};
use rack::Name;
use rack_mem::Pick;
use std::alloc::{AllocError, Global};

/// The last run of a case, and what it began with.
#[derive(Drop)]
pub struct LastRun {
    pub words: Vec<String>,
    pub script: Vec<u8>,
    /// The drives that it names.
    pub names: Vec<String>,
    pub before: Contents,
    /// The volume before it, or of zeros where it makes the pool; none where it isn't known.
    pub volume: Option<Volume>,
    pub ran: Ran,
    pub loses: bool,
    /// The lines of the case that it stands in.
    pub text: Vec<u8>,
}

/// The output of a run, with its status where that isn't 0.
#[derive(Drop)]
pub struct Unsaid {
    pub output: Vec<u8>,
    /// The volume has judged it.
    pub judged: bool,
}

/// A case.
#[derive(Drop)]
pub struct Lab {
    pub alloc: Global,
    pub drives: Vec<Drive>,
    pub contents: Contents,
    pub last: Option<LastRun>,
    /// What the next run is refused, and how its ends fail.
    pub refusals: Refusals,
    pub ends: Ends,
    /// The first byte of the id of the next pool that is made.
    pub id: u8,
    /// The volume as it is now, where that is known.
    pub volume: Option<Volume>,
    pub name: Vec<u8>,
    /// The lines of the case before the last run, and those for the next one.
    pub tale: Vec<u8>,
    pub ahead: Vec<u8>,
    /// What is wrong in this case, and how many pools were opened and refused on the way.
    pub wrong: u64,
    pub opened: u64,
    pub refused: u64,
    /// The outputs of the last runs, where nothing has been expected of them yet.
    pub unsaid: Vec<Unsaid>,
    pub report: Vec<u8>,
}

impl Lab {
    /// A case with no drives.
    pub fn new(alloc: Global, name: &[u8]) -> Result<Lab, AllocError> {
        Ok(Lab {
            alloc,
            drives: Vec::new(alloc),
            contents: Contents::zeros(alloc),
            last: None,
            refusals: Refusals {
                once: Vec::new(alloc),
                deaths: Vec::new(alloc),
                lasting: false,
            },
            ends: SOUND,
            id: 0,
            volume: None,
            name: name.to_vec(alloc)?,
            tale: Vec::new(alloc),
            ahead: Vec::new(alloc),
            wrong: 0,
            opened: 0,
            refused: 0,
            unsaid: Vec::new(alloc),
            report: Vec::new(alloc),
        })
    }

    /// Says that something is wrong.
    pub fn complain(&mut self, what: &[u8]) -> Result<(), AllocError> {
        self.wrong = self.wrong.saturating_add(1);
        self.report.extend_from_slice(b"wrong: ")?;
        self.report.extend_from_slice(&self.name)?;
        self.report.extend_from_slice(b": ")?;
        self.report.extend_from_slice(what)?;
        self.report.push(b'\n').map_err(AllocError::from)
    }

    /// Puts the drive of a name on the shelf, of zeros.
    pub fn add_drive(&mut self, name: &[u8], sectors: u64) -> Result<(), AllocError> {
        if sectors >= 1 << 48 || self.drives.len() >= 1 << 16 {
            return self.complain(b"there is no such drive");
        }
        let name = Name::of(self.alloc, name).map_err(|_| AllocError)?;
        self.drives.push(Drive { name, sectors })?;
        Ok(())
    }

    /// The number of the drive of a name.
    pub fn find(&self, name: &[u8]) -> Option<u32> {
        find(&self.drives, name)
    }

    /// The sector of a drive that two words name; one that begins with `-` counts from the drive's end.
    pub fn place(&self, name: &[u8], sector: &[u8]) -> Option<Place> {
        let drive = self.find(name)?;
        let sectors = self.drives.get(drive as usize)?.sectors;
        let sector = match sector.strip_prefix(b"-") {
            Some(back) => sectors.checked_sub(number_in(back)?)?,
            None => number_in(sector)?,
        };
        if sector < sectors {
            Some(Place { drive, sector })
        } else {
            None
        }
    }

    /// Changes a sector of the drives between two runs.
    pub fn change(&mut self, place: Place, value: Sector) -> Result<(), AllocError> {
        self.contents.set(place, value)
    }

    /// A line that changes drives, and its block, stand in the case from here on.
    pub fn tell(&mut self, line: &[u8]) -> Result<(), AllocError> {
        self.ahead.extend_from_slice(line)?;
        self.ahead.push(b'\n').map_err(AllocError::from)
    }

    /// Runs the program with these words on the drives as they are, and judges what it put where the volume is known.
    pub fn run(&mut self, words: Vec<String>, script: Vec<u8>) -> Result<(), AllocError> {
        self.close_tale()?;
        let before = self.contents.copy()?;
        let given = Given {
            words: &words,
            script: &script,
            refusals: &self.refusals,
            ends: self.ends,
            id: self.id,
        };
        let ran = run_over(self.alloc, &self.drives, &mut self.contents, &given)?;
        let loses = self.loses(&script);
        self.forget_faults();
        let names = names_of(self.alloc, &words, &script)?;
        let text = mem_take(self.alloc, &mut self.ahead);
        self.last = Some(LastRun {
            words,
            script,
            names,
            before,
            volume: None,
            ran,
            loses,
            text,
        });
        self.judge_run()?;
        self.keep_output()
    }

    // Nothing has been expected of the last run's output yet.
    fn keep_output(&mut self) -> Result<(), AllocError> {
        let Some(last) = &self.last else {
            return Ok(());
        };
        let form = last
            .words
            .first()
            .map(|word| word.as_bytes())
            .unwrap_or(b"");
        let is_read = form == b"serve".as_slice() || form == b"export".as_slice();
        let judged = is_read
            && last.volume.is_some()
            && (last.ran.status == 0 || last.ran.status == 8);
        let mut output = last.ran.output.to_vec(self.alloc)?;
        if last.ran.status != 0 {
            output.extend_from_slice(b"status ")?;
            push_number(&mut output, u64::from(last.ran.status))?;
            output.push(b'\n')?;
        }
        self.unsaid.retain(|unsaid| !unsaid.judged);
        self.unsaid.push(Unsaid { output, judged })?;
        Ok(())
    }

    // The next run is refused nothing.
    fn forget_faults(&mut self) {
        self.refusals.once.clear();
        self.refusals.deaths.clear();
        self.refusals.lasting = false;
        self.ends = SOUND;
    }

    // The lines of the last run stand in the case before the next one.
    fn close_tale(&mut self) -> Result<(), AllocError> {
        if let Some(last) = &self.last {
            self.tale.extend_from_slice(&last.text)?;
        }
        Ok(())
    }

    // Whether the next run may lose drives.
    fn loses(&self, script: &[u8]) -> bool {
        !self.refusals.once.is_empty()
            || !self.refusals.deaths.is_empty()
            || script.starts_with(b"lose ")
            || holds(script, b"\nlose ")
    }

    // Judges what the last run put, and follows the volume.
    fn judge_run(&mut self) -> Result<(), AllocError> {
        let Some(mut last) = self.last.take() else {
            return Ok(());
        };
        let form = last
            .words
            .first()
            .map(|word| word.as_bytes())
            .unwrap_or(b"");
        if form == b"create".as_slice() {
            self.follow_create(&mut last)?;
        } else if form == b"serve".as_slice() {
            self.follow_script(&mut last)?;
        } else if form == b"import".as_slice() {
            self.follow_import(&mut last)?;
        } else {
            self.follow_reading(&mut last)?;
        }
        self.last = Some(last);
        Ok(())
    }

    // A new pool is zeros.
    fn follow_create(&mut self, last: &mut LastRun) -> Result<(), AllocError> {
        let output = last.ran.output.as_slice();
        let made = output
            .strip_prefix(b"created ")
            .and_then(|rest| rest.strip_suffix(b"\n"));
        if let Some(size) = made.and_then(number_in) {
            last.volume = Some(Volume::zeros(self.alloc, size)?);
            self.volume = Some(Volume::zeros(self.alloc, size)?);
        }
        Ok(())
    }

    // The replies to a script are those of the flat array.
    fn follow_script(&mut self, last: &mut LastRun) -> Result<(), AllocError> {
        let Some(mut volume) = self.volume.take() else {
            return Ok(());
        };
        if takes_drives(self.alloc, &last.script)? {
            let trial = self.trial_by(last, &last.names, &volume);
            let size = trial.size_in_the_end(&self.contents)?;
            volume.goal = size.unwrap_or(volume.goal);
        }
        let mut complaint = None;
        match last.ran.status {
            0 | 8 => {
                let judged = self.judge_script(last, &volume)?;
                complaint = judged.0;
                self.volume = Some(judged.1);
            }
            6 => self.volume = Some(volume.copy(self.alloc)?),
            _ => {}
        }
        last.volume = Some(volume);
        match complaint {
            Some(what) => self.complain(&what),
            None => Ok(()),
        }
    }

    // What is wrong with the replies to a script, and the volume after it.
    fn judge_script(
        &self,
        last: &LastRun,
        volume: &Volume,
    ) -> Result<(Option<Vec<u8>>, Volume), AllocError> {
        let mut walk = Walk::new(self.alloc, volume, &last.ran.output, last.loses)?;
        let lines = lines_of(self.alloc, &last.script)?;
        let mut complaint = judge_replies(self.alloc, &mut walk, &lines)?;
        if complaint.is_none() && !last.ran.is_in_order(&lines) {
            let text = b"a reply came before the calls of its line, or after later ones";
            complaint = Some(text.to_vec(self.alloc)?);
        }
        Ok((complaint, walk.volume()?))
    }

    // What was imported is in the volume.
    fn follow_import(&mut self, last: &mut LastRun) -> Result<(), AllocError> {
        let Some(volume) = self.volume.take() else {
            return Ok(());
        };
        let mut after = volume.copy(self.alloc)?;
        let output = last.ran.output.as_slice();
        let is_done = output.starts_with(b"imported ") || output.starts_with(b"refused long");
        if output.starts_with(b"imported ") && !after.has_room(&last.script) {
            after.grow()?;
        }
        if is_done {
            after.import(&last.script);
        }
        if is_done || last.ran.status == 6 {
            self.volume = Some(after);
        }
        last.volume = Some(volume);
        Ok(())
    }

    // What is exported is the volume.
    fn follow_reading(&mut self, last: &mut LastRun) -> Result<(), AllocError> {
        let Some(volume) = &self.volume else {
            return Ok(());
        };
        let is_export = last.words.first().map(|word| word.as_bytes())
            == Some(b"export".as_slice());
        let is_right = !is_export || last.ran.status != 0 || volume.is(&last.ran.output);
        last.volume = Some(volume.copy(self.alloc)?);
        if is_right {
            Ok(())
        } else {
            self.complain(b"what is exported isn't the volume")
        }
    }

    /// The last run as one that is tried again, and the volume after it where its input is no script.
    pub fn trial<'a>(&'a self, last: &'a LastRun, names: &'a [String]) -> Option<Trial<'a>> {
        Some(self.trial_by(last, names, last.volume.as_ref()?))
    }

    // The same with the volume before it.
    fn trial_by<'a>(
        &'a self,
        last: &'a LastRun,
        names: &'a [String],
        volume: &'a Volume,
    ) -> Trial<'a> {
        let form = last
            .words
            .first()
            .map(|word| word.as_bytes())
            .unwrap_or(b"");
        let is_script = form == b"serve".as_slice();
        let is_create = form == b"create".as_slice();
        Trial {
            alloc: self.alloc,
            drives: &self.drives,
            before: &last.before,
            volume,
            after: if is_script {
                None
            } else {
                self.volume.as_ref()
            },
            words: &last.words,
            script: &last.script,
            names,
            may_refuse: last.loses || is_create,
            may_spend: last.loses,
            lasting: false,
        }
    }

    /// Makes the drives what a stop at a moment of the last run leaves.
    pub fn stop(&mut self, moment: u64, pick: Pick) -> Result<(), AllocError> {
        let Some(last) = self.last.take() else {
            return self.complain(b"there was no run");
        };
        self.contents = self.image_after(&last, moment, pick)?;
        self.volume = self.read_back(&last)?;
        self.last = Some(last);
        Ok(())
    }

    // What a stop at a moment of a run leaves.
    fn image_after(&self, last: &LastRun, calls: u64, pick: Pick) -> Result<Contents, AllocError> {
        let mut moment = Moment::first(self.alloc, &last.before, &last.ran.log)?;
        moment.advance(calls)?;
        moment.image(self.alloc, pick)
    }

    /// Makes the drives what they were before the last run.
    pub fn undo(&mut self) -> Result<(), AllocError> {
        let Some(last) = &self.last else {
            return self.complain(b"there was no run");
        };
        self.contents = last.before.copy()?;
        self.volume = match &last.volume {
            Some(volume) => Some(volume.copy(self.alloc)?),
            None => None,
        };
        self.tell(b"undo")
    }

    // The volume that the drives show after a stop; none where they are no pool that opens.
    fn read_back(&self, last: &LastRun) -> Result<Option<Volume>, AllocError> {
        let Some(trial) = self.trial(last, &last.names) else {
            return Ok(None);
        };
        let mut contents = self.contents.copy()?;
        let ran = trial.open(&mut contents, "export", b"")?;
        if ran.status != 0 {
            return Ok(None);
        }
        let sectors = (ran.output.len() / 512) as u64;
        let mut volume = Volume::zeros(self.alloc, sectors)?;
        volume.import(&ran.output);
        if sectors < trial.volume.goal {
            let size = trial.size_in_the_end(&contents)?;
            volume.grown = size.unwrap_or(sectors);
            volume.goal = volume.grown;
        }
        Ok(Some(volume))
    }

    /// Puts the outputs of which nothing was expected and that the volume hasn't judged.
    pub fn show_unsaid(&mut self) -> Result<(), AllocError> {
        for unsaid in self.unsaid.iter() {
            if !unsaid.judged {
                push_indented(self.alloc, &mut self.report, &unsaid.output)?;
            }
        }
        self.unsaid.clear();
        Ok(())
    }

    /// Puts the output of the last run.
    pub fn show(&mut self) -> Result<(), AllocError> {
        if let Some(last) = &self.last {
            push_indented(self.alloc, &mut self.report, &last.ran.output)?;
        }
        Ok(())
    }
}

/// Appends a text with its lines indented.
pub fn push_indented(alloc: Global, out: &mut Vec<u8>, text: &[u8]) -> Result<(), AllocError> {
    for line in lines_of(alloc, text)?.iter() {
        out.extend_from_slice(b"  ")?;
        out.extend_from_slice(line)?;
        out.push(b'\n')?;
    }
    Ok(())
}

// Takes the bytes out of a list, which is empty then.
fn mem_take(alloc: Global, bytes: &mut Vec<u8>) -> Vec<u8> {
    std::mem::replace(bytes, Vec::new(alloc))
}

// The drives that a run names: those of its words, and those that its script takes in.
fn names_of(alloc: Global, words: &[String], script: &[u8]) -> Result<Vec<String>, AllocError> {
    let is_create = words.first().map(|word| word.as_bytes()) == Some(b"create".as_slice());
    let mut names: Vec<String> = Vec::new(alloc);
    for word in words.iter().skip(if is_create { 2 } else { 1 }) {
        names.push(word.clone()?)?;
    }
    for line in script.split(|byte| *byte == b'\n') {
        if let Some(name) = taken_in(alloc, line)? {
            push_new(alloc, &mut names, name)?;
        }
    }
    Ok(names)
}

// Whether a script takes drives in.
fn takes_drives(alloc: Global, script: &[u8]) -> Result<bool, AllocError> {
    for line in script.split(|byte| *byte == b'\n') {
        if taken_in(alloc, line)?.is_some() {
            return Ok(true);
        }
    }
    Ok(false)
}

// The drive that a line of a script takes in.
fn taken_in<'a>(alloc: Global, line: &'a [u8]) -> Result<Option<&'a [u8]>, AllocError> {
    let words = words_of(alloc, line)?;
    Ok(match words.first().copied() {
        Some(b"add") => words.get(1).copied(),
        Some(b"replace") => words.get(2).copied(),
        _ => None,
    })
}

// Appends a name that isn't there yet.
fn push_new(alloc: Global, names: &mut Vec<String>, name: &[u8]) -> Result<(), AllocError> {
    if names.iter().any(|other| other.as_bytes() == name) {
        return Ok(());
    }
    if let Some(text) = text_of(alloc, name)? {
        names.push(text)?;
    }
    Ok(())
}
