//! The commands of a case that run the program, and that try a run again.

use crate::drawing::{Drawn, push_script};
use crate::lab::{Lab, LastRun, push_indented};
use crate::running::Ran;
use crate::text::{lines_of, number_in, push_block, push_number, text_of};
use crate::trials::{Tally, Trial};
use rack_mem::Pick;
use std::alloc::AllocError;

// A word's number, or another one where it isn't there.
fn number_or(word: Option<&&[u8]>, other: u64) -> u64 {
    word.and_then(|word| number_in(word)).unwrap_or(other)
}

// The word behind another one.
fn behind<'a>(words: &[&'a [u8]], word: &[u8]) -> Option<&'a [u8]> {
    let at = words.iter().position(|other| *other == word)?;
    words.get(at.saturating_add(1)).copied()
}

// The number behind a word.
fn number_behind(words: &[&[u8]], word: &[u8], other: u64) -> u64 {
    behind(words, word).and_then(number_in).unwrap_or(other)
}

impl Lab {
    /// `run WORDS`, with its input below it.
    pub fn command_run(
        &mut self,
        line: &[u8],
        words: &[&[u8]],
        block: &[&[u8]],
    ) -> Result<(), AllocError> {
        let mut script = Vec::new(self.alloc);
        push_block(&mut script, block)?;
        self.tell(line)?;
        for line in block {
            self.tell(line)?;
        }
        let words = self.texts(words)?;
        self.run(words, script)
    }

    // Words as texts.
    fn texts(&self, words: &[&[u8]]) -> Result<Vec<String>, AllocError> {
        let mut texts = Vec::new(self.alloc);
        for word in words {
            let word = if *word == b"''".as_slice() {
                b"".as_slice()
            } else {
                *word
            };
            if let Some(text) = text_of(self.alloc, word)? {
                texts.push(text)?;
            }
        }
        Ok(texts)
    }

    /// `seed S lines N [losses] NAME ..`: serves a script that is drawn from a number.
    pub fn command_seed(&mut self, words: &[&[u8]]) -> Result<(), AllocError> {
        let losses = words.contains(&b"losses".as_slice());
        let first = if losses { 4 } else { 3 };
        let names = self.texts(words.get(first..).unwrap_or(&[]))?;
        let Some(volume) = &self.volume else {
            return self.complain(b"there is no volume to draw a script for");
        };
        let drawn = Drawn {
            lines: number_behind(words, b"lines", 20),
            size: volume.values.len() as u64,
            names: &names,
            losses,
        };
        let mut script = Vec::new(self.alloc);
        push_script(&mut script, number_or(words.first(), 0), &drawn)?;
        let mut all = Vec::new(self.alloc);
        all.push(String::from_str(self.alloc, "serve")?)?;
        for name in names.iter() {
            all.push(name.clone()?)?;
        }
        self.tell_run(&all, &script)?;
        self.run(all, script)
    }

    // A run that was drawn stands in the case as if it had been written.
    fn tell_run(&mut self, words: &[String], script: &[u8]) -> Result<(), AllocError> {
        self.ahead.extend_from_slice(b"run")?;
        for word in words {
            self.ahead.push(b' ')?;
            self.ahead.extend_from_slice(word.as_bytes())?;
        }
        self.ahead.push(b'\n')?;
        for line in lines_of(self.alloc, script)?.iter() {
            self.ahead.extend_from_slice(b"  ")?;
            self.ahead.extend_from_slice(line)?;
            self.ahead.push(b'\n')?;
        }
        Ok(())
    }

    /// `expect`, with the lines below it that each of the last runs had to put, and the status where it isn't 0.
    pub fn expect(&mut self, block: &[&[u8]]) -> Result<(), AllocError> {
        let mut want = Vec::new(self.alloc);
        push_block(&mut want, block)?;
        let unsaid = std::mem::replace(&mut self.unsaid, Vec::new(self.alloc));
        for unsaid in unsaid.iter() {
            if want.as_slice() != unsaid.output.as_slice() {
                self.complain_of_output(&want, &unsaid.output)?;
            }
        }
        Ok(())
    }

    // Says where an output begins to be another one than was expected.
    fn complain_of_output(&mut self, want: &[u8], got: &[u8]) -> Result<(), AllocError> {
        let wanted = lines_of(self.alloc, want)?;
        let came = lines_of(self.alloc, got)?;
        let same = wanted
            .iter()
            .zip(came.iter())
            .take_while(|(one, other)| one == other)
            .count();
        let mut text = b"line ".to_vec(self.alloc)?;
        push_number(&mut text, same as u64)?;
        text.extend_from_slice(b" of the output is ")?;
        push_line(&mut text, came.get(same))?;
        text.extend_from_slice(b" and not ")?;
        push_line(&mut text, wanted.get(same))?;
        self.complain(&text)
    }

    /// `stop at M PICK`, `stop before end N PICK`, or `stop after N PICK`: after the reply to so many lines. The pick is
    /// `oldest`, `newest` or `seeded S`.
    pub fn command_stop(&mut self, line: &[u8], words: &[&[u8]]) -> Result<(), AllocError> {
        let Some(moment) = self.moment_of(words) else {
            return self.complain(b"there is no such moment");
        };
        let pick = match behind(words, b"seeded").and_then(number_in) {
            Some(seed) => Pick::Seeded { seed },
            None if words.contains(&b"oldest".as_slice()) => Pick::Oldest,
            None => Pick::Newest,
        };
        self.tell(line)?;
        self.stop(moment, pick)
    }

    // The moment of the last run that words name.
    fn moment_of(&self, words: &[&[u8]]) -> Option<u64> {
        let ran = &self.last.as_ref()?.ran;
        if let Some(call) = behind(words, b"at").and_then(number_in) {
            return Some(call);
        }
        if let Some(calls) = behind(words, b"end").and_then(number_in) {
            return ran.calls.checked_sub(calls);
        }
        let line = behind(words, b"after").and_then(number_in)?;
        ran.starts.as_slice().get(line as usize).copied()
    }

    /// `sweep every N picks K [with NAME ..]`: stops the last run at each N-th moment.
    pub fn command_sweep(&mut self, words: &[&[u8]]) -> Result<(), AllocError> {
        let every = number_behind(words, b"every", 1).max(1);
        let picks = number_behind(words, b"picks", 1);
        let Some(last) = self.last.take() else {
            return self.complain(b"there was no run");
        };
        let names = self.names_with(words, &last)?;
        let Some(trial) = self.trial(&last, &names) else {
            self.last = Some(last);
            return self.complain(b"there is no volume to judge by");
        };
        let tally = trial.sweep(&last.ran, every, picks)?;
        self.close(last, tally)
    }

    /// `twice every N then M [steps K]`: stops the last run at each N-th moment, and the opening after it, or one that does
    /// K works, at each M-th one.
    pub fn command_twice(&mut self, words: &[&[u8]]) -> Result<(), AllocError> {
        let every = number_behind(words, b"every", 1).max(1);
        let then = number_behind(words, b"then", 1).max(1);
        let mut steps = Vec::new(self.alloc);
        if let Some(works) = behind(words, b"steps") {
            steps.extend_from_slice(b"step ")?;
            steps.extend_from_slice(works)?;
            steps.push(b'\n')?;
        }
        self.try_again(
            words,
            false,
            |trial, ran| trial.sweep_twice(ran, every, then, &steps),
        )
    }

    // The names behind the word `with`, or those of the last run.
    fn names_with(&self, words: &[&[u8]], last: &LastRun) -> Result<Vec<String>, AllocError> {
        let at = words.iter().position(|word| *word == b"with".as_slice());
        let rest = at.and_then(|at| words.get(at.saturating_add(1)..));
        match rest {
            Some(names) => self.texts(names),
            None => {
                let mut names = Vec::new(self.alloc);
                for name in last.names.iter() {
                    names.push(name.clone()?)?;
                }
                Ok(names)
            }
        }
    }

    // Counts the openings of a trial, and says what was wrong with one.
    fn close(&mut self, last: LastRun, tally: Tally) -> Result<(), AllocError> {
        self.opened = self.opened.saturating_add(tally.opened);
        self.refused = self.refused.saturating_add(tally.refused);
        let Some(complaint) = &tally.complaint else {
            self.last = Some(last);
            if tally.opened == 0 {
                return self.complain(b"no pool was opened");
            }
            return Ok(());
        };
        self.complain(complaint)?;
        self.paste(&last, &tally)?;
        self.last = Some(last);
        Ok(())
    }

    // Puts a case that failed as text.
    fn paste(&mut self, last: &LastRun, tally: &Tally) -> Result<(), AllocError> {
        self.report.extend_from_slice(b"case ")?;
        self.report.extend_from_slice(&self.name)?;
        self.report.extend_from_slice(b", as it failed\n")?;
        self.report.extend_from_slice(&self.tale)?;
        if !tally.calls.is_empty() {
            self.report.extend_from_slice(b"refuse")?;
            for call in tally.calls.iter() {
                self.report.push(b' ')?;
                push_number(&mut self.report, *call)?;
            }
            if tally.lasting {
                self.report.extend_from_slice(b" lasting")?;
            }
            self.report.push(b'\n')?;
        }
        self.report.extend_from_slice(&last.text)?;
        if let Some((moment, pick)) = tally.stop {
            self.paste_stop(moment, pick)?;
        }
        if let Some((moment, pick)) = tally.again {
            self.paste_opening(b"run serve", last)?;
            push_indented(self.alloc, &mut self.report, &tally.steps)?;
            self.paste_stop(moment, pick)?;
        }
        self.paste_opening(b"run export", last)
    }

    // Puts a stop.
    fn paste_stop(&mut self, moment: u64, pick: Pick) -> Result<(), AllocError> {
        self.report.extend_from_slice(b"stop at ")?;
        push_number(&mut self.report, moment)?;
        push_pick(&mut self.report, pick)?;
        self.report.push(b'\n').map_err(AllocError::from)
    }

    // Puts an opening of the pool of the last run.
    fn paste_opening(&mut self, form: &[u8], last: &LastRun) -> Result<(), AllocError> {
        self.report.extend_from_slice(form)?;
        for name in last.names.iter() {
            self.report.push(b' ')?;
            self.report.extend_from_slice(name.as_bytes())?;
        }
        self.report.push(b'\n').map_err(AllocError::from)
    }

    /// `fails every N [from M] [spent]`: refuses each N-th call of the last run in turn. With `spent` sectors may be refused.
    pub fn command_fails(&mut self, words: &[&[u8]]) -> Result<(), AllocError> {
        let every = number_behind(words, b"every", 1).max(1);
        let from = number_behind(words, b"from", 0);
        let is_spent = words.contains(&b"spent".as_slice());
        self.try_again(
            words,
            is_spent,
            |trial, ran| trial.fail_each(ran.calls, from, every),
        )
    }

    /// `pairs every N then M [from K]`: refuses two calls of the last run.
    pub fn command_pairs(&mut self, words: &[&[u8]]) -> Result<(), AllocError> {
        let every = number_behind(words, b"every", 1).max(1);
        let then = number_behind(words, b"then", 1).max(1);
        let from = number_behind(words, b"from", 0);
        self.try_again(
            words,
            true,
            |trial, ran| trial.fail_pairs(ran.calls, from, [every, then]),
        )
    }

    /// `losses every N stop L [picks K]`: refuses each N-th call in turn, and stops L calls later.
    pub fn command_losses(&mut self, words: &[&[u8]]) -> Result<(), AllocError> {
        let every = number_behind(words, b"every", 1).max(1);
        let later = number_behind(words, b"stop", 40);
        let picks = number_behind(words, b"picks", 1);
        self.try_again(
            words,
            true,
            |trial, ran| trial.fail_and_stop_each(ran.calls, every, later, picks),
        )
    }

    /// `ends`: the last run with its source and its sink failing at each of their calls.
    pub fn command_ends(&mut self) -> Result<(), AllocError> {
        self.try_again(&[], false, |trial, ran| trial.fail_ends(ran))
    }

    /// `model every N picks K`: compares the stops of the last run with those of `rack_mem`.
    pub fn command_model(&mut self, words: &[&[u8]]) -> Result<(), AllocError> {
        let every = number_behind(words, b"every", 1);
        let picks = number_behind(words, b"picks", 3);
        self.compare_models(every, picks)
    }

    /// `calls opening N`, `calls line L N` or `calls end N`: the last run made at most N calls of the drives before the first
    /// line of its script, for line number L of it, counted from 0, or after the last one.
    pub fn command_calls(&mut self, words: &[&[u8]]) -> Result<(), AllocError> {
        let most = words.last().and_then(|word| number_in(word));
        match (self.calls_of(words), most) {
            (Some(calls), Some(most)) if calls <= most => Ok(()),
            (Some(calls), Some(_)) => {
                let mut text = b"the drives were called so many times: ".to_vec(self.alloc)?;
                push_number(&mut text, calls)?;
                self.complain(&text)
            }
            _ => self.complain(b"there is no such line"),
        }
    }

    // How many calls of the drives the last run made for what words name.
    fn calls_of(&self, words: &[&[u8]]) -> Option<u64> {
        let ran = &self.last.as_ref()?.ran;
        let starts = ran.starts.as_slice();
        if words.first().copied() == Some(b"opening".as_slice()) {
            return starts.first().copied();
        }
        if words.first().copied() == Some(b"end".as_slice()) {
            return ran.calls.checked_sub(starts.last().copied()?);
        }
        let line = number_in(words.get(1)?)? as usize;
        let start = starts.get(line).copied()?;
        let end = starts.get(line.checked_add(1)?).copied()?;
        end.checked_sub(start)
    }

    // Tries the last run again.
    fn try_again<F: FnOnce(&Trial<'_>, &Ran) -> Result<Tally, AllocError>>(
        &mut self,
        words: &[&[u8]],
        may_spend: bool,
        attempt: F,
    ) -> Result<(), AllocError>
        requires { F.IsAlwaysCallable attempt }
    {
        let Some(last) = self.last.take() else {
            return self.complain(b"there was no run");
        };
        let Some(mut trial) = self.trial(&last, &last.names) else {
            self.last = Some(last);
            return self.complain(b"there is no volume to judge by");
        };
        trial.may_spend = trial.may_spend || may_spend;
        trial.may_refuse = trial.may_refuse || may_spend;
        trial.lasting = words.contains(&b"lasting".as_slice());
        let mut tally = attempt(&trial, &last.ran)?;
        tally.lasting = trial.lasting;
        self.close(last, tally)
    }
}

// Appends a line of an output, or says that it has ended.
fn push_line(out: &mut Vec<u8>, line: Option<&&[u8]>) -> Result<(), AllocError> {
    match line {
        Some(line) => {
            out.push(b'`')?;
            out.extend_from_slice(line.get(..100).unwrap_or(line))?;
            out.push(b'`').map_err(AllocError::from)
        }
        None => out.extend_from_slice(b"missing"),
    }
}

// Appends a pick as a case names it.
fn push_pick(out: &mut Vec<u8>, pick: Pick) -> Result<(), AllocError> {
    match pick {
        Pick::Oldest => out.extend_from_slice(b" oldest"),
        Pick::Newest => out.extend_from_slice(b" newest"),
        Pick::Seeded { seed } => {
            out.extend_from_slice(b" seeded ")?;
            push_number(out, seed)
        }
    }
}
