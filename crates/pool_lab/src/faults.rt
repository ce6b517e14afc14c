//! Runs that are tried again with calls that fail: calls of the drives, of the source and of the sink.

use crate::drives::Contents;
use crate::ends::Ends;
use crate::machine::Refusals;
use crate::running::{Given, Ran, run_over};
use crate::text::lines_of;
use crate::trials::{Opened, Tally, Trial, pick_of};
use crate::volume::{Fault, Walk};
use std::alloc::{AllocError, Global};

// What a reply had to be, and what it was.
fn told(alloc: Global, fault: &Fault) -> Result<Vec<u8>, AllocError> {
    let mut text = b"the reply is ".to_vec(alloc)?;
    text.extend_from_slice(&fault.got)?;
    text.extend_from_slice(b" and not ")?;
    text.extend_from_slice(&fault.want)?;
    Ok(text)
}

/// Judges the replies of a run to its script, or the first lines of it.
pub fn judge_replies(
    alloc: Global,
    walk: &mut Walk<'_>,
    lines: &[&[u8]],
) -> Result<Option<Vec<u8>>, AllocError> {
    for line in lines {
        if let Some(fault) = walk.pass(line)? {
            return Ok(Some(told(alloc, &fault)?));
        }
        if *line == b"quit".as_slice() {
            break;
        }
    }
    if walk.has_ended() {
        return Ok(None);
    }
    Ok(Some(b"there are more or fewer replies than lines".to_vec(alloc)?))
}

impl<'a> Trial<'a> {
    // These calls are refused.
    fn refused(&self, calls: &[u64]) -> Result<Refusals, AllocError> {
        Ok(Refusals {
            once: calls.to_vec(self.alloc)?,
            deaths: Vec::new(self.alloc),
            lasting: self.lasting,
        })
    }

    /// The run with these calls refused: its replies and the pool that it leaves have to be right.
    pub fn fail(&self, calls: &[u64]) -> Result<Opened, AllocError> {
        let refusals = self.refused(calls)?;
        let mut contents = Contents::zeros(self.alloc);
        let ran = self.repeat(&mut contents, &refusals)?;
        if ran.status == 6 && (self.may_refuse || !self.is_script()) {
            return Ok(Opened::Refused);
        }
        let mut walk = Walk::new(self.alloc, self.volume, &ran.output, self.may_spend)?;
        if self.is_script() {
            let lines = lines_of(self.alloc, self.script)?;
            if let Some(complaint) = judge_replies(self.alloc, &mut walk, &lines)? {
                return Ok(Opened::Wrong { complaint });
            }
        }
        self.judge(&mut contents, &walk, None)
    }

    // The run with a call refused, stopped so many calls after that under each of some picks.
    fn fail_and_stop(
        &self,
        call: u64,
        later: u64,
        picks: u64,
        tally: &mut Tally,
    ) -> Result<(), AllocError> {
        let refusals = self.refused(&[call])?;
        let mut contents = Contents::zeros(self.alloc);
        let ran = self.repeat(&mut contents, &refusals)?;
        let moment = call.saturating_add(later).min(ran.calls);
        tally.calls = [call].to_vec(self.alloc)?;
        for number in 0..picks {
            let pick = pick_of(moment, number);
            tally.stop = Some((moment, pick));
            tally.count(self.stop(&ran, moment, pick)?);
            if tally.complaint.is_some() {
                break;
            }
        }
        Ok(())
    }

    /// The run with each `every`-th call refused in turn, from one on.
    pub fn fail_each(&self, calls: u64, from: u64, every: u64) -> Result<Tally, AllocError> {
        let mut tally = Tally::new(self.alloc);
        let last = calls.saturating_sub(from).checked_div(every).unwrap_or(0);
        for number in 0..=last {
            let call = from.saturating_add(number.saturating_mul(every));
            tally.calls = [call].to_vec(self.alloc)?;
            tally.count(self.fail(&[call])?);
            if tally.complaint.is_some() {
                break;
            }
        }
        Ok(tally)
    }

    /// The run with two calls refused: each `every.0`-th one from one on, and each `every.1`-th one after it.
    pub fn fail_pairs(&self, calls: u64, from: u64, every: [u64; 2]) -> Result<Tally, AllocError> {
        let mut tally = Tally::new(self.alloc);
        let [first_every, second_every] = every;
        let last = calls
            .saturating_sub(from)
            .checked_div(first_every)
            .unwrap_or(0);
        for number in 0..last {
            let first = from.saturating_add(number.saturating_mul(first_every));
            self.fail_after(calls, first, second_every, &mut tally)?;
            if tally.complaint.is_some() {
                break;
            }
        }
        Ok(tally)
    }

    // The run with a call refused, and each `every`-th one after it.
    fn fail_after(
        &self,
        calls: u64,
        first: u64,
        every: u64,
        tally: &mut Tally,
    ) -> Result<(), AllocError> {
        let after = first.saturating_add(1);
        let last = calls.saturating_sub(after).checked_div(every).unwrap_or(0);
        for number in 0..=last {
            let second = after.saturating_add(number.saturating_mul(every));
            tally.calls = [first, second].to_vec(self.alloc)?;
            tally.count(self.fail(&[first, second])?);
            if tally.complaint.is_some() {
                break;
            }
        }
        Ok(())
    }

    /// The run with each `every`-th call refused in turn, stopped so many calls later under each of some picks.
    pub fn fail_and_stop_each(
        &self,
        calls: u64,
        every: u64,
        later: u64,
        picks: u64,
    ) -> Result<Tally, AllocError> {
        let mut tally = Tally::new(self.alloc);
        let last = calls.checked_div(every).unwrap_or(0);
        for number in 0..=last {
            let call = number.saturating_mul(every);
            self.fail_and_stop(call, later, picks, &mut tally)?;
            if tally.complaint.is_some() {
                break;
            }
        }
        Ok(tally)
    }

    /// The run with each call of its sink failing in turn, and then with each of its source, which gives a byte a call.
    pub fn fail_ends(&self, whole: &Ran) -> Result<Tally, AllocError> {
        let mut tally = Tally::new(self.alloc);
        let takes = self.script.len() as u64;
        for number in 0..=takes {
            for is_take in [true, false] {
                let ends = Ends {
                    take: if is_take { Some(number) } else { None },
                    put: if is_take { None } else { Some(number) },
                    narrow: is_take,
                };
                if let Some(opened) = self.fail_end(whole, ends)? {
                    tally.count(opened);
                }
                if tally.complaint.is_some() {
                    return Ok(tally);
                }
            }
        }
        Ok(tally)
    }

    // The run with an end that fails. Nothing where the call doesn't come.
    fn fail_end(&self, whole: &Ran, ends: Ends) -> Result<Option<Opened>, AllocError> {
        let refusals = self.refused(&[])?;
        let given = Given {
            words: self.words,
            script: self.script,
            refusals: &refusals,
            ends,
            id: 0,
        };
        let mut contents = self.before.copy()?;
        let ran = run_over(self.alloc, self.drives, &mut contents, &given)?;
        let status = if ends.narrow { 4 } else { 5 };
        if ran.status != status {
            return self.is_whole(whole, &ran);
        }
        if !whole.output.as_slice().starts_with(&ran.output) {
            let complaint = b"the output is no first part of the whole one".to_vec(self.alloc)?;
            return Ok(Some(Opened::Wrong { complaint }));
        }
        Ok(Some(self.judge_ended(&ran, &mut contents)?))
    }

    // The call of the end didn't come, so the run has to be as it was.
    fn is_whole(&self, whole: &Ran, ran: &Ran) -> Result<Option<Opened>, AllocError> {
        if ran.status == whole.status && ran.output.as_slice() == whole.output.as_slice() {
            return Ok(None);
        }
        let complaint = b"an end failed, and the status doesn't say so".to_vec(self.alloc)?;
        Ok(Some(Opened::Wrong { complaint }))
    }

    // The pool that a run left which an end has cut off: it has been ended, and all lines that were begun are done.
    fn judge_ended(&self, ran: &Ran, contents: &mut Contents) -> Result<Opened, AllocError> {
        let mut walk = Walk::new(self.alloc, self.volume, &ran.output, self.may_spend)?;
        let lines = lines_of(self.alloc, self.script)?;
        let begun = ran.starts.len();
        let before = lines
            .as_slice()
            .get(..begun.saturating_sub(1))
            .unwrap_or(&lines);
        for line in before {
            let _ = walk.pass(line)?;
        }
        let in_hand = lines.as_slice().get(begun.saturating_sub(1)).copied();
        let settled = walk.volume()?;
        let settled = Walk::new(self.alloc, &settled, b"", self.may_spend)?;
        self.judge(contents, &settled, in_hand)
    }
}
