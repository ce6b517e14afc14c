//! The volume that a pool has to show: a flat array of sectors with the values that each one may have.
//!
//! A script is judged line by line: each reply has to be that of the flat array, but that a sector may be refused as spent
//! where drives were lost.
//!
//! A volume grows where its pool does: at some work of a plan it gets all sectors at once that the plan brings, as zeros.
//! Which work that is isn't known here. So from the line on that begins the plan each reply may be that of the volume before
//! or after it, and once one is that of the volume after it, or the plan has ended, all that follow have to be.

use crate::drives::{Sector, ZEROS};
use flat_array::FlatDisk;
use shr_script::{Command, next_line, without_return};
use std::alloc::{AllocError, Global};

/// The volume between runs.
#[derive(Drop)]
pub struct Volume {
    /// The value of each sector.
    pub values: Vec<Sector>,
    /// Whether a sector's value isn't known, as after a write that was refused.
    pub unsure: Vec<bool>,
    /// The sectors that it has once the plan has ended that the pool is carrying out.
    pub grown: u64,
    /// The sectors that it has in the end, if a run takes in the drives that it names.
    pub goal: u64,
}

impl Volume {
    /// A volume of so many sectors of zeros, which doesn't grow.
    pub fn zeros(alloc: Global, sectors: u64) -> Result<Volume, AllocError> {
        let mut values = Vec::new(alloc);
        let mut unsure = Vec::new(alloc);
        for _ in 0..sectors {
            values.push(ZEROS)?;
            unsure.push(false)?;
        }
        Ok(Volume {
            values,
            unsure,
            grown: sectors,
            goal: sectors,
        })
    }

    /// The same volume once more.
    pub fn copy(&self, alloc: Global) -> Result<Volume, AllocError> {
        Ok(Volume {
            values: self.values.to_vec(alloc)?,
            unsure: self.unsure.to_vec(alloc)?,
            grown: self.grown,
            goal: self.goal,
        })
    }

    /// Appends the zeros that come when the plan ends.
    pub fn grow(&mut self) -> Result<(), AllocError> {
        for _ in self.values.len() as u64..self.grown {
            self.values.push(ZEROS)?;
            self.unsure.push(false)?;
        }
        Ok(())
    }

    /// Whether so many bytes fit into it.
    pub fn has_room(&self, bytes: &[u8]) -> bool {
        bytes.chunks(512).count() <= self.values.len()
    }

    /// Whether these bytes are the volume, before or after it has grown.
    pub fn is(&self, bytes: &[u8]) -> bool {
        let sectors = (bytes.len() / 512) as u64;
        let is_whole = bytes.len() % 512 == 0;
        let has_size = sectors == self.values.len() as u64 || sectors == self.grown;
        let mut values = self.values.iter();
        is_whole
            && has_size
            && bytes.chunks(512).all(|piece| *values.next().unwrap_or(&ZEROS) == sector_of(piece))
    }

    /// The volume with the first bytes of it written over, filled up with zeros to a whole sector.
    pub fn import(&mut self, bytes: &[u8]) {
        for ((value, unsure), piece) in self
            .values
            .iter_mut()
            .zip(self.unsure.iter_mut())
            .zip(bytes.chunks(512))
        {
            *value = sector_of(piece);
            *unsure = false;
        }
    }
}

/// A sector with these first bytes, filled up with zeros.
pub fn sector_of(piece: &[u8]) -> Sector {
    let mut bytes = [0; 512];
    if piece.len() <= 512 {
        bytes[..piece.len()].copy_from_slice(piece);
    }
    Sector { bytes }
}

/// A reply that isn't the one that is due.
#[derive(Drop)]
pub struct Fault {
    /// The number of the line in the script, from 0.
    pub line: usize,
    /// What had to come.
    pub want: Vec<u8>,
    /// What came.
    pub got: Vec<u8>,
}

/// A script that goes on beside the flat array, with the replies that it got.
#[derive(Drop)]
pub struct Walk<'a> {
    alloc: Global,
    flat: FlatDisk,
    unsure: Vec<bool>,
    // The sectors that the flat array may have by now, and those that it may have once a drive is taken in.
    grown: u64,
    goal: u64,
    replies: Vec<&'a [u8]>,
    // The number of the next line, and that of the next reply.
    line: usize,
    reply: usize,
    may_spend: bool,
}

impl<'a> Walk<'a> {
    /// The walk through a script that begins on a volume and got these replies. Where drives may be lost, `may_spend`
    /// says that sectors may be refused.
    pub fn new(
        alloc: Global,
        volume: &Volume,
        output: &'a [u8],
        may_spend: bool,
    ) -> Result<Walk<'a>, AllocError> {
        let mut replies = Vec::new(alloc);
        for line in output.split(|byte| *byte == b'\n') {
            replies.push(line)?;
        }
        Ok(Walk {
            alloc,
            flat: flat_of(alloc, volume)?,
            unsure: volume.unsure.to_vec(alloc)?,
            grown: volume.grown,
            goal: volume.goal,
            replies,
            line: 0,
            reply: 0,
            may_spend,
        })
    }

    /// Goes through a line of the script. Its reply is judged.
    pub fn pass(&mut self, line: &[u8]) -> Result<Option<Fault>, AllocError> {
        let number = self.line;
        self.line = number.saturating_add(1);
        let said = next_line(without_return(line)).transpose();
        match said {
            None => Ok(None),
            Some(Ok(Command::Quit)) => Ok(None),
            Some(Ok(Command::Status)) => {
                self.pass_status();
                Ok(None)
            }
            Some(said) => {
                let got = self.next_reply();
                self.judge(number, &said, got)
            }
        }
    }

    // The next reply; nothing where there is none.
    fn next_reply(&mut self) -> &'a [u8] {
        let got = self.replies.get(self.reply).copied().unwrap_or(&[]);
        self.reply = self.reply.saturating_add(1);
        got
    }

    // Passes the lines that say how the pool stands.
    fn pass_status(&mut self) {
        let rest = self.replies.as_slice().get(self.reply..).unwrap_or(&[]);
        let end = rest.iter().position(|line| *line == b"end".as_slice());
        let count = end.unwrap_or(rest.len()).saturating_add(1);
        self.reply = self.reply.saturating_add(count);
    }

    // Judges the reply to what a line says, and makes the flat array that of after it.
    fn judge(
        &mut self,
        line: usize,
        said: &Result<Command, shr_script::LineFault>,
        got: &[u8],
    ) -> Result<Option<Fault>, AllocError> {
        if is_free(said, got) {
            self.follow_plan(said, got)?;
            return Ok(None);
        }
        if got.starts_with(b"refused spent ") && self.may_spend {
            return self.spend(said, got);
        }
        if self.is_unsure(said) && got.starts_with(b"data ") {
            return Ok(None);
        }
        let mut want = self.answer(said)?;
        if want.as_slice() != got && self.flat.size() < self.grown {
            self.grow()?;
            want = self.answer(said)?;
        }
        self.make_sure(said);
        if want.as_slice() == got {
            return Ok(None);
        }
        let got = got.to_vec(self.alloc)?;
        Ok(Some(Fault { line, want, got }))
    }

    // The reply to what a line says, without its line feed. The flat array becomes that of after it.
    fn answer(
        &mut self,
        said: &Result<Command, shr_script::LineFault>,
    ) -> Result<Vec<u8>, AllocError> {
        let mut reply = Vec::new(self.alloc);
        self.flat.answer(self.alloc, said, &mut reply)?;
        let _ = reply.pop();
        Ok(reply)
    }

    // A drive that is taken in begins a plan, and a plan has ended where no work is left.
    fn follow_plan(
        &mut self,
        said: &Result<Command, shr_script::LineFault>,
        got: &[u8],
    ) -> Result<(), AllocError> {
        match said {
            Ok(Command::Add { .. }) | Ok(Command::Replace { .. }) if got == b"ok".as_slice() => {
                self.grown = self.goal;
                Ok(())
            }
            Ok(Command::Step { .. }) if got == b"left 0".as_slice() => self.grow(),
            _ => Ok(()),
        }
    }

    // Appends the zeros to the flat array that come when the plan ends.
    fn grow(&mut self) -> Result<(), AllocError> {
        if self.flat.size() >= self.grown {
            return Ok(());
        }
        let mut volume = self.volume_of(false)?;
        volume.grow()?;
        let mut longer = flat_of(self.alloc, &volume)?;
        for sector in 0..self.flat.size() {
            push_later(self.alloc, &mut longer, &self.flat, sector)?;
        }
        self.flat = longer;
        self.unsure = volume.unsure;
        Ok(())
    }

    // Whether a line reads a sector whose value isn't known.
    fn is_unsure(&self, said: &Result<Command, shr_script::LineFault>) -> bool {
        match said {
            Ok(Command::Read { sector }) => self.has_unsure(*sector),
            _ => false,
        }
    }

    // Whether the value of a sector isn't known.
    fn has_unsure(&self, sector: u64) -> bool {
        self.unsure.get(sector as usize).copied().unwrap_or(false)
    }

    // The sectors that a line has written are known again.
    fn make_sure(&mut self, said: &Result<Command, shr_script::LineFault>) {
        let (first, count) = written_by(said);
        self.mark(first, count, false);
    }

    // Marks sectors as known or not.
    fn mark(&mut self, first: u64, count: u64, unsure: bool) {
        for mark in self
            .unsure
            .iter_mut()
            .skip(first as usize)
            .take(count as usize)
        {
            *mark = unsure;
        }
    }

    // A line was refused at a spent sector: of what it writes, the sectors before that one are written.
    fn spend(
        &mut self,
        said: &Result<Command, shr_script::LineFault>,
        got: &[u8],
    ) -> Result<Option<Fault>, AllocError> {
        let spent = spent_sector(got).unwrap_or(0);
        if spent >= self.flat.size() {
            self.grow()?;
        }
        match said {
            Ok(Command::Write { .. }) => self.mark(spent, 1, true),
            Ok(Command::Fill { sector, byte, .. }) => {
                let done = Command::Fill {
                    sector: *sector,
                    count: spent.saturating_sub(*sector),
                    byte: *byte,
                };
                let mut reply = Vec::new(self.alloc);
                self.flat.answer(self.alloc, &Ok(done), &mut reply)?;
                self.mark(spent, 1, true);
            }
            _ => {}
        }
        Ok(None)
    }

    /// Whether a sector may have a value after a stop here, where this line is in hand.
    pub fn allows(&self, sector: u64, value: &Sector, in_hand: Option<&[u8]>) -> bool {
        let is_new = sector >= self.flat.size() && *value == ZEROS;
        if is_new || self.has_unsure(sector) || self.flat.values(sector).contains(&value.bytes) {
            return true;
        }
        match in_hand.map(|line| next_line(without_return(line))) {
            Some(Ok(Some(command))) => writes(&command, sector, value),
            _ => false,
        }
    }

    /// The volume as it is here, each sector with its last value.
    pub fn volume(&self) -> Result<Volume, AllocError> {
        self.volume_of(true)
    }

    // The volume as it is here, each sector with the last one of the values that it may have, or with the first one.
    fn volume_of(&self, is_last: bool) -> Result<Volume, AllocError> {
        let mut values = Vec::new(self.alloc);
        for sector in 0..self.flat.size() {
            let held = self.flat.values(sector);
            let value = if is_last { held.last() } else { held.first() };
            let bytes = value.copied().unwrap_or([0; 512]);
            values.push(Sector { bytes })?;
        }
        Ok(Volume {
            values,
            unsure: self.unsure.to_vec(self.alloc)?,
            grown: self.grown,
            goal: self.goal,
        })
    }

    /// Whether the volume may have so many bytes here.
    pub fn may_have(&self, bytes: u64) -> bool {
        bytes == self.flat.size().saturating_mul(512) || bytes == self.grown.saturating_mul(512)
    }

    /// The sectors that the volume has once the pool's plan has ended.
    pub fn goal(&self) -> u64 {
        self.goal
    }

    /// Whether no reply is left that no line asked for.
    pub fn has_ended(&self) -> bool {
        self.reply.saturating_add(1) == self.replies.len()
    }
}

// Whether a reply to a line is right though the flat array has no such reply: those on drives and on works.
fn is_free(said: &Result<Command, shr_script::LineFault>, got: &[u8]) -> bool {
    match said {
        Ok(Command::Lose { .. }) | Ok(Command::Replace { .. }) | Ok(Command::Add { .. }) => {
            got == b"ok".as_slice() || got.starts_with(b"refused ")
        }
        Ok(Command::Step { .. }) => got.starts_with(b"left ") || got.starts_with(b"refused stuck "),
        _ => false,
    }
}

// The first sector that a line writes, and how many.
fn written_by(said: &Result<Command, shr_script::LineFault>) -> (u64, u64) {
    match said {
        Ok(Command::Write { sector, .. }) => (*sector, 1),
        Ok(Command::Fill { sector, count, .. }) => (*sector, *count),
        _ => (0, 0),
    }
}

// The sector that a reply names as spent.
fn spent_sector(got: &[u8]) -> Option<u64> {
    let last = got.split(|byte| *byte == b' ').last()?;
    shr_script::number_of(last)
}

// Whether a command gives a sector a value.
fn writes(command: &Command, sector: u64, value: &Sector) -> bool {
    match command {
        Command::Write {
            sector: written,
            bytes,
        } => *written == sector && *bytes == value.bytes,
        Command::Fill {
            sector: first,
            count,
            byte,
        } => { *first <= sector && sector - *first < *count && value.bytes == [*byte; 512] }
        _ => false,
    }
}

// Gives a sector of a flat array the values that it has in another one behind the first.
fn push_later(
    alloc: Global,
    to: &mut FlatDisk,
    from: &FlatDisk,
    sector: u64,
) -> Result<(), AllocError> {
    let mut replies = Vec::new(alloc);
    for bytes in from.values(sector).iter().skip(1) {
        let write = Command::Write {
            sector,
            bytes: *bytes,
        };
        to.answer(alloc, &Ok(write), &mut replies)?;
    }
    Ok(())
}

// The flat array with the values of a volume.
fn flat_of(alloc: Global, volume: &Volume) -> Result<FlatDisk, AllocError> {
    let mut flat = FlatDisk::zeros(alloc, volume.values.len() as u64)?;
    let mut replies = Vec::new(alloc);
    for (sector, value) in volume.values.iter().enumerate() {
        if *value != ZEROS {
            let write = Command::Write {
                sector: sector as u64,
                bytes: value.bytes,
            };
            flat.answer(alloc, &Ok(write), &mut replies)?;
        }
    }
    flat.answer(alloc, &Ok(Command::Flush), &mut replies)?;
    Ok(flat)
}
