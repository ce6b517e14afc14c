//! The commands of a case.

use crate::drives::{Place, Sector, ZEROS};
use crate::lab::Lab;
use crate::machine::Death;
use crate::mending::{Sum, mend};
use crate::text::{number_in, push_expanded, words_of};
use std::alloc::AllocError;

impl Lab {
    /// Does what a line of a case asks for, with the block of lines below it.
    pub fn obey(&mut self, line: &[u8], block: &[&[u8]]) -> Result<(), AllocError> {
        let words = words_of(self.alloc, line)?;
        let Some((first, rest)) = words.as_slice().split_first() else {
            return Ok(());
        };
        match *first {
            b"run" => self.command_run(line, rest, block),
            b"seed" => self.command_seed(rest),
            b"expect" => self.expect(block),
            b"show" => self.show(),
            b"undo" => self.undo(),
            b"stop" => self.command_stop(line, rest),
            b"sweep" => self.command_sweep(rest),
            b"twice" => self.command_twice(rest),
            b"fails" => self.command_fails(rest),
            b"pairs" => self.command_pairs(rest),
            b"losses" => self.command_losses(rest),
            b"ends" => self.command_ends(),
            b"calls" => self.command_calls(rest),
            b"model" => self.command_model(rest),
            _ => self.change_drives(line, first, rest),
        }
    }

    // Does a line that changes the drives, or what the next run is refused.
    fn change_drives(
        &mut self,
        line: &[u8],
        first: &[u8],
        rest: &[&[u8]],
    ) -> Result<(), AllocError> {
        self.tell(line)?;
        let done = match first {
            b"drives" => self.command_drives(rest)?,
            b"refuse" => self.command_refuse(rest)?,
            b"source" => self.command_source(rest),
            b"sink" => self.command_sink(rest),
            b"id" => self.command_id(rest),
            b"damage" => self.command_damage(rest)?,
            b"flip" => self.command_flip(rest)?,
            b"copy" => self.command_copy(rest)?,
            b"clone" => self.command_clone(rest)?,
            b"cut" => self.command_cut(rest),
            b"parity" => self.command_parity(rest)?,
            b"mend" => self.command_mend(rest)?,
            b"same" => self.command_same(rest)?,
            b"forget" => {
                self.volume = None;
                Some(())
            }
            _ => None,
        };
        match done {
            Some(()) => Ok(()),
            None => self.complain_of(line),
        }
    }

    // Says that a line is no command, or that what it names isn't there.
    fn complain_of(&mut self, line: &[u8]) -> Result<(), AllocError> {
        let mut text = b"not understood: ".to_vec(self.alloc)?;
        text.extend_from_slice(line)?;
        self.complain(&text)
    }

    // `drives NAME SECTORS NAME SECTORS ..`
    fn command_drives(&mut self, words: &[&[u8]]) -> Result<Option<()>, AllocError> {
        for pair in words.chunks(2) {
            let name = pair.first().copied().unwrap_or(&[]);
            match pair.get(1).and_then(|word| number_in(word)) {
                Some(sectors) => self.add_drive(name, sectors)?,
                None => return Ok(None),
            }
        }
        Ok(Some(()))
    }

    // `refuse N N .. [lasting]`, or `refuse from N on NAME`
    fn command_refuse(&mut self, words: &[&[u8]]) -> Result<Option<()>, AllocError> {
        if words.first().copied() == Some(b"from".as_slice()) {
            let call = words.get(1).and_then(|word| number_in(word));
            let drive = words.get(3).and_then(|word| self.find(word));
            let (Some(call), Some(drive)) = (call, drive) else {
                return Ok(None);
            };
            self.refusals.deaths.push(Death { call, drive })?;
            return Ok(Some(()));
        }
        for word in words {
            if *word == b"lasting".as_slice() {
                self.refusals.lasting = true;
                continue;
            }
            match number_in(word) {
                Some(call) => self.refusals.once.push(call)?,
                None => return Ok(None),
            }
        }
        Ok(Some(()))
    }

    // `source fails N`, or `source fails N narrow`
    fn command_source(&mut self, words: &[&[u8]]) -> Option<()> {
        self.ends.take = Some(number_in(words.get(1)?)?);
        self.ends.narrow = words.get(2).copied() == Some(b"narrow".as_slice());
        Some(())
    }

    // `sink fails N`
    fn command_sink(&mut self, words: &[&[u8]]) -> Option<()> {
        self.ends.put = Some(number_in(words.get(1)?)?);
        Some(())
    }

    // `id N`
    fn command_id(&mut self, words: &[&[u8]]) -> Option<()> {
        self.id = u8::try_from(number_in(words.first()?)?).ok()?;
        Some(())
    }

    // The place that the first two of some words name.
    fn first_place(&self, words: &[&[u8]]) -> Option<Place> {
        self.place(words.first()?, words.get(1)?)
    }

    // `damage NAME SECTOR OFFSET HEX`
    fn command_damage(&mut self, words: &[&[u8]]) -> Result<Option<()>, AllocError> {
        let offset = words.get(2).and_then(|word| number_in(word));
        let digits = words.get(3).copied().unwrap_or(&[]);
        let mut text = Vec::new(self.alloc);
        push_expanded(&mut text, digits)?;
        let bytes = hex::decode(self.alloc, &text).ok();
        let (Some(place), Some(offset), Some(bytes)) = (self.first_place(words), offset, bytes)
        else {
            return Ok(None);
        };
        let mut value = self.contents.get(place);
        for (to, from) in value
            .bytes
            .iter_mut()
            .skip(offset as usize)
            .zip(bytes.iter())
        {
            *to = *from;
        }
        self.change(place, value)?;
        Ok(Some(()))
    }

    // `flip NAME SECTOR OFFSET`
    fn command_flip(&mut self, words: &[&[u8]]) -> Result<Option<()>, AllocError> {
        let offset = words.get(2).and_then(|word| number_in(word));
        let (Some(place), Some(offset)) = (self.first_place(words), offset) else {
            return Ok(None);
        };
        let mut value = self.contents.get(place);
        for byte in value.bytes.iter_mut().skip(offset as usize).take(1) {
            *byte ^= 1;
        }
        self.change(place, value)?;
        Ok(Some(()))
    }

    // `copy NAME SECTOR NAME SECTOR`
    fn command_copy(&mut self, words: &[&[u8]]) -> Result<Option<()>, AllocError> {
        let from = self.first_place(words);
        let to = self.first_place(words.get(2..).unwrap_or(&[]));
        let (Some(from), Some(to)) = (from, to) else {
            return Ok(None);
        };
        let value = self.contents.get(from);
        self.change(to, value)?;
        Ok(Some(()))
    }

    // `clone NAME NAME`: the second drive, a new one if need be, becomes what the first one is.
    fn command_clone(&mut self, words: &[&[u8]]) -> Result<Option<()>, AllocError> {
        let name = words.get(1).copied().unwrap_or(&[]);
        let Some(from) = words.first().and_then(|word| self.find(word)) else {
            return Ok(None);
        };
        if self.find(name).is_none() {
            let sectors = self
                .drives
                .get(from as usize)
                .map_or(0, |drive| drive.sectors);
            self.add_drive(name, sectors)?;
        }
        if let Some(to) = self.find(name) {
            self.contents.copy_drive(self.alloc, from, to)?;
        }
        Ok(Some(()))
    }

    // `same NAME SECTOR NAME SECTOR COUNT`: these sectors have to be equal.
    fn command_same(&mut self, words: &[&[u8]]) -> Result<Option<()>, AllocError> {
        let one = self.first_place(words);
        let other = self.first_place(words.get(2..).unwrap_or(&[]));
        let count = words.get(4).and_then(|word| number_in(word));
        let (Some(one), Some(other), Some(count)) = (one, other, count) else {
            return Ok(None);
        };
        for number in 0..count {
            let left = Place {
                drive: one.drive,
                sector: one.sector.saturating_add(number),
            };
            let right = Place {
                drive: other.drive,
                sector: other.sector.saturating_add(number),
            };
            if self.contents.get(left) != self.contents.get(right) {
                self.complain(b"the drives differ")?;
                return Ok(Some(()));
            }
        }
        Ok(Some(()))
    }

    // `cut NAME SECTORS`
    fn command_cut(&mut self, words: &[&[u8]]) -> Option<()> {
        let number = self.find(words.first()?)?;
        let sectors = number_in(words.get(1)?)?;
        let drive = self.drives.get_mut(number as usize)?;
        if sectors >= drive.sectors {
            return None;
        }
        drive.sectors = sectors;
        self.contents.clear_from(number, sectors);
        Some(())
    }

    // `parity NAME SECTOR NAME NAME ..`: the sector becomes the sum of that of the other drives.
    fn command_parity(&mut self, words: &[&[u8]]) -> Result<Option<()>, AllocError> {
        let Some(place) = self.first_place(words) else {
            return Ok(None);
        };
        let mut sum = ZEROS;
        for name in words.get(2..).unwrap_or(&[]) {
            let Some(drive) = self.find(name) else {
                return Ok(None);
            };
            let other = self.contents.get(Place {
                drive,
                sector: place.sector,
            });
            for (to, from) in sum.bytes.iter_mut().zip(other.bytes.iter()) {
                *to ^= *from;
            }
        }
        self.change(place, sum)?;
        Ok(Some(()))
    }

    // `mend table|state|gate|super|group NAME SECTOR`
    fn command_mend(&mut self, words: &[&[u8]]) -> Result<Option<()>, AllocError> {
        let sum = match words.first().copied().unwrap_or(&[]) {
            b"table" => Sum::Table,
            b"state" => Sum::State,
            b"gate" => Sum::Gate,
            b"super" => Sum::Superblock,
            b"group" => Sum::Group,
            _ => return Ok(None),
        };
        match self.first_place(words.get(1..).unwrap_or(&[])) {
            Some(place) => {
                mend(self.alloc, &mut self.contents, place, sum)?;
                Ok(Some(()))
            }
            None => Ok(None),
        }
    }
}
