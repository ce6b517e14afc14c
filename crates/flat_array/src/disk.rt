//! The flat array in memory.

ghost use Rattle.std.specs.Prelude.{◌≡◌, ℕ, ◌+◌, ◌-◌, ◌<◌, ◌≤◌, ◌==◌, nat_le, nat_lt, if◌then◌else◌, List, [], ◌∷◌, ◌++◌, length, take, replicate, codes, decimal, Some, None, Ok, IfOk, OnOk, OnErr};
ghost use Rattle.rack.specs.Values.{all_of};
ghost use Rattle.flat_array.specs.Array.{FlatArray, fresh, written, filled, flushed};
ghost use Rattle.shr_script.specs.Reply.{without_zeros as trimmed, digits_or_dash, data_line, as_line, refused_line};
ghost use Rattle.flat_array.specs.Reply.{reply, after, standing_text};
ghost use Rattle.flat_array.specs.Disk.{zero_sector as zeros, size_of, kept_at, last_alone, DiskIs};

use shr_script::{Command, LineFault};
use std::alloc::{AllocError, Global};

/// A flat array of 512-byte sectors in memory.
#[derive(Drop)]
pub struct FlatDisk {
    // The values of each sector since the last flush, oldest first.
    sectors: Vec<Vec<[u8; 512]>>,
}

impl FlatDisk {
    /// A disk of so many sectors, all zeros.
    pub fn zeros(alloc: Global, sectors: u64) -> Result<FlatDisk, AllocError>
        ensures { IfOk result (λ disk. DiskIs disk (fresh sectors (λ _. zeros))) }
    {
        let mut kept = Vec::new(alloc);
        for _ in 0..sectors {
            kept.push(Vec::from_slice(alloc, &[zero_sector()])?)?;
        }
        Ok(FlatDisk { sectors: kept })
    }

    /// The number of sectors.
    pub fn size(&self) -> u64
        ensures { result ≡ size_of self.now }
    {
        self.sectors.len() as u64
    }

    /// The values of a sector since the last flush, oldest first; none past the end.
    pub fn values(&self, sector: u64) -> &[[u8; 512]]
        ensures { result.now ≡ kept_at self.now sector }
    {
        match self.sectors.as_slice().get(sector as usize) {
            Some(kept) => kept.as_slice(),
            None => &[],
        }
    }

    /// Answers a line: appends its reply to `out`, and makes the array that of after it.
    ///
    /// Without memory the array stays as it was, and `out` may have a part of the reply.
    pub fn answer(
        &mut self,
        alloc: Global,
        line: &Result<Command, LineFault>,
        out: &mut Vec<u8>,
    ) -> Result<(), AllocError>
        ensures replied { OnOk result ((a : FlatArray) → DiskIs self.old a → out.new.items ≡ out.old.items ++ reply a line.now) }
        ensures becomes { OnOk result ((a : FlatArray) → DiskIs self.old a → DiskIs self.new (after a line.now)) }
        ensures stays { OnErr result ((a : FlatArray) → DiskIs self.old a → DiskIs self.new a) }
    {
        self.put_reply(alloc, line, out)?;
        match line {
            Ok(command) => self.apply(command),
            Err(_) => Ok(()),
        }
    }

    // Makes the array that of after a command.
    fn apply(&mut self, command: &Command) -> Result<(), AllocError>
        ensures becomes { OnOk result ((a : FlatArray) → DiskIs self.old a → DiskIs self.new (after a (Ok command.now))) }
        ensures stays { OnErr result ((a : FlatArray) → DiskIs self.old a → DiskIs self.new a) }
    {
        match command {
            Command::Write { sector, bytes } => self.write(*sector, bytes),
            Command::Fill {
                sector,
                count,
                byte,
            } => self.fill(*sector, *count, &[*byte; 512]),
            Command::Flush => {
                self.flush();
                Ok(())
            }
            _ => Ok(()),
        }
    }

    // Appends the reply to a line.
    fn put_reply(
        &self,
        alloc: Global,
        line: &Result<Command, LineFault>,
        out: &mut Vec<u8>,
    ) -> Result<(), AllocError>
        ensures { OnOk result ((a : FlatArray) → DiskIs self.now a → out.new.items ≡ out.old.items ++ reply a line.now) }
    {
        match line {
            Ok(Command::Read { sector }) => match self.current(*sector) {
                Some(bytes) => put_data(alloc, &bytes, out),
                None => put_refused(b"range", out),
            },
            Ok(Command::Write { sector, .. }) => {
                if *sector < self.size() {
                    put_line(b"ok", out)
                } else {
                    put_refused(b"range", out)
                }
            }
            Ok(Command::Fill { sector, count, .. }) => {
                if self.has(*sector, *count) {
                    put_line(b"ok", out)
                } else {
                    put_refused(b"range", out)
                }
            }
            Ok(Command::Flush) => put_line(b"ok", out),
            Ok(Command::Size) => put_size(alloc, self.size(), out),
            Ok(Command::Lose { .. }) => put_refused(b"no-such-drive", out),
            Ok(Command::Replace { .. }) => put_refused(b"no-such-drive", out),
            // It has no bay to attach an image from.
            Ok(Command::Add { .. }) => put_refused(b"attach", out),
            // It has no works of maintenance.
            Ok(Command::Step { .. }) => put_line(b"left 0", out),
            Ok(Command::Status) => put_standing(alloc, self.size(), out),
            Ok(Command::Quit) => Ok(()),
            Err(LineFault::Syntax) => put_refused(b"syntax", out),
            Err(LineFault::Memory) => put_refused(b"memory", out),
        }
    }

    // The current value of a sector.
    fn current(&self, sector: u64) -> Option<[u8; 512]>
        ensures { (a : FlatArray) → DiskIs self.now a → result ≡ (if nat_lt sector a.size then Some (a.values sector).current else None) }
    {
        self.values(sector).last().copied()
    }

    // So many sectors from one on are on the disk.
    fn has(&self, sector: u64, count: u64) -> bool
        ensures { result ≡ nat_le (sector + count) (size_of self.now) }
    {
        let size = self.size();
        count <= size && sector <= size - count
    }

    // Appends a value to those of each of so many sectors; past the end it does nothing.
    fn fill(&mut self, sector: u64, count: u64, value: &[u8; 512]) -> Result<(), AllocError>
        ensures done { OnOk result ((a : FlatArray) → DiskIs self.old a → DiskIs self.new (if nat_le (sector + count) a.size then filled a sector count value.now else a)) }
        ensures stays { OnErr result ((a : FlatArray) → DiskIs self.old a → DiskIs self.new a) }
    {
        if self.has(sector, count) {
            self.fill_inside(sector, count, value)?;
        }
        Ok(())
    }

    // Appends a value to those of each of so many sectors that are on the disk.
    fn fill_inside(&mut self, sector: u64, count: u64, value: &[u8; 512]) -> Result<(), AllocError>
        requires { sector + count ≤ size_of self.old }
        ensures done { OnOk result ((a : FlatArray) → DiskIs self.old a → DiskIs self.new (filled a sector count value.now)) }
        ensures stays { OnErr result ((a : FlatArray) → DiskIs self.old a → DiskIs self.new a) }
    {
        for at in sector..sector + count {
            match self.write(at, value) {
                Ok(()) => {}
                Err(error) => {
                    self.unfill(sector, at);
                    return Err(error);
                }
            }
        }
        Ok(())
    }

    // Takes the last value of each sector from one on and before another away again.
    fn unfill(&mut self, sector: u64, end: u64)
        requires { sector ≤ end }
        ensures { (a : FlatArray) (v : List ℕ) → DiskIs self.old (filled a sector (end - sector) v) → DiskIs self.new a }
    {
        let mut at = end;
        while at > sector {
            at -= 1;
            self.unwrite(at);
        }
    }

    // Takes the last value of a sector away again.
    fn unwrite(&mut self, sector: u64)
        ensures { (a : FlatArray) (v : List ℕ) → DiskIs self.old (written a sector v) → DiskIs self.new a }
    {
        if sector < self.size() {
            let kept = &mut self.sectors[sector as usize];
            let _ = kept.pop();
        }
    }

    // Appends a value to those of a sector; past the end it does nothing.
    fn write(&mut self, sector: u64, value: &[u8; 512]) -> Result<(), AllocError>
        ensures done { OnOk result ((a : FlatArray) → DiskIs self.old a → DiskIs self.new (if nat_lt sector a.size then written a sector value.now else a)) }
        ensures stays { OnErr result ((a : FlatArray) → DiskIs self.old a → DiskIs self.new a) }
    {
        if sector < self.size() {
            let kept = &mut self.sectors[sector as usize];
            kept.push(*value)?;
        }
        Ok(())
    }

    // Keeps the current value of each sector alone.
    fn flush(&mut self)
        ensures { (a : FlatArray) → DiskIs self.old a → DiskIs self.new (flushed a) }
    {
        for kept in self.sectors.iter_mut() {
            keep_last(kept);
        }
    }
}

// A sector of zeros.
fn zero_sector() -> [u8; 512]
    ensures { result ≡ zeros }
{
    [0; 512]
}

// Keeps the last one of values alone.
fn keep_last(values: &mut Vec<[u8; 512]>)
    ensures { values.new.items ≡ last_alone values.old.items }
{
    let count = values.len();
    if count > 0 {
        values[0] = values[count - 1];
        values.truncate(1);
    }
}

// Appends `data H`.
fn put_data(alloc: Global, sector: &[u8; 512], out: &mut Vec<u8>) -> Result<(), AllocError>
    ensures { OnOk result (out.new.items ≡ out.old.items ++ data_line sector.now) }
{
    out.extend_from_slice(b"data ")?;
    put_digits_or_dash(alloc, without_zeros(sector), out)?;
    out.extend_from_slice(b"\n")
}

// Appends bytes as lower-case digits, or a dash for none.
fn put_digits_or_dash(alloc: Global, bytes: &[u8], out: &mut Vec<u8>) -> Result<(), AllocError>
    ensures { OnOk result (out.new.items ≡ out.old.items ++ digits_or_dash bytes.now) }
{
    if bytes.is_empty() {
        return out.extend_from_slice(b"-");
    }
    let digits = hex::encode(alloc, bytes)?;
    out.extend_from_slice(digits.as_bytes())
}

// Bytes without the zeros at their end.
fn without_zeros(bytes: &[u8]) -> &[u8]
    ensures { result.now ≡ trimmed bytes.now }
{
    let mut count = bytes.len();
    while count > 0 && bytes[count - 1] == 0 {
        count -= 1;
    }
    &bytes[..count]
}

// Appends `size N`.
fn put_size(alloc: Global, sectors: u64, out: &mut Vec<u8>) -> Result<(), AllocError>
    ensures { OnOk result (out.new.items ≡ out.old.items ++ as_line (codes "size " ++ decimal sectors)) }
{
    let text = format!(in alloc; "size {sectors}")?;
    put_line(text.as_bytes(), out)
}

// Appends how an array of so many sectors stands.
fn put_standing(alloc: Global, sectors: u64, out: &mut Vec<u8>) -> Result<(), AllocError>
    ensures { OnOk result (out.new.items ≡ out.old.items ++ standing_text sectors) }
{
    put_size(alloc, sectors, out)?;
    put_line(b"left 0", out)?;
    put_line(b"end", out)
}

// Appends a text as a line.
fn put_line(text: &[u8], out: &mut Vec<u8>) -> Result<(), AllocError>
    ensures { OnOk result (out.new.items ≡ out.old.items ++ as_line text.now) }
{
    out.extend_from_slice(text)?;
    out.extend_from_slice(b"\n")
}

// Appends `refused WHY`.
fn put_refused(why: &[u8], out: &mut Vec<u8>) -> Result<(), AllocError>
    ensures { OnOk result (out.new.items ≡ out.old.items ++ refused_line why.now) }
{
    out.extend_from_slice(b"refused ")?;
    put_line(why, out)
}
