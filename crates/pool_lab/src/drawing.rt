//! Scripts that are drawn from a number.

use crate::text::push_number;
use std::alloc::AllocError;

/// Numbers drawn from a seed.
#[derive(Clone, Copy, Drop)]
pub struct Draws {
    state: u64,
    // The place whose drive was lost last, if it hasn't come back.
    lost: Option<u64>,
}

impl Draws {
    /// The draws of a seed.
    pub fn new(seed: u64) -> Draws {
        Draws {
            state: seed,
            lost: None,
        }
    }

    /// A number below a bound; 0 where the bound is 0.
    pub fn below(&mut self, bound: u64) -> u64 {
        self.state = self
            .state
            .wrapping_mul(6364136223846793005)
            .wrapping_add(1442695040888963407);
        (self.state >> 33).checked_rem(bound).unwrap_or(0)
    }
}

/// What a script is drawn for.
#[derive(Clone, Copy, Drop)]
pub struct Drawn<'a> {
    /// How many lines.
    pub lines: u64,
    /// The sectors of the volume.
    pub size: u64,
    /// The pool's drives, in the order of their places.
    pub names: &'a [String],
    /// Drives are lost on the way, and taken in again.
    pub losses: bool,
}

/// Appends a script drawn from a seed.
pub fn push_script(out: &mut Vec<u8>, seed: u64, drawn: &Drawn<'_>) -> Result<(), AllocError> {
    let mut draws = Draws::new(seed);
    for _ in 0..drawn.lines {
        push_line(out, &mut draws, drawn)?;
        out.push(b'\n')?;
    }
    if draws.lost.is_some() {
        push_loss(out, &mut draws, drawn.names)?;
        out.push(b'\n')?;
    }
    Ok(())
}

// Appends one line of a script.
fn push_line(out: &mut Vec<u8>, draws: &mut Draws, drawn: &Drawn<'_>) -> Result<(), AllocError> {
    match draws.below(16) {
        0..=4 => push_write(out, draws, drawn.size),
        5 | 6 => push_fill(out, draws, drawn.size),
        7..=10 => {
            out.extend_from_slice(b"read ")?;
            push_number(out, draws.below(drawn.size))
        }
        11 | 12 => out.extend_from_slice(b"flush"),
        13 => {
            out.extend_from_slice(b"step ")?;
            push_number(out, draws.below(5))
        }
        14 if drawn.losses => push_loss(out, draws, drawn.names),
        _ => out.extend_from_slice(b"size"),
    }
}

// Appends a write of a sector.
fn push_write(out: &mut Vec<u8>, draws: &mut Draws, size: u64) -> Result<(), AllocError> {
    out.extend_from_slice(b"write ")?;
    push_number(out, draws.below(size))?;
    out.push(b' ')?;
    for _ in 0..=draws.below(3) {
        push_byte(out, draws)?;
    }
    Ok(())
}

// Appends a fill of some sectors.
fn push_fill(out: &mut Vec<u8>, draws: &mut Draws, size: u64) -> Result<(), AllocError> {
    let sector = draws.below(size);
    let count = draws
        .below(size.saturating_sub(sector).min(6))
        .saturating_add(1);
    out.extend_from_slice(b"fill ")?;
    push_number(out, sector)?;
    out.push(b' ')?;
    push_number(out, count)?;
    out.push(b' ')?;
    push_byte(out, draws)
}

// Appends two digits.
fn push_byte(out: &mut Vec<u8>, draws: &mut Draws) -> Result<(), AllocError> {
    for _ in 0..2 {
        let digit = u8::try_from(draws.below(9)).unwrap_or(0);
        out.push(b'1'.saturating_add(digit))?;
    }
    Ok(())
}

// Appends the loss of a drive, or the return of the one that is lost: it is rebuilt before another one goes.
fn push_loss(out: &mut Vec<u8>, draws: &mut Draws, names: &[String]) -> Result<(), AllocError> {
    match draws.lost {
        None => {
            let place = draws.below(names.len() as u64);
            draws.lost = Some(place);
            out.extend_from_slice(b"lose ")?;
            push_number(out, place)
        }
        Some(place) => {
            draws.lost = None;
            out.extend_from_slice(b"replace ")?;
            push_number(out, place)?;
            out.push(b' ')?;
            if let Some(name) = names.get(place as usize) {
                out.extend_from_slice(name.as_bytes())?;
            }
            out.extend_from_slice(b"\nstep 1000")
        }
    }
}
