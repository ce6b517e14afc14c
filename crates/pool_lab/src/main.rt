//! The laboratory: runs cases of text through the whole program over drives in memory.
//!
//! It reads cases from standard input and puts a line for each: `ok NAME` or `WRONG NAME`, with what is wrong before it.
//! Its status is 0 where no case is wrong. A case makes drives, runs `shr_tool::run` over them with words and scripts, refuses
//! calls, stops runs at their moments, changes drives in between, and tries a run again under all of these. docs/LAB.md has
//! each line of the language; cases/ has the cases by subject, which tools/lab-cases puts together to the stored run.
//!
//! **The model.** Drives are sectors that aren't zeros (`drives`). A run logs the calls that change them (`machine`), and shows
//! them to the program as a bay that tells no contents (`bay`), as image files do. A stop at a moment leaves in each sector a
//! value that it has had since its drive's last sync (`images`), as the contract of `rack_mem` has it. A script is given a line
//! a call (`ends`), so the calls of each line are known, and with them the flat array at each moment (`volume`), by which the
//! pools that stops and failures leave are judged (`trials`, `faults`).
//!
//! **The contract.** It is a tool for tests: proved are its safety and that it ends, and that its bay meets `Bay`, which is what
//! `run` asks for.
#![tactic(auto)]

mod attached;
mod bay;
mod commands;
mod drawing;
mod drives;
mod ends;
mod faults;
mod images;
mod lab;
mod machine;
mod mending;
mod model;
mod running;
mod text;
mod trials;
mod tries;
mod volume;

use io_ends::{Sink, Source, StdSink, StdSource};
use lab::Lab;
use std::alloc::{AllocError, Global};
use std::io;
use std::process::ExitCode;
use text::{lines_of, push_number};

fn main(rt: HostRuntime) -> ExitCode {
    let mut input = StdSource::new(rt.reader());
    let mut out = StdSink::new(io::writer(&rt));
    match run_cases(rt.alloc(), &mut input, &mut out) {
        Ok(0) => ExitCode::from(0),
        Ok(_) => ExitCode::from(1),
        Err(_) => ExitCode::from(2),
    }
}

// All that is left of a source.
fn read_all<I: Source>(alloc: Global, input: &mut I) -> Result<Vec<u8>, AllocError> {
    let mut text = Vec::new(alloc);
    let mut piece = [0; 4096];
    for _ in 0..u64::MAX {
        match input.take(&mut piece) {
            Ok(0) => break,
            Ok(count) => text.extend_from_slice(piece.get(..count).unwrap_or(&[]))?,
            Err(_) => break,
        }
    }
    Ok(text)
}

// Runs all cases of the input, and says how many of them are wrong.
fn run_cases<I: Source, O: Sink>(
    alloc: Global,
    input: &mut I,
    out: &mut O,
) -> Result<u64, AllocError> {
    let text = read_all(alloc, input)?;
    let lines = lines_of(alloc, &text)?;
    let mut lab = Lab::new(alloc, b"")?;
    let mut wrong = 0u64;
    for (at, line) in lines.iter().enumerate() {
        if line.is_empty() || line.starts_with(b" ") || line.starts_with(b"#") {
            continue;
        }
        if let Some(name) = line.strip_prefix(b"case ") {
            wrong = wrong.saturating_add(end_case(&mut lab, out)?);
            lab = Lab::new(alloc, name)?;
        } else {
            let rest = lines.as_slice().get(at.saturating_add(1)..).unwrap_or(&[]);
            lab.obey(line, block_of(rest))?;
        }
    }
    Ok(wrong.saturating_add(end_case(&mut lab, out)?))
}

// The first lines that are indented.
fn block_of<'a, 'b>(lines: &'a [&'b [u8]]) -> &'a [&'b [u8]] {
    let count = lines
        .iter()
        .take_while(|line| line.starts_with(b"  "))
        .count();
    lines.get(..count).unwrap_or(lines)
}

// Puts what a case gave, and says whether it is wrong.
fn end_case<O: Sink>(lab: &mut Lab, out: &mut O) -> Result<u64, AllocError> {
    lab.show_unsaid()?;
    if lab.name.is_empty() {
        return Ok(0);
    }
    let is_wrong = lab.wrong > 0;
    lab.report
        .extend_from_slice(if is_wrong { b"WRONG " } else { b"ok " })?;
    lab.report.extend_from_slice(&lab.name)?;
    lab.report.push(b'\n')?;
    let _ = out.put(&lab.report);
    Ok(u64::from(is_wrong))
}
