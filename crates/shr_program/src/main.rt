//! The program `shr_tool`: makes and serves pools of two to sixteen image files.
//!
//! `main` makes the bay of image files, the input, the output and the birth of a new pool, and calls [`shr_tool::run`], which does
//! all that the program does over any bay, source and sink. The input is taken in pieces of 64 KiB, and so are put the bytes of an
//! export. The program is kept under the name `shr_tool`.
#![tactic(auto)]

mod streams;

use io_ends::{StdSink, StdSource};
use pool::Birth;
use rack_file::FileBay;
use shr_tool::run;
use std::io::{BufReader, BufWriter, Read, Write};
use std::process::ExitCode;
use std::random::RandomSource;
use std::rt::Clock;
use std::{env, io};

/// The status where nothing can be put, since there is no standard output and nothing to stand in its place.
const NO_OUTPUT: u8 = 5;

/// The status where the words can't be read, or the streams can't be buffered, for want of memory.
const NO_MEMORY: u8 = 7;

/// Bytes of a stream that are taken or put in one call.
const PIECE: usize = 1 << 16;

fn main(rt: HostRuntime) -> ExitCode {
    // Before an image is opened, which would else get the number of a stream that is closed.
    let Ok(_streams) = streams::occupy(&rt, rt.alloc()) else {
        return ExitCode::from(NO_OUTPUT);
    };
    let Some(words) = words(&rt) else {
        return ExitCode::from(NO_MEMORY);
    };
    let Ok(reader) = BufReader::with_capacity(rt.alloc(), PIECE, rt.reader()) else {
        return ExitCode::from(NO_MEMORY);
    };
    let status = if is_export(&words) {
        run_to_end(&rt, &words, reader, io::writer(&rt))
    } else {
        // Each line goes out by itself, since whoever wrote a line of a script may wait for its reply.
        run_over(&rt, &words, reader, io::writer(&rt))
    };
    ExitCode::from(status)
}

// Whether the words ask for all bytes of a volume.
fn is_export(words: &[String]) -> bool {
    match words.first() {
        Some(word) => word.as_str() == "export",
        None => false,
    }
}

// Runs the words over image files and these streams.
fn run_over<I: Read + Drop, O: Write + Drop>(
    rt: &HostRuntime,
    words: &[String],
    reader: I,
    writer: O,
) -> u8 {
    let birth = birth(rt);
    let mut bay = FileBay::new(rt, rt.alloc());
    let mut input = StdSource::new(reader);
    let mut out = StdSink::new(writer);
    run(rt.alloc(), words, &mut bay, &mut input, &mut out, &birth)
}

// The same where the output is put in pieces. What a piece still has at the end goes out then, or the output has failed.
fn run_to_end<I: Read + Drop, O: Write + Drop>(
    rt: &HostRuntime,
    words: &[String],
    reader: I,
    writer: O,
) -> u8 {
    let Ok(mut pieces) = BufWriter::with_capacity(rt.alloc(), PIECE, writer) else {
        return NO_MEMORY;
    };
    let status = run_over(rt, words, reader, &mut pieces);
    match pieces.flush() {
        Ok(()) => status,
        Err(_) => NO_OUTPUT,
    }
}

// The words after the program's name, or None for want of memory. Where one of them isn't UTF-8 there are none, which is no form.
fn words(rt: &HostRuntime) -> Option<Vec<String>> {
    let mut words = Vec::new(rt.alloc());
    let args = match env::args(rt) {
        Ok(args) => args,
        Err(error) if error.kind() == io::ErrorKind::InvalidData => return Some(words),
        Err(_) => return None,
    };
    for word in args.skip(1) {
        words.push(word).ok()?;
    }
    Some(words)
}

// The clock's seconds and a random id; zeros where the system has none.
fn birth(rt: &(impl Clock + RandomSource)) -> Birth {
    let seconds = match rt.since_1970() {
        Ok(time) => time.as_secs(),
        Err(_) => 0,
    };
    let mut pool = [0; 16];
    let _ = rt.fill_bytes(&mut pool);
    Birth { seconds, pool }
}
