//! The standard streams that were closed when the program began.
//!
//! A file that is opened gets the lowest descriptor that is free. With standard output closed the first image would get its number,
//! and replies would be written over the image; with standard input closed the image's own bytes would be read as the script.

use std::alloc::Global;
use std::fs::{File, Files, OpenOptions};
use std::io;
use std::os::fd::AsRawFd;

/// The standard streams: input, output and error.
const STREAMS: usize = 3;

/// The descriptor of the last of them; the first has number 0.
const STANDARD_ERROR: i32 = 2;

/// Opens `/dev/null` for each of the standard streams that is closed. They are closed again where the files are dropped.
pub fn occupy<R: Files>(rt: &R, alloc: Global) -> io::Result<Vec<R::File>>
where
    R::File: AsRawFd,
{
    let mut opened = Vec::new(alloc);
    for _ in 0..STREAMS {
        let file = open_null(rt)?;
        if file.as_raw_fd() > STANDARD_ERROR {
            break;
        }
        opened.push(file)?;
    }
    Ok(opened)
}

// `/dev/null` for reading and writing. Where there is none, the root folder takes the descriptor: it can be neither read nor
// written, so that the stream fails.
fn open_null<R: Files>(rt: &R) -> io::Result<R::File> {
    let null = OpenOptions::new()
        .read(true)
        .write(true)
        .open(rt, "/dev/null");
    match null {
        Ok(file) => Ok(file),
        Err(_) => File::open(rt, "/"),
    }
}
