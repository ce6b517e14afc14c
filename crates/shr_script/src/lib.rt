//! The lines of a script: read from a source, parsed into commands, and the texts of their replies.
//!
//! **The model.** A script is bytes: lines of words parted by one space, each line a [`Command`], or
//! none by a [`LineFault`] (`Line` in specs/Line.antt). A script is what its lines say up to the first
//! `quit`; a line without a line feed is dropped where the text was cut off (specs/Script.antt). A reply is one line
//! (specs/Reply.antt).
//!
//! **The contract for the layer above.** [`next_line`] gives the command of a line, or why it is none. A
//! [`LineReader`] gives the lines of a source in their order, with constant memory: of a line that
//! is too long it keeps as many bytes as tell that it is none (specs/LongLines.antt). What a row of
//! lines says of a whole script stands in specs/ScriptLaws.antt.
#![tactic(auto)]

mod line;
mod name;
mod reader;
mod reply;

pub use line::{next_line, number_of, without_return};
pub use name::{ImageName, NAME_ROOM};
pub use reader::{Ended, LineReader, SCRIPT_LIMIT};
pub use reply::{
    REPLY_ROOM, ReplyText, add, add_field, data_reply, left_reply, line_reply,
    refused_number_reply, refused_reply, size_reply,
};

/// A line of a script, as a command.
#[derive(Debug, Drop)]
pub enum Command {
    /// `read S`: replies the sector's current bytes in hexadecimal digits, without the zeros at
    /// their end.
    Read {
        /// The number of the sector.
        sector: u64,
    },
    /// `write S HEX`: gives the sector a value.
    Write {
        /// The number of the sector.
        sector: u64,
        /// The value, filled up with zeros.
        bytes: [u8; 512],
    },
    /// `fill S N XX`: gives each of so many sectors the value whose bytes are all the same.
    Fill {
        /// The number of the first sector.
        sector: u64,
        /// How many sectors.
        count: u64,
        /// Each byte of the value.
        byte: u8,
    },
    /// `flush`: from here on each sector keeps its current value alone.
    Flush,
    /// `size`: replies the number of sectors.
    Size,
    /// `lose D`: the drive of a place is lost from here on.
    Lose {
        /// The number of the place.
        place: u64,
    },
    /// `replace D NAME`: an image takes the place of a drive.
    Replace {
        /// The number of the place.
        place: u64,
        /// The name of the image.
        name: ImageName,
    },
    /// `step N`: does so many works of maintenance, or as many as are left.
    Step {
        /// How many works.
        count: u64,
    },
    /// `status`: replies how the pool stands, in several lines.
    Status,
    /// `add NAME`: the pool grows by an image.
    Add {
        /// The name of the image.
        name: ImageName,
    },
    /// `quit`: ends the script, with no reply.
    Quit,
}

/// Why a line is no command.
#[derive(Clone, Copy, Debug, PartialEq, Eq)]
pub enum LineFault {
    /// It is none of the commands, or too long.
    Syntax,
    /// There was no memory for a name in it. No line that is built needs any: the command itself has the name.
    Memory,
}
