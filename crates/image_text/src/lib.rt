//! The text of an image: what stands on it of partition tables, md superblocks and LVM metadata.
//!
//! **The model.** An image is its sectors. Its text is a list of lines (specs/Lines.antt): its size, the copy
//! of its table, and of the whole image and then of each entry of the table the superblock and the LVM
//! metadata of one place. What stands there is what the codecs' own definitions say of the bytes
//! (gpt_table, md_super, lvm_label, lvm_text); of LVM, the label in a place's first four data sectors leads to
//! the header of its first metadata area, and that to a text (specs/Volume.antt). Areas count in bytes from
//! the place's data start, a text that runs past its area's end goes on at the area's byte 512, and a text is
//! printed up to its first zero byte.
//!
//! **The contract for the layer above.** [`examine`] puts the lines of the image that the disk holds, whatever
//! its bytes are, and writes nothing. It ends early in three cases alone, which [`Stop`] names; a drive's fault
//! and want of memory leave whole lines. At most 2^20 bytes of text are held at a time.
#![tactic(auto)]

mod bytes;
mod examining;
mod putting;
mod texts;
mod volume;

pub use examining::examine;

/// Why the text of an image ended early.
#[derive(Clone, Copy, Debug, PartialEq, Eq)]
pub enum Stop {
    /// The sink refused a line.
    Sink,
    /// The disk refused a read; the lines whose sectors were read were put.
    Gone,
    /// There was no memory for a text or its group.
    Memory,
}
