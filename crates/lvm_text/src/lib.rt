//! The text in which LVM2 keeps a volume group's metadata (lvm2: lib/format_text), read as a group and
//! written of one.
//!
//! The grammar is a table of what may come next, by cases on the bytes (`specs/Words.antt`): a text is
//! read word by word, and refused at the first byte that no text of the grammar has there. What the
//! words mean as a group is told apart from that (`specs/Group.antt`): each section's keys in order,
//! the first of two with one name. [`parse`] gives exactly the group, or the first fault; no memory
//! is the one other answer. Reading doesn't recurse. Its time is linear in the text, which is
//! measured and not proved: a section's words are walked once for each key that it may have, and the
//! sections of a logical volume's segments are found in one walk (`table.rt`).
//!
//! [`print`] appends the text of a group, line by line as `specs/Printed.antt` has it, within the
//! room of a [`Text`] and without memory. [`parse`] of what is printed gives the group back; that too
//! stands on the contract of [`print`].
#![tactic(auto)]

mod group;
mod lexer;
mod printer;
mod reader;
mod stop;
mod table;
mod text;
mod walk;
mod words;

pub use group::{Group, Key, Lv, Lvs, Pv, Pvs, Segment, SegmentKind, Segments, TextFault};
pub use printer::{print, print_group_head, print_lv_head, print_pv, print_segment};
pub use text::Text;
pub use walk::parse;
