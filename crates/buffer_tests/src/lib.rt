//! Tests of a bay with buffers over one file in memory: which answers come when a wide call is refused, and reads up to the end.
//!
//! The crate has tests alone. The file tells what it holds (specs/OneFile.antt), so that it meets each clause of `FileStore` on
//! contents.
#![tactic(auto)]

#[cfg(test)]
mod one_file;
#[cfg(test)]
mod runs;
