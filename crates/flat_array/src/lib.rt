//! The flat array of sectors that a pool is compared with.
//!
//! **The model.** A flat array is one disk of 512-byte sectors; each sector has the values that it
//! has had since the last flush, the last one current (specs/Array.antt). `reply` and `after` say
//! what a command of a script answers and which array it leaves, and `replies` and `array_after` do
//! so for a whole script (specs/Reply.antt). All layers above are compared with these definitions.
//!
//! **The program.** [`FlatDisk`] is the definitions as a plain slow program, with each value in a
//! `Vec`: tests take their expected replies and values from it. Its contract is the definitions: at
//! `Ok` a command appends its reply, and the disk that held an array holds the one after it.
#![tactic(auto)]

mod disk;

pub use disk::FlatDisk;
