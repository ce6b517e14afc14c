//! What contents of a pool's slices mean: the commit log, the arrays, and the value of each array sector.
//!
//! The crate has definitions and lemmas alone, and no code. Each definition is a total function of contents: it reads no
//! program's memory, so that a run, a stop in its midst and a later opening are compared with one and the same reading.
//!
//! **Its model.** A *place* is a drive's number in the pool. Its slices are disks of their own: slice `17 * place` is the log
//! slice, and slice `17 * place + array + 1` that of a member of an array (`specs/Places.antt`). What isn't there, as an absent
//! place's sector or one past a slice, is the empty list, which no codec decodes.
//!
//! | Module of specs/ | What it defines |
//! |---|---|
//! | `Record` | gates and records of the commit log, and what is pending |
//! | `States` | the pool's state, and its current places |
//! | `Supers` | which superblock is valid for a place, and an array's truth |
//! | `Stripes` | the layouts, and what a stripe gives at a position |
//! | `Arrays` | an array's members, and the value of each of its sectors; contents once the pending record is replayed |
//! | `Spent` | sectors whose redundancy is spent |
//! | `Even`, `SoundArray` | rows that agree, and superblocks that do |
//! | `Held`, `Marks`, `Left` | the same over values that a rack holds, over lost drives, and over what a stop leaves |
//!
//! **For the layers above.** `replayed` and `arrays_in` are what a stop's contents hold of all arrays; `value_by` is the value of a
//! sector by an array's shape. The lemmas in proofs/ say what these go by (`Frames`, `Replays`), and that a lost member changes
//! no value of a row that agrees (`Noted`, `Settled`, `Marked`).
#![tactic(auto)]
