//! What the disks of a new pool mean: they hold a sound pool. The crate has definitions and lemmas alone, and no code.
//!
//! **Its model.** `IsNewPool plan birth disks c` says of contents `c` that they are those of a new pool: each drive has the parts that
//! `pool_format` promises (`HasParts`), the first ones have their copies of the state, and the others have none yet, as a stop in the
//! making may leave it; the drives' ids differ, and no other sector passes for a superblock of the pool.
//!
//! **For the layers above.** `proofs/Sound.antt`: contents of a new pool are found as its state, with each drive on its own disk; nothing is
//! pending in its logs; and its states, superblocks and rows agree. `proofs/Meaning.antt`: with all copies they mean one volume of zeros
//! (`zeros_meant`); with some they are refused by the lowest drive that has none (`state_refused`); and disks of which none says a state show
//! no pool (`none_meant`). The table of a drive has no slice of an array of which it is no member (`no_slice`, `proofs/Unlisted.antt`).
#![tactic(auto)]
