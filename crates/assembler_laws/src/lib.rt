//! What an opening's parts make of a pool's slices, tables and arrays. The crate has definitions and lemmas alone, and no code.
//!
//! **What it defines.** The arrays of a pool over the slices of its drives, before they are a rack (`AreMembers`, `specs/Members.antt`); what
//! they hold where the disks are told (`HoldsArrays`, `specs/Holding.antt`); what an opening writes to partition tables and on the disks
//! (`specs/Mending.antt`, `specs/Writing.antt`); drives that it marks missing, each with its cause (`MarksDrives`, `specs/Marking.antt`); how far it
//! raises numbers (`specs/Raising.antt`); and what contents of disks give of the volume on them (`specs/Moments.antt`).
//!
//! **What its lemmas say.** The arrays of the pool that contents hold, with the absent places noted, are those that its slices hold
//! (`proofs/Arrays.antt`, `proofs/Founded.antt`, `proofs/Seating.antt`, `proofs/Holding.antt`). The slices are at rest, with the copies of the state
//! (`proofs/Rest.antt`, `proofs/Copied.antt`), and they stay so while gates are closed (`proofs/Amid.antt`, `proofs/Closed.antt`,
//! `proofs/Still.antt`). Tables that are made to agree are those of all drives but the ones that have gone (`proofs/LeftOut.antt`), and outside
//! the slices the disks have what the pool has there (`proofs/Elsewhere.antt`). What is written is written on drives of the pool
//! (`proofs/Written.antt`).
#![tactic(auto)]
