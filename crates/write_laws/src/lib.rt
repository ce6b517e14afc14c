//! What a write of one array makes of the book of a pool. The crate has definitions and lemmas alone, and no code.
//!
//! **What it defines.** The changes that a write makes, by the array before it: a whole array is marked first, once in a run; and what calls
//! make of the book that are a write and losses after it (`writing`, `MakesWrite`: `specs/Writes.antt`).
//!
//! **What its lemmas say.** A write of an array that isn't young makes these changes (`write_makes`, `proofs/WriteMakes.antt`): at each moment
//! contents show the array with its values before the write, or with the new one. The mending after it marks losses alone (`write_turn`,
//! `proofs/WriteTurn.antt`). The changes leave the pool's drives and each array's sectors as they are, and soil no other array, so promises of
//! those can be kept over it (`write_keeping`, `write_keeps_old`, `write_soils`, `proofs/WriteKeeps.antt`).
#![tactic(auto)]
