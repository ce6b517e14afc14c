//! What the rules of sound images give to contracts of the engine. The crate has lemmas alone, and no code.
//!
//! **What its lemmas say.** By the rules of pool_image's `specs/Sound.antt`, each from the ones that it needs: targets of a record land where
//! the pool's slices are, and the drives have ids of serials that were given (`proofs/Drives.antt`); the arrays that are ready for the
//! volume have the pool's metadata areas (`proofs/OwnAreas.antt`); and no disk has the state of another pool (`proofs/OnePool.antt`).
#![tactic(auto)]
