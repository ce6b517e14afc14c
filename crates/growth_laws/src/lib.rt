//! How the book of a rack of arrays changes while a pool grows. The crate has definitions and lemmas alone, and no code.
//!
//! **What it defines.** What happens to the book between two of its changes (those of transition_laws): losses alone
//! (`specs/Losses.antt`). For each work of a growth when it is due, which change it makes, and what a call of it does to the book: losses,
//! its change where it is done, and losses again; and what contents hold meanwhile (`MakesTurn`, `MakesReshape`, `MakesClean`, `CleansBefore`:
//! `specs/Growing.antt`). Which arrays a drive reaches that joins, and what is laid on it (`specs/NewDrives.antt`); which places a new array
//! has, and its superblocks (`specs/NewArrays.antt`).
//!
//! **What its lemmas say.** The array that a work makes of one is one of the pool as well, so all calls of the rack may follow
//! (`proofs/`). A commit of a state, with superblocks or without, keeps the arrays, whatever its state adds to the one before (`proofs/Stating.antt`), a
//! drive at the next place of the list makes a valid state of one (`proofs/Listing.antt`), and the superblocks of a young array's members make an array
//! that may come to the pool (`proofs/OpenedNew.antt`). Each step of a reshape, a cleaning, the end of a plan, the making of an array and its
//! readiness make their change of the book, and the mending after them marks losses alone (`proofs/ReshapeBegins.antt`,
//! `proofs/ReshapeDue.antt`, `proofs/CleanTurn.antt`, `proofs/Turning.antt`, `proofs/MadeTurn.antt`, `proofs/ReadyTurn.antt`). Such steps keep what
//! arrays held (`proofs/KeepsOld.antt`), and no work makes an array of the volume young (`proofs/FitToGrow.antt`).
#![tactic(auto)]
