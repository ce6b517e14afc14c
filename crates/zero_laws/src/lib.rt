//! Rows of a young array that are zeroed, as a change of the book of a rack of arrays, and the array once it is the volume's. The crate has
//! definitions and lemmas alone, and no code.
//!
//! **What it defines.** What the call asks of contents: the array's members have one value in each sector, and its sectors in rows left to zero
//! have zeros for values (`FitsZero`); and the call with what contents hold in it (`MakesZeroes`, `MakesZeroesNext`: `specs/Zeroing.antt`).
//!
//! **What its lemmas say.** A call that zeroes rows of a young array makes the change of the book by which they are zeroed (`zeroes_makes`,
//! `proofs/ZeroTurn.antt`): meanwhile contents show the array as it was, since they show no rows of a young one, and after it each stop leaves
//! zeros in the sectors that the array gets (`wider`, `proofs/NewRows.antt`). In a call of all arrays, with the mending of losses after it, it
//! makes that change and losses, or losses alone where it wrote nothing (`zero_turn`, `proofs/ZeroCall.antt`; `makes_zeroes`,
//! `proofs/Zeroing.antt`). An array of a run that stands by a book is tracked (`stands_tracked`), and a young one that stands with zeros is
//! tracked once it is ready and holds zeros in each sector (`ready_tracked`, `ready_zeros`: `proofs/ReadyTracked.antt`).
#![tactic(auto)]
