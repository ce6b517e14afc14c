//! How the book of a pool changes, one commit at a time, and what a stop leaves meanwhile. The crate has definitions and lemmas alone, and
//! no code.
//!
//! **What it defines.** A `Change` of the book and the book `changed` by it (`specs/Changes.antt`); contents that hold a book, a run that
//! stands by it, and what is promised of values (`HoldsBook`, `Stands`, `Promise`: `specs/Holds.antt`); `Makes xs d v w ..`, calls that make
//! the changes xs of the book d, between the runs v and w (`specs/Makes.antt`); what a commit owes that makes one (`specs/Stages.antt`); a run of a book
//! in which whoever went isn't marked yet, and calls that mark losses alone (`IsRunOf`, `MakesLosses`: `specs/Losses.antt`); and what a reshape, an
//! array that is made and one that gets ready ask for (`specs/Reshaping.antt`, `specs/Making.antt`, `specs/Readying.antt`).
//!
//! **What its lemmas say.** Calls in a row make their changes in a row (`makes_then`, `specs/Makes.antt`). A commit whose targets stage a
//! change makes it (`commit_makes`), whoever goes in it (`committing_makes`): the plan's end, the marking of losses, an array that is made
//! and one that gets ready (`close_makes`, `mark_makes`, `made_makes`, `ready_makes`). Where of each book its arrays' sectors
//! alone are promised, rows of a young array that are left to zero need not agree: the promise has the array with these rows left to resync (`view_for`,
//! `proofs/ArraysFor.antt`). A call of one array that shows it as it was or as it will be makes that change
//! (`turn_makes`): a step of maintenance or of a reshape, a cleaning, and a write (`step_makes`, `stepped_makes`, `renew_makes`,
//! `write_makes`). Calls that write nothing, calls that leave an array's values and superblocks, and losses that are noted, settled and
//! heeded, make none (`read_one_makes`, `idle_makes`, `undone_makes`, `noted_makes`, `settle_makes`, `heeded_makes`). Each turn of the
//! mending of losses makes one mark at most, of each book that the run has (`proofs/LossesMade.antt`). Where whoever went is marked, the run
//! stands by the book of just its arrays, so a call may follow (`stands_own`, `proofs/OwnBook.antt`). A reshape brings an array its sectors
//! with the rows that it moves, as zeros (`proofs/ReshapeSectors.antt`, `proofs/ReshapeHolds.antt`). What `raid_laws` says of calls follows
//! where changes leave drives and arrays as they are: `CrashInvariant` by `moments_of`, `KeepsRows` by `rows` (`proofs/MomentsOf.antt`).
//! Where arrays get longer, those that are told keep what they held in the sectors that they had (`keeps_old`; of calls in a row `old_then`), and
//! those that they get hold zeros (`grows_zeros`).
#![tactic(auto)]
