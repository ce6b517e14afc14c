//! What calls do to all arrays of a pool, and what a stop in them leaves. The crate has definitions and lemmas alone, and no code.
//!
//! **Its model.** `Raid` (`specs/Raid.antt`) is the state of a pool, each array's `View` and the number of the log; `raid_of` is the rack that
//! it shows. A part of a call (`specs/Moves.antt`, `ChangesNoData`, `ChangesData`) is said of all arrays at once, and proved of each array by itself.
//!
//! | Module of specs/ | What it defines |
//! |---|---|
//! | `Raid` | what contracts see, which sectors are spent, an array in the middle of a call, an array between calls |
//! | `Book` | states that differ in marks alone, and in a plan that has ended |
//! | `Losses` | the places that went, and the copies of a state in a log |
//! | `Missing` | the state that marks some places missing |
//! | `Marking` | a part of a call, seen from one array; superblocks that restate an array under a new state |
//! | `Logs` | what the log slices say at each moment of a part of a call |
//! | `Since` | the copies of states as they stand in log slices, of calls that began with one state, and of a drive's joining |
//! | `Frames` | an array's size and its members' places, which no call changes |
//! | `Reach` | how far the members of an array count by two shapes of it |
//! | `Rows` | rows that images leave to resync |
//! | `ChangesNoData` | a part of a call that moves no value, for all arrays: what it keeps whatever the rack below tells, what each array that stands gives at each moment and after it; losses that are mended |
//! | `Losing` | arrays of which nothing has changed but whom they lost, by calls in a row |
//! | `Settling` | all arrays settled, and the commit that marks losses |
//! | `Cleaning` | arrays that are ended: settled, with superblocks that leave their rows and no others |
//! | `Agreeing` | superblocks of an array that agree, and calls after which they do |
//! | `Truths` | superblocks of arrays that say their truths |
//! | `Unlost` | what calls that mark losses leave of the state and its copies, where few drives are lost |
//! | `Runs` | what calls in a row do to the book and to images: marks have their cause, and arrays that aren't written leave their rows |
//! | `Works` | a step of maintenance of one array, rows that are resynced and rebuilt, the end of a plan, and any of these works |
//! | `Laws` | what holds of the rack at any moment |
//! | `Acts` | what a whole call does |
//! | `Opening` | a pool's arrays as an opening hands them over |
//! | `Vacated` | a place that is vacated in memory alone, before a commit gives it another drive |
//! | `NewDrive` | where a new drive's slices lie, its table, and what is written on it before it is one of the pool |
//! | `Enlisting` | a new drive at a place whose drive is missing: the book with it, and what stops leave meanwhile |
//!
//! **What its lemmas say.** Parts of a call in a row are one (`moves_then`, `brings_then`: `proofs/Moving.antt`, `proofs/Parts.antt`). A read, a sync or a settling
//! of one array is a part for all (`moves_read`, `proofs/Reading.antt`), and so are a write (`write_brings`, `proofs/Written.antt`), losses that are
//! noted and heeded (`proofs/Noted.antt`), the commit that marks them (`proofs/Committed.antt`, `proofs/Marking.antt`), the cleaning of an array
//! (`proofs/Cleaned.antt`), a step of maintenance (`step_brings`, `proofs/Stepped.antt`) and the end of a plan (`proofs/Closing.antt`). Parts of all
//! arrays are a call of the rack (`raid_acts`, `proofs/Whole.antt`), whose values are those of a rack (`raid_sound`, `specs/Laws.antt`).
//! What an opening found is a set of arrays (`proofs/Opening.antt`, `proofs/Founding.antt`). Slices of which those of one place alone differ, as a
//! new drive's do, are in `proofs/ReseatedLogs.antt`, `proofs/RetiredLogs.antt` and `proofs/RetiredArrays.antt`.
#![tactic(auto)]
