//! What contents of a pool's drives mean: which disk is which drive, what the commit log has pending, what each array and volume
//! sector holds, and why contents are refused. docs/MEANING.md says the same in words.
//!
//! The crate has definitions and lemmas alone, and no code. All definitions are total functions of finished contents: they know
//! no cache, order of writes, loop or maintenance.
//!
//! **Its model.** `meaning disks c` is the list of volumes that the disks' contents `c` hold, and none exactly where `refusal_of`
//! names a refusal. It goes layer by layer:
//!
//! | Module of specs/ | What it defines |
//! |---|---|
//! | `Disks` | what each disk says of itself; the pool's state; which disk each place has |
//! | `Replay` | slices by the disks' tables; what is pending; contents once the record is replayed |
//! | `Drives` | `found`: the pool of some contents; slices where the heights of the arrays put them |
//! | `Volumes` | labels, headers and texts; the group; the volumes' contents; which array is bad |
//! | `Meaning` | what is damaged, the refusals in their order, `meaning` |
//! | `Book` | how each array stands, and what is left to do; which sectors are spent |
//! | `Sound` | contents that agree with themselves, rule by rule; those that are excused; absence of a drive |
//!
//! **For the layers above.** An opening gives `meaning`, or `refusal_of`, of the contents that it finds, and the book `book_of`.
//! What a stop leaves is `IsSound` or `IsExcused`. The lemmas in proofs/ say that slices and arrays of a run that are placed as
//! the drives say have the meaning's values (`Composed`).
#![tactic(auto)]
