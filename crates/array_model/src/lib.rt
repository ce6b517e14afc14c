//! What contracts see of one array, and what its calls keep.
//!
//! The crate has definitions and lemmas, and of code the seats alone. An array is seen as its number, its superblock's array
//! fields, the seat and the id of each member, the places that answered `Gone` since they were last heeded, and what the run
//! knows of its rows (`View`).
//!
//! **Its model.** Images of the slices go by the marks in their own state; the run goes by its seats. Between a drive's loss and
//! its durable mark the two differ. `ArrayInvariant` says for any such moment what the sectors of the array hold, by both. It speaks of
//! the slices of this array and of the log slices alone, so it is kept by the calls of every other array.
//!
//! | Module of specs/ | What it defines |
//! |---|---|
//! | `View` | seats, what contracts see of an array, the shape that its run goes by, and places that went |
//! | `ImageShowsArray` | what replayed contents say of an array, and what is kept between its calls |
//! | `ArrayCalls` | what a call keeps and changes: reads, writes, syncs, steps of maintenance |
//! | `Members` | calls of the members: who went in them, what they read, and which targets they wrote |
//! | `Rows` | the targets of a write of one sector, and what they owe |
//! | `Stages` | superblocks that are added to a log, and what contents that have them say |
//!
//! **For the layer above.** Each call of an array is one record, `ArrayCall`: what stops in it may leave, what the array holds after
//! it, and that nothing of any other array, of the state and of the log's readiness is touched. The lemmas in proofs/ make it of
//! calls of members: reads and syncs (`Noting`, `Reading`, `Syncing`), writes past the log (`Writing`, `RowWrites`, `Changing`),
//! superblocks that are renewed one by one (`Renewed`). `Losses` carries an array across a loss and its mark, and `Others` carries
//! every other array across a call.
#![tactic(auto)]

/// The state of a member.
#[derive(Clone, Copy, Debug, PartialEq, Eq)]
pub enum Seat {
    /// All of its data counts.
    Whole,
    /// Its drive is lost or absent.
    Missing,
    /// The first `to` sectors of its data count.
    Rebuilding {
        /// The first sector that isn't rebuilt yet.
        to: u64,
    },
}
