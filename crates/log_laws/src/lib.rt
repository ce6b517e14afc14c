//! What log slices say, and what calls of the commit log may leave on them. The crate has definitions and lemmas alone, and no code.
//!
//! **What it defines.** What contracts see of a log (`LogView`, `specs/View.antt`), a record as the bytes of its sectors (`specs/Bytes.antt`),
//! what a commit, a look and a replay do (`CommitCall`, `PendingCall`, `ReplayCall`: `specs/Commits.antt`, `specs/Opening.antt`), and what is
//! kept of the slices from one commit to the next (`LogInvariant`, `specs/Kept.antt`). What may stand on the slices when a stop comes, and which
//! places decide there, is in `specs/Standing.antt`; what contents of log slices say, as they stand and once the pending record is replayed,
//! in `specs/Saying.antt`, and of slices as an opening finds them in `specs/AtRest.antt`.
//!
//! **What its lemmas say.** `proofs/Kept.antt`: slices that are kept have what a commit needs; `proofs/KeptAfter.antt`: a commit leaves them
//! so. `proofs/Calling.antt`: calls in a row that leave out whole places are one. `proofs/Copies.antt` and `proofs/HeldCopies.antt`: which state
//! contents have, by the copies on their places, and which of these calls leave. `proofs/Records.antt` and `proofs/Halves.antt`: the bytes of a
//! record give its fields and its targets, and a half of a slice gives the record. The others carry loops over places and over the
//! sectors of a record.
#![tactic(auto)]
