//! What the steps of a reshape owe: a takeover, its begin, its rows and its finish. The crate has definitions and lemmas alone, and no
//! code.
//!
//! **What it defines.** New rows of an array with one data member more, the array after each step, and what a step owes that leads from
//! one shape to another (`ShapeMoves`: `specs/Ahead.antt`); what a step needs of the pool and does to an array (`MayReshape`, `StepsTo`,
//! `Reshapes`, `ReshapesRows`: `specs/Reshapes.antt`); and what a call adds to the log for rows (`specs/Rows.antt`).
//!
//! **What its lemmas say.** New rows overwrite only what is moved by them or before them, for each number of members
//! (`proofs/Addresses.antt`, `proofs/Ahead.antt`), and no step moves a value (`proofs/StepMoves.antt`, `proofs/Geometry.antt`,
//! `proofs/PastEnd.antt`). A step by one commit, of superblocks and of sectors of the members' data, leaves the array before it or the
//! one after it at each moment, for any next truth and for members that join (`proofs/Moved.antt`, `proofs/Committing.antt`,
//! `proofs/StepsOf.antt`, `proofs/Calling.antt`); and what is gathered for rows piece by piece, while members go, is the new rows
//! (`proofs/Old.antt`, `proofs/RowPieces.antt`, `proofs/NewRow.antt`, `proofs/RowCall.antt`). A place without a seat has no role, and
//! leaves room for one (`proofs/Joining.antt`, `proofs/Roles.antt`).
#![tactic(auto)]
