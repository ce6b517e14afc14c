//! What rows of an array owe that are resynced, rebuilt or zeroed. The crate has definitions and lemmas alone, and no code.
//!
//! **What it defines.** Which members make the others of a row, what they give together, and the sectors that are written for them
//! (`specs/Rows.antt`); and a step of maintenance as a call does it to an array, with the array that it makes (`Steps`, `Zeroes`, `resynced`,
//! `rebuilt`), of so many rows (`StepsRows`, `ZeroesRows`: `specs/Steps.antt`).
//!
//! **What its lemmas say.** A step is one commit of sectors and of superblocks (`proofs/Stepping.antt`), over any change of an array's truth
//! and seats (`Step`): at each moment contents say the array from before it or the one after it, and its values stay (`proofs/Moved.antt`,
//! `proofs/Owed.antt`). So it is for rows that are resynced (`proofs/Resynced.antt`, `proofs/Agreeing.antt`, `proofs/Views.antt`) or agree
//! already (`proofs/Alike.antt`), for a member's rows that are rebuilt (`proofs/Rebuilt.antt`, `proofs/RebuiltRow.antt`) and for rows of
//! zeros (`proofs/Zeroed.antt`), with what is added to the log for each as a whole (`proofs/RowStaged.antt`, `proofs/MemberStaged.antt`,
//! `proofs/ZeroStaged.antt`).
#![tactic(auto)]
