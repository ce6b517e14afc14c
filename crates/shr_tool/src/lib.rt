//! All that the program does, as a library: [`run`] makes and serves pools of two to sixteen disks over any bay, source and sink.
//!
//! The program itself is the crate `shr_program`, whose `main` gives it image files and the standard streams; `pool_lab` gives it
//! disks in memory. What is promised of the program is the contract of [`run`].
#![tactic(auto)]

mod attaching;
mod examining;
mod exporting;
mod importing;
mod layout;
mod making;
mod opening;
mod perform;
mod program;
mod refusals;
mod saying;
mod serve;
mod showing;
mod status;
mod trial;

pub use program::run;
