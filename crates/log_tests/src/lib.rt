//! Tests of the commit log over slices in memory: the bytes of the format, which calls a commit and a replay make, who is answered
//! when a place goes at each of them, which damage is told, and that logs are looked at and replayed after any stop.
//!
//! The crate has tests alone. They stand here and not beside commit_log, since the prover goes over a crate that has tests twice.
#![tactic(auto)]

#[cfg(test)]
mod blocks;
#[cfg(test)]
mod commits;
#[cfg(test)]
mod disks;
#[cfg(test)]
mod replays;
