//! Tests of one array over disks in memory: how many calls it makes, that its sectors read back whoever is missing, that a
//! member may go at any call, that a member is rebuilt, and that rows are done alike by one commit and by many.
//!
//! The crate has tests alone. They stand here and not beside array_core, since the prover goes over a crate that has tests
//! twice.
#![tactic(auto)]

#[cfg(test)]
mod batches;
#[cfg(test)]
mod calls;
#[cfg(test)]
mod geometries;
#[cfg(test)]
mod losses;
#[cfg(test)]
mod maintenance;
#[cfg(test)]
mod runs;
#[cfg(test)]
mod scripts;
