//! Tests of the engine over disks in memory: that calls succeed where there is ample memory, how many calls they make, and images
//! of whole runs, which no clause says.
//!
//! The crate has tests alone. They stand here and not beside the code that they call, since the prover goes over a crate that
//! has tests twice.
#![tactic(auto)]

#[cfg(test)]
mod arrays;
#[cfg(test)]
mod disks;
#[cfg(test)]
mod growth;
#[cfg(test)]
mod memory_disks;
#[cfg(test)]
mod partition_tables;
#[cfg(test)]
mod scans;
#[cfg(test)]
mod slices;
#[cfg(test)]
mod volumes;
#[cfg(test)]
mod words;
