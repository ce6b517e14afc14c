//! Tests of the formats on bytes from outside: what sgdisk, mdadm and lvm2 wrote is read, and written again as they write it;
//! the addresses of RAID-5 are those of Linux md, and sums and ids those that other programs publish.
//!
//! The crate has tests alone. No clause of the codecs says that a format is the one that Linux reads, so these bytes do.
//! They stand here and not beside the codecs, since the prover goes over a crate that has tests twice.
#![tactic(auto)]

#[cfg(test)]
mod addresses;
#[cfg(test)]
mod group_texts;
#[cfg(test)]
mod images;
#[cfg(test)]
mod labels;
#[cfg(test)]
mod partition_tables;
#[cfg(test)]
mod states;
#[cfg(test)]
mod sums_and_ids;
#[cfg(test)]
mod superblocks;
