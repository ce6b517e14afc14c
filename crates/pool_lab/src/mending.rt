//! Sums of a pool's tables and books that are made right again after a change.

use crate::drives::{Contents, Place, Sector};
use shr_base::{crc32, lvm_crc, md_sum};
use std::alloc::{AllocError, Global};

// Where a table's header has its entries' first sector, their sum and its own.
const ENTRIES: usize = 72;

const ENTRIES_SUM: usize = 88;

const HEADER_SUM: usize = 16;

const HEADER_BYTES: usize = 92;

const ENTRY_SECTORS: u64 = 32;

const STATE_SUM: usize = 12;

const GATE_SUM: usize = 8;

const SUPERBLOCK_SUM: usize = 216;

/// A kind of sum.
#[derive(Clone, Copy)]
pub enum Sum {
    /// Of a partition table, whose header is named.
    Table,
    /// Of a pool's state.
    State,
    /// Of a log's gate.
    Gate,
    /// Of an array's superblock.
    Superblock,
    /// Of the header of a volume group's text.
    Group,
}

// Puts a number at an offset of a sector.
fn put(bytes: &mut [u8; 512], offset: usize, number: u32) {
    for (to, from) in bytes.iter_mut().skip(offset).zip(number.to_le_bytes()) {
        *to = from;
    }
}

// A number of eight bytes at an offset of a sector.
fn number_at(bytes: &[u8; 512], offset: usize) -> u64 {
    let mut number = 0u64;
    for byte in bytes.iter().skip(offset).take(8).rev() {
        number = number.wrapping_mul(256).wrapping_add(u64::from(*byte));
    }
    number
}

/// Makes a sum of a sector right.
pub fn mend(
    alloc: Global,
    contents: &mut Contents,
    place: Place,
    sum: Sum,
) -> Result<(), AllocError> {
    let mut bytes = contents.get(place).bytes;
    match sum {
        Sum::Table => return mend_table(alloc, contents, place),
        Sum::State => put_sum(&mut bytes, STATE_SUM, 512),
        Sum::Gate => put_sum(&mut bytes, GATE_SUM, 512),
        Sum::Superblock => {
            put(&mut bytes, SUPERBLOCK_SUM, 0);
            let right = md_sum(&bytes);
            put(&mut bytes, SUPERBLOCK_SUM, right);
        }
        Sum::Group => {
            let right = lvm_crc(bytes.get(4..).unwrap_or(&[]));
            put(&mut bytes, 0, right);
        }
    }
    contents.set(place, Sector { bytes })
}

// Puts the sum of a sector's first bytes, with the sum's own bytes as zeros.
fn put_sum(bytes: &mut [u8; 512], offset: usize, count: usize) {
    put(bytes, offset, 0);
    let right = crc32(bytes.get(..count).unwrap_or(&[]));
    put(bytes, offset, right);
}

// Makes both sums of a table right.
fn mend_table(alloc: Global, contents: &mut Contents, header: Place) -> Result<(), AllocError> {
    let mut bytes = contents.get(header).bytes;
    let first = number_at(&bytes, ENTRIES);
    let mut entries = Vec::new(alloc);
    for sector in 0..ENTRY_SECTORS {
        let place = Place {
            drive: header.drive,
            sector: first.wrapping_add(sector),
        };
        entries.extend_from_slice(&contents.get(place).bytes)?;
    }
    put(&mut bytes, ENTRIES_SUM, crc32(&entries));
    put_sum(&mut bytes, HEADER_SUM, HEADER_BYTES);
    contents.set(header, Sector { bytes })
}
