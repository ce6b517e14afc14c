//! The addresses of RAID-5, as the tables of Linux md give them, and those of far sectors.

ghost use Rattle.raid_map.specs.LeftSymmetric.{IsMemberCount};

use raid_map::{CHUNK_SECTORS, Spot, place, unplace};
use std::process::Abort;

/// A row's chunks of the array by their member, and None where the parity stands.
type Row = &'static [Option<u64>];

const P: Option<u64> = None;

// left-symmetric, as the tables of Linux md give it for 2 to 5 disks
static TWO: [Row; 2] = [&[Some(0), P], &[P, Some(1)]];

static THREE: [Row; 3] = [
    &[Some(0), Some(1), P],
    &[Some(3), P, Some(2)],
    &[P, Some(4), Some(5)],
];

static FOUR: [Row; 4] = [
    &[Some(0), Some(1), Some(2), P],
    &[Some(4), Some(5), P, Some(3)],
    &[Some(8), P, Some(6), Some(7)],
    &[P, Some(9), Some(10), Some(11)],
];

static FIVE: [Row; 5] = [
    &[Some(0), Some(1), Some(2), Some(3), P],
    &[Some(5), Some(6), Some(7), P, Some(4)],
    &[Some(10), Some(11), P, Some(8), Some(9)],
    &[Some(15), P, Some(12), Some(13), Some(14)],
    &[P, Some(16), Some(17), Some(18), Some(19)],
];

fn follows_table(rt: &impl Abort, n: u32, table: &[Row])
    requires { IsMemberCount n }
{
    for (row, chunks) in table.iter().enumerate() {
        for (member, chunk) in chunks.iter().enumerate() {
            assert!(rt; member < n as usize && row < 16);
            let sector = row as u64 * CHUNK_SECTORS + 77;
            let want = chunk.map(|c| c % 256 * CHUNK_SECTORS + 77);
            assert_eq!(rt;
                unplace(n, member as u32, sector),
                want,
                "row {row} member {member} of {n}"
            );
            if let Some(x) = want {
                let spot = place(n, x);
                let parity = chunks.get(spot.parity as usize);
                assert_eq!(rt;
                    (spot.member, spot.sector, parity),
                    (member as u32, sector, Some(&P)),
                    "sector {x} of {n}"
                );
            }
        }
    }
}

#[test]
fn follows_linux_md(rt: HostRuntime) {
    follows_table(&rt, 2, TWO.as_slice());
    follows_table(&rt, 3, THREE.as_slice());
    follows_table(&rt, 4, FOUR.as_slice());
    follows_table(&rt, 5, FIVE.as_slice());
}

fn spot(member: u32, sector: u64, parity: u32) -> Spot {
    Spot {
        member,
        sector,
        parity,
    }
}

#[test]
fn places_far_sectors(rt: HostRuntime) {
    // Chunks 14 and 15 of 16 members are the last of row 0, and the first of row 1 behind its parity.
    let places = [
        place(4, 1000),
        place(16, 14 * 128 + 5),
        place(16, 15 * 128),
        place(16, 16 * 128),
    ];
    let spots = [
        spot(3, 360, 1),
        spot(14, 5, 15),
        spot(15, 128, 14),
        spot(0, 128, 14),
    ];
    assert_eq!(rt; places, spots);
    assert_eq!(rt;
        [unplace(4, 3, 360), unplace(4, 1, 360)],
        [Some(1000), None]
    );
}
