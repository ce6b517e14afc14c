//! Runs of reads, writes and syncs over one file, of which one call may fail.

ghost use Rattle.std.specs.Prelude.{◌≡◌, ◌<◌, length, true};
ghost use Rattle.buffer_tests.specs.OneFile.{names_of};

use crate::one_file::OneFile;
use buffered_bay::BufferedBay;
use rack::{Bay, Rack};
use std::alloc::Global;
use std::test::Fail;

// A line of a run.
#[derive(Clone, Copy, Debug)]
enum Line {
    // The first sector, and how many in a row.
    Read(u64, u64),
    // The same, and what is added to a sector's number to get the byte that fills it.
    Write(u64, u64, u8),
    Sync,
}

use Line::{Read, Sync, Write};

// Sectors of the file: two windows, and a part of a third.
const SECTORS: usize = 300;

// No call has this number.
const NEVER: u64 = u64::MAX;

// Windows that begin, grow, are filled up, overwritten, read under and left, up to the file's last sector.
const RUN: [Line; 30] = [
    Write(0, 4, 1),
    Read(2, 3),
    Write(3, 1, 2),
    Sync,
    Write(130, 1, 3),
    Write(131, 130, 4),
    Read(129, 4),
    Write(131, 1, 5),
    Write(140, 2, 6),
    Read(140, 1),
    Sync,
    Sync,
    Read(0, 200),
    Write(199, 1, 7),
    Read(200, 100),
    Write(299, 1, 8),
    Write(0, 1, 9),
    Read(299, 1),
    Sync,
    Write(298, 2, 10),
    Write(297, 1, 11),
    Write(40, 1, 12),
    Read(296, 4),
    Write(50, 1, 13),
    Sync,
    Read(49, 3),
    Write(0, 300, 14),
    Read(120, 20),
    Sync,
    Read(0, 300),
];

// A bay over one file, and the byte that each sector was filled with last.
#[derive(Drop)]
struct Trial {
    bay: BufferedBay<OneFile>,
    filled: [u8; SECTORS],
}

// What a call came to.
#[derive(Clone, Copy, Debug, PartialEq, Eq)]
enum Came {
    Answered,
    Refused,
    // An answer that isn't the array's, or a sector that isn't there.
    Wrong,
}

fn answered(right: bool) -> Came {
    if right { Came::Answered } else { Came::Wrong }
}

impl Trial {
    // A bay over a file of so many sectors, whose call of this number fails.
    fn new(alloc: Global, sectors: u32, failing: u64) -> Result<Trial, Fail> {
        let mut bay = BufferedBay::new(alloc, OneFile::new(alloc, sectors, failing)?);
        bay.attach("one")?;
        Ok(Trial {
            bay,
            filled: [0; SECTORS],
        })
    }

    // Whether the bay has a sector.
    fn has(&self, sector: u64) -> bool
        ensures disk { result ≡ true → 0 < length (names_of self.now.bay.files.name) }
        ensures sector { result ≡ true → sector < self.now.bay.files.sectors }
        ensures known { result ≡ true → sector < 300 }
    {
        self.bay.disks() > 0 && sector < self.bay.sectors(0) && sector < SECTORS as u64
    }

    fn read(&mut self, sector: u64) -> Came {
        let mut bytes = [0; 512];
        if !self.has(sector) {
            return Came::Wrong;
        }
        match self.bay.read(0, sector, &mut bytes) {
            Ok(()) => answered(bytes == [self.filled[sector as usize]; 512]),
            Err(_) => Came::Refused,
        }
    }

    fn write(&mut self, sector: u64, byte: u8) -> Came {
        if !self.has(sector) {
            return Came::Wrong;
        }
        match self.bay.write(0, sector, &[byte; 512]) {
            Ok(()) => {
                self.filled[sector as usize] = byte;
                Came::Answered
            }
            Err(_) => Came::Refused,
        }
    }

    // A sync that is answered leaves all values durable.
    fn sync(&mut self) -> Came {
        if self.bay.disks() == 0 {
            return Came::Wrong;
        }
        match self.bay.sync(0) {
            Ok(()) => answered(self.is_durable()),
            Err(_) => Came::Refused,
        }
    }

    fn is_durable(&self) -> bool {
        for (sector, byte) in self.filled.iter().enumerate() {
            if let Some(bytes) = self.bay.files().durable(sector as u64) {
                if bytes != [*byte; 512] {
                    return false;
                }
            }
        }
        true
    }

    // One sector of a line.
    fn perform(&mut self, line: Line, sector: u64) -> Came {
        match line {
            Read(..) => self.read(sector),
            Write(_, _, byte) => self.write(sector, ((sector % 251) as u8).wrapping_add(byte)),
            Sync => self.sync(),
        }
    }

    // How many calls of a line are refused, or none where one comes to something wrong.
    fn refused(&mut self, line: Line) -> Option<u64> {
        let (first, count) = match line {
            Read(first, count) => (first, count),
            Write(first, count, _) => (first, count),
            Sync => (0, 1),
        };
        let mut refused: u64 = 0;
        for step in 0..count {
            match self.perform(line, first.saturating_add(step)) {
                Came::Answered => {}
                Came::Refused => refused = refused.saturating_add(1),
                Came::Wrong => return None,
            }
        }
        Some(refused)
    }
}

// How many calls on the file a run makes; none where one of its lines is refused.
fn calls_of_a_run(alloc: Global) -> Result<Option<u64>, Fail> {
    let mut trial = Trial::new(alloc, SECTORS as u32, NEVER)?;
    for line in RUN {
        if trial.refused(line) != Some(0) {
            return Ok(None);
        }
    }
    Ok(Some(trial.bay.files().calls()))
}

// Whichever call on the file fails, at most one of a line is refused, each read that is answered gives what was written last, and each
// sync that is answered leaves all of it durable. What was dirty when the call failed is stored later.
#[test]
fn one_call_fails(rt: HostRuntime) -> Result<(), Fail> {
    let calls = calls_of_a_run(rt.alloc())?;
    assert!(rt; calls.is_some_and(|calls| calls > 30), "{calls:?}");
    for failing in 0..calls.unwrap_or(0) {
        let mut trial = Trial::new(rt.alloc(), SECTORS as u32, failing)?;
        for line in RUN {
            let refused = trial.refused(line);
            assert!(rt;
                refused == Some(0) || refused == Some(1),
                "{failing}: {line:?}"
            );
        }
        assert_eq!(rt; trial.refused(Sync), Some(0), "{failing}");
        assert_eq!(rt; trial.bay.files().faults(), 1, "{failing}");
    }
    Ok(())
}

// Sectors of files whose last window is whole, and of others.
const SIZES: [u32; 8] = [1, 2, 127, 128, 129, 130, 256, 300];

// Where reads begin.
const STARTS: [u64; 6] = [0, 1, 126, 127, 128, 129];

#[test]
fn reads_go_up_to_the_end(rt: HostRuntime) -> Result<(), Fail> {
    for size in SIZES {
        let mut trial = Trial::new(rt.alloc(), size, NEVER)?;
        let count = u64::from(size);
        let all = Write(0, count, 1);
        assert_eq!(rt; trial.refused(all), Some(0), "{size}");
        for first in STARTS {
            let rest = Read(first, count.saturating_sub(first));
            assert_eq!(rt; trial.refused(rest), Some(0), "{size}: {first}");
        }
        assert_eq!(rt; trial.bay.files().faults(), 0, "{size}");
    }
    Ok(())
}
