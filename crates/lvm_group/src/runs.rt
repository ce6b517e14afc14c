//! The runs of a linear volume, and where its sectors stand.

ghost use Rattle.lvm_group.specs.Runs.{AreInOrder, Linear, array_of, extents_of, run_of, sector_of};
ghost use Rattle.std.specs.Prelude.{◌≡◌, ◌<◌, ◌≤◌, ◌*◌, ◌^◌, Some};

/// Extents of the volume that lie one behind the other on one array.
#[derive(Clone, Copy, Debug, PartialEq, Eq)]
pub(crate) struct Run {
    /// The first extent of the volume.
    pub start: u64,
    /// How many extents it has.
    pub count: u64,
    /// The number of the array.
    pub array: u32,
    /// The array's extent that has the first one.
    pub first: u64,
}

/// A sector of an array.
#[derive(Clone, Copy, Debug, PartialEq, Eq)]
pub(crate) struct Spot {
    /// The number of the array.
    pub array: u32,
    /// The sector there.
    pub sector: u64,
}

/// The sector of an array at which its first extent begins.
pub(crate) const DATA_START: u64 = 2048;

/// The run that has an extent, found by halving.
pub(crate) fn run_with(runs: &[Run], extent: u64) -> Run
    requires order { AreInOrder 0 runs.now }
    requires within { extent < extents_of runs.now }
    ensures found { run_of runs.now extent ≡ Some result }
    ensures starts { result.start ≤ extent }
{
    let after = runs.partition_point(|run| run.start <= extent);
    runs[after - 1]
}

/// Where a sector of the volume stands; an extent has `size` sectors.
pub(crate) fn spot_with(runs: &[Run], size: u64, sector: u64) -> Spot
    requires sized { 0 < size }
    requires order { AreInOrder 0 runs.now }
    requires within { sector < extents_of runs.now * size }
    requires bounded { sector_of (record { extent = size; arrays = 0; runs = runs.now }) sector < 2 ^ 52 }
    ensures array { result.array ≡ array_of (record { extent = size; arrays = 0; runs = runs.now }) sector }
    ensures sector { result.sector ≡ sector_of (record { extent = size; arrays = 0; runs = runs.now }) sector }
{
    let extent = sector / size;
    let run = run_with(runs, extent);
    let extent_there = run.first + (extent - run.start);
    Spot {
        array: run.array,
        sector: DATA_START + extent_there * size + sector % size,
    }
}
