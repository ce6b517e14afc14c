//! A volume group, as its text tells it.

use rack::{Name, NoMemory};
use std::alloc::Global;
use std::marker::Model;

/// A key that a text must have.
#[derive(Clone, Copy, Debug, PartialEq, Eq)]
pub enum Key {
    /// `id`
    Id,
    /// `seqno`
    Seqno,
    /// `extent_size`
    ExtentSize,
    /// `physical_volumes`
    PhysicalVolumes,
    /// `dev_size`
    DevSize,
    /// `pe_start`
    PeStart,
    /// `pe_count`
    PeCount,
    /// `segment_count`, and the segments that it counts
    SegmentCount,
    /// `start_extent`
    StartExtent,
    /// `extent_count`
    ExtentCount,
}

/// Where a segment's extents lie.
#[derive(Debug, Drop)]
pub enum SegmentKind {
    /// One behind the other on one physical volume.
    Linear {
        /// The physical volume's name.
        pv: Name,
        /// Its extent that has the segment's first one.
        first: u64,
    },
    /// Any other way.
    Other,
}

/// A run of a logical volume's extents.
#[derive(Debug, Drop)]
pub struct Segment {
    /// The first extent of the logical volume.
    pub start: u64,
    /// How many extents it has.
    pub count: u64,
    /// Where they lie.
    pub kind: SegmentKind,
}

/// A physical volume of a group.
#[derive(Debug, Drop)]
pub struct Pv {
    /// Its name in the text.
    pub name: Name,
    /// Its id: 32 characters in groups parted by `-`.
    pub id: Name,
    /// Its sectors; 0 where the text doesn't tell.
    pub dev_size: u64,
    /// The sector of its first extent.
    pub pe_start: u64,
    /// How many extents it has.
    pub pe_count: u64,
}

/// A logical volume of a group.
#[derive(Debug, Drop)]
pub struct Lv {
    /// Its name in the text.
    pub name: Name,
    /// Its id.
    pub id: Name,
    /// Its segments, in the order of their numbers.
    pub segments: Segments,
}

/// A volume group.
#[derive(Debug, Drop)]
pub struct Group {
    /// Its name.
    pub name: Name,
    /// Its id.
    pub id: Name,
    /// The number of this text, one more than that of the text before it.
    pub seqno: u64,
    /// The sectors of an extent.
    pub extent_size: u64,
    /// Its physical volumes, in the order of the text.
    pub pvs: Pvs,
    /// Its logical volumes, in the order of the text.
    pub lvs: Lvs,
}

/// Why a text isn't a group's.
#[derive(Clone, Copy, Debug, PartialEq, Eq)]
pub enum TextFault {
    /// No text of the grammar goes on with the byte at this place, or ends there.
    Syntax {
        /// The place, in bytes from the start of the text.
        at: u64,
    },
    /// The key isn't there.
    Missing {
        /// The key.
        key: Key,
    },
    /// The key's value isn't a whole number below 2^64, or for an id not a string.
    Range {
        /// The key.
        key: Key,
    },
    /// No memory.
    Memory,
}

impl From<NoMemory> for TextFault {
    ghost use Rattle.lvm_text.specs.declared.group.TextFault.TheVariants.{Memory};
    ghost use Rattle.std.specs.Prelude.{◌≡◌};

    ghost from_gives = { λ _ e. e ≡ Memory };

    fn from(_error: NoMemory) -> TextFault {
        TextFault::Memory
    }
}

/// The segments of a logical volume, in order.
#[derive(Debug, Drop)]
pub struct Segments {
    items: Vec<Segment>,
}

impl Model for Segments {
    ghost use Rattle.lvm_text.specs.declared.group.Segment.{Segment};
    ghost use Rattle.std.specs.Prelude.{List};

    ghost Value = { List Segment };

    ghost view = { λ list. list.items.items };
}

impl Segments {
    ghost use Rattle.std.specs.Prelude.{◌≡◌, ◌++◌, ◌∷◌, [], OnErr, OnOk, length};

    /// An empty list.
    pub fn new(alloc: Global) -> Segments
        ensures { result ≡ [] }
    {
        Segments {
            items: Vec::new(alloc),
        }
    }

    /// Appends one; without memory nothing changes.
    pub fn push(&mut self, item: Segment) -> Result<(), NoMemory>
        ensures ok { OnOk result (self.new ≡ self.old ++ item ∷ []) }
        ensures err { OnErr result (self.new ≡ self.old) }
    {
        match self.items.push(item) {
            Ok(()) => Ok(()),
            Err(_) => Err(NoMemory),
        }
    }

    /// Them, one after the other.
    pub fn as_slice(&self) -> &[Segment]
        ensures { result.now ≡ self.now }
    {
        self.items.as_slice()
    }
}

/// The physical volumes of a group, in order.
#[derive(Debug, Drop)]
pub struct Pvs {
    items: Vec<Pv>,
}

impl Model for Pvs {
    ghost use Rattle.lvm_text.specs.declared.group.Pv.{Pv};
    ghost use Rattle.std.specs.Prelude.{List};

    ghost Value = { List Pv };

    ghost view = { λ list. list.items.items };
}

impl Pvs {
    ghost use Rattle.std.specs.Prelude.{◌≡◌, ◌++◌, ◌∷◌, [], OnErr, OnOk, length};

    /// An empty list.
    pub fn new(alloc: Global) -> Pvs
        ensures { result ≡ [] }
    {
        Pvs {
            items: Vec::new(alloc),
        }
    }

    /// Appends one; without memory nothing changes.
    pub fn push(&mut self, item: Pv) -> Result<(), NoMemory>
        ensures ok { OnOk result (self.new ≡ self.old ++ item ∷ []) }
        ensures err { OnErr result (self.new ≡ self.old) }
    {
        match self.items.push(item) {
            Ok(()) => Ok(()),
            Err(_) => Err(NoMemory),
        }
    }

    /// Them, one after the other.
    pub fn as_slice(&self) -> &[Pv]
        ensures { result.now ≡ self.now }
    {
        self.items.as_slice()
    }
}

/// The logical volumes of a group, in order.
#[derive(Debug, Drop)]
pub struct Lvs {
    items: Vec<Lv>,
}

impl Model for Lvs {
    ghost use Rattle.lvm_text.specs.declared.group.Lv.{Lv};
    ghost use Rattle.std.specs.Prelude.{List};

    ghost Value = { List Lv };

    ghost view = { λ list. list.items.items };
}

impl Lvs {
    ghost use Rattle.std.specs.Prelude.{◌≡◌, ◌++◌, ◌∷◌, [], OnErr, OnOk, length};

    /// An empty list.
    pub fn new(alloc: Global) -> Lvs
        ensures { result ≡ [] }
    {
        Lvs {
            items: Vec::new(alloc),
        }
    }

    /// Appends one; without memory nothing changes.
    pub fn push(&mut self, item: Lv) -> Result<(), NoMemory>
        ensures ok { OnOk result (self.new ≡ self.old ++ item ∷ []) }
        ensures err { OnErr result (self.new ≡ self.old) }
    {
        match self.items.push(item) {
            Ok(()) => Ok(()),
            Err(_) => Err(NoMemory),
        }
    }

    /// Them, one after the other.
    pub fn as_slice(&self) -> &[Lv]
        ensures { result.now ≡ self.now }
    {
        self.items.as_slice()
    }
}
