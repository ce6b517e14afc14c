//! Where the next text of an array begins.

ghost use Rattle.std.specs.Prelude.{◌≡◌, ◌<◌, ◌≤◌, ℕ, IfErr, IfOk, length, true, false};
ghost use Rattle.rack.specs.Several.{Several};
ghost use Rattle.rack.specs.Seen.{Rose};
ghost use Rattle.rack.specs.Sequences.{OnlyReads};
ghost use Rattle.lvm_group.specs.Writing.{AreStarts, start_at};
ghost use Rattle.lvm_group.specs.Changing.{AreBehind, sector_behind, start_of};

use crate::parts::location_in;
use crate::reading::is_inside;
use arrayvec::ArrayVec;
use lvm_label::{Area, Location, decode_header};
use rack::{Gone, Rack};

/// The metadata area.
const AREA: Area = Area {
    offset: 4096,
    size: 1044480,
};

/// Where the next text of an array begins.
#[derive(Clone, Copy, Debug, Default, PartialEq, Eq)]
pub(crate) struct TextStart {
    /// The sector of the metadata area.
    pub sector: u64,
    /// Whether the array has no header yet.
    pub blank: bool,
}

/// Where an array's text begins; the arrays without an entry have no header.
pub(crate) fn start_at(starts: &[TextStart], array: u32) -> TextStart
    ensures { result ≡ start_at starts.now array }
{
    match starts.get(array as usize) {
        Some(start) => *start,
        None => TextStart {
            sector: 1,
            blank: true,
        },
    }
}

/// The first sector of the area behind the text of a location, where that is inside the area.
fn sector_behind(location: &Location) -> u64
    ensures { result ≡ sector_behind location.now }
{
    let area = AREA;
    if !is_inside(&area, location) {
        return 1;
    }
    let end = (location.offset + location.size + 511) / 512;
    if end < 2040 { end } else { end - 2039 }
}

/// Where the text begins behind the last one, by the sector of the header.
fn start_of(sector: &[u8; 512]) -> TextStart
    ensures { result ≡ start_of sector.now }
{
    let Ok(header) = decode_header(sector) else {
        return TextStart {
            sector: 1,
            blank: true,
        };
    };
    let sector = match location_in(&header) {
        Some(location) => sector_behind(&location),
        None => 1,
    };
    TextStart {
        sector,
        blank: false,
    }
}

/// Reads where an array's text is to begin.
fn read_start<R: Rack>(rack: &mut R, array: u32) -> Result<TextStart, Gone>
    requires fit { (R.seen rack.old).fit }
    requires array { array < (R.seen rack.old).disks }
    requires sectors { 8 < (R.seen rack.old).sectors array }
    ensures looks { OnlyReads (R.seen rack.old) (R.seen rack.new) }
    ensures start { IfOk result (λ start. (R.seen rack.old).told array → start ≡ start_of ((R.seen rack.old).held array 8).current) }
    ensures inside { IfOk result (λ start. (1 ≤ start.sector) × (start.sector < 2040)) }
    ensures gone { IfErr result (λ e. (e.disk ≡ array) × Rose ((R.seen rack.old).faults array) ((R.seen rack.new).faults array)) }
    ensures spent { (R.seen rack.old).steady → IfErr result (λ e. (R.seen rack.new).spent e.disk 8 ≡ true) }
    ensures unspent { IfOk result (λ start. (R.seen rack.new).spent array 8 ≡ false) }
    ensures runs { R.runs rack.old rack.new }
    ensures several { Several R.once 1 rack.old rack.new }
{
    let mut sector = [0; 512];
    match rack.read(array, 8, &mut sector) {
        Ok(()) => Ok(start_of(&sector)),
        Err(_) => Err(Gone { disk: array }),
    }
}

/// Reads where the texts of the first arrays, so many, are to begin.
pub(crate) fn read_starts<R: Rack>(
    rack: &mut R,
    arrays: u32,
) -> Result<ArrayVec<TextStart, 16>, Gone>
    requires fit { (R.seen rack.old).fit }
    requires arrays { arrays ≤ (R.seen rack.old).disks }
    requires few { arrays ≤ 16 }
    requires sectors { (array : ℕ) → array < arrays → 8 < (R.seen rack.old).sectors array }
    ensures looks { OnlyReads (R.seen rack.old) (R.seen rack.new) }
    ensures inside { IfOk result (λ starts. AreStarts starts.items) }
    ensures behind { IfOk result (λ starts. AreBehind (R.seen rack.old) arrays starts.items) }
    ensures gone { IfErr result (λ e. (e.disk < (R.seen rack.old).disks) × Rose ((R.seen rack.old).faults e.disk) ((R.seen rack.new).faults e.disk)) }
    ensures spent { (R.seen rack.old).steady → IfErr result (λ e. (R.seen rack.new).spent e.disk 8 ≡ true) }
    ensures runs { R.runs rack.old rack.new }
    ensures several { Several R.once arrays rack.old rack.new }
{
    let mut starts = ArrayVec::new();
    for array in 0..arrays {
        match read_start(rack, array) {
            Ok(start) => starts.push(start),
            Err(gone) => return Err(gone),
        }
    }
    Ok(starts)
}
