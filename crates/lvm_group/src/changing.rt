//! Changing the group that stands in the arrays.

ghost use Rattle.std.specs.Prelude.{◌≡◌, ◌↔◌, ◌<◌, ◌≤◌, ◌+◌, ◌*◌, ℕ, IsTrue, length};
ghost use Rattle.std.specs.List.{AllByRecursion};
ghost use Rattle.lvm_text.specs.Printed.{printed};
ghost use Rattle.rack.specs.Several.{Several};
ghost use Rattle.lvm_group.specs.Brought.{HaveAreas, Rewrites};
ghost use Rattle.lvm_group.specs.Changing.{Changes};
ghost use Rattle.lvm_group.specs.Extending.{next_seqno};
ghost use Rattle.lvm_group.specs.Own.{HoldAll, own_group};
ghost use Rattle.lvm_group.specs.Volume.{most_extended};
ghost use Rattle.lvm_group.specs.Writing.{IsReadBack};

use crate::making::sizes;
use crate::printing::print_own;
use crate::runs::Run;
use crate::starts::read_starts;
use crate::writing::{own_labels_fit, own_locations_fit, put_new};
use lvm_label::{encoded_headers_decode, encoded_labels_decode};
use lvm_text::Text;
use rack::{Gone, Rack};
use shr_base::Id;

/// The seqno of the next text.
pub(crate) fn next_seqno(seqno: u64) -> u64
    ensures { result ≡ next_seqno seqno }
{
    seqno.saturating_add(1).min((1 << 63) - 1)
}

/// Writes a new text of the group on the first arrays, so many: labels, empty headers where there are none, and the
/// text behind the last one, and once these are durable the headers with it.
pub(crate) fn put_change<R: Rack>(
    rack: &mut R,
    pool: &Id,
    arrays: u32,
    text: &[u8],
) -> Result<(), Gone>
    requires fit { (R.seen rack.old).fit }
    requires arrays { arrays ≤ (R.seen rack.old).disks }
    requires few { arrays ≤ 16 }
    requires sectors { (array : ℕ) → array < arrays → 2048 ≤ (R.seen rack.old).sectors array }
    requires short { length text.now ≤ 262144 }
    ensures changes { Changes pool.now.0 text.now arrays (R.seen rack.old) (R.seen rack.new) result }
    ensures runs { R.runs rack.old rack.new }
    ensures several { Several R.once (518 * arrays) rack.old rack.new }
{
    let starts = match read_starts(rack, arrays) {
        Ok(starts) => starts,
        Err(gone) => return Err(gone),
    };
    put_new(rack, pool, arrays, starts.as_slice(), text)
}

/// Whether the first arrays, so many, have room for their metadata.
fn have_areas<R: Rack>(rack: &R, arrays: u32) -> bool
    requires fit { (R.seen rack.now).fit }
    requires arrays { arrays ≤ (R.seen rack.now).disks }
    ensures { IsTrue result ↔ HaveAreas (R.seen rack.now).sectors arrays }
{
    for array in 0..arrays {
        if rack.sectors(array) < 2048 {
            return false;
        }
    }
    true
}

/// Writes the newest text on the first arrays, so many, as a change does, unless they are even: where they are at most
/// 16 and have room for it. An array that refuses a call ends this: each array says the newest text then or what it said.
pub(crate) fn bring_up<R: Rack>(rack: &mut R, pool: &Id, arrays: u32, even: bool, text: &[u8])
    requires fit { (R.seen rack.old).fit }
    requires arrays { arrays ≤ (R.seen rack.old).disks }
    requires short { length text.now ≤ 262144 }
    ensures rewrites { Rewrites pool.now.0 text.now arrays even (R.seen rack.old) (R.seen rack.new) }
    ensures runs { R.runs rack.old rack.new }
    ensures several { Several R.once (518 * arrays) rack.old rack.new }
{
    if even || arrays > 16 || !have_areas(rack, arrays) {
        return;
    }
    encoded_labels_decode();
    encoded_headers_decode();
    own_labels_fit(rack, pool, arrays);
    own_locations_fit(text);
    let _ = put_change(rack, pool, arrays, text);
}

/// Writes the group of a volume with these runs on as many arrays as there are numbers of extents.
pub(crate) fn put_grown<R: Rack>(
    rack: &mut R,
    pool: &Id,
    extent: u64,
    seqno: u64,
    numbers: &[u64],
    runs: &[Run],
    text: &mut Text,
) -> Result<(), Gone>
    requires fit { (R.seen rack.old).fit }
    requires few { length numbers.now ≤ 16 }
    requires arrays { length numbers.now ≤ (R.seen rack.old).disks }
    requires holds { HoldAll extent (R.seen rack.old).sectors 0 numbers.now }
    requires runs { AllByRecursion (λ run. run.array < 16) runs.now }
    requires short { length runs.now ≤ 1024 }
    requires room { 262144 ≤ length text.old.bytes + text.old.spare }
    ensures changes { Changes pool.now.0 (printed (own_group pool.now.0 extent (R.seen rack.old).sectors seqno numbers.now runs.now)) (length numbers.now) (R.seen rack.old) (R.seen rack.new) result }
    ensures read_back { IsReadBack pool.now.0 (printed (own_group pool.now.0 extent (R.seen rack.old).sectors seqno numbers.now runs.now)) (length numbers.now)
        (R.seen rack.old).sectors (own_group pool.now.0 extent (R.seen rack.old).sectors seqno numbers.now runs.now) }
    ensures room { length text.old.bytes + text.old.spare ≤ length text.new.bytes + text.new.spare }
    ensures runs { R.runs rack.old rack.new }
    ensures several { Several R.once (most_extended (length numbers.now)) rack.old rack.new }
{
    let arrays = numbers.len() as u32;
    let sectors = sizes(rack, arrays);
    text.clear();
    print_own(pool, extent, sectors.as_slice(), seqno, numbers, runs, text);
    encoded_labels_decode();
    encoded_headers_decode();
    own_labels_fit(rack, pool, arrays);
    let printed = text.as_slice();
    own_locations_fit(printed);
    put_change(rack, pool, arrays, printed)
}
