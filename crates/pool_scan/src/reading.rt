//! Reading what each disk says of a pool. Nothing is written.

ghost use Rattle.std.specs.Prelude.{◌≡◌, ◌⊎◌, ◌++◌, ◌^◌, ℕ, ◌<◌, true, length, replicate, IfOk, IfSome, None, option_map};
ghost use Rattle.rack.specs.Seen.{Rose};
ghost use Rattle.rack.specs.Sequences.{OnlyReads};
ghost use Rattle.gpt_table.specs.Changes.{the_table};
ghost use Rattle.gpt_table.specs.Disk.{Contents, AgreesUnspent};
ghost use Rattle.std.specs.Result.{result_ok};
ghost use Rattle.pool_state.specs.Sector.{decoded};
ghost use Rattle.array_image.specs.States.{id_of};
ghost use Rattle.pool_image.specs.Disks.{disks_of};
ghost use Rattle.pool_scan.specs.Choosing.{AreOf};
ghost use Rattle.pool_scan.specs.Scanning.{AllTold, as_read, Finds, IsNamed, IsScan, IsValidCopy, Sees, copied_on};

use crate::{Known, Scan};
use gpt_table::{Table, TableFault, read_table};
use pool_state::{Copied, State, decode_state};
use rack::{Gone, NoMemory, Rack};
use shr_base::Id;
use std::alloc::Global;

/// Where a drive's copy of the state stands: the first sector of its log slice.
const STATE_SECTOR: u64 = 2048;

/// The copy of the state on a disk, if it is valid.
fn read_copy<R: Rack>(rack: &mut R, disk: u32) -> Result<Option<Copied>, Gone>
    requires fit { (R.seen rack.old).fit }
    requires disk { disk < (R.seen rack.old).disks }
    ensures found { Finds (R.seen rack.old) (R.seen rack.new) disk (λ contents copied. copied ≡ copied_on ((R.seen rack.old).sectors disk) contents) result }
    ensures valid { IfOk result IsValidCopy }
    ensures runs { R.runs rack.old rack.new }
{
    if rack.sectors(disk) <= STATE_SECTOR {
        return Ok(None);
    }
    let mut sector = [0; 512];
    if let Err(gone) = rack.read(disk, STATE_SECTOR, &mut sector) {
        return Err(gone);
    }
    Ok(copy_in(&sector))
}

/// The copy that a sector holds.
fn copy_in(sector: &[u8; 512]) -> Option<Copied>
    ensures copied { result ≡ result_ok (decoded sector.now) }
    ensures valid { IsValidCopy result }
{
    decode_state(sector).ok()
}

/// The table of a disk, if it has one.
fn find_table<R: Rack>(rack: &mut R, disk: u32) -> Result<Option<Table>, Gone>
    requires fit { (R.seen rack.old).fit }
    requires disk { disk < (R.seen rack.old).disks }
    ensures found { Finds (R.seen rack.old) (R.seen rack.new) disk (λ contents table. table ≡ the_table ((R.seen rack.old).sectors disk) contents) result }
    ensures runs { R.runs rack.old rack.new }
{
    match read_table(rack, disk) {
        Ok(found) => Ok(Some(found.table)),
        Err(TableFault::NoTable) => Ok(None),
        Err(TableFault::Gone) => Err(Gone { disk }),
    }
}

/// What a disk without a copy says, which has refused a call or not.
fn known_by_table<R: Rack>(rack: &mut R, disk: u32, gone: bool) -> Known
    requires fit { (R.seen rack.old).fit }
    requires disk { disk < (R.seen rack.old).disks }
    ensures only { OnlyReads (R.seen rack.old) (R.seen rack.new) }
    ensures none { result.copied ≡ None }
    ensures kept { gone ≡ true → result.gone ≡ true }
    ensures named { (R.seen rack.old).told disk → (contents : Contents) → AgreesUnspent (R.seen rack.old) disk contents → IsNamed (R.seen rack.old) (R.seen rack.new) disk contents result }
    ensures gone { result.gone ≡ true → (gone ≡ true) ⊎ Rose ((R.seen rack.old).faults disk) ((R.seen rack.new).faults disk) }
    ensures runs { R.runs rack.old rack.new }
{
    match find_table(rack, disk) {
        Ok(Some(table)) => Known {
            copied: None,
            id: Some(table.disk_id),
            gone,
        },
        Ok(None) => Known {
            copied: None,
            id: None,
            gone,
        },
        Err(_) => Known {
            copied: None,
            id: None,
            gone: true,
        },
    }
}

/// What a disk says.
fn know<R: Rack>(rack: &mut R, disk: u32) -> Known
    requires fit { (R.seen rack.old).fit }
    requires disk { disk < (R.seen rack.old).disks }
    ensures only { OnlyReads (R.seen rack.old) (R.seen rack.new) }
    ensures sees { (R.seen rack.old).told disk → (contents : Contents) → AgreesUnspent (R.seen rack.old) disk contents → Sees (R.seen rack.old) (R.seen rack.new) disk contents result }
    ensures gone { result.gone ≡ true → Rose ((R.seen rack.old).faults disk) ((R.seen rack.new).faults disk) }
    ensures valid { IsValidCopy result.copied }
    ensures runs { R.runs rack.old rack.new }
{
    match read_copy(rack, disk) {
        Ok(Some(copied)) => {
            let id = drive_at(&copied.state, copied.own);
            Known {
                copied: Some(copied),
                id,
                gone: false,
            }
        }
        Ok(None) => known_by_table(rack, disk, false),
        Err(_) => known_by_table(rack, disk, true),
    }
}

/// Reads what each disk of a rack says: its copy of a state, and its table where it has none.
pub fn scan_disks<R: Rack>(alloc: Global, rack: &mut R) -> Result<Scan, NoMemory>
    requires { (R.seen rack.old).fit }
    ensures only { OnlyReads (R.seen rack.old) (R.seen rack.new) }
    ensures few { IfOk result (λ scan. length scan.disks.items < 2 ^ 32) }
    ensures scanned { IfOk result (λ scan. IsScan (R.seen rack.old) (R.seen rack.new) scan.disks.items) }
    // What the disks say, as far as it was read, is what the list says.
    ensures identities { IfOk result (λ scan. AllTold (R.seen rack.old)
        → AreOf (disks_of (R.seen rack.old)) (as_read (R.seen rack.old) scan.disks.items) scan.disks.items) }
    ensures runs { R.runs rack.old rack.new }
{
    let mut scan = match Scan::blank(alloc, rack.disks()) {
        Ok(scan) => scan,
        Err(why) => return Err(why),
    };
    scan.read(rack);
    Ok(scan)
}

impl Scan {
    /// Room for what so many disks say, of which nothing was read yet.
    pub fn blank(alloc: Global, disks: u32) -> Result<Scan, NoMemory>
        ensures { IfOk result (λ scan. length scan.disks.items ≡ disks) }
    {
        let mut room = Vec::new(alloc);
        for _ in 0..disks {
            let nothing = Known {
                copied: None,
                id: None,
                gone: false,
            };
            if room.push(nothing).is_err() {
                return Err(NoMemory);
            }
        }
        Ok(Scan { disks: room })
    }

    /// Reads what each disk of a rack says, in place of what was read before. It takes no memory.
    pub fn read<R: Rack>(&mut self, rack: &mut R)
        requires fit { (R.seen rack.old).fit }
        requires room { length self.old.disks.items ≡ (R.seen rack.old).disks }
        ensures only { OnlyReads (R.seen rack.old) (R.seen rack.new) }
        ensures few { length self.new.disks.items < 2 ^ 32 }
        ensures scanned { IsScan (R.seen rack.old) (R.seen rack.new) self.new.disks.items }
        // What the disks say, as far as it was read, is what the list says.
        ensures identities { AllTold (R.seen rack.old)
            → AreOf (disks_of (R.seen rack.old)) (as_read (R.seen rack.old) self.new.disks.items) self.new.disks.items }
        ensures runs { R.runs rack.old rack.new }
    {
        for disk in 0..rack.disks() {
            self.disks[disk as usize] = know(rack, disk);
        }
    }
}

/// The id of a place's drive.
fn drive_at(state: &State, place: u32) -> Option<Id>
    ensures { option_map (λ id. id.0) result ≡ id_of state.now place }
{
    state
        .drives
        .as_slice()
        .get(place as usize)
        .map(|drive| drive.id)
}
