//! The drives of a case as a bay. It tells no contents, as a bay of image files.

ghost use Rattle.std.specs.Prelude.{◌≡◌, ◌≢◌, ◌⊎◌, ◌<◌, ◌≤◌, ◌^◌, ◌++◌, [], ◌∷◌, ℕ, length, slice_get, Some, None, OnErr, IfOk, IfErr, IfSome, IfNone, refl};
ghost use Rattle.rack.specs.declared.AttachFault.TheVariants.{Failed, Memory};
ghost use Rattle.rack.specs.Seen.{Rose};
ghost use Rattle.rack.specs.Shelf.{KeepsShelf};
ghost use Rattle.pool_lab.specs.Disks.{names_of, Differ, bay_seen, bay_shelf, NotesFault};

use crate::attached::Attached;
use crate::drives::{Place, Sector};
use crate::machine::Machine;
use rack::{AttachFault, Bay, Gone, Name, Rack};
use std::alloc::Global;

// Disks of a bay at most, so that their numbers fit.
const MOST_DISKS: usize = 1 << 16;

/// The drives of a case, attached by their names.
#[derive(Drop)]
pub struct LabBay<'a> {
    alloc: Global,
    machine: Machine<'a>,
    disks: Vec<Attached>,
    faults: u64,
    ghost counted: { faults < 2 ^ 64 },
    ghost few: { length disks.items ≤ 65536 },
    ghost differ: { Differ (names_of disks.items) },
}

impl<'a> LabBay<'a> {
    /// A bay with nothing attached.
    pub fn new(alloc: Global, machine: Machine<'a>) -> LabBay<'a>
        ensures { result.disks.items ≡ [] }
    {
        LabBay {
            alloc,
            machine,
            disks: Vec::new(alloc),
            faults: 0,
        }
    }

    /// The drives as the run has left them.
    pub fn into_machine(self) -> Machine<'a> {
        self.machine
    }

    // The disk that a name is attached as.
    fn position(&self, name: &str) -> Option<usize>
        ensures found { IfSome result (λ d. slice_get (names_of self.now.disks.items) d ≡ Some name.now) }
        ensures none { IfNone result ((d : ℕ) → slice_get (names_of self.now.disks.items) d ≢ Some name.now) }
    {
        for (at, disk) in self.disks.iter().enumerate() {
            if disk.name.bytes() == name.as_bytes() {
                return Some(at);
            }
        }
        None
    }

    // The drive of a name on the shelf.
    fn drive_named(&self, name: &str) -> Result<Attached, AttachFault>
        ensures opened { IfOk result (λ disk. disk.name ≡ name.now) }
        ensures unfaulted { IfOk result (λ disk. disk.faults ≡ 0) }
        ensures refused { IfErr result (λ e. (e ≡ Failed) ⊎ (e ≡ Memory)) }
    {
        let Some(number) = self.machine.find(name.as_bytes()) else {
            return Err(AttachFault::Failed);
        };
        let Some(drive) = self.machine.drives.get(number as usize) else {
            return Err(AttachFault::Failed);
        };
        match Name::of(self.alloc, name.as_bytes()) {
            Ok(name) => Ok(Attached {
                name,
                number,
                sectors: drive.sectors,
                faults: 0,
            }),
            Err(_) => Err(AttachFault::Memory),
        }
    }

    // Adds a disk of a new name.
    fn add(&mut self, disk: Attached) -> Result<u32, AttachFault>
        requires room { length self.old.disks.items < 65536 }
        requires new { (d : ℕ) → slice_get (names_of self.old.disks.items) d ≢ Some disk.name }
        ensures added { IfOk result (λ number. (number ≡ length self.old.disks.items) × (self.new.disks.items ≡ self.old.disks.items ++ disk ∷ [])) }
        ensures refused { IfErr result (λ e. (e ≡ Memory) × (self.new.disks.items ≡ self.old.disks.items)) }
        ensures faults { self.new.faults ≡ self.old.faults }
    {
        let number = self.disks.len();
        match self.disks.push(disk) {
            Ok(()) => Ok(number as u32),
            Err(_) => Err(AttachFault::Memory),
        }
    }

    // Counts a fault of a disk.
    fn note_fault(&mut self, disk: u32)
        requires { disk < length self.old.disks.items }
        ensures noted { NotesFault self.old.disks.items self.new.disks.items disk }
        ensures shelf { KeepsShelf (bay_shelf self.old.disks.items self.old.faults) (bay_shelf self.new.disks.items self.new.faults) }
    {
        let attached = &mut self.disks[disk as usize];
        attached.faults = attached.faults.saturating_add(1);
    }

    // Counts a fault of the bay.
    fn refuse(&mut self) -> AttachFault
        ensures why { result ≡ Failed }
        ensures disks { self.new.disks.items ≡ self.old.disks.items }
        ensures rose { Rose self.old.faults self.new.faults }
        ensures grows { self.old.faults ≤ self.new.faults }
    {
        self.faults = self.faults.saturating_add(1);
        AttachFault::Failed
    }
}

impl<'a> Rack for LabBay<'a> {
    ghost use Rattle.rack.specs.Shelf.{keeps_shelf_same, keeps_shelf_then};

    ghost seen = { λ b. bay_seen b.disks.items };

    ghost runs = { λ old new. KeepsShelf (bay_shelf old.disks.items old.faults) (bay_shelf new.disks.items new.faults) };

    ghost once = { λ old new. Unit {0} };

    ghost unwritten = { λ old new. Unit {0} };

    fn disks(&self) -> u32 {
        self.disks.len() as u32
    }

    fn sectors(&self, disk: u32) -> u64 {
        self.disks[disk as usize].sectors
    }

    fn read(&mut self, disk: u32, sector: u64, into: &mut [u8; 512]) -> Result<(), Gone> {
        let drive = self.disks[disk as usize].number;
        match self.machine.read(Place { drive, sector }) {
            Some(value) => {
                let bytes = value.bytes;
                *into = bytes;
                Ok(())
            }
            None => {
                self.note_fault(disk);
                Err(Gone { disk })
            }
        }
    }

    fn write(&mut self, disk: u32, sector: u64, from: &[u8; 512]) -> Result<(), Gone> {
        let drive = self.disks[disk as usize].number;
        let value = Sector { bytes: *from };
        match self.machine.write(Place { drive, sector }, value) {
            Some(()) => Ok(()),
            None => {
                self.note_fault(disk);
                Err(Gone { disk })
            }
        }
    }

    fn sync(&mut self, disk: u32) -> Result<(), Gone> {
        let drive = self.disks[disk as usize].number;
        match self.machine.sync(drive) {
            Some(()) => Ok(()),
            None => {
                self.note_fault(disk);
                Err(Gone { disk })
            }
        }
    }

    ghost sound = { λ b fit traced. absurd traced };

    ghost runs_same = { λ b. keeps_shelf_same (bay_shelf b.disks.items b.faults) };

    ghost runs_then = { λ x y z. keeps_shelf_then (bay_shelf x.disks.items x.faults) (bay_shelf y.disks.items y.faults) (bay_shelf z.disks.items z.faults) };

    ghost unwritten_same = { λ x. tt };

    ghost unwritten_then = { λ x y z one two. tt };
}

impl<'a> Bay for LabBay<'a> {
    ghost use Rattle.pool_lab.specs.DisksLaws.{bounded_disks, names-length};

    ghost shelf = { λ b. bay_shelf b.disks.items b.faults };

    fn attach(&mut self, name: &str) -> Result<u32, AttachFault> {
        match self.position(name) {
            Some(disk) => return Err(AttachFault::Twice { disk: disk as u32 }),
            None => {}
        }
        if self.disks.len() >= MOST_DISKS {
            return Err(self.refuse());
        }
        match self.drive_named(name) {
            Ok(disk) => self.add(disk),
            Err(AttachFault::Memory) => Err(AttachFault::Memory),
            Err(_) => Err(self.refuse()),
        }
    }

    ghost always_fit = { λ b. tt };

    ghost unspent = { λ b d s. refl };

    ghost lasting = { λ b. tt };

    ghost bounded = { λ b d inside. bounded_disks b.disks.items d };

    ghost frame = { λ old new. Unit {0} };

    ghost runs_shelf = { λ x y runs. runs };

    ghost runs_frame = { λ x y runs. tt };

    ghost frame_same = { λ x. tt };

    ghost frame_then = { λ x y z one two. tt };

    ghost numbered = { λ b. names-length b.disks.items };
}
