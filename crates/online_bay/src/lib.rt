//! A bay whose disks that don't answer are offline.
//!
//! A drive that has died still has its name and its number, but refuses each call. An [`OnlineBay`] asks each disk
//! of a bay once, by a read: one that refuses is offline, which means that it has no sectors, as if it had
//! never been plugged in. So what is proved of a disk that isn't there holds of one that doesn't answer.
//!
//! **The model.** What the bay shows is what the bay below shows, but that offline disks have no sectors
//! (specs/Online.antt). Since no call of a rack reaches a sector that isn't there, an offline disk is called no more.
//!
//! **The contract.** It meets `Bay` over any bay, by that bay's contract alone. A disk is offline where it refused when it
//! was asked, and online where it answered (`Asks`); one that is attached later is online. An offline disk is left alone: through
//! all calls, attaching included, each of its sectors keeps what it holds, and a stop leaves what stood (`KeepsOffline`, in the
//! bay's `frame`). So a drive that misses one call is never overwritten for it.
#![tactic(auto)]

ghost use Rattle.std.specs.Prelude.{◌≡◌, ◌==◌, ◌<◌, ℕ, true, false, List, Ok, if◌then◌else◌, IfOk, IfErr};
ghost use Rattle.rack.specs.Seen.{Rose};
ghost use Rattle.rack.specs.Calls.{Reads};
ghost use Rattle.rack.specs.Sequences.{OnlyReads};
ghost use Rattle.online_bay.specs.Online.{Asks, KeepsOffline, is_offline, online_of};
ghost use Rattle.online_bay.specs.OnlineBay.{bay_in, offline_in};

use rack::{AttachFault, Back, Bay, Gone, NoMemory, Rack};
use std::alloc::Global;

/// A bay with the disks of another one, of which those that didn't answer have no sectors.
#[derive(Drop)]
pub struct OnlineBay<B> {
    bay: B,
    /// Which disks are offline, by their numbers. Those without a flag are online.
    offline: Vec<bool>,
}

impl<B: Bay> Rack for OnlineBay<B> {
    ghost use Rattle.std.specs.Prelude.{◌≡◌, refl};
    ghost use Rattle.std.proofs.Common.{◌∙◌};
    ghost use Rattle.online_bay.specs.Laws.{is_sound, offline_same, offline_then};

    ghost seen = { λ bay. online_of (offline_in bay) (B.seen bay.bay) };

    ghost runs = { λ old new. (offline_in new ≡ offline_in old) × B.runs old.bay new.bay
        × KeepsOffline (offline_in old) (offline_in new) (B.seen old.bay) (B.seen new.bay) (B.shelf old.bay) (B.shelf new.bay) };

    ghost once = { λ old new. Unit {0} };

    ghost unwritten = { λ old new. Unit {0} };

    fn disks(&self) -> u32 {
        self.bay.disks()
    }

    fn sectors(&self, disk: u32) -> u64 {
        if self.is_offline(disk) {
            return 0;
        }
        self.bay.sectors(disk)
    }

    fn read(&mut self, disk: u32, sector: u64, into: &mut [u8; 512]) -> Result<(), Gone> {
        self.bay.read(disk, sector, into)
    }

    fn write(&mut self, disk: u32, sector: u64, from: &[u8; 512]) -> Result<(), Gone> {
        self.bay.write(disk, sector, from)
    }

    fn sync(&mut self, disk: u32) -> Result<(), Gone> {
        // No call has reached it: nothing is there that a stop could undo.
        if self.is_offline(disk) {
            return Ok(());
        }
        self.bay.sync(disk)
    }

    ghost sound = { λ bay fit traced. is_sound (offline_in bay) (B.seen bay.bay) (B.sound bay.bay fit traced) };

    ghost runs_same = { λ bay. (refl, B.runs_same bay.bay, offline_same (offline_in bay) (B.seen bay.bay) (B.shelf bay.bay)) };

    ghost runs_then = { λ x y z one two. (two.0 ∙ one.0, B.runs_then x.bay y.bay z.bay one.1 two.1, offline_then one.2 two.2) };

    ghost unwritten_same = { λ x. tt };

    ghost unwritten_then = { λ x y z one two. tt };
}

impl<B: Bay> Bay for OnlineBay<B> {
    ghost use Rattle.online_bay.specs.Laws.{offline_same, offline_then, stays_bounded};

    ghost shelf = { λ bay. B.shelf bay.bay };

    ghost frame = { λ old new. B.frame old.bay new.bay
        × KeepsOffline (offline_in old) (offline_in new) (B.seen old.bay) (B.seen new.bay) (B.shelf old.bay) (B.shelf new.bay) };

    fn attach(&mut self, name: &str) -> Result<u32, AttachFault> {
        match self.bay.attach(name) {
            Ok(disk) => {
                self.bring_online(disk);
                Ok(disk)
            }
            Err(fault) => Err(fault),
        }
    }

    ghost always_fit = { λ bay. B.always_fit bay.bay };

    ghost unspent = { λ bay. B.unspent bay.bay };

    ghost lasting = { λ bay. B.lasting bay.bay };

    ghost bounded = { λ bay. stays_bounded (offline_in bay) (B.seen bay.bay) (B.bounded bay.bay) };

    ghost runs_shelf = { λ x y runs. B.runs_shelf x.bay y.bay runs.1 };

    ghost runs_frame = { λ x y runs. (B.runs_frame x.bay y.bay runs.1, runs.2) };

    ghost frame_same = { λ bay. (B.frame_same bay.bay, offline_same (offline_in bay) (B.seen bay.bay) (B.shelf bay.bay)) };

    ghost frame_then = { λ x y z one two. (B.frame_then x.bay y.bay z.bay one.0 two.0, offline_then one.1 two.1) };

    ghost numbered = { λ bay. B.numbered bay.bay };
}

impl<B> OnlineBay<B> {
    // Whether a disk is offline.
    fn is_offline(&self, disk: u32) -> bool
        ensures { result ≡ is_offline (offline_in self.now) disk }
    {
        self.offline.get(disk as usize).copied().unwrap_or(false)
    }

    // A disk that was just attached is online.
    fn bring_online(&mut self, disk: u32)
        ensures bay { bay_in self.new ≡ bay_in self.old }
        ensures offline { (d : ℕ) → is_offline (offline_in self.new) d ≡ (if d == disk then false else is_offline (offline_in self.old) d) }
    {
        if let Some(flag) = self.offline.get_mut(disk as usize) {
            *flag = false;
        }
    }

    /// The bay below, as it is.
    pub fn into_inner(self) -> B
        ensures { result ≡ bay_in self }
    {
        self.bay
    }
}

impl<B: Bay> OnlineBay<B> {
    /// Asks each disk for this sector, where it has it: one that refuses is offline from now on. Where memory is wanting
    /// the bay comes back.
    pub fn probe(alloc: Global, mut bay: B, sector: u64) -> Result<OnlineBay<B>, Back<B, NoMemory>>
        ensures asks { IfOk result (λ online. Asks B.seen B.runs bay (bay_in online) sector (offline_in online)) }
        ensures back { IfErr result (λ back. OnlyReads (B.seen bay) (B.seen back.rack) × B.runs bay back.rack) }
    {
        let mut offline = Vec::new(alloc);
        for disk in 0..bay.disks() {
            let gone = refuses(&mut bay, disk, sector);
            match offline.push(gone) {
                Ok(()) => {}
                Err(_) => return Err(Back {
                    rack: bay,
                    why: NoMemory,
                }),
            }
        }
        Ok(OnlineBay { bay, offline })
    }
}

// Whether a disk refuses to read a sector that it has.
fn refuses<R: Rack>(rack: &mut R, disk: u32, sector: u64) -> bool
    requires fit { (R.seen rack.old).fit }
    requires disk { disk < (R.seen rack.old).disks }
    ensures reads { OnlyReads (R.seen rack.old) (R.seen rack.new) }
    ensures runs { R.runs rack.old rack.new }
    ensures refused { result ≡ true → Rose ((R.seen rack.old).faults disk) ((R.seen rack.new).faults disk) }
    ensures answered { result ≡ false → sector < (R.seen rack.old).sectors disk
        → (into : List ℕ) × Reads (R.seen rack.old) (R.seen rack.new) disk sector into {X = Unit {0}} (Ok tt) }
{
    if rack.sectors(disk) <= sector {
        return false;
    }
    let mut into = [0; 512];
    match rack.read(disk, sector, &mut into) {
        Ok(()) => false,
        Err(_) => true,
    }
}
