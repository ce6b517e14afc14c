//! Pools that are opened or made on the disks of a bay.

ghost use Rattle.std.specs.Prelude.{◌≡◌, ◌≢◌, ◌⊎◌, ◌<◌, ◌↔◌, ◌&&◌, ℕ, is_some, true, IfOk, IfErr};
ghost use Rattle.rack.specs.Seen.{Rose};
ghost use Rattle.rack.specs.Sequences.{OnlyReads};
ghost use Rattle.array_image.specs.States.{is_current};
ghost use Rattle.pool_state.specs.Valid.{is_extent};
ghost use Rattle.layer_plan.specs.declared.PlanError.{PlanError};
ghost use Rattle.pool_check.specs.Settling.{IsSettled};
ghost use Rattle.pool_image.specs.Alike.{MeansTheSame};
ghost use Rattle.pool_image.specs.Disks.{disks_of};
ghost use Rattle.pool_image.specs.Drives.{Found};
ghost use Rattle.pool_scan.specs.Scanning.{IsUnfaulted, now_in};
ghost use Rattle.pool_rest.specs.Resting.{WritesDrives};
ghost use Rattle.assembler.specs.Causes.{HasRefusalCause};
ghost use Rattle.assembler_laws.specs.Marking.{MarksDrives};
ghost use Rattle.assembler.specs.Refusing.{is_early};
ghost use Rattle.assembler.specs.Sound.{HaveAgreed, HoldSound, IsMeantBy, IsMeantRefusal, KeepsPool, SayTruths, StopsHold};
ghost use Rattle.assembler.specs.Wanting.{HasUsedUp, LeavesPool};
ghost use Rattle.assembler_laws.specs.Writing.{WritesPool};
ghost use Rattle.lvm_group.specs.Runs.{data_start};
ghost use Rattle.raid_rack.specs.RaidRack.{arrays_in};
ghost use Rattle.pool_format.specs.Plan.{IsUnplanned, units_on};
ghost use Rattle.pool_format.specs.Format.{IsRefusedFor};
ghost use Rattle.pool_format.specs.Volume.{HasLayout};
ghost use Rattle.pool.specs.Made.{IsSafelyRefused, IsSoundlyMade};
ghost use Rattle.pool.specs.View.{arrays_of, bay_in, book, slices_shown, view, volume};

use crate::{Birth, CreateFault, Pool, Refusal};
use assembler::assemble;
use pool_format::format;
use rack::{Back, Bay, Rack};
use std::alloc::Global;

impl<R: Bay> Pool<R> {
    /// Opens the pool on a bay's disks, in whatever order they are, or answers the first refusal that applies. `seconds` since 1970 are
    /// the times in superblocks of arrays that are made in this run.
    ///
    /// An absent drive is marked missing. Of the disks only drives of the pool are written: the pending record before the drives have
    /// passed their checks, and after these gates that are open, copies of partition tables that differ, marks with superblocks, superblocks
    /// where one is stale, and texts of the volume, with superblocks again.
    pub fn open(alloc: Global, bay: R, seconds: u64) -> Result<Pool<R>, Back<R, Refusal>>
        ensures fit { IfOk result (λ pool. (volume (view R.seen R.shelf pool)).fit) }
        ensures runs { IfOk result (λ pool. R.runs bay (bay_in pool)) }
        ensures early { IfErr result (λ back. is_early back.why ≡ true → OnlyReads (R.seen bay) (R.seen back.rack) ⊎ WritesDrives (R.seen bay) (R.seen back.rack)) }
        ensures drives { IfOk result (λ pool. WritesPool R.seen R.runs bay (bay_in pool)) }
        ensures written { IfErr result (λ back. OnlyReads (R.seen bay) (R.seen back.rack) ⊎ (WritesDrives (R.seen bay) (R.seen back.rack) ⊎ WritesPool R.seen R.runs bay back.rack)) }
        ensures meant { IfOk result (λ pool. (f : Found) → HoldSound (R.seen bay) f → IsUnfaulted (R.seen bay) (R.seen (bay_in pool))
            → IsMeantBy R.seen (R.seen bay) f (arrays_of pool) (view R.seen R.shelf pool).linear) }
        ensures marks { IfOk result (λ pool. (f : Found) → HoldSound (R.seen bay) f → IsUnfaulted (R.seen bay) (R.seen (bay_in pool))
            → (p : ℕ) → is_current (book (view R.seen R.shelf pool)).state p ≡ (is_current f.state p && is_some (f.seats p))) }
        // Whoever goes, drives are marked missing only where they had no disk, or that refused a call.
        ensures caused { IfOk result (λ pool. MarksDrives R.seen R.runs bay (bay_in pool) (book (view R.seen R.shelf pool)).state) }
        ensures mended { IfOk result (λ pool. (f : Found) → HoldSound (R.seen bay) f → IsUnfaulted (R.seen bay) (R.seen (bay_in pool))
            → (p d : ℕ) → f.seats p ≡ Some d → IsSettled (R.seen bay) (R.seen (bay_in pool)) d) }
        ensures agreed { IfOk result (λ pool. (f : Found) → HoldSound (R.seen bay) f → IsUnfaulted (R.seen bay) (R.seen (bay_in pool))
            → HaveAgreed f (book (view R.seen R.shelf pool)).state (slices_shown (view R.seen R.shelf pool))) }
        ensures truths { IfOk result (λ pool. (f : Found) → HoldSound (R.seen bay) f → IsUnfaulted (R.seen bay) (R.seen (bay_in pool))
            → SayTruths f (book (view R.seen R.shelf pool)) (slices_shown (view R.seen R.shelf pool))) }
        ensures exact { IfErr result (λ back. (f : Found) → HoldSound (R.seen bay) f → IsUnfaulted (R.seen bay) (R.seen back.rack)
            → back.why ≢ Refusal.Memory → IsMeantRefusal (R.seen bay) back.why) }
        // What a stop inside the opening leaves holds the pool still, so that it may be opened again.
        ensures stops { IfOk result (λ pool. (f : Found) → HoldSound (R.seen bay) f → IsUnfaulted (R.seen bay) (R.seen (bay_in pool))
            → StopsHold (R.seen bay) (R.seen (bay_in pool)) f data_start) }
        ensures stopped { IfErr result (λ back. (f : Found) → HoldSound (R.seen bay) f → IsUnfaulted (R.seen bay) (R.seen back.rack)
            → StopsHold (R.seen bay) (R.seen back.rack) f 0 ⊎ HasUsedUp R.seen R.runs bay back.rack) }
        // Whatever the disks tell and whoever goes, a refusal has its cause in what was read of them.
        ensures cause { IfErr result (λ back. HasRefusalCause R.seen R.runs bay back.rack back.why) }
        // Sound disks that refuse no call mean what they meant, or hold the arrays that the pool had.
        ensures unmoved { IfErr result (λ back. (f : Found) → HoldSound (R.seen bay) f → IsUnfaulted (R.seen bay) (R.seen back.rack)
            → is_early back.why ≡ true → MeansTheSame (disks_of (R.seen bay)) (now_in (R.seen bay)) (now_in (R.seen back.rack))) }
        ensures still { IfErr result (λ back. (f : Found) → HoldSound (R.seen bay) f → IsUnfaulted (R.seen bay) (R.seen back.rack)
            → (array : ℕ) → back.why ≡ Refusal.BadVolume array → KeepsPool (R.seen bay) (R.seen back.rack) f) }
        ensures wanting { IfErr result (λ back. (f : Found) → HoldSound (R.seen bay) f → IsUnfaulted (R.seen bay) (R.seen back.rack)
            → back.why ≡ Refusal.Memory → LeavesPool R.seen R.runs bay back.rack f) }
        ensures returned { IfErr result (λ back. R.runs bay back.rack) }
    {
        match assemble(alloc, bay, seconds) {
            Ok(volume) => Ok(Pool { volume }),
            Err(back) => Err(back),
        }
    }

    /// Makes a pool on a bay's disks, in their order, whose volume is all zeros. What the disks held is lost. An extent has `extent`
    /// sectors, a power of two from 128 to 65536.
    pub fn create(
        alloc: Global,
        bay: R,
        extent: u32,
        birth: &Birth,
    ) -> Result<Pool<R>, Back<R, CreateFault>>
        requires extent { is_extent extent ≡ true }
        ensures layout { (fault : PlanError) → IsRefusedFor (CreateFault.Layout fault) result ↔ IsUnplanned (units_on (R.seen bay) extent) fault }
        ensures unchanged { IfErr result (λ back. (fault : PlanError) → back.why ≡ CreateFault.Layout fault → back.rack ≡ bay) }
        ensures gone { IfErr result (λ back. (disk : ℕ) → back.why ≡ CreateFault.Gone disk → (disk < (R.seen bay).disks) × Rose ((R.seen bay).faults disk) ((R.seen back.rack).faults disk)) }
        ensures fit { IfOk result (λ pool. (volume (view R.seen R.shelf pool)).fit) }
        ensures made { IfOk result (λ pool. IsSoundlyMade (R.seen bay) (R.seen (bay_in pool)) extent birth.now (arrays_in (arrays_of pool)) (view R.seen R.shelf pool).linear) }
        ensures some { IfErr result (λ back. HasLayout back.why → IsSafelyRefused (R.seen bay) (R.seen back.rack) extent birth.now) }
        ensures runs { IfOk result (λ pool. R.runs bay (bay_in pool)) }
        ensures returned { IfErr result (λ back. R.runs bay back.rack) }
    {
        match format(alloc, bay, extent, birth) {
            Ok(volume) => Ok(Pool { volume }),
            Err(back) => Err(back),
        }
    }
}
