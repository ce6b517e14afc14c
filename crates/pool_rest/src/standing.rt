//! A pool as it stands on disks, before its pending record is replayed.

ghost use Rattle.std.specs.Prelude.{◌≡◌, ◌≢◌, ◌<◌, ◌≤◌, ◌^◌, ℕ, length, IfOk, IfErr, IfSome, true, false, []};
ghost use Rattle.rack.specs.Sequences.{OnlyReads};
ghost use Rattle.slice_rack.specs.Sliced.{slices_of};
ghost use Rattle.slice_rack.specs.SliceRack.{tables, below_of};
ghost use Rattle.pool_image.specs.Disks.{Disks, Identities, newest, disks_of};
ghost use Rattle.pool_image.specs.Meaning.{has_other_pool};
ghost use Rattle.pool_image.specs.Replay.{standing_by};
ghost use Rattle.pool_scan.specs.Choosing.{AreOf, HasCopyOf};
ghost use Rattle.pool_state.specs.Valid.{is_valid};
ghost use Rattle.pool_rest.specs.Standing.{IsNewest, IsOnePool, IsLaid, HasLooked, StandsAs, IsCause, IsMeant};
ghost use Rattle.pool_scan.specs.Scanning.{AllTold, IsUnfaulted, now_in};

use crate::laying::seat_drives;
use arrayvec::ArrayVec;
use commit_log::{Log, Looked};
use pool_scan::Scan;
use pool_state::{Drive, State};
use rack::{Back, Places, Rack};
use slice_rack::SliceRack;
use std::alloc::Global;

/// Why no pool is found, the first cause in this order.
#[derive(Clone, Copy, Debug, PartialEq, Eq)]
pub enum FindFault {
    /// No disk has a valid copy of a state.
    NoPool,
    /// Two disks have the states of different pools.
    TwoPools,
    /// No memory could be had.
    Memory,
}

/// A pool as it stands.
#[derive(Drop)]
pub struct Standing<R> {
    /// The log slices of the current places, over the rack of the disks.
    pub slices: SliceRack<R>,
    /// What each disk says.
    pub scan: Scan,
    /// The state of highest epoch, of equal ones that of the lowest disk.
    pub state: State,
    /// The current places that have a log slice, the lowest first.
    pub on: Places,
    /// The log, with the record that is pending.
    pub log: Log,
    /// What looking for that record found.
    pub looked: Looked,
}

/// A copy of the drives of a state. It takes no memory.
fn copy_of_drives(drives: &[Drive]) -> ArrayVec<Drive, 16>
    requires { length drives.now ≤ 16 }
    ensures { result.items ≡ drives.now }
{
    let mut copy = ArrayVec::new();
    for place in 0..drives.len() {
        copy.push(drives[place]);
    }
    copy
}

/// A copy of a state. It takes no memory.
pub(crate) fn copy_of(state: &State) -> State
    ensures { result ≡ state.now }
{
    State {
        pool: state.pool,
        epoch: state.epoch,
        extent: state.extent,
        drives: copy_of_drives(state.drives.as_slice()),
        plan: state.plan,
        made: state.made,
        joined: state.joined,
        serial: state.serial,
    }
}

/// The state of highest epoch of a scan.
fn newest_of(scan: &Scan) -> Option<State>
    ensures newest { (disks : Disks) (identities : Identities) → AreOf disks identities scan.now.disks.items
        → result ≡ newest disks identities }
    ensures copied { IfSome result (HasCopyOf scan.now.disks.items) }
{
    match scan.newest() {
        Some(state) => Some(copy_of(state)),
        None => None,
    }
}

/// Looks at the disks of a rack with a scan and a log that have their memory: finds the newest state, of one pool, and the record that
/// is pending by it. Nothing is written. It takes no memory.
pub(crate) fn look<R: Rack>(
    rack: R,
    scan: Scan,
    log: Log,
) -> Result<Standing<R>, Back<R, FindFault>>
    requires fit { (R.seen rack).fit }
    requires small { (d : ℕ) → d < (R.seen rack).disks → (R.seen rack).sectors d < 2 ^ 48 }
    requires room { length scan.disks.items ≡ (R.seen rack).disks }
    requires empty { log.added ≡ [] }
    ensures only { IfOk result (λ st. OnlyReads (R.seen rack) (R.seen (below_of st.slices))) }
    ensures fit { IfOk result (λ st. (slices_of (tables st.slices) (R.seen (below_of st.slices))).fit) }
    ensures few { IfOk result (λ st. length st.scan.disks.items < 2 ^ 32) }
    ensures valid { IfOk result (λ st. is_valid st.state 0 ≡ true) }
    ensures newest { IfOk result (λ st. IsNewest (R.seen rack) (R.seen (below_of st.slices)) st.scan.disks.items st.state) }
    ensures one { IfOk result (λ st. IsOnePool st.scan.disks.items st.state) }
    ensures laid { IfOk result (λ st. IsLaid (R.seen rack) st.scan.disks.items st.state (tables st.slices) st.on.items) }
    ensures looked { IfOk result (λ st. HasLooked (R.seen rack) (R.seen (below_of st.slices)) (tables st.slices) st.on.items st.looked.gone.items st.log st.looked.pending st.looked.damaged) }
    ensures meant { IfOk result (λ st. AllTold (R.seen rack) → IsUnfaulted (R.seen rack) (R.seen (below_of st.slices))
        → StandsAs (R.seen rack) st.state (tables st.slices) st.log st.looked.pending st.looked.damaged) }
    ensures single { IfOk result (λ st. AllTold (R.seen rack) → IsUnfaulted (R.seen rack) (R.seen (below_of st.slices))
        → has_other_pool (disks_of (R.seen rack)) (standing_by (disks_of (R.seen rack)) (now_in (R.seen rack)) st.state) ≡ false) }
    ensures runs { IfOk result (λ st. R.runs rack (below_of st.slices)) }
    ensures kept { IfErr result (λ back. OnlyReads (R.seen rack) (R.seen back.rack)) }
    ensures refused { IfErr result (λ back. IsCause (R.seen rack) (R.seen back.rack) back.why) }
    ensures found { IfErr result (λ back. back.why ≢ FindFault.Memory) }
    ensures returned { IfErr result (λ back. R.runs rack back.rack) }
{
    let mut rack = rack;
    let mut scan = scan;
    let mut log = log;
    scan.read(&mut rack);
    let Some(state) = newest_of(&scan) else {
        return Err(Back {
            rack,
            why: FindFault::NoPool,
        });
    };
    if scan.has_other_pool(&state.pool) {
        return Err(Back {
            rack,
            why: FindFault::TwoPools,
        });
    }
    let mut slices = SliceRack::new(rack);
    let on = seat_drives(&mut slices, &scan, &state);
    let looked = log.pending(&mut slices, &on);
    Ok(Standing {
        slices,
        scan,
        state,
        on,
        log,
        looked,
    })
}

/// Finds the pool on the disks of a rack as it stands, with the record that is pending there. Nothing is written. Disks have
/// fewer than 2^48 sectors.
///
/// A disk that refuses a call of the scan shows nothing of what wasn't read; a place that goes while the record is looked for
/// is passed over, and stands in `looked.gone`.
pub fn stand<R: Rack>(alloc: Global, rack: R) -> Result<Standing<R>, Back<R, FindFault>>
    requires fit { (R.seen rack).fit }
    requires small { (d : ℕ) → d < (R.seen rack).disks → (R.seen rack).sectors d < 2 ^ 48 }
    ensures only { IfOk result (λ st. OnlyReads (R.seen rack) (R.seen (below_of st.slices))) }
    ensures fit { IfOk result (λ st. (slices_of (tables st.slices) (R.seen (below_of st.slices))).fit) }
    ensures few { IfOk result (λ st. length st.scan.disks.items < 2 ^ 32) }
    ensures valid { IfOk result (λ st. is_valid st.state 0 ≡ true) }
    ensures newest { IfOk result (λ st. IsNewest (R.seen rack) (R.seen (below_of st.slices)) st.scan.disks.items st.state) }
    ensures one { IfOk result (λ st. IsOnePool st.scan.disks.items st.state) }
    ensures laid { IfOk result (λ st. IsLaid (R.seen rack) st.scan.disks.items st.state (tables st.slices) st.on.items) }
    ensures looked { IfOk result (λ st. HasLooked (R.seen rack) (R.seen (below_of st.slices)) (tables st.slices) st.on.items st.looked.gone.items st.log st.looked.pending st.looked.damaged) }
    // Where no disk refused a call, all of it is as the meaning of images says.
    ensures meant { IfOk result (λ st. AllTold (R.seen rack) → IsUnfaulted (R.seen rack) (R.seen (below_of st.slices))
        → StandsAs (R.seen rack) st.state (tables st.slices) st.log st.looked.pending st.looked.damaged) }
    ensures single { IfOk result (λ st. AllTold (R.seen rack) → IsUnfaulted (R.seen rack) (R.seen (below_of st.slices))
        → has_other_pool (disks_of (R.seen rack)) (standing_by (disks_of (R.seen rack)) (now_in (R.seen rack)) st.state) ≡ false) }
    ensures runs { IfOk result (λ st. R.runs rack (below_of st.slices)) }
    ensures kept { IfErr result (λ back. OnlyReads (R.seen rack) (R.seen back.rack)) }
    ensures refused { IfErr result (λ back. IsCause (R.seen rack) (R.seen back.rack) back.why) }
    ensures exact { IfErr result (λ back. AllTold (R.seen rack) → IsUnfaulted (R.seen rack) (R.seen back.rack) → IsMeant (R.seen rack) back.why) }
    // Want of memory is found before any call to the rack.
    ensures memory { IfErr result (λ back. back.why ≡ FindFault.Memory → back.rack ≡ rack) }
    ensures returned { IfErr result (λ back. R.runs rack back.rack) }
{
    let disks = rack.disks();
    let why = FindFault::Memory;
    let Ok(scan) = Scan::blank(alloc, disks) else {
        return Err(Back { rack, why });
    };
    let Ok(log) = Log::make(alloc) else {
        return Err(Back { rack, why });
    };
    match look(rack, scan, log) {
        Ok(found) => Ok(found),
        Err(back) => Err(back),
    }
}
