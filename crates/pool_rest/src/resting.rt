//! A pool at rest: its pending record is replayed.

ghost use Rattle.std.specs.Prelude.{◌≡◌, ◌≢◌, ◌<◌, ◌⊎◌, ◌^◌, ◌==◌, ◌&&◌, ◌||◌, not, ℕ, Bool, List, true, false, length, [], Some, None, unwrap_or, IfOk, IfErr};
ghost use Rattle.std.specs.List.{list_all};
ghost use Rattle.rack.specs.Values.{Keeps};
ghost use Rattle.rack.specs.Moments.{Leaves};
ghost use Rattle.rack.specs.Seen.{IsLive, Rose};
ghost use Rattle.rack.specs.Sequences.{OnlyReads, WritesOnly};
ghost use Rattle.slice_rack.specs.Slices.{Slices, seat_of as has_seat};
ghost use Rattle.slice_rack.specs.SliceRack.{tables, below_of};
ghost use Rattle.slice_rack.specs.Sliced.{sliced, slices_of};
ghost use Rattle.array_image.specs.Places.{arrays_first};
ghost use Rattle.array_image.specs.Left.{reading};
ghost use Rattle.array_image.specs.States.{state_in};
ghost use Rattle.array_image.specs.Record.{is_target};
ghost use Rattle.pool_image.specs.Disks.{disks_of, identities_of};
ghost use Rattle.log_laws.specs.View.{names, settled};
ghost use Rattle.pool_scan.specs.Scanning.{AllTold, IsUnfaulted, now_in};
ghost use Rattle.pool_scan.specs.Choosing.{AreOf, seat_by};
ghost use Rattle.pool_rest.specs.Standing.{IsLasting, IsLaid, IsNewest, IsOnePool, FindsAll, FindsLeft, IsCause, IsMeant, since};
ghost use Rattle.pool_state.specs.Valid.{is_valid};
ghost use Rattle.pool_image.specs.Alike.{Agree, drive_gate, MeansTheSame};
ghost use Rattle.pool_image.specs.Replay.{Standing as Stood, brought_state, standing, standing_by};
ghost use Rattle.pool_image.specs.Meaning.{has_other_pool};
ghost use Rattle.pool_rest.specs.Moments.{AreOfDrives, BringsNoState, BringsState, KeepsReplayed, StandsMidway, StandsReplaying, TakesLower};
ghost use Rattle.pool_rest.specs.SoundLogs.{HasSoundLogs, IsSettled};
ghost use Rattle.pool_rest.specs.Resting.{IsOfDrive, IsReplayed, AreShut, HaveCause, IsFlagged, HasDisk, HasRefused, StandsNow, RestsSo, AreSingle, AreSectors, AreSteady, IsIdle, WritesDrives, IsRefused, seated_state};

use crate::brought::brought_state as brought_by;
use crate::laying::seat_drives;
use crate::members::{lay_drives, push_unless};
use crate::standing::{FindFault, Standing, copy_of, look, stand};
use commit_log::Log;
use pool_scan::Scan;
use pool_state::State;
use rack::{Back, Places, Rack};
use slice_rack::SliceRack;
use std::alloc::Global;

/// Whether a list has this place.
fn is_among(places: &Places, place: u32) -> bool
    ensures { result ≡ names places.now.items place }
{
    places.contains(&place)
}

/// Whether a place of a list has the same disk by two states.
fn is_kept(scan: &Scan, before: &State, state: &State, on: &Places, place: u32) -> bool
    requires { length scan.now.disks.items < 2 ^ 32 }
    ensures kept { result ≡ true
        → (names on.now.items place ≡ true) × (seat_by before.now scan.now.disks.items place ≡ seat_by state.now scan.now.disks.items place) }
    ensures all { names on.now.items place ≡ true → seat_by before.now scan.now.disks.items place ≡ seat_by state.now scan.now.disks.items place
        → result ≡ true }
{
    is_among(on, place) && scan.seat(before, place) == scan.seat(state, place)
}

/// The places of a list that have the disk that they had before, where their gates were found to be well formed.
fn judged(scan: &Scan, before: &State, state: &State, on: &Places) -> Places
    requires { length scan.now.disks.items < 2 ^ 32 }
    ensures kept { (p : ℕ) → names result.items p ≡ true
        → (names on.now.items p ≡ true) × (seat_by before.now scan.now.disks.items p ≡ seat_by state.now scan.now.disks.items p) }
    ensures all { (p : ℕ) → p < 16 → names on.now.items p ≡ true
        → seat_by before.now scan.now.disks.items p ≡ seat_by state.now scan.now.disks.items p → names result.items p ≡ true }
{
    let mut places = Places::new();
    for place in 0..16 {
        let kept = is_kept(scan, before, state, on, place);
        push_unless(&mut places, place, !kept);
    }
    places
}

/// The places whose gates are closed: none where a disk has refused a call.
fn closing_of(
    whole: bool,
    unread: &Places,
    scan: &Scan,
    before: &State,
    state: &State,
    on: &Places,
) -> Places
    requires { length scan.now.disks.items < 2 ^ 32 }
    ensures kept { (p : ℕ) → names result.items p ≡ true
        → (names on.now.items p ≡ true) × (seat_by before.now scan.now.disks.items p ≡ seat_by state.now scan.now.disks.items p) }
    ensures all { whole ≡ true → unread.now.items ≡ [] → (p : ℕ) → p < 16 → names on.now.items p ≡ true
        → seat_by before.now scan.now.disks.items p ≡ seat_by state.now scan.now.disks.items p → names result.items p ≡ true }
{
    if whole && unread.is_empty() {
        judged(scan, before, state, on)
    } else {
        Places::new()
    }
}

/// Whether a place stands in one of two lists.
fn is_in_either(first: &Places, second: &Places, place: u32) -> bool
    ensures { result ≡ (names first.now.items place || names second.now.items place) }
{
    is_among(first, place) || is_among(second, place)
}

/// The places of two lists.
fn both(first: &Places, second: &Places) -> Places
    ensures either { (p : ℕ) → p < 16 → names result.items p ≡ (names first.now.items p || names second.now.items p) }
    ensures few { (p : ℕ) → names result.items p ≡ true → p < 16 }
{
    let mut places = Places::new();
    for place in 0..16 {
        let either = is_in_either(first, second, place);
        push_unless(&mut places, place, !either);
    }
    places
}

/// Whether a disk refused a call of a scan.
fn is_flagged(scan: &Scan, disk: u32) -> bool
    ensures flagged { result ≡ true → IsFlagged scan.now.disks.items disk }
    ensures all { IsFlagged scan.now.disks.items disk → result ≡ true }
{
    match scan.disks.as_slice().get(disk as usize) {
        Some(known) => known.gone,
        None => false,
    }
}

/// Whether no disk refused a call of a scan.
fn are_there(scan: &Scan) -> bool
    ensures { result ≡ list_all (λ known. not known.gone) scan.now.disks.items }
{
    scan.disks.as_slice().iter().all(|known| !known.gone)
}

/// Whether no disk refused a call of a scan, or when the pending record was looked for.
fn is_whole(scan: &Scan, gone: &Places) -> bool
    ensures { list_all (λ known. not known.gone) scan.now.disks.items ≡ true → gone.now.items ≡ [] → result ≡ true }
{
    gone.is_empty() && are_there(scan)
}

/// Whether a place of a list has this disk.
fn is_disk_of(scan: &Scan, state: &State, places: &Places, place: u32, disk: u32) -> bool
    requires { length scan.now.disks.items < 2 ^ 32 }
    ensures { result ≡ true → (names places.now.items place ≡ true) × (seat_by state.now scan.now.disks.items place ≡ Some disk) }
{
    is_among(places, place) && scan.seat(state, place) == Some(disk)
}

/// Whether one of these places has this disk.
fn has_disk(scan: &Scan, state: &State, places: &Places, disk: u32) -> bool
    requires { length scan.now.disks.items < 2 ^ 32 }
    ensures { result ≡ true → HasDisk scan.now.disks.items state.now places.now.items disk }
{
    for place in 0..16 {
        if is_disk_of(scan, state, places, place, disk) {
            return true;
        }
    }
    false
}

/// Which disks have refused a call up to the end of a replay.
#[derive(Drop)]
pub(crate) struct Refused {
    /// What was read before it.
    pub(crate) scan: Scan,
    /// The state from before, and the places by it that had gone.
    pub(crate) before: State,
    pub(crate) gone: Places,
    /// The state by which the record's places were seated, and those of them that went.
    pub(crate) seated: State,
    pub(crate) lost: Places,
}

impl Refused {
    /// Whether a disk has refused a call.
    fn has(&self, disk: u32) -> bool
        requires { length self.now.scan.disks.items < 2 ^ 32 }
        ensures { result ≡ true → HasRefused self.now.scan.disks.items self.now.before self.now.gone.items self.now.seated self.now.lost.items disk }
    {
        is_flagged(&self.scan, disk)
            || has_disk(&self.scan, &self.before, &self.gone, disk)
            || has_disk(&self.scan, &self.seated, &self.lost, disk)
    }
}

/// Whether the disk of a place refused a call of a scan.
fn is_seat_flagged(scan: &Scan, state: &State, place: u32) -> bool
    requires { length scan.now.disks.items < 2 ^ 32 }
    ensures flagged { result ≡ true → (d : ℕ) → seat_by state.now scan.now.disks.items place ≡ Some d → IsFlagged scan.now.disks.items d }
    ensures all { (d : ℕ) → seat_by state.now scan.now.disks.items place ≡ Some d → IsFlagged scan.now.disks.items d → result ≡ true }
{
    match scan.seat(state, place) {
        Some(disk) => is_flagged(scan, disk),
        None => false,
    }
}

/// Whether a place has gone, or its disk refused a call of the scan.
fn has_gone(scan: &Scan, state: &State, gone: &Places, place: u32) -> bool
    requires { length scan.now.disks.items < 2 ^ 32 }
    ensures cause { result ≡ true → (d : ℕ) → seat_by state.now scan.now.disks.items place ≡ Some d
        → (names gone.now.items place ≡ true) ⊎ IsFlagged scan.now.disks.items d }
    ensures all { (d : ℕ) → seat_by state.now scan.now.disks.items place ≡ Some d → IsFlagged scan.now.disks.items d → result ≡ true }
{
    is_among(gone, place) || is_seat_flagged(scan, state, place)
}

/// The places that have gone, and those whose disk refused a call of the scan.
pub(crate) fn gone_of(scan: &Scan, state: &State, gone: &Places) -> Places
    requires { length scan.now.disks.items < 2 ^ 32 }
    ensures cause { (p d : ℕ) → names result.items p ≡ true → seat_by state.now scan.now.disks.items p ≡ Some d
        → (names gone.now.items p ≡ true) ⊎ IsFlagged scan.now.disks.items d }
    ensures all { (p d : ℕ) → p < 16 → seat_by state.now scan.now.disks.items p ≡ Some d → IsFlagged scan.now.disks.items d
        → names result.items p ≡ true }
{
    let mut places = Places::new();
    for place in 0..16 {
        let has_gone = has_gone(scan, state, gone, place);
        push_unless(&mut places, place, !has_gone);
    }
    places
}

/// Whether the disk of a place has refused a call up to the end of a replay.
fn has_refused(scan: &Scan, state: &State, refused: &Refused, place: u32) -> bool
    requires few { length scan.now.disks.items < 2 ^ 32 }
    requires early { length refused.now.scan.disks.items < 2 ^ 32 }
    ensures { result ≡ true → (d : ℕ) → seat_by state.now scan.now.disks.items place ≡ Some d
        → HasRefused refused.now.scan.disks.items refused.now.before refused.now.gone.items refused.now.seated refused.now.lost.items d }
{
    match scan.seat(state, place) {
        Some(disk) => refused.has(disk),
        None => false,
    }
}

/// The places whose disk has.
fn refused_of(scan: &Scan, state: &State, refused: &Refused) -> Places
    requires few { length scan.now.disks.items < 2 ^ 32 }
    requires early { length refused.now.scan.disks.items < 2 ^ 32 }
    ensures { (p d : ℕ) → names result.items p ≡ true → seat_by state.now scan.now.disks.items p ≡ Some d
        → HasRefused refused.now.scan.disks.items refused.now.before refused.now.gone.items refused.now.seated refused.now.lost.items d }
{
    let mut places = Places::new();
    for place in 0..16 {
        let has = has_refused(scan, state, refused, place);
        push_unless(&mut places, place, !has);
    }
    places
}

/// The disks once a record was replayed.
#[derive(Drop)]
pub(crate) struct Replayed<R> {
    pub(crate) rack: R,
    pub(crate) log: Log,
    /// The places whose disk refused a call.
    pub(crate) lost: Places,
}

/// Replays the pending record on the drives of a state, each slice as its drive's table has it. Gates are closed only where `whole`
/// says that no disk has refused a call so far, and where none does here: else the next commit takes the record's place.
pub(crate) fn replay_on<R: Rack>(
    rack: R,
    log: Log,
    scan: &Scan,
    before: &State,
    state: &State,
    whole: bool,
) -> Replayed<R>
    requires fit { (R.seen rack).fit }
    requires small { (d : ℕ) → d < (R.seen rack).disks → (R.seen rack).sectors d < 2 ^ 48 }
    requires count { length scan.now.disks.items ≡ (R.seen rack).disks }
    requires few { length scan.now.disks.items < 2 ^ 32 }
    ensures only { WritesOnly (R.seen rack) (R.seen result.rack) (IsOfDrive (R.seen rack) scan.now.disks.items state.now) }
    // Halves of logs stay as they are.
    ensures halves { (d t : ℕ) → IsLive (R.seen rack) (R.seen result.rack) d t → drive_gate < t → t < arrays_first
        → list_all is_target log.pending ≡ true → Keeps ((R.seen rack).held d t) ((R.seen result.rack).held d t) }
    ensures replayed { AllTold (R.seen rack) → IsLasting (R.seen rack) → IsUnfaulted (R.seen rack) (R.seen result.rack)
        → AreOf (disks_of (R.seen rack)) (identities_of (disks_of (R.seen rack)) (now_in (R.seen rack))) scan.now.disks.items
        → list_all is_target log.pending ≡ true
        → IsReplayed (R.seen rack) (R.seen result.rack) before.now state.now log.pending log.number }
    // Where no disk refused a call, gates of places that have the same disk by both states are closed.
    ensures shut { whole ≡ true → AllTold (R.seen rack) → IsLasting (R.seen rack) → IsUnfaulted (R.seen rack) (R.seen result.rack)
        → log.pending ≢ [] → AreShut (R.seen rack) (R.seen result.rack) scan.now.disks.items before.now state.now log.number }
    // What each stop leaves is once replayed the same, if by the drives' slices the state that stands is the one from before.
    ensures brought { AllTold (R.seen rack) → IsLasting (R.seen rack) → IsUnfaulted (R.seen rack) (R.seen result.rack) → AreSingle (R.seen rack)
        → (t u : Slices) (on : List ℕ) (is_pending : Bool) → IsLaid (R.seen rack) scan.now.disks.items before.now t on → FindsAll (R.seen rack) t on log is_pending None
        → BringsState (R.seen rack) scan.now.disks.items before.now state.now log on (reading (slices_of t (R.seen rack)))
        → AreOfDrives (R.seen rack) (seat_by state.now scan.now.disks.items) u → state_in (sliced u (now_in (R.seen rack))) ≡ Some before.now
        → KeepsReplayed (R.seen rack) (R.seen result.rack) u }
    // What stands meanwhile is what stood, or the state that the record is for stands already.
    ensures midway { AllTold (R.seen rack) → IsLasting (R.seen rack) → IsUnfaulted (R.seen rack) (R.seen result.rack) → AreSingle (R.seen rack)
        → AreOf (disks_of (R.seen rack)) (identities_of (disks_of (R.seen rack)) (now_in (R.seen rack))) scan.now.disks.items → list_all is_target log.pending ≡ true
        → (t u : Slices) (on : List ℕ) (is_pending : Bool) → IsLaid (R.seen rack) scan.now.disks.items before.now t on → FindsAll (R.seen rack) t on log is_pending None
        → BringsState (R.seen rack) scan.now.disks.items before.now state.now log on (reading (slices_of t (R.seen rack)))
        → AreOfDrives (R.seen rack) (seat_by state.now scan.now.disks.items) u → state_in (sliced u (now_in (R.seen rack))) ≡ Some before.now
        → (R.seen rack).traced → Leaves (R.seen rack) (R.seen result.rack) (StandsReplaying (disks_of (R.seen rack)) before.now state.now log.pending (now_in (R.seen rack))) }
    ensures lost { HaveCause (R.seen rack) (R.seen result.rack) scan.now.disks.items state.now result.lost.items }
    ensures log { result.log ≡ settled log }
    ensures runs { R.runs rack result.rack }
{
    let mut log = log;
    let mut slices = SliceRack::new(rack);
    let on = seat_drives(&mut slices, scan, state);
    let unread = lay_drives(&mut slices, scan, state);
    // A gate stays open where a disk has refused a call: a stop then leaves the record pending, for that drive too if
    // it answers at the next opening.
    let closing = closing_of(whole, &unread, scan, before, state, &on);
    let gone = log.replay(&mut slices, &closing);
    Replayed {
        rack: slices.into_inner(),
        log,
        lost: both(&unread, &gone),
    }
}

/// A pool at rest: what its disks say, with no record left to replay but where a log is damaged or a drive has gone.
#[derive(Drop)]
pub struct AtRest<R> {
    /// The log slices of the current places, over the rack of the disks.
    pub slices: SliceRack<R>,
    /// What each disk says.
    pub scan: Scan,
    /// The state of highest epoch, of equal ones that of the lowest disk.
    pub state: State,
    /// The current places that have a log slice, the lowest first.
    pub on: Places,
    /// The log, which may have gates to close.
    pub log: Log,
    /// Whether a record is pending still: it is damaged, or a drive has gone and the next commit takes its place.
    pub pending: bool,
    /// The lowest current place whose gate or pending record isn't well formed.
    pub damaged: Option<u32>,
    /// The current places whose disk has refused a call.
    pub gone: Places,
}

/// A pool of which nothing is to be replayed.
fn as_it_stands<R: Rack>(found: Standing<R>) -> AtRest<R>
    requires { length found.scan.disks.items < 2 ^ 32 }
    ensures slices { result.slices ≡ found.slices }
    ensures scan { result.scan ≡ found.scan }
    ensures state { result.state ≡ found.state }
    ensures on { result.on ≡ found.on }
    ensures log { result.log ≡ found.log }
    ensures pending { result.pending ≡ found.looked.pending }
    ensures damaged { result.damaged ≡ found.looked.damaged }
    ensures gone { (p d : ℕ) → names result.gone.items p ≡ true → seat_by found.state found.scan.disks.items p ≡ Some d
        → (names found.looked.gone.items p ≡ true) ⊎ IsFlagged found.scan.disks.items d }
    ensures unread { (p d : ℕ) → p < 16 → seat_by found.state found.scan.disks.items p ≡ Some d → IsFlagged found.scan.disks.items d
        → names result.gone.items p ≡ true }
{
    let gone = gone_of(&found.scan, &found.state, &found.looked.gone);
    AtRest {
        slices: found.slices,
        scan: found.scan,
        state: found.state,
        on: found.on,
        log: found.log,
        pending: found.looked.pending,
        damaged: found.looked.damaged,
        gone,
    }
}

/// The state whose drives a pending record is for: that which it brings, or else the one that stands.
fn seated_by(log: &Log, state: &State) -> State
    ensures { result ≡ unwrap_or (brought_state log.now.pending) state.now }
{
    match brought_by(log) {
        Some(brought) => brought,
        None => copy_of(state),
    }
}

/// Replays the record of a pool as it stands, and looks at the disks once more. It takes no memory.
fn replay_found<R: Rack>(found: Standing<R>, room: Scan) -> Result<AtRest<R>, Back<R, FindFault>>
    requires fit { (slices_of (tables found.slices) (R.seen (below_of found.slices))).fit }
    requires count { length found.scan.disks.items ≡ (R.seen (below_of found.slices)).disks }
    requires few { length found.scan.disks.items < 2 ^ 32 }
    requires room { length room.disks.items ≡ (R.seen (below_of found.slices)).disks }
    ensures fit { IfOk result (λ r. (slices_of (tables r.slices) (R.seen (below_of r.slices))).fit) }
    ensures few { IfOk result (λ r. length r.scan.disks.items < 2 ^ 32) }
    ensures valid { IfOk result (λ r. is_valid r.state 0 ≡ true) }
    ensures only { IfOk result (λ r. WritesOnly (R.seen (below_of found.slices)) (R.seen (below_of r.slices))
        (IsOfDrive (R.seen (below_of found.slices)) found.scan.disks.items (seated_state found.log.pending found.state))) }
    ensures replayed { IfOk result (λ r. AllTold (R.seen (below_of found.slices)) → IsLasting (R.seen (below_of found.slices))
        → IsUnfaulted (R.seen (below_of found.slices)) (R.seen (below_of r.slices))
        → AreOf (disks_of (R.seen (below_of found.slices))) (identities_of (disks_of (R.seen (below_of found.slices))) (now_in (R.seen (below_of found.slices)))) found.scan.disks.items
        → list_all is_target found.log.pending ≡ true
        → IsReplayed (R.seen (below_of found.slices)) (R.seen (below_of r.slices)) found.state (seated_state found.log.pending found.state) found.log.pending found.log.number) }
    ensures stands { IfOk result (λ r. AllTold (R.seen (below_of found.slices)) → IsLasting (R.seen (below_of found.slices))
        → IsUnfaulted (R.seen (below_of found.slices)) (R.seen (below_of r.slices))
        → StandsNow (R.seen (below_of r.slices)) r.state r.log r.pending r.damaged) }
    ensures looked { IfOk result (λ r. AllTold (R.seen (below_of found.slices)) → IsLasting (R.seen (below_of found.slices))
        → IsUnfaulted (R.seen (below_of found.slices)) (R.seen (below_of r.slices))
        → FindsAll (R.seen (below_of r.slices)) (tables r.slices) r.on.items r.log r.pending r.damaged) }
    ensures laid { IfOk result (λ r. IsLaid (R.seen (below_of r.slices)) r.scan.disks.items r.state (tables r.slices) r.on.items) }
    ensures shut { IfOk result (λ r. list_all (λ known. not known.gone) found.scan.disks.items ≡ true → found.looked.gone.items ≡ []
        → AllTold (R.seen (below_of found.slices)) → IsLasting (R.seen (below_of found.slices))
        → IsUnfaulted (R.seen (below_of found.slices)) (R.seen (below_of r.slices)) → found.log.pending ≢ []
        → AreShut (R.seen (below_of found.slices)) (R.seen (below_of r.slices)) found.scan.disks.items found.state (seated_state found.log.pending found.state) found.log.number) }
    ensures newest { IfOk result (λ r. AllTold (R.seen (below_of found.slices)) → IsLasting (R.seen (below_of found.slices))
        → IsNewest (since (R.seen (below_of found.slices)) (R.seen (below_of r.slices))) (R.seen (below_of r.slices)) r.scan.disks.items r.state) }
    ensures one { IfOk result (λ r. IsOnePool r.scan.disks.items r.state) }
    // What each stop leaves is once replayed the same, if by the drives' slices the state that stands is the one from before.
    ensures brought { IfOk result (λ r. AllTold (R.seen (below_of found.slices)) → IsLasting (R.seen (below_of found.slices))
        → IsUnfaulted (R.seen (below_of found.slices)) (R.seen (below_of r.slices)) → AreSingle (R.seen (below_of found.slices))
        → (t u : Slices) (on : List ℕ) (is_pending : Bool) → IsLaid (R.seen (below_of found.slices)) found.scan.disks.items found.state t on
        → FindsAll (R.seen (below_of found.slices)) t on found.log is_pending None
        → BringsState (R.seen (below_of found.slices)) found.scan.disks.items found.state (seated_state found.log.pending found.state) found.log on (reading (slices_of t (R.seen (below_of found.slices))))
        → AreOfDrives (R.seen (below_of found.slices)) (seat_by (seated_state found.log.pending found.state) found.scan.disks.items) u
        → state_in (sliced u (now_in (R.seen (below_of found.slices)))) ≡ Some found.state
        → KeepsReplayed (R.seen (below_of found.slices)) (R.seen (below_of r.slices)) u) }
    // What stands meanwhile is what stood, or the state that the record is for stands already; and then what the disks hold in the end.
    ensures midway { IfOk result (λ r. AllTold (R.seen (below_of found.slices)) → IsLasting (R.seen (below_of found.slices))
        → IsUnfaulted (R.seen (below_of found.slices)) (R.seen (below_of r.slices)) → AreSingle (R.seen (below_of found.slices))
        → AreOf (disks_of (R.seen (below_of found.slices))) (identities_of (disks_of (R.seen (below_of found.slices))) (now_in (R.seen (below_of found.slices)))) found.scan.disks.items
        → list_all is_target found.log.pending ≡ true
        → (t u : Slices) (on : List ℕ) (is_pending : Bool) → IsLaid (R.seen (below_of found.slices)) found.scan.disks.items found.state t on
        → FindsAll (R.seen (below_of found.slices)) t on found.log is_pending None
        → BringsState (R.seen (below_of found.slices)) found.scan.disks.items found.state (seated_state found.log.pending found.state) found.log on (reading (slices_of t (R.seen (below_of found.slices))))
        → AreOfDrives (R.seen (below_of found.slices)) (seat_by (seated_state found.log.pending found.state) found.scan.disks.items) u
        → state_in (sliced u (now_in (R.seen (below_of found.slices)))) ≡ Some found.state
        → (R.seen (below_of found.slices)).traced → Leaves (R.seen (below_of found.slices)) (R.seen (below_of r.slices))
        (λ i. StandsReplaying (disks_of (R.seen (below_of found.slices))) found.state (seated_state found.log.pending found.state) found.log.pending (now_in (R.seen (below_of found.slices))) i
        ⊎ Agree (disks_of (R.seen (below_of found.slices))) i (now_in (R.seen (below_of r.slices))))) }
    // A place counts as gone by its disk's faults, or by those that were known.
    ensures gone { IfOk result (λ r. (p d : ℕ) → names r.gone.items p ≡ true → seat_by r.state r.scan.disks.items p ≡ Some d
        → Rose ((R.seen (below_of found.slices)).faults d) ((R.seen (below_of r.slices)).faults d)
        ⊎ (IsFlagged found.scan.disks.items d ⊎ HasDisk found.scan.disks.items found.state found.looked.gone.items d)) }
    ensures unread { IfOk result (λ r. (p d : ℕ) → p < 16 → seat_by r.state r.scan.disks.items p ≡ Some d → IsFlagged r.scan.disks.items d
        → names r.gone.items p ≡ true) }
    ensures finds { IfOk result (λ r. FindsLeft (R.seen (below_of found.slices)) (R.seen (below_of r.slices)) r.scan.disks.items r.state (tables r.slices) r.on.items r.log r.pending r.damaged) }
    ensures runs { IfOk result (λ r. R.runs (below_of found.slices) (below_of r.slices)) }
    ensures back { IfErr result (λ back. WritesOnly (R.seen (below_of found.slices)) (R.seen back.rack)
        (IsOfDrive (R.seen (below_of found.slices)) found.scan.disks.items (seated_state found.log.pending found.state))) }
    ensures wrote { IfErr result (λ back. AllTold (R.seen (below_of found.slices)) → IsLasting (R.seen (below_of found.slices))
        → IsUnfaulted (R.seen (below_of found.slices)) (R.seen back.rack)
        → AreOf (disks_of (R.seen (below_of found.slices))) (identities_of (disks_of (R.seen (below_of found.slices))) (now_in (R.seen (below_of found.slices)))) found.scan.disks.items
        → list_all is_target found.log.pending ≡ true
        → IsReplayed (R.seen (below_of found.slices)) (R.seen back.rack) found.state (seated_state found.log.pending found.state) found.log.pending found.log.number) }
    ensures found { IfErr result (λ back. back.why ≢ FindFault.Memory) }
    ensures refused { IfErr result (λ back. AllTold (R.seen (below_of found.slices)) → IsLasting (R.seen (below_of found.slices))
        → IsCause (since (R.seen (below_of found.slices)) (R.seen back.rack)) (R.seen back.rack) back.why) }
    ensures returned { IfErr result (λ back. R.runs (below_of found.slices) back.rack) }
{
    let seated = seated_by(&found.log, &found.state);
    let whole = is_whole(&found.scan, &found.looked.gone);
    let done = replay_on(
        found.slices.into_inner(),
        found.log,
        &found.scan,
        &found.state,
        &seated,
        whole,
    );
    let again = match look(done.rack, room, done.log) {
        Ok(again) => again,
        Err(back) => return Err(back),
    };
    let refused = Refused {
        scan: found.scan,
        before: found.state,
        gone: found.looked.gone,
        seated,
        lost: done.lost,
    };
    let early = refused_of(&again.scan, &again.state, &refused);
    let mut rest = as_it_stands(again);
    rest.gone = both(&rest.gone, &early);
    Ok(rest)
}

/// Finds the pool on the disks of a rack and brings it to rest: replays its pending record, if it has one and no log is damaged.
/// Nothing else is written, and disks that are no drives of the pool never. Disks have fewer than 2^48 sectors.
///
/// Gates are closed where a record was replayed and no disk has refused a call. Where one has, the record stays pending on whoever
/// is left, and the next commit takes its place; its drive stands in `gone`.
pub fn bring_to_rest<R: Rack>(alloc: Global, rack: R) -> Result<AtRest<R>, Back<R, FindFault>>
    requires fit { (R.seen rack).fit }
    requires small { (d : ℕ) → d < (R.seen rack).disks → (R.seen rack).sectors d < 2 ^ 48 }
    ensures fit { IfOk result (λ r. (slices_of (tables r.slices) (R.seen (below_of r.slices))).fit) }
    ensures few { IfOk result (λ r. length r.scan.disks.items < 2 ^ 32) }
    ensures valid { IfOk result (λ r. is_valid r.state 0 ≡ true) }
    ensures only { IfOk result (λ r. WritesDrives (R.seen rack) (R.seen (below_of r.slices))) }
    // Where there is nothing to replay, nothing is written.
    ensures idle { IfOk result (λ r. AllTold (R.seen rack) → IsLasting (R.seen rack) → IsUnfaulted (R.seen rack) (R.seen (below_of r.slices))
        → IsIdle (R.seen rack) → OnlyReads (R.seen rack) (R.seen (below_of r.slices))) }
    ensures laid { IfOk result (λ r. IsLaid (R.seen (below_of r.slices)) r.scan.disks.items r.state (tables r.slices) r.on.items) }
    // Where no disk refused a call, the record is written and nothing else has changed but gates.
    ensures rests { IfOk result (λ r. AllTold (R.seen rack) → IsLasting (R.seen rack) → IsUnfaulted (R.seen rack) (R.seen (below_of r.slices))
        → RestsSo (R.seen rack) (R.seen (below_of r.slices))) }
    // So where each sector was durable and had 512 bytes each is and has, but for gates that were closed.
    ensures steady { IfOk result (λ r. AllTold (R.seen rack) → IsLasting (R.seen rack) → IsUnfaulted (R.seen rack) (R.seen (below_of r.slices))
        → AreSingle (R.seen rack) → AreSectors (R.seen rack) → AreSteady (R.seen (below_of r.slices))) }
    ensures stands { IfOk result (λ r. AllTold (R.seen rack) → IsLasting (R.seen rack) → IsUnfaulted (R.seen rack) (R.seen (below_of r.slices))
        → StandsNow (R.seen (below_of r.slices)) r.state r.log r.pending r.damaged) }
    // What the log has found of the pending record is what its slices hold still, and no place was passed over.
    ensures looked { IfOk result (λ r. AllTold (R.seen rack) → IsLasting (R.seen rack) → IsUnfaulted (R.seen rack) (R.seen (below_of r.slices))
        → FindsAll (R.seen (below_of r.slices)) (tables r.slices) r.on.items r.log r.pending r.damaged) }
    // What was read of the disks is what they hold still, and the state is the newest of it, of one pool.
    ensures newest { IfOk result (λ r. AllTold (R.seen rack) → IsLasting (R.seen rack)
        → IsNewest (since (R.seen rack) (R.seen (below_of r.slices))) (R.seen (below_of r.slices)) r.scan.disks.items r.state) }
    ensures one { IfOk result (λ r. IsOnePool r.scan.disks.items r.state) }
    ensures single { IfOk result (λ r. AllTold (R.seen rack) → IsLasting (R.seen rack) → IsUnfaulted (R.seen rack) (R.seen (below_of r.slices))
        → has_other_pool (disks_of (R.seen (below_of r.slices))) (standing_by (disks_of (R.seen (below_of r.slices))) (now_in (R.seen (below_of r.slices))) r.state) ≡ false) }
    // So where nothing is pending any more, the pool means what it meant.
    ensures means { IfOk result (λ r. AllTold (R.seen rack) → IsLasting (R.seen rack) → IsUnfaulted (R.seen rack) (R.seen (below_of r.slices))
        → r.pending ≡ false → r.damaged ≡ None
        → MeansTheSame (disks_of (R.seen rack)) (now_in (R.seen rack)) (now_in (R.seen (below_of r.slices)))) }
    // Where the logs were sound, nothing is pending any more and no log is damaged: it means what it meant.
    ensures settled { IfOk result (λ r. AllTold (R.seen rack) → IsLasting (R.seen rack) → IsUnfaulted (R.seen rack) (R.seen (below_of r.slices))
        → HasSoundLogs (disks_of (R.seen rack)) (now_in (R.seen rack)) → IsSettled (R.seen rack) (R.seen (below_of r.slices)) r.state r.pending r.damaged) }
    // And where the record brings no state, what each stop leaves gives by the drives' slices what the disks do in the end, once replayed.
    ensures keeps { IfOk result (λ r. AllTold (R.seen rack) → IsLasting (R.seen rack) → IsUnfaulted (R.seen rack) (R.seen (below_of r.slices))
        → HasSoundLogs (disks_of (R.seen rack)) (now_in (R.seen rack)) → BringsNoState (R.seen rack) → AreSingle (R.seen rack)
        → (u : Slices) → AreOfDrives (R.seen (below_of r.slices)) (seat_by r.state r.scan.disks.items) u
        → state_in (sliced u (now_in (R.seen (below_of r.slices)))) ≡ Some r.state → KeepsReplayed (R.seen rack) (R.seen (below_of r.slices)) u) }
    // And so it is whatever it brings, where by those slices the drives have the state that stood, and those that it takes in have lower gates.
    ensures brought { IfOk result (λ r. AllTold (R.seen rack) → IsLasting (R.seen rack) → IsUnfaulted (R.seen rack) (R.seen (below_of r.slices))
        → HasSoundLogs (disks_of (R.seen rack)) (now_in (R.seen rack)) → TakesLower (R.seen rack) → AreSingle (R.seen rack)
        → (u : Slices) → AreOfDrives (R.seen (below_of r.slices)) (seat_by r.state r.scan.disks.items) u
        → ((before : Stood) → standing (disks_of (R.seen rack)) (now_in (R.seen rack)) ≡ Some before → state_in (sliced u (now_in (R.seen rack))) ≡ Some before.state)
        → KeepsReplayed (R.seen rack) (R.seen (below_of r.slices)) u) }
    // What stands meanwhile is what stood, or the state that the record is for stands already; and then what the disks hold in the end.
    ensures midway { IfOk result (λ r. AllTold (R.seen rack) → IsLasting (R.seen rack) → IsUnfaulted (R.seen rack) (R.seen (below_of r.slices))
        → HasSoundLogs (disks_of (R.seen rack)) (now_in (R.seen rack)) → TakesLower (R.seen rack) → AreSingle (R.seen rack)
        → (u : Slices) → AreOfDrives (R.seen (below_of r.slices)) (seat_by r.state r.scan.disks.items) u
        → ((before : Stood) → standing (disks_of (R.seen rack)) (now_in (R.seen rack)) ≡ Some before → state_in (sliced u (now_in (R.seen rack))) ≡ Some before.state)
        → (R.seen rack).traced → Leaves (R.seen rack) (R.seen (below_of r.slices))
        (λ i. StandsMidway (disks_of (R.seen rack)) (now_in (R.seen rack)) i ⊎ Agree (disks_of (R.seen rack)) i (now_in (R.seen (below_of r.slices))))) }
    // A place counts as gone only where its disk refused a call.
    ensures gone { IfOk result (λ r. (p d : ℕ) → names r.gone.items p ≡ true → seat_by r.state r.scan.disks.items p ≡ Some d
        → Rose ((R.seen rack).faults d) ((R.seen (below_of r.slices)).faults d)) }
    // It does where its disk refused a call of the scan, so of the others all was read.
    ensures unread { IfOk result (λ r. (p d : ℕ) → p < 16 → seat_by r.state r.scan.disks.items p ≡ Some d → IsFlagged r.scan.disks.items d
        → names r.gone.items p ≡ true) }
    // What the log has found is what its slices hold, but for places whose disk refused a call.
    ensures finds { IfOk result (λ r. FindsLeft (R.seen rack) (R.seen (below_of r.slices)) r.scan.disks.items r.state (tables r.slices) r.on.items r.log r.pending r.damaged) }
    ensures runs { IfOk result (λ r. R.runs rack (below_of r.slices)) }
    ensures back { IfErr result (λ back. OnlyReads (R.seen rack) (R.seen back.rack) ⊎ WritesDrives (R.seen rack) (R.seen back.rack)) }
    ensures kept { IfErr result (λ back. AllTold (R.seen rack) → IsLasting (R.seen rack) → IsUnfaulted (R.seen rack) (R.seen back.rack)
        → IsIdle (R.seen rack) → OnlyReads (R.seen rack) (R.seen back.rack)) }
    ensures refused { IfErr result (λ back. IsRefused (R.seen rack) (R.seen back.rack) back.why) }
    // Where no disk refused a call, the meaning of images has this refusal, or two pools are there only once the record is written.
    ensures exact { IfErr result (λ back. AllTold (R.seen rack) → IsLasting (R.seen rack) → IsUnfaulted (R.seen rack) (R.seen back.rack)
        → IsMeant (R.seen rack) back.why ⊎ ((back.why ≡ FindFault.TwoPools) × IsMeant (R.seen back.rack) back.why)) }
    // And where the logs were sound too, no pool is refused once anything is written, and the meaning of images has the refusal.
    ensures found { IfErr result (λ back. AllTold (R.seen rack) → IsLasting (R.seen rack) → IsUnfaulted (R.seen rack) (R.seen back.rack)
        → HasSoundLogs (disks_of (R.seen rack)) (now_in (R.seen rack)) → OnlyReads (R.seen rack) (R.seen back.rack) × IsMeant (R.seen rack) back.why) }
    // Want of memory is found before any call to the rack.
    ensures memory { IfErr result (λ back. back.why ≡ FindFault.Memory → back.rack ≡ rack) }
    ensures returned { IfErr result (λ back. R.runs rack back.rack) }
{
    let disks = rack.disks();
    let Ok(room) = Scan::blank(alloc, disks) else {
        return Err(Back {
            rack,
            why: FindFault::Memory,
        });
    };
    let found = match stand(alloc, rack) {
        Ok(found) => found,
        Err(back) => return Err(back),
    };
    if found.log.pending_count() == 0 {
        return Ok(as_it_stands(found));
    }
    match replay_found(found, room) {
        Ok(rest) => Ok(rest),
        Err(back) => Err(back),
    }
}
