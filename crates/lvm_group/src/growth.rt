//! What a volume's arrays are to have more, and the runs of the grown volume.

ghost use Rattle.std.specs.Prelude.{◌≡◌, ◌<◌, ◌≤◌, ◌+◌, ◌*◌, ◌++◌, ◌∷◌, ◌^◌, [], ℕ, List, IsTrue, length, vec_capacity, vec_len};
ghost use Rattle.std.specs.List.{AllByRecursion, list_all};
ghost use Rattle.lvm_group.specs.Runs.{extents_of};
ghost use Rattle.lvm_group.specs.Growth.{
  AreBelow,
  adjoins,
  are_joined,
  behind_runs,
  fits,
  grown,
  is_within,
  pieces,
  reach,
  started,
};

use crate::profile::MOST_SEGMENTS;
use crate::runs::Run;
use arrayvec::ArrayVec;

/// Extents that an array is to have more.
#[derive(Clone, Copy, Debug, Default, PartialEq, Eq)]
pub(crate) struct Piece {
    /// The number of the array.
    pub array: u32,
    /// The array's extent that has the first one.
    pub first: u64,
    /// How many extents it has.
    pub count: u64,
}

/// One past the last extent that an array has in runs.
#[tactic(auto, unfolding(crate::specs::Growth::reach))]
fn reach(runs: &[Run], array: u32) -> u128
    ensures { result ≡ reach array runs.now }
{
    let mut end = 0u128;
    let mut rest = runs;
    while let Some((run, after)) = rest.split_first() {
        if run.array == array {
            end = end.max(u128::from(run.first) + u128::from(run.count));
        }
        rest = after;
    }
    end
}

/// Whether a run has an extent, and ends within its array's number.
fn is_within(numbers: &[u64], run: &Run) -> bool
    ensures { result ≡ is_within numbers.now run.now }
{
    match numbers.get(run.array as usize) {
        Some(number) => {
            run.count > 0 && u128::from(run.first) + u128::from(run.count) <= u128::from(*number)
        }
        None => false,
    }
}

/// Whether all do.
fn are_within(numbers: &[u64], runs: &[Run]) -> bool
    ensures { result ≡ list_all (is_within numbers.now) runs.now }
{
    let mut rest = runs;
    while let Some((run, after)) = rest.split_first() {
        if !is_within(numbers, run) {
            return false;
        }
        rest = after;
    }
    true
}

/// What the arrays are to have more.
#[tactic(auto, unfolding(crate::specs::Growth::pieces))]
fn pieces(runs: &[Run], numbers: &[u64]) -> ArrayVec<Piece, 16>
    requires { length numbers.now ≤ 16 }
    ensures { result.items ≡ pieces 0 runs.now numbers.now }
{
    let mut found = ArrayVec::new();
    let mut array = 0u32;
    let mut rest = numbers;
    while let Some((number, after)) = rest.split_first() {
        let end = reach(runs, array);
        if end < u128::from(*number) {
            let first = end as u64;
            found.push(Piece {
                array,
                first,
                count: number - first,
            });
        }
        array += 1;
        rest = after;
    }
    found
}

/// Whether a piece goes on where a run ends.
fn adjoins(run: &Run, piece: &Piece) -> bool
    ensures { result ≡ adjoins run.now piece.now }
{
    run.array == piece.array
        && u128::from(run.first) + u128::from(run.count) == u128::from(piece.first)
}

/// Whether the first of some pieces goes on where the last of some runs ends.
fn are_joined(runs: &[Run], pieces: &[Piece]) -> bool
    ensures { result ≡ are_joined runs.now pieces.now }
{
    let Some((run, _)) = runs.split_last() else {
        return false;
    };
    let Some((piece, _)) = pieces.split_first() else {
        return false;
    };
    adjoins(run, piece)
}

/// Whether a volume of these runs can grow to these numbers of extents of its arrays.
#[tactic(auto, unfolding(crate::specs::Growth::fits))]
pub(crate) fn fits(runs: &[Run], numbers: &[u64]) -> bool
    requires few { length numbers.now ≤ 16 }
    requires bounded { length runs.now < 2 ^ 32 }
    ensures { result ≡ fits runs.now numbers.now }
{
    if !are_within(numbers, runs) {
        return false;
    }
    let more = pieces(runs, numbers);
    if are_joined(runs, more.as_slice()) {
        runs.len() + more.len() <= MOST_SEGMENTS + 1
    } else {
        runs.len() + more.len() <= MOST_SEGMENTS
    }
}

/// Appends a run that there is room for.
fn add(into: &mut Vec<Run>, run: Run)
    requires room { vec_len into.old < vec_capacity into.old }
    ensures items { into.new.items ≡ into.old.items ++ run ∷ [] }
    ensures room { vec_capacity into.old ≤ vec_capacity into.new }
{
    let _ = into.push(run);
}

/// Has some runs alone, that there is room for.
pub(crate) fn copy(into: &mut Vec<Run>, runs: &[Run])
    requires room { length runs.now ≤ vec_capacity into.old }
    ensures items { into.new.items ≡ runs.now }
    ensures room { vec_capacity into.old ≤ vec_capacity into.new }
{
    into.clear();
    let _ = into.extend_from_slice(runs);
}

/// Appends pieces as runs, from an extent of the volume on. There is room for them.
#[tactic(auto, unfolding(crate::specs::Growth::started))]
fn append(into: &mut Vec<Run>, start: u64, pieces: &[Piece])
    requires room { length into.old.items + length pieces.now ≤ vec_capacity into.old }
    requires bounded { start + 2 ^ 45 * length pieces.now < 2 ^ 63 }
    requires small { AllByRecursion (λ piece. piece.first + piece.count < 2 ^ 45) pieces.now }
    ensures items { into.new.items ≡ into.old.items ++ started start pieces.now }
    ensures room { vec_capacity into.old ≤ vec_capacity into.new }
{
    let mut at = start;
    let mut rest = pieces;
    while let Some((piece, after)) = rest.split_first() {
        add(
            into,
            Run {
                start: at,
                count: piece.count,
                array: piece.array,
                first: piece.first,
            },
        );
        at += piece.count;
        rest = after;
    }
}

/// Runs of which the last one goes on with the first piece, and the other pieces behind them.
fn put_joined(runs: &[Run], start: u64, pieces: &[Piece], into: &mut Vec<Run>)
    requires bounded { start + 2 ^ 45 * length pieces.now < 2 ^ 63 }
    requires small { AllByRecursion (λ piece. piece.first + piece.count < 2 ^ 45) pieces.now }
    requires room { length (behind_runs start runs.now pieces.now) ≤ vec_capacity into.old }
    requires joined { IsTrue (are_joined runs.now pieces.now) }
    ensures items { into.new.items ≡ behind_runs start runs.now pieces.now }
    ensures room { vec_capacity into.old ≤ vec_capacity into.new }
{
    let Some((run, front)) = runs.split_last() else {
        return;
    };
    let Some((piece, others)) = pieces.split_first() else {
        return;
    };
    copy(into, front);
    add(
        into,
        Run {
            start: run.start,
            count: run.count + piece.count,
            array: run.array,
            first: run.first,
        },
    );
    append(into, start + piece.count, others);
}

/// Runs and pieces behind them, over what a list had that has room for them.
fn put_behind(runs: &[Run], start: u64, pieces: &[Piece], into: &mut Vec<Run>)
    requires bounded { start + 2 ^ 45 * length pieces.now < 2 ^ 63 }
    requires small { AllByRecursion (λ piece. piece.first + piece.count < 2 ^ 45) pieces.now }
    requires room { length (behind_runs start runs.now pieces.now) ≤ vec_capacity into.old }
    ensures items { into.new.items ≡ behind_runs start runs.now pieces.now }
    ensures room { vec_capacity into.old ≤ vec_capacity into.new }
{
    if are_joined(runs, pieces) {
        put_joined(runs, start, pieces, into);
    } else {
        copy(into, runs);
        append(into, start, pieces);
    }
}

/// The runs of the grown volume, over what a list had that has room for as many as a text may have.
/// The volume has so many extents now.
pub(crate) fn grow(runs: &[Run], extents: u64, numbers: &[u64], into: &mut Vec<Run>)
    requires counted { extents ≡ extents_of runs.now }
    requires few { length numbers.now ≤ 16 }
    requires below { AreBelow numbers.now }
    requires bounded { extents < 2 ^ 52 }
    requires fits { IsTrue (fits runs.now numbers.now) }
    requires room { 1024 ≤ vec_capacity into.old }
    ensures items { into.new.items ≡ grown runs.now numbers.now }
    ensures room { vec_capacity into.old ≤ vec_capacity into.new }
{
    let more = pieces(runs, numbers);
    put_behind(runs, extents, more.as_slice(), into);
}
