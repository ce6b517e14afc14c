//! Reads lines from a source in pieces, with constant memory.

ghost use Rattle.std.specs.Prelude.{◌≡◌, ◌≢◌, ◌+◌, ◌-◌, ◌^◌, ◌<◌, ◌≤◌, [], ◌++◌, ℕ, false, length, take, drop, slice_index, IfOk, OnErr};
ghost use Rattle.std.specs.List.{All};
ghost use Rattle.rack.specs.Seen.{Rose};
ghost use Rattle.io_ends.specs.Source.{TakesFirst};
ghost use Rattle.shr_script.specs.Reading.{kept_of, ReadsTo};
ghost use Rattle.shr_script.specs.Script.{is_line_feed};

use io_ends::{Failed, Source};
use memchr::memchr;

/// Bytes of a script that are read at most.
pub const SCRIPT_LIMIT: u64 = 1 << 32;

// Bytes taken from the source at a time, at most.
const PIECE: usize = 4096;

// Bytes of a line that are kept: a line of 1100 bytes, its carriage return, and one that shows it to be longer.
const KEPT: usize = 1102;

/// How the reading of a line ended.
#[derive(Clone, Copy, Debug, PartialEq, Eq)]
pub enum Ended {
    /// With a line feed.
    LineFeed,
    /// At the end of the input.
    Input,
    /// At a fault of the source.
    Fault,
    /// At the limit, with more bytes to come.
    Limit,
}

// Whether a byte is at hand.
#[derive(Clone, Copy, Debug, PartialEq, Eq)]
enum Filled {
    Ready,
    Empty,
    Failed,
}

// Takes the next bytes into the front of a piece, `room` of them at most.
fn take_piece<I: Source>(
    input: &mut I,
    piece: &mut [u8; PIECE],
    room: usize,
) -> Result<usize, Failed>
    requires some { 0 < room }
    requires inside { room ≤ 4096 }
    ensures size { length piece.new ≡ 4096 }
    ensures bounded { IfOk result (λ count. count ≤ room) }
    ensures taken { I.told input.old → IfOk result (λ count. TakesFirst count (I.left input.old) (I.left input.new) piece.new) }
    ensures kept { I.told input.old → OnErr result (I.left input.new ≡ I.left input.old) }
    ensures told { I.told input.old → I.told input.new }
    ensures faults { I.faults input.old ≤ I.faults input.new }
    ensures failed { OnErr result (Rose (I.faults input.old) (I.faults input.new)) }
{
    input.take(&mut piece[..room])
}

/// A reader of lines: the piece that was taken last, and the line in hand.
#[derive(Drop)]
pub struct LineReader {
    piece: [u8; PIECE],
    start: usize,
    end: usize,
    line: [u8; KEPT],
    kept: usize,
    consumed: u64,
    ghost in_order: { start ≤ end },
    ghost in_piece: { end ≤ 4096 },
    ghost in_line: { kept ≤ 1102 },
    ghost room: { length line ≡ 1102 },
    ghost size: { length piece ≡ 4096 },
}

impl LineReader {
    ghost use Rattle.shr_script.specs.Pieces.{pending, line_of, taken_by};

    /// A reader that has read nothing.
    pub fn new() -> LineReader
        ensures pending { pending result ≡ [] }
        ensures consumed { result.consumed ≡ 0 }
        ensures taken { taken_by result ≡ 0 }
    {
        LineReader {
            piece: [0; PIECE],
            start: 0,
            end: 0,
            line: [0; KEPT],
            kept: 0,
            consumed: 0,
        }
    }

    /// The line that was read last, without its line feed. Of a line that is too long, its first bytes.
    pub fn line(&self) -> &[u8]
        ensures { result.now ≡ line_of self.now }
    {
        &self.line[..self.kept]
    }

    /// Reads on to the end of a line or of the input, or until `limit` bytes have been read in all.
    ///
    /// At the limit one byte more has been taken from the input, else none.
    pub fn next<I: Source>(&mut self, input: &mut I, limit: u64) -> Ended
        requires { taken_by self.old ≤ limit }
        ensures read { I.told input.old → ReadsTo limit result (pending self.old ++ I.left input.old) (pending self.new ++ I.left input.new) (line_of self.new) self.old.consumed self.new.consumed }
        ensures emptied { result ≡ Ended.Fault → pending self.new ≡ [] }
        ensures told { I.told input.old → I.told input.new }
        ensures faults { I.faults input.old ≤ I.faults input.new }
        ensures fault { result ≡ Ended.Fault → Rose (I.faults input.old) (I.faults input.new) }
        ensures within { result ≢ Ended.Limit → taken_by self.new ≤ limit }
        ensures past { result ≡ Ended.Limit → taken_by self.new ≡ limit + 1 }
        ensures progress { result ≡ Ended.LineFeed → self.old.consumed < self.new.consumed }
        ensures grows { self.old.consumed ≤ self.new.consumed }
    {
        self.kept = 0;
        'spans: loop {
            match self.fill(input, limit) {
                Filled::Failed => return Ended::Fault,
                Filled::Empty => return Ended::Input,
                Filled::Ready => {}
            }
            if self.consumed == limit {
                return Ended::Limit;
            }
            let count = self.before_feed();
            self.keep(count);
            if self.start < self.end {
                self.skip();
                return Ended::LineFeed;
            }
        }
    }

    // How long the next piece is at most: it ends at the limit, or one byte past it.
    fn room(&self, limit: u64) -> usize
        requires { self.now.consumed ≤ limit }
        ensures some { 0 < result }
        ensures inside { result ≤ 4096 }
        ensures within { self.now.consumed < limit → self.now.consumed + result ≤ limit }
        ensures past { limit ≤ self.now.consumed → result ≡ 1 }
    {
        let left = limit - self.consumed;
        if left == 0 {
            1
        } else if left < PIECE as u64 {
            left as usize
        } else {
            PIECE
        }
    }

    // Takes a piece where no byte is at hand.
    fn fill<I: Source>(&mut self, input: &mut I, limit: u64) -> Filled
        requires { taken_by self.old ≤ limit }
        ensures rest { I.told input.old → pending self.new ++ I.left input.new ≡ pending self.old ++ I.left input.old }
        ensures ready { result ≡ Filled.Ready → self.new.start < self.new.end }
        ensures empty { result ≡ Filled.Empty → I.told input.old → pending self.new ++ I.left input.new ≡ [] }
        ensures emptied { result ≡ Filled.Failed → pending self.new ≡ [] }
        ensures line { line_of self.new ≡ line_of self.old }
        ensures kept { self.new.kept ≡ self.old.kept }
        ensures consumed { self.new.consumed ≡ self.old.consumed }
        ensures within { self.old.consumed < limit → taken_by self.new ≤ limit }
        ensures stopped { result ≢ Filled.Ready → taken_by self.new ≤ limit }
        ensures past { result ≡ Filled.Ready → limit ≤ self.old.consumed → taken_by self.new ≡ limit + 1 }
        ensures told { I.told input.old → I.told input.new }
        ensures faults { I.faults input.old ≤ I.faults input.new }
        ensures fault { result ≡ Filled.Failed → Rose (I.faults input.old) (I.faults input.new) }
    {
        if self.start < self.end {
            return Filled::Ready;
        }
        self.start = 0;
        self.end = 0;
        let room = self.room(limit);
        match take_piece(input, &mut self.piece, room) {
            Err(_) => Filled::Failed,
            Ok(0) => Filled::Empty,
            Ok(count) => {
                self.end = count;
                Filled::Ready
            }
        }
    }

    // How many bytes at hand stand before the first line feed.
    fn before_feed(&self) -> usize
        ensures inside { result ≤ length (pending self.now) }
        ensures no_feed { All (λ b. is_line_feed b ≡ false) (take result (pending self.now)) }
        ensures feed { result < length (pending self.now) → slice_index (pending self.now) result ≡ 10 }
    {
        let bytes = &self.piece[self.start..self.end];
        match memchr(b'\n', bytes) {
            Some(place) => place,
            None => bytes.len(),
        }
    }

    // Moves over the next byte at hand.
    fn skip(&mut self)
        requires ready { self.old.start < self.old.end }
        requires room { self.old.consumed < 2 ^ 64 - 1 }
        ensures pending { pending self.new ≡ drop 1 (pending self.old) }
        ensures line { line_of self.new ≡ line_of self.old }
        ensures consumed { self.new.consumed ≡ self.old.consumed + 1 }
        ensures taken { taken_by self.new ≡ taken_by self.old }
    {
        self.start += 1;
        self.consumed += 1;
    }

    // Adds the next bytes at hand to the line, as far as it has room, and moves over them.
    fn keep(&mut self, count: usize)
        requires there { count ≤ length (pending self.old) }
        requires room { taken_by self.old < 2 ^ 64 }
        ensures line { line_of self.new ≡ kept_of (line_of self.old ++ take count (pending self.old)) }
        ensures pending { pending self.new ≡ drop count (pending self.old) }
        ensures left { self.new.end - self.new.start ≡ length (pending self.old) - count }
        ensures consumed { self.new.consumed ≡ self.old.consumed + count }
        ensures taken { taken_by self.new ≡ taken_by self.old }
    {
        let kept = count.min(KEPT - self.kept);
        copy_part(&self.piece, self.start, &mut self.line, self.kept, kept);
        self.kept += kept;
        self.start += count;
        self.consumed += count as u64;
    }
}

// Copies so many bytes of a piece, from a place on, into a line, from another place on.
fn copy_part(piece: &[u8; PIECE], from: usize, line: &mut [u8; KEPT], to: usize, count: usize)
    requires source { from + count ≤ 4096 }
    requires target { to + count ≤ 1102 }
    ensures { line.new ≡ take to line.old ++ take count (drop from piece.now) ++ drop (to + count) line.old }
{
    line[to..to + count].copy_from_slice(&piece[from..from + count]);
}
