//! A line of a script as a command: words parted by one space.

ghost use Rattle.std.specs.Prelude.{◌≡◌, ◌≤◌, ◌%◌, ◌∷◌, ◌++◌, ℕ, List, true, length, drop, position, IsErr};
ghost use Rattle.std.specs.Bool.{OnTrue, OnFalse};
ghost use Rattle.std.specs.Char.{is_ascii_digit};
ghost use Rattle.std.specs.List.{slice_split, list_all};
ghost use Rattle.std.specs.Str.Parse.{digits_value};
ghost use Rattle.hex.specs.Hex.{decode_of};
ghost use Rattle.std.specs.Option.{option_copied};
ghost use Rattle.std.specs.Result.{result_transpose};
ghost use Rattle.shr_script.specs.Line.{is_space, command_of, only_number as number_alone, read_of, lose_of, step_of, write_words, replace_words, add_words, fill_words, fill_of, alone as stands_alone, words_line, line_of, number_of as number_in, sector_of as sector_in, byte_of as byte_in};
ghost use Rattle.shr_script.specs.Script.{without_return as line_without_return};
ghost use Rattle.shr_script.specs.Words.{words_after};

use crate::{Command, ImageName, LineFault};
use memchr::memchr;

/// The longest line that is read as a command, in bytes.
pub const LONGEST: usize = 1100;

/// The command of a line without its line end, or why it is none; an empty line says nothing.
pub fn next_line(line: &[u8]) -> Result<Option<Command>, LineFault>
    ensures { result_transpose result ≡ line_of line.now }
{
    if line.is_empty() {
        return Ok(None);
    }
    command_in(line).map(Some)
}

/// A line without the carriage return at its end.
pub fn without_return(line: &[u8]) -> &[u8]
    ensures { result.now ≡ line_without_return line.now }
{
    let count = line.len();
    if count == 0 {
        return line;
    }
    if line[count - 1] != b'\r' {
        return line;
    }
    &line[..count - 1]
}

// The command of a line that isn't empty.
fn command_in(line: &[u8]) -> Result<Command, LineFault>
    ensures { result ≡ words_line (length line.now) (slice_split is_space line.now) }
{
    if line.len() > LONGEST {
        return Err(LineFault::Syntax);
    }
    let (first, rest) = cut_word(line);
    command_of_word(first, rest)
}

// The bytes before the first space, and those after it where there is one.
fn cut_word(bytes: &[u8]) -> (&[u8], Option<&[u8]>)
    ensures { slice_split is_space bytes.now ≡ result.0.now ∷ words_after (option_copied result.1) }
{
    match first_space(bytes) {
        Some(end) => (&bytes[..end], Some(&bytes[end + 1..])),
        None => (bytes, None),
    }
}

// The place of the first space.
fn first_space(bytes: &[u8]) -> Option<usize>
    ensures { result ≡ position is_space bytes.now }
{
    memchr(b' ', bytes)
}

// The command of a line that isn't too long, by its first word.
fn command_of_word(first: &[u8], rest: Option<&[u8]>) -> Result<Command, LineFault>
    ensures { result ≡ command_of first.now (words_after (option_copied rest.entry)) }
{
    if first == b"read".as_slice() {
        read_command(only_number(rest))
    } else if first == b"write".as_slice() {
        write_command(rest)
    } else if first == b"fill".as_slice() {
        fill_command(rest)
    } else if first == b"flush".as_slice() {
        alone(Command::Flush, rest)
    } else if first == b"size".as_slice() {
        alone(Command::Size, rest)
    } else if first == b"lose".as_slice() {
        lose_command(only_number(rest))
    } else if first == b"replace".as_slice() {
        replace_command(rest)
    } else if first == b"add".as_slice() {
        add_command(rest)
    } else if first == b"step".as_slice() {
        step_command(only_number(rest))
    } else if first == b"status".as_slice() {
        alone(Command::Status, rest)
    } else if first == b"quit".as_slice() {
        alone(Command::Quit, rest)
    } else {
        Err(LineFault::Syntax)
    }
}

// The command of a word that stands alone.
fn alone(command: Command, rest: Option<&[u8]>) -> Result<Command, LineFault>
    ensures { result ≡ stands_alone command (words_after (option_copied rest.entry)) }
{
    match rest {
        None => Ok(command),
        Some(_) => Err(LineFault::Syntax),
    }
}

// The number of a word that stands alone.
fn only_number(rest: Option<&[u8]>) -> Option<u64>
    ensures { result ≡ number_alone (words_after (option_copied rest.entry)) }
{
    let Some(words) = rest else {
        return None;
    };
    let (word, more) = cut_word(words);
    match more {
        Some(_) => None,
        None => number_of(word),
    }
}

// `read S`
fn read_command(sector: Option<u64>) -> Result<Command, LineFault>
    ensures { result ≡ read_of sector }
{
    match sector {
        Some(sector) => Ok(Command::Read { sector }),
        None => Err(LineFault::Syntax),
    }
}

// `lose D`
fn lose_command(place: Option<u64>) -> Result<Command, LineFault>
    ensures { result ≡ lose_of place }
{
    match place {
        Some(place) => Ok(Command::Lose { place }),
        None => Err(LineFault::Syntax),
    }
}

// `replace D NAME`
fn replace_command(rest: Option<&[u8]>) -> Result<Command, LineFault>
    ensures { result ≡ replace_words (words_after (option_copied rest.entry)) }
{
    let Some(words) = rest else {
        return Err(LineFault::Syntax);
    };
    let (word, rest) = cut_word(words);
    let Some(words) = rest else {
        return Err(LineFault::Syntax);
    };
    let (name, more) = cut_word(words);
    match (more, number_of(word), ImageName::of(name)) {
        (Some(_), _, _) => Err(LineFault::Syntax),
        (None, None, _) => Err(LineFault::Syntax),
        (None, Some(_), None) => Err(LineFault::Syntax),
        (None, Some(place), Some(name)) => Ok(Command::Replace { place, name }),
    }
}

// `add NAME`
fn add_command(rest: Option<&[u8]>) -> Result<Command, LineFault>
    ensures { result ≡ add_words (words_after (option_copied rest.entry)) }
{
    let Some(words) = rest else {
        return Err(LineFault::Syntax);
    };
    let (name, more) = cut_word(words);
    match (more, ImageName::of(name)) {
        (Some(_), _) => Err(LineFault::Syntax),
        (None, None) => Err(LineFault::Syntax),
        (None, Some(name)) => Ok(Command::Add { name }),
    }
}

// `step N`
fn step_command(count: Option<u64>) -> Result<Command, LineFault>
    ensures { result ≡ step_of count }
{
    match count {
        Some(count) => Ok(Command::Step { count }),
        None => Err(LineFault::Syntax),
    }
}

// `write S HEX`
fn write_command(rest: Option<&[u8]>) -> Result<Command, LineFault>
    ensures { result ≡ write_words (words_after (option_copied rest.entry)) }
{
    let Some(words) = rest else {
        return Err(LineFault::Syntax);
    };
    let (word, rest) = cut_word(words);
    let Some(words) = rest else {
        return Err(LineFault::Syntax);
    };
    let (digits, more) = cut_word(words);
    match (more, number_of(word), sector_of(digits)) {
        (Some(_), _, _) => Err(LineFault::Syntax),
        (None, None, _) => Err(LineFault::Syntax),
        (None, Some(_), None) => Err(LineFault::Syntax),
        (None, Some(sector), Some(bytes)) => Ok(Command::Write { sector, bytes }),
    }
}

// `fill S N XX`
fn fill_command(rest: Option<&[u8]>) -> Result<Command, LineFault>
    ensures { result ≡ fill_words (words_after (option_copied rest.entry)) }
{
    let Some(words) = rest else {
        return Err(LineFault::Syntax);
    };
    let (sector, rest) = cut_word(words);
    let Some(words) = rest else {
        return Err(LineFault::Syntax);
    };
    let (count, rest) = cut_word(words);
    let Some(words) = rest else {
        return Err(LineFault::Syntax);
    };
    let (digits, more) = cut_word(words);
    match more {
        Some(_) => Err(LineFault::Syntax),
        None => filling(number_of(sector), number_of(count), byte_of(digits)),
    }
}

// The command of the parts of `fill S N XX`, where each of them is one.
fn filling(sector: Option<u64>, count: Option<u64>, byte: Option<u8>) -> Result<Command, LineFault>
    ensures { result ≡ fill_of sector count byte }
{
    match (sector, count, byte) {
        (Some(sector), Some(count), Some(byte)) => Ok(Command::Fill {
            sector,
            count,
            byte,
        }),
        _ => Err(LineFault::Syntax),
    }
}

/// One to twenty decimal digits with a value below 2^64.
pub fn number_of(word: &[u8]) -> Option<u64>
    ensures { result ≡ number_in word.now }
{
    if word.is_empty() || word.len() > 20 || !are_digits(word) {
        return None;
    }
    let value = value_of_digits(word);
    if value <= u128::from(u64::MAX) {
        Some(value as u64)
    } else {
        None
    }
}

// Each byte is a decimal digit.
fn are_digits(word: &[u8]) -> bool
    ensures { result ≡ list_all is_ascii_digit word.now }
{
    word.iter().all(|byte| byte.is_ascii_digit())
}

// The number that decimal digits write.
fn value_of_digits(word: &[u8]) -> u128
    requires digits { list_all is_ascii_digit word.now ≡ true }
    requires short { length word.now ≤ 20 }
    ensures { result ≡ digits_value 10 word.now }
{
    let mut value: u128 = 0;
    for digit in word {
        value = value * 10 + u128::from(*digit - b'0');
    }
    value
}

// 2 to 1024 hexadecimal digits, an even number, as a sector filled up with zeros.
fn sector_of(digits: &[u8]) -> Option<[u8; 512]>
    ensures { result ≡ sector_in digits.now }
{
    if digits.len() < 2 || digits.len() > 1024 || digits.len() % 2 == 1 {
        return None;
    }
    let mut sector = [0; 512];
    if !decode_front(digits, &mut sector) {
        return None;
    }
    Some(sector)
}

// Two hexadecimal digits, as a byte.
fn byte_of(digits: &[u8]) -> Option<u8>
    ensures { result ≡ byte_in digits.now }
{
    if digits.len() != 2 {
        return None;
    }
    let mut byte = [0; 1];
    match hex::decode_to_slice(digits, &mut byte) {
        Ok(()) => Some(byte[0]),
        Err(_) => None,
    }
}

// Decodes digits into the front of a sector; false where one is no hexadecimal digit.
fn decode_front(digits: &[u8], sector: &mut [u8; 512]) -> bool
    requires short { length digits.now ≤ 1024 }
    requires even { length digits.now % 2 ≡ 0 }
    ensures decoded { OnTrue result ((bytes : List ℕ) × (decode_of digits.now ≡ Ok bytes) × (sector.new ≡ bytes ++ drop (length bytes) sector.old)) }
    ensures refused { OnFalse result (IsErr (decode_of digits.now)) }
{
    let count = digits.len() / 2;
    match hex::decode_to_slice(digits, &mut sector[..count]) {
        Ok(()) => true,
        Err(_) => false,
    }
}
