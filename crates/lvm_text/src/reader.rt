//! Reading a text's words, each where the grammar has it.

ghost use Rattle.lvm_text.specs.Words.{
  GoesOn,
  Gives,
  body_at,
  by_turn,
  first_value_at,
  item_at,
  list_closed,
  may_end,
  past_value,
  separator_at,
  value_at,
  words_of,
};
ghost use Rattle.std.specs.Prelude.{◌+◌, ◌<◌, ◌^◌, ◌≡◌, ◌≤◌, ◌∷◌, IfOk, length};

use crate::lexer::{digit, in_name, integer_of, name_length, past_blanks_of, string_of};
use crate::stop::Stop;
use crate::words::{Place, Turn, Word};
use rack::Name;
use std::alloc::Global;

/// Where a section's name may be followed by another section: at most eight are open.
const DEEPEST: usize = 8;

/// A word, the place behind it, and the bytes that are left.
type Found<'a> = Result<(Word, Place, &'a [u8]), Stop>;

/// The words of a text.
pub(crate) fn words(alloc: Global, text: &[u8]) -> Result<Vec<Word>, Stop>
    ensures { Gives (λ words. words.items) result (words_of text.now) }
{
    let mut words = Vec::new(alloc);
    let mut place = Place {
        sections: 0,
        lists: 0,
        turn: Turn::Item,
    };
    let mut rest = past_blanks_of(text);
    while let Some((byte, after)) = rest.split_first() {
        if *byte == 0 {
            break;
        }
        let (word, next, behind) = word_of(alloc, place, *byte, rest, after)?;
        words.push(word)?;
        place = next;
        rest = past_blanks_of(behind);
    }
    if !ends(place) {
        return Err(Stop::Left(rest.len()));
    }
    Ok(words)
}

/// Whether a text may end there.
fn ends(place: Place) -> bool
    ensures { result ≡ may_end place }
{
    match place.turn {
        Turn::Item => place.sections == 0,
        Turn::Body | Turn::Value | Turn::FirstValue | Turn::Separator => false,
    }
}

/// The name of an item, or the end of a section.
#[tactic(auto, unfolding(crate::specs::Words::item_at))]
fn item_of<'a>(alloc: Global, place: Place, byte: u8, bytes: &'a [u8], after: &'a [u8]) -> Found<'a>
    requires { bytes.now ≡ byte ∷ after.now }
    ensures word { Gives (λ x. (x.0, x.1, x.2.now)) result (item_at place byte after.now) }
    ensures goes_on { IfOk result (λ x. GoesOn place bytes.now x.1 x.2.now) }
{
    if in_name(byte) {
        let (name, rest) = bytes.split_at(name_length(bytes));
        let place = Place {
            turn: Turn::Body,
            ..place
        };
        return Ok((Word::Name(Name::of(alloc, name)?), place, rest));
    }
    if byte == b'}' && 0 < place.sections {
        let place = Place {
            sections: place.sections - 1,
            turn: Turn::Item,
            ..place
        };
        return Ok((Word::Close, place, after));
    }
    Err(Stop::Left(bytes.len()))
}

/// What follows a name.
#[tactic(auto, unfolding(crate::specs::Words::body_at))]
fn body_of<'a>(place: Place, byte: u8, bytes: &'a [u8], after: &'a [u8]) -> Found<'a>
    requires { bytes.now ≡ byte ∷ after.now }
    ensures word { Gives (λ x. (x.0, x.1, x.2.now)) result (body_at place byte after.now) }
    ensures goes_on { IfOk result (λ x. GoesOn place bytes.now x.1 x.2.now) }
{
    if byte == b'=' {
        let place = Place {
            turn: Turn::Value,
            ..place
        };
        return Ok((Word::Equals, place, after));
    }
    if byte == b'{' && place.sections < DEEPEST {
        let place = Place {
            sections: place.sections + 1,
            turn: Turn::Item,
            ..place
        };
        return Ok((Word::Open, place, after));
    }
    Err(Stop::Left(bytes.len()))
}

/// The place behind a value.
fn behind_value(place: Place) -> Place
    ensures { result ≡ past_value place }
{
    Place {
        turn: if place.lists == 0 {
            Turn::Item
        } else {
            Turn::Separator
        },
        ..place
    }
}

/// An integer, a string, or the start of a list.
#[tactic(auto, unfolding(crate::specs::Words::value_at))]
fn value_of<'a>(
    alloc: Global,
    place: Place,
    byte: u8,
    bytes: &'a [u8],
    after: &'a [u8],
) -> Found<'a>
    requires bytes { bytes.now ≡ byte ∷ after.now }
    requires room { place.lists + 1 < 2 ^ 64 }
    ensures word { Gives (λ x. (x.0, x.1, x.2.now)) result (value_at place byte after.now) }
    ensures goes_on { IfOk result (λ x. GoesOn place bytes.now x.1 x.2.now) }
{
    if digit(byte) || byte == b'-' {
        let (value, rest) = integer_of(bytes)?;
        return Ok((Word::Number(value), behind_value(place), rest));
    }
    if byte == b'"' {
        let (text, rest) = string_of(alloc, after)?;
        return Ok((Word::Text(text), behind_value(place), rest));
    }
    if byte == b'[' {
        let place = Place {
            lists: place.lists + 1,
            turn: Turn::FirstValue,
            ..place
        };
        return Ok((Word::ListOpen, place, after));
    }
    Err(Stop::Left(bytes.len()))
}

/// A value, or the end of the empty list.
#[tactic(auto, unfolding(crate::specs::Words::first_value_at))]
fn first_value_of<'a>(
    alloc: Global,
    place: Place,
    byte: u8,
    bytes: &'a [u8],
    after: &'a [u8],
) -> Found<'a>
    requires bytes { bytes.now ≡ byte ∷ after.now }
    requires room { place.lists + 1 < 2 ^ 64 }
    ensures word { Gives (λ x. (x.0, x.1, x.2.now)) result (first_value_at place byte after.now) }
    ensures goes_on { IfOk result (λ x. GoesOn place bytes.now x.1 x.2.now) }
{
    if byte == b']' {
        return Ok((Word::ListClose, behind_list(place), after));
    }
    value_of(alloc, place, byte, bytes, after)
}

/// The place behind the end of a list.
fn behind_list(place: Place) -> Place
    ensures { result ≡ list_closed place }
{
    behind_value(Place {
        lists: place.lists.saturating_sub(1),
        ..place
    })
}

/// What follows a value in a list.
#[tactic(auto, unfolding(crate::specs::Words::separator_at))]
fn separator_of<'a>(place: Place, byte: u8, bytes: &'a [u8], after: &'a [u8]) -> Found<'a>
    requires { bytes.now ≡ byte ∷ after.now }
    ensures word { Gives (λ x. (x.0, x.1, x.2.now)) result (separator_at place byte after.now) }
    ensures goes_on { IfOk result (λ x. GoesOn place bytes.now x.1 x.2.now) }
{
    if byte == b',' {
        let place = Place {
            turn: Turn::Value,
            ..place
        };
        return Ok((Word::Comma, place, after));
    }
    if byte == b']' {
        return Ok((Word::ListClose, behind_list(place), after));
    }
    Err(Stop::Left(bytes.len()))
}

/// The word that begins with this byte, as the place wants it.
fn word_of<'a>(alloc: Global, place: Place, byte: u8, bytes: &'a [u8], after: &'a [u8]) -> Found<'a>
    requires bytes { bytes.now ≡ byte ∷ after.now }
    requires room { place.lists + 1 < 2 ^ 64 }
    ensures word { Gives (λ x. (x.0, x.1, x.2.now)) result (by_turn place.turn place byte after.now) }
    ensures goes_on { IfOk result (λ x. GoesOn place bytes.now x.1 x.2.now) }
{
    match place.turn {
        Turn::Item => item_of(alloc, place, byte, bytes, after),
        Turn::Body => body_of(place, byte, bytes, after),
        Turn::Value => value_of(alloc, place, byte, bytes, after),
        Turn::FirstValue => first_value_of(alloc, place, byte, bytes, after),
        Turn::Separator => separator_of(place, byte, bytes, after),
    }
}
