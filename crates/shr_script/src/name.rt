//! Names of images in a script.

ghost use Rattle.std.specs.Prelude.{◌≡◌, ◌≤◌, IsUtf8, length};
ghost use Rattle.std.specs.List.{list_all};
ghost use Rattle.std.specs.Str.{chars};
ghost use Rattle.shr_script.specs.Names.{is_control as is_control_character, is_plain, name_of, plain_of};

use arrayvec::ArrayString;
use std::marker::Model;
use std::str;

/// The longest name, in bytes.
pub const NAME_ROOM: usize = 255;

/// The name of an image: 1 to 255 bytes of UTF-8 without control characters. It takes no memory of its own.
#[derive(Debug, Drop)]
pub struct ImageName {
    text: ArrayString<NAME_ROOM>,
}

impl Model for ImageName {
    ghost use Rattle.std.specs.Prelude.{List, ℕ};

    ghost Value = { List ℕ };

    ghost view = { λ n. n.text.bytes };
}

impl ImageName {
    /// The name that a word of a line is.
    pub fn of(word: &[u8]) -> Option<ImageName>
        ensures { result ≡ name_of word.now }
    {
        if word.is_empty() || word.len() > NAME_ROOM {
            return None;
        }
        match str::from_utf8(word) {
            Ok(text) => name_in(text),
            Err(_) => None,
        }
    }

    /// Its text.
    pub fn as_str(&self) -> &str
        ensures { result.now ≡ self.now }
    {
        self.text.as_str()
    }
}

// The name whose characters these are.
fn name_in(text: &str) -> Option<ImageName>
    requires { length text.now ≤ 255 }
    ensures { result ≡ plain_of text.now }
{
    if !are_plain(text) {
        return None;
    }
    match ArrayString::from(text) {
        Ok(text) => Some(ImageName { text }),
        Err(_) => unreachable!(),
    }
}

// Each character of a text is no control character.
fn are_plain(text: &str) -> bool
    ensures { result ≡ list_all is_plain (chars text.now) }
{
    text.chars().all(|character| !is_control(character))
}

// A character is a control character.
fn is_control(character: char) -> bool
    ensures { result ≡ is_control_character character }
{
    let code = character as u32;
    code < 32 || (127 <= code && code < 160)
}
