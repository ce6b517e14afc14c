//! The words after `layout`.

ghost use Rattle.std.specs.Prelude.{◌≡◌, ◌≤◌, ◌<◌, ◌^◌, All, length, map, string_bytes, IfSome, filter_map, is_some, true};
ghost use Rattle.std.specs.List.{list_all};
ghost use Rattle.shr_words.specs.LayoutWords.{IsSound, is_extent, extent_of as extent_in, asked as asked_in, size_of as size_in, layout_request as request_in};

use arrayvec::ArrayVec;
use shr_script::number_of;

/// One size more than the most drives that a plan takes.
pub const MOST_SIZES: usize = 17;

/// What the words ask to be planned.
#[derive(Debug, Drop)]
pub struct LayoutRequest {
    /// The sectors of an extent: a power of two from 128 to 65536.
    pub extent: u32,
    /// The sectors of each drive, below 2^48; of more drives than a plan takes only the first 17.
    pub sizes: ArrayVec<u64, MOST_SIZES>,
}

/// `E S..`: reads the sectors of an extent and those of each drive, and takes no memory.
///
/// `None` where the words are no such form.
pub fn layout_request(arguments: &[String]) -> Option<LayoutRequest>
    ensures value { result ≡ request_in (map string_bytes arguments.now) }
    ensures sound { IfSome result IsSound }
{
    let Some((first, words)) = arguments.split_first() else {
        return None;
    };
    asked(extent_of(first.as_str().as_bytes()), words)
}

// What is asked for with this extent and these words for sizes.
fn asked(extent: Option<u32>, words: &[String]) -> Option<LayoutRequest>
    requires { IfSome extent (λ sectors. 128 ≤ sectors) }
    ensures value { result ≡ asked_in extent (map string_bytes words.now) }
    ensures sound { IfSome result IsSound }
{
    let Some(extent) = extent else {
        return None;
    };
    if words.is_empty() {
        return None;
    }
    if !are_sizes(words) {
        return None;
    }
    let sizes = sizes_of(&words[..MOST_SIZES.min(words.len())]);
    Some(LayoutRequest { extent, sizes })
}

/// The sectors of an extent: a power of two from 128 to 65536.
pub fn extent_of(word: &[u8]) -> Option<u32>
    ensures value { result ≡ extent_in word.now }
    ensures least { IfSome result (λ sectors. 128 ≤ sectors) }
    ensures bounds { IfSome result (λ sectors. is_extent sectors ≡ true) }
{
    match number_of(word) {
        Some(number) if number >= 128 && number <= 65536 && number.is_power_of_two() => {
            Some(number as u32)
        }
        _ => None,
    }
}

// A number below 2^48.
fn size_of(word: &[u8]) -> Option<u64>
    ensures value { result ≡ size_in word.now }
    ensures small { IfSome result (λ sectors. sectors < 2 ^ 48) }
{
    match number_of(word) {
        Some(number) if number < 1 << 48 => Some(number),
        _ => None,
    }
}

// Each word is a size.
fn are_sizes(words: &[String]) -> bool
    ensures { result ≡ list_all (λ word. is_some (size_in (string_bytes word))) words.now }
{
    words
        .iter()
        .all(|word| size_of(word.as_str().as_bytes()).is_some())
}

// The sizes among these words.
fn sizes_of(words: &[String]) -> ArrayVec<u64, MOST_SIZES>
    requires { length words.now ≤ 17 }
    ensures items { result.items ≡ filter_map size_in (map string_bytes words.now) }
    ensures small { All (λ sectors. sectors < 2 ^ 48) result.items }
{
    let mut sizes = ArrayVec::new();
    for word in words {
        match size_of(word.as_str().as_bytes()) {
            Some(size) => sizes.push(size),
            None => {}
        }
    }
    sizes
}
