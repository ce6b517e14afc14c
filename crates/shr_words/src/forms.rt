//! The forms of the words, and the numbers in them.

ghost use Rattle.std.specs.Prelude.{◌≡◌, ◌<◌, ◌∷◌, map, length, string_bytes, IfOk, IfSome, Some, None, Err};
ghost use Rattle.std.specs.List.{list_all};
ghost use Rattle.shr_words.specs.Forms as spec;

use crate::layout::{LayoutRequest, extent_of, layout_request};
use crate::parsing::parse;
use shr_script::number_of;
use std::alloc::Global;

/// What the words ask for.
#[derive(Debug, Drop)]
pub enum Form {
    /// `layout E S..`
    Layout {
        /// What is to be planned.
        request: LayoutRequest,
    },
    /// `create E NAME..`
    Create {
        /// The sectors of an extent: a power of two from 128 to 65536.
        extent: u32,
    },
    /// `serve NAME..`
    Serve,
    /// `import NAME..`
    Import,
    /// `export NAME..`
    Export,
    /// `status NAME..`
    Status,
    /// `examine NAME`
    Examine,
    /// `trial SEED NAME..`
    Trial {
        /// What the generator starts with.
        seed: u64,
    },
}

/// Why words give no form.
#[derive(Clone, Copy, Debug, PartialEq, Eq)]
pub enum WordsFault {
    /// They are none of the forms.
    Wrong,
    /// The parse found no memory.
    Memory,
}

/// The form of the words after the program's name. Names stand behind it as they were given: all words but the first, or but the
/// first two where a number comes first.
pub fn form_of(alloc: Global, words: &[String]) -> Result<Form, WordsFault>
    ensures form { IfOk result (λ form. spec.form_of (map string_bytes words.now) ≡ Some form) }
    ensures wrong { result ≡ Err WordsFault.Wrong → spec.form_of (map string_bytes words.now) ≡ None }

    // At least one name or size stands behind the form and its number, and the numbers are within their bounds.
    ensures named { IfOk result (λ form. spec.before_names form < length words.now) }
    ensures bounds { IfOk result spec.HasBounds }
{
    if !is_call(words) {
        return Err(WordsFault::Wrong);
    }
    parse(alloc, words)?;
    match call_form(words) {
        Some(form) => Ok(form),
        None => Err(WordsFault::Wrong),
    }
}

/// A form's name, and words that may be its arguments.
fn is_call(words: &[String]) -> bool
    ensures { result ≡ spec.is_call (map string_bytes words.now) }
{
    match words.split_first() {
        Some((name, arguments)) => is_form(name.as_str()) && are_words(arguments),
        None => false,
    }
}

/// The form of a name and its arguments.
fn call_form(words: &[String]) -> Option<Form>
    ensures form { result ≡ spec.call_form (map string_bytes words.now) }
    ensures bounds { IfSome result spec.HasBounds }
{
    let (name, arguments) = words.split_first()?;
    form_with(name.as_str(), arguments)
}

/// The name of a form.
fn is_form(word: &str) -> bool
    ensures { result ≡ spec.is_form word.now }
{
    is_numbered(word) || is_named(word) || word == "examine"
}

/// The name of a form with a number before one argument or more.
fn is_numbered(word: &str) -> bool
    ensures { result ≡ spec.is_numbered word.now }
{
    word == "layout" || word == "create" || word == "trial"
}

/// The name of a form with one name or more.
fn is_named(word: &str) -> bool
    ensures { result ≡ spec.is_named word.now }
{
    word == "serve" || word == "import" || word == "export" || word == "status"
}

/// None of the words is empty or begins with a dash.
fn are_words(words: &[String]) -> bool
    ensures { result ≡ list_all spec.is_word (map string_bytes words.now) }
{
    each_is_word(words)
}

// The same of each word by itself.
fn each_is_word(words: &[String]) -> bool
    ensures { result ≡ list_all (λ word. spec.is_word (string_bytes word)) words.now }
{
    words.iter().all(|word| is_word(word.as_str()))
}

/// A word isn't empty and doesn't begin with a dash.
fn is_word(word: &str) -> bool
    ensures { result ≡ spec.is_word word.now }
{
    match word.as_bytes() {
        [] => false,
        [first, ..] => *first != b'-',
    }
}

/// The form of this name with these arguments: of a number that comes first, the number.
fn form_with(name: &str, arguments: &[String]) -> Option<Form>
    ensures form { result ≡ spec.form_with name.now (map string_bytes arguments.now) }
    ensures bounds { IfSome result spec.HasBounds }
{
    let (first, _) = arguments.split_first()?;
    let number = first.as_str().as_bytes();
    if name == "layout" {
        let request = layout_request(arguments)?;
        return Some(Form::Layout { request });
    }
    if name == "create" {
        let extent = extent_of(number)?;
        return Some(Form::Create { extent });
    }
    if name == "trial" {
        let seed = number_of(number)?;
        return Some(Form::Trial { seed });
    }
    Some(unnumbered(name))
}

/// The form of this name, which has no number.
fn unnumbered(name: &str) -> Form
    ensures form { result ≡ spec.unnumbered name.now }
    ensures bounds { spec.HasBounds result }
{
    if name == "serve" {
        Form::Serve
    } else if name == "import" {
        Form::Import
    } else if name == "export" {
        Form::Export
    } else if name == "status" {
        Form::Status
    } else {
        Form::Examine
    }
}
