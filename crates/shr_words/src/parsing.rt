//! The words as `clap` parses them: how many arguments a form has.

ghost use Rattle.std.specs.Prelude.{◌≡◌, ◌↔◌, ◌<◌, ◌^◌, length, IfOk, OnOk, Err, true, false, map, string_bytes};
ghost use Rattle.clap.specs.Words.{app_of, rule_of, with_subcommand};
ghost use Rattle.shr_words.specs.Forms.{is_call, takes_call};
ghost use Rattle.shr_words.specs.Parser as spec;

use crate::forms::WordsFault;
use clap::error::ErrorKind;
use clap::{Arg, Command};
use std::alloc::{AllocError, Global};

/// Whether the words are a form with as many arguments as it has.
pub(crate) fn parse(alloc: Global, words: &[String]) -> Result<(), WordsFault>
    requires words { is_call (map string_bytes words.now) ≡ true }
    ensures takes { OnOk result (takes_call (map string_bytes words.now) ≡ true) }
    ensures wrong { result ≡ Err WordsFault.Wrong → takes_call (map string_bytes words.now) ≡ false }
{
    bound(words);
    let Ok(program) = program(alloc) else {
        return Err(WordsFault::Memory);
    };
    match program.try_get_matches_from(words) {
        Ok(_) => Ok(()),
        Err(error) => Err(fault_of(error.kind())),
    }
}

/// Words in memory are fewer than 2^64.
fn bound(words: &[String])
    ensures { length words.now < 2 ^ 64 }
{
    let _count = words.len();
}

/// Want of memory, or words that are refused.
fn fault_of(kind: ErrorKind) -> WordsFault
    ensures { (result ≡ WordsFault.Memory) ↔ (kind ≡ ErrorKind.OutOfMemory) }
{
    match kind {
        ErrorKind::OutOfMemory => WordsFault::Memory,
        _ => WordsFault::Wrong,
    }
}

/// A positional argument of one value.
fn one<'a>(alloc: Global, id: &'a str) -> Arg<'a>
    ensures rule { rule_of result ≡ spec.one id.now }
    ensures local { result.global ≡ false }
{
    Arg::new(alloc, id).required(true)
}

/// A positional argument of one value or more.
fn many<'a>(alloc: Global, id: &'a str) -> Arg<'a>
    ensures rule { rule_of result ≡ spec.many id.now }
    ensures local { result.global ≡ false }
{
    Arg::new(alloc, id).required(true).num_args(1..)
}

/// A form whose arguments are names.
fn named<'a>(alloc: Global, form: &'a str) -> Result<Command<'a>, AllocError>
    ensures app { IfOk result (λ c. app_of c ≡ spec.named form.now) }
{
    Command::new(alloc, form).arg(many(alloc, "names"))
}

/// A form with a number before its other arguments.
fn numbered<'a>(alloc: Global, form: &'a str) -> Result<Command<'a>, AllocError>
    ensures app { IfOk result (λ c. app_of c ≡ spec.numbered form.now) }
{
    Command::new(alloc, form)
        .arg(one(alloc, "number"))?
        .arg(many(alloc, "others"))
}

/// The form whose argument is one name.
fn examine<'a>(alloc: Global) -> Result<Command<'a>, AllocError>
    ensures app { IfOk result (λ c. app_of c ≡ spec.examine) }
{
    Command::new(alloc, "examine").arg(one(alloc, "name"))
}

/// The program with one more form.
fn with_form<'a>(program: Command<'a>, form: Command<'a>) -> Result<Command<'a>, AllocError>
    requires { (app_of form).top.is_plain ≡ true }
    ensures { IfOk result (λ c. app_of c ≡ with_subcommand (app_of program.entry) (app_of form.entry).top) }
{
    program.subcommand(form)
}

/// The program as a command, with neither help nor flags.
fn bare<'a>(alloc: Global) -> Command<'a>
    ensures { app_of result ≡ spec.bare }
{
    Command::new(alloc, "shr_tool")
        .no_binary_name(true)
        .disable_help_flag(true)
        .disable_help_subcommand(true)
        .disable_version_flag(true)
}

/// The program with a subcommand for each form.
fn program<'a>(alloc: Global) -> Result<Command<'a>, AllocError>
    ensures { IfOk result (λ c. app_of c ≡ spec.program) }
{
    let program = with_form(bare(alloc), numbered(alloc, "layout")?)?;
    let program = with_form(program, numbered(alloc, "create")?)?;
    let program = with_form(program, named(alloc, "serve")?)?;
    let program = with_form(program, named(alloc, "import")?)?;
    let program = with_form(program, named(alloc, "export")?)?;
    let program = with_form(program, named(alloc, "status")?)?;
    let program = with_form(program, examine(alloc)?)?;
    with_form(program, numbered(alloc, "trial")?)
}
