//! Where the sections of a logical volume's segments stand, found for all of them in one walk.

ghost use Rattle.lvm_text.specs.Group.{segment_name};
ghost use Rattle.lvm_text.specs.Table.{IsTable, first_place};
ghost use Rattle.std.specs.Prelude.{
  ◌≡◌,
  ◌≢◌,
  ◌+◌,
  ◌<◌,
  ◌^◌,
  ℕ,
  IfErr,
  IfOk,
  MatchOption,
  bytes_eq,
  decimal,
  length,
  slice_index_or,
};

use crate::group::TextFault;
use crate::lexer::value_of;
use crate::words::Word;
use itoa::Buffer;
use std::alloc::Global;

/// The number in the name of a segment's section.
fn segment_number(name: &[u8]) -> Option<u64>
    ensures { MatchOption result ((n : ℕ) → n < 2 ^ 64 → name.now ≢ segment_name n) (λ n. (n < 2 ^ 64) × (name.now ≡ segment_name n)) }
{
    match name.strip_prefix(b"segment".as_slice()) {
        Some(digits) => canonical(digits),
        None => None,
    }
}

/// The number that these digits are, without zeros before it.
fn canonical(digits: &[u8]) -> Option<u64>
    ensures { MatchOption result ((n : ℕ) → n < 2 ^ 64 → digits.now ≢ decimal n) (λ n. (n < 2 ^ 64) × (digits.now ≡ decimal n)) }
{
    match value_of(digits) {
        Some(number) if Buffer::new().format(number).as_bytes() == digits => Some(number),
        _ => None,
    }
}

/// The entry for a segment of this name, in a table with so many.
fn entry(name: &[u8], entries: usize) -> Option<usize>
    ensures { MatchOption result ((k : ℕ) → k < entries → name.now ≢ segment_name (k + 1)) (λ k. (k < entries) × (name.now ≡ segment_name (k + 1))) }
{
    match segment_number(name) {
        Some(number) if 0 < number && number <= entries as u64 => Some(number as usize - 1),
        _ => None,
    }
}

/// Notes an item of this name, whose words begin at this place.
fn note(table: &mut Vec<Option<usize>>, name: &[u8], at: usize)
    requires { length table.old.items < 2 ^ 64 }
    ensures entries { length table.new.items ≡ length table.old.items }
    ensures places { (k : ℕ) → k < length table.old.items → slice_index_or table.new.items k None ≡ first_place (slice_index_or table.old.items k None) (bytes_eq name.now (segment_name (k + 1))) at }
{
    if let Some(k) = entry(name, table.len()) {
        if table[k].is_none() {
            table[k] = Some(at);
        }
    }
}

/// A table with nothing in it.
fn nothing_noted(alloc: Global, entries: usize) -> Result<Vec<Option<usize>>, TextFault>
    ensures table { IfOk result (λ table. (k : ℕ) → k < length table.items → slice_index_or table.items k None ≡ None) }
    ensures err { IfErr result (λ e. e ≡ TextFault.Memory) }
{
    let mut table = Vec::new(alloc);
    match table.resize(entries, None) {
        Ok(()) => Ok(table),
        Err(_) => Err(TextFault::Memory),
    }
}

/// The table of the first so many segments in the section whose words these are.
pub(crate) fn table_of(
    alloc: Global,
    words: &[Word],
    entries: usize,
) -> Result<Vec<Option<usize>>, TextFault>
    ensures table { IfOk result (λ table. IsTable table.items words.now) }
    ensures err { IfErr result (λ e. e ≡ TextFault.Memory) }
{
    let mut table = nothing_noted(alloc, entries)?;
    let mut depth = 0usize;
    let mut rest = words;
    while let Some((word, after)) = rest.split_first() {
        match word {
            Word::Name(name) => {
                if depth == 0 {
                    note(&mut table, name.bytes(), words.len() - after.len());
                }
            }
            Word::Open => depth += 1,
            Word::Close => {
                if depth == 0 {
                    return Ok(table);
                }
                depth -= 1;
            }
            _ => {}
        }
        rest = after;
    }
    Ok(table)
}
