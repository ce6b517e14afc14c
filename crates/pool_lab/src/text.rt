//! Words and numbers of cases, and the texts that are put for them.

use itoa::Buffer;
use shr_script::number_of;
use std::alloc::{AllocError, Global};
use std::str;

/// The number that a word is.
pub fn number_in(word: &[u8]) -> Option<u64> {
    number_of(word)
}

/// The words of a line, parted by spaces.
pub fn words_of(alloc: Global, line: &[u8]) -> Result<Vec<&[u8]>, AllocError> {
    let mut words = Vec::new(alloc);
    for word in line.split(|byte| *byte == b' ') {
        if !word.is_empty() {
            words.push(word)?;
        }
    }
    Ok(words)
}

/// A word as a text; none where it isn't UTF-8.
pub fn text_of(alloc: Global, word: &[u8]) -> Result<Option<String>, AllocError> {
    match str::from_utf8(word) {
        Ok(text) => Ok(Some(String::from_str(alloc, text)?)),
        Err(_) => Ok(None),
    }
}

/// Appends a number in decimal digits.
pub fn push_number(out: &mut Vec<u8>, number: u64) -> Result<(), AllocError> {
    let mut buffer = Buffer::new();
    out.extend_from_slice(buffer.format(number).as_bytes())
}

/// Appends bytes as digits without the zeros at their end, or a dash for none.
pub fn push_digits(alloc: Global, out: &mut Vec<u8>, bytes: &[u8]) -> Result<(), AllocError> {
    let zeros = bytes.iter().rev().take_while(|byte| **byte == 0).count();
    let front = bytes
        .get(..bytes.len().saturating_sub(zeros))
        .unwrap_or(bytes);
    if front.is_empty() {
        return out.extend_from_slice(b"-");
    }
    let digits = hex::encode(alloc, front)?;
    out.extend_from_slice(digits.as_bytes())
}

/// Appends a line with each word `X*N` written as N times `X`.
pub fn push_expanded(out: &mut Vec<u8>, line: &[u8]) -> Result<(), AllocError> {
    let mut is_first = true;
    for word in line.split(|byte| *byte == b' ') {
        if !is_first {
            out.push(b' ')?;
        }
        is_first = false;
        push_repeated(out, word)?;
    }
    Ok(())
}

// Appends a word, or what it repeats.
fn push_repeated(out: &mut Vec<u8>, word: &[u8]) -> Result<(), AllocError> {
    let star = word.iter().rposition(|byte| *byte == b'*').unwrap_or(0);
    let piece = word.get(..star).unwrap_or(&[]);
    let digits = word.get(star.saturating_add(1)..).unwrap_or(&[]);
    match number_of(digits) {
        Some(times) if !piece.is_empty() => {
            for _ in 0..times {
                push_raw(out, piece)?;
            }
            Ok(())
        }
        _ => push_raw(out, word),
    }
}

// Appends a word with each `\xHH` as the byte of that number.
fn push_raw(out: &mut Vec<u8>, word: &[u8]) -> Result<(), AllocError> {
    let mut is_first = true;
    for piece in word.split(|byte| *byte == b'\\') {
        if is_first {
            out.extend_from_slice(piece)?;
        } else {
            push_escaped(out, piece)?;
        }
        is_first = false;
    }
    Ok(())
}

// Appends what stands behind a backslash, and the byte that it means.
fn push_escaped(out: &mut Vec<u8>, piece: &[u8]) -> Result<(), AllocError> {
    let mut byte = [0; 1];
    let digits = piece.get(1..3).unwrap_or(&[]);
    if piece.starts_with(b"x") && hex::decode_to_slice(digits, &mut byte).is_ok() {
        out.extend_from_slice(&byte)?;
        return out.extend_from_slice(piece.get(3..).unwrap_or(&[]));
    }
    out.push(b'\\')?;
    out.extend_from_slice(piece)
}

/// Appends a block: its lines without their indentation, each with its line end. A line that ends with `\` has none, one
/// that ends with `\r` has a carriage return before it, and one that ends with `\n` has another line feed behind it.
pub fn push_block(out: &mut Vec<u8>, lines: &[&[u8]]) -> Result<(), AllocError> {
    for line in lines {
        let line = line.get(2..).unwrap_or(&[]);
        if let Some(front) = line.strip_suffix(b"\\r") {
            push_expanded(out, front)?;
            out.extend_from_slice(b"\r\n")?;
        } else if let Some(front) = line.strip_suffix(b"\\n") {
            push_expanded(out, front)?;
            out.extend_from_slice(b"\n\n")?;
        } else if let Some(front) = line.strip_suffix(b"\\") {
            push_expanded(out, front)?;
        } else {
            push_expanded(out, line)?;
            out.push(b'\n')?;
        }
    }
    Ok(())
}

/// The lines of a text without their line feeds; nothing behind the last line feed is no line.
pub fn lines_of(alloc: Global, text: &[u8]) -> Result<Vec<&[u8]>, AllocError> {
    let mut lines = Vec::new(alloc);
    for line in text.split(|byte| *byte == b'\n') {
        lines.push(line)?;
    }
    if text.is_empty() || text.last() == Some(&b'\n') {
        let _ = lines.pop();
    }
    Ok(lines)
}

/// Whether some text stands in another one.
pub fn holds(text: &[u8], part: &[u8]) -> bool {
    text.windows(part.len().max(1)).any(|window| window == part)
}
