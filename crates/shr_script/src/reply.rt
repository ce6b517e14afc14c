//! Texts of replies: one line each, ended by a line feed.

ghost use Rattle.std.specs.Prelude.{◌≡◌, ◌+◌, ◌*◌, ◌≤◌, ◌<◌, ◌++◌, [], ◌∷◌, length, take, replicate, bytes_eq, codes, decimal};
ghost use Rattle.arrayvec.specs.ArrayVec.{array_vec_len};
ghost use Rattle.hex.specs.Hex.{encode_lower};
ghost use Rattle.shr_script.specs.Reply.{without_zeros, digits_or_dash, data_line, refused_line, as_line, left_line};

use arrayvec::ArrayVec;
use itoa::Buffer;

/// Room for the longest reply, that of `status` with 16 drives and 16 arrays.
pub const REPLY_ROOM: usize = 4096;

// Zeros at a sector's end are passed over in groups of so many.
const ZEROS: [u8; 64] = [0; 64];

/// The text of a reply.
pub type ReplyText = ArrayVec<u8, REPLY_ROOM>;

/// `data H`: a sector's bytes as digits, without the zeros at its end.
pub fn data_reply(text: &mut ReplyText, sector: &[u8; 512])
    ensures { text.new.items ≡ data_line sector.now }
{
    text.clear();
    add(text, b"data ");
    let count = significant(sector);
    add_digits_or_dash(text, &sector[..count]);
    add(text, b"\n");
}

/// `refused WHY`
pub fn refused_reply(text: &mut ReplyText, why: &[u8])
    requires { length why.now ≤ 100 }
    ensures { text.new.items ≡ refused_line why.now }
{
    text.clear();
    add(text, b"refused ");
    add(text, why);
    add(text, b"\n");
}

/// `refused WHY N`
pub fn refused_number_reply(text: &mut ReplyText, why: &[u8], number: u64)
    requires { length why.now ≤ 100 }
    ensures { text.new.items ≡ refused_line (why.now ++ codes " " ++ decimal number) }
{
    let mut digits = Buffer::new();
    text.clear();
    add(text, b"refused ");
    add(text, why);
    add(text, b" ");
    add(text, digits.format(number).as_bytes());
    add(text, b"\n");
}

/// A text as a line.
pub fn line_reply(text: &mut ReplyText, words: &[u8])
    requires { length words.now ≤ 100 }
    ensures { text.new.items ≡ as_line words.now }
{
    text.clear();
    add(text, words);
    add(text, b"\n");
}

/// `size N`
pub fn size_reply(text: &mut ReplyText, sectors: u64)
    ensures { text.new.items ≡ as_line (codes "size " ++ decimal sectors) }
{
    let mut digits = Buffer::new();
    text.clear();
    add(text, b"size ");
    add(text, digits.format(sectors).as_bytes());
    add(text, b"\n");
}

/// `left L`
pub fn left_reply(text: &mut ReplyText, works: u64)
    ensures { text.new.items ≡ left_line works }
{
    let mut digits = Buffer::new();
    text.clear();
    add(text, b"left ");
    add(text, digits.format(works).as_bytes());
    add(text, b"\n");
}

/// Adds bytes that have room.
pub fn add(text: &mut ReplyText, bytes: &[u8])
    requires { array_vec_len text.old + length bytes.now ≤ 4096 }
    ensures items { text.new.items ≡ text.old.items ++ bytes.now }
    ensures len { array_vec_len text.new ≡ array_vec_len text.old + length bytes.now }
{
    let _ = text.try_extend_from_slice(bytes);
}

/// Adds words and a number in decimal digits.
pub fn add_field(text: &mut ReplyText, words: &[u8], number: u64)
    requires few { length words.now ≤ 20 }
    requires room { array_vec_len text.old + 40 ≤ 4096 }
    ensures items { text.new.items ≡ text.old.items ++ (words.now ++ decimal number) }
    ensures len { array_vec_len text.new ≤ array_vec_len text.old + 40 }
{
    let mut digits = Buffer::new();
    add(text, words);
    add(text, digits.format(number).as_bytes());
}

// Adds bytes as lower-case digits, or a dash for none.
fn add_digits_or_dash(text: &mut ReplyText, bytes: &[u8])
    requires few { length bytes.now ≤ 512 }
    requires room { array_vec_len text.old ≤ 10 }
    ensures items { text.new.items ≡ text.old.items ++ digits_or_dash bytes.now }
    ensures len { array_vec_len text.new ≤ array_vec_len text.old + 1024 }
{
    if bytes.is_empty() {
        add(text, b"-");
    } else {
        add_digits(text, bytes);
    }
}

// Adds bytes as lower-case digits.
fn add_digits(text: &mut ReplyText, bytes: &[u8])
    requires few { length bytes.now ≤ 512 }
    requires room { array_vec_len text.old + 2 * length bytes.now ≤ 4096 }
    ensures items { text.new.items ≡ text.old.items ++ encode_lower bytes.now }
    ensures len { array_vec_len text.new ≡ array_vec_len text.old + 2 * length bytes.now }
{
    let mut digits = [0; 1024];
    let count = 2 * bytes.len();
    let _ = hex::encode_to_slice(bytes, &mut digits[..count]);
    add(text, &digits[..count]);
}

// The number of bytes up to the last one that isn't zero.
fn significant(bytes: &[u8; 512]) -> usize
    ensures bytes { take result bytes.now ≡ without_zeros bytes.now }
    ensures within { result ≤ 512 }
{
    let mut count = without_zero_groups(bytes);
    while count > 0 && bytes[count - 1] == 0 {
        count -= 1;
    }
    count
}

// The number of bytes that are left once whole groups of zeros at the end are dropped.
fn without_zero_groups(bytes: &[u8; 512]) -> usize
    ensures bytes { without_zeros (take result bytes.now) ≡ without_zeros bytes.now }
    ensures within { result ≤ 512 }
{
    let mut count = 512;
    while count >= 64 && are_zeros(&bytes[count - 64..count]) {
        count -= 64;
    }
    count
}

// Whether these are a group of zeros.
fn are_zeros(bytes: &[u8]) -> bool
    ensures { result ≡ bytes_eq bytes.now (replicate 64 0) }
{
    bytes == ZEROS.as_slice()
}
