ghost use Rattle.std.specs.Prelude.{◌≡◌, ◌%◌, ◌^◌, length, sum};
ghost use Rattle.shr_base.specs.Sum.{md_sum_of, words, folded};

use byteorder::{ByteOrder, LittleEndian};

/// The sum of an md superblock's bytes (Linux md, `calc_sb_1_csum`): the words of 32 bits and a half
/// word that is left, summed in 64 bits, and the high half of that added to the low half.
pub fn md_sum(bytes: &[u8]) -> u32
    requires { length bytes.now % 2 ≡ 0 }
    ensures { result ≡ md_sum_of bytes.now }
{
    let total = words_total(bytes);
    let high = (total >> 32) as u32;
    let low = (total & 0xffff_ffff) as u32;
    high.wrapping_add(low)
}

/// The words of 32 bits summed in 64 bits, with a half word that is left.
fn words_total(bytes: &[u8]) -> u64
    requires { length bytes.now % 2 ≡ 0 }
    ensures { result ≡ sum (words bytes.now) % 2 ^ 64 }
{
    let mut total = 0u64;
    let mut rest = bytes;
    while let Some((word, after)) = rest.split_first_chunk::<4>() {
        total = total.wrapping_add(u64::from(LittleEndian::read_u32(word)));
        rest = after;
    }
    if rest.len() == 2 {
        total = total.wrapping_add(u64::from(LittleEndian::read_u16(rest)));
    }
    total
}
