//! The XOR kernel of RAID-5: [`xor_into`] in lanes of 64 bytes, equal to the byte-wise XOR.
//!
//! The model is the list of bytes: `xor` is the XOR of two lists, `xor_all n` that of a row of
//! chunks of `n` bytes each. The layers above use the laws of [`xor_is_a_group`] and
//! [`parity_restores`], and no definition: a row whose last chunk is its parity has the XOR zeros,
//! and each chunk of it is the XOR of the others.
#![tactic(auto)]

ghost use Rattle.parity.specs.Xor.{IsParityOfRows, IsXorGroup, xor};
ghost use Rattle.std.specs.Prelude.{◌+◌, ◌<◌, ◌≡◌, ◌≤◌, ℕ, bit_xor, length, slice_index};

use std::simd::prelude::*;

/// The bytes that one vector has.
const LANES: usize = 64;

/// Sets `a` to the XOR of `a` and `b`, byte by byte.
pub fn xor_into(a: &mut [u8], b: &[u8])
    requires { length a.old ≡ length b.now }
    ensures { a.new ≡ xor a.old b.now }
{
    let blocks = a.len() / LANES;
    for block in 0..blocks {
        xor_block(a, b, block * LANES);
    }
    xor_rest(a, b, blocks * LANES);
}

/// Sets the 64 bytes of `a` from `at` on.
#[inline(always)]
fn xor_block(a: &mut [u8], b: &[u8], at: usize)
    requires within { at + 64 ≤ length a.old }
    requires lengths { length a.old ≡ length b.now }
    ensures below { (k : ℕ) → k < at → slice_index a.new k ≡ slice_index a.old k }
    ensures block { (k : ℕ) → at ≤ k → k < at + 64 → slice_index a.new k ≡ bit_xor (slice_index a.old k) (slice_index b.now k) }
    ensures above { (k : ℕ) → at + 64 ≤ k → slice_index a.new k ≡ slice_index a.old k }
{
    let lanes = u8x64::from_slice(&a[at..]) ^ u8x64::from_slice(&b[at..]);
    lanes.copy_to_slice(&mut a[at..]);
}

/// Sets the bytes of `a` from `at` on, one by one.
fn xor_rest(a: &mut [u8], b: &[u8], at: usize)
    requires within { at ≤ length a.old }
    requires lengths { length a.old ≡ length b.now }
    ensures below { (k : ℕ) → k < at → slice_index a.new k ≡ slice_index a.old k }
    ensures above { (k : ℕ) → at ≤ k → k < length a.old → slice_index a.new k ≡ bit_xor (slice_index a.old k) (slice_index b.now k) }
{
    for i in at..a.len() {
        a[i] ^= b[i];
    }
}

/// XOR is its own inverse, and its order doesn't matter.
pub fn xor_is_a_group()
    ensures { IsXorGroup }
{}

/// The XOR of a row with its parity is zeros, and each of its chunks is the XOR of the others.
pub fn parity_restores()
    ensures { IsParityOfRows }
{}

#[cfg(test)]
mod tests {
    use super::*;
    use std::test::Fail;

    // Every length round two blocks, at starts that aren't aligned; each byte is that of the plain XOR.
    #[test]
    fn equals_plain_xor(rt: HostRuntime) -> Result<(), Fail> {
        let mut left = [0u8; 200];
        let mut right = [0u8; 200];
        for i in 0..200usize {
            left[i] = (i * 7 % 256) as u8;
            right[i] = (i * 13 % 251) as u8;
        }
        for start in [0usize, 1, 7] {
            for length in 0..131usize {
                let mut out = left;
                xor_into(
                    &mut out[start..start + length],
                    &right[start + 3..start + 3 + length],
                );
                for k in 0..200usize {
                    let inside = start <= k && k < start + length;
                    let want = if inside {
                        left[k] ^ right[k + 3]
                    } else {
                        left[k]
                    };
                    assert_eq!(rt; out[k], want, "start {start} length {length} byte {k}");
                }
            }
        }
        Ok(())
    }
}
