//! The names and ids of a pool's group, as texts have them.

ghost use Rattle.std.specs.Prelude.{◌≡◌, ◌≤◌, ◌+◌, ◌++◌, length};
ghost use Rattle.arrayvec.specs.ArrayVec.{array_vec_len};
ghost use Rattle.hex.specs.Hex.{encode_lower};
ghost use Rattle.lvm_text.specs.Printed.{IsId};
ghost use Rattle.lvm_group.specs.Ids.{array_named, parted, pv_name, text_id};

use arrayvec::ArrayVec;
use itoa::Buffer;
use shr_base::{Id, lvm_id};

/// Appends bytes that there is room for.
fn append(text: &mut ArrayVec<u8, 64>, bytes: &[u8])
    requires { array_vec_len text.old + length bytes.now ≤ 64 }
    ensures items { text.new.items ≡ text.old.items ++ bytes.now }
    ensures len { array_vec_len text.new ≡ array_vec_len text.old + length bytes.now }
{
    let _ = text.try_extend_from_slice(bytes);
}

/// The name of an array's physical volume.
pub(crate) fn pv_name(array: u32) -> ArrayVec<u8, 64>
    ensures { result.items ≡ pv_name array }
{
    let mut name = ArrayVec::new();
    append(&mut name, b"pv");
    append(&mut name, Buffer::new().format(array).as_bytes());
    name
}

/// The array whose physical volume has a name.
pub(crate) fn array_named(name: &[u8]) -> Option<u32>
    ensures { result ≡ array_named name.now }
{
    for array in 0..16 {
        if pv_name(array).as_slice() == name {
            return Some(array);
        }
    }
    None
}

/// An id in groups of 6, 4, 4, 4, 4, 4 and 6 digits parted by `-`.
pub(crate) fn text_id(id: &Id) -> ArrayVec<u8, 64>
    ensures text { result.items ≡ text_id id.now.0 }
    ensures is_id { IsId result.items }
{
    spelled(&id.0, &lvm_id(id))
}

/// The digits of an id's bytes in groups.
fn spelled(bytes: &[u8; 16], digits: &[u8; 32]) -> ArrayVec<u8, 64>
    requires { digits.now ≡ encode_lower bytes.now }
    ensures text { result.items ≡ parted digits.now }
    ensures is_id { IsId result.items }
{
    parted(digits)
}

#[tactic(auto, unfolding(crate::specs::Ids::parted))]
fn parted(digits: &[u8; 32]) -> ArrayVec<u8, 64>
    ensures text { result.items ≡ parted digits.now }
    ensures long { length result.items ≡ 38 }
{
    let mut text = ArrayVec::new();
    append(&mut text, &digits[0..6]);
    append(&mut text, b"-");
    append(&mut text, &digits[6..10]);
    append(&mut text, b"-");
    append(&mut text, &digits[10..14]);
    append(&mut text, b"-");
    append(&mut text, &digits[14..18]);
    append(&mut text, b"-");
    append(&mut text, &digits[18..22]);
    append(&mut text, b"-");
    append(&mut text, &digits[22..26]);
    append(&mut text, b"-");
    append(&mut text, &digits[26..32]);
    text
}
