ghost use Rattle.std.specs.Prelude.{◌≡◌};
ghost use Rattle.hex.specs.Hex.{encode_lower};
ghost use Rattle.shr_base.specs.Ids.{name_based, child_name, guid_order};

use byteorder::{ByteOrder, LittleEndian};
use uuid::Uuid;

/// An identifier of 128 bits: a UUID of RFC 4122, its sixteen bytes in the order in which its text
/// prints them. By default the nil UUID, all zeros.
#[derive(Clone, Copy, Debug, Default, PartialEq, Eq, PartialOrd, Ord, Hash)]
pub struct Id(pub [u8; 16]);

/// The id of a part of what has the id `parent`: the version 5 UUID (RFC 4122, 4.3) of the nine
/// bytes of `kind`, `a` and `b`, the numbers with their lowest byte first.
pub fn child_id(parent: &Id, kind: u8, a: u32, b: u32) -> Id
    ensures { result.0 ≡ name_based parent.now.0 (child_name kind a b) }
{
    let mut name = [0u8; 9];
    name[0] = kind;
    LittleEndian::write_u32(&mut name[1..5], a);
    LittleEndian::write_u32(&mut name[5..9], b);
    Id(Uuid::new_v5(&Uuid::from_bytes(parent.0), &name).into_bytes())
}

/// The 32 lower-case hexadecimal digits of an id, which LVM2's labels and texts take as a UUID.
pub fn lvm_id(id: &Id) -> [u8; 32]
    ensures { result ≡ encode_lower id.now.0 }
{
    let mut digits = [0u8; 32];
    let _ = hex::encode_to_slice(id.0, &mut digits);
    digits
}

/// The bytes of a GUID as GPT stores it (UEFI, appendix A): its first three groups have their lowest
/// byte first.
pub fn guid_bytes(id: &Id) -> [u8; 16]
    ensures stored { result ≡ guid_order id.now.0 }
    ensures inverse { guid_order result ≡ id.now.0 }
{
    reordered(id.0)
}

/// The id that GPT stores as these bytes.
pub fn guid_id(bytes: &[u8; 16]) -> Id
    ensures read { result.0 ≡ guid_order bytes.now }
    ensures inverse { guid_order result.0 ≡ bytes.now }
{
    Id(reordered(*bytes))
}

/// Turns the first three groups of a GUID round.
fn reordered(mut bytes: [u8; 16]) -> [u8; 16]
    ensures { result ≡ guid_order bytes }
{
    bytes[0..4].reverse();
    bytes[4..6].reverse();
    bytes[6..8].reverse();
    bytes
}
