use shr_base::{Id, child_id, crc32, guid_bytes, guid_id, lvm_crc, lvm_id, md_sum, units};
use uuid::Uuid;

/// The namespace for domain names (RFC 4122, appendix C).
const DNS: Id = Id([
    0x6b, 0xa7, 0xb8, 0x10, 0x9d, 0xad, 0x11, 0xd1, 0x80, 0xb4, 0x00, 0xc0, 0x4f, 0xd4, 0x30, 0xc8,
]);

/// GPT's type of Linux RAID, A19D880F-05FC-4D3B-A006-743F0F84911E, and as it is stored.
const LINUX_RAID: Id = Id([
    0xa1, 0x9d, 0x88, 0x0f, 0x05, 0xfc, 0x4d, 0x3b, 0xa0, 0x06, 0x74, 0x3f, 0x0f, 0x84, 0x91, 0x1e,
]);

const LINUX_RAID_STORED: [u8; 16] = [
    0x0f, 0x88, 0x9d, 0xa1, 0xfc, 0x05, 0x3b, 0x4d, 0xa0, 0x06, 0x74, 0x3f, 0x0f, 0x84, 0x91, 0x1e,
];

/// Check values that zlib publishes, those of LVM2's start value, and sums of md.
#[test]
fn checksums(rt: HostRuntime) {
    let fox = b"The quick brown fox jumps over the lazy dog";
    let crcs = [crc32(b""), crc32(b"a"), crc32(b"123456789"), crc32(fox)];
    assert_eq!(rt; crcs, [0, 0xe8b7_be43, 0xcbf4_3926, 0x414f_a339]);

    let carried = [1, 0, 0, 0, 0xff, 0xff, 0xff, 0xff];
    let half_word = [1, 0, 0, 0, 2, 1];
    let sums = [
        lvm_crc(b""),
        lvm_crc(&[0xcf]),
        md_sum(&carried),
        md_sum(&half_word),
    ];
    assert_eq!(rt; sums, [0xf597_a6cf, 0x00f5_97a6, 1, 0x103]);
}

/// Version 5 UUIDs that Python's `uuid5` gives, and the worked example of RFC 9562, A.4.
#[test]
fn names(rt: HostRuntime) {
    let example = Uuid::new_v5(&Uuid::from_bytes(DNS.0), b"www.example.com").into_bytes();
    let published = [
        0x2e, 0xd6, 0x65, 0x7d, 0xe9, 0x27, 0x56, 0x8b, 0x95, 0xe1, 0x26, 0x65, 0xa8, 0xae, 0xa6,
        0xa2,
    ];

    // the nine bytes of `www.examp`
    let child = child_id(
        &DNS,
        b'w',
        u32::from_le_bytes(*b"ww.e"),
        u32::from_le_bytes(*b"xamp"),
    )
    .0;
    let from_python = [
        0x90, 0xe6, 0x33, 0xff, 0x51, 0x6a, 0x5d, 0xd6, 0x92, 0x90, 0x4f, 0x93, 0xa2, 0x98, 0xd5,
        0xa0,
    ];
    assert_eq!(rt; [example, child], [published, from_python]);
}

#[test]
fn written_ids(rt: HostRuntime) {
    let stored = (guid_bytes(&LINUX_RAID), guid_id(&LINUX_RAID_STORED));
    assert_eq!(rt; stored, (LINUX_RAID_STORED, LINUX_RAID));
    assert_eq!(rt; lvm_id(&LINUX_RAID), *b"a19d880f05fc4d3ba006743f0f84911e");
}

/// Drives of ordinary sizes with extents of 4 MiB, and the smallest ones.
#[test]
fn drive_units(rt: HostRuntime) {
    for (sectors, extent, want) in [
        (1_953_525_168, 8192, 238_457),
        (3_907_029_168, 8192, 476_922),
        (7_814_037_168, 8192, 953_852),
        (77_823, 128, 0),
        (77_824, 128, 0),
        (79_104, 128, 10),
        (80_384, 128, 20),
    ] {
        assert_eq!(rt; units(sectors, extent), want, "{sectors} sectors");
    }
}
