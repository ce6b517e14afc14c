//! The texts of single lines.

ghost use Rattle.std.specs.Prelude.{◌≡◌, ◌+◌, ◌≤◌, ◌<◌, ◌^◌, ◌++◌, length, slice_get, codes, decimal};
ghost use Rattle.std.specs.Fmt.{signed_decimal};
ghost use Rattle.arrayvec.specs.ArrayVec.{array_vec_len};
ghost use Rattle.shr_script.specs.Reply.{as_line};
ghost use Rattle.image_text.specs.Lines.{image_line, table_words, slice_line, md_words, superblock_words, role_words};

use gpt_table::{Entry, Seen, TableCopy};
use itoa::Buffer;
use md_super::{Super, SuperFault};
use shr_script::{ReplyText, add, add_field, line_reply};

/// `image N`
pub fn image_text(text: &mut ReplyText, sectors: u64)
    ensures { text.new.items ≡ image_line sectors }
{
    text.clear();
    add_field(text, b"image ", sectors);
    add(text, b"\n");
}

/// `table primary`, `table backup` or `table none`
pub fn table_text(text: &mut ReplyText, found: &Option<Seen>)
    ensures { text.new.items ≡ as_line (table_words found.now) }
{
    match found {
        None => line_reply(text, b"table none"),
        Some(seen) => match seen.copy {
            TableCopy::Primary => line_reply(text, b"table primary"),
            TableCopy::Backup => line_reply(text, b"table backup"),
        },
    }
}

/// `slice I FIRST COUNT`
pub fn slice_text(text: &mut ReplyText, entry: &Entry)
    requires order { entry.now.slice.first ≤ entry.now.slice.last }
    requires inside { entry.now.slice.last < 2 ^ 48 }
    ensures { text.new.items ≡ slice_line entry.now }
{
    text.clear();
    add_field(text, b"slice ", u64::from(entry.number));
    add_field(text, b" ", entry.slice.first);
    add_field(text, b" ", entry.slice.last - entry.slice.first + 1);
    add(text, b"\n");
}

/// The superblock of a place, or why it has none.
pub fn md_text(text: &mut ReplyText, found: &Result<Super, SuperFault>)
    ensures { text.new.items ≡ as_line (md_words found.now) }
{
    match found {
        Ok(seen) => superblock_text(text, seen),
        Err(SuperFault::NotMd) => line_reply(text, b"md none"),
        Err(SuperFault::TooLong) => line_reply(text, b"md too-long"),
        Err(SuperFault::BadSum) => line_reply(text, b"md bad-sum"),
    }
}

// `md level L members N chunk C size S events V resync T role R features F`
fn superblock_text(text: &mut ReplyText, seen: &Super)
    ensures { text.new.items ≡ as_line (superblock_words seen.now) }
{
    let mut level = Buffer::new();
    text.clear();
    add(text, b"md level ");
    add(text, level.format(seen.level).as_bytes());
    add_field(text, b" members ", u64::from(seen.raid_disks));
    add_field(text, b" chunk ", u64::from(seen.chunk));
    add_field(text, b" size ", seen.size);
    add_field(text, b" events ", seen.events);
    add_field(text, b" resync ", seen.resync_offset);
    add_role(text, seen);
    add_field(text, b" features ", u64::from(seen.feature_map));
    add(text, b"\n");
}

// ` role R`
fn add_role(text: &mut ReplyText, seen: &Super)
    requires { array_vec_len text.old + 40 ≤ 4096 }
    ensures items { text.new.items ≡ text.old.items ++ (codes " role " ++ role_words (slice_get seen.now.roles.items seen.now.dev_number)) }
    ensures len { array_vec_len text.new ≤ array_vec_len text.old + 40 }
{
    match seen.roles.as_slice().get(seen.dev_number as usize) {
        Some(role) => add_field(text, b" role ", u64::from(*role)),
        None => add(text, b" role none"),
    }
}
