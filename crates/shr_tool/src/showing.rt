//! `status`: how the pool stands, in lines.

ghost use Rattle.std.specs.Prelude.{◌≡◌, ◌+◌, ◌*◌, ◌≤◌, ◌<◌, ◌^◌, ◌++◌, length};
ghost use Rattle.arrayvec.specs.ArrayVec.{array_vec_len};
ghost use Rattle.pool.specs.View.{book, view, volume};
ghost use Rattle.shr_tool.specs.StatusText.{pool_line, drive_line, drive_lines, drive_word, array_line, array_lines, count_lines, plan_words, status_text};

use array_core::Array;
use itoa::Buffer;
use pool::Pool;
use pool_state::{Drive, Plan, State};
use rack::{Bay, Rack};
use shr_base::lvm_id;
use shr_script::{ReplyText, add, add_field};

/// Sets the text to how the pool stands: its state, its drives and arrays, its plan, its sectors and the works that are left.
pub fn show<R: Bay>(pool: &Pool<R>, text: &mut ReplyText)
    requires { (volume (view R.seen R.shelf pool.now)).fit }
    ensures { text.new.items ≡ status_text (view R.seen R.shelf pool.now).linear (book (view R.seen R.shelf pool.now)) }
{
    let state = pool.state();
    text.clear();
    add_pool(text, state);
    add_drives(text, 0, state.drives.as_slice());
    add_arrays(text, pool);
    add_plan(text, state.plan);
    add(text, b"\n");
    add_counts(text, pool.size(), pool.left());
}

// Adds `pool ID epoch E extent X`.
fn add_pool(text: &mut ReplyText, state: &State)
    requires { array_vec_len text.old + 120 ≤ 4096 }
    ensures items { text.new.items ≡ text.old.items ++ pool_line state.now }
    ensures len { array_vec_len text.new ≤ array_vec_len text.old + 120 }
{
    add(text, b"pool ");
    add(text, &lvm_id(&state.pool));
    add_field(text, b" epoch ", state.epoch);
    add_field(text, b" extent ", u64::from(state.extent));
    add(text, b"\n");
}

// Adds a line for each drive, their places from `place` on.
fn add_drives(text: &mut ReplyText, place: u64, drives: &[Drive])
    requires room { array_vec_len text.old + 90 * length drives.now ≤ 4096 }
    requires places { place + length drives.now < 2 ^ 64 }
    ensures items { text.new.items ≡ text.old.items ++ drive_lines place drives.now }
    ensures len { array_vec_len text.new ≤ array_vec_len text.old + 90 * length drives.now }
{
    let Some((drive, others)) = drives.split_first() else {
        return;
    };
    add_drive(text, place, drive);
    add_drives(text, place + 1, others);
}

// Adds `drive P units U whole` or `drive P units U missing`.
fn add_drive(text: &mut ReplyText, place: u64, drive: &Drive)
    requires { array_vec_len text.old + 90 ≤ 4096 }
    ensures items { text.new.items ≡ text.old.items ++ drive_line place drive.now }
    ensures len { array_vec_len text.new ≤ array_vec_len text.old + 90 }
{
    add_field(text, b"drive ", place);
    add_field(text, b" units ", drive.units);
    add(text, b" ");
    add(text, word_of(drive.missing));
    add(text, b"\n");
}

// Whether a drive is lost, in a word.
fn word_of(missing: bool) -> &'static [u8]
    ensures word { result.now ≡ drive_word missing }
    ensures short { length result.now ≤ 7 }
{
    if missing { b"missing" } else { b"whole" }
}

// Adds a line for each array.
fn add_arrays<R: Bay>(text: &mut ReplyText, pool: &Pool<R>)
    requires fit { (volume (view R.seen R.shelf pool.now)).fit }
    requires room { array_vec_len text.old + 2400 ≤ 4096 }
    ensures items { text.new.items ≡ text.old.items ++ array_lines (book (view R.seen R.shelf pool.now)) }
    ensures len { array_vec_len text.new ≤ array_vec_len text.old + 2400 }
{
    for number in 0..pool.state().made {
        match pool.array(number) {
            Some(array) => add_array(text, u64::from(number), array),
            None => {}
        }
    }
}

// Adds `array A level L members N rows R`.
fn add_array(text: &mut ReplyText, number: u64, array: &Array)
    requires { array_vec_len text.old + 150 ≤ 4096 }
    ensures items { text.new.items ≡ text.old.items ++ array_line number array.now }
    ensures len { array_vec_len text.new ≤ array_vec_len text.old + 150 }
{
    let mut level = Buffer::new();
    let truth = array.truth();
    add_field(text, b"array ", number);
    add(text, b" level ");
    add(text, level.format(truth.level).as_bytes());
    add_field(text, b" members ", u64::from(truth.raid_disks));
    add_field(text, b" rows ", array.rows());
    add(text, b"\n");
}

// Adds `plan nothing`, `plan add P` or `plan replace P`.
fn add_plan(text: &mut ReplyText, plan: Plan)
    requires { array_vec_len text.old + 40 ≤ 4096 }
    ensures items { text.new.items ≡ text.old.items ++ plan_words plan }
    ensures len { array_vec_len text.new ≤ array_vec_len text.old + 40 }
{
    match plan {
        Plan::Nothing => add(text, b"plan nothing"),
        Plan::Add { place } => add_field(text, b"plan add ", u64::from(place)),
        Plan::Replace { place } => add_field(text, b"plan replace ", u64::from(place)),
    }
}

// Adds `size N`, `left L` and `end`.
fn add_counts(text: &mut ReplyText, sectors: u64, works: u64)
    requires { array_vec_len text.old + 90 ≤ 4096 }
    ensures { text.new.items ≡ text.old.items ++ count_lines sectors works }
{
    add_field(text, b"size ", sectors);
    add(text, b"\n");
    add_field(text, b"left ", works);
    add(text, b"\nend\n");
}
