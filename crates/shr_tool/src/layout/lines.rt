//! The lines of `layout`.

ghost use Rattle.std.specs.Prelude.{◌≡◌, ◌+◌, ◌*◌, ◌≤◌, ◌<◌, ◌^◌, ◌++◌, length, decimal, sum_by};
ghost use Rattle.arrayvec.specs.ArrayVec.{array_vec_len};
ghost use Rattle.layer_plan.specs.Slicing.{has, height_on as height_on_place};
ghost use Rattle.layer_plan.specs.Layering.{array_of};
ghost use Rattle.shr_tool.specs.LayoutText.{spaced, layer_line, unused_line as unused_text_of, capacity_line, bound_line, refusal_line};

use itoa::Buffer;
use layer_plan::{Layer, PlanError};
use shr_script::{ReplyText, add, refused_number_reply, refused_reply};

/// `layer I members M.. height H extents X`
pub fn layer_text(text: &mut ReplyText, number: u64, layer: &Layer)
    ensures { text.new.items ≡ layer_line number layer.now }
{
    text.clear();
    add(text, b"layer ");
    add_number(text, number);
    add(text, b" members");
    add_places(text, layer.members.as_slice());
    add(text, b" height ");
    add_number(text, layer.height);
    add(text, b" extents ");
    add_number(text, layer.extents);
    add(text, b"\n");
}

/// `unused D U`
pub fn unused_text(text: &mut ReplyText, place: u64, count: u64)
    requires { 0 < count }
    ensures { text.new.items ≡ unused_text_of place count }
{
    text.clear();
    add(text, b"unused ");
    add_number(text, place);
    add(text, b" ");
    add_number(text, count);
    add(text, b"\n");
}

/// `capacity C`
pub fn capacity_text(text: &mut ReplyText, capacity: u64)
    ensures { text.new.items ≡ capacity_line capacity }
{
    text.clear();
    add(text, b"capacity ");
    add_number(text, capacity);
    add(text, b"\n");
}

/// `bound B spared D`
pub fn bound_text(text: &mut ReplyText, bound: u64, spared: u32)
    ensures { text.new.items ≡ bound_line bound spared }
{
    text.clear();
    add(text, b"bound ");
    add_number(text, bound);
    add(text, b" spared ");
    add_number(text, u64::from(spared));
    add(text, b"\n");
}

/// `refused` and why there is no plan.
pub fn refusal_text(text: &mut ReplyText, error: PlanError)
    ensures { text.new.items ≡ refusal_line error }
{
    match error {
        PlanError::TooFew => refused_reply(text, b"too-few"),
        PlanError::TooMany => refused_reply(text, b"too-many"),
        PlanError::NoRoom { drive } => refused_number_reply(text, b"no-room", u64::from(drive)),
    }
}

// Adds a number in decimal digits.
fn add_number(text: &mut ReplyText, number: u64)
    requires { array_vec_len text.old + 20 ≤ 4096 }
    ensures items { text.new.items ≡ text.old.items ++ decimal number }
    ensures len { array_vec_len text.new ≤ array_vec_len text.old + 20 }
{
    let mut digits = Buffer::new();
    add(text, digits.format(number).as_bytes());
}

// Adds each place after a space.
fn add_places(text: &mut ReplyText, places: &[u32])
    requires { array_vec_len text.old + 21 * length places.now ≤ 4096 }
    ensures items { text.new.items ≡ text.old.items ++ spaced places.now }
    ensures len { array_vec_len text.new ≤ array_vec_len text.old + 21 * length places.now }
{
    let Some((first, others)) = places.split_first() else {
        return;
    };
    add(text, b" ");
    add_number(text, u64::from(*first));
    add_places(text, others);
}

/// The units that all layers take of a drive.
pub fn used(layers: &[Layer], place: u32) -> u64
    requires { sum_by (λ layer. height_on_place (array_of layer) place) layers.now < 2 ^ 64 }
    ensures { result ≡ sum_by (λ layer. height_on_place (array_of layer) place) layers.now }
{
    layers.iter().map(|layer| height_on(layer, place)).sum()
}

// The units that a layer takes of a drive.
fn height_on(layer: &Layer, place: u32) -> u64
    ensures { result ≡ height_on_place (array_of layer.now) place }
{
    if is_member(layer.members.as_slice(), place) {
        layer.height
    } else {
        0
    }
}

// Whether a place is among the members.
fn is_member(members: &[u32], place: u32) -> bool
    ensures { result ≡ has members.now place }
{
    members.iter().any(|member| *member == place)
}
