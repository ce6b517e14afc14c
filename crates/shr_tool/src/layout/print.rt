//! Plans the layers and puts their lines.

ghost use Rattle.std.specs.Prelude.{◌≡◌, ◌≢◌, ◌+◌, ◌-◌, ◌≤◌, ◌<◌, ◌^◌, ◌++◌, map, length, All, OnErr};
ghost use Rattle.std.specs.List.{range_with_len};
ghost use Rattle.rack.specs.Seen.{Rose};
ghost use Rattle.layer_plan.specs.Slicing.{IsSlicing};
ghost use Rattle.layer_plan.specs.Layering.{array_of};
ghost use Rattle.shr_base.specs.Units.{units_of};
ghost use Rattle.shr_tool.specs.Outcome.{HasStatusCause};
ghost use Rattle.shr_words.specs.LayoutWords.{IsSound, units_asked};
ghost use Rattle.shr_tool.specs.LayoutText.{Puts, Prints, ended as ended_by, plan_text, layer_lines, unused_line, unused_lines, capacity_line, bound_line};

use crate::layout::lines::{
    bound_text, capacity_text, layer_text, refusal_text, unused_text, used,
};
use crate::status::Status;
use arrayvec::ArrayVec;
use io_ends::{Failed, Sink};
use layer_plan::{Layer, Layers, layout};
use shr_base::units;
use shr_script::ReplyText;
use shr_words::{LayoutRequest, MOST_SIZES};

/// Plans the layers and puts them, or why there are none, one line a call of the sink. It takes no
/// memory.
pub fn print_layout<O: Sink>(request: &LayoutRequest, out: &mut O) -> Status
    requires { IsSound request.now }
    ensures sink { O.faults out.old ≤ O.faults out.new }
    ensures cause { HasStatusCause result 0 0 (O.faults out.old) (O.faults out.new) }
    ensures told { O.told out.old → O.told out.new }
    ensures other { result ≢ Status.Limit }
    ensures prints { Prints (O.told out.old) result (units_asked request.now) (O.taken out.old) (O.taken out.new) }
{
    let units = drive_units(request);
    match layout(units.as_slice()) {
        Ok(plan) => {
            let put = put_plan(units.as_slice(), &plan, out);
            ended(put, Status::Done)
        }
        Err(error) => {
            let mut text = ReplyText::new();
            refusal_text(&mut text, error);
            let put = put_line(&text, out);
            ended(put, Status::Refused)
        }
    }
}

// The status after all was put, or the sink's where it failed.
fn ended(put: Result<(), Failed>, status: Status) -> Status
    ensures { result ≡ ended_by put status }
{
    match put {
        Ok(()) => status,
        Err(_) => Status::Sink,
    }
}

// The units of each drive.
fn drive_units(request: &LayoutRequest) -> ArrayVec<u64, MOST_SIZES>
    requires { IsSound request.now }
    ensures units { result.items ≡ units_asked request.now }
    ensures small { All (λ own. own < 2 ^ 41) result.items }
{
    let mut all = ArrayVec::new();
    for sectors in request.sizes.as_slice() {
        all.push(units_on(*sectors, request.extent));
    }
    all
}

// The units of one drive.
fn units_on(sectors: u64, extent: u32) -> u64
    requires size { sectors < 2 ^ 48 }
    requires least { 128 ≤ extent }
    ensures value { result ≡ units_of sectors extent }
    ensures small { result < 2 ^ 41 }
{
    units(sectors, extent)
}

// Puts one line.
fn put_line<O: Sink>(text: &ReplyText, out: &mut O) -> Result<(), Failed>
    ensures sink { O.faults out.old ≤ O.faults out.new }
    ensures failed { OnErr result (Rose (O.faults out.old) (O.faults out.new)) }
    ensures told { O.told out.old → O.told out.new }
    ensures puts { O.told out.old → Puts result (O.taken out.old) (O.taken out.new) text.now.items }
{
    out.put(text.as_slice())
}

// Puts all lines of a plan.
fn put_plan<O: Sink>(units: &[u64], plan: &Layers, out: &mut O) -> Result<(), Failed>
    requires few { length units.now ≤ 16 }
    requires slicing { IsSlicing units.now (map array_of plan.now.layers.items) }
    ensures sink { O.faults out.old ≤ O.faults out.new }
    ensures failed { OnErr result (Rose (O.faults out.old) (O.faults out.new)) }
    ensures told { O.told out.old → O.told out.new }
    ensures puts { O.told out.old → Puts result (O.taken out.old) (O.taken out.new) (plan_text units.now plan.now) }
{
    let mut text = ReplyText::new();
    put_layers(&mut text, 0, plan.layers.as_slice(), out)?;
    put_unused(&mut text, units, plan.layers.as_slice(), 0, out)?;
    put_totals(&mut text, plan, out)
}

// Puts a line for each layer, numbered from `number` on.
fn put_layers<O: Sink>(
    text: &mut ReplyText,
    number: u64,
    layers: &[Layer],
    out: &mut O,
) -> Result<(), Failed>
    requires { number + length layers.now < 2 ^ 64 }
    ensures sink { O.faults out.old ≤ O.faults out.new }
    ensures failed { OnErr result (Rose (O.faults out.old) (O.faults out.new)) }
    ensures told { O.told out.old → O.told out.new }
    ensures puts { O.told out.old → Puts result (O.taken out.old) (O.taken out.new) (layer_lines number layers.now) }
{
    let Some((layer, others)) = layers.split_first() else {
        return Ok(());
    };
    layer_text(text, number, layer);
    put_line(text, out)?;
    put_layers(text, number + 1, others, out)
}

// Puts a line for each drive from `place` on that has units outside every layer.
fn put_unused<O: Sink>(
    text: &mut ReplyText,
    units: &[u64],
    layers: &[Layer],
    place: usize,
    out: &mut O,
) -> Result<(), Failed>
    requires few { length units.now ≤ 16 }
    requires slicing { IsSlicing units.now (map array_of layers.now) }
    ensures sink { O.faults out.old ≤ O.faults out.new }
    ensures failed { OnErr result (Rose (O.faults out.old) (O.faults out.new)) }
    ensures told { O.told out.old → O.told out.new }
    ensures puts { O.told out.old → Puts result (O.taken out.old) (O.taken out.new) (unused_lines units.now layers.now (range_with_len place (length units.now - place))) }
{
    if place >= units.len() {
        return Ok(());
    }
    let count = units[place] - used(layers, place as u32);
    put_unused_line(text, place as u64, count, out)?;
    put_unused(text, units, layers, place + 1, out)
}

// Puts the line of a drive that has units outside every layer.
fn put_unused_line<O: Sink>(
    text: &mut ReplyText,
    place: u64,
    count: u64,
    out: &mut O,
) -> Result<(), Failed>
    ensures sink { O.faults out.old ≤ O.faults out.new }
    ensures failed { OnErr result (Rose (O.faults out.old) (O.faults out.new)) }
    ensures told { O.told out.old → O.told out.new }
    ensures puts { O.told out.old → Puts result (O.taken out.old) (O.taken out.new) (unused_line place count) }
{
    if count == 0 {
        return Ok(());
    }
    unused_text(text, place, count);
    put_line(text, out)
}

// Puts what the layers offer together, and its bound.
fn put_totals<O: Sink>(text: &mut ReplyText, plan: &Layers, out: &mut O) -> Result<(), Failed>
    ensures sink { O.faults out.old ≤ O.faults out.new }
    ensures failed { OnErr result (Rose (O.faults out.old) (O.faults out.new)) }
    ensures told { O.told out.old → O.told out.new }
    ensures puts { O.told out.old → Puts result (O.taken out.old) (O.taken out.new) (capacity_line plan.now.capacity ++ bound_line plan.now.bound plan.now.spared) }
{
    capacity_text(text, plan.capacity);
    put_line(text, out)?;
    bound_text(text, plan.bound, plan.spared);
    put_line(text, out)
}
