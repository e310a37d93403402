ghost use Rattle.std.specs.Prelude.{◌≡◌, ◌++◌, OnOk, OnErr, flat_map, string_bytes, IfOk};
ghost use Rattle.rpc_model.specs.Texts.{text_of, call_lines, one_wire, wire_lines, one_lane, lane_lines, journal_text};
ghost use Rattle.journal_text.specs.Writing.{IsWritable};

use crate::lines::{
    put_call, put_cames, put_cancels, put_entries, put_lane, put_losses, put_marks, put_outs,
    put_wire,
};
use rpc_base::NoMemory;
use rpc_model::{CallLog, Journal, LaneLog, WireLog};
use std::alloc::Global;

/// Appends the one spelling of a journal: a line for each call, each followed by its entries, then each wire with its
/// lists, the line `timer` with the marks that fired, and each lane with its cancels. After want of memory `to` is as
/// before. The lines are this project's own choice.
///
/// The condition is what makes the spelling one that can be read: there are 1 to 16 lanes, moments of calls and entries
/// are below 2^60, each entry's source is of the kind that brings its event, and fates are those that a journal has.
pub fn write_journal(journal: &Journal, to: &mut Vec<u8>) -> Result<(), NoMemory>
    requires { IsWritable journal.now }
    ensures written { OnOk result (to.new.items ≡ to.old.items ++ journal_text journal.now) }
    ensures kept { OnErr result (to.new.items ≡ to.old.items) }
{
    let text = spell_journal(*to.allocator(), journal)?;
    to.extend_from_slice(text.as_bytes())?;
    Ok(())
}

/// The text of a journal.
#[tactic(auto, using(crate::proofs::Lists::text_of_append), unfolding(rpc_model::specs::Texts::text_of, rpc_model::specs::Texts::journal_lines, rpc_model::specs::Texts::journal_text))]
fn spell_journal(alloc: Global, journal: &Journal) -> Result<String, NoMemory>
    ensures { IfOk result (λ text. string_bytes text ≡ journal_text journal.now) }
{
    let mut text = String::new(alloc);
    put_calls(&mut text, journal.calls.list())?;
    put_wires(&mut text, journal.wires.list())?;
    text.push_str("timer\n")?;
    put_marks(&mut text, journal.marks.list())?;
    put_lanes(&mut text, journal.lanes.list())?;
    Ok(text)
}

/// Appends the lines of calls.
#[tactic(auto, using(crate::proofs::Lists::text_of_append), unfolding(rpc_model::specs::Texts::text_of))]
fn put_calls(text: &mut String, calls: &[CallLog]) -> Result<(), NoMemory>
    ensures { OnOk result (string_bytes text.new ≡ string_bytes text.old ++ text_of (flat_map call_lines calls.now)) }
{
    for item in calls {
        put_one_call(text, item)?;
    }
    Ok(())
}

/// Appends the lines of a call.
#[tactic(auto, unfolding(rpc_model::specs::Texts::text_of))]
fn put_one_call(text: &mut String, it: &CallLog) -> Result<(), NoMemory>
    ensures { OnOk result (string_bytes text.new ≡ string_bytes text.old ++ text_of (call_lines it.now)) }
{
    put_call(text, it.call, it.first, it.width, it.lane, it.moment)?;
    text.push_str("\n")?;
    put_entries(text, it.log.list())
}

/// Appends the lines of wires, whose numbers begin with 0.
#[tactic(auto, using(crate::proofs::Lists::text_of_append), unfolding(rpc_model::specs::Texts::text_of))]
fn put_wires(text: &mut String, wires: &[WireLog]) -> Result<(), NoMemory>
    ensures { OnOk result (string_bytes text.new ≡ string_bytes text.old ++ text_of (wire_lines 0 wires.now)) }
{
    for (server, item) in wires.iter().enumerate() {
        put_one_wire(text, server as u64, item)?;
    }
    Ok(())
}

/// Appends the lines of a wire.
#[tactic(auto, using(crate::proofs::Lists::text_of_append), unfolding(rpc_model::specs::Texts::text_of))]
fn put_one_wire(text: &mut String, server: u64, it: &WireLog) -> Result<(), NoMemory>
    ensures { OnOk result (string_bytes text.new ≡ string_bytes text.old ++ text_of (one_wire server it.now)) }
{
    put_wire(text, server, it.how)?;
    text.push_str("\n")?;
    put_outs(text, it.out.list())?;
    put_cames(text, it.came.list())?;
    put_losses(text, it.losses.list())?;
    Ok(())
}

/// Appends the lines of lanes, whose numbers begin with 0.
#[tactic(auto, using(crate::proofs::Lists::text_of_append), unfolding(rpc_model::specs::Texts::text_of))]
fn put_lanes(text: &mut String, lanes: &[LaneLog]) -> Result<(), NoMemory>
    ensures { OnOk result (string_bytes text.new ≡ string_bytes text.old ++ text_of (lane_lines 0 lanes.now)) }
{
    for (number, item) in lanes.iter().enumerate() {
        put_one_lane(text, number as u64, item)?;
    }
    Ok(())
}

/// Appends the lines of a lane.
#[tactic(auto, unfolding(rpc_model::specs::Texts::text_of))]
fn put_one_lane(text: &mut String, number: u64, it: &LaneLog) -> Result<(), NoMemory>
    ensures { OnOk result (string_bytes text.new ≡ string_bytes text.old ++ text_of (one_lane number it.now)) }
{
    put_lane(text, number)?;
    text.push_str("\n")?;
    put_cancels(text, it.cancels.list())
}
