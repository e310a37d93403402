//! The text of the generated script.

ghost use Rattle.std.specs.Prelude.{◌≡◌, ◌++◌, ◌<◌, ◌^◌, OnOk, OnErr, IfOk, string_bytes};
ghost use Rattle.script_gen.specs.Generator.{call_line, reply_line, join_line, call_lines, generated};

use crate::draw::{channel_of, code_of, next_draw};
use rpc_base::NoMemory;
use std::alloc::{AllocError, Global};

/// The lines of settings and channels, ahead of the calls.
const SETTINGS: &str =
    "open 64\nleaf x a,b,c retry=2 backup=50 timeout=400\nleaf y b,c retry=1 backup=-1 timeout=300\npar p fail=2 ok=0 timeout=600 x:index:cat y:same:cat x:split:cat\nsel s retry=1 timeout=-1 p x\n";

/// Appends the generated script of so many calls. After want of memory `to` is as before.
///
/// Five lines of settings and channels come first, then three lines for each call from 1 on: at 10 times its number it
/// begins, one millisecond later one reply comes, and then it is joined. Which channel it is on and the reply's code follow
/// from its draw, and each draw from the one before; the first follows from the number of calls. The script is this
/// project's own choice.
pub fn generate(alloc: Global, count: u32, to: &mut Vec<u8>) -> Result<(), NoMemory>
    ensures text { OnOk result (to.new.items ≡ to.old.items ++ generated count) }
    ensures err { OnErr result (to.new.items ≡ to.old.items) }
{
    let text = generated_text(alloc, count)?;
    to.extend_from_slice(text.as_bytes())?;
    Ok(())
}

fn generated_text(alloc: Global, count: u32) -> Result<String, AllocError>
    ensures { IfOk result (λ text. string_bytes text ≡ generated count) }
{
    let mut text = String::from_str(alloc, SETTINGS)?;
    let mut draw = u64::from(count);
    for before in 0..count {
        draw = next_draw(draw);
        put_lines(alloc, draw, u64::from(before) + 1, &mut text)?;
    }
    Ok(text)
}

/// Appends the three lines of the call of this number with its draw.
#[tactic(auto, using(std::proofs::Common::append_assoc))]
fn put_lines(alloc: Global, draw: u64, call: u64, text: &mut String) -> Result<(), AllocError>
    requires { call < 2 ^ 33 }
    ensures { OnOk result (string_bytes text.new ≡ string_bytes text.old ++ call_lines draw call) }
{
    let channel = channel_of(draw);
    let start = 10 * call;
    let begins = call_line(alloc, start, call, channel.name())?;
    let replies = reply_line(alloc, start + 1, call, channel.leaf(call), code_of(draw))?;
    let joins = join_line(alloc, call)?;
    text.push_str(begins.as_str())?;
    text.push_str(replies.as_str())?;
    text.push_str(joins.as_str())?;
    Ok(())
}

#[tactic(auto, using(std::proofs::Common::append_assoc))]
fn call_line(alloc: Global, moment: u64, call: u64, name: &str) -> Result<String, AllocError>
    ensures { IfOk result (λ line. string_bytes line ≡ call_line moment call name.now) }
{
    let mut line = format!(in alloc; "at {moment} call {call} ")?;
    line.push_str(name)?;
    line.push_str(" u,v,w\n")?;
    Ok(line)
}

#[tactic(auto, using(std::proofs::Common::append_assoc))]
fn reply_line(
    alloc: Global,
    moment: u64,
    call: u64,
    leaf: u32,
    code: u32,
) -> Result<String, AllocError>
    ensures { IfOk result (λ line. string_bytes line ≡ reply_line moment call leaf code) }
{
    let mut line = format!(in alloc; "at {moment} reply {call} ")?;
    let answer = format!(in alloc; "{leaf}#0 {code} t\n")?;
    line.push_str(answer.as_str())?;
    Ok(line)
}

fn join_line(alloc: Global, call: u64) -> Result<String, AllocError>
    ensures { IfOk result (λ line. string_bytes line ≡ join_line call) }
{
    format!(in alloc; "join {call}\n")
}
