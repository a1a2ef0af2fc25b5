ghost use Rattle.std.specs.Prelude.{◌≡◌, ◌≤◌, ◌++◌, length, map, string_bytes, IfOk, OnOk, Ok};
ghost use Rattle.std.specs.FinMap as fin;
ghost use Rattle.text_and_lists.specs.Words.{ended, text_of};
ghost use Rattle.job_model.specs.Legal.{IsLegal};
ghost use Rattle.job_script.specs.Print.{script_text};
ghost use Rattle.s3_types.specs.declared.limits.TheConstants.{MOST_SCRIPT_BYTES};
ghost use Rattle.twin_script.specs.Print.{side_word, turn_line, parting_text, twins_text};
ghost use Rattle.twin_script.specs.Twins.{twins_of};

use crate::turns::{Side, TwinTurn};
use crate::twins::Twins;
use job_model::Script;
use job_script::print_script;
use std::alloc::{AllocError, Global};

fn side_word(side: Side) -> &'static str
    ensures { result.now ≡ side_word side }
{
    match side {
        Side::First => "a",
        Side::Second => "b",
    }
}

fn put_turn(out: &mut String, turn: TwinTurn) -> Result<(), AllocError>
    ensures { OnOk result (string_bytes out.new ≡ string_bytes out.old ++ ended (turn_line turn)) }
{
    let side = side_word(turn.side);
    let count = turn.count;
    write!(out, "{side} {count}\n")
}

/// Appends a line for each turn.
fn put_turns(out: &mut String, turns: &[TwinTurn]) -> Result<(), AllocError>
    ensures { OnOk result (string_bytes out.new ≡ string_bytes out.old ++ text_of (map turn_line turns.now)) }
{
    for turn in turns {
        put_turn(out, *turn)?;
    }
    Ok(())
}

/// Appends a separator line.
fn put_parting(out: &mut String) -> Result<(), AllocError>
    ensures { OnOk result (string_bytes out.new ≡ string_bytes out.old ++ parting_text) }
{
    out.push_str("=====\n")
}

/// Appends the separator line and the lines of the turns.
fn put_order(out: &mut String, turns: &[TwinTurn]) -> Result<(), AllocError>
    ensures { OnOk result (string_bytes out.new ≡ string_bytes out.old
        ++ (parting_text ++ text_of (map turn_line turns.now))) }
{
    put_parting(out)?;
    put_turns(out, turns)
}

/// Appends the text of a script, which is UTF-8 because the script's words are.
fn put_script(alloc: Global, out: &mut String, script: &Script) -> Result<(), AllocError>
    ensures text { OnOk result (string_bytes out.new ≡ string_bytes out.old ++ script_text script.now) }
    ensures legal { IsLegal script.now }
{
    let _ = &script.lanes;
    let bytes = print_script(alloc, script)?;
    match str::from_utf8(bytes.as_slice()) {
        Ok(text) => out.push_str(text),
        Err(_) => unreachable!(),
    }
}

/// Returns the text of two scripts and an order: the first script as `print_script` gives it, a
/// line `=====`, the second script, a line `=====`, and a line `a N` or `b N` for each turn. LF
/// ends each line. If the text has at most 67,108,864 bytes and the first script names at most
/// 10,000 sends (the second names none), reading it gives the same two scripts and order again.
///
/// The only error is out of memory: the call needs memory for the text and for that of one script.
/// It takes one pass over the order, and those of `print_script` over each script.
pub fn print_twins(alloc: Global, twins: &Twins) -> Result<String, AllocError>
    ensures text { IfOk result (λ text. string_bytes text ≡ twins_text twins.now) }
    ensures again { IfOk result (λ text. fin.len twins.now.first.fates ≤ 10000
        → length (string_bytes text) ≤ MOST_SCRIPT_BYTES → twins_of (string_bytes text) ≡ Ok twins.now) }
{
    let mut out = String::new(alloc);
    put_script(alloc, &mut out, &twins.first)?;
    put_parting(&mut out)?;
    put_script(alloc, &mut out, &twins.second)?;
    put_order(&mut out, twins.order.as_slice())?;
    Ok(out)
}
