ghost use Rattle.std.specs.Prelude.{◌≡◌, ◌++◌, codes, string_bytes, IfOk, OnOk};
ghost use Rattle.trace_reader.specs.Reading.{name_of};
ghost use Rattle.audit_text.specs.Answer.{fault_text, fault_word, member_text};

use std::alloc::{AllocError, Global};
use trace_reader::{Field, TraceFault};

/// Returns the word of a fault.
fn fault_word(fault: TraceFault) -> &'static str
    requires { fault ≡ TraceFault.NoMemory → ⊥ }
    ensures { result.now ≡ fault_word fault }
{
    match fault {
        TraceFault::TooLong => "too-long",
        TraceFault::NotJson => "not-json",
        TraceFault::MissingField(_) => "missing-field",
        TraceFault::WrongKind(_) => "wrong-kind",
        TraceFault::UnknownOp => "unknown-op",
        TraceFault::OutOfOrder => "out-of-order",
        TraceFault::Repeated => "repeated",
        TraceFault::SamePath => "same-path",
        TraceFault::NoSource => "no-source",
        TraceFault::NoMemory => unreachable!(),
    }
}

/// Writes a blank and the name of a member.
fn write_name(text: &mut String, field: Field) -> Result<(), AllocError>
    ensures { OnOk result (string_bytes text.new ≡ string_bytes text.old ++ (codes " " ++ name_of field)) }
{
    text.push_str(" ")?;
    text.push_str(field.name())
}

/// Writes a blank and the name of the member that a fault is about, if it is about one.
fn write_member(text: &mut String, fault: TraceFault) -> Result<(), AllocError>
    ensures { OnOk result (string_bytes text.new ≡ string_bytes text.old ++ member_text fault) }
{
    match fault {
        TraceFault::MissingField(field) => write_name(text, field),
        TraceFault::WrongKind(field) => write_name(text, field),
        _ => Ok(()),
    }
}

/// Returns the text that reports a fault of a trace and the number of the first line with one.
/// Fails only if memory runs out.
#[tactic(auto, unfolding(crate::specs::Answer::fault_text))]
pub fn fault_text(alloc: Global, number: u64, fault: TraceFault) -> Result<String, AllocError>
    // NoMemory is no fault of a trace.
    requires of_trace { fault ≡ TraceFault.NoMemory → ⊥ }
    ensures text { IfOk result (λ text. string_bytes text ≡ fault_text number fault) }
{
    let word = fault_word(fault);
    let mut text = format!(in alloc; "trace fault {word}")?;
    write_member(&mut text, fault)?;
    write!(text, " at line {number}\n")?;
    Ok(text)
}
