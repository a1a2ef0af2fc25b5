ghost use Rattle.std.specs.Prelude.{◌≡◌, ◌++◌, string_bytes, OnOk};
ghost use Rattle.text_and_lists.specs.Words.{ended, text_of};
ghost use Rattle.job_model.specs.Legal.{AreFates};
ghost use Rattle.job_script.specs.HeadLines.{loss_line, loss_lines};

use crate::print_words::fate_word;
use s3_types::{Fate, Fates};
use std::alloc::AllocError;

fn put_loss(out: &mut String, sending: u64, fate: Fate) -> Result<(), AllocError>
    ensures { OnOk result (string_bytes out.new ≡ string_bytes out.old ++ ended (loss_line (sending, fate))) }
{
    let fate = fate_word(fate);
    write!(out, "loss {sending} {fate}\n")
}

/// Appends a line for each send that has a fate, by rising number.
pub fn put_losses(out: &mut String, fates: &Fates) -> Result<(), AllocError>
    requires { AreFates fates.now }
    ensures { OnOk result (string_bytes out.new ≡ string_bytes out.old ++ text_of (loss_lines fates.now)) }
{
    let mut from = 1;
    while let Some((sending, fate)) = fates.first_from(from) {
        put_loss(out, sending, fate)?;
        from = sending + 1;
    }
    Ok(())
}
