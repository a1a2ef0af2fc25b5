ghost use Rattle.std.specs.Prelude.{◌≡◌, IfOk};
ghost use Rattle.job_spec.specs.ReportText.{report_text};

use crate::lines::{write_actors, write_closing, write_events, write_picks};
use job_model::{EndList, PickList, Script};
use s3_types::Bytes;
use std::alloc::{AllocError, Global};

/// Returns the text of the report: a line for each event that has ended, for each chosen attempt,
/// for the driver and for each declared attempt, then the number of sends and the status. Fails
/// with AllocError only if memory runs out.
pub fn report_text(
    alloc: Global,
    due: u8,
    sent: usize,
    picks: &PickList,
    ends: &EndList,
    script: &Script,
) -> Result<Bytes, AllocError>
    ensures { IfOk result (λ text. text ≡ report_text due sent picks.now ends.now script.now) }
{
    let ends = ends.as_slice();
    let mut text = String::new(alloc);
    write_events(&mut text, "", 1, script.events.as_slice(), ends)?;
    write_picks(&mut text, "", picks.as_slice())?;
    write_actors(alloc, &mut text, "", script, ends)?;
    write_closing(&mut text, sent, due)?;
    Bytes::new(alloc, text.into_bytes())
}
