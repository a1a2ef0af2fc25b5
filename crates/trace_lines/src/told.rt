//! Writes the members of a line that tell the outcome of a send.
ghost use Rattle.std.specs.Prelude.{◌≡◌, ◌∷◌, OnOk, codes};
ghost use Rattle.serde_json.specs.Data.{boolean, put};
ghost use Rattle.trace_lines.specs.Lines.{put_all, whole};
ghost use Rattle.trace_lines.specs.Members.{members_of};
ghost use Rattle.trace_lines.specs.Requests.{error_of, has_reached, refusal_in, told, told_to, took_effect};

use crate::line::Line;
use crate::words::error_code;
use s3_types::{Outcome, Refusal, Reply};
use std::alloc::AllocError;

/// Returns whether a send reached the store, or the cluster.
fn has_reached(outcome: &Outcome) -> bool
    ensures { result ≡ has_reached outcome.now }
{
    match outcome {
        Outcome::Answered(_) => true,
        Outcome::ReplyLost => true,
        _ => false,
    }
}

/// Returns the refusal in a reply, if it is one.
fn refusal_in(reply: &Reply) -> Option<Refusal>
    ensures { result ≡ refusal_in reply.now }
{
    match reply {
        Reply::Refused(refusal) => Some(*refusal),
        _ => None,
    }
}

/// Puts whether a send took effect, by the reply that S3 must give, and the error code if the send
/// was refused.
pub(crate) fn put_effect<'a>(
    line: &mut Line<'a>,
    outcome: &Outcome,
    due: &Reply,
) -> Result<(), AllocError>
    ensures { OnOk result (members_of line.new
        ≡ put_all ((codes "effect", boolean (took_effect outcome.now due.now)) ∷ error_of outcome.now due.now)
        (members_of line.old)) }
{
    if !has_reached(outcome) {
        return line.flag("effect", false);
    }
    match refusal_in(due) {
        Some(refusal) => {
            line.flag("effect", false)?;
            line.text("error", error_code(refusal))
        }
        None => line.flag("effect", true),
    }
}

/// Puts how many entries were listed, and whether more remain.
fn put_listed<'a>(line: &mut Line<'a>, listed: usize, more: bool) -> Result<(), AllocError>
    ensures { OnOk result (members_of line.new
        ≡ put (codes "more") (boolean more) (put (codes "listed") (whole listed) (members_of line.old))) }
{
    line.whole("listed", listed as u64)?;
    line.flag("more", more)
}

/// Puts the facts of a reply that the line repeats.
fn put_told<'a>(line: &mut Line<'a>, reply: &Reply) -> Result<(), AllocError>
    ensures { OnOk result (members_of line.new ≡ put_all (told reply.now) (members_of line.old)) }
{
    match reply {
        Reply::Page { entries, more } => put_listed(line, entries.len(), *more),
        Reply::Uploads { entries, more } => put_listed(line, entries.len(), *more),
        Reply::Upload(id) => line.whole("upload", *id),
        _ => Ok(()),
    }
}

/// Puts the facts that the sender received in a reply.
pub(crate) fn put_told_to<'a>(line: &mut Line<'a>, outcome: &Outcome) -> Result<(), AllocError>
    ensures { OnOk result (members_of line.new ≡ put_all (told_to outcome.now) (members_of line.old)) }
{
    match outcome {
        Outcome::Answered(reply) => put_told(line, reply),
        _ => Ok(()),
    }
}
