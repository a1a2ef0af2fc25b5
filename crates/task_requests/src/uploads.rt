ghost use Rattle.std.specs.Prelude.{◌≡◌, ◌<◌, length, get_or, [], IfOk, OnOk, OnErr};
ghost use Rattle.s3_types.specs.declared.request.Request.TheVariants.{UploadPart};
ghost use Rattle.job_protocol.specs.AtWork.{task_script, with_known};
ghost use Rattle.job_protocol.specs.Records.{file_key};
ghost use Rattle.task_requests.specs.Writing.{part_behind, tag_in, upload_in, with_drawn, with_tag};

use crate::names::{file_at, target};
use crate::requests::ask_part;
use job_model::TaskPlan;
use s3_types::{Reply, Request, Tag, let_go};
use std::alloc::{AllocError, Global};

/// Returns the upload id in a reply, if it has one. Takes no memory.
pub fn upload_in(reply: &Reply) -> Option<u64>
    ensures { result ≡ upload_in reply.now }
{
    match reply {
        Reply::Upload(upload) => Some(*upload),
        _ => None,
    }
}

/// Returns the part's tag in a reply, if it has one. Takes no memory.
pub fn tag_in(reply: &Reply) -> Option<Tag>
    ensures { result ≡ tag_in reply.now }
{
    match reply {
        Reply::Part(tag) => Some(*tag),
        _ => None,
    }
}

/// Notes in the plan that S3 created an upload with this id for the file at a place, and returns
/// the request for its first part. If memory runs out, the plan is unchanged.
pub fn begin_upload(
    alloc: Global,
    plan: &mut TaskPlan,
    place: usize,
    upload: u64,
) -> Result<Request, AllocError>
    requires { place < length plan.old.files }
    ensures asked { let f = get_or plan.old.files place ([], []) in IfOk result
        (λ r. r ≡ UploadPart plan.old.job.dest.bucket (file_key (task_script plan.old) f) upload 1
        (part_behind plan.old f.1 0)) }
    ensures drawn { OnOk result (plan.new ≡ with_known plan.old
        (with_drawn plan.old.known (file_key (task_script plan.old) (get_or plan.old.files place ([], []))) upload)) }
    ensures err { OnErr result (plan.new ≡ plan.old) }
{
    let Some((path, bytes)) = file_at(plan, place) else {
        unreachable!();
    };
    let key = target(alloc, plan, path)?;
    let Ok(asked) = ask_part(alloc, plan, bytes, &key, upload, 0) else {
        let_go(key);
        return Err(AllocError);
    };
    match plan.known.draw(alloc, key, upload) {
        Ok(()) => Ok(asked),
        Err(error) => {
            let_go(asked);
            Err(error)
        }
    }
}

/// Notes in the plan that S3 acknowledged a part of the newest upload, and returns `asked`, the
/// next request. If memory runs out, the plan is unchanged.
pub fn note_part(
    plan: &mut TaskPlan,
    asked: Request,
    tag: Tag,
    size: u64,
) -> Result<Request, AllocError>
    ensures asked { IfOk result (λ r. r ≡ asked) }
    ensures drawn { OnOk result (plan.new ≡ with_known plan.old (with_tag plan.old.known tag size)) }
    ensures err { OnErr result (plan.new ≡ plan.old) }
{
    match plan.known.draw_part(tag, size) {
        Ok(()) => Ok(asked),
        Err(error) => {
            let_go(asked);
            Err(error)
        }
    }
}
