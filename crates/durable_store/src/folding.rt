ghost use Rattle.std.specs.Prelude.{◌≡◌, ◌<◌, ◌≤◌, ◌^◌, true, false, IfOk, OnOk};
ghost use Rattle.std.specs.List.{AllByRecursion};
ghost use Rattle.s3_types.specs.Answer.{apply_store};
ghost use Rattle.journal_log.specs.Changes.{content_after};
ghost use Rattle.journal_log.specs.Made.{IsMade};

use journal_log::made;
use log_format::is_changing;
use s3_service::Service;
use s3_types::Request;
use std::alloc::AllocError;

/// The most that the counter of uploads may be in a store with which a run begins.
const MOST_COUNTED: u64 = 1 << 62;

/// True if the counter of uploads is at most 2^62.
fn is_few(service: &Service) -> bool
    ensures yes { result ≡ true → service.now.next ≤ 2 ^ 62 }
    ensures no { result ≡ false → 2 ^ 62 < service.now.next }
{
    service.next_upload() <= MOST_COUNTED
}

/// Applies one change. A request that changes nothing is not sent.
fn follow(service: &mut Service, change: &Request) -> Result<(), AllocError>
    requires { service.old.next ≤ 2 ^ 62 }
    ensures { OnOk result (service.new ≡ apply_store service.old change.now) }
{
    if !is_changing(change) {
        return Ok(());
    }
    service.follow(change)
}

/// Applies the changes one by one, and returns true if the counter of uploads is at most 2^62
/// afterwards. When the counter gets over that, the changes left are not applied.
pub fn follow_all(service: &mut Service, changes: &[Request]) -> Result<bool, AllocError>
    ensures done { IfOk result (λ few. few ≡ true → service.new ≡ content_after service.old changes.now) }
    ensures few { IfOk result (λ few. few ≡ true → (content_after service.old changes.now).next ≤ 2 ^ 62) }
    ensures many { IfOk result (λ few. few ≡ false → 2 ^ 62 < (content_after service.old changes.now).next) }
    ensures made { IfOk result (λ few. few ≡ true → AllByRecursion IsMade changes.now) }
{
    for change in changes {
        if !is_few(service) {
            return Ok(false);
        }
        follow(service, change)?;
        made(change);
    }
    Ok(is_few(service))
}
