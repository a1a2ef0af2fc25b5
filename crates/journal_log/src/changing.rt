ghost use Rattle.std.specs.Prelude.{◌≡◌, [], ◌∷◌, MatchOption, true};
ghost use Rattle.s3_types.specs.Moment as moments;
ghost use Rattle.log_format.specs.Change as known;
ghost use Rattle.journal_log.specs.Changes.{changes};

use log_format::is_changing;
use s3_types::{Entry, Outcome, Request};

fn is_effective(outcome: &Outcome) -> bool
    ensures { result ≡ moments.is_effective outcome.now }
{
    match outcome {
        Outcome::Answered(_) => true,
        Outcome::Slow => false,
        Outcome::RequestLost => false,
        Outcome::ReplyLost => true,
    }
}

/// The request of an entry, if it took effect and may change the store: what the entry adds to the
/// journal's changes.
pub fn change_of(entry: &Entry) -> Option<&Request>
    ensures { MatchOption result (changes (entry.now ∷ []) ≡ []) (λ r. (changes (entry.now ∷ []) ≡ r.now ∷ [])
        × (known.is_changing r.now ≡ true)) }
{
    if is_effective(&entry.outcome) && is_changing(&entry.request) {
        Some(&entry.request)
    } else {
        None
    }
}
