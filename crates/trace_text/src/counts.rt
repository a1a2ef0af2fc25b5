ghost use Rattle.std.specs.Prelude.{◌≡◌, ◌<◌, ◌^◌};
ghost use Rattle.std.specs.List.{count_by};
ghost use Rattle.job_model.specs.Legal.{AreFates};
ghost use Rattle.job_spec.specs.States.{is_refused};
ghost use Rattle.trace_text.specs.Trace as lines;

use crate::commits::is_refused;
use job_model::EventEnd;
use s3_types::Fates;

/// Returns how many events were refused.
pub fn refused(ends: &[EventEnd]) -> u64
    ensures { result ≡ count_by is_refused ends.now }
{
    let mut count = 0;
    for end in ends {
        count += u64::from(is_refused(end));
    }
    count
}

/// Returns how many sends with a planned fate have a number above `sent`.
pub fn unsent(fates: &Fates, sent: u64) -> u64
    requires few { sent < 2 ^ 62 }
    requires fates { AreFates fates.now }
    ensures { result ≡ lines.unsent fates.now sent }
{
    let mut count = 0;
    let mut from = sent + 1;
    'losses: while let Some((number, _)) = fates.first_from(from) {
        count += 1;
        from = number + 1;
    }
    count
}
