//! What sending with retries means: an operation that sends requests and receives outcomes, its
//! retries, and which requests exhausted them. A request "wears out" if `retries + 1` sends of it
//! in a row get no answer. A send is one try of a request.
//!
//! # What is proved
//!
//! - `requests`: the test of two requests says whether they are equal.
//! - `wearing`: there is one answer to which request of a list of entries wore out first, and it
//!   is the computed one.
//! - `retries`: an operation of one request at a time, under retries, counts so that it wears out
//!   exactly if the entries alone say so.
#![tactic(auto)]

ghost use Rattle.retries.specs.RetryLaws.{SameRequests, WornOnce, CounterIsLiteral};

/// Two requests are the same exactly if the test says so.
pub fn requests()
    ensures same { SameRequests }
{}

/// Which requests wore out, by the entries alone.
pub fn wearing()
    ensures once { WornOnce }
{}

/// Operations that receive replies, under retries.
pub fn retries<M>()
    ensures literal { CounterIsLiteral M }
{}
