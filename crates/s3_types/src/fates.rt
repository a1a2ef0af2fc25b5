ghost use Rattle.std.specs.Prelude.{◌≡◌, ◌↔◌, ℕ, ◌+◌, ◌≤◌, false, IfOk, OnOk, OnErr, IsErrOf, IsSome};
ghost use Rattle.std.specs.FinMap as map;
ghost use Rattle.s3_types.specs.Fates.{with_fates, fate_at, is_answer, IsFirstNamed, IsFirstFrom};
ghost use Rattle.s3_types.specs.inner.Spans.{from_on, first_in};
ghost use Rattle.s3_types.specs.declared.fates.FateFault.TheVariants.{NoMemory};

use std::alloc::{AllocError, AllocFailed, Global};
use std::collections::BTreeMap;
use std::marker::Model;
use std::ops::Bound;
use thiserror::Error;

/// What happens to a send (one try of a request).
#[derive(Clone, Copy, PartialEq, Eq)]
pub enum Fate {
    /// It is answered.
    Answer,
    /// It is answered SlowDown, and has no effect.
    Slow,
    /// It is lost on the way to the store, and has no effect.
    Before,
    /// It takes effect, but the reply is lost.
    After,
}

/// Why sends could not be given a fate.
#[derive(Clone, Copy, Debug, PartialEq, Eq, Error)]
pub enum FateFault {
    /// The first of the sends that has a fate already.
    #[error("sending {0} has a fate already")]
    Taken(u64),
    #[error("no memory")]
    NoMemory,
}

impl From<AllocError> for FateFault {
    ghost from_gives = { λ _ e. e ≡ NoMemory };

    fn from(_e: AllocError) -> FateFault {
        FateFault::NoMemory
    }
}

impl<T: Drop> From<AllocFailed<T>> for FateFault {
    ghost from_gives = { λ _ e. e ≡ NoMemory };

    fn from(_e: AllocFailed<T>) -> FateFault {
        FateFault::NoMemory
    }
}

/// Sends in a row with the same fate, from `first` on. The tree keeps it at the last of them.
#[derive(Clone, Copy)]
pub(crate) struct Span {
    pub(crate) first: u64,
    pub(crate) fate: Fate,
}

/// The fates of sends, which are counted from 1. Contracts see them as a finite map from a send to
/// its fate, which is never `Answer`. A send that is not named is answered. It is kept as ranges
/// of sends; f is their number in the costs below.
#[derive(Drop)]
pub struct Fates {
    spans: BTreeMap<u64, Span>,
}

impl Model for Fates {
    ghost use Rattle.s3_types.specs.Fates.{FateMap, coded_fates};
    ghost use Rattle.s3_types.specs.Spans.{named};
    ghost use Rattle.s3_types.specs.inner.Spans.{AreApart};

    ghost Value = { FateMap };

    ghost coded = { coded_fates };

    ghost view = { λ f. named f.spans.entries };

    ghost invariant = { λ f. AreApart 1 f.spans.entries };
}

/// Returns the first range that ends at this send or later.
fn span_from(spans: &BTreeMap<u64, Span>, n: u64) -> Option<(u64, Span)>
    ensures { result ≡ from_on n spans.now.entries }
{
    match spans.range((Bound::Included(&n), Bound::Unbounded)).next() {
        Some((last, span)) => Some((*last, *span)),
        None => None,
    }
}

/// Returns the least send from `first` to `last` that is in a range.
fn named_between(spans: &BTreeMap<u64, Span>, first: u64, last: u64) -> Option<u64>
    ensures { result ≡ first_in first last (from_on first spans.now.entries) }
{
    match span_from(spans, first) {
        Some((_, span)) => {
            if span.first <= last {
                Some(span.first.max(first))
            } else {
                None
            }
        }
        None => None,
    }
}

impl Fates {
    /// No send is named. Takes no memory.
    pub fn new(alloc: Global) -> Fates
        ensures { result ≡ map.empty }
    {
        Fates {
            spans: BTreeMap::new(alloc),
        }
    }

    /// Returns a copy, in O(f). Fails with AllocError only if memory runs out.
    pub fn copied(&self) -> Result<Fates, AllocError>
        ensures { IfOk result (λ copy. copy ≡ self.now) }
    {
        let spans = self.spans.clone()?;
        Ok(Fates { spans })
    }

    /// Gives `count` sends from `first` on a fate, in O(log f). Fails with Taken and the least of
    /// these sends that has a fate already. After a fault everything is as before.
    pub fn add(&mut self, first: u64, fate: Fate, count: u32) -> Result<(), FateFault>
        requires first { 1 ≤ first }
        requires some { 1 ≤ count }
        requires many { count ≤ 1000 }
        requires last { first + count ≤ 1000000001 }
        requires lost { is_answer fate ≡ false }
        ensures ok { OnOk result (self.new ≡ with_fates self.old first fate count) }
        ensures taken { (n : ℕ) → IsErrOf result (FateFault.Taken n) ↔ IsFirstNamed self.old first count n }
        ensures err { OnErr result (self.new ≡ self.old) }
    {
        let last = first + u64::from(count) - 1;
        match named_between(&self.spans, first, last) {
            Some(n) => Err(FateFault::Taken(n)),
            None => {
                self.spans.insert(last, Span { first, fate })?;
                Ok(())
            }
        }
    }

    /// Returns the fate of a send, in O(log f).
    pub fn at(&self, n: u64) -> Fate
        ensures fate { result ≡ fate_at self.now n }
        ensures named { (is_answer result ≡ false) ↔ IsSome (map.get self.now n) }
    {
        match span_from(&self.spans, n) {
            Some((_, span)) => {
                if span.first <= n {
                    span.fate
                } else {
                    Fate::Answer
                }
            }
            None => Fate::Answer,
        }
    }

    /// Returns the first send from `n` on that has a named fate, and that fate, in O(log f).
    pub fn first_from(&self, n: u64) -> Option<(u64, Fate)>
        ensures first { IsFirstFrom self.now n result }
    {
        match span_from(&self.spans, n) {
            Some((_, span)) => Some((span.first.max(n), span.fate)),
            None => None,
        }
    }
}
