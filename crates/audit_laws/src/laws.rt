ghost use Rattle.audit_laws.specs.LineByLine.{Again, ChangedAll, FirstAlike, MarkerLaws, OneMore, SeenLaws, SoundAlike};
ghost use Rattle.audit_laws.specs.Split.{Split};

/// The laws by which an audit goes from one line of a trace to the next.
pub fn audit_laws()
    ensures one_more { OneMore }
    ensures sound { SoundAlike }
    ensures first { FirstAlike }
    ensures seen { SeenLaws }
    ensures marker { MarkerLaws }
    ensures again { Again }
    ensures changed { ChangedAll }
{}

/// The law by which a recording of several destinations can be split.
pub fn split_laws()
    ensures { Split }
{}
