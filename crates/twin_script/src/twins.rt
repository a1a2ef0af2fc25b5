ghost use Rattle.job_model.specs.Legal.{IsLegal};
ghost use Rattle.twin_script.specs.TwinScripts.{AreTwins};

use crate::turns::TurnList;
use job_model::Script;
use std::marker::Model;

/// Two job scripts and the order of their turns. They keep the rules of `read_twins`: different
/// ids, the same destination, no mode replace, and no fate in the second script. The turns ask for
/// no more events than each script has.
#[derive(Drop)]
pub struct Twins {
    pub first: Script,
    pub second: Script,
    pub order: TurnList,
}

impl Model for Twins {
    ghost use Rattle.twin_script.specs.TwinScripts.{Twins, coded_twins, AreTwins};

    ghost Value = { Twins };

    ghost coded = { coded_twins };

    ghost view = { λ t. record { first = t.first; second = t.second; order = t.order } };

    ghost invariant = { λ t. AreTwins (record { first = t.first; second = t.second; order = t.order }) };
}

impl Twins {
    /// The rules that two scripts and their order keep. Takes no memory.
    pub fn keeps(&self)
        ensures twins { AreTwins self.now }
        ensures first { IsLegal self.now.first }
        ensures second { IsLegal self.now.second }
    {
        let _ = &self.first.events;
        let _ = &self.second.events;
    }
}
