ghost use Rattle.std.specs.Prelude.{◌≡◌, ◌<◌, ◌∷◌, ◌++◌, ℕ, List, []};
ghost use Rattle.soundness.specs.Moments.{Moment, Sound};
ghost use Rattle.soundness.specs.declared.marker.Marker.TheVariants as Marker;
ghost use Rattle.audit_claims.specs.Claims.{Tags};
ghost use Rattle.audit_judge.specs.Bench.{Bench, claim, opened};
ghost use Rattle.audit_judge.specs.Following.{Follows, GoodList};
ghost use Rattle.audit_judge.specs.Picking.{NoPick};
ghost use Rattle.audit_judge.specs.Reasons.{IsFirst};

use crate::reason::Reason;

/// If a judge follows a run, the run is sound; a reason that it gives shows that the run is not
/// sound with one more moment. While a new success marker exists, each task has an attempt that
/// explains all moments.
pub fn judge_laws()
    ensures sound { (b : Bench) (moments : List (Moment Tags)) → Follows b moments → Sound (claim b) (opened b) moments }
    ensures unsound { (b : Bench) (moments : List (Moment Tags)) (m : Moment Tags) (changed : List (List ℕ)) (r : Reason)
        → GoodList b.tasks b.claimed.listed → IsFirst (claim b) (opened b) moments m changed r
        → Sound (claim b) (opened b) (moments ++ m ∷ []) → ⊥ }
    ensures picked { (b : Bench) (moments : List (Moment Tags)) (t : ℕ) → Follows b moments → b.marker ≡ Marker.New → t < b.tasks
        → NoPick b moments t → ⊥ }
{}
