// Expire and Cancel: own reservations are withdrawn, then the timeout or cancel target is entered.
ghost use Rattle.std.specs.Prelude.{◌≡◌, [], ◌∷◌};
ghost use Rattle.engine.specs.pools.Sizes.{most_entries};
ghost use Rattle.engine.specs.pools.Pools.{withdrawn_from};
ghost use Rattle.engine.specs.configs.Subjects.{with_pool};
ghost use Rattle.engine.specs.commands.Rules.{no_timeout, too_early, can_deliver, no_cancel};
ghost use Rattle.engine.specs.inner.Refusals.{first_refusal};
ghost use Rattle.engine.specs.declared.Rule.TheVariants.{NoTarget, TooEarly, CanDeliver};

use super::rules;
use crate::pools::changes;
use crate::{Rule, Subject};
use model::State;

// What refuses Expire.
#[tactic(auto, unfolding(crate::specs::inner::Refusals::first_refusal, crate::specs::commands::Rules::can_deliver))]
pub(crate) fn refuse_expire(here: State, x: Subject, improper: bool) -> Result<(), Rule>
    ensures { result ≡ first_refusal ((no_timeout here, NoTarget) ∷ (too_early here x, TooEarly) ∷ (can_deliver here x improper, CanDeliver) ∷ []) }
{
    if here.timeout == 255 {
        Err(Rule::NoTarget)
    } else if x.waited < here.after {
        Err(Rule::TooEarly)
    } else if here.kind == 2 && !rules::place_missing(here, x) && !improper {
        Err(Rule::CanDeliver)
    } else {
        Ok(())
    }
}

// What refuses Cancel.
#[tactic(auto, unfolding(crate::specs::inner::Refusals::first_refusal))]
pub(crate) fn refuse_cancel(here: State) -> Result<(), Rule>
    ensures { result ≡ first_refusal ((no_cancel here, NoTarget) ∷ []) }
{
    if here.cancel == 255 {
        Err(Rule::NoTarget)
    } else {
        Ok(())
    }
}

// A subject from whose pool s withdraws.
pub(crate) fn withdrawn(s: u8, mut x: Subject) -> Subject
    ensures { result ≡ with_pool (withdrawn_from most_entries s x.pool) x }
{
    x.pool = changes::withdraw(x.pool, s);
    x
}
