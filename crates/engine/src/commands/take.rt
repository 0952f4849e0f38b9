// Take: the earliest message that matches an exit.
ghost use Rattle.std.specs.Prelude.{◌≡◌, [], ◌∷◌};
ghost use Rattle.engine.specs.commands.Rules.{wrong_kind, no_exit, no_message};
ghost use Rattle.engine.specs.commands.Take.{wanted_at};
ghost use Rattle.engine.specs.inner.Spine.{took_as};
ghost use Rattle.engine.specs.inner.Refusals.{first_refusal};
ghost use Rattle.engine.specs.declared.Rule.TheVariants.{WrongKind, NoExit, NoMessage};

use super::rules;
use crate::pools::{changes, searches};
use crate::{Rule, Subject, Taken};
use model::State;

// The message that the exit wants. A copy of the pool is searched, as in `enter`.
fn wanted_at(here: State, exit: u8, x: Subject) -> Option<usize>
    ensures { result ≡ wanted_at here exit x }
{
    let e = rules::exit_at(here, exit);
    let pool = x.pool;
    searches::first_message(&pool, e.sender, e.typ)
}

// What refuses it.
#[tactic(auto, unfolding(crate::specs::inner::Refusals::first_refusal, crate::specs::commands::Rules::no_message))]
pub(crate) fn refuse(here: State, exit: u8, x: Subject) -> Result<(), Rule>
    ensures { result ≡ first_refusal ((wrong_kind 3 here, WrongKind) ∷ (no_exit here exit, NoExit) ∷ (no_message here exit x, NoMessage) ∷ []) }
{
    if here.kind != 3 {
        Err(Rule::WrongKind)
    } else if here.exits <= exit {
        Err(Rule::NoExit)
    } else if wanted_at(here, exit, x).is_none() {
        Err(Rule::NoMessage)
    } else {
        Ok(())
    }
}

// The message is removed, its content becomes the word, the target is entered.
pub(crate) fn taken(here: State, end: bool, exit: u8, mut me: Subject) -> Subject
    ensures { result ≡ took_as (wanted_at here exit me) here end exit me }
{
    let Some(i) = wanted_at(here, exit, me) else {
        return me;
    };
    let Taken { content, pool } = changes::take_at(me.pool, i);
    me.word = content;
    me.pool = pool;
    me.enter(rules::exit_at(here, exit).target, end)
}
