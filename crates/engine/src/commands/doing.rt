// Do: an internal state is left by an exit, with a word.
ghost use Rattle.std.specs.Prelude.{◌≡◌, [], ◌∷◌};
ghost use Rattle.engine.specs.configs.Subjects.{with_word, entered};
ghost use Rattle.engine.specs.commands.Rules.{wrong_kind, no_exit};
ghost use Rattle.engine.specs.inner.Refusals.{first_refusal};
ghost use Rattle.engine.specs.declared.Rule.TheVariants.{WrongKind, NoExit};

use crate::{Rule, Subject};
use model::State;

// What refuses it.
#[tactic(auto, unfolding(crate::specs::inner::Refusals::first_refusal))]
pub(crate) fn refuse(here: State, exit: u8) -> Result<(), Rule>
    ensures { result ≡ first_refusal ((wrong_kind 1 here, WrongKind) ∷ (no_exit here exit, NoExit) ∷ []) }
{
    if here.kind != 1 {
        Err(Rule::WrongKind)
    } else if here.exits <= exit {
        Err(Rule::NoExit)
    } else {
        Ok(())
    }
}

// The word is set, the state t entered.
pub(crate) fn done(t: u8, end: bool, word: u32, mut me: Subject) -> Subject
    ensures { result ≡ entered t end (with_word word me) }
{
    me.word = word;
    me.enter(t, end)
}
