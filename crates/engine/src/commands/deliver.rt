// Deliver: the reservations of a sender become messages, and receivers start.
ghost use Rattle.std.specs.Prelude.{◌≡◌, true, [], ◌∷◌};
ghost use Rattle.engine.specs.commands.Deliver.{started, delivered_as};
ghost use Rattle.engine.specs.commands.Rules.{wrong_kind, place_missing};
ghost use Rattle.engine.specs.inner.Spine.{improper_among};
ghost use Rattle.engine.specs.inner.Refusals.{first_refusal};
ghost use Rattle.engine.specs.declared.Rule.TheVariants.{WrongKind, PlaceMissing, Improper};

use super::rules;
use crate::pools::changes;
use crate::{Config, Rule, Subject};
use model::State;

// One of a mask has ended improperly. Most commands ask of none.
pub(crate) fn some_improper(mask: u16, c: &Config) -> bool
    ensures { result ≡ improper_among mask c.now }
{
    mask != 0 && (0..16).any(|r| sets::has(mask, r) && c.subjects[r as usize].mode == 3)
}

// What refuses it.
#[tactic(auto, unfolding(crate::specs::inner::Refusals::first_refusal))]
pub(crate) fn refuse(here: State, x: Subject, improper: bool) -> Result<(), Rule>
    ensures { result ≡ first_refusal ((wrong_kind 2 here, WrongKind) ∷ (place_missing here x, PlaceMissing) ∷ (improper, Improper) ∷ []) }
{
    if here.kind != 2 {
        Err(Rule::WrongKind)
    } else if rules::place_missing(here, x) {
        Err(Rule::PlaceMissing)
    } else if improper {
        Err(Rule::Improper)
    } else {
        Ok(())
    }
}

// Asleep or ended properly, a receiver starts at its initial state; its marks and its pool stay.
#[tactic(auto, unfolding(crate::specs::commands::Deliver::started))]
fn start(initial: u8, mut x: Subject) -> Subject
    ensures { result ≡ started initial x }
{
    if x.mode == 0 || x.mode == 2 {
        x.mode = 1;
        x.state = initial;
        x.waited = 0;
        x.word = 0;
        x.mask = 0;
    }
    x
}

// A receiver: the reservation of s becomes the message with the word, and it starts where it may.
#[tactic(auto, unfolding(crate::specs::commands::Deliver::delivered_as))]
pub(crate) fn receive(initial: u8, s: u8, word: u32, mut x: Subject) -> Subject
    ensures { result ≡ delivered_as true initial s word x }
{
    x.pool = changes::deliver(x.pool, s, word);
    start(initial, x)
}
