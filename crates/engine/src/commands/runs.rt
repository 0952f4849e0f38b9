// Run: close, open and ask-empty.
ghost use Rattle.std.specs.Prelude.{◌≡◌, [], ◌∷◌};
ghost use Rattle.engine.specs.commands.Rules.{not_pool_kind};
ghost use Rattle.engine.specs.commands.Runs.{run_exit, mark_for, mark_at, with_marks, marking, ran_as};
ghost use Rattle.engine.specs.inner.Refusals.{first_refusal};
ghost use Rattle.engine.specs.declared.Rule.TheVariants.{WrongKind};

use super::rules;
use crate::pools::searches;
use crate::{Rule, Subject};
use model::{MOST_SUBJECTS, State};

// What refuses it.
#[tactic(auto, unfolding(crate::specs::inner::Refusals::first_refusal))]
pub(crate) fn refuse(here: State) -> Result<(), Rule>
    ensures { result ≡ first_refusal ((not_pool_kind here, WrongKind) ∷ []) }
{
    if sets::is_within(4, here.kind, 6) {
        Ok(())
    } else {
        Err(Rule::WrongKind)
    }
}

// A sender's marks, closed or opened for any type (255), or for one.
#[tactic(auto, unfolding(crate::specs::commands::Runs::mark_for))]
fn mark_for(closing: bool, typ: u8, mark: u32) -> u32
    ensures { result ≡ mark_for closing typ mark }
{
    match (typ, closing) {
        (255, true) => u32::MAX,
        (255, false) => 0,
        (0..=31, true) => mark | 1 << typ,
        (0..=31, false) => mark & !(1 << typ),
        _ => mark,
    }
}

// The marks of sender i, in a close or open state.
#[tactic(auto, unfolding(crate::specs::commands::Runs::mark_at))]
fn mark_at(n: u8, here: State, i: u8, mark: u32) -> u32
    ensures { result ≡ mark_at n here i mark }
{
    if i < n && (here.sender == 255 || here.sender == i) {
        mark_for(here.kind == 4, here.typ, mark)
    } else {
        mark
    }
}

// Close marks and open unmarks every matching sender below n and type.
fn with_marks(n: u8, here: State, mut x: Subject) -> Subject
    ensures { result ≡ with_marks n here x }
{
    let mut closed = x.closed;
    for i in 0..MOST_SUBJECTS {
        closed[i] = mark_at(n, here, i as u8, closed[i]);
    }
    x.closed = closed;
    x
}

// The subject with its marks changed; ask-empty changes none.
#[tactic(auto, unfolding(crate::specs::commands::Runs::marking))]
fn mark(n: u8, here: State, x: Subject) -> Subject
    ensures { result ≡ marking n here x }
{
    if here.kind == 6 {
        x
    } else {
        with_marks(n, here, x)
    }
}

// Ask-empty leaves by exit 1 if an entry of the own pool matches, else, as close and open do, by exit 0. A copy of the pool is searched,
// as in `enter`.
#[tactic(auto, unfolding(crate::specs::commands::Runs::run_exit))]
pub(crate) fn run_exit(here: State, x: Subject) -> u8
    ensures { result ≡ run_exit here x }
{
    let pool = x.pool;
    let found = searches::count(&pool, here.sender, here.typ) != 0;
    if here.kind == 6 && found { 1 } else { 0 }
}

// Marks are changed, then the target is entered.
pub(crate) fn ran(n: u8, here: State, end: bool, me: Subject) -> Subject
    ensures { result ≡ ran_as n here end me }
{
    let e = run_exit(here, me);
    mark(n, here, me).enter(rules::exit_at(here, e).target, end)
}
