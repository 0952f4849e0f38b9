// The rules for the fields of a state, an exit and a limit row.
ghost use Rattle.std.specs.Prelude.{◌≡◌, true, false, ◌&&◌, not, eqb};
ghost use Rattle.sets.specs.Tests.{same, none_from};
ghost use Rattle.model.specs.Rules.{none, type_or_any, names_fit, state_fits, exit_fits, row_fits, there_or_any, there_or_none, state_fits_in, exit_reaches, row_reaches};

use super::sizes::{ANY, MOST_EXITS_U8, MOST_LIMIT, NONE, TYPES};
use super::{Exit, Row, State};
use sets::{is_within, none_from};

// A message type, or any.
fn type_or_any(t: u8) -> bool
    ensures { result ≡ type_or_any t }
{
    t < TYPES || t == ANY
}

// A subject below n, or any.
fn there_or_any(n: u8, x: u8) -> bool
    ensures { result ≡ there_or_any n x }
{
    x < n || x == ANY
}

// A state below n, or none.
fn there_or_none(n: u8, x: u8) -> bool
    ensures { result ≡ there_or_none n x }
{
    x < n || x == NONE
}

// The state names neither a sender nor a type.
#[tactic(auto, unfolding(crate::specs::Rules::names_fit))]
fn names_none(st: State) -> bool
    ensures { result ≡ names_fit false st.sender st.typ }
{
    st.sender == ANY && st.typ == ANY
}

// The state names one of n subjects or any, and a type or any.
#[tactic(auto, unfolding(crate::specs::Rules::names_fit))]
fn names_some(n: u8, st: State) -> bool
    ensures { result ≡ (there_or_any n st.sender && names_fit true st.sender st.typ) }
{
    there_or_any(n, st.sender) && type_or_any(st.typ)
}

// The state may wait: a timeout exactly where there is a duration, and both targets exist.
fn waits_right(states: u8, st: State) -> bool
    ensures { result ≡ (same (eqb st.after 0) (eqb st.timeout none) && (there_or_none states st.timeout && there_or_none states st.cancel)) }
{
    (st.after == 0) == (st.timeout == NONE)
        && there_or_none(states, st.timeout)
        && there_or_none(states, st.cancel)
}

// The state never waits: no duration, no timeout, no cancel.
fn never_waits(st: State) -> bool
    ensures { result ≡ (eqb st.after 0 && (eqb st.timeout none && eqb st.cancel none)) }
{
    st.after == 0 && st.timeout == NONE && st.cancel == NONE
}

// There are receivers, and all of them are below n.
fn sends_right(n: u8, receivers: u16) -> bool
    ensures { result ≡ (not (eqb receivers 0) && none_from n receivers) }
{
    receivers != 0 && none_from(n, receivers)
}

// The fields of a state are right for its kind, and what it names exists, of n subjects and of so many states. By kind, so that
// only what can differ is asked.
#[tactic(auto, using(crate::proofs::RuleLaws::asks_1, crate::proofs::RuleLaws::asks_2, crate::proofs::RuleLaws::asks_4, crate::proofs::RuleLaws::asks_6, crate::proofs::RuleLaws::asks_7, crate::proofs::RuleLaws::asks_none))]
pub(crate) fn state_fits_in(n: u8, states: u8, st: State) -> bool
    ensures { result ≡ state_fits_in n states st }
{
    match st.kind {
        1 | 3 => {
            is_within(1, st.exits, MOST_EXITS_U8)
                && names_none(st)
                && waits_right(states, st)
                && st.receivers == 0
        }
        2 => {
            st.exits == 1
                && names_none(st)
                && waits_right(states, st)
                && sends_right(n, st.receivers)
        }
        4..=5 => st.exits == 1 && names_some(n, st) && never_waits(st) && st.receivers == 0,
        6 => st.exits == 2 && names_some(n, st) && never_waits(st) && st.receivers == 0,
        7 => st.exits == 0 && names_none(st) && never_waits(st) && st.receivers == 0,
        _ => false,
    }
}

// The fields of a state are right for its kind: every byte is below ANY or ANY, so that whatever it names is there.
pub(crate) fn state_fits(st: State) -> bool
    ensures { result ≡ state_fits st }
{
    state_fits_in(ANY, ANY, st)
}

// The sender and type of an exit are right for the kind of its state.
#[tactic(auto, unfolding(crate::specs::Rules::exit_fits))]
pub(crate) fn exit_fits(kind: u8, e: Exit) -> bool
    ensures { result ≡ exit_fits kind e }
{
    match kind {
        3 => e.sender != ANY && e.typ < TYPES,
        2 => e.sender == ANY && e.typ < TYPES,
        _ => e.sender == ANY && e.typ == ANY,
    }
}

// The limit and the type of a row are right.
#[tactic(auto, unfolding(crate::specs::Rules::row_fits))]
pub(crate) fn row_fits(w: Row) -> bool
    ensures { result ≡ row_fits w }
{
    is_within(1, w.limit, MOST_LIMIT) && type_or_any(w.typ)
}

// The target and the sender of an exit exist.
#[tactic(auto, unfolding(crate::specs::Rules::exit_reaches))]
pub(crate) fn exit_reaches(n: u8, states: u8, e: Exit) -> bool
    ensures { result ≡ exit_reaches n states e }
{
    e.target < states && there_or_any(n, e.sender)
}

// The sender of a row exists.
#[tactic(auto, unfolding(crate::specs::Rules::row_reaches))]
pub(crate) fn row_reaches(n: u8, w: Row) -> bool
    ensures { result ≡ row_reaches n w }
{
    there_or_any(n, w.sender)
}
