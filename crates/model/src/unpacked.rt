// A state of a model with its exits.
ghost use Rattle.std.specs.Prelude.{◌≡◌, min};
ghost use Rattle.model.specs.Sizes.{most_exits};
ghost use Rattle.model.specs.Valid.{exit_no, exits_from, unpacked};

use super::sizes::MOST_EXITS;
use super::{Exit, State, Stored, records};

// Exit j of those of a model; blank past the last place.
pub(crate) fn exit_no(exits: &[Exit], j: usize) -> Exit
    ensures { result ≡ exit_no exits.now j }
{
    exits.get(j).copied().unwrap_or_default()
}

// How many exits a state has, as far as there is room.
pub(crate) fn exits_of(st: Stored) -> usize
    ensures { result ≡ min st.exits most_exits }
{
    (st.exits as usize).min(MOST_EXITS)
}

// The exits of a state, from its first on.
fn exits_from(exits: &[Exit], st: Stored) -> [Exit; MOST_EXITS]
    ensures { result ≡ exits_from exits.now st }
{
    let first = st.first as usize;
    let own = exits_of(st);
    let mut exit = records::blank_exits();
    for x in 0..own {
        exit[x] = exit_no(exits, first + x);
    }
    exit
}

// A state as the model keeps it, with its exits out of those of the model.
pub fn unpack(st: Stored, exits: &[Exit]) -> State
    ensures { result ≡ unpacked exits.now st }
{
    records::with_exits(st, exits_from(exits, st))
}
