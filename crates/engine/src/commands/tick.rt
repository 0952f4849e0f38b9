// Tick: who runs waits one more.
ghost use Rattle.std.specs.Prelude.{◌≡◌};
ghost use Rattle.engine.specs.commands.Tick.{ticked};

use crate::Subject;

// A subject as a tick passes: up to 65,535.
#[tactic(auto, unfolding(crate::specs::commands::Tick::ticked))]
pub(crate) fn ticked(mut x: Subject) -> Subject
    ensures { result ≡ ticked x }
{
    if x.mode == 1 {
        x.waited = x.waited.saturating_add(1);
    }
    x
}
