// The refusals of a step: the first rule that holds.
ghost use Rattle.std.specs.Prelude.{◌≡◌, not, cond, eqb};
ghost use Rattle.model.specs.Valid.{exit_at};
ghost use Rattle.engine.specs.commands.Rules.{not_there, not_running, place_missing};
ghost use Rattle.engine.specs.inner.Spine.{asks_of, number_for};
ghost use Rattle.std.specs.Prelude.{[], ◌∷◌};
ghost use Rattle.engine.specs.inner.Refusals.{number_told, first_refusal};
ghost use Rattle.engine.specs.declared.Rule.TheVariants.{NotThere, NotRunning};

use super::turns::Turn;
use super::{deliver, doing, leave, reserve, runs, take};
use crate::{Command, Rule, Subject};
use model::{Exit, State};

// Exit e of a state, blank past the last place.
pub(crate) fn exit_at(here: State, e: u8) -> Exit
    ensures { result ≡ exit_at here e }
{
    here.exit.get(e as usize).copied().unwrap_or_default()
}

// A receiver is not in the mask.
#[tactic(auto, unfolding(crate::specs::commands::Rules::place_missing))]
pub(crate) fn place_missing(here: State, x: Subject) -> bool
    ensures { result ≡ place_missing here x }
{
    sets::missing(here.receivers, x.mask) != 0
}

impl Turn {
    // The receivers whose end a refusal depends on.
    #[tactic(auto, unfolding(crate::specs::inner::Spine::parts_of))]
    pub(crate) fn asks(&self) -> u16
        ensures { result ≡ asks_of self.now.here self.now.command }
    {
        match self.command {
            Command::Deliver { .. } | Command::Expire { .. } => self.here.receivers,
            _ => 0,
        }
    }

    // The subject is there and runs.
    #[tactic(auto, unfolding(crate::specs::inner::Refusals::first_refusal))]
    fn standing(&self, subject: u8) -> Result<(), Rule>
        ensures { result ≡ first_refusal ((not_there self.now.n subject, NotThere) ∷ (not_running self.now.me, NotRunning) ∷ []) }
    {
        if self.n <= subject {
            Err(Rule::NotThere)
        } else if self.me.mode != 1 {
            Err(Rule::NotRunning)
        } else {
            Ok(())
        }
    }

    // What refuses the command, by what its rules read.
    #[tactic(auto, unfolding(crate::specs::inner::Spine::number_for, crate::specs::inner::Refusals::first_refusal, crate::specs::commands::Rules::first_number))]
    pub(crate) fn judged(&self, improper: bool) -> Result<(), Rule>
        ensures { number_told result ≡ number_for self.now.code self.now.n self.now.here self.now.me improper self.now.command }
    {
        if !sets::is_within(1, self.code, 8) {
            return Err(Rule::NoCode);
        }
        let here = self.here;
        let me = self.me;
        match self.command {
            Command::Do { subject, exit, .. } => {
                self.standing(subject)?;
                doing::refuse(here, exit)
            }
            Command::Reserve { subject } => {
                self.standing(subject)?;
                reserve::refuse(here)
            }
            Command::Deliver { subject } => {
                self.standing(subject)?;
                deliver::refuse(here, me, improper)
            }
            Command::Take { subject, exit } => {
                self.standing(subject)?;
                take::refuse(here, exit, me)
            }
            Command::Run { subject } => {
                self.standing(subject)?;
                runs::refuse(here)
            }
            Command::Expire { subject } => {
                self.standing(subject)?;
                leave::refuse_expire(here, me, improper)
            }
            Command::Cancel { subject } => {
                self.standing(subject)?;
                leave::refuse_cancel(here)
            }
            Command::Tick => Ok(()),
        }
    }
}
