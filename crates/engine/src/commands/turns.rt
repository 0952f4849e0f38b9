// What the spine asks of a command: where it leads, whom it reaches, what it does to them and to its own subject, its answer.
ghost use Rattle.std.specs.Prelude.{◌≡◌, ◌<◌};
ghost use Rattle.model.specs.Sizes.{most_subjects};
ghost use Rattle.engine.specs.pools.Sizes.{most_entries};
ghost use Rattle.engine.specs.pools.Pools.{Well};
ghost use Rattle.engine.specs.commands.Turns.{target_of};
ghost use Rattle.engine.specs.inner.Spine.{waiters, reached, planned, reached_as, has_own, own_as, answer_to};

use super::{deliver, doing, leave, reserve, rules, runs, take};
use crate::{Answer, Command, Places, Plan, Reached, Subject, refusals};
use model::State;

// The turn of a command: its code, the command, its subject s of n, that subject as it is, and the state in which that is.
#[derive(Clone, Copy)]
pub(crate) struct Turn {
    pub code: u8,
    pub command: Command,
    pub n: u8,
    pub s: u8,
    pub me: Subject,
    pub here: State,
}

impl Turn {
    // Where the command leads its subject; Reserve and Tick lead nowhere.
    #[tactic(auto, unfolding(crate::specs::commands::Turns::target_of))]
    fn target(&self) -> u8
        ensures { result ≡ target_of self.now.here self.now.me self.now.command }
    {
        let here = self.here;
        match self.command {
            Command::Do { exit, .. } | Command::Take { exit, .. } => {
                rules::exit_at(here, exit).target
            }
            Command::Deliver { .. } => rules::exit_at(here, 0).target,
            Command::Run { .. } => rules::exit_at(here, runs::run_exit(here, self.me)).target,
            Command::Expire { .. } => here.timeout,
            Command::Cancel { .. } => here.cancel,
            _ => 0,
        }
    }

    // How many subjects, from the first on, it has wait one more, accepted: at a tick the n that there are.
    #[tactic(auto, unfolding(crate::specs::inner::Spine::parts_of))]
    fn waiters(&self, number: u8) -> usize
        ensures { result ≡ waiters number self.now.n self.now.command }
    {
        match self.command {
            Command::Tick if number == 0 => self.n as usize,
            _ => 0,
        }
    }

    // The subjects that it reaches, accepted: those asked for a place, those delivered to, those withdrawn from.
    #[tactic(auto, unfolding(crate::specs::inner::Spine::parts_of))]
    fn reached(&self, number: u8) -> u16
        ensures { result ≡ reached number self.now.here self.now.me.mask self.now.command }
    {
        if number != 0 {
            return 0;
        }
        match self.command {
            Command::Reserve { .. } => self.here.receivers & !self.me.mask,
            Command::Deliver { .. } => self.here.receivers,
            Command::Expire { .. } | Command::Cancel { .. } => self.me.mask,
            _ => 0,
        }
    }

    // What is decided of it, by what its rules read.
    pub(crate) fn plan(&self, improper: bool) -> Plan
        ensures { result ≡ planned self.now.code self.now.n self.now.here self.now.me improper self.now.command }
    {
        let number = refusals::number(self.judged(improper));
        Plan {
            number,
            target: self.target(),
            waiters: self.waiters(number),
            reached: self.reached(number),
        }
    }

    // What it does to subject r, which it reaches, and what r answers.
    #[tactic(auto, unfolding(crate::specs::inner::Spine::parts_of))]
    pub(crate) fn reach(&self, owner: model::Subject, r: u8, x: Subject, places: Places) -> Reached
        requires s_lt_most_subjects { self.now.s < most_subjects }
        requires r_lt_most_subjects { r < most_subjects }
        requires well { Well most_entries x.pool }
        ensures { result ≡ reached_as owner self.now.here self.now.s self.now.me.word r x places self.now.command }
    {
        let s = self.s;
        let subject = match self.command {
            Command::Reserve { .. } => return reserve::asked(owner, self.here, s, r, x, places),
            Command::Deliver { .. } => deliver::receive(owner.initial, s, self.me.word, x),
            Command::Expire { .. } | Command::Cancel { .. } => leave::withdrawn(s, x),
            _ => x,
        };
        Reached { subject, places }
    }

    // Accepted, it has a subject of its own to change; a tick has none.
    #[tactic(auto, unfolding(crate::specs::inner::Spine::parts_of))]
    pub(crate) fn has_own(&self, number: u8) -> bool
        ensures { result ≡ has_own number self.now.command }
    {
        number == 0 && !matches!(self.command, Command::Tick)
    }

    // Its own subject in the end: at state t, or at Reserve with the mask that has grown.
    #[tactic(auto, unfolding(crate::specs::inner::Spine::parts_of))]
    pub(crate) fn own(&self, t: u8, end: bool, mask: u16, me: Subject) -> Subject
        ensures { result ≡ own_as self.now.n self.now.here t end mask me self.now.command }
    {
        match self.command {
            Command::Do { word, .. } => doing::done(t, end, word, me),
            Command::Reserve { .. } => reserve::with_mask(mask, me),
            Command::Take { exit, .. } => take::taken(self.here, end, exit, me),
            Command::Run { .. } => runs::ran(self.n, self.here, end, me),
            Command::Tick => me,
            _ => me.enter(t, end),
        }
    }

    // The answer: the refusal, or at Reserve the four masks and the count.
    #[tactic(auto, unfolding(crate::specs::inner::Spine::parts_of))]
    pub(crate) fn answer(&self, number: u8, places: Places) -> Answer
        ensures { result ≡ answer_to number self.now.here places self.now.command }
    {
        if number != 0 {
            return Answer::Refused(number);
        }
        match self.command {
            Command::Reserve { .. } => reserve::answer(self.here, places),
            _ => Answer::Done,
        }
    }
}
