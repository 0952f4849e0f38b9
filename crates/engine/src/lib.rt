// The stepping: pools, configurations, and what the commands do to them, one by one or a whole tape.
#![tactic(auto)]

mod commands;
mod configs;
mod pools;
mod refusals;
mod steps;
mod tapes;

pub use configs::answers::refusal;
pub use configs::shares::shared_out;
pub use configs::starts::fresh;
pub use configs::valid::is_valid;
use model::MOST_SUBJECTS;
pub use steps::{run, step, step_coded};

// Entries of a pool.
pub const MOST_ENTRIES: usize = 16;

// An entry: a message with its content, or a reservation, whose content is 0. A flag beside the content: one that breaks this may be
// handed in, and `is_valid` answers no.
#[derive(Clone, Copy, Default, PartialEq, Eq)]
pub struct Entry {
    pub sender: u8,
    pub typ: u8,
    pub message: bool,
    pub content: u32,
}

// A pool: its entries in order of arrival, unused places zero. This form is one of the nine of docs/DECISIONS.md, "Forms".
#[derive(Clone, Copy, Default, PartialEq, Eq)]
pub struct Pool {
    pub entries: [Entry; MOST_ENTRIES],
    pub count: u8,
}

// What is taken out of a pool, and the pool without it.
#[derive(Clone, Copy)]
pub(crate) struct Taken {
    pub content: u32,
    pub pool: Pool,
}

// A subject at work. Mode 0 is asleep, 1 running, 2 ended properly, 3 ended improperly; closed has for each sender a mask of types.
// The mode is a number, since any may be handed in and `is_valid` answers for each. The word stands right before the pool: bytes that
// fill up a number there would be copied with the entries, and more than 128 bytes in one piece are copied by a call.
#[derive(Clone, Copy, Default, PartialEq, Eq)]
pub struct Subject {
    pub closed: [u32; MOST_SUBJECTS],
    pub mode: u8,
    pub state: u8,
    pub waited: u16,
    pub mask: u16,
    pub word: u32,
    pub pool: Pool,
}

// All subjects at work; those that the model does not have are all zero.
#[derive(Clone, Copy, Default, PartialEq, Eq)]
pub struct Config {
    pub subjects: [Subject; MOST_SUBJECTS],
}

// What a call answers beside the configuration. An enum and no Result (docs/DECISIONS.md, "Forms"); a refusal is its number in docs/RULES.md, and
// `refusal` takes any.
#[derive(Clone, Copy)]
pub enum Answer {
    Done,
    Reserved {
        placed: u16,
        improper: u16,
        closed: u16,
        full: u16,
        missing: u8,
    },
    Refused(u8),
}

// The configuration beside the answer. No Result: a refused step hands back the configuration that went in.
#[derive(Clone, Copy)]
pub struct Stepped {
    pub config: Config,
    pub answer: Answer,
}

// Why a pool is not asked: the model is not valid, or there is no such subject.
#[derive(Clone, Copy)]
pub enum NotAsked {
    ModelNotValid,
    NoSubject,
}

// What the controller is told to do. Exits and words belong to the commands that use them.
#[derive(Clone, Copy)]
pub enum Command {
    Do { subject: u8, exit: u8, word: u32 },
    Reserve { subject: u8 },
    Deliver { subject: u8 },
    Take { subject: u8, exit: u8 },
    Run { subject: u8 },
    Expire { subject: u8 },
    Cancel { subject: u8 },
    Tick,
}

// The rule by which a command, a step or a tape is refused.
#[derive(Clone, Copy)]
pub(crate) enum Rule {
    NoRoom,
    ModelNotValid,
    NoCode,
    ConfigNotValid,
    NotThere,
    NotRunning,
    WrongKind,
    NoExit,
    NoMessage,
    PlaceMissing,
    Improper,
    NoTarget,
    TooEarly,
    CanDeliver,
}

// What a receiver answers to one who wants a place.
#[derive(Clone, Copy)]
pub enum Reply {
    Placed,
    Improper,
    Closed,
    Full,
}

// The sender's mask as it grows, and who answered what.
#[derive(Clone, Copy, Default)]
pub(crate) struct Places {
    pub mask: u16,
    pub placed: u16,
    pub improper: u16,
    pub closed: u16,
    pub full: u16,
}

// A subject that a command has reached, and what the receivers have answered so far.
#[derive(Clone, Copy)]
pub(crate) struct Reached {
    pub subject: Subject,
    pub places: Places,
}

// What is decided of a command before anything changes: its refusal as the number that its line shows, where it leads, how many wait
// one more, whom it reaches.
#[derive(Clone, Copy)]
pub(crate) struct Plan {
    pub number: u8,
    pub target: u8,
    pub waiters: usize,
    pub reached: u16,
}

// A command as it stood on the tape: its code, which may be any byte, the subject that its line shows, and the command.
#[derive(Clone, Copy)]
pub(crate) struct Coded {
    pub code: u8,
    pub shown: u8,
    pub command: Command,
}

// What is written of a command: four numbers.
#[derive(Clone, Copy, Default)]
pub struct Line {
    pub refusal: u8,
    pub state: u8,
    pub word: u32,
    pub entries: u8,
}
