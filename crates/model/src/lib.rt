// The file reader: a model file's bytes, the model they say, and whether a model is valid.
#![tactic(auto)]

mod decoded;
mod kinds;
mod loading;
mod made;
mod records;
mod rules;
mod sizes;
mod stages;
mod unpacked;
mod valid;
mod writing;

pub use blocks::{Fault, Verdict, check, place, record, refusal};
pub use loading::load;
pub use sizes::{
    MOST_EXITS, MOST_EXITS_IN_ALL, MOST_ROWS, MOST_STATES, MOST_SUBJECTS, STATE_PLACES,
};
pub use unpacked::unpack;
pub use valid::is_valid;
pub use writing::write;

// An exit of a state: where it leads; of a receive the sender and the type, of a send the type.
#[derive(Clone, Copy, Default)]
pub struct Exit {
    pub target: u8,
    pub sender: u8,
    pub typ: u8,
}

// A limit row of a subject: how many entries from a sender and of a type its pool may hold.
#[derive(Clone, Copy, Default)]
pub struct Row {
    pub sender: u8,
    pub typ: u8,
    pub limit: u8,
}

// A state with its exits: its kind, how many exits it has, its other fields, and the exits. Its kind is a number, since any may be
// handed in and `is_valid` answers for each (docs/DECISIONS.md, "Forms").
#[derive(Clone, Copy)]
pub struct State {
    pub kind: u8,
    pub exits: u8,
    pub sender: u8,
    pub typ: u8,
    pub after: u16,
    pub timeout: u8,
    pub cancel: u8,
    pub receivers: u16,
    pub exit: [Exit; MOST_EXITS],
}

// A subject: how many states it has, the initial one, the number of its limit rows, and the rows. A model is by value and of one size,
// so a list is a number beside an array.
#[derive(Clone, Copy, Default)]
pub struct Subject {
    pub states: u8,
    pub initial: u8,
    pub rows: u8,
    pub row: [Row; MOST_ROWS],
}

// A state as a model keeps it: its fields, and where its exits begin among those of the model.
#[derive(Clone, Copy, Default)]
pub struct Stored {
    pub kind: u8,
    pub exits: u8,
    pub sender: u8,
    pub typ: u8,
    pub after: u16,
    pub timeout: u8,
    pub cancel: u8,
    pub receivers: u16,
    pub first: u16,
}

// A model of n subjects: state t of subject s is at place s * MOST_STATES + t. The exits of all states stand in one line. Unused
// room is zero.
#[derive(Clone, Copy)]
pub struct Model {
    pub n: u8,
    pub start: u16,
    pub subjects: [Subject; MOST_SUBJECTS],
    pub states: [Stored; STATE_PLACES],
    pub exits: [Exit; MOST_EXITS_IN_ALL],
}

// Why a model is not written: it is not valid, or the buffer is shorter than its file.
#[derive(Clone, Copy)]
pub enum Unwritten {
    NotValid,
    TooShort,
}

// The model beside the verdict: the empty one where the file is refused. No Result that holds the model: `loaded` gives one of both.
#[derive(Clone, Copy)]
pub struct Loaded {
    pub model: Model,
    pub verdict: Verdict,
}
