// How a command is given, and how the whole tape is.
ghost use Rattle.std.specs.Prelude.{◌≤◌};

use super::shown::{Line, shown};
use engine::{Command, Config, Stepped};
use model::Model;
use std::array;

// What comes before a command has at most 255.
const BEFORE: usize = 255 * 8;

const BEFORE_ANSWERS: usize = 255 * 4;

// How a command is given, by its fourth byte.
#[derive(Clone, Copy)]
enum Given {
    Command,
    NoSubjects,
    Spoilt,
    After,
    Improper,
    Coded,
}

impl From<u8> for Given {
    fn from(byte: u8) -> Given {
        match byte {
            1 => Given::Command,
            2 => Given::NoSubjects,
            3 => Given::Spoilt,
            4 => Given::After,
            5 => Given::Improper,
            _ => Given::Coded,
        }
    }
}

// The command of the code; Tick for any code that has none of its own. A decoder of its own, as a test of the engine's.
fn command_of(bytes: [u8; 8]) -> Command {
    let [code, subject, exit, _, a, b, c, d] = bytes;
    match code {
        1 => Command::Do {
            subject,
            exit,
            word: u32::from_le_bytes([a, b, c, d]),
        },
        2 => Command::Reserve { subject },
        3 => Command::Deliver { subject },
        4 => Command::Take { subject, exit },
        5 => Command::Run { subject },
        6 => Command::Expire { subject },
        7 => Command::Cancel { subject },
        _ => Command::Tick,
    }
}

fn without_subjects(m: Model) -> Model {
    Model { n: 0, ..m }
}

fn spoilt(mut c: Config) -> Config {
    c.subjects[0].mode = 4;
    c
}

// The subject at a number, taken round from 16 on, has mode 3; the rest is as it was.
fn ended_improperly(mut c: Config, s: u8) -> Config {
    c.subjects[s as usize % 16].mode = 3;
    c
}

// The configuration after as many such commands as the exit byte says, run in one call.
fn after(m: Model, c: Config, b: [u8; 8]) -> Config {
    let tape: [u8; BEFORE] = array::from_fn(|i| b[i % 8]);
    let mut answers = [0u32; BEFORE_ANSWERS];
    engine::run(m, c, &tape[..b[2] as usize * 8], &mut answers).config
}

fn write_line(rt: &impl Print, m: Model, count: usize, b: [u8; 8], stepped: Stepped) {
    let shown = shown(b);
    let there = shown < m.n;
    let line = Line {
        count,
        code: b[0],
        shown,
        answer: stepped.answer,
        subject: there.then_some(stepped.config.subjects[shown as usize % 16]),
    };
    let _ = println!(rt; "{line}");
}

// Gives a command and writes its line. The configuration from which the run goes on.
pub(crate) fn give(rt: &impl Print, m: Model, c: Config, count: usize, b: [u8; 8]) -> Config {
    let stepped = match Given::from(b[3]) {
        Given::Command => engine::step(m, c, command_of(b)),
        Given::After => engine::step_coded(m, after(m, c, b), b),
        Given::Coded => engine::step_coded(m, c, b),
        Given::NoSubjects => {
            let none = without_subjects(m);
            write_line(rt, none, count, b, engine::step_coded(none, c, b));
            return c;
        }
        Given::Spoilt => {
            write_line(rt, m, count, b, engine::step_coded(m, spoilt(c), b));
            return c;
        }
        Given::Improper => {
            let ended = ended_improperly(c, shown(b));
            write_line(rt, m, count, b, engine::step(m, ended, command_of(b)));
            let valid = u8::from(engine::is_valid(m, ended));
            let _ = println!(rt; "valid {valid}");
            return c;
        }
    };
    write_line(rt, m, count, b, stepped);
    stepped.config
}

// What is wrong where the whole tape is given.
#[derive(Clone, Copy)]
pub(crate) struct Whole {
    model: bool,
    config: bool,
    room: bool,
}

impl Whole {
    // By the fourth byte of the first command, if it is 16 or up to 7 more.
    pub(crate) fn of(tape: &[u8]) -> Whole {
        let wrong = match tape.get(3) {
            Some(b @ 16..=23) => b - 16,
            _ => 0,
        };
        Whole {
            model: wrong & 1 != 0,
            config: wrong & 2 != 0,
            room: wrong & 4 != 0,
        }
    }

    pub(crate) fn model(self, m: Model) -> Model {
        if self.model { without_subjects(m) } else { m }
    }

    pub(crate) fn config(self, c: Config) -> Config {
        if self.config { spoilt(c) } else { c }
    }

    // How many of the places of the buffer are lent.
    pub(crate) fn lent(self, places: usize) -> usize
        ensures { result ≤ places }
    {
        if self.room {
            places.saturating_sub(1)
        } else {
            places
        }
    }
}
