// Commands, and how they are coded in eight bytes. Functions, and no impl From: of a public type each would be one more public call.
ghost use Rattle.std.specs.Prelude.{◌≡◌, cond, ◌+◌, ◌*◌, ◌≤◌, eqb, length, take, drop};
ghost use Rattle.engine.specs.commands.Codes.{command_from, coded_in, bytes_from, bytes_of};

use crate::{Coded, Command};

// The command with a code; Tick for 8 and for what is no code.
#[tactic(auto, unfolding(crate::specs::commands::Codes::command_from))]
pub(crate) fn command_from(code: u8, subject: u8, exit: u8, word: u32) -> Command
    ensures { result ≡ command_from code subject exit word }
{
    match code {
        1 => Command::Do {
            subject,
            exit,
            word,
        },
        2 => Command::Reserve { subject },
        3 => Command::Deliver { subject },
        4 => Command::Take { subject, exit },
        5 => Command::Run { subject },
        6 => Command::Expire { subject },
        7 => Command::Cancel { subject },
        _ => Command::Tick,
    }
}

// The subject that a line shows: of Tick 0.
pub(crate) fn shown_of(code: u8, subject: u8) -> u8
    ensures { result ≡ cond (eqb code 8) 0 subject }
{
    if code == 8 { 0 } else { subject }
}

// The command in eight bytes.
fn coded(b: &[u8; 8]) -> Coded
    ensures { result ≡ coded_in b.now }
{
    let word = u32::from_le_bytes([b[4], b[5], b[6], b[7]]);
    Coded {
        code: b[0],
        shown: shown_of(b[0], b[1]),
        command: command_from(b[0], b[1], b[2], word),
    }
}

// Command i of a tape.
pub(crate) fn command_at(tape: &[u8], i: usize) -> Coded
    requires { 8 * i + 8 ≤ length tape.now }
    ensures { result ≡ coded_in (take 8 (drop (8 * i) tape.now)) }
{
    coded(tape[8 * i..].first_chunk().unwrap())
}

// A command in eight bytes: fields that it lacks are 0.
fn bytes_from(code: u8, subject: u8, exit: u8, word: u32) -> [u8; 8]
    ensures { result ≡ bytes_from code subject exit word }
{
    let [a, b, c, d] = word.to_le_bytes();
    [code, subject, exit, 0, a, b, c, d]
}

// A command as it stands on a tape.
#[tactic(auto, unfolding(crate::specs::commands::Codes::bytes_of))]
pub(crate) fn bytes_of(k: Command) -> [u8; 8]
    ensures { result ≡ bytes_of k }
{
    match k {
        Command::Do {
            subject,
            exit,
            word,
        } => bytes_from(1, subject, exit, word),
        Command::Reserve { subject } => bytes_from(2, subject, 0, 0),
        Command::Deliver { subject } => bytes_from(3, subject, 0, 0),
        Command::Take { subject, exit } => bytes_from(4, subject, exit, 0),
        Command::Run { subject } => bytes_from(5, subject, 0, 0),
        Command::Expire { subject } => bytes_from(6, subject, 0, 0),
        Command::Cancel { subject } => bytes_from(7, subject, 0, 0),
        Command::Tick => bytes_from(8, 0, 0, 0),
    }
}
