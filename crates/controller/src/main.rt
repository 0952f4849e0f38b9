// The controller: reads the model from `model.bin` and commands of eight bytes from standard input, and prints a line for
// each command: count, code, subject, refusal, and that subject's state, word and number of pool entries.
//
// This file only reads, calls and writes. What a piece of input prints and leaves is proved in pieces.rt, what a line says in
// printed.rt and text.rt.
#![tactic(auto)]

ghost use Rattle.std.specs.Prelude.{◌≡◌, true, ◌+◌, ◌≤◌, length, take};
ghost use Rattle.blocks.specs.Verdicts.{no_fault};
ghost use Rattle.model.specs.Valid.{valid};

mod files;
mod pieces;
mod printed;
mod text;

use engine::Config;
use model::{Loaded, Model, Verdict};
use std::io::{Read, Stdin};
use std::rt::Files;

// Commands served at a time.
const COMMANDS: usize = 1024;

// Bytes of input at hand: whole commands, and up to seven bytes of the next one.
const INPUT: usize = 8 * COMMANDS;

// Four numbers a command.
const NUMBERS: usize = 4 * COMMANDS;

// Seven numbers of text a command.
const OUTPUT: usize = 147 * COMMANDS;

// One block more than a model file may have: a longer file is refused by its length.
const FILE: usize = 44 * 512;

// Pieces of input in all, each of a byte or more.
const TURNS: u64 = 1 << 50;

// A tape served: the configuration behind it, and how long its text is, which stands at the front of a buffer. The lengths beside the
// buffers stay: `served_of`, `place_in` and `piece_in`, of which `printed_pieces` speaks, name them.
#[derive(Clone, Copy)]
pub struct Served {
    pub config: Config,
    pub length: usize,
}

// Between two pieces of input: the configuration, how many bytes are held over, the number of the next line, and how long
// the text of the last piece is.
#[derive(Clone, Copy)]
pub struct Serving {
    pub config: Config,
    pub held: usize,
    pub next: u64,
    pub length: usize,
}

// The model in `model.bin`. What cannot be opened or read has length 0.
fn load_model(rt: &impl Files) -> Loaded
    ensures { (result.verdict ≡ no_fault) → (valid result.model ≡ true) }
{
    let mut room = [0u8; FILE];
    model::load(files::read(rt, "model.bin", &mut room).unwrap_or_default())
}

// Prints why a file is refused, and the block.
fn print_refusal(rt: &impl Print, verdict: Verdict) {
    let _ = println!(rt;
        "model {} {}",
        model::refusal(verdict),
        model::place(verdict)
    );
}

// Reads once behind the bytes held over, and answers how many came: 0 at the end of the input, and where it cannot be read.
fn read_some(input: &mut Stdin, room: &mut [u8], held: usize) -> usize
    requires { held ≤ length room.old }
    ensures count { held + result ≤ length room.old }
    ensures held { take held room.new ≡ take held room.old }
{
    let part = &mut room[held..];
    input.read(part).unwrap_or(0)
}

// Serves the input to its end. A proved loop has to end, and nothing says that the input does, so the turns are counted
// up to a number that no run reaches.
fn serve_all(rt: &HostRuntime, m: Model)
    requires { valid m ≡ true }
{
    let mut input = rt.stdin();
    let mut room = [0u8; INPUT];
    let mut numbers = [0u32; NUMBERS];
    let mut out = [0u8; OUTPUT];
    let mut at = Serving {
        config: engine::fresh(m).config,
        held: 0,
        next: 1,
        length: 0,
    };
    for _ in 0..TURNS {
        let got = read_some(&mut input, &mut room, at.held);
        if got == 0 {
            break;
        }
        at = pieces::piece(m, at, &mut room, got, &mut numbers, &mut out);
        if rt.write_all(&out[..at.length]).is_err() {
            return;
        }
    }
    let _ = rt.write_all(pieces::ending(at.held));
}

fn main(rt: HostRuntime) {
    let Loaded { model, verdict } = load_model(&rt);
    match verdict {
        Ok(()) => {
            if rt.write_all(b"n c s r state word pool\n").is_ok() {
                serve_all(&rt, model);
            }
        }
        Err(_) => print_refusal(&rt, verdict),
    }
}
