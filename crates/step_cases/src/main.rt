// Runs stored tapes on stored models and writes what the engine answers. The file `list` names a model file and a tape
// by turns, a name to a line. tools/make_steps.py makes the files. A write to standard output that fails is passed over.
//
// A tape is a row of coded commands of eight bytes. The fourth byte, which the engine ignores, says here how the command
// is given: 1 as a command, 2 with a model that is not valid, 3 with a configuration that is not valid, 4 after a tape of
// as many such commands as the exit byte says, 5 as a command with a configuration in which its subject has ended improperly,
// any other coded. After 2, 3 and 5 the run goes on from the configuration before.
//
// For each tape its name, a line for each command, after one given by 5 also `valid 1` or `valid 0` for whether that
// configuration is valid, and a line with what the whole tape gives in one call: the refusal, and what the buffer then holds. It
// has 7 at each place before, and just enough places. The fourth byte of the first command says how the whole tape is given, if
// it is 16 or a little more: 1 more with a model that is not valid, 2 more with a configuration that is not valid, 4 more with a
// buffer of one place less.
#![tactic(auto)]

ghost use Rattle.std.specs.Prelude.{◌≤◌, length};

mod files;
mod given;
mod shown;

use engine::Config;
use given::Whole;
use model::Model;
use std::rt::Files;

// A model file has at most 43 blocks of 512 bytes.
const FILE: usize = 43 * 512;
// A tape has at most 512 commands: eight bytes each, and four numbers of an answer.
const TAPE: usize = 512 * 8;

const ANSWERS: usize = 512 * 4;

fn give_each(rt: &impl Print, m: Model, fresh: Config, tape: &[u8]) {
    let (commands, _) = tape.as_chunks::<8>();
    let mut c = fresh;
    for (i, b) in commands.iter().enumerate() {
        c = given::give(rt, m, c, i + 1, *b);
    }
}

// The whole tape once more, in one call: its refusal; then refusal, state, word and entries for each command.
fn run_whole(rt: &impl Print, m: Model, fresh: Config, tape: &[u8])
    requires { length tape.now ≤ 4096 }
{
    let whole = Whole::of(tape);
    let places = tape.len() / 8 * 4;
    let mut numbers = [7u32; ANSWERS];
    let lent = &mut numbers[..whole.lent(places)];
    let stepped = engine::run(whole.model(m), whole.config(fresh), tape, lent);
    let _ = print!(rt; "tape {}", engine::refusal(stepped.answer));
    for x in &numbers[..places] {
        let _ = print!(rt; " {x}");
    }
    let _ = print!(rt; "\n");
}

fn model_of(rt: &impl Files, name: &[u8]) -> Model {
    let mut room = [0u8; FILE];
    let loaded = model::load(files::read_named(rt, name, &mut room));
    loaded.model
}

fn run(rt: &(impl Files + Print), file: &[u8], name: &[u8]) {
    let m = model_of(rt, file);
    let fresh = engine::fresh(m).config;
    let mut room = [0u8; TAPE];
    let tape = files::read_named(rt, name, &mut room);
    let _ = rt.write_all(name);
    let _ = print!(rt; "\n");
    give_each(rt, m, fresh, tape);
    run_whole(rt, m, fresh, tape);
}

// A model's name that no line follows is passed over.
fn run_each(rt: &(impl Files + Print), list: &[u8]) {
    let mut model = None;
    for line in list.split(|b| *b == b'\n') {
        model = match model {
            None => Some(line),
            Some(file) => {
                run(rt, file, line);
                None
            }
        };
    }
}

fn main(rt: HostRuntime) {
    let mut room = [0u8; 65536];
    match files::read(&rt, "list", &mut room) {
        Ok(list) => run_each(&rt, list),
        Err(e) => {
            let _ = eprintln!(rt; "list: {e}");
        }
    }
}
