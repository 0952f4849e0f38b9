// Loads every model file that the file `list` names, a name to a line, and writes for each its
// name, the refusal and the block: 0 0 where the file loads. A model that loads is written back
// four times, and what came of each stands behind it. Then model P is edited, and each edit is
// written. A write to standard output that fails is passed over. tools/make_cases.py makes the
// files.
#![tactic(auto)]

mod back;
mod edits;
mod files;

use model::{Loaded, Verdict};
use std::rt::Files;

// Two blocks more than a model file may have: a file of 44 blocks, too, is handed over whole.
const ROOM: usize = 45 * 512;

// The refusal and the block of a file.
fn write_verdict(rt: &impl Print, verdict: Verdict) {
    let _ = print!(rt; " {} {}", model::refusal(verdict), model::place(verdict));
}

// A file's line: the file is loaded and, where it loads, written back.
fn run(rt: &(impl Files + Print), name: &[u8]) {
    let mut room = [0u8; ROOM];
    let file = files::read_named(rt, name, &mut room);
    let Loaded { model, verdict } = model::load(file);
    let _ = rt.write_all(name);
    write_verdict(rt, verdict);
    if verdict.is_ok() {
        back::write_four(rt, model, file);
    }
    let _ = print!(rt; "\n");
}

fn main(rt: HostRuntime) {
    let mut room = [0u8; 65536];
    match files::read(&rt, "list", &mut room) {
        Ok(list) => {
            for line in list.split_inclusive(|b| *b == b'\n') {
                run(&rt, line.strip_suffix(b"\n").unwrap_or(line));
            }
            edits::run(&rt);
        }
        Err(e) => {
            let _ = eprintln!(rt; "list: {e}");
        }
    }
}
