// Edits of model P: a field is changed, and the model is written. What is still valid is compared
// with a stored file and loaded again; what is not is refused, whatever the buffer.
ghost use Rattle.std.specs.Prelude.{◌<◌};

use super::{ROOM, back, files};
use model::{Loaded, Model};
use std::rt::Files;

// The place of subject 1's state 0.
const PLACE: usize = model::MOST_STATES;

fn model_p(rt: &impl Files) -> Model {
    let mut room = [0u8; ROOM];
    let loaded = model::load(files::read_named(rt, b"printing-p", &mut room));
    loaded.model
}

// ---- The edits

// Another limit in the row of subject 1.
fn with_limit(mut m: Model, limit: u8) -> Model {
    m.subjects[1].row[0].limit = limit;
    m
}

// Another target of an exit. The model has three: 0 is that of subject 0's state 0, from 3 on the
// room is unused.
fn with_target(mut m: Model, exit: usize, target: u8) -> Model
    requires { exit < 1024 }
{
    m.exits[exit].target = target;
    m
}

// Another kind of subject 0's state 2.
fn with_kind(mut m: Model, kind: u8) -> Model {
    m.states[2].kind = kind;
    m
}

// Another number of subjects.
fn with_subjects(m: Model, n: u8) -> Model {
    Model { n, ..m }
}

// Another place where the exits of subject 1's state 0 begin.
fn with_first(mut m: Model, first: u16) -> Model {
    m.states[PLACE].first = first;
    m
}

// ---- Edits that stay valid

// The edited model is written, compared with the stored file of that name, and loaded again.
fn written_and_loaded(rt: &(impl Files + Print), m: Model, name: &[u8]) -> Model {
    let mut room = [0u8; ROOM];
    let file = files::read_named(rt, name, &mut room);
    let mut bytes = [back::MARK; back::MARKED];
    let written = model::write(m, &mut bytes);
    back::write_group(rt, written, &bytes, file);
    let length = written.unwrap_or(0);
    let Loaded { model, verdict } = model::load(bytes.get(..length).unwrap_or(&bytes));
    let _ = print!(rt; " | loads");
    super::write_verdict(rt, verdict);
    model
}

// The limit in the row of subject 1.
fn edit_limit(rt: &(impl Files + Print), p: Model) {
    let _ = print!(rt; "edit limit-3");
    let again = written_and_loaded(rt, with_limit(p, 3), b"edited-limit");
    let _ = println!(rt; " {}", again.subjects[1].row[0].limit);
}

// The target of the exit of subject 0's state 0.
fn edit_target(rt: &(impl Files + Print), p: Model) {
    let _ = print!(rt; "edit target-2");
    let again = written_and_loaded(rt, with_target(p, 0, 2), b"edited-target");
    let _ = println!(rt; " {}", again.exits[0].target);
}

// ---- Edits that do not

// The model is written into a buffer that is long enough, and into one of length 0.
fn edit_refused(rt: &impl Print, name: &str, m: Model) {
    let _ = print!(rt; "edit {name}");
    back::write_into(rt, m, b"", back::MARKED);
    back::write_into(rt, m, b"", 0);
    let _ = print!(rt; "\n");
}

pub(crate) fn run(rt: &(impl Files + Print)) {
    let p = model_p(rt);
    edit_limit(rt, p);
    edit_target(rt, p);
    edit_refused(rt, "limit-17", with_limit(p, 17));
    edit_refused(rt, "target-9", with_target(p, 0, 9));
    edit_refused(rt, "kind-0", with_kind(p, 0));
    edit_refused(rt, "subjects-3", with_subjects(p, 3));
    edit_refused(rt, "target-behind-last", with_target(p, 3, 1));
    edit_refused(rt, "first-3", with_first(p, 3));
}
