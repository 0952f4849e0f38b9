// Whether a configuration is valid for a model.
#![tactic(auto, unfolding(crate::specs::configs::Valid::fields_right, crate::specs::configs::Valid::subject_valid, crate::specs::configs::Valid::is_nobody, crate::specs::configs::Valid::place_right))]

ghost use Rattle.std.specs.Prelude.{◌≡◌, ◌&&◌, ◌||◌, ◌≤◌, ltb, get_or, true};
ghost use Rattle.sets.specs.Below.{all_below};
ghost use Rattle.model.specs.Sizes.{most_subjects};
ghost use Rattle.model.specs.Valid.{valid};
ghost use Rattle.engine.specs.configs.Subjects.{at};
ghost use Rattle.engine.specs.configs.Valid.{end_right, sleep_right, mask_right, improper_right, fields_right, marks_right, subject_valid, is_nobody, place_right, config_valid};
ghost use Rattle.engine.specs.inner.Reads.{masks_of, places_of};

use crate::commands::rules;
use crate::pools::{self, searches};
use crate::{Config, Pool, Subject};
use model::{MOST_STATES, MOST_SUBJECTS, Model, State};
use std::array;

// Running is never at an end, ended always is.
fn end_right(here: State, x: &Subject) -> bool
    ensures { result ≡ end_right here x.now }
{
    let end = here.kind == 7;
    (x.mode != 1 || !end) && (x.mode != 2 && x.mode != 3 || end)
}

// Asleep has the initial state and word 0.
fn sleep_right(own: model::Subject, x: &Subject) -> bool
    ensures { result ≡ sleep_right own x.now }
{
    x.mode != 0 || x.state == own.initial && x.word == 0
}

// The mask is 0 unless running in a send, and lies within its receivers.
fn mask_right(here: State, x: &Subject) -> bool
    ensures { result ≡ mask_right here x.now }
{
    (x.mask == 0 || x.mode == 1 && here.kind == 2) && sets::missing(x.mask, here.receivers) == 0
}

// The fields of a subject, the pool aside.
fn fields_right(own: model::Subject, here: State, x: &Subject) -> bool
    ensures { result ≡ fields_right own here x.now }
{
    x.mode <= 3
        && x.state < own.states
        && end_right(here, x)
        && sleep_right(own, x)
        && (x.mode == 1 || x.waited == 0)
        && mask_right(here, x)
}

// Who ended improperly holds a message.
fn improper_right(x: &Subject) -> bool
    ensures { result ≡ improper_right x.now }
{
    x.mode != 3 || searches::has_message(&x.pool)
}

// Senders' marks from n up are all zero.
fn marks_right(n: u8, x: &Subject) -> bool
    ensures { result ≡ marks_right n x.now }
{
    x.closed
        .iter()
        .enumerate()
        .all(|(i, mark)| i < n as usize || *mark == 0)
}

// A subject of a model of n subjects: what the model says of it, the state in which it is, the subject.
fn subject_valid(n: u8, own: model::Subject, here: State, x: &Subject) -> bool
    ensures { result ≡ subject_valid n own here x.now }
{
    fields_right(own, here, x)
        && marks_right(n, x)
        && pools::valid::pool_valid(n, own, &x.pool)
        && improper_right(x)
}

// A subject that is not there is all zero. Field by field: `*x == Subject::default()` proves too, and made a public step of the small model
// take 3,451 ns in the place of 3,106.
fn is_nobody(x: &Subject) -> bool
    ensures { result ≡ is_nobody x.now }
{
    x.mode == 0
        && x.state == 0
        && x.waited == 0
        && x.word == 0
        && x.mask == 0
        && marks_right(0, x)
        && pools::valid::is_blank_pool(&x.pool)
}

// Receiver r is in the mask of s exactly when its pool holds a reservation from s, then one only, of the type.
fn place_right(s: u8, mask: u16, typ: u8, r: u8, p: &Pool) -> bool
    ensures { result ≡ place_right s mask typ r p.now }
{
    let placed = sets::has(mask, r);
    if p.count == 0 {
        return !placed;
    }
    let all = searches::reservations(p, s, 255);
    let own = searches::reservations(p, s, typ);
    if placed {
        all == 1 && own == 1
    } else {
        all == 0 && own == 0
    }
}

// Subjects from n up are all zero.
fn rest_nobody(n: u8, c: &Config) -> bool
    ensures { result ≡ all_below (λ s. ltb s n || is_nobody (at c.now s)) most_subjects }
{
    c.subjects
        .iter()
        .enumerate()
        .all(|(s, x)| s < n as usize || is_nobody(x))
}

// The mask of each subject.
fn masks_of(c: &Config) -> [u16; MOST_SUBJECTS]
    ensures { result ≡ masks_of c.now }
{
    array::from_fn(|s| c.subjects[s].mask)
}

// The pool of r has the reservations that the masks of the n subjects say, each of its sender's type.
fn pool_placed(
    n: u8,
    masks: [u16; MOST_SUBJECTS],
    types: [u8; MOST_SUBJECTS],
    r: u8,
    p: &Pool,
) -> bool
    requires { n ≤ most_subjects }
    ensures { result ≡ all_below (λ s. place_right s (get_or masks s 0) (get_or types s 0) r p.now) n }
{
    for s in 0..n {
        if !place_right(s, masks[s as usize], types[s as usize], r, p) {
            return false;
        }
    }
    true
}

// Every mask says where there are reservations, of the type that the subject sends.
fn places_of(n: u8, types: [u8; MOST_SUBJECTS], c: &Config) -> bool
    requires { n ≤ most_subjects }
    ensures { result ≡ places_of n types c.now }
{
    let masks = masks_of(c);
    for r in 0..n {
        if !pool_placed(n, masks, types, r, &c.subjects[r as usize].pool) {
            return false;
        }
    }
    true
}

// The configuration is valid for the model.
pub(crate) fn config_valid(m: &Model, c: &Config) -> bool
    requires { valid m.now ≡ true }
    ensures { result ≡ config_valid m.now c.now }
{
    let n = m.n;
    let mut types = [0; MOST_SUBJECTS];
    for s in 0..n as usize {
        let st = m.states[s * MOST_STATES + (c.subjects[s].state % 32) as usize];
        let here = model::unpack(st, &m.exits);
        if !subject_valid(n, m.subjects[s], here, &c.subjects[s]) {
            return false;
        }
        types[s] = rules::exit_at(here, 0).typ;
    }
    rest_nobody(n, c) && places_of(n, types, c)
}

// The model is valid, and the configuration is valid for it.
pub fn is_valid(m: Model, c: Config) -> bool
    ensures { result ≡ (valid m && config_valid m c) }
{
    model::is_valid(m) && config_valid(&m, &c)
}
