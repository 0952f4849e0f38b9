// Loading: the first refusal that holds, stage by stage over the whole file; else the model.
ghost use Rattle.std.specs.Prelude.{◌≡◌};
ghost use Rattle.model.specs.Loading.{empty_model, not_loaded, across_or, loaded};

use super::sizes::{MOST_EXITS_IN_ALL, MOST_SUBJECTS, STATE_PLACES};
use super::{Exit, Loaded, Model, decoded, records, stages, valid};
use blocks::Fault;

// A model with no subjects.
#[tactic(auto, unfolding(crate::specs::Loading::empty_model))]
fn empty_model() -> Model
    ensures { result ≡ empty_model }
{
    let subject = records::blank_subject();
    let state = records::blank_stored();
    Model {
        n: 0,
        start: 0,
        subjects: [subject; MOST_SUBJECTS],
        states: [state; STATE_PLACES],
        exits: [Exit::default(); MOST_EXITS_IN_ALL],
    }
}

// A file is refused: the empty model, and why.
fn not_loaded(why: Fault) -> Loaded
    ensures { result ≡ not_loaded why }
{
    Loaded {
        model: empty_model(),
        verdict: Err(why),
    }
}

// The model of the records, where no rule across records is broken. Not inlined: its models do not lie beside the table of kinds.
#[inline(never)]
fn across_or(file: &[u8]) -> Loaded
    ensures { result ≡ across_or file.now }
{
    let model = decoded::model(file);
    if decoded::in_place(file, &model) && valid::is_valid(model) {
        Loaded {
            model,
            verdict: Ok(()),
        }
    } else {
        not_loaded(Fault::Across)
    }
}

// The model of a file, or the empty model and why the file is refused.
pub fn load(file: &[u8]) -> Loaded
    ensures { result ≡ loaded file.now }
{
    if !stages::length_right(file) {
        return not_loaded(Fault::Length);
    }
    if let Some(b) = stages::first_bad_check(file) {
        return not_loaded(Fault::Check(b));
    }
    if let Some(b) = stages::first_bad_block(file) {
        return not_loaded(Fault::Block(b));
    }
    if let Some(b) = stages::first_bad_record(file) {
        return not_loaded(Fault::Record(b));
    }
    across_or(file)
}
