// The fresh start.
ghost use Rattle.std.specs.Prelude.{◌≡◌, cond};
ghost use Rattle.engine.specs.configs.Subjects.{nobody};
ghost use Rattle.engine.specs.configs.Fresh.{starting, fresh_config, fresh_of};

use crate::{Answer, Config, Stepped, Subject};
use model::Model;
use std::array;

// A subject that is there starts in its initial state, running or asleep.
fn fresh_subject(there: bool, runs: bool, initial: u8) -> Subject
    ensures { result ≡ cond there (starting (cond runs 1 0) initial) nobody }
{
    if !there {
        return Subject::default();
    }
    let asleep = Subject {
        state: initial,
        ..Subject::default()
    };
    if runs {
        Subject { mode: 1, ..asleep }
    } else {
        asleep
    }
}

// Every subject at its start.
fn fresh_config(m: Model) -> Config
    ensures { result ≡ fresh_config m }
{
    Config {
        subjects: array::from_fn(|s| {
            fresh_subject(
                s < m.n as usize,
                sets::has(m.start, s as u8),
                m.subjects[s].initial,
            )
        }),
    }
}

// The fresh start of a model; of a model that is not valid the all-zero configuration, refused.
pub fn fresh(m: Model) -> Stepped
    ensures { result ≡ fresh_of m }
{
    if !model::is_valid(m) {
        return Stepped {
            config: Config::default(),
            answer: Answer::Refused(8),
        };
    }
    Stepped {
        config: fresh_config(m),
        answer: Answer::Done,
    }
}
