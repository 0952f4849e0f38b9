// The number of a refusal.
ghost use Rattle.std.specs.Prelude.{◌≡◌};
ghost use Rattle.engine.specs.configs.Answers.{refusal_of};

use crate::Answer;

// The refusal's number; 0 is accepted.
pub fn refusal(answer: Answer) -> u8
    ensures { result ≡ refusal_of answer }
{
    match answer {
        Answer::Done => 0,
        Answer::Reserved {
            placed: _,
            improper: _,
            closed: _,
            full: _,
            missing: _,
        } => 0,
        Answer::Refused(number) => number,
    }
}
