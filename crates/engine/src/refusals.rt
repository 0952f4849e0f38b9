// The number of each refusal.
ghost use Rattle.std.specs.Prelude.{◌≡◌};
ghost use Rattle.engine.specs.inner.Refusals.{number_named, number_told};

use crate::Rule;

impl From<Rule> for u8 {
    ghost from_gives = { λ why number. number ≡ number_named why };

    // The number that the rules give a refusal.
    fn from(why: Rule) -> u8 {
        match why {
            Rule::NoRoom => 6,
            Rule::ModelNotValid => 8,
            Rule::NoCode => 9,
            Rule::ConfigNotValid => 10,
            Rule::NotThere => 11,
            Rule::NotRunning => 12,
            Rule::WrongKind => 13,
            Rule::NoExit => 14,
            Rule::NoMessage => 15,
            Rule::PlaceMissing => 16,
            Rule::Improper => 17,
            Rule::NoTarget => 18,
            Rule::TooEarly => 19,
            Rule::CanDeliver => 20,
        }
    }
}

// The number of what was judged: 0 where nothing refuses.
pub(crate) fn number(judged: Result<(), Rule>) -> u8
    ensures { result ≡ number_told judged }
{
    match judged {
        Ok(()) => 0,
        Err(why) => u8::from(why),
    }
}
