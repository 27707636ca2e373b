// The words that a history file has (docs/HISTORY-FILE.md).
ghost use Rattle.std.specs.Prelude.{◌≡◌};
ghost use Rattle.line_tokens.specs.Words.{text_of, word_of};

// A word that is known.
#[derive(Clone, Copy, Debug, PartialEq, Eq)]
pub enum Word {
    Open,
    Billing,
    Control,
    Neighbour,
    Failure,
    Admission,
    Denial,
    Permission,
    Close,
    Basis,
    Power,
    Place,
    Amperes,
    Volts,
    Cosine,
    Phases,
    Currents,
    Hours,
    Volume,
    Week,
    None,
    Interval,
    Integral,
    Agreed,
    Shared,
    Cable,
    Fault,
    Loss,
    Verification,
    Removal,
}

// All of them: Rattle does not list the cases of an enum, and `rt ci` refuses a derive of the project's own.
const WORDS: [Word; 30] = [
    Word::Open,
    Word::Billing,
    Word::Control,
    Word::Neighbour,
    Word::Failure,
    Word::Admission,
    Word::Denial,
    Word::Permission,
    Word::Close,
    Word::Basis,
    Word::Power,
    Word::Place,
    Word::Amperes,
    Word::Volts,
    Word::Cosine,
    Word::Phases,
    Word::Currents,
    Word::Hours,
    Word::Volume,
    Word::Week,
    Word::None,
    Word::Interval,
    Word::Integral,
    Word::Agreed,
    Word::Shared,
    Word::Cable,
    Word::Fault,
    Word::Loss,
    Word::Verification,
    Word::Removal,
];

impl Word {
    // The text of a word, in small letters.
    #[tactic(auto, unfolding(crate::specs::Words::text_of))]
    fn text(self) -> &'static [u8]
        ensures { result.now ≡ text_of self }
    {
        match self {
            Word::Open => b"open",
            Word::Billing => b"billing",
            Word::Control => b"control",
            Word::Neighbour => b"neighbour",
            Word::Failure => b"failure",
            Word::Admission => b"admission",
            Word::Denial => b"denial",
            Word::Permission => b"permission",
            Word::Close => b"close",
            Word::Basis => b"basis",
            Word::Power => b"power",
            Word::Place => b"place",
            Word::Amperes => b"amperes",
            Word::Volts => b"volts",
            Word::Cosine => b"cosine",
            Word::Phases => b"phases",
            Word::Currents => b"currents",
            Word::Hours => b"hours",
            Word::Volume => b"volume",
            Word::Week => b"week",
            Word::None => b"none",
            Word::Interval => b"interval",
            Word::Integral => b"integral",
            Word::Agreed => b"agreed",
            Word::Shared => b"shared",
            Word::Cable => b"cable",
            Word::Fault => b"fault",
            Word::Loss => b"loss",
            Word::Verification => b"verification",
            Word::Removal => b"removal",
        }
    }
}

// The word that some letters are, capital or small; letters that are no word of a history file are none.
#[tactic(auto, unfolding(crate::specs::Words::word_of))]
pub(crate) fn word_of(letters: &[u8]) -> Option<Word>
    ensures { result ≡ word_of letters.now }
{
    WORDS
        .iter()
        .copied()
        .find(|word| letters.eq_ignore_ascii_case(word.text()))
}
