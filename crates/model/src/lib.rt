// What every call answers.
#![tactic(auto)]

ghost use Rattle.std.specs.Prelude.{◌≡◌};
ghost use Rattle.model.specs.Model.{without_figures, only_day};
ghost use Rattle.model.specs.Refused.{refusal_number, number_of, answered};

use record::Record;
use refusals::Refusal;
use rules::Figures;

pub mod refusals;

// The number of the refusal, 0 for none; the record after the call; and a closing's ground and figures, else 0, but for the day
// of a closing refused with 42, 43 or 46. They are numbers as C has them.
#[repr(C)]
#[derive(Clone, Copy)]
pub struct Answer {
    pub refusal: u32,
    pub after: Record,
    pub figures: Figures,
}

impl Answer {
    // That of an opening, or of a call that is no closing: it has no figures.
    pub fn without_figures(refusal: u32, after: Record) -> Answer
        ensures { result ≡ without_figures refusal after }
    {
        Answer {
            refusal,
            after,
            figures: Figures::default(),
        }
    }

    // An accepted call that is no closing.
    pub fn accepted(after: Record) -> Answer
        ensures { result ≡ without_figures 0 after }
    {
        Answer::without_figures(0, after)
    }

    // A refused call that is no closing: the record before it comes back.
    pub fn refused(refusal: Refusal, before: Record) -> Answer
        ensures { result ≡ without_figures (refusal_number refusal) before }
    {
        Answer::without_figures(refusal.number(), before)
    }

    // A refused closing, with the day whose marks are wrong, 0 for none: the record before it comes back.
    pub fn refused_on(refusal: Refusal, before: Record, wrong_day: u64) -> Answer
        ensures { result ≡ record { refusal = refusal_number refusal; after = before; figures = only_day wrong_day } }
    {
        Answer {
            refusal: refusal.number(),
            after: before,
            figures: Figures {
                wrong_day,
                ..Figures::default()
            },
        }
    }
}

// What a call that is no closing answers: the record that it left, with the number of its refusal, if it has one. A refused call
// left the record that came.
pub fn answer_behind(outcome: Result<(), Refusal>, after: Record) -> Answer
    ensures { result ≡ without_figures (number_of outcome) after }
{
    let number = match outcome {
        Ok(()) => 0,
        Err(refusal) => refusal.number(),
    };
    Answer::without_figures(number, after)
}

// What an opening answers: the record of its point, or why it is refused.
pub fn answer_of(outcome: Result<Record, Refusal>, before: Record) -> Answer
    ensures { result ≡ answered outcome before }
{
    match outcome {
        Ok(after) => Answer::accepted(after),
        Err(refusal) => Answer::refused(refusal, before),
    }
}
