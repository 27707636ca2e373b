// The closing of a month (document 01, 'Closing').
#![tactic(auto)]

ghost use Rattle.std.specs.Prelude.{ℕ, List, ◌≡◌, length};
ghost use Rattle.marks.specs.Marks.{survey_of, capacity_in};
ghost use Rattle.rules.specs.Calls.Call.{closing};
ghost use Rattle.rules.specs.Grounds.{ground_number};
ghost use Rattle.model.specs.Model.{state, refusal, Does};
ghost use Rattle.model.specs.Refusals.{wrong_day};
ghost use Rattle.model.specs.Refused.{refusal_number, number_of};
ghost use Rattle.model.specs.Settled.{Settled};
ghost use Rattle.closing.specs.Closes.{ClosesWith};

mod after;

use after::{point_after, store_after};
use calendar::open_hours;
use counts::counts_of;
use grounds::Found;
use marks::{Survey, capacity, capacity_sum, survey_marks};
use model::Answer;
use model::refusals::{Refusal, check_anyone, refuse_if};
use record::Record;
use rules::Figures;
use store::store_fits;
use units::Kwh;

// The refusals of a closing, 1 to 3 and 40 to 46, where the marks are surveyed.
#[tactic(auto, using(crate::proofs::Leaves::number_is))]
fn check_surveyed(
    r: Record,
    store: &[u32],
    marks: &[u8],
    survey: Survey,
    hours: &[u32],
) -> Result<(), Refusal>
    requires { survey ≡ survey_of marks.now }
    ensures { number_of result ≡ refusal (state r store.now) (closing marks.now hours.now) }
{
    let t = open_hours(r.date) as usize;
    check_anyone(store.len(), r)?;
    refuse_if(marks.len() != t, Refusal::NotMonthMarks)?;
    refuse_if(survey.high, Refusal::UnknownMark)?;
    refuse_if(survey.crowded_day != 0, Refusal::TooManyPeakHours)?;
    refuse_if(survey.doubled_day != 0, Refusal::TooManyCapacityHours)?;
    refuse_if(survey.unmatched_day != 0, Refusal::NoCapacityHour)?;
    refuse_if(hours.len() != 744, Refusal::HourBufferSize)?;
    refuse_if(!store_fits(store), Refusal::WordAboveLimit)
}

// The same, with the marks surveyed first.
pub fn check_closing(r: Record, store: &[u32], marks: &[u8], hours: &[u32]) -> Result<(), Refusal>
    ensures { number_of result ≡ refusal (state r store.now) (closing marks.now hours.now) }
{
    let survey = survey_marks(marks);
    check_surveyed(r, store, marks, survey, hours)
}

// The day of the surveyed marks that is wrong, of the fault that the closing is refused for.
#[tactic(auto, using(crate::proofs::Leaves::day_of_number))]
fn wrong_day(refusal: Refusal, survey: Survey) -> u64
    ensures { (marks : List ℕ) → survey ≡ survey_of marks → result ≡ wrong_day (refusal_number refusal) marks }
{
    match refusal {
        Refusal::TooManyPeakHours => survey.crowded_day,
        Refusal::TooManyCapacityHours => survey.doubled_day,
        Refusal::NoCapacityHour => survey.unmatched_day,
        _ => 0,
    }
}

// The figures of a closing, with C and d, and capacity from them.
fn figures_of(found: Found, sum: Kwh, days: u64) -> Figures
    ensures found_value { (result.ground ≡ ground_number found.ground) × (result.volume ≡ found.volume) }
    ensures capacity_value { result.capacity.0 ≡ capacity_in sum.0 days }
    ensures sum_value { (result.sum ≡ sum) × (result.days ≡ days) }
    ensures no_wrong_day { result.wrong_day ≡ 0 }
{
    Figures {
        ground: found.ground.number(),
        volume: found.volume,
        capacity: capacity(sum, days),
        sum,
        days,
        wrong_day: 0,
    }
}

// A closing that is accepted: its hours into the buffer, its figures into the answer, and the next month opens.
fn close_settled(
    r: Record,
    store: &mut [u32],
    marks: &[u8],
    survey: Survey,
    hours: &mut [u32],
) -> Answer
    requires settled { Settled r store.old marks.now }
    requires surveyed { survey ≡ survey_of marks.now }
    requires room { length hours.old ≡ 744 }
    ensures { ClosesWith (state r store.old) marks.now result store.new hours.new }
{
    let found = counts_of(r, &*store, marks, survey).first_ground(hours);
    let new = found.ground.is_measured();
    let after = point_after(r, new, found.volume);
    store_after(store, new, r.date, hours);
    let sum = capacity_sum(marks, hours);
    let figures = figures_of(found, sum, survey.days);
    Answer {
        refusal: 0,
        after,
        figures,
    }
}

// Closes the open month.
pub fn close(r: Record, store: &mut [u32], marks: &[u8], hours: &mut [u32]) -> Answer
    ensures { Does (state r store.old) (closing marks.now hours.old) result store.new hours.new }
{
    let survey = survey_marks(marks);
    if let Err(refusal) = check_surveyed(r, store, marks, survey, hours) {
        return Answer::refused_on(refusal, r, wrong_day(refusal, survey));
    }
    close_settled(r, store, marks, survey, hours)
}
