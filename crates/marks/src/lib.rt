// Marks of a month's hours: what number 41, 42, 43 or 46 refuses and on which day, the counts n and d, the sum C and capacity.
#![tactic(auto)]

ghost use Rattle.std.specs.Prelude.{◌≡◌, cond};
ghost use Rattle.numbers.specs.Lists.{at};
ghost use Rattle.marks.specs.Marks.{capacity_at, survey_of, capacity_sum, capacity_in};

mod days;
pub mod peak;

use days::{is_capacity, none_high, survey_days};
use numbers::{half_up, word_at};
use units::{Kw, Kwh};

// What the marks of a month say: whether 41 applies; the first day with the fault of 42, of 43 and of 46, counted from 1, and 0
// where there is none; n and d.
#[derive(Clone, Copy, Debug, PartialEq, Eq, Default)]
pub struct Survey {
    pub high: bool,
    pub crowded_day: u64,
    pub doubled_day: u64,
    pub unmatched_day: u64,
    pub peaks: u64,
    pub days: u64,
}

// Whether 41 applies, the days of 42, 43 and 46, n and d.
#[tactic(auto, unfolding(crate::specs::Marks::survey_of, crate::specs::Marks::high))]
pub fn survey_marks(marks: &[u8]) -> Survey
    ensures { result ≡ survey_of marks.now }
{
    survey_days(marks, !none_high(marks))
}

// The volume of hour h where it is a capacity hour, else 0, as the sum of the definition has it.
fn capacity_at(marks: &[u8], hours: &[u32], h: usize) -> u32
    ensures { result ≡ cond (capacity_at marks.now h) (at hours.now h) 0 }
{
    if h < marks.len() && is_capacity(marks[h]) {
        word_at(hours, h)
    } else {
        0
    }
}

// C: the sum of the volumes in the capacity hours. It goes over the 744 places of a buffer as the definition does: as a chain over
// a `zip` of marks and hours it needs two laws more, and is no plainer.
pub fn capacity_sum(marks: &[u8], hours: &[u32]) -> Kwh
    ensures { result.0 ≡ capacity_sum marks.now hours.now }
{
    let mut sum: u64 = 0;
    for h in 0..744 {
        sum += u64::from(capacity_at(marks, hours, h));
    }
    Kwh(sum)
}

// Capacity: C/d rounded half up, 0 if d = 0, and cut to what 32 bits hold, which no month passes. The cut is the least of the two,
// as the definition writes it, and the cast is of a number that fits.
#[tactic(auto, using(crate::proofs::Laws::capacity_half_up))]
pub fn capacity(sum: Kwh, days: u64) -> Kw
    ensures { result.0 ≡ capacity_in sum.0 days }
{
    Kw(half_up(sum.0, days).min(4294967295) as u32)
}
