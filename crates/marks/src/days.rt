// What a month's marks say, hour by hour and day by day.
ghost use Rattle.std.specs.Prelude.{◌≡◌, ◌+◌, ◌*◌, ◌≤◌, length};
ghost use Rattle.numbers.specs.Lists.{none_above, count_to};
ghost use Rattle.marks.specs.Marks.{or_day, survey_with};
ghost use Rattle.marks.specs.Marks.{is_peak, is_capacity, peak_at, capacity_at, is_working, is_crowded, is_doubled, is_unmatched};

use super::Survey;
use numbers::none_above;

/// The peak hours and the capacity hours of a day.
#[derive(Clone, Copy, Debug, PartialEq, Eq)]
pub struct Day {
    pub peaks: u32,
    pub capacities: u32,
}

// Whether a mark is a planned peak. A mark is a byte, as C lends a month's marks: 1 a planned peak, 2 a capacity hour, 3 both;
// number 41 refuses one above 3.
pub fn is_peak(mark: u8) -> bool
    ensures { result ≡ is_peak mark }
{
    (mark == 1) | (mark == 3)
}

// Whether a mark is a capacity hour. Each of the two has its definition's name in its contract; one function with the two marks
// as parameters is no plainer.
pub fn is_capacity(mark: u8) -> bool
    ensures { result ≡ is_capacity mark }
{
    (mark == 2) | (mark == 3)
}

// Whether no mark is above 3: `none_above` at 3, under a name of its own for those who call this crate.
pub fn none_high(marks: &[u8]) -> bool
    ensures { result ≡ none_above 3 marks.now }
{
    none_above(marks, 3)
}

// How many of up to 744 marks are planned peaks, counted in 32 bits, so that more marks are taken at a time. The limit is a clause:
// a type for it would be made of the slice at every call.
pub(crate) fn count_peaks(marks: &[u8]) -> u32
    requires { length marks.now ≤ 744 }
    ensures is { result ≡ count_to (peak_at marks.now) (length marks.now) }
    ensures most { result ≤ length marks.now }
{
    marks.iter().map(|mark| u32::from(is_peak(*mark))).sum()
}

// How many are capacity hours. A count with the test as a parameter has a longer contract than these two together.
fn count_capacities(marks: &[u8]) -> u32
    requires { length marks.now ≤ 744 }
    ensures { result ≡ count_to (capacity_at marks.now) (length marks.now) }
{
    marks.iter().map(|mark| u32::from(is_capacity(*mark))).sum()
}

impl Day {
    // The counts of a day that has these marks.
    fn of(marks: &[u8]) -> Self
        requires { length marks.now ≤ 744 }
        ensures is { result ≡ record {
          peaks = count_to (peak_at marks.now) (length marks.now);
          capacities = count_to (capacity_at marks.now) (length marks.now);
        } }
        ensures most { result.peaks ≤ length marks.now }
    {
        Day {
            peaks: count_peaks(marks),
            capacities: count_capacities(marks),
        }
    }

    // Whether number 42 applies.
    fn is_crowded(self) -> bool
        ensures { result ≡ is_crowded self }
    {
        16 < self.peaks
    }

    // Whether number 43 applies.
    fn is_doubled(self) -> bool
        ensures { result ≡ is_doubled self }
    {
        1 < self.capacities
    }

    // Whether number 46 applies.
    fn is_unmatched(self) -> bool
        ensures { result ≡ is_unmatched self }
    {
        (0 < self.peaks) & (self.capacities == 0)
    }

    // Whether it is a working day.
    fn is_working(self) -> bool
        ensures { result ≡ is_working self }
    {
        0 < self.capacities
    }
}

// The first wrong day so far: the first of the earlier ones, 0 where there is none, or else this day if it is wrong.
fn or_day(earlier: u64, day: u64, wrong: bool) -> u64
    ensures { result ≡ or_day earlier day wrong }
{
    if earlier == 0 && wrong { day } else { earlier }
}

// Day by day, the first day with the fault of 42, of 43 and of 46, n and d. It goes by the number of the day, by which the
// definition asks for the marks of a day: a loop over `chunks_exact` needs a law of the part that a day is, and is no plainer.
#[tactic(auto, unfolding(crate::specs::Marks::survey_with, crate::specs::Marks::first_day, crate::specs::Marks::working_days))]
pub fn survey_days(marks: &[u8], high: bool) -> Survey
    ensures { result ≡ survey_with marks.now high }
{
    let mut survey = Survey {
        high,
        ..Survey::default()
    };
    for k in 0..marks.len() / 24 {
        let day = Day::of(&marks[24 * k..24 * k + 24]);
        let day_number = k as u64 + 1;
        survey.crowded_day = or_day(survey.crowded_day, day_number, day.is_crowded());
        survey.doubled_day = or_day(survey.doubled_day, day_number, day.is_doubled());
        survey.unmatched_day = or_day(survey.unmatched_day, day_number, day.is_unmatched());
        survey.peaks += u64::from(day.peaks);
        survey.days += u64::from(day.is_working());
    }
    survey
}
