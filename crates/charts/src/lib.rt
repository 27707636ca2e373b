// What a chart of the days of a month shows: the sums of its days, the largest of them, and how high a bar is.
#![tactic(auto)]

ghost use Rattle.std.specs.Prelude.{◌≡◌};
ghost use Rattle.charts.specs.Charts.{hour_of, day_sum, largest_day, reaches_above};

use numbers::word_at;

// An hour of a day, both counted from 0. An hour outside the month is 0 and no Option, since `day_sum`, which alone asks for
// it, adds nothing there.
#[tactic(auto, unfolding(crate::specs::Charts::hour_of))]
pub fn hour_of(hours: &[u32], day: usize, h: usize) -> u32
    ensures { result ≡ hour_of hours.now day h }
{
    if day < 31 && h < 24 {
        word_at(hours, day * 24 + h)
    } else {
        0
    }
}

// The sum of the hours of a day. It and the largest day go by number, as their definitions do: as a chain over the range each
// needs a proof several times as long.
#[tactic(auto, unfolding(crate::specs::Charts::day_sum))]
pub fn day_sum(hours: &[u32], day: usize) -> u64
    ensures { result ≡ day_sum hours.now day }
{
    let mut sum = 0;
    for h in 0..24 {
        sum += u64::from(hour_of(hours, day, h));
    }
    sum
}

// The largest day of a month.
#[tactic(auto, unfolding(crate::specs::Charts::largest_day))]
pub fn largest_day(hours: &[u32], days: usize) -> u64
    ensures { result ≡ largest_day hours.now days }
{
    let mut most: u64 = 0;
    for day in 0..days {
        most = most.max(day_sum(hours, day));
    }
    most
}

// Whether a day's bar reaches above a row of the chart, of five rows counted from 0 at the bottom. A day with any volume
// reaches above row 0. No day has 200,000,000,000 kWh.
#[tactic(auto, unfolding(crate::specs::Charts::reaches_above))]
pub fn reaches(sum: u64, most: u64, row: u64) -> bool
    ensures { result ≡ reaches_above sum most row }
{
    row.min(4) * most.min(200_000_000_000) < 5 * sum.min(200_000_000_000)
}
