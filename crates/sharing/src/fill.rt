// The loops that fill a buffer with shares.
ghost use Rattle.std.specs.Prelude.{◌≡◌, ◌+◌, ◌≤◌, length};
ghost use Rattle.numbers.specs.Lists.{padded};
ghost use Rattle.units.specs.Volumes.{greatest_month_volume};
ghost use Rattle.sharing.specs.Shares.{shares_over, shares_apart, stretched, chosen_at};
ghost use Rattle.sharing.specs.Limits.{MonthFits};
ghost use Rattle.sharing.specs.Taken.{hour_count};

use super::progress::Progress;
use super::weights::{Weights, count, even_weight, even_whole};

// A sharing by weights whose numbers fit. It is inlined, so that the weights stand in registers and the loop is made for each kind of them.
// It goes by the number of the hour, by which a weight is asked for.
#[inline(always)]
pub(crate) fn fill(v: u64, weights: &Weights, hours: &mut [u32])
    requires month_fits { MonthFits v (hour_count weights.now) (length hours.old) }
    requires weights_fit { weights.now.sum ≤ greatest_month_volume }
    ensures { hours.new
        ≡ padded (length hours.old) (shares_over v (chosen_at weights.now.chosen.now) (stretched weights.now.past.now (hour_count weights.now))) }
{
    hours.fill(0);
    let mut sharing = Progress::start(v, weights.whole());
    for h in 0..weights.chosen.len() {
        hours[h] = sharing.share(weights.at(h));
    }
}

// Two even sharings whose numbers fit: the first over the chosen hours, the second over the others. It is one loop for both: two
// runs of `fill` would add into the hours of the first, which is a loop more and another contract of `fill`.
pub(crate) fn fill_apart(a: u64, b: u64, chosen: &[bool], hours: &mut [u32])
    requires { MonthFits (a + b) (length chosen.now) (length hours.old) }
    ensures { hours.new ≡ padded (length hours.old) (shares_apart a b (chosen_at chosen.now) (length chosen.now)) }
{
    let n = chosen.len() as u64;
    let k = count(chosen);
    let m = n - k;
    let mut first = Progress::start(a, even_whole(k, n));
    let mut second = Progress::start(b, even_whole(m, n));
    hours.fill(0);
    for (h, is_chosen) in chosen.iter().enumerate() {
        hours[h] = first.share(even_weight(k, *is_chosen))
            + second.share(even_weight(m, !*is_chosen));
    }
}
