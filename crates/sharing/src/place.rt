// The share of one place of a list.
ghost use Rattle.std.specs.Prelude.{◌≡◌, cond, ◌≤◌, eqb};
ghost use Rattle.numbers.specs.Lists.{sum_to, at};
ghost use Rattle.sharing.specs.Shares.{shares};
ghost use Rattle.sharing.specs.Limits.{Placed};

use super::progress::Progress;
use numbers::sum_first;

// The sum of the first n weights as they are taken over all places, where all of them sum to s.
fn taken_first(s: u64, weights: &[u32], n: usize) -> u64
    requires { n ≤ 744 }
    ensures { result ≡ cond (eqb s 0) n (sum_to (at weights.now) n) }
{
    if s == 0 {
        n as u64
    } else {
        sum_first(weights, n)
    }
}

// The share of one place where the numbers fit. All weights before the place go as one hour of a sharing; its next hour is the place.
pub(crate) fn at_place(v: u64, s: u64, weights: &[u32], place: usize) -> u64
    requires { Placed v s weights.now place }
    ensures { result ≡ at (shares v weights.now) place }
{
    let whole = taken_first(s, weights, weights.len());
    let before = taken_first(s, weights, place);
    let own = taken_first(s, weights, place + 1) - before;
    let mut sharing = Progress::start(v, whole);
    sharing.share(before);
    u64::from(sharing.share(own))
}
