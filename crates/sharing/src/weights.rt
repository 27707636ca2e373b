// The weights by which hours are taken, and their sums.
ghost use Rattle.std.specs.Prelude.{◌≡◌, cond, ◌≤◌, ◌<◌, [], eqb, length};
ghost use Rattle.numbers.specs.Lists.{sum_to};
ghost use Rattle.sharing.specs.Shares.{one, within, past_at, chosen_at};

use numbers::word_at;

// Hour h of the past: where it lacks that hour, its hour h - 168.
pub fn past_at(past: &[u32], h: usize) -> u32
    ensures { result ≡ past_at past.now h }
{
    if h < past.len() {
        word_at(past, h)
    } else {
        word_at(past, h.saturating_sub(168))
    }
}

// The number of chosen hours, counted in 32 bits, so that more flags are taken at a time. A count with the test as a parameter
// has a longer contract than this one line and those of `marks`. The limit is a clause, as in `marks`: a type for it would be made
// of the slice at every call.
#[tactic(auto, using(numbers::proofs::Items::sum_by_to))]
pub(crate) fn count(chosen: &[bool]) -> u64
    requires { length chosen.now ≤ 744 }
    ensures is { result ≡ sum_to (within (chosen_at chosen.now) one) (length chosen.now) }
    ensures most { result ≤ length chosen.now }
{
    let count: u32 = chosen.iter().map(|is_chosen| u32::from(*is_chosen)).sum();
    u64::from(count)
}

// The weight of an hour in an even sharing over so many chosen hours.
pub(crate) fn even_weight(count: u64, is_chosen: bool) -> u64
    ensures { result ≡ cond (eqb count 0) 1 (cond is_chosen 1 0) }
{
    u64::from((count == 0) | is_chosen)
}

// The sum of these weights over n hours. A length is cast to 64 bits here and where weights are added, since u64 has no From of
// usize.
pub(crate) fn even_whole(count: u64, n: u64) -> u64
    ensures { result ≡ cond (eqb count 0) n count }
{
    if count == 0 { n } else { count }
}

// The weights of the hours of a month: those of the past in the chosen hours, which sum to `sum`; where these sum to 0, 1 in each
// of the chosen hours, of which there are `count`; where none is chosen, 1 in every hour.
#[derive(Clone, Copy)]
pub(crate) struct Weights<'a> {
    pub past: &'a [u32],
    pub chosen: &'a [bool],
    pub sum: u64,
    pub count: u64,
    pub ghost hours: { length chosen.now ≤ 744 },
    pub ghost sum_is: { sum ≡ sum_to (within (chosen_at chosen.now) (past_at past.now)) (length chosen.now) },
    pub ghost count_is: { count ≡ sum_to (within (chosen_at chosen.now) one) (length chosen.now) },
}

impl<'a> Weights<'a> {
    ghost use Rattle.sharing.specs.Taken.{hour_count, weight_of};

    // The weights of a past over chosen hours.
    pub(crate) fn new(past: &'a [u32], chosen: &'a [bool]) -> Self
        requires { length chosen.now ≤ 744 }
        ensures past { result.past.now ≡ past.now }
        ensures chosen { result.chosen.now ≡ chosen.now }
    {
        let mut sum: u64 = 0;
        for (h, is_chosen) in chosen.iter().enumerate() {
            if *is_chosen {
                sum += u64::from(past_at(past, h));
            }
        }
        Weights {
            past,
            chosen,
            sum,
            count: count(chosen),
        }
    }

    // The weights of no past over chosen hours, which are even.
    #[tactic(auto, using(crate::proofs::Turns::sum_none))]
    pub(crate) fn even(chosen: &'a [bool]) -> Self
        requires { length chosen.now ≤ 744 }
        ensures past { result.past.now ≡ [] }
        ensures chosen { result.chosen.now ≡ chosen.now }
        ensures sum { result.sum ≡ 0 }
    {
        Weights {
            past: &[],
            chosen,
            sum: 0,
            count: count(chosen),
        }
    }

    // The sum of all weights.
    #[tactic(auto, using(crate::proofs::Rule::taken_sum))]
    pub(crate) fn whole(&self) -> u64
        ensures { result ≡ sum_to (weight_of self.now) (hour_count self.now) }
    {
        match self.sum {
            0 => even_whole(self.count, self.chosen.len() as u64),
            sum => sum,
        }
    }

    // The weight of hour h.
    #[tactic(auto, unfolding(crate::specs::Shares::taken))]
    pub(crate) fn at(&self, h: usize) -> u64
        requires { h < hour_count self.now }
        ensures { result ≡ weight_of self.now h }
    {
        if self.sum == 0 {
            even_weight(self.count, self.chosen[h])
        } else if self.chosen[h] {
            u64::from(past_at(self.past, h))
        } else {
            0
        }
    }
}
