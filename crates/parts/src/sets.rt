// Sets of the days of a month, as the bits of a word: bit k is day k + 1. Days and hours count from 0 here.
ghost use Rattle.std.specs.Prelude.{◌≡◌, ◌||◌, ◌≤◌, ℕ, cond, leb};
ghost use Rattle.parts.specs.Sets.{in_set, day_count, days_between, lies_inside};

// Whether the day at k is in the set. No set has a day past its 32 bits.
#[tactic(auto, using(crate::proofs::Bits::past_word), unfolding(crate::specs::Sets::in_set))]
pub fn in_set(days: u32, k: usize) -> bool
    ensures { result ≡ in_set days k }
{
    k < 32 && (days >> k) % 2 == 1
}

// Whether hour h lies on a day of the set.
#[tactic(auto, unfolding(crate::specs::Sets::lies_inside))]
pub fn lies_inside(days: u32, h: usize) -> bool
    ensures { result ≡ lies_inside days h }
{
    in_set(days, h / 24)
}

// How many of the first n days are in the set.
#[tactic(auto, unfolding(crate::specs::Sets::day_count))]
pub fn count_days(days: u32, n: usize) -> u64
    ensures is { result ≡ day_count days n }
    ensures most { result ≤ n }
{
    let mut count = 0;
    for k in 0..n {
        count += u64::from(in_set(days, k));
    }
    count
}

// The days from a on and before b; none where a is not before b, or b is above 32.
#[tactic(auto, using(crate::proofs::Bits::power_word, crate::proofs::Bits::power_up), unfolding(crate::specs::Sets::days_between))]
pub fn days_between(a: usize, b: usize) -> u32
    ensures { result ≡ cond (leb b 32) (days_between a b) 0 }
{
    if (b <= 32) & (a < b) {
        ((1u64 << b) - (1u64 << a)) as u32
    } else {
        0
    }
}

// The days of either set.
#[tactic(auto, using(crate::proofs::Bits::in_either))]
pub fn either_set(x: u32, y: u32) -> u32
    ensures { (k : ℕ) → in_set result k ≡ in_set x k || in_set y k }
{
    x | y
}
