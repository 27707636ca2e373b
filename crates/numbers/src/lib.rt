// Numbers and lists of numbers: what the rules of every other crate are written with.
#![tactic(auto)]

ghost use Rattle.std.specs.Prelude.{◌≡◌, ◌≤◌, length};
ghost use Rattle.std.specs.List.{list_all};
ghost use Rattle.std.specs.Ordering.{partial_le};
ghost use Rattle.numbers.specs.Lists.{sum_to, at, zeros};
ghost use Rattle.numbers.specs.Rounding.{half_up};

// x / d rounded half up, and 0 where d is 0, as document 01 has the capacity of no days.
#[tactic(auto, unfolding(crate::specs::Rounding::half_up))]
pub fn half_up(x: u64, d: u64) -> u64
    ensures { result ≡ half_up x d }
{
    if d == 0 {
        return 0;
    }
    let left = x % d;
    x / d + u64::from(d - left <= left)
}

// Every word becomes 0.
pub fn clear(words: &mut [u32])
    ensures { words.new ≡ zeros (length words.old) }
{
    words.fill(0);
}

// Whether no item is above the limit. The flag has no early return, so that the loop takes several items at a time. A scan of the
// store that returns early, as `any` and `all` do, takes about three times as long (docs/SPEED.md).
pub fn none_above<T: PartialOrd + Copy>(items: &[T], limit: T) -> bool
    ensures { result ≡ list_all (λ x. partial_le T.partial_cmp x limit) items.now }
{
    let mut ok = true;
    for item in items {
        ok &= *item <= limit;
    }
    ok
}

// Word k, and 0 past the end, as the definition has it: the rules ask by index, and a list counts as 0 from its end on.
pub fn word_at(words: &[u32], k: usize) -> u32
    ensures { result ≡ at words.now k }
{
    words.get(k).copied().unwrap_or(0)
}

// The sum of the first n words.
pub fn sum_first(words: &[u32], n: usize) -> u64
    requires { n ≤ 744 }
    ensures { result ≡ sum_to (at words.now) n }
{
    words.iter().take(n).map(|word| u64::from(*word)).sum()
}
