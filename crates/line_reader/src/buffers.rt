// What a token adds to the list, by its action. The numbers between parentheses stand in a buffer of their own until the
// parentheses close.
ghost use Rattle.std.specs.Prelude.{◌≡◌, ℕ, length};
ghost use Rattle.numbers.specs.Lists.{Filled};
ghost use Rattle.line_reader.specs.Buffers.{place_for, part, written_numbers, written_group};

use super::{Action, Numbers};
use numbers::word_at;

// The place between the parentheses from which hour k comes: round and round, or by the day of the week, of which Monday
// is 0 and Saturday and Sunday have the second day. `week` is the definition's own parameter. The day `first` is a number, since
// the days are counted on from it.
#[tactic(auto, unfolding(crate::specs::Buffers::place_for))]
fn place_for(week: bool, inner: u32, first: u32, k: usize) -> usize
    ensures { result ≡ place_for week inner first k }
{
    if week {
        let rest = 5 <= (first as usize % 7 + k / 24 % 7) % 7;
        if rest {
            return 24 + k % 24;
        }
        return k % 24;
    }
    // It is 0 where there are no numbers: nothing is written then, so the place is not read.
    if inner == 0 { 0 } else { k % inner as usize }
}

// Every word becomes what `value` says of its place.
fn write_each<F: Fn(usize) -> u32>(words: &mut [u32], value: F)
    requires { F.IsAlwaysCallable value }
    ensures { (f : ℕ → ℕ) → ((k v : ℕ) → F.post value k v → v ≡ f k) → Filled f words.old words.new (length words.old) }
{
    for (k, word) in words.iter_mut().enumerate() {
        *word = value(k);
    }
}

// The same for the words from one place to another, by their places from the first of these. Places that are not there
// leave all as it was.
#[tactic(auto, unfolding(crate::specs::Buffers::part))]
fn write_part<F: Fn(usize) -> u32>(words: &mut [u32], from: u32, to: u32, value: F)
    requires { F.IsAlwaysCallable value }
    ensures { (f : ℕ → ℕ) → ((k v : ℕ) → F.post value k v → v ≡ f k) → words.new ≡ part from to f words.old }
{
    let a = from as usize;
    let b = to as usize;
    // Tested by hand: with `get_mut(a..b)` the proof did not close.
    if a <= b && b <= words.len() {
        write_each(&mut words[a..b], value);
    }
}

// Writes what a token adds to the list, from the list before it and behind it.
#[tactic(auto, unfolding(crate::proofs::Written::written_definitions))]
pub(crate) fn write(
    before: Numbers,
    after: Numbers,
    first: u32,
    numbers: &mut [u32],
    group: &mut [u32],
)
    ensures numbers_after { numbers.new ≡ written_numbers first before after numbers.old group.old }
    ensures group_after { group.new ≡ written_group before after group.old }
{
    let (from, to, inner) = (before.count, after.count, before.inner);
    // A `match`, since the actions are closed and hold what is written: each names the call that follows.
    match after.action {
        Some(Action::Number(value)) => write_part(numbers, from, to, |_| value),
        Some(Action::InGroup(value)) => write_part(group, inner, after.inner, |_| value),
        Some(Action::Group) => write_part(numbers, from, to, |k| {
            word_at(group, place_for(false, inner, first, k))
        }),
        Some(Action::Week) => write_part(numbers, from, to, |k| {
            word_at(group, place_for(true, inner, first, k))
        }),
        None => {}
    }
}
