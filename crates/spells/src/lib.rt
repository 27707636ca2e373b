// The days of a month that lie in a spell: what becomes of the two sets that a record keeps, and the tests of number 2 on them. Days
// count from 1, and day x is bit x - 1 of a set.
#![tactic(auto)]

ghost use Rattle.std.specs.Prelude.{◌≡◌};
ghost use Rattle.spells.specs.Sets.{days_from, marked, completed, only_before, is_within};

use parts::sets::days_between;

// The days from p on, or from 1 on where p is 0, and before e.
#[tactic(auto, unfolding(crate::specs::Sets::days_from))]
fn days_from(p: u32, e: u32) -> u32
    ensures { result ≡ days_from p e }
{
    days_between(p.saturating_sub(1) as usize, e.saturating_sub(1) as usize)
}

// The set, and with it the days from p on and before e where the status holds.
#[tactic(auto, unfolding(crate::specs::Sets::marked))]
pub fn marked(days: u32, p: u32, e: u32, status: bool) -> u32
    ensures { result ≡ marked days p e status }
{
    if status { days | days_from(p, e) } else { days }
}

// At the month's end: the set, and with it the days from p on up to the last one where the status holds.
#[tactic(auto, using(crate::proofs::Bits::completed_between, crate::proofs::Bits::completed_none))]
pub fn completed(days: u32, p: u32, last: u32, status: bool) -> u32
    ensures { result ≡ completed days p last status }
{
    if status {
        days | days_between(p.saturating_sub(1) as usize, last as usize)
    } else {
        days
    }
}

// Whether the set has only days before day p.
#[tactic(auto, using(crate::proofs::Bits::shift_test, crate::proofs::Bits::word_test))]
pub fn only_before(days: u32, p: u32) -> bool
    ensures { result ≡ only_before days p }
{
    let k = p.saturating_sub(1);
    k >= 32 || days >> k == 0
}

// Whether every day of the second set is one of the first.
#[tactic(auto, unfolding(crate::specs::Sets::is_within))]
pub fn is_within(first: u32, second: u32) -> bool
    ensures { result ≡ is_within first second }
{
    (first | second) == first
}
