// The loop that writes the entries of the hours inside to the front of a buffer.
ghost use Rattle.std.specs.Prelude.{◌≡◌, length, get_or, set, replicate};
ghost use Rattle.parts.specs.Sets.{lies_inside, rank};
ghost use Rattle.parts.specs.Parts.{selected, Front};

use super::sets::lies_inside;

// Entry k becomes x, where there is one.
fn write_entry<T: Copy>(front: &mut [T], k: usize, x: T)
    ensures { front.new ≡ set front.old k x }
{
    if k < front.len() {
        front[k] = x;
    }
}

// The entries of the hours inside go to the front of a buffer, in order. The contract speaks of a buffer in which one value stands
// throughout, and has that value behind them: the callers clear the buffer before, since a type parameter has no 0.
pub(crate) fn fill_front<T: Copy>(days: u32, entries: &[T], front: &mut [T]) -> usize
    ensures count { result ≡ rank days (length entries.now) }
    ensures front { (x : T) → front.old ≡ replicate (length front.old) x
        → Front x (selected (lies_inside days) (λ h. get_or entries.now h x) (length entries.now)) front.old front.new }
{
    let mut k = 0;
    for (h, x) in entries.iter().enumerate() {
        if lies_inside(days, h) {
            write_entry(front, k, *x);
            k += 1;
        }
    }
    k
}
