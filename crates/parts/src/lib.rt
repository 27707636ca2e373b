// Parts of a month: the hours of a set of its days, and the others.
#![tactic(auto)]

ghost use Rattle.std.specs.Prelude.{◌≡◌, cond, length};
ghost use Rattle.numbers.specs.Lists.{tab, at};
ghost use Rattle.parts.specs.Sets.{rank, lies_outside};
ghost use Rattle.parts.specs.Parts.{inside_part, joined, sum_outside};

mod fill;
pub mod sets;

use fill::fill_front;
use numbers::word_at;
use sets::lies_inside;

// The part of a list of hours that lies inside a set of days: its entries go to the front of the buffer, in order, with 0 behind
// them. The answer is how many they are; where the buffer has room for fewer, it has the first ones.
pub fn part_words(days: u32, hours: &[u32], part: &mut [u32]) -> usize
    ensures count { result ≡ rank days (length hours.now) }
    ensures entries { part.new ≡ tab (length part.old) (at (inside_part days hours.now)) }
{
    part.fill(0);
    fill_front(days, hours, part)
}

// The same of a list of marks.
pub fn part_marks(days: u32, marks: &[u8], part: &mut [u8]) -> usize
    ensures count { result ≡ rank days (length marks.now) }
    ensures entries { part.new ≡ tab (length part.old) (at (inside_part days marks.now)) }
{
    part.fill(0);
    fill_front(days, marks, part)
}

// A list of hours joined from its parts: the hours inside get the entries of a list, in order, and 0 where it has no more; those
// outside stay.
pub fn join_words(days: u32, part: &[u32], hours: &mut [u32])
    ensures { hours.new ≡ joined days part.now hours.old }
{
    let mut k = 0;
    for (h, hour) in hours.iter_mut().enumerate() {
        if lies_inside(days, h) {
            *hour = word_at(part, k);
            k += 1;
        }
    }
}

// The entry of hour h where it lies outside, else 0, as the sum of the definition has it.
fn outside_at(days: u32, hours: &[u32], h: usize) -> u32
    ensures { result ≡ cond (lies_outside days h) (at hours.now h) 0 }
{
    if lies_inside(days, h) {
        0
    } else {
        word_at(hours, h)
    }
}

// The sum of the entries outside, of a buffer of up to 744 words. It goes over the 744 places of a buffer as the definition does.
pub fn sum_outside(days: u32, hours: &[u32]) -> u64
    ensures { result ≡ sum_outside days hours.now }
{
    let mut sum: u64 = 0;
    for h in 0..744 {
        sum += u64::from(outside_at(days, hours, h));
    }
    sum
}
