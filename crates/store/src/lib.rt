// The rows of the store (document 01, 'What a point keeps'): 14 rows of 744 words. A row is lent as a part of the store,
// so that no other word can change.
#![tactic(auto)]

ghost use Rattle.std.specs.Prelude.{◌≡◌, cond, ◌&&◌, [], ◌≤◌, eqb, length};
ghost use Rattle.numbers.specs.Lists.{at, padded, Filled};
ghost use Rattle.store.specs.Store.{row_part, row_fits, written_in, empty_store, store_fits};

use numbers::{clear, none_above};

// Whether the store has the first t hours of a row.
#[tactic(auto, unfolding(crate::specs::Store::row_fits))]
pub fn row_fits(size: usize, row: usize, t: usize) -> bool
    ensures { result ≡ row_fits size row t }
{
    (size == 10416) & (row <= 13) & (t <= 744)
}

// The words of a list into the front of a row, one by one: for std's `copy_from_slice` the library for C would ask its host for
// `memmove` beside `memcpy` and `memset`.
#[tactic(auto, using(numbers::proofs::Laws::filled_none, numbers::proofs::Laws::filled_more, numbers::proofs::Laws::filled_end))]
fn copy_words(row: &mut [u32], hours: &[u32])
    requires { length hours.now ≤ length row.old }
    ensures { Filled (at hours.now) row.old row.new (length hours.now) }
{
    for (h, hour) in hours.iter().enumerate() {
        row[h] = *hour;
    }
}

// A list of hours into a row, or into the hour buffer, which is as long as a row, and 0 from its end on.
#[tactic(auto, using(crate::proofs::Laws::copied_words))]
pub fn copy_row(row: &mut [u32], hours: &[u32])
    requires { length hours.now ≤ length row.old }
    ensures { row.new ≡ padded (length row.old) hours.now }
{
    clear(row);
    copy_words(row, hours);
}

// The hours of a list become row r, with 0 from their end on. A store that is not 14 rows, a row that it does not have,
// and more hours than a row holds leave the store as it was.
#[tactic(auto, using(crate::proofs::Laws::row_fits_lem, crate::proofs::Laws::written_part), unfolding(crate::specs::Store::written_in))]
pub fn write_row(store: &mut [u32], row: usize, hours: &[u32])
    ensures { store.new ≡ written_in row hours.now store.old }
{
    if row_fits(store.len(), row, hours.len()) {
        let start = 744 * row;
        let end = start + 744;
        copy_row(&mut store[start..end], hours);
    }
}

// The first t hours of a row, as a part of the store; none where the store has no such part.
#[tactic(auto, using(crate::proofs::Laws::row_fits_lem))]
pub fn row_hours(store: &[u32], row: usize, t: usize) -> &[u32]
    ensures { result.now ≡ cond (row_fits (length store.now) row t) (row_part store.now row t) [] }
{
    if !row_fits(store.len(), row, t) {
        return &[];
    }
    let start = 744 * row;
    let end = start + t;
    &store[start..end]
}

// Row r becomes 0, and the rest stays.
pub fn clear_row(store: &mut [u32], row: usize)
    ensures { store.new ≡ written_in row [] store.old }
{
    write_row(store, row, &[]);
}

// Every word becomes 0, as an opening leaves the store; a store that is not 14 rows stays as it was.
#[tactic(auto, using(crate::proofs::Laws::cleared))]
pub fn clear_store(store: &mut [u32])
    ensures { store.new ≡ cond (eqb (length store.old) 10416) empty_store store.old }
{
    if store.len() == 10416 {
        clear(store);
    }
}

// Whether the store is 14 rows, with no word above 3,000,000 in rows 0 to 11 and none above 1,000,000 in rows 12 and 13.
pub fn store_fits(store: &[u32]) -> bool
    ensures { result ≡ (eqb (length store.now) 10416 && store_fits store.now) }
{
    if store.len() != 10416 {
        return false;
    }
    none_above(&store[0..8928], 3000000) & none_above(&store[8928..10416], 1000000)
}
