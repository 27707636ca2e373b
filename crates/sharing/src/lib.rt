// Sharing a volume over the hours of a month (document 01, 'Sharing a volume').
// A selection of hours is a slice of flags, one an hour, so its length is the number of hours.
#![tactic(auto)]

ghost use Rattle.std.specs.Prelude.{◌≡◌, ◌&&◌, ◌+◌, length, is_ok};
ghost use Rattle.numbers.specs.Lists.{sum_to};
ghost use Rattle.sharing.specs.Shares.{ones, within, shares_over, shares_apart, past_at, stretched, chosen_at, month_fits, weights_fit, Shared, share_in};

mod fill;
mod place;
mod progress;
pub mod weights;

use fill::{fill, fill_apart};
use numbers::sum_first;
use place::at_place;
use std::error::Error;
use std::fmt;
use units::{GREATEST_MONTH_VOLUME, GREATEST_VOLUME_READ, Kw, Kwh};
use weights::Weights;

/// Numbers outside the limits of a sharing.
#[derive(Clone, Copy, Debug, PartialEq, Eq)]
pub struct Unfit;

impl fmt::Display for Unfit {
    fn fmt<W: fmt::Write>(&self, f: &mut fmt::Formatter<W>) -> fmt::Result {
        f.write_str("the volume, the hours or the weights are outside the limits of a sharing")
    }
}

impl Error for Unfit {}

// Whether a volume, a number of hours and a buffer's length are within the limits.
#[tactic(auto, unfolding(crate::specs::Shares::month_fits))]
fn month_fits(v: u64, t: usize, room: usize) -> bool
    ensures { result ≡ month_fits v t room }
{
    (v <= GREATEST_VOLUME_READ) & (1..=744).contains(&t) & (t <= room)
}

// The volume shared by the past over the chosen hours, 0 in the others and in the rest of the buffer. Where the numbers
// do not fit the buffer is as it was.
#[tactic(auto, using(crate::proofs::Rule::month_fits_lem), unfolding(crate::specs::Shares::weights_fit))]
pub fn share_by_past(
    volume: Kwh,
    past: &[u32],
    chosen: &[bool],
    hours: &mut [u32],
) -> Result<(), Unfit>
    ensures { Shared
        (month_fits volume.0 (length chosen.now) (length hours.old)
        && weights_fit (sum_to (within (chosen_at chosen.now) (past_at past.now)) (length chosen.now)))
        (shares_over volume.0 (chosen_at chosen.now) (stretched past.now (length chosen.now)))
        hours.old hours.new (is_ok result) }
{
    if !month_fits(volume.0, chosen.len(), hours.len()) {
        return Err(Unfit);
    }
    let weights = Weights::new(past, chosen);
    if weights.sum > GREATEST_MONTH_VOLUME {
        return Err(Unfit);
    }
    fill(volume.0, &weights, hours);
    Ok(())
}

// The volume shared evenly over the chosen hours, which is by no past, and 0 in the others and in the rest of the buffer.
// Where the numbers do not fit the buffer is as it was.
#[tactic(auto, using(crate::proofs::Rule::month_fits_lem, crate::proofs::Turns::shares_none))]
pub fn share_evenly(volume: Kwh, chosen: &[bool], hours: &mut [u32]) -> Result<(), Unfit>
    ensures { Shared (month_fits volume.0 (length chosen.now) (length hours.old))
        (shares_over volume.0 (chosen_at chosen.now) (ones (length chosen.now)))
        hours.old hours.new (is_ok result) }
{
    if !month_fits(volume.0, chosen.len(), hours.len()) {
        return Err(Unfit);
    }
    fill(volume.0, &Weights::even(chosen), hours);
    Ok(())
}

// The first volume shared evenly over the chosen hours and the second evenly over the others, and 0 in the rest of the
// buffer. Where the numbers do not fit the buffer is as it was.
#[tactic(auto, using(crate::proofs::Rule::month_fits_lem))]
pub fn share_apart(first: Kwh, second: Kwh, chosen: &[bool], hours: &mut [u32]) -> Result<(), Unfit>
    ensures { Shared (month_fits (first.0 + second.0) (length chosen.now) (length hours.old))
        (shares_apart first.0 second.0 (chosen_at chosen.now) (length chosen.now))
        hours.old hours.new (is_ok result) }
{
    let both = first.0.saturating_add(second.0);
    if !month_fits(both, chosen.len(), hours.len()) {
        return Err(Unfit);
    }
    fill_apart(first.0, second.0, chosen, hours);
    Ok(())
}

// What one place of a list gets of a number shared by weights, and 0 outside the list or where the numbers do not fit: a share
// is a number in the definition, and P on basis 2 is 0 there.
#[tactic(auto, using(crate::proofs::Rule::month_fits_lem, crate::proofs::Rule::shares_outside), unfolding(crate::proofs::Rule::share_definitions))]
fn share_at(v: u64, weights: &[u32], place: usize) -> u64
    ensures { result ≡ share_in v weights.now place }
{
    let n = weights.len();
    if !month_fits(v, n, n) {
        return 0;
    }
    let sum = sum_first(weights, n);
    if sum <= GREATEST_MONTH_VOLUME && place < n {
        at_place(v, sum, weights, place)
    } else {
        0
    }
}

// What one place of a list gets of a power shared by weights, and 0 outside the list or where the numbers do not fit, as
// `share_at` has it. No share is above the power, so the cast is of a number that fits.
pub fn share_power(power: Kw, weights: &[u32], place: usize) -> Kw
    ensures { result.0 ≡ share_in power.0 weights.now place }
{
    Kw(share_at(u64::from(power.0), weights, place) as u32)
}
