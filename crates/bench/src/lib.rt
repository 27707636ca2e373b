// What the benchmark times, exported on plain numbers and slices, and with a flag for a Result, since C has neither the units
// nor the Result. Each function has the contract of the one behind it.
#![tactic(auto)]

ghost use Rattle.std.specs.Prelude.{◌≡◌, ◌&&◌, length};
ghost use Rattle.numbers.specs.Lists.{sum_to, none_above};
ghost use Rattle.sharing.specs.Shares.{within, shares_over, past_at, stretched, chosen_at, month_fits, weights_fit, Shared};
ghost use Rattle.marks.specs.Peak.{peak_rule};

use units::{Kw, Kwh};

#[unsafe(no_mangle)]
pub extern "C" fn bench_share_by_past(
    volume: u64,
    past: &[u32],
    chosen: &[bool],
    hours: &mut [u32],
) -> bool
    ensures { Shared
        (month_fits volume (length chosen.now) (length hours.old)
        && weights_fit (sum_to (within (chosen_at chosen.now) (past_at past.now)) (length chosen.now)))
        (shares_over volume (chosen_at chosen.now) (stretched past.now (length chosen.now)))
        hours.old hours.new result }
{
    sharing::share_by_past(Kwh(volume), past, chosen, hours).is_ok()
}

#[unsafe(no_mangle)]
pub extern "C" fn bench_peak_rule(volume: u64, power: u32, marks: &[u8], hours: &mut [u32]) -> bool
    ensures { Shared (month_fits volume (length marks.now) (length hours.old))
        (peak_rule volume power marks.now)
        hours.old hours.new result }
{
    marks::peak::peak_rule(Kwh(volume), Kw(power), marks, hours).is_ok()
}

#[unsafe(no_mangle)]
pub extern "C" fn bench_none_above(words: &[u32], limit: u32) -> bool
    ensures { result ≡ none_above limit words.now }
{
    numbers::none_above(words, limit)
}
