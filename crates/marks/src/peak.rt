// The peak rule.
ghost use Rattle.std.specs.Prelude.{◌≡◌, ◌*◌, ◌≤◌, min, length, is_ok};
ghost use Rattle.sharing.specs.Shares.{month_fits, Shared};
ghost use Rattle.marks.specs.Peak.{peak_rule, Flags};

use super::days::{count_peaks, is_peak};
use sharing::{Unfit, share_apart};
use units::{Kw, Kwh, energy};

// The peak hours of up to 744 marks as flags, in an array that is lent, since there is no heap, and one that is returned is
// copied. They are written by place: the array is longer than the marks, and what is behind them stays.
#[tactic(auto, using(crate::proofs::Flag::flags_start, crate::proofs::Flag::flags_more))]
fn flag_peaks(marks: &[u8], flags: &mut [bool; 744])
    requires { length marks.now ≤ 744 }
    ensures { Flags marks.now flags.new (length marks.now) }
{
    for (h, mark) in marks.iter().enumerate() {
        flags[h] = is_peak(*mark);
    }
}

// A: what of the volume the peak hours take at the power, of which there are n. It is the least of two numbers, as the contract
// says it; `min` of two volumes would promise it by their order.
pub fn peak_part(volume: Kwh, n: u32, power: Kw) -> Kwh
    ensures { result.0 ≡ min volume.0 (n * power.0) }
{
    let most = energy(n, power);
    Kwh(volume.0.min(most.0))
}

// The volume shared by the peak rule over the hours of the marks, and 0 in the rest of the buffer. Where the numbers do
// not fit the buffer is as it was.
#[tactic(auto, using(sharing::proofs::Rule::month_long))]
pub fn peak_rule(volume: Kwh, power: Kw, marks: &[u8], hours: &mut [u32]) -> Result<(), Unfit>
    ensures { Shared (month_fits volume.0 (length marks.now) (length hours.old))
        (peak_rule volume.0 power.0 marks.now)
        hours.old hours.new (is_ok result) }
{
    let t = marks.len();
    if t > 744 {
        return Err(Unfit);
    }
    let mut flags = [false; 744];
    flag_peaks(marks, &mut flags);
    let part = peak_part(volume, count_peaks(marks), power);
    let rest = Kwh(volume.0 - part.0);
    share_apart(part, rest, &flags[0..t], hours)
}
