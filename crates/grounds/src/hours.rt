// How hours are found: as read, as the past's, by the past's weights, by the peak rule, evenly. Each function puts the
// hours into the buffer, with 0 from their end on.
ghost use Rattle.std.specs.Prelude.{◌≡◌, true, ◌≤◌, length};
ghost use Rattle.numbers.specs.Lists.{sum, none_above, Filled};
ghost use Rattle.units.specs.Volumes.{greatest_volume_read};
ghost use Rattle.sharing.specs.Shares.{ones, shares, past_at, stretched};
ghost use Rattle.marks.specs.Peak.{peak_rule};
ghost use Rattle.rules.specs.Grounds.{ground_number};
ghost use Rattle.grounds.specs.Found.{HoursFound};

use super::Found;
use marks::peak::peak_rule;
use numbers::{clear, sum_first};
use rules::Ground;
use sharing::weights::past_at;
use sharing::{share_by_past, share_evenly};
use store::copy_row;
use units::{Kw, Kwh};

// The hours as a meter read them; the volume is their sum. Grounds 1 and 3.
pub fn as_read(ground: Ground, read: &[u32], hours: &mut [u32]) -> Found
    requires { (length read.now ≤ 744) × (length hours.old ≡ 744) }
    ensures { HoursFound (ground_number ground) (sum read.now) read.now result hours.new }
{
    copy_row(hours, read);
    let volume = Kwh(sum_first(hours, read.len()));
    Found { ground, volume }
}

// Hours 0 to t - 1 of the past, its hour h - 168 where it lacks hour h, into the front of a buffer. It goes by the number of the
// hour, which says which hour of the past is due.
#[tactic(auto, using(numbers::proofs::Laws::filled_none, numbers::proofs::Laws::filled_end))]
fn copy_past(past: &[u32], t: usize, hours: &mut [u32])
    requires { t ≤ length hours.old }
    ensures { Filled (past_at past.now) hours.old hours.new t }
{
    for h in 0..t {
        hours[h] = past_at(past, h);
    }
}

// The hours of the past for t hours; the volume is their sum. Ground 7.
pub fn as_past(ground: Ground, past: &[u32], t: usize, hours: &mut [u32]) -> Found
    requires { (t ≤ 744) × (length hours.old ≡ 744) }
    ensures { HoursFound (ground_number ground) (sum (stretched past.now t)) (stretched past.now t) result hours.new }
{
    clear(hours);
    copy_past(past, t, hours);
    let volume = Kwh(sum_first(hours, t));
    Found { ground, volume }
}

// A volume shared by the past over t hours. Grounds 4 and 6.
pub fn by_past(ground: Ground, volume: Kwh, past: &[u32], t: usize, hours: &mut [u32]) -> Found
    requires fits { (volume.0 ≤ greatest_volume_read) × (none_above 3000000 past.now ≡ true) }
    requires room { (1 ≤ t) × (t ≤ 744) × (length hours.old ≡ 744) }
    ensures { HoursFound (ground_number ground) volume.0 (shares volume.0 (stretched past.now t)) result hours.new }
{
    let every = [true; 744];
    share_by_past(volume, past, &every[..t], hours).unwrap();
    Found { ground, volume }
}

// A volume by the peak rule. Grounds 2 and 5.
pub fn by_peaks(ground: Ground, volume: Kwh, power: Kw, marks: &[u8], hours: &mut [u32]) -> Found
    requires { (volume.0 ≤ greatest_volume_read) × (1 ≤ length marks.now) × (length marks.now ≤ 744) × (length hours.old ≡ 744) }
    ensures { HoursFound (ground_number ground) volume.0 (peak_rule volume.0 power.0 marks.now) result hours.new }
{
    peak_rule(volume, power, marks, hours).unwrap();
    Found { ground, volume }
}

// A volume evenly over t hours. Grounds 8 and 9.
pub(crate) fn evenly(ground: Ground, volume: Kwh, t: usize, hours: &mut [u32]) -> Found
    requires { (volume.0 ≤ greatest_volume_read) × (1 ≤ t) × (t ≤ 744) × (length hours.old ≡ 744) }
    ensures { HoursFound (ground_number ground) volume.0 (shares volume.0 (ones t)) result hours.new }
{
    let every = [true; 744];
    share_evenly(volume, &every[..t], hours).unwrap();
    Found { ground, volume }
}
