// The nine grounds of a closing (document 01, 'Closing'), by how their hours are found. Each function takes what it needs, the hours
// that were read or the past's, the marks and T, and puts its hours into the buffer; so it works on a month or on any of its days.
// Which of them a month is closed on is decided where it is closed. The buffer stands beside the rest in the contracts: a struct would
// hold the buffer that the caller reads behind the call, and would be taken apart there. So their limits are clauses, and that of a
// volume too: a `Kwh` is also a month's volume and a total, which are greater.
#![tactic(auto)]

ghost use Rattle.std.specs.Prelude.{◌≡◌, true, ◌*◌, ◌≤◌, length};
ghost use Rattle.sharing.specs.Shares.{ones, shares};
ghost use Rattle.power.specs.Power.{formula, cable_fits};
ghost use Rattle.grounds.specs.Found.{HoursFound};

pub mod hours;

use hours::evenly;
use power::Cable;
use rules::Ground;
use units::{Kw, Kwh, energy};

// The ground that a month is closed on, and its volume.
#[derive(Clone, Copy)]
pub struct Found {
    pub ground: Ground,
    pub volume: Kwh,
}

// Ground 8: basis 1 or 2. P × T evenly. It and ground 9 differ in how the volume is found; what they share is `evenly`.
pub fn ground_eight(power: Kw, t: u32, hours: &mut [u32]) -> Found
    requires { (power.0 ≤ 1000000) × (1 ≤ t) × (t ≤ 744) × (length hours.old ≡ 744) }
    ensures { HoursFound 8 (t * power.0) (shares (t * power.0) (ones t)) result hours.new }
{
    evenly(Ground::Power, energy(t, power), t as usize, hours)
}

// Ground 9: basis 3. The formula at T evenly.
pub fn ground_nine(cable: Cable, t: u32, hours: &mut [u32]) -> Found
    requires { (cable_fits cable ≡ true) × (1 ≤ t) × (t ≤ 744) × (length hours.old ≡ 744) }
    ensures { HoursFound 9 (formula cable t) (shares (formula cable t) (ones t)) result hours.new }
{
    evenly(Ground::Cable, cable.volume(t), t as usize, hours)
}
