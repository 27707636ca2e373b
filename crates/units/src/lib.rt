// Powers and volumes. Each has a type of its own, so that a power in kW never stands where a volume in kWh is due.
#![tactic(auto)]

ghost use Rattle.std.specs.Prelude.{◌≡◌, ◌*◌};

// A power in whole kW.
#[repr(C)]
#[derive(Clone, Copy, PartialEq, Eq, PartialOrd, Ord, Default)]
pub struct Kw(pub u32);

// A volume in whole kWh.
#[repr(C)]
#[derive(Clone, Copy, PartialEq, Eq, PartialOrd, Ord, Default)]
pub struct Kwh(pub u64);

// The greatest volumes: that a meter can read in a month, 744 hours of 1,000,000; that a month can be closed with, 744 hours
// of 3,000,000; and that the running total can have.
pub const GREATEST_VOLUME_READ: u64 = 744000000;

pub const GREATEST_MONTH_VOLUME: u64 = 2232000000;

pub const GREATEST_TOTAL: u64 = 30000000000000;

// The volume that a power gives in some hours: the one place where kW become kWh.
pub fn energy(hours: u32, power: Kw) -> Kwh
    ensures { result.0 ≡ hours * power.0 }
{
    Kwh(u64::from(hours) * u64::from(power.0))
}
