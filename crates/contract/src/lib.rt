// The contract of a point: its meters, and the basis of its power with what that basis uses.
#![tactic(auto)]

ghost use Rattle.std.specs.Prelude.{◌≡◌};
ghost use Rattle.contract.specs.Contract.{meters_fit, integral_on_big_load, is_agreed, keeping};

use power::Cable;
use units::Kw;

// What the meters are and where the power comes from, in numbers as C gives them, so that 11 and 12 can refuse any.
// The billing meter is 1 interval or 2 integral; the control meter
// 0 none, 1 interval or 2 integral; the basis 1 an agreed power, 2 a share of an agreed power, 3 a cable.
#[repr(C)]
#[derive(Clone, Copy, PartialEq, Eq, Default)]
pub struct Contract {
    pub billing: u32,
    pub control: u32,
    pub basis: u32,
    pub power: Kw,
    pub cable: Cable,
}

// Whether both meters are of a kind that there is.
pub fn meters_fit(c: Contract) -> bool
    ensures { result ≡ meters_fit c }
{
    matches!(c.billing, 1 | 2) & (c.control <= 2)
}

// Whether a billing meter is an integral one on a point with a power P of 670 kW or more.
pub fn integral_on_big_load(billing: u32, p: Kw) -> bool
    ensures { result ≡ integral_on_big_load billing p.0 }
{
    (billing == 2) & (p.0 >= 670)
}

// Whether a basis has an agreed power: 1 and 2. It is asked of any number, before the basis is judged.
pub fn is_agreed(basis: u32) -> bool
    ensures { result ≡ is_agreed basis }
{
    matches!(basis, 1 | 2)
}

// The contract that a point keeps: what was asked for, with the power P on basis 1 or 2 and the cable as given on basis
// 3. What the basis does not use is 0.
pub fn keep(asked: Contract, p: Kw) -> Contract
    ensures { result ≡ keeping asked p }
{
    if asked.basis == 3 {
        return Contract {
            power: Kw(0),
            ..asked
        };
    }
    Contract {
        power: p,
        cable: Cable::default(),
        ..asked
    }
}
