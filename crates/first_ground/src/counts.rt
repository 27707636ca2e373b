// What counts at a closing.
ghost use Rattle.std.specs.Prelude.{◌≡◌};
ghost use Rattle.marks.specs.Marks.{survey_of};
ghost use Rattle.rules.specs.Right.{InputsFit};
ghost use Rattle.first_ground.specs.Metered.{counting};

use contract::Contract;
use marks::Survey;
use units::Kwh;

// A reading of a meter: none, the hours of an interval meter, or the volume of an integral one.
#[derive(Clone, Copy)]
pub enum Metered<'a> {
    Missing,
    Hours(&'a [u32]),
    Volume(Kwh),
}

// What counts at a closing of a month, or of any whole days: the contract, the marks and what they say, R, the billing and the control
// reading, N, and the hours of the past, if there is one. Hours are lent, and no record and no store is asked. Of each value the
// rules' limits hold.
#[derive(Clone, Copy)]
pub struct Counts<'a> {
    pub contract: Contract,
    pub marks: &'a [u8],
    pub survey: Survey,
    pub counted: u32,
    pub billing: Metered<'a>,
    pub control: Metered<'a>,
    pub neighbour: Kwh,
    pub past: Option<&'a [u32]>,
    pub ghost fit: { InputsFit (counting contract marks counted billing control neighbour past) },
    pub ghost surveyed: { survey ≡ survey_of marks.now },
}
