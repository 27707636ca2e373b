// The grounds of a closing stated a second time, by what each gives. It is the contract of a function that does nothing, so that it stands among the
// contracts.
#![tactic(auto)]

ghost use Rattle.ground_laws.specs.GroundLaws.{GroundLaws};

pub fn each_ground()
    ensures { GroundLaws }
{}
