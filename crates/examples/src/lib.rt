// The common table of examples. It is the contract of a function that does nothing, so that it stands among the contracts.
#![tactic(auto)]

ghost use Rattle.examples.specs.Examples.{Examples};

pub fn table()
    ensures { Examples }
{}
