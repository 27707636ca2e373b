// The calls (docs/HISTORY-FILE.md, 'Calls').
ghost use Rattle.std.specs.Prelude.{◌≡◌};
ghost use Rattle.line_reader.specs.Codes.{call_number};

// A call, in the order of the numbers that the answers for programs have. Behind `billing` and `control` the call is that of
// the hours until `volume` is read.
#[derive(Clone, Copy, Debug, PartialEq, Eq)]
pub enum Call {
    Open = 1,
    BillingHours,
    BillingVolume,
    ControlHours,
    ControlVolume,
    Neighbour,
    Failure,
    Admission,
    Denial,
    Permission,
    Close,
}

impl Call {
    // Its number in the answers for programs, whose records are numbers alone.
    #[tactic(auto, unfolding(crate::specs::Codes::call_number))]
    pub fn number(self) -> u32
        ensures { result ≡ call_number self }
    {
        self as u32
    }
}
