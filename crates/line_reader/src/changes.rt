// One thing changed in a line. The line is lent and not given from function to function, so that no token copies it.
ghost use Rattle.std.specs.Prelude.{◌≡◌};
ghost use Rattle.line_reader.specs.Changes.{with_mode, with_error, with_call, with_value, with_numbers};

use super::calls::Call;
use super::errors::{Error, Fault};
use super::names::Argument;
use super::{Line, Mode, Numbers};

impl Line {
    pub(crate) fn set_mode(&mut self, mode: Mode)
        ensures { self.new ≡ with_mode mode self.old }
    {
        self.mode = mode;
    }

    // An error at the place of a token.
    pub(crate) fn fail(&mut self, error: Error, place: usize)
        ensures { self.new ≡ with_error error place self.old }
    {
        let fault = Fault { error, place };
        self.set_mode(Mode::Failed(fault));
    }

    // The call is known.
    pub(crate) fn set_call(&mut self, call: Call)
        ensures { self.new ≡ with_call call self.old }
    {
        self.call = Some(call);
    }

    // The value of an argument is known.
    pub(crate) fn set_value(&mut self, key: Argument, value: u64)
        ensures { self.new ≡ with_value key value self.old }
    {
        self.values[key.index()] = Some(value);
    }

    // The list, and what is expected behind it.
    pub(crate) fn set_numbers(&mut self, mode: Mode, numbers: Numbers)
        ensures { self.new ≡ with_numbers mode numbers self.old }
    {
        self.mode = mode;
        self.numbers = numbers;
    }
}
