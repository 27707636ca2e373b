// From a line of a history file to the call that it makes on a point.
#![tactic(auto)]

ghost use Rattle.std.specs.Prelude.{◌≡◌, length};
ghost use Rattle.rules.specs.Calls.Call.{closing};
ghost use Rattle.model.specs.Model.{state, Does};
ghost use Rattle.model.specs.Opening.{Opens};
ghost use Rattle.line_calls.specs.Calls.{argument_of, field_of, cable_by, asked_by, date_by, opening_by, Copied, marks_in, marks_from, Makes};

pub mod week;

use calendar::Date;
use closing::close;
use contract::Contract;
use events::{admit, deny, fail, permit};
use line_reader::{Argument, Call, Line};
use model::Answer;
use opening::open_point;
use power::Cable;
use readings::{
    read_billing_hours, read_billing_volume, read_control_hours, read_control_volume,
    read_neighbour,
};
use record::Record;
use units::{Kw, Kwh};

// The value of an argument. One that is left out counts as 0, as a history file has it, and is no None, since 0 is what an
// opening judges by numbers 11 to 14.
#[tactic(auto, unfolding(crate::specs::Calls::argument_of))]
fn argument(line: Line, key: Argument) -> u64
    ensures { result ≡ argument_of key line }
{
    line.value_of(key).unwrap_or(0)
}

// The same in 32 bits, which a line keeps it to. It fits, as the contract shows; `try_from` would bring a case that there is not.
#[tactic(auto, unfolding(crate::specs::Calls::field_of))]
fn field(line: Line, key: Argument) -> u32
    ensures { result ≡ field_of key line }
{
    (argument(line, key) % 4294967296) as u32
}

// The cable of an opening.
#[tactic(auto, unfolding(crate::specs::Calls::cable_by))]
fn cable_by(line: Line) -> Cable
    ensures { result ≡ cable_by line }
{
    Cable {
        amperes: field(line, Argument::Amperes),
        volts: field(line, Argument::Volts),
        cosine: field(line, Argument::Cosine),
        phases: field(line, Argument::Phases),
    }
}

// The contract of an opening.
#[tactic(auto, unfolding(crate::specs::Calls::asked_by))]
fn contract_by(line: Line) -> Contract
    ensures { result ≡ asked_by line }
{
    Contract {
        billing: field(line, Argument::Billing),
        control: field(line, Argument::Control),
        basis: field(line, Argument::Basis),
        power: Kw(field(line, Argument::Power)),
        cable: cable_by(line),
    }
}

// The month of an opening.
#[tactic(auto, unfolding(crate::specs::Calls::date_by))]
fn date_by(line: Line) -> Date
    ensures { result ≡ date_by line }
{
    Date {
        year: field(line, Argument::Year),
        month: field(line, Argument::Month),
    }
}

// Opens a point as a line says; the list is that of the currents. Here and below a list stands beside its line, in memory
// of the caller's of a fixed size, since there is no heap.
#[tactic(auto, unfolding(crate::specs::Calls::opening_by))]
pub fn open_by(line: Line, list: &[u32], store: &mut [u32]) -> Answer
    ensures { Opens (opening_by line list.now) store.old result store.new }
{
    let asked = contract_by(line);
    let date = date_by(line);
    let place = argument(line, Argument::Place) as usize;
    open_point(asked, date, list, place, store)
}

// The numbers of a list as marks, one byte each, as many as there is room for; the answer is how many, and behind them the room
// stays as it was. A line keeps marks to a byte, so the cast is of a number that fits. The room goes by its index, since a loop
// over a `zip` of both has no contract.
pub fn copy_marks(list: &[u32], marks: &mut [u8]) -> usize
    ensures { Copied list.now marks.old marks.new result }
{
    let n = list.len().min(marks.len());
    for (k, number) in list[..n].iter().enumerate() {
        marks[k] = (*number % 256) as u8;
    }
    n
}

// The marks of a list, written into room that is lent for them. What the room has behind them is a promise of `copy_marks`,
// since no clause can speak of the rest of a room of which a part is lent on.
#[tactic(auto, using(crate::proofs::Marks::marks_made))]
pub fn lend_marks<'a>(list: &[u32], room: &'a mut [u8]) -> &'a [u8]
    ensures { result.now ≡ marks_in (length room.old) list.now }
{
    let n = copy_marks(list, room);
    &room[..n]
}

// Closes the month with the marks of a list.
#[tactic(auto, unfolding(crate::specs::Calls::marks_from))]
fn close_by(list: &[u32], r: Record, store: &mut [u32], hours: &mut [u32]) -> Answer
    ensures { Does (state r store.old) (closing (marks_from list.now) hours.old) result store.new hours.new }
{
    let mut marks = [0; 4096];
    close(r, store, lend_marks(list, &mut marks), hours)
}

// Makes the call of a line that is no opening, on a point. The list is that of the line. The calls are a closed set, and the
// match names the function of each, which a table of functions would have no contract for.
#[tactic(auto, unfolding(crate::specs::Calls::call_by, crate::specs::Calls::call_as, rules::specs::Calls::is_closing))]
pub fn make_call(
    line: Line,
    list: &[u32],
    r: Record,
    store: &mut [u32],
    hours: &mut [u32],
) -> Answer
    ensures { Makes line list.now r store.old hours.old result store.new hours.new }
{
    let volume = Kwh(argument(line, Argument::Volume));
    match line.call {
        Some(Call::BillingHours) => read_billing_hours(r, store, list),
        Some(Call::BillingVolume) => read_billing_volume(r, store, volume),
        Some(Call::ControlHours) => read_control_hours(r, store, list),
        Some(Call::ControlVolume) => read_control_volume(r, store, volume),
        Some(Call::Neighbour) => read_neighbour(r, store, field(line, Argument::Source), volume),
        Some(Call::Failure) => fail(r, store, field(line, Argument::Reason)),
        Some(Call::Admission) => admit(r, store),
        Some(Call::Denial) => deny(r, store),
        Some(Call::Permission) => permit(r, store),
        _ => close_by(list, r, store, hours),
    }
}
