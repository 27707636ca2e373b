// The words of months, calls, grounds, clauses, refusals and errors. A number that stands for nothing has none.
use line_reader::{Call, Error};
use rules::Clause;

// The name of a month, which is a number, as in `Date`, which crosses C.
pub(crate) fn month_name(month: u32) -> &'static str {
    match month {
        1 => "January",
        2 => "February",
        3 => "March",
        4 => "April",
        5 => "May",
        6 => "June",
        7 => "July",
        8 => "August",
        9 => "September",
        10 => "October",
        11 => "November",
        12 => "December",
        _ => "",
    }
}

// The words of a call.
pub(crate) fn call_words(call: Call) -> &'static str {
    match call {
        Call::Open => "open",
        Call::BillingHours => "billing hours",
        Call::BillingVolume => "billing volume",
        Call::ControlHours => "control hours",
        Call::ControlVolume => "control volume",
        Call::Neighbour => "neighbour",
        Call::Failure => "failure",
        Call::Admission => "admission",
        Call::Denial => "denial",
        Call::Permission => "permission",
        Call::Close => "close",
    }
}

// A ground of document 01's table, which is a number, as in `Figures`, which crosses C.
pub(crate) fn ground_words(ground: u32) -> &'static str {
    match ground {
        1 => "the billing meter's hours",
        2 => "the billing meter's volume, by the peak rule",
        3 => "the control meter's hours",
        4 => "the control meter's volume, by the past",
        5 => "the control meter's volume, by the peak rule",
        6 =>
            "the control meter's volume, by the past: more on a capacity hour than by the peak rule on a peak hour",
        7 => "the hours of the past",
        8 => "the power, in every hour",
        9 => "the cable formula, evenly",
        _ => "",
    }
}

// The clause under which a volume was found.
pub(crate) fn clause_words(clause: Option<Clause>) -> &'static str {
    match clause {
        Some(Clause::Missed) => "point 166: the month has no billing reading",
        Some(Clause::DeniedTwice) =>
            "point 178: access to the meter was denied twice, as from the third month without a billing reading",
        Some(Clause::OutOfService) =>
            "point 179: the meter is out of service, as a month without a billing reading",
        None => "none: the billing meter was read",
    }
}

// The sentence of a refusal, which is a number, as in `Answer`, which crosses C.
pub(crate) fn refusal_words(refusal: u32) -> &'static str {
    match refusal {
        1 => "the store has not 10,416 words",
        2 => "the record is not open, or a field, a month or a reading in it is outside its limits",
        3 => "the calendar is over",
        10 => "the opening month is not in January 2014 to December 2999",
        11 => "the billing meter is not of kind 1 or 2, or the control meter not of kind 0 to 2",
        12 => "the basis is not 1 to 3, or on basis 1 or 2 the power is not 1 to 1,000,000",
        13 => "a value of the cable is outside its limits",
        14 =>
            "the list of currents is empty, too long or holds a wrong current, or lacks the place",
        15 => "an integral billing meter is not accepted where P is 670 kW or more",
        20 => "the point has no meter for such a reading, or the neighbour's source is not 1 or 2",
        21 => "the point is out of service, or access was denied twice",
        22 => "the reading is already given this month",
        23 => "the reading has not as many hours as the month",
        24 => "an hour is above 1,000,000, or a volume above that for each hour of the month",
        30 => "the point is out of service already",
        31 => "the reason of the failure is not 1 to 4",
        32 => "the point is in service already",
        33 => "access was denied twice already",
        34 => "there is no denial",
        40 => "there are not as many marks as the month has hours",
        41 => "a mark is above 3",
        42 => "a day has over 16 peak hours",
        43 => "a day has two or more capacity hours",
        44 => "the hour buffer has not 744 words",
        45 => "a word of the store is above the limit of its row",
        46 => "a day has peak hours without a capacity hour",
        _ => "",
    }
}

// The sentence of an error.
pub(crate) fn error_words(error: Error) -> &'static str {
    match error {
        Error::LongLine => "the line is longer than 16,384 bytes",
        Error::Foreign => "a byte that is no text",
        Error::Call =>
            "a call was expected: open, billing, control, neighbour, failure, admission, denial, permission or close",
        Error::Number => "a number was expected",
        Error::Dash => "- was expected between year and month",
        Error::Argument =>
            "an argument was expected: billing, control, basis, power, place, currents, amperes, volts, cosine or phases",
        Error::Twice => "this argument was given already",
        Error::Meter => "a meter was expected: none, interval, integral or a number",
        Error::Basis => "a basis was expected: agreed, shared, cable or a number",
        Error::Form => "hours or volume was expected",
        Error::Source => "a source was expected: billing, control or a number",
        Error::Reason => "a reason was expected: fault, loss, verification, removal or a number",
        Error::Large => "the number is too large",
        Error::Part => "a part of the list was expected",
        Error::Day => "( was expected",
        Error::Item => "a number, a count or ) was expected",
        Error::DayLength => "a day has 24 numbers",
        Error::ListLength => "a list has at most 4,096 numbers",
        Error::Counted => "a number was expected behind the count, or ( outside parentheses",
        Error::Last => "the end of the line was expected",
    }
}

// The same by its number, as in the records for programs; a number that no error has has no sentence.
pub(crate) fn words_of_error(number: u32) -> &'static str {
    match Error::try_from(number) {
        Ok(error) => error_words(error),
        Err(_) => "",
    }
}
