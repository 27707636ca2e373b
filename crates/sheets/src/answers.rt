// What is written of a call, of an error, of a closed month and of all files.
ghost use Rattle.std.specs.Prelude.{◌≡◌, ◌++◌, Some, OnOk, codes, decimal};
ghost use Rattle.text.specs.Text.{PutWhole};

use super::months::{Month, Sheet};
use super::wording::{call_words, month_name, refusal_words, words_of_error};
use calendar::Date;
use line_reader::Call;
use std::fmt;
use text::Buffer;

// Whom answers are for: people, who get sentences and sheets, or programs, which get records: a word, then numbers in base
// ten, each behind a tab. A match in each function has both texts of an answer side by side, which two implementors of a
// trait would part.
#[derive(Clone, Copy, Default)]
pub enum Form {
    #[default]
    People,
    Programs,
}

// How answers are written: in which form, and whether the hours of each closed month are among them.
#[derive(Clone, Copy, Default)]
pub struct Layout {
    pub form: Form,
    pub hours: bool,
}

// How many calls were accepted and how many refused, and how many lines were errors.
#[derive(Clone, Copy, Default)]
pub struct Counts {
    pub accepted: u64,
    pub refused: u64,
    pub errors: u64,
}

// Answers, with room for N bytes, and how they are written. What is put and printed stands behind what was written, as `Buffer`
// promises; which words an answer has is proved of `print_accepted` alone, as an example. What `print` answers is not asked, since
// no value here fails. That the layout stays is what a caller may rely on, so each function promises it.
#[derive(Drop)]
pub struct Answers<const N: usize> {
    pub layout: Layout,
    pub text: Buffer<N>,
}

impl<const N: usize> Answers<N> {
    // A call of a line and its answer, whose refusal is a number, as in `Answer`, which crosses C. A refused closing may have a day
    // whose marks are wrong, 0 for none, of the month that is open.
    pub fn put_call(&mut self, line: u64, call: Call, refusal: u32, wrong_day: u64, open: Date)
        ensures { self.new.layout ≡ self.old.layout }
    {
        let words = call_words(call);
        let why = refusal_words(refusal);
        match self.layout.form {
            Form::Programs => self.put_record(
                b"call",
                line,
                &[u64::from(call.number()), u64::from(refusal), wrong_day],
            ),
            Form::People if refusal == 0 => {
                let _ = self.print_accepted(line, words);
            }
            Form::People if wrong_day == 0 => {
                let _ = self.text.print(format_args!(
                    "line {line}: {words}: refused {refusal}, {why}\n"
                ));
            }
            Form::People => {
                let Date { year, month } = open;
                let name = month_name(month);
                let _ = self.text.print(format_args!(
                    "line {line}: {words}: refused {refusal}, {why}: day {wrong_day}, {wrong_day} {name} {year}\n"
                ));
            }
        }
    }

    // The sentence of a call that is accepted. Its clause spells the words out, as an example of what `print` promises of a format.
    fn print_accepted(&mut self, line: u64, words: &str) -> fmt::Result
        ensures layout { self.new.layout ≡ self.old.layout }
        ensures sentence { OnOk result (PutWhole N
            (Some (codes "line " ++ (decimal line ++ (codes ": " ++ (words.now ++ codes ": accepted\n")))))
            self.old.text self.new.text) }
    {
        self.text
            .print(format_args!("line {line}: {words}: accepted\n"))
    }

    // A line that is no call, with the column of its error and what was expected there. The error is any number, as in the records
    // for programs: one that stands for nothing, as the 0 of a file that cannot be read, has no words.
    pub fn put_bad_line(&mut self, line: u64, column: u64, error: u32)
        ensures { self.new.layout ≡ self.old.layout }
    {
        let words = words_of_error(error);
        match self.layout.form {
            Form::Programs => self.put_record(b"error", line, &[column, u64::from(error)]),
            Form::People => {
                let _ = self.text.print(format_args!(
                    "line {line}: error at column {column}, {words}\n"
                ));
            }
        }
    }

    // A month that was closed: for people its sheet, for programs its record, with the T hours of the buffer where they are
    // asked for. The buffer has 744 words, as a closing fills it in fixed memory; the month has the first T of them.
    pub fn put_month(&mut self, month: Month, hours: &[u32])
        ensures { self.new.layout ≡ self.old.layout }
    {
        let table = self.layout.hours;
        let hours = &hours[..hours.len().min(month.hours as usize)];
        match self.layout.form {
            Form::Programs => {
                self.put_record(b"sheet", month.line, &month.fields());
                if table {
                    self.put_record(b"hours", month.line, hours);
                }
            }
            Form::People => {
                let _ = self.text.print(Sheet {
                    month,
                    hours,
                    table,
                });
            }
        }
    }

    // The sum of all files.
    pub fn put_end(&mut self, counts: Counts)
        ensures { self.new.layout ≡ self.old.layout }
    {
        let Counts {
            accepted,
            refused,
            errors,
        } = counts;
        let calls = accepted.saturating_add(refused);
        match self.layout.form {
            Form::Programs => self.put_record(b"end", calls, &[accepted, refused, errors]),
            Form::People => {
                let _ = self.text.print(format_args!(
                    "calls {calls}, accepted {accepted}, refused {refused}, errors {errors}\n"
                ));
            }
        }
    }

    // A record: a word and its numbers, the first of them apart, since the others of a month are its hours.
    pub fn put_record<T: Copy + Into<u64>>(&mut self, word: &[u8], first: u64, others: &[T])
        ensures { self.new.layout ≡ self.old.layout }
    {
        self.text.put(word);
        self.put_field(first);
        for n in others {
            self.put_field((*n).into());
        }
        self.text.put(b"\n");
    }

    // A number of a record.
    fn put_field(&mut self, n: u64)
        ensures { self.new.layout ≡ self.old.layout }
    {
        self.text.put(b"\t");
        self.text.put_number(n);
    }
}
