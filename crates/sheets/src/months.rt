// The sheet of a closed month, for people and for programs.
use super::days::Days;
use super::wording::{clause_words, ground_words, month_name};
use calendar::Date;
use marks::peak::peak_part;
use rules::{Figures, Reasons};
use std::fmt;
use units::Kwh;

// A closed month: its line and date, T, the figures of its closing, why, and the total behind it.
#[derive(Clone, Copy)]
pub struct Month {
    pub line: u64,
    pub date: Date,
    pub hours: u32,
    pub figures: Figures,
    pub why: Reasons,
    pub total: Kwh,
}

// The sheet of a month for people, with its days as a chart and, where it is asked for, its hours as a table.
#[derive(Clone, Copy)]
pub struct Sheet<'a> {
    pub month: Month,
    pub hours: &'a [u32],
    pub table: bool,
}

impl fmt::Display for Sheet<'_> {
    fn fmt<W: fmt::Write>(&self, f: &mut fmt::Formatter<W>) -> fmt::Result {
        self.month.write_volume(f)?;
        self.month.write_counted(f)?;
        self.month.write_past(f)?;
        self.month.write_test(f)?;
        self.month.write_figures(f)?;
        let days = Days { hours: self.hours };
        days.write_chart(f)?;
        if self.table {
            days.write_table(f)?;
        }
        Ok(())
    }
}

impl Month {
    // The numbers of its record for programs, behind the line. What there is not is 0 there, since a record is numbers alone.
    pub(crate) fn fields(&self) -> [u64; 21] {
        let Figures {
            ground,
            volume,
            capacity,
            sum,
            days,
            ..
        } = self.figures;
        let why = self.why;
        [
            u64::from(self.date.year),
            u64::from(self.date.month),
            u64::from(self.hours),
            u64::from(ground),
            why.clause.map_or(0, |clause| u64::from(clause.number())),
            volume.0,
            why.reading.map_or(0, |reading| reading.0),
            why.neighbour.0,
            u64::from(why.power.0),
            why.peaks,
            self.peak_volume(),
            days,
            sum.0,
            why.compared.map_or(0, |compared| compared.0),
            u64::from(why.run),
            u64::from(why.denials),
            u64::from(why.counted),
            why.past.map_or(0, |past| u64::from(past.year)),
            why.past.map_or(0, |past| u64::from(past.month)),
            u64::from(capacity.0),
            self.total.0,
        ]
    }

    // A, the part of V that the peak rule puts into the peak hours. The cast is of a number that fits.
    fn peak_volume(&self) -> u64 {
        let n = self.why.peaks.min(744) as u32;
        let part = peak_part(self.figures.volume, n, self.why.power);
        part.0
    }

    // The month, its ground, the clause, V and how it was found.
    fn write_volume<W: fmt::Write>(&self, f: &mut fmt::Formatter<W>) -> fmt::Result {
        let Month { hours: t, date, .. } = *self;
        let Figures { ground, volume, .. } = self.figures;
        writeln!(
            f,
            "    month     {} {}, T {t} hours",
            month_name(date.month),
            date.year
        )?;
        writeln!(f, "    ground    {ground}: {}", ground_words(ground))?;
        writeln!(f, "    clause    {}", clause_words(self.why.clause))?;
        write!(f, "    V         {} kWh", volume.0)?;
        self.write_found(f)?;
        writeln!(f)
    }

    // How V was found. The ground is a number, as `Figures` has it, which crosses C.
    fn write_found<W: fmt::Write>(&self, f: &mut fmt::Formatter<W>) -> fmt::Result {
        let t = self.hours;
        match self.figures.ground {
            1 | 3 => write!(f, ", the sum of the hours read"),
            2 => {
                self.write_difference(f, "B")?;
                self.write_peaks(f)
            }
            5 => {
                self.write_difference(f, "K")?;
                self.write_peaks(f)
            }
            7 => write!(f, ", the sum of the hours taken from the past"),
            8 => write!(f, ", P {} kW for T {t} hours", self.why.power.0),
            9 => write!(f, ", the cable formula at T {t} hours"),
            _ => self.write_difference(f, "K"),
        }
    }

    // The reading of a volume, where there is one, by its letter, less the neighbour's.
    fn write_difference<W: fmt::Write>(
        &self,
        f: &mut fmt::Formatter<W>,
        letter: &str,
    ) -> fmt::Result {
        let Reasons {
            reading,
            neighbour,
            ..
        } = self.why;
        let Some(reading) = reading else {
            return Ok(());
        };
        write!(f, ", {letter} {} kWh less N {} kWh", reading.0, neighbour.0)?;
        if reading < neighbour {
            write!(f, ", not below 0")?;
        }
        Ok(())
    }

    // How a volume by the peak rule goes over the hours.
    fn write_peaks<W: fmt::Write>(&self, f: &mut fmt::Formatter<W>) -> fmt::Result {
        let Reasons { peaks, power, .. } = self.why;
        if peaks == 0 {
            return write!(f, "; evenly, since n is 0");
        }
        let part = self.peak_volume();
        write!(
            f,
            "; A {part} kWh evenly over {peaks} peak hours, at most P {} kW each",
            power.0
        )?;
        write!(f, ", the rest evenly over the others")
    }

    // R, and why.
    fn write_counted<W: fmt::Write>(&self, f: &mut fmt::Formatter<W>) -> fmt::Result {
        let Reasons {
            counted,
            run,
            denials,
            ..
        } = self.why;
        write!(f, "    R         {counted}: the run of {run} plus 1")?;
        if u64::from(counted) == u64::from(run) + 1 {
            writeln!(f, "; denials {denials}")
        } else {
            writeln!(f, ", and at least 3 with two denials")
        }
    }

    // The past month, by which rule it is the past, and whether the ground used it.
    fn write_past<W: fmt::Write>(&self, f: &mut fmt::Formatter<W>) -> fmt::Result {
        let Some(past) = self.why.past else {
            return writeln!(f, "    past      none");
        };
        let which = if self.is_year_after(past) {
            "the same month last year"
        } else {
            "the latest month measured"
        };
        let role = match self.figures.ground {
            4 | 6 | 7 => "used",
            _ if self.why.compared.is_some() => "used in the test alone",
            _ => "not used",
        };
        writeln!(
            f,
            "    past      {} {}, {which}, {role}",
            month_name(past.month),
            past.year
        )
    }

    // Whether a past month is the same month of the year before.
    fn is_year_after(&self, past: Date) -> bool {
        past.month == self.date.month && u64::from(past.year) + 1 == u64::from(self.date.year)
    }

    // The test between grounds 5 and 6, where there is one.
    fn write_test<W: fmt::Write>(&self, f: &mut fmt::Formatter<W>) -> fmt::Result {
        let Some(compared) = self.why.compared else {
            return Ok(());
        };
        let low = self.peak_volume().saturating_mul(self.figures.days);
        let high = self.why.peaks.saturating_mul(compared.0);
        let outcome = if self.figures.ground == 6 {
            "less, so the past"
        } else {
            "not less, so the peak rule"
        };
        writeln!(
            f,
            "    test      A times d is {low}, n times C' is {high}: {outcome}"
        )
    }

    // n, d, C, capacity and the total.
    fn write_figures<W: fmt::Write>(&self, f: &mut fmt::Formatter<W>) -> fmt::Result {
        let Figures {
            capacity,
            sum,
            days,
            ..
        } = self.figures;
        writeln!(f, "    n         {} peak hours", self.why.peaks)?;
        writeln!(f, "    d         {days} working days")?;
        writeln!(f, "    C         {} kWh in the capacity hours", sum.0)?;
        writeln!(f, "    capacity  {} kW", capacity.0)?;
        writeln!(f, "    total     {} kWh", self.total.0)
    }
}
