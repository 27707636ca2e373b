// The days of a month as a chart, and their hours as a table.
use charts::{day_sum, largest_day, reaches};
use std::fmt;

// The hours of the days of a month, one day behind the other.
#[derive(Clone, Copy)]
pub struct Days<'a> {
    pub hours: &'a [u32],
}

impl Days<'_> {
    // How many days the month has.
    fn count(&self) -> usize {
        self.hours.len() / 24
    }

    // The days as bars of five rows.
    pub(crate) fn write_chart<W: fmt::Write>(&self, f: &mut fmt::Formatter<W>) -> fmt::Result {
        let most = largest_day(self.hours, self.count());
        writeln!(f, "    days      the largest has {most} kWh")?;
        for row in (0..5).rev() {
            self.write_row(f, most, row)?;
        }
        writeln!(f, "               1   5    10   15   20   25   30")
    }

    // A row of the chart, counted from 0 at the bottom. Days go by their numbers, by which `day_sum` finds them.
    fn write_row<W: fmt::Write>(
        &self,
        f: &mut fmt::Formatter<W>,
        most: u64,
        row: u64,
    ) -> fmt::Result {
        write!(f, "              |")?;
        for day in 0..self.count() {
            let full = reaches(day_sum(self.hours, day), most, row);
            let mark = if full { "#" } else { " " };
            write!(f, "{mark}")?;
        }
        writeln!(f)
    }

    // The hours, a row a day, each in a column as wide as the largest.
    pub(crate) fn write_table<W: fmt::Write>(&self, f: &mut fmt::Formatter<W>) -> fmt::Result {
        let most = self.hours.iter().copied().max().unwrap_or(0);
        let width = most.checked_ilog10().map_or(1, |k| k as usize + 1);
        for (k, day) in self.hours.chunks(24).enumerate() {
            write!(f, "    day {:>2}", k + 1)?;
            write_hours(f, day, width)?;
        }
        Ok(())
    }
}

// The hours of a day, and the end of their row.
fn write_hours<W: fmt::Write>(
    f: &mut fmt::Formatter<W>,
    hours: &[u32],
    width: usize,
) -> fmt::Result {
    for hour in hours {
        write!(f, " {hour:>width$}")?;
    }
    writeln!(f)
}
