// Days of the Gregorian calendar, and the windows of the year that a rule set may hold in.
#![tactic(auto)]

ghost use Rattle.std.specs.Prelude.{◌≡◌};
ghost use Rattle.dates.specs.Dates.{days_in, has_day, is_leap, is_date, not_after, is_window, lies_in, month_day};

// A day of the year: or two numbers that are none.
#[derive(Clone, Copy, PartialEq, Eq, Debug)]
pub struct MonthDay {
    pub day: u8,
    pub month: u8,
}

// A date: or three numbers that are none.
#[derive(Clone, Copy, PartialEq, Eq, Debug)]
pub struct Date {
    pub day: u8,
    pub month: u8,
    pub year: u16,
}

// The days from the first to the last, both with them; over the year's end where the last comes before the first.
#[derive(Clone, Copy, PartialEq, Eq, Debug)]
pub struct Window {
    pub first: MonthDay,
    pub last: MonthDay,
}

// The years that a date may have.
const FIRST_YEAR: u16 = 1900;

const LAST_YEAR: u16 = 2199;

fn is_leap(year: u16) -> bool
    ensures { result ≡ is_leap year }
{
    year % 4 == 0 && (year % 100 != 0 || year % 400 == 0)
}

// How many days a month has, in a leap year or in another: none where there is no such month.
fn days_in(leap: bool, month: u8) -> u8
    ensures { result ≡ days_in leap month }
{
    match month {
        2 if leap => 29,
        2 => 28,
        4 | 6 | 9 | 11 => 30,
        1..=12 => 31,
        _ => 0,
    }
}

impl MonthDay {
    // Whether a leap year has this day, or another year.
    fn is_in(self, leap: bool) -> bool
        ensures { result ≡ has_day leap self }
    {
        1 <= self.day && self.day <= days_in(leap, self.month)
    }

    // By month, then day.
    fn is_not_after(self, other: MonthDay) -> bool
        ensures { result ≡ not_after self other }
    {
        self.month < other.month || (self.month == other.month && self.day <= other.day)
    }
}

impl Date {
    // Whether there is such a date, in the years that are taken.
    pub fn is_valid(self) -> bool
        ensures { result ≡ is_date self }
    {
        (FIRST_YEAR..=LAST_YEAR).contains(&self.year) && self.month_day().is_in(is_leap(self.year))
    }

    fn month_day(self) -> MonthDay
        ensures { result ≡ month_day self }
    {
        MonthDay {
            day: self.day,
            month: self.month,
        }
    }
}

impl Window {
    // Whether some year has both days: a leap year has every day.
    pub fn is_valid(self) -> bool
        ensures { result ≡ is_window self }
    {
        self.first.is_in(true) && self.last.is_in(true)
    }

    // Whether a date lies in it.
    pub fn holds(self, date: Date) -> bool
        ensures { result ≡ lies_in self (month_day date) }
    {
        let day = date.month_day();
        let begun = self.first.is_not_after(day);
        let not_over = day.is_not_after(self.last);
        if self.first.is_not_after(self.last) {
            begun && not_over
        } else {
            begun || not_over
        }
    }
}
