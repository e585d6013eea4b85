// A whole drawer at once: the dates of a list of days, put into a lent list of records. Neighbouring days mostly lie in one month: which that is,
// and which record has a date of it, is kept from one day to the next, and new where a day leaves it.
// A range is asked for in one word of a `requires` and by no type: rule's functions take plain numbers
// (docs/DECISIONS.md, 263).
#![tactic(auto)]

ghost use Rattle.std.specs.Prelude.{◌≡◌, Some, ◌+◌, ◌-◌, ◌≤◌, T, length};
ghost use Rattle.rule.specs.Counts.{DayInRange};
ghost use Rattle.dates.specs.Dates.{date_of};
ghost use Rattle.drawer.specs.declared.DrawerError.TheVariants.{Refused};
ghost use Rattle.drawer.specs.Drawer.{all_in_range, days_from, drawer_at, said_filled, to_fill, FillDates};
ghost use Rattle.drawer.specs.Shared.{no_month, shared_at, IsShared, Holds};

use dates::Date;
use rule::Reason;
use std::error::Error;
use std::fmt;

// Why a drawer comes back: a reason; or a day is out of range, and the place of the first, counted from 0.
#[derive(Debug, Clone, Copy, PartialEq)]
pub enum DrawerError {
    Refused(Reason),
    BadDay { place: u32 },
}

impl fmt::Display for DrawerError {
    ghost use Rattle.drawer.specs.Drawer.{drawer_words};

    ghost output = { λ e. Some (drawer_words e) };

    fn fmt<W: fmt::Write>(&self, f: &mut fmt::Formatter<W>) -> fmt::Result {
        match self {
            DrawerError::Refused(why) => write!(f, "{why}"),
            DrawerError::BadDay { place } => write!(
                f,
                "{}: place {place}, counted from 0",
                Reason::NoSuchDay
            ),
        }
    }
}

impl Error for DrawerError {}

impl From<Reason> for DrawerError {
    ghost from_gives = { λ why e. e ≡ Refused why };

    fn from(why: Reason) -> DrawerError {
        DrawerError::Refused(why)
    }
}

// What the days of one month share: its first day, how many they are, and the place of a record with the date of one of them. IsShared is a clause
// of what reads it and no invariant: its fields are public, and one would ask more of whoever writes it.
#[derive(Debug, Clone, Copy, PartialEq)]
pub struct Shared {
    pub start: u32,
    pub month_length: u32,
    pub at: usize,
}

// Whether all days are in range. It looks at every one, whatever it has found, which is faster than to ask at each.
fn all_in_range(days: &[u32]) -> bool
    ensures { result ≡ all_in_range days.now }
{
    let mut good = true;
    for &day in days {
        good &= day <= 14989859;
    }
    good
}

// The place of the first day out of range, or how many days there are.
fn first_outside(days: &[u32]) -> Result<u32, DrawerError>
    requires { length days.now ≤ 4096 }
    ensures { said_filled result ≡ days_from days.now 0 }
{
    for (i, &day) in days.iter().enumerate() {
        if 14989859 < day {
            return Err(DrawerError::BadDay { place: i as u32 });
        }
    }
    Ok(days.len() as u32)
}

// The answer for a list of days and a lent list with room for so many records.
pub fn drawer_at(days: &[u32], room: usize) -> Result<u32, DrawerError>
    ensures { said_filled result ≡ drawer_at days.now room }
{
    let n = days.len();
    if 4096 < n {
        return Err(DrawerError::Refused(Reason::CountTooLarge));
    }
    if room < n {
        return Err(DrawerError::Refused(Reason::LentTooShort));
    }
    if all_in_range(days) {
        return Ok(n as u32);
    }
    first_outside(days)
}

// How many records are filled: none where the drawer comes back.
pub fn to_fill(answer: Result<u32, DrawerError>) -> usize
    ensures { result ≡ to_fill (said_filled answer) }
{
    match answer {
        Ok(n) => n as usize,
        Err(_) => 0,
    }
}

// Before the first day: a month without days.
// (A month without days and no Option: `lies_in` asks one comparison for both.)
pub fn no_month() -> Shared
    ensures { result ≡ no_month }
{
    Shared {
        start: 0,
        month_length: 0,
        at: 0,
    }
}

// What the days of a day's month share, by its date and the place where that is put.
pub fn shared_at(date: Date, day: u32, at: usize) -> Shared
    requires { DayInRange day × (date ≡ date_of day) }
    ensures { result ≡ shared_at day at }
{
    Shared {
        start: day + 1 - date.day_of_month as u32,
        month_length: date.month_length as u32,
        at: at,
    }
}

// Whether a day lies in that month. (A day before its first wraps round to more than its days.)
pub fn lies_in(shared: Shared, day: u32) -> bool
    requires { IsShared shared }
    ensures { T result → Holds shared.start shared.month_length day }
{
    std::num::wrapping_sub_u32(day, shared.start) < shared.month_length
}

// Its day of month then.
pub fn day_of_month_in(shared: Shared, day: u32) -> u8
    requires { IsShared shared × Holds shared.start shared.month_length day }
    ensures { result ≡ day - shared.start + 1 }
{
    (day - shared.start + 1) as u8
}

// The dates of all days, a record each, at the front of the lent list. A day in the month of the day before it gets a copy of a record of that month,
// with its own day of month and day name.
pub fn fill_dates(days: &[u32], out: &mut [Date]) -> Result<u32, DrawerError>
    ensures { FillDates days.now out.old result out.new }
{
    let count = drawer_at(days, out.len())?;
    let mut shared = no_month();
    for (i, &day) in days.iter().enumerate() {
        if lies_in(shared, day) {
            let at = shared.at;
            out[i] = out[at];
            out[i].day_of_month = day_of_month_in(shared, day);
            out[i].day_name = rule::day_name_at(day);
        } else {
            let date = dates::date_at(day);
            shared = shared_at(date, day, i);
            out[i] = date;
        }
    }
    Ok(count)
}
