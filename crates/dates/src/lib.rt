// Dates both ways: the date of a day, and the day of a date asked for by civil year, month number, ordinary or leap, day of month.
// A range is asked for in one word of a `requires` and by no type: rule's functions take plain numbers
// (docs/DECISIONS.md, 263).
#![tactic(auto)]

ghost use Rattle.std.specs.Prelude.{◌≡◌, ℕ, ◌+◌, ◌≤◌, ◌<◌};
ghost use Rattle.rule.specs.Counts.{DayInRange};
ghost use Rattle.rule.specs.Rule.{month_start, small_remainder};
ghost use Rattle.rule.specs.Reasons.{said};
ghost use Rattle.dates.specs.Dates.{DayOfMonthInRange, date_of, day_in_month, day_of_named};
ghost use Rattle.dates.specs.Promises.{DateOfDay, DayOfDate};

use rule::{Month, Reason};

// A date of the rule. Its year is the civil one; ji, bu and year in the bu are the place of the solstice year in which the day lies; `eclipse`
// is whether its month is an eclipse month, as the struct for C says it.
#[derive(Debug, Clone, Copy, PartialEq, Eq)]
pub struct Date {
    pub month: Month,
    pub year: u16,
    pub day_of_month: u8,
    pub month_length: u8,
    pub day_name: u8,
    pub year_name: u8,
    pub ji: u8,
    pub bu: u8,
    pub year_in_bu: u8,
    pub eclipse: bool,
}

// The date of a day in range. Civil and solstice year, number and leap mark are those of the last mid-term before the month's end: leap where that
// is before the month's start. Nothing else makes a date.
pub fn date_at(day: u32) -> Date
    requires { DayInRange day }
    ensures { result ≡ date_of day }
{
    let at = rule::stands(day);
    let passed = at.passed;
    let length = rule::length_of(at.left);
    let start = day - passed;
    let last = rule::last_mid_term(start + length);
    let its = rule::civil_year_and_number(last);
    let year = its.year;
    let place = rule::place_of((last / 12 + 1) as u16);
    let term = rule::term_of(2 * last);
    let leap = term.day < start;
    Date {
        month: rule::marked(leap, its.number),
        year,
        day_of_month: (passed + 1) as u8,
        month_length: length as u8,
        day_name: rule::day_name_at(day),
        year_name: rule::year_name(year),
        ji: place.ji,
        bu: place.bu,
        year_in_bu: place.year_in_bu,
        eclipse: rule::is_eclipse(at.month),
    }
}

// Day to date.
pub fn date_of_day(day: u32) -> Result<Date, Reason>
    ensures { DateOfDay day result }
{
    if 14989859 < day {
        return Err(Reason::NoSuchDay);
    }
    Ok(date_at(day))
}

// A day of the month that starts on day `start`, of which `left` was left at the new moon, or reason 5. (More than 498 is left in a small
// month; asking `length_of` is slower here.)
fn day_in(start: u32, left: u32, day_of_month: u32) -> Result<u32, Reason>
    requires { (start ≤ 14989860) × DayOfMonthInRange day_of_month }
    ensures { (n : ℕ) → start ≡ month_start n → left + small_remainder n ≡ 939 → said result ≡ day_in_month n day_of_month }
{
    let small = 498 < left;
    let thirtieth = 29 < day_of_month;
    if small & thirtieth {
        return Err(Reason::NoThirtiethDay);
    }
    Ok(start + (day_of_month - 1))
}

// The day of a date whose number is there, with mid-term m, and whose day of month is in its range: reason 4 or 5 can still be met. The
// ordinary month of the number holds its mid-term, and the month after it is leap where it ends before the next mid-term.
fn day_of_named(m: u32, leap: bool, day_of_month: u32) -> Result<u32, Reason>
    requires { (m < 492480) × DayOfMonthInRange day_of_month }
    ensures { said result ≡ day_of_named m leap day_of_month }
{
    let term = rule::term_of(2 * m);
    let mid = term.day;
    let at = rule::stands(mid);
    let mut start = mid - at.passed;
    let mut left = at.left;
    if leap {
        start += rule::length_of(left);
        left = rule::next_left(left);
        let next = rule::term_of(2 * (m + 1));
        if next.day < start + rule::length_of(left) {
            return Err(Reason::NoSuchLeapMonth);
        }
    }
    day_in(start, left, day_of_month)
}

// Date to day: twelve numbers a civil year, of which 11 of year 0 is the first that is there, and 10 of year 41,040 the last.
// (Four numbers of any size, which `DayOfDate` refuses one by one.)
pub fn day_of_date(year: u32, number: u32, leap: bool, day_of_month: u32) -> Result<u32, Reason>
    ensures { DayOfDate year number leap day_of_month result }
{
    if 41040 < year {
        return Err(Reason::NoSuchYear);
    }
    if !rule::in_range(1, 12, number) {
        return Err(Reason::NoSuchMonthNumber);
    }
    if !rule::in_range(1, 30, day_of_month) {
        return Err(Reason::NoSuchDayOfMonth);
    }
    let count = 12 * year + number;
    if !rule::in_range(11, 492490, count) {
        return Err(Reason::NoSuchNumberInYear);
    }
    day_of_named(count - 11, leap, day_of_month)
}
