// Readings of slips, and the search: every day of a window that fits a reading, into a lent list.
// A range is asked for in one word of a `requires` and by no type: rule's functions take plain numbers
// (docs/DECISIONS.md, 263).
#![tactic(auto)]

ghost use Rattle.std.specs.Prelude.{◌≡◌, Some, ◌+◌, ◌-◌, ◌≤◌, ◌<◌, min, length};
ghost use Rattle.std.proofs.lemmas.List.Edits.{sets};
ghost use Rattle.rule.specs.Counts.{DayInRange, MonthInRange, day_name, year_name};
ghost use Rattle.rule.specs.Lists.{those, placed};
ghost use Rattle.rule.specs.Rule.{month_start, civil_year_of_month, month_number, leap};
ghost use Rattle.reading.specs.Readings.{mark_number, field_fits, field_in_range, in_ranges, month_fits, day_fits, PartOfMonth, window_holds, fitting};
ghost use Rattle.rule.specs.Reasons.{is, said};
ghost use Rattle.reading.specs.declared.SearchError.TheVariants.{Refused};
ghost use Rattle.reading.specs.Search.{where_good, Searched};

use rule::Reason;
use std::error::Error;
use std::fmt;

// One of the six things that may be read on a slip: a number, or unread.
// (An enum of its own and no Option: the paper names it so, and `FieldFits` of `SearchLists` is said of it.)
#[derive(Debug, Clone, Copy, PartialEq)]
pub enum Field {
    Known(u32),
    Unread,
}

// A reading, in the paper's order; a leap mark is 1 for ordinary and 2 for leap.
// (A leap mark is 1 or 2, a number: another one is refused with 14.)
#[derive(Debug, Clone, Copy, PartialEq)]
pub struct Reading {
    pub year_name: Field,
    pub month_number: Field,
    pub leap_mark: Field,
    pub day_of_month: Field,
    pub day_name: Field,
    pub first_name: Field,
}

// Why a search comes back: a reason; or the lent list is too short, and how many days fit.
#[derive(Debug, Clone, Copy, PartialEq)]
pub enum SearchError {
    Refused(Reason),
    TooShort { total: u32 },
}

impl fmt::Display for SearchError {
    ghost use Rattle.reading.specs.Search.{search_words};

    ghost output = { λ e. Some (search_words e) };

    fn fmt<W: fmt::Write>(&self, f: &mut fmt::Formatter<W>) -> fmt::Result {
        match self {
            SearchError::Refused(why) => write!(f, "{why}"),
            SearchError::TooShort { total } => write!(
                f,
                "{}: {total} days fit",
                Reason::LentTooShort
            ),
        }
    }
}

impl Error for SearchError {}

impl From<Reason> for SearchError {
    ghost from_gives = { λ why e. e ≡ Refused why };

    fn from(why: Reason) -> SearchError {
        SearchError::Refused(why)
    }
}

// Whether a field fits a value.
fn field_fits(f: Field, value: u32) -> bool
    ensures { result ≡ field_fits f value }
{
    match f {
        Field::Known(k) => k == value,
        Field::Unread => true,
    }
}

// Whether a field is unread, or known and in its range.
fn field_in_range(f: Field, most: u32) -> bool
    ensures { result ≡ field_in_range f most }
{
    match f {
        Field::Known(k) => rule::in_range(1, most, k),
        Field::Unread => true,
    }
}

// Whether every known field of a reading is in its range.
fn in_ranges(r: Reading) -> bool
    ensures { result ≡ in_ranges r }
{
    let year_name = field_in_range(r.year_name, 60);
    let month_number = field_in_range(r.month_number, 12);
    let leap_mark = field_in_range(r.leap_mark, 2);
    let day_of_month = field_in_range(r.day_of_month, 30);
    let day_name = field_in_range(r.day_name, 60);
    let first_name = field_in_range(r.first_name, 60);
    year_name & month_number & leap_mark & day_of_month & day_name & first_name
}

// 1 for ordinary, 2 for leap.
// (A function by the name of docs/CALLS.md.)
pub fn mark_number(leap: bool) -> u32
    ensures { result ≡ mark_number leap }
{
    if leap { 2 } else { 1 }
}

// Whether a field fits the name of a month's civil year.
// (One function a value, so that the next value is worked out only where the one before fits.)
fn year_name_fits(f: Field, n: u32) -> bool
    requires { MonthInRange n }
    ensures { result ≡ field_fits f (year_name (civil_year_of_month n)) }
{
    field_fits(f, rule::year_name(rule::civil_year_of_month(n)) as u32)
}

// Whether a field fits a month's number.
fn number_fits(f: Field, n: u32) -> bool
    requires { MonthInRange n }
    ensures { result ≡ field_fits f (month_number n) }
{
    field_fits(f, rule::month_number(n) as u32)
}

// Whether a field fits a month's leap mark.
fn mark_fits(f: Field, n: u32) -> bool
    requires { MonthInRange n }
    ensures { result ≡ field_fits f (mark_number (leap n)) }
{
    field_fits(f, mark_number(rule::is_leap(n)))
}

// Whether a field fits the name of a month's first day.
fn first_name_fits(f: Field, n: u32) -> bool
    requires { MonthInRange n }
    ensures { result ≡ field_fits f (day_name (month_start n)) }
{
    field_fits(f, rule::day_name(rule::month_start(n)) as u32)
}

// Whether a month's own four values fit: they are the same for all of its days, and are looked at once, up to the first that does not fit.
fn month_fits(r: Reading, n: u32) -> bool
    requires { MonthInRange n }
    ensures { result ≡ month_fits r n }
{
    if !year_name_fits(r.year_name, n) {
        return false;
    }
    if !number_fits(r.month_number, n) {
        return false;
    }
    if !mark_fits(r.leap_mark, n) {
        return false;
    }
    first_name_fits(r.first_name, n)
}

// Whether a day's own two values fit, its month starting on a day.
fn day_fits(r: Reading, start: u32, day: u32) -> bool
    requires { (start ≤ day) × (day < start + 30) }
    ensures { result ≡ day_fits r start day }
{
    let of_month = field_fits(r.day_of_month, day - start + 1);
    let name = field_fits(r.day_name, rule::day_name(day) as u32);
    of_month & name
}

// A month's part of a window: its days from `from` up to `to`.
#[derive(Debug, Clone, Copy, PartialEq)]
pub struct Part {
    pub month: u32,
    pub from: u32,
    pub to: u32,
    ghost of_month: { PartOfMonth month from to },
}

// How many days of a part fit by their own values.
fn count_days(r: Reading, part: Part) -> u32
    ensures { result ≡ length (those (day_fits r (month_start part.month)) part.from (part.to - part.from)) }
{
    let start = rule::month_start(part.month);
    let mut k: u32 = 0;
    for day in part.from..part.to {
        if day_fits(r, start, day) {
            k += 1;
        }
    }
    k
}

// How many days of a part fit; a month whose own values do not fit has none.
fn count_month(r: Reading, part: Part) -> u32
    ensures { result ≡ length (fitting r part.from (part.to - part.from)) }
{
    if month_fits(r, part.month) {
        return count_days(r, part);
    }
    0
}

// Where a month's part of a window ends: at the next month's start, or with the window.
pub fn part_end(n: u32, end: u32) -> u32
    requires { MonthInRange n }
    ensures { result ≡ min (month_start (n + 1)) end }
{
    let next = rule::month_start(n + 1);
    if next < end { next } else { end }
}

// How many days from `first` up to `end` fit, month by month. This walk, fill_fitting's and emending's go on by what `part_end` answers, so that
// no range has their turns; one function of the three would need a closure that holds the lent list and a contract for it, and is no plainer.
pub fn count_window(r: Reading, first: u32, end: u32) -> u32
    requires { (first < end) × (end ≤ 14989860) }
    ensures { result ≡ length (fitting r first (end - first)) }
{
    let mut k: u32 = 0;
    let mut day = first;
    let mut n = rule::month_of_day(first);
    while day < end {
        let to = part_end(n, end);
        let part = Part {
            month: n,
            from: day,
            to,
        };
        k += count_month(r, part);
        day = to;
        n += 1;
    }
    k
}

// The days of a part that fit by their own values, put into the list from a place on; the place after them.
fn fill_days(r: Reading, part: Part, out: &mut [u32], at: usize) -> usize
    requires { at + length (those (day_fits r (month_start part.month)) part.from (part.to - part.from)) ≤ length out.old }
    ensures { (result ≡ at + length (those (day_fits r (month_start part.month)) part.from (part.to - part.from))) × (out.new ≡ sets out.old at (those (day_fits r (month_start part.month)) part.from (part.to - part.from))) }
{
    let start = rule::month_start(part.month);
    let mut k = at;
    for day in part.from..part.to {
        if day_fits(r, start, day) {
            out[k] = day;
            k += 1;
        }
    }
    k
}

// The days of a part that fit, put into the list from a place on; the place after them.
fn fill_month(r: Reading, part: Part, out: &mut [u32], at: usize) -> usize
    requires { at + length (fitting r part.from (part.to - part.from)) ≤ length out.old }
    ensures { (result ≡ at + length (fitting r part.from (part.to - part.from))) × (out.new ≡ sets out.old at (fitting r part.from (part.to - part.from))) }
{
    if month_fits(r, part.month) {
        return fill_days(r, part, out, at);
    }
    at
}

// The days from `first` up to `end` that fit, put into the front of the list, month by month; how many they are.
fn fill_fitting(r: Reading, first: u32, end: u32, out: &mut [u32]) -> usize
    requires { (first < end) × (end ≤ 14989860) × (length (fitting r first (end - first)) ≤ length out.old) }
    ensures { (result ≡ length (fitting r first (end - first))) × (out.new ≡ placed (fitting r first (end - first)) out.old) }
{
    let mut k: usize = 0;
    let mut day = first;
    let mut n = rule::month_of_day(first);
    while day < end {
        let to = part_end(n, end);
        let part = Part {
            month: n,
            from: day,
            to,
        };
        k = fill_month(r, part, out, k);
        day = to;
        n += 1;
    }
    k
}

// Whether a first and a last day in range make a window.
fn window_holds(first: u32, last: u32) -> bool
    requires { DayInRange last }
    ensures { result ≡ window_holds first last }
{
    if last < first {
        return false;
    }
    last + 1 - first <= 27759
}

// The tests that a search begins with, and an emendation: either end of the window, the window, the known fields.
pub fn test_search(r: Reading, first: u32, last: u32) -> Result<(), Reason>
    ensures { said result ≡ where_good r first last (is tt) }
{
    if 14989859 < first {
        return Err(Reason::NoSuchDay);
    }
    if 14989859 < last {
        return Err(Reason::NoSuchDay);
    }
    if !window_holds(first, last) {
        return Err(Reason::BadWindow);
    }
    if !in_ranges(r) {
        return Err(Reason::FieldOutOfRange);
    }
    Ok(())
}

// Every day of the window that fits the reading: how many, and the days in rising order at the front of the lent list. Only a list
// with fewer places than the window has days can be too short: then the fitting days are counted first, so that a refusal changes nothing.
pub fn search(r: Reading, first: u32, last: u32, out: &mut [u32]) -> Result<u32, SearchError>
    ensures { Searched r first last out.old result out.new }
{
    test_search(r, first, last)?;
    let end = last + 1;
    if out.len() < (end - first) as usize {
        let total = count_window(r, first, end);
        if out.len() < total as usize {
            return Err(SearchError::TooShort { total });
        }
    }
    Ok(fill_fitting(r, first, end, out) as u32)
}
