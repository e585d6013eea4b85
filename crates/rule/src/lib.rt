// The rule as arithmetic on counts: "Counts and names" and "The rule" of the paper, a function for each definition of specs/, and those
// that share what a date is computed from, which say in their contracts what they give.
// What asks for a range in its `requires` is called where the range has been tested. They stay functions of plain numbers, and no methods of a
// day, a month or a year with its range: docs/CALLS.md names them so, a type would ask more of callers (docs/DECISIONS.md, 263).
#![tactic(auto)]

ghost use Rattle.std.specs.Prelude.{◌≡◌, ℕ, Some, ◌+◌, ◌*◌, ◌/◌, ◌<◌, ◌≤◌, length};
ghost use Rattle.rule.specs.Words.{words_of};
ghost use Rattle.rule.specs.Counts.{SolsticeYearInRange, CivilYearInRange, DayInRange, MonthInRange, day_name, year_name, ji, bu, year_in_bu, head_name};
ghost use Rattle.rule.specs.Rule.{
  month_start,
  small_remainder,
  month_length,
  month_of_day,
  quarter_day,
  quarter_parts,
  term_day,
  term_parts,
  mid_term_day,
  solstice_first_month,
  leap_remainder,
  months_in_solstice_year,
  civil_first_month,
  months_in_civil_year,
  civil_year_of_month,
  mid_terms_before,
  leap,
  mid_term_number,
  month_number,
  marked,
  month_at,
  number_of,
  leap_mark,
  eclipse,
  FollowsMonthRule,
};
ghost use Rattle.rule.specs.Reasons.{reason_number, within};

mod printed;

use printed::PRINTED;
use std::error::Error;
use std::fmt;

// A month as a date holds it: ordinary or leap, with its number.
#[derive(Debug, Clone, Copy, PartialEq, Eq)]
pub enum Month {
    Ordinary(u8),
    Leap(u8),
}

// Why a query comes back, in the paper's order.
#[derive(Debug, Clone, Copy, PartialEq, Eq)]
pub enum Reason {
    NoSuchYear,
    NoSuchMonthNumber,
    NoSuchDayOfMonth,
    NoSuchLeapMonth,
    NoThirtiethDay,
    NoSuchDay,
    NoSuchMonth,
    MoveOutOfRange,
    SheetEndsEarly,
    CountTooLarge,
    BytesAfterLast,
    LentTooShort,
    BadWindow,
    FieldOutOfRange,
    NoSuchTermOrQuarter,
    NoSuchNumberInYear,
    ReadingsPresent,
    TextTooLong,
    NoSuchPlanet,
    NoConjunctionLeft,
    NoSuchBu,
}

impl fmt::Display for Reason {
    ghost use Rattle.rule.specs.Words.{words_of};

    ghost output = { λ why. Some (words_of why) };

    fn fmt<W: fmt::Write>(&self, f: &mut fmt::Formatter<W>) -> fmt::Result {
        f.write_str(self.words())
    }
}

impl Error for Reason {}

impl Reason {
    // Its words, true wherever it is given.
    pub fn words(self) -> &'static str
        ensures words { result.now ≡ words_of self }
        ensures few { length result.now ≤ 64 }
    {
        match self {
            Reason::NoSuchYear => "year outside its range",
            Reason::NoSuchMonthNumber => "month number outside 1 to 12",
            Reason::NoSuchDayOfMonth => "day of month outside 1 to 30",
            Reason::NoSuchLeapMonth => "leap month asked and that year has none of that number",
            Reason::NoThirtiethDay => "day 30 of a 29-day month",
            Reason::NoSuchDay => "day count outside the range",
            Reason::NoSuchMonth => "month count outside the range",
            Reason::MoveOutOfRange => "a move ends outside the range",
            Reason::SheetEndsEarly => "sheet ends before a count or an item is whole",
            Reason::CountTooLarge => "a count above its most",
            Reason::BytesAfterLast => "bytes after the last section",
            Reason::LentTooShort => "a lent list or buffer too short for the whole answer",
            Reason::BadWindow => "last before first, or a window of more than 27,759 days",
            Reason::FieldOutOfRange => "a known field of a reading outside its range",
            Reason::NoSuchTermOrQuarter => "term, mid-term or quarter above its last",
            Reason::NoSuchNumberInYear => "no such month number in that year",
            Reason::ReadingsPresent => "going back to the old form with readings present",
            Reason::TextTooLong => "text too long",
            Reason::NoSuchPlanet => "planet outside 1 to 5",
            Reason::NoConjunctionLeft =>
                "no conjunction falls from the given day to the end of the range",
            Reason::NoSuchBu => "bu outside 1 to 540",
        }
    }

    // The number that the paper gives it.
    pub fn number(self) -> u8
        ensures { result ≡ reason_number self }
    {
        match self {
            Reason::NoSuchYear => 1,
            Reason::NoSuchMonthNumber => 2,
            Reason::NoSuchDayOfMonth => 3,
            Reason::NoSuchLeapMonth => 4,
            Reason::NoThirtiethDay => 5,
            Reason::NoSuchDay => 6,
            Reason::NoSuchMonth => 7,
            Reason::MoveOutOfRange => 8,
            Reason::SheetEndsEarly => 9,
            Reason::CountTooLarge => 10,
            Reason::BytesAfterLast => 11,
            Reason::LentTooShort => 12,
            Reason::BadWindow => 13,
            Reason::FieldOutOfRange => 14,
            Reason::NoSuchTermOrQuarter => 15,
            Reason::NoSuchNumberInYear => 16,
            Reason::ReadingsPresent => 17,
            Reason::TextTooLong => 18,
            Reason::NoSuchPlanet => 19,
            Reason::NoConjunctionLeft => 20,
            Reason::NoSuchBu => 21,
        }
    }
}

// The place of a solstice year: ji 1 to 3, bu 1 to 20, year in bu 1 to 76.
#[derive(Debug, Clone, Copy, PartialEq, Eq)]
pub struct Place {
    pub ji: u8,
    pub bu: u8,
    pub year_in_bu: u8,
}

// A quarter of a month: its day, and the rest in parts of 3,760.
#[derive(Debug, Clone, Copy, PartialEq, Eq)]
pub struct Quarter {
    pub day: u32,
    pub parts: u16,
}

// A term: its day, and the rest in parts of 32.
#[derive(Debug, Clone, Copy, PartialEq, Eq)]
pub struct Term {
    pub day: u32,
    pub parts: u8,
}

// A civil year, and the number of one of its months.
#[derive(Debug, Clone, Copy, PartialEq, Eq)]
pub struct YearMonth {
    pub year: u16,
    pub number: u8,
}

// What has gone by since the origin a part before a day's end: whole months, and the parts of 940 beyond them.
#[derive(Debug, Clone, Copy, PartialEq, Eq)]
struct Gone {
    pub months: u32,
    pub parts: u32,
}

// Where a day stands: its month, how many of the month's days are before it, and what was left of the month's first day at the new moon,
// in parts of 940, less one.
#[derive(Debug, Clone, Copy, PartialEq, Eq)]
pub struct Standing {
    pub month: u32,
    pub passed: u32,
    pub left: u32,
}

// The number that the paper gives a reason, by the name of docs/CALLS.md.
pub fn reason_number(r: Reason) -> u8
    ensures { result ≡ reason_number r }
{
    r.number()
}

// Whether a number lies within a range, both ends included.
pub fn in_range(least: u32, most: u32, a: u32) -> bool
    ensures { result ≡ within least most a }
{
    let low = least <= a;
    let high = a <= most;
    low & high
}

// The name of a day.
pub fn day_name(day: u32) -> u8
    ensures { result ≡ day_name day }
{
    (day % 60 + 1) as u8
}

// The same of a day in range, without a remainder by sixty: in parts of which 2 to the 32nd are sixty days, and 71,582,789 one (60 times so many are
// a little more). It is two or three steps shorter, and a drawer names every day.
pub fn day_name_at(day: u32) -> u8
    requires { DayInRange day }
    ensures { result ≡ day_name day }
{
    (60 * (71582789 * (day as u64) % 4294967296) / 4294967296 + 1) as u8
}

// The name of a civil year.
pub fn year_name(year: u16) -> u8
    ensures { result ≡ year_name year }
{
    ((year as u32 + 15) % 60 + 1) as u8
}

// The place of a solstice year, from its elapsed years in parts of which 2 to the 32nd are a yuan, and 941,879 a year (4,560 times so many are
// a little more): thirds of a yuan, twentieths of a ji, 76ths of a bu. So no division is needed.
pub fn place_of(year: u16) -> Place
    requires { SolsticeYearInRange year }
    ensures { (result.ji ≡ ji year) × (result.bu ≡ bu year) × (result.year_in_bu ≡ year_in_bu year) }
{
    let elapsed = year - 1;
    let jis = 3 * (941879 * (elapsed as u64) % 4294967296);
    let bus = 20 * (jis % 4294967296);
    let years = 76 * (bus % 4294967296);
    Place {
        ji: (jis / 4294967296 + 1) as u8,
        bu: (bus / 4294967296 + 1) as u8,
        year_in_bu: (years / 4294967296 + 1) as u8,
    }
}

// The head name of a bu, which is that of its first day.
pub fn head_name(b: u8) -> u8
    requires { (1 ≤ b) × (b ≤ 20) }
    ensures { result ≡ head_name b }
{
    day_name(27759 * (b as u32 - 1))
}

// The first day of a month; of the month after the last too, where the last month ends.
pub fn month_start(n: u32) -> u32
    requires { n ≤ 507600 }
    ensures { result ≡ month_start n }
{
    (27759 * (n as u64) / 940) as u32
}

// The small remainder of a month.
pub fn small_remainder(n: u32) -> u16
    ensures { result ≡ small_remainder n }
{
    (27759 * (n as u64) % 940) as u16
}

// The length of a month: 30 days at a small remainder of 441 or more, else 29.
pub fn month_length(n: u32) -> u8
    ensures { result ≡ month_length n }
{
    if small_remainder(n) < 441 { 29 } else { 30 }
}

// The length of a month from what was left of its first day, which is 939 less its small remainder.
pub fn length_of(left: u32) -> u32
    ensures { (n : ℕ) → left + small_remainder n ≡ 939 → result ≡ month_length n }
{
    if left < 499 { 30 } else { 29 }
}

// What is left of the next month's first day: 499 parts less, or 441 more.
pub fn next_left(left: u32) -> u32
    requires { left < 940 }
    ensures { (n : ℕ) → left + small_remainder n ≡ 939 → result + small_remainder (n + 1) ≡ 939 }
{
    (left + 441) % 940
}

// A quarter of a month: 0 new, 1 first, 2 full, 3 last.
pub fn quarter_of(n: u32, q: u8) -> Quarter
    requires { MonthInRange n × (q ≤ 3) }
    ensures { (result.day ≡ quarter_day n q) × (result.parts ≡ quarter_parts n q) }
{
    let parts = 27759 * (4 * (n as u64) + q as u64);
    Quarter {
        day: (parts / 3760) as u32,
        parts: (parts % 3760) as u16,
    }
}

// A term, counted from the origin: its day and the rest in parts of 32; even ones are the mid-terms. The term after the last too, with
// which the last solstice year ends. Whatever asks for a term asks here.
pub fn term_of(t: u32) -> Term
    requires { t ≤ 984960 }
    ensures { (result.day ≡ term_day t) × (result.parts ≡ term_parts t) }
{
    let parts = 487 * t;
    Term {
        day: parts / 32,
        parts: (parts % 32) as u8,
    }
}

// The last mid-term before a day, counted from the origin; before the day after the last too.
pub fn last_mid_term(day: u32) -> u32
    requires { (1 ≤ day) × (day ≤ 14989860) }
    ensures { (mid_term_day result < day) × (day ≤ mid_term_day (result + 1)) }
{
    (16 * day - 1) / 487
}

// The civil year of the month that holds a mid-term, and its number: the first of all is 11 of year 0, then 12, then 1 of year 1, 2 ..
pub fn civil_year_and_number(m: u32) -> YearMonth
    requires { m < 492480 }
    ensures { (result.year ≡ (m + 10) / 12) × (result.number ≡ mid_term_number m) }
{
    let count = m + 10;
    YearMonth {
        year: (count / 12) as u16,
        number: (count % 12 + 1) as u8,
    }
}

// The first month of a solstice year.
pub fn solstice_first_month(year: u16) -> u32
    requires { SolsticeYearInRange year }
    ensures { result ≡ solstice_first_month year }
{
    235 * (year as u32 - 1) / 19
}

// The leap remainder of a solstice year.
pub fn leap_remainder(year: u16) -> u8
    requires { SolsticeYearInRange year }
    ensures { result ≡ leap_remainder year }
{
    (235 * (year as u32 - 1) % 19) as u8
}

// How many months a solstice year has: 13 at a leap remainder of 12 or more, else 12.
pub fn months_in_solstice_year(year: u16) -> u8
    requires { SolsticeYearInRange year }
    ensures { result ≡ months_in_solstice_year year }
{
    if leap_remainder(year) < 12 { 12 } else { 13 }
}

// The month with which a civil year opens; of the year after the last too.
pub fn civil_first_month(year: u16) -> u32
    requires { year ≤ 41041 }
    ensures { result ≡ civil_first_month year }
{
    if year < 1 {
        0
    } else {
        (235 * (year as u32) - 196) / 19
    }
}

// How many months a civil year has: those up to the next year's first, and in range.
pub fn months_in_civil_year(year: u16) -> u8
    requires { CivilYearInRange year }
    ensures { result ≡ months_in_civil_year year }
{
    let first = civil_first_month(year);
    let next = civil_first_month(year + 1);
    if next < 507600 {
        (next - first) as u8
    } else {
        (507600 - first) as u8
    }
}

// The civil year that a month is in. Why 214: civil year Y opens with the first month n for which 19 × n + 214 is 235 × Y or more.
pub fn civil_year_of_month(n: u32) -> u16
    requires { MonthInRange n }
    ensures { result ≡ civil_year_of_month n }
{
    ((19 * n + 214) / 235) as u16
}

// How many mid-terms fall on days before a month; whole days are compared.
fn mid_terms_before(n: u32) -> u32
    requires { n ≤ 507600 }
    ensures { result ≡ mid_terms_before n }
{
    (16 * month_start(n) + 486) / 487
}

// Whether a month is leap: no mid-term falls on any of its days.
pub fn is_leap(n: u32) -> bool
    requires { MonthInRange n }
    ensures { result ≡ leap n }
{
    mid_terms_before(n + 1) == mid_terms_before(n)
}

// The number of a month, that of the last mid-term before its end.
pub fn month_number(n: u32) -> u8
    requires { MonthInRange n }
    ensures { result ≡ month_number n }
{
    ((mid_terms_before(n + 1) - 1 + 10) % 12 + 1) as u8
}

// The number of a month that a date holds.
pub fn number_of(m: Month) -> u8
    ensures { result ≡ number_of m }
{
    match m {
        Month::Ordinary(k) => k,
        Month::Leap(k) => k,
    }
}

// Whether a month that a date holds is leap.
pub fn leap_mark(m: Month) -> bool
    ensures { result ≡ leap_mark m }
{
    match m {
        Month::Ordinary(_) => false,
        Month::Leap(_) => true,
    }
}

// A month as a date holds it, from its mark and its number.
// (A function by the name of docs/CALLS.md.)
pub fn marked(leap: bool, number: u8) -> Month
    ensures { result ≡ marked leap number }
{
    if leap {
        Month::Leap(number)
    } else {
        Month::Ordinary(number)
    }
}

// A month as a date holds it.
pub fn month_at(n: u32) -> Month
    requires { MonthInRange n }
    ensures { result ≡ month_at n }
{
    marked(is_leap(n), month_number(n))
}

// Whether a month is an eclipse month; a count without remainder belongs to the month already counted. In parts of which 2 to the 32nd are one
// eclipse a month adds 731,735,169 (135 times so many are a little more than 23): it is one where that made a whole.
pub fn is_eclipse(n: u32) -> bool
    requires { MonthInRange n }
    ensures { result ≡ eclipse n }
{
    731735169 * (n as u64 + 1) % 4294967296 < 731735169
}

// The printed list of a bu. That its 940 numerals follow the month rule is computed here, once for all.
fn printed_list() -> [u16; 940]
    ensures { FollowsMonthRule result }
{
    PRINTED
}

// An entry of the printed list.
pub fn printed_day(k: u16) -> u16
    requires { k < 940 }
    ensures { result ≡ month_start k }
{
    let list = printed_list();
    list[k as usize]
}

// What has gone by a part before a day's end: 940 times the day divided by 27,759, and one month more where the rest and the day's own 939
// parts make one, since the next month then starts on that very day. (Where they make none, taking a month off wraps round to more.)
fn gone_by(day: u32) -> Gone
    requires { DayInRange day }
    ensures { (27759 * result.months + result.parts ≡ 940 * day + 939) × (result.parts < 27759) }
{
    let parts = 940 * (day as u64);
    let n = (parts / 27759) as u32;
    let over = (parts % 27759) as u32 + 939;
    let less = std::num::wrapping_sub_u32(over, 27759);
    if less < over {
        Gone {
            months: n + 1,
            parts: less,
        }
    } else {
        Gone {
            months: n,
            parts: over,
        }
    }
}

// Where a day stands: the count of its month is how many have gone by.
pub fn stands(day: u32) -> Standing
    requires { DayInRange day }
    ensures { (result.month ≡ month_of_day day) × (month_start result.month + result.passed ≡ day) × (result.left + small_remainder result.month ≡ 939) }
{
    let gone = gone_by(day);
    let parts = gone.parts;
    Standing {
        month: gone.months,
        passed: parts / 940,
        left: parts % 940,
    }
}

// The month that a day is in.
pub fn month_of_day(day: u32) -> u32
    requires { DayInRange day }
    ensures { result ≡ month_of_day day }
{
    let at = stands(day);
    at.month
}
