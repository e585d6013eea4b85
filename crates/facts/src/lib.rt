// The facts of a year and of a month: a solstice year's place and months, a civil year's own, a month by its count, a quarter, a term.
// A range is asked for in one word of a `requires` and by no type: rule's functions take plain numbers
// (docs/DECISIONS.md, 263).
#![tactic(auto)]

ghost use Rattle.std.specs.Prelude.{◌≡◌, ◌+◌, ◌≤◌};
ghost use Rattle.rule.specs.Counts.{SolsticeYearInRange, CivilYearInRange, MonthInRange};
ghost use Rattle.rule.specs.Lists.{those};
ghost use Rattle.rule.specs.Rule.{leap};
ghost use Rattle.facts.specs.Facts.{solstice_year, first_of, year_facts, month_facts};
ghost use Rattle.facts.specs.Promises.{SolsticeYearFacts, YearOwnFacts, MonthByCount, QuarterOfMonth, TermOfYear};

use rule::{Month, Quarter, Reason, Term};

// A solstice year: its place, its bu's head name, its first month, its leap remainder, and 12 or 13.
#[derive(Debug, Clone, Copy, PartialEq)]
pub struct SolsticeYear {
    pub ji: u8,
    pub bu: u8,
    pub year_in_bu: u8,
    pub head_name: u8,
    pub first_month: u32,
    pub leap_remainder: u8,
    pub months: u8,
}

// A civil year's leap month: its number and its month count.
#[derive(Debug, Clone, Copy, PartialEq)]
pub struct LeapMonth {
    pub number: u8,
    pub month: u32,
}

// A civil year's own: its name, the months that it lists, and its leap month, if it has one.
#[derive(Debug, Clone, Copy, PartialEq)]
pub struct YearFacts {
    pub name: u8,
    pub first_month: u32,
    pub months: u8,
    pub leap_month: Option<LeapMonth>,
}

// A month: number with leap mark, first day, small remainder, length, first day's name, eclipse mark.
#[derive(Debug, Clone, Copy, PartialEq)]
pub struct MonthFacts {
    pub month: Month,
    pub first_day: u32,
    pub small_remainder: u16,
    pub month_length: u8,
    pub first_name: u8,
    pub eclipse: bool,
}

// The facts of a solstice year in range.
fn solstice_year_at(year: u16) -> SolsticeYear
    requires { SolsticeYearInRange year }
    ensures { result ≡ solstice_year year }
{
    let p = rule::place_of(year);
    let b = p.bu;
    SolsticeYear {
        ji: p.ji,
        bu: b,
        year_in_bu: p.year_in_bu,
        head_name: rule::head_name(b),
        first_month: rule::solstice_first_month(year),
        leap_remainder: rule::leap_remainder(year),
        months: rule::months_in_solstice_year(year),
    }
}

// A solstice year's facts, or reason 1.
pub fn solstice_year(year: u32) -> Result<SolsticeYear, Reason>
    ensures { SolsticeYearFacts year result }
{
    if !rule::in_range(1, 41040, year) {
        return Err(Reason::NoSuchYear);
    }
    Ok(solstice_year_at(year as u16))
}

// The first leap month among so many from a month on.
fn leap_among(first: u32, months: u32) -> Option<LeapMonth>
    requires { first + months ≤ 507600 }
    ensures { result ≡ first_of (those leap first months) }
{
    for month in first..first + months {
        if rule::is_leap(month) {
            return Some(LeapMonth {
                number: rule::month_number(month),
                month: month,
            });
        }
    }
    None
}

// The own facts of a civil year in range. Whoever lists a year asks here.
pub fn year_facts_at(year: u16) -> YearFacts
    requires { CivilYearInRange year }
    ensures { result ≡ year_facts year }
{
    let first = rule::civil_first_month(year);
    let months = rule::months_in_civil_year(year);
    let leap_month = leap_among(first, months as u32);
    YearFacts {
        name: rule::year_name(year),
        first_month: first,
        months: months,
        leap_month: leap_month,
    }
}

// A civil year's own facts, or reason 1.
pub fn year_facts(year: u32) -> Result<YearFacts, Reason>
    ensures { YearOwnFacts year result }
{
    if 41040 < year {
        return Err(Reason::NoSuchYear);
    }
    Ok(year_facts_at(year as u16))
}

// The facts of a month in range. Whoever lists a month asks here.
pub fn month_facts_at(n: u32) -> MonthFacts
    requires { MonthInRange n }
    ensures { result ≡ month_facts n }
{
    let month = rule::month_at(n);
    let first_day = rule::month_start(n);
    MonthFacts {
        month: month,
        first_day: first_day,
        small_remainder: rule::small_remainder(n),
        month_length: rule::month_length(n),
        first_name: rule::day_name(first_day),
        eclipse: rule::is_eclipse(n),
    }
}

// A month by its count, or reason 7.
pub fn month_facts(n: u32) -> Result<MonthFacts, Reason>
    ensures { MonthByCount n result }
{
    if 507599 < n {
        return Err(Reason::NoSuchMonth);
    }
    Ok(month_facts_at(n))
}

// A quarter of a month: reason 7, then 15.
pub fn quarter(n: u32, q: u32) -> Result<Quarter, Reason>
    ensures { QuarterOfMonth n q result }
{
    if 507599 < n {
        Err(Reason::NoSuchMonth)
    } else if 3 < q {
        Err(Reason::NoSuchTermOrQuarter)
    } else {
        Ok(rule::quarter_of(n, q as u8))
    }
}

// A term of a solstice year: reason 1, then 15.
pub fn term(year: u32, k: u32) -> Result<Term, Reason>
    ensures { TermOfYear year k result }
{
    if !rule::in_range(1, 41040, year) {
        return Err(Reason::NoSuchYear);
    }
    if 23 < k {
        return Err(Reason::NoSuchTermOrQuarter);
    }
    Ok(rule::term_of(24 * (year - 1) + k))
}
