// Answers laid flat for C, each into its struct of the crate `offered`: what is given with reason 0, or the reason and the rest nought.
// Numbers are widened, and nothing is decided.
// A range is asked for in one word of a `requires` and by no type: rule's functions take plain numbers
// (docs/DECISIONS.md, 263).
#![tactic(auto)]

ghost use Rattle.std.specs.Prelude.{◌≡◌, ℕ, ◌+◌, ◌-◌};
ghost use Rattle.rule.specs.Counts.{DayInRange, day_name};
ghost use Rattle.rule.specs.Reasons.{said};
ghost use Rattle.planets.specs.Planets.{phase_number};
ghost use Rattle.reading.specs.Search.{said_found};
ghost use Rattle.drawer.specs.Drawer.{said_filled, drawer_at};
ghost use Rattle.drawer.specs.Shared.{IsShared, Holds};
ghost use Rattle.offered.specs.Yearbook.{given_figures, no_figures};
ghost use Rattle.offered.specs.Renewed.{given_four, no_four};
ghost use Rattle.offered.specs.Flat.{
  flat,
  given_date,
  no_date,
  given_day,
  no_day,
  given_solstice,
  no_solstice,
  given_year,
  no_year,
  given_month,
  no_month,
  given_clerk,
  no_clerk,
  given_quarter,
  no_quarter,
  given_term,
  no_term,
  given_conjunction,
  no_conjunction,
  given_next,
  no_next,
  given_pair,
  no_pair,
  given_counts,
  no_counts,
  given_length,
  no_length,
  flat_found,
  flat_emended,
  flat_filled,
};

use clerk::Clerk;
use dates::Date;
use drawer::{DrawerError, Shared};
use emending::Emended;
use facts::{MonthFacts, SolsticeYear, YearFacts};
use newsheet::FourCounts;
use offered::{
    CClerk, CConjunction, CDate, CDay, CEmended, CFigures, CFilled, CFound, CLength, CMonth,
    CNewCounts, CNext, CPair, CQuarter, CSheetCounts, CSolstice, CTerm, CYear,
};
use planets::{Conjunction, Next, Pair, Phase};
use reading::SearchError;
use rule::{Quarter, Reason, Term};
use sheet::Counted;
use yearbook::Figures;

// A struct for C, into which what is given or a reason alone is laid.
pub trait LaidFlat: Copy {
    type Given: Copy;

    ghost given: { Self.Given → Self };

    ghost bare: { ℕ → Self };

    // What is given, with reason 0.
    fn given(x: Self::Given) -> Self
        ensures { result ≡ given x };

    // A reason, and the rest nought.
    fn bare(reason: u32) -> Self
        ensures { result ≡ bare reason };
}

// An answer laid flat.
pub fn flat<F: LaidFlat>(answer: Result<F::Given, Reason>) -> F
    ensures { result ≡ flat F.given F.bare (said answer) }
{
    match answer {
        Ok(x) => F::given(x),
        Err(why) => F::bare(rule::reason_number(why) as u32),
    }
}

// A date.
impl LaidFlat for CDate {
    type Given = Date;

    ghost given = { given_date };

    ghost bare = { no_date };

    fn given(d: Date) -> CDate {
        let m = d.month;
        CDate {
            reason: 0,
            year: d.year as u32,
            number: rule::number_of(m) as u32,
            leap: rule::leap_mark(m),
            day_of_month: d.day_of_month as u32,
            month_length: d.month_length as u32,
            day_name: d.day_name as u32,
            year_name: d.year_name as u32,
            ji: d.ji as u32,
            bu: d.bu as u32,
            year_in_bu: d.year_in_bu as u32,
            eclipse: d.eclipse,
        }
    }

    fn bare(reason: u32) -> CDate {
        CDate {
            reason,
            year: 0,
            number: 0,
            leap: false,
            day_of_month: 0,
            month_length: 0,
            day_name: 0,
            year_name: 0,
            ji: 0,
            bu: 0,
            year_in_bu: 0,
            eclipse: false,
        }
    }
}

// A day.
impl LaidFlat for CDay {
    type Given = u32;

    ghost given = { given_day };

    ghost bare = { no_day };

    fn given(d: u32) -> CDay {
        CDay { reason: 0, day: d }
    }

    fn bare(reason: u32) -> CDay {
        CDay { reason, day: 0 }
    }
}

// A solstice year.
impl LaidFlat for CSolstice {
    type Given = SolsticeYear;

    ghost given = { given_solstice };

    ghost bare = { no_solstice };

    fn given(s: SolsticeYear) -> CSolstice {
        CSolstice {
            reason: 0,
            ji: s.ji as u32,
            bu: s.bu as u32,
            year_in_bu: s.year_in_bu as u32,
            head_name: s.head_name as u32,
            first_month: s.first_month,
            leap_remainder: s.leap_remainder as u32,
            months: s.months as u32,
        }
    }

    fn bare(reason: u32) -> CSolstice {
        CSolstice {
            reason,
            ji: 0,
            bu: 0,
            year_in_bu: 0,
            head_name: 0,
            first_month: 0,
            leap_remainder: 0,
            months: 0,
        }
    }
}

// A civil year's own.
impl LaidFlat for CYear {
    type Given = YearFacts;

    ghost given = { given_year };

    ghost bare = { no_year };

    fn given(y: YearFacts) -> CYear {
        match y.leap_month {
            None => CYear {
                reason: 0,
                name: y.name as u32,
                first_month: y.first_month,
                months: y.months as u32,
                has_leap: false,
                leap_number: 0,
                leap_month: 0,
            },
            Some(leap) => CYear {
                reason: 0,
                name: y.name as u32,
                first_month: y.first_month,
                months: y.months as u32,
                has_leap: true,
                leap_number: leap.number as u32,
                leap_month: leap.month,
            },
        }
    }

    fn bare(reason: u32) -> CYear {
        CYear {
            reason,
            name: 0,
            first_month: 0,
            months: 0,
            has_leap: false,
            leap_number: 0,
            leap_month: 0,
        }
    }
}

// A month; what the clerk shows is laid flat as it is given.
impl LaidFlat for CMonth {
    type Given = MonthFacts;

    ghost given = { given_month };

    ghost bare = { no_month };

    fn given(f: MonthFacts) -> CMonth {
        let m = f.month;
        CMonth {
            reason: 0,
            number: rule::number_of(m) as u32,
            leap: rule::leap_mark(m),
            first_day: f.first_day,
            small_remainder: f.small_remainder as u32,
            month_length: f.month_length as u32,
            first_name: f.first_name as u32,
            eclipse: f.eclipse,
        }
    }

    fn bare(reason: u32) -> CMonth {
        CMonth {
            reason,
            number: 0,
            leap: false,
            first_day: 0,
            small_remainder: 0,
            month_length: 0,
            first_name: 0,
            eclipse: false,
        }
    }
}

// The clerk at a month.
impl LaidFlat for CClerk {
    type Given = Clerk;

    ghost given = { given_clerk };

    ghost bare = { no_clerk };

    fn given(c: Clerk) -> CClerk {
        CClerk {
            reason: 0,
            clerk: c,
        }
    }

    fn bare(reason: u32) -> CClerk {
        CClerk {
            reason,
            clerk: Clerk {
                month_count: 0,
                first_day: 0,
                mid_term_day: 0,
                small_remainder: 0,
                number: 0,
                leap: false,
                month_length: 0,
                first_name: 0,
                eclipse: false,
                eclipse_remainder: 0,
                mid_term_parts: 0,
            },
        }
    }
}

// A quarter.
impl LaidFlat for CQuarter {
    type Given = Quarter;

    ghost given = { given_quarter };

    ghost bare = { no_quarter };

    fn given(q: Quarter) -> CQuarter {
        CQuarter {
            reason: 0,
            day: q.day,
            parts: q.parts as u32,
        }
    }

    fn bare(reason: u32) -> CQuarter {
        CQuarter {
            reason,
            day: 0,
            parts: 0,
        }
    }
}

// A term.
impl LaidFlat for CTerm {
    type Given = Term;

    ghost given = { given_term };

    ghost bare = { no_term };

    fn given(t: Term) -> CTerm {
        CTerm {
            reason: 0,
            day: t.day,
            parts: t.parts as u32,
        }
    }

    fn bare(reason: u32) -> CTerm {
        CTerm {
            reason,
            day: 0,
            parts: 0,
        }
    }
}

// The number of a phase: 1 a morning one, 2 an evening one, 0 neither.
// (No `From`: neither type is of this crate.)
fn phase_number(p: Phase) -> u32
    ensures { result ≡ phase_number p }
{
    match p {
        Phase::Morning => 1,
        Phase::Evening => 2,
        Phase::Neither => 0,
    }
}

// A conjunction.
impl LaidFlat for CConjunction {
    type Given = Conjunction;

    ghost given = { given_conjunction };

    ghost bare = { no_conjunction };

    fn given(c: Conjunction) -> CConjunction {
        CConjunction {
            reason: 0,
            day: c.day,
            parts: c.parts,
            divisor: c.divisor,
            phase: phase_number(c.phase),
        }
    }

    fn bare(reason: u32) -> CConjunction {
        CConjunction {
            reason,
            day: 0,
            parts: 0,
            divisor: 0,
            phase: 0,
        }
    }
}

// The first conjunction on or after a day.
impl LaidFlat for CNext {
    type Given = Next;

    ghost given = { given_next };

    ghost bare = { no_next };

    fn given(n: Next) -> CNext {
        let laid = CConjunction::given(n.conjunction);
        CNext {
            reason: 0,
            k: n.k,
            day: laid.day,
            parts: laid.parts,
            divisor: laid.divisor,
            phase: laid.phase,
        }
    }

    fn bare(reason: u32) -> CNext {
        CNext {
            reason,
            k: 0,
            day: 0,
            parts: 0,
            divisor: 0,
            phase: 0,
        }
    }
}

// A planet's pair.
impl LaidFlat for CPair {
    type Given = Pair;

    ghost given = { given_pair };

    ghost bare = { no_pair };

    fn given(p: Pair) -> CPair {
        CPair {
            reason: 0,
            years: p.years,
            conjunctions: p.conjunctions,
        }
    }

    fn bare(reason: u32) -> CPair {
        CPair {
            reason,
            years: 0,
            conjunctions: 0,
        }
    }
}

// The figures of a range of civil years.
impl LaidFlat for CFigures {
    type Given = Figures;

    ghost given = { given_figures };

    ghost bare = { no_figures };

    fn given(f: Figures) -> CFigures {
        CFigures {
            reason: 0,
            big: f.big,
            small: f.small,
            pairs: f.pairs,
            eclipses: f.eclipses,
        }
    }

    fn bare(reason: u32) -> CFigures {
        CFigures {
            reason,
            big: 0,
            small: 0,
            pairs: 0,
            eclipses: 0,
        }
    }
}

// A sheet's counts.
impl LaidFlat for CSheetCounts {
    type Given = Counted;

    ghost given = { given_counts };

    ghost bare = { no_counts };

    fn given(c: Counted) -> CSheetCounts {
        CSheetCounts {
            reason: 0,
            years: c.years,
            months: c.months,
            days: c.days,
        }
    }

    fn bare(reason: u32) -> CSheetCounts {
        CSheetCounts {
            reason,
            years: 0,
            months: 0,
            days: 0,
        }
    }
}

// The counts of a sheet of the new form.
impl LaidFlat for CNewCounts {
    type Given = FourCounts;

    ghost given = { given_four };

    ghost bare = { no_four };

    fn given(c: FourCounts) -> CNewCounts {
        let three = c.three;
        CNewCounts {
            reason: 0,
            years: three.years,
            months: three.months,
            days: three.days,
            readings: c.readings,
        }
    }

    fn bare(reason: u32) -> CNewCounts {
        CNewCounts {
            reason,
            years: 0,
            months: 0,
            days: 0,
            readings: 0,
        }
    }
}

// A length.
impl LaidFlat for CLength {
    type Given = usize;

    ghost given = { given_length };

    ghost bare = { no_length };

    fn given(n: usize) -> CLength {
        CLength {
            reason: 0,
            length: n,
        }
    }

    fn bare(reason: u32) -> CLength {
        CLength { reason, length: 0 }
    }
}

// What a search found: a refusal with reason 12 says one number more, the true total.
// (No `From`, nor of the two below: neither type is of this crate; no `LaidFlat`: a refusal says one number more.)
pub fn flat_found(a: Result<u32, SearchError>) -> CFound
    ensures { result ≡ flat_found (said_found a) }
{
    match a {
        Ok(n) => CFound {
            reason: 0,
            total: n,
        },
        Err(SearchError::TooShort { total }) => CFound {
            reason: 12,
            total: total,
        },
        Err(SearchError::Refused(why)) => CFound {
            reason: rule::reason_number(why) as u32,
            total: 0,
        },
    }
}

// The same of an emendation, and whether what is counted are days that fit.
pub fn flat_emended(a: Result<Emended, SearchError>) -> CEmended
    ensures { result ≡ flat_emended (said_found a) }
{
    match a {
        Ok(Emended::Fits(n)) => CEmended {
            reason: 0,
            fits: true,
            total: n,
        },
        Ok(Emended::Are(n)) => CEmended {
            reason: 0,
            fits: false,
            total: n,
        },
        Err(SearchError::TooShort { total }) => CEmended {
            reason: 12,
            fits: false,
            total: total,
        },
        Err(SearchError::Refused(why)) => CEmended {
            reason: rule::reason_number(why) as u32,
            fits: false,
            total: 0,
        },
    }
}

// How many records of a drawer are filled: a refusal with reason 6 says the place of the first day out of range.
pub fn flat_filled(a: Result<u32, DrawerError>) -> CFilled
    ensures { result ≡ flat_filled (said_filled a) }
{
    match a {
        Ok(n) => CFilled {
            reason: 0,
            count: n,
            place: 0,
        },
        Err(DrawerError::BadDay { place }) => CFilled {
            reason: 6,
            count: 0,
            place: place,
        },
        Err(DrawerError::Refused(why)) => CFilled {
            reason: rule::reason_number(why) as u32,
            count: 0,
            place: 0,
        },
    }
}

// The answer for a drawer, laid flat, and how many records are filled: none where the drawer comes back.
pub fn flat_drawer_at(days: &[u32], room: usize) -> CFilled
    ensures { result ≡ flat_filled (drawer_at days.now room) }
{
    flat_filled(drawer::drawer_at(days, room))
}

pub fn flat_to_fill(answer: CFilled) -> usize
    ensures { result ≡ answer.count }
{
    answer.count as usize
}

// The day of month of a day of a kept month, and a day's name: the two fields in which the records of a month's days differ.
// (`oes_dates` fills C's record with this and the next; the width is C's.)
pub fn flat_day_of_month_in(shared: Shared, day: u32) -> u32
    requires { IsShared shared × Holds shared.start shared.month_length day }
    ensures { result ≡ day - shared.start + 1 }
{
    drawer::day_of_month_in(shared, day) as u32
}

pub fn flat_day_name(day: u32) -> u32
    requires { DayInRange day }
    ensures { result ≡ day_name day }
{
    rule::day_name_at(day) as u32
}
