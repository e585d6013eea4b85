// The calls for C, declared in oesterwrok.h; what they promise is said in the crate `offered`. Each but `oes_dates` cuts its numbers down to
// 32 bits (but for the count of a conjunction, which the public call takes as it is), asks the public call and lays the answer flat. Nothing
// is decided here. `oes_dates` fills records of its own form.
#![tactic(auto)]

ghost use Rattle.std.specs.Prelude.{◌≡◌};
ghost use Rattle.capped.specs.Capped.{capped_field, capped_reading};
ghost use Rattle.offered.specs.Renewed.{CReadNew, CToNew, CToOld};
ghost use Rattle.offered.specs.Promises.{
  field_of,
  reading_of,
  CDateOfDay,
  CFillDates,
  CDayOfDate,
  CMoveDate,
  CSolsticeYear,
  CYearFacts,
  CMonthFacts,
  CClerkStart,
  CClerkStep,
  CClerkWalk,
  CClerkShow,
  CQuarterOf,
  CTermOf,
  CKthConjunction,
  CNextConjunction,
  CReducedPair,
  CSearch,
  CEmendsReading,
  CReadSheet,
  CWriteSheet,
  CPrintYear,
  CPrintMonthLine,
  CJudgeText,
  CPrintMonth,
  CPrintDay,
};
ghost use Rattle.offered.specs.Yearbook.{CCountsFigures};

use clerk::Clerk;
use flat::LaidFlat;
use offered::{
    CClerk, CConjunction, CDate, CDay, CEmended, CFigures, CFilled, CFound, CLength, CMonth,
    CNewCounts, CNext, CPair, CQuarter, CReading, CSheetCounts, CSolstice, CTerm, CYear,
};
use reading::{Field, Reading};

// Day to date.
#[unsafe(no_mangle)]
pub extern "C" fn oes_date_of_day(day: u64) -> CDate
    ensures { CDateOfDay day result }
{
    flat::flat(dates::date_of_day(capped::cap(day)))
}

// Date to day.
#[unsafe(no_mangle)]
pub extern "C" fn oes_day_of_date(year: u64, number: u64, leap: bool, day_of_month: u64) -> CDay
    ensures { CDayOfDate year number leap day_of_month result }
{
    flat::flat(dates::day_of_date(
        capped::cap(year),
        capped::cap(number),
        leap,
        capped::cap(day_of_month),
    ))
}

// A date moved by so many days, on or back.
#[unsafe(no_mangle)]
pub extern "C" fn oes_move_date(
    year: u64,
    number: u64,
    leap: bool,
    day_of_month: u64,
    days: i64,
) -> CDate
    ensures { CMoveDate year number leap day_of_month days result }
{
    flat::flat(moves::move_date(
        capped::cap(year),
        capped::cap(number),
        leap,
        capped::cap(day_of_month),
        days,
    ))
}

// A solstice year's facts.
#[unsafe(no_mangle)]
pub extern "C" fn oes_solstice_year(year: u64) -> CSolstice
    ensures { CSolsticeYear year result }
{
    flat::flat(facts::solstice_year(capped::cap(year)))
}

// A civil year's own facts.
#[unsafe(no_mangle)]
pub extern "C" fn oes_year_facts(year: u64) -> CYear
    ensures { CYearFacts year result }
{
    flat::flat(facts::year_facts(capped::cap(year)))
}

// A month by its count.
#[unsafe(no_mangle)]
pub extern "C" fn oes_month_facts(month: u64) -> CMonth
    ensures { CMonthFacts month result }
{
    flat::flat(facts::month_facts(capped::cap(month)))
}

// The clerk's own way: a start at a bu's head, a step, a start and so many steps, and what it shows.
#[unsafe(no_mangle)]
pub extern "C" fn oes_clerk_start(bu: u64) -> CClerk
    ensures { CClerkStart bu result }
{
    flat::flat(clerk::start(capped::cap(bu)))
}

#[unsafe(no_mangle)]
pub extern "C" fn oes_clerk_step(clerk: Clerk) -> CClerk
    ensures { CClerkStep clerk result }
{
    flat::flat(clerk::step(clerk))
}

#[unsafe(no_mangle)]
pub extern "C" fn oes_clerk_walk(bu: u64, steps: u64) -> CClerk
    ensures { CClerkWalk bu steps result }
{
    flat::flat(clerk::walk(capped::cap(bu), capped::cap(steps)))
}

#[unsafe(no_mangle)]
pub extern "C" fn oes_clerk_show(clerk: Clerk) -> CMonth
    ensures { CClerkShow clerk result }
{
    CMonth::given(clerk::show(clerk))
}

// A quarter of a month.
#[unsafe(no_mangle)]
pub extern "C" fn oes_quarter(month: u64, quarter: u64) -> CQuarter
    ensures { CQuarterOf month quarter result }
{
    flat::flat(facts::quarter(capped::cap(month), capped::cap(quarter)))
}

// A term of a solstice year.
#[unsafe(no_mangle)]
pub extern "C" fn oes_term(year: u64, term: u64) -> CTerm
    ensures { CTermOf year term result }
{
    flat::flat(facts::term(capped::cap(year), capped::cap(term)))
}

// The k-th conjunction of a planet; k goes as it is.
#[unsafe(no_mangle)]
pub extern "C" fn oes_conjunction(planet: u64, k: u64) -> CConjunction
    ensures { CKthConjunction planet k result }
{
    flat::flat(planets::kth_conjunction(capped::cap(planet), k))
}

// The first conjunction of a planet on or after a day.
#[unsafe(no_mangle)]
pub extern "C" fn oes_next_conjunction(planet: u64, day: u64) -> CNext
    ensures { CNextConjunction planet day result }
{
    flat::flat(planets::next_conjunction(capped::cap(planet), capped::cap(day)))
}

// A planet's pair, reduced from its two long counts.
#[unsafe(no_mangle)]
pub extern "C" fn oes_reduced_pair(planet: u64) -> CPair
    ensures { CReducedPair planet result }
{
    flat::flat(planets::reduced_pair(capped::cap(planet)))
}

// One thing that may be read: its value, or unread.
// (No `From`, nor below: neither type is of this crate.)
fn field_of(value: u64, known: bool) -> Field
    ensures { result ≡ capped_field (field_of value known) }
{
    if !known {
        return Field::Unread;
    }
    Field::Known(capped::cap(value))
}

// A reading.
fn reading_of(r: CReading) -> Reading
    ensures { result ≡ capped_reading (reading_of r) }
{
    let f1 = field_of(r.year_name, r.year_name_known);
    let f2 = field_of(r.month_number, r.month_number_known);
    let f3 = field_of(r.leap_mark, r.leap_mark_known);
    let f4 = field_of(r.day_of_month, r.day_of_month_known);
    let f5 = field_of(r.day_name, r.day_name_known);
    let f6 = field_of(r.first_name, r.first_name_known);
    Reading {
        year_name: f1,
        month_number: f2,
        leap_mark: f3,
        day_of_month: f4,
        day_name: f5,
        first_name: f6,
    }
}

// Every day of a window that fits a reading.
#[unsafe(no_mangle)]
pub extern "C" fn oes_search(reading: CReading, first: u64, last: u64, out: &mut [u32]) -> CFound
    ensures { CSearch reading first last out.old result out.new }
{
    let r = reading_of(reading);
    flat::flat_found(reading::search(r, capped::cap(first), capped::cap(last), out))
}

// A misread slip emended: how many days of a window fit a reading, or every day that disagrees with exactly one known field.
#[unsafe(no_mangle)]
pub extern "C" fn oes_emend(reading: CReading, first: u64, last: u64, out: &mut [u32]) -> CEmended
    ensures { CEmendsReading reading first last out.old result out.new }
{
    let r = reading_of(reading);
    flat::flat_emended(emending::emend(r, capped::cap(first), capped::cap(last), out))
}

// The figures of a range of civil years; the leap months by number and the days by name go into the two arrays.
#[unsafe(no_mangle)]
pub extern "C" fn oes_figures(
    first: u64,
    last: u64,
    leaps: &mut [u32; 12],
    names: &mut [u32; 60],
) -> CFigures
    ensures { CCountsFigures first last leaps.old names.old result leaps.new names.new }
{
    flat::flat(yearbook::figures_of(capped::cap(first), capped::cap(last), leaps, names))
}

// A drawer of days: the date of each, at the front of the lent records, filled as `drawer::fill_dates` fills them.
#[unsafe(no_mangle)]
pub extern "C" fn oes_dates(days: &[u32], out: &mut [CDate]) -> CFilled
    ensures { CFillDates days.now out.old result out.new }
{
    let answer = drawer::drawer_at(days, out.len());
    let Ok(_) = answer else {
        return flat::flat_filled(answer);
    };
    let mut shared = drawer::no_month();
    for (i, &day) in days.iter().enumerate() {
        if drawer::lies_in(shared, day) {
            let at = shared.at;
            out[i] = out[at];
            out[i].day_of_month = flat::flat_day_of_month_in(shared, day);
            out[i].day_name = flat::flat_day_name(day);
        } else {
            let date = dates::date_at(day);
            shared = drawer::shared_at(date, day, i);
            out[i] = CDate::given(date);
        }
    }
    flat::flat_filled(answer)
}

// A sheet read.
#[unsafe(no_mangle)]
pub extern "C" fn oes_read_sheet(
    bytes: &[u8],
    years: &mut [u16],
    months: &mut [u32],
    days: &mut [u32],
) -> CSheetCounts
    ensures { CReadSheet bytes.now years.old months.old days.old result
        years.new months.new days.new }
{
    flat::flat(sheet::read_sheet(bytes, years, months, days))
}

// A sheet written.
#[unsafe(no_mangle)]
pub extern "C" fn oes_write_sheet(
    years: &[u16],
    months: &[u32],
    days: &[u32],
    out: &mut [u8],
) -> CLength
    ensures { CWriteSheet years.now months.now days.now out.old result
        out.new }
{
    flat::flat(sheet::write_sheet(years, months, days, out))
}

// A sheet of the new form read.
#[unsafe(no_mangle)]
pub extern "C" fn oes_read_new(
    bytes: &[u8],
    years: &mut [u16],
    months: &mut [u32],
    days: &mut [u32],
    readings: &mut [u32],
) -> CNewCounts
    ensures { CReadNew bytes.now years.old months.old days.old readings.old result
        years.new months.new days.new readings.new }
{
    flat::flat(newsheet::read_new(bytes, years, months, days, readings))
}

// A sheet converted to the new form, and to the old one.
#[unsafe(no_mangle)]
pub extern "C" fn oes_to_new(bytes: &[u8], out: &mut [u8]) -> CLength
    ensures { CToNew bytes.now out.old result out.new }
{
    flat::flat(newsheet::to_new(bytes, out))
}

#[unsafe(no_mangle)]
pub extern "C" fn oes_to_old(bytes: &[u8], out: &mut [u8]) -> CLength
    ensures { CToOld bytes.now out.old result out.new }
{
    flat::flat(newsheet::to_old(bytes, out))
}

// A civil year's block, a month's line, a `MONTH` line, a `DAY` line.
#[unsafe(no_mangle)]
pub extern "C" fn oes_print_year(year: u64, out: &mut [u8]) -> CLength
    ensures { CPrintYear year out.old result out.new }
{
    flat::flat(lines::print_year(capped::cap(year), out))
}

#[unsafe(no_mangle)]
pub extern "C" fn oes_print_month_line(month: u64, out: &mut [u8]) -> CLength
    ensures { CPrintMonthLine month out.old result out.new }
{
    flat::flat(lines::print_month_line(capped::cap(month), out))
}

#[unsafe(no_mangle)]
pub extern "C" fn oes_print_month(month: u64, out: &mut [u8]) -> CLength
    ensures { CPrintMonth month out.old result out.new }
{
    flat::flat(lines::print_month(capped::cap(month), out))
}

#[unsafe(no_mangle)]
pub extern "C" fn oes_print_day(day: u64, out: &mut [u8]) -> CLength
    ensures { CPrintDay day out.old result out.new }
{
    flat::flat(lines::print_day(capped::cap(day), out))
}

// The verdicts on a text's lines.
#[unsafe(no_mangle)]
pub extern "C" fn oes_judge_text(text: &[u8], out: &mut [u8]) -> CLength
    ensures { CJudgeText text.now out.old result out.new }
{
    flat::flat(concordance::judge_text(text, out))
}
