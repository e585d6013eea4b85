// The printed lines of "The listing program", written into a text, and by four public calls into a lent buffer; or put
// into a lent buffer from a place on. What they are is said in the crate `penned`; the listing of a whole sheet is the
// crate `listed`. A range is asked for in one word of a `requires` and by no type: rule's functions take plain numbers
// (docs/DECISIONS.md, 263).
#![tactic(auto)]

ghost use Rattle.std.specs.Prelude.{◌≡◌, true, ◌++◌, ◌+◌, ◌*◌, ◌≤◌, length};
ghost use Rattle.rule.specs.Counts.{CivilYearInRange, MonthInRange, DayInRange};
ghost use Rattle.rule.specs.Reasons.{reason_number, into_room};
ghost use Rattle.rule.specs.Lists.{those};
ghost use Rattle.fields.specs.Fields.{joined, each};
ghost use Rattle.penned.specs.Lines.{
  fields_of_month,
  fields_of_year,
  fields_of_day,
  month_lined,
  year_block,
  month_item,
  day_item,
  refused_line,
};
ghost use Rattle.penned.specs.Promises.{Printed, PrintYear, PrintMonthLine, PrintMonth, PrintDay};

use dates::Date;
use facts::{MonthFacts, YearFacts};
use fields::Text;
use rule::Reason;

mod lent;

pub use lent::{
    put_day, put_day_fields, put_month, put_month_fields, put_refused, put_year, put_year_fields,
};

// The six fields of a month's line.
#[tactic(auto, unfolding(fields::specs::Fields::followed))]
pub fn write_month_fields<const N: usize>(n: u32, f: MonthFacts, text: &mut Text<N>)
    requires { length text.old + 47 ≤ N }
    ensures text { text.new ≡ text.old ++ joined (fields_of_month n f) }
    ensures few { length text.new ≤ length text.old + 47 }
{
    text.number(n);
    text.field(rule::number_of(f.month) as u32);
    text.mark(rule::leap_mark(f.month), b'L');
    text.field(f.first_name as u32);
    text.field(f.month_length as u32);
    text.mark(f.eclipse, b'E');
}

// A month's line.
#[tactic(auto, unfolding(penned::specs::Lines::month_lined))]
fn write_month_line<const N: usize>(n: u32, text: &mut Text<N>)
    requires { MonthInRange n × (length text.old + 48 ≤ N) }
    ensures text { text.new ≡ text.old ++ month_lined n }
    ensures few { length text.new ≤ length text.old + 48 }
{
    write_month_fields(n, facts::month_facts_at(n), text);
    text.byte(b'\n');
}

// A `MONTH` line: the word, a space and the month's line.
#[tactic(auto, unfolding(penned::specs::Lines::month_item, penned::specs::Lines::month_lined, fields::specs::Fields::followed))]
pub fn write_month<const N: usize>(n: u32, text: &mut Text<N>)
    requires { MonthInRange n × (length text.old + 54 ≤ N) }
    ensures text { text.new ≡ text.old ++ month_item n }
    ensures few { length text.new ≤ length text.old + 54 }
{
    text.bytes(b"MONTH ");
    write_month_line(n, text);
}

// The six fields of a civil year's header.
#[tactic(auto, unfolding(fields::specs::Fields::followed))]
pub fn write_year_fields<const N: usize>(year: u16, f: YearFacts, text: &mut Text<N>)
    requires { length text.old + 49 ≤ N }
    ensures text { text.new ≡ text.old ++ joined (fields_of_year year f) }
    ensures few { length text.new ≤ length text.old + 49 }
{
    text.bytes(b"YEAR");
    text.field(year as u32);
    text.bytes(b" NAME");
    text.field(f.name as u32);
    text.bytes(b" MONTHS");
    text.field(f.months as u32);
}

// The lines of so many months from a month on.
fn write_months<const N: usize>(first: u32, months: u32, text: &mut Text<N>)
    requires in_range { first + months ≤ 507600 }
    requires room { length text.old + 48 * months ≤ N }
    ensures text { text.new ≡ text.old ++ each month_lined (those (λ n. true) first months) }
    ensures few { length text.new ≤ length text.old + 48 * months }
{
    for i in 0..months {
        write_month_line(first + i, text);
    }
}

// A civil year's block: its header, and one line a month.
#[tactic(auto, using(crate::proofs::Runs::listed), unfolding(penned::specs::Lines::year_block))]
pub fn write_year<const N: usize>(year: u16, text: &mut Text<N>)
    requires { CivilYearInRange year × (length text.old + 674 ≤ N) }
    ensures text { text.new ≡ text.old ++ year_block year }
    ensures few { length text.new ≤ length text.old + 674 }
{
    let f = facts::year_facts_at(year);
    write_year_fields(year, f, text);
    text.byte(b'\n');
    write_months(f.first_month, f.months as u32, text);
}

// The seven fields of the listing's `DAY` line.
#[tactic(auto, unfolding(fields::specs::Fields::followed))]
pub fn write_day_fields<const N: usize>(day: u32, d: Date, text: &mut Text<N>)
    requires { length text.old + 60 ≤ N }
    ensures text { text.new ≡ text.old ++ joined (fields_of_day day d) }
    ensures few { length text.new ≤ length text.old + 60 }
{
    text.bytes(b"DAY");
    text.field(day);
    text.field(d.year as u32);
    text.field(rule::number_of(d.month) as u32);
    text.mark(rule::leap_mark(d.month), b'L');
    text.field(d.day_of_month as u32);
    text.field(d.day_name as u32);
}

// The listing's `DAY` line.
#[tactic(auto, unfolding(penned::specs::Lines::day_item))]
pub fn write_day<const N: usize>(day: u32, text: &mut Text<N>)
    requires { DayInRange day × (length text.old + 61 ≤ N) }
    ensures text { text.new ≡ text.old ++ day_item day }
    ensures few { length text.new ≤ length text.old + 61 }
{
    write_day_fields(day, dates::date_at(day), text);
    text.byte(b'\n');
}

// A `REFUSED` line.
#[tactic(auto, unfolding(penned::specs::Lines::refused_line, fields::specs::Fields::followed))]
pub fn write_refused<const N: usize>(why: Reason, text: &mut Text<N>)
    requires { length text.old + 19 ≤ N }
    ensures text { text.new ≡ text.old ++ refused_line (reason_number why) }
    ensures few { length text.new ≤ length text.old + 19 }
{
    text.bytes(b"REFUSED");
    text.field(rule::reason_number(why) as u32);
    text.byte(b'\n');
}

// A whole text into a lent buffer, or reason 12 and nothing changed.
fn hand_over(s: &[u8], out: &mut [u8]) -> Result<usize, Reason>
    ensures { Printed (into_room (length out.old) s.now) out.old result out.new }
{
    if out.len() < s.len() {
        return Err(Reason::LentTooShort);
    }
    out[..s.len()].copy_from_slice(s);
    Ok(s.len())
}

// A civil year's block into a lent buffer: reason 1, then 12.
// (The four calls are not brought to one: each has its own limit, reason and room, and a closure over `Text` would
// need a clause for each.)
#[tactic(auto, unfolding(penned::specs::Promises::year_block_at))]
pub fn print_year(year: u32, out: &mut [u8]) -> Result<usize, Reason>
    ensures { PrintYear year out.old result out.new }
{
    if 41040 < year {
        return Err(Reason::NoSuchYear);
    }
    let mut text = Text::<674>::new();
    write_year(year as u16, &mut text);
    hand_over(text.as_slice(), out)
}

// A month's line into a lent buffer: reason 7, then 12.
#[tactic(auto, unfolding(penned::specs::Promises::month_line_at))]
pub fn print_month_line(n: u32, out: &mut [u8]) -> Result<usize, Reason>
    ensures { PrintMonthLine n out.old result out.new }
{
    if 507599 < n {
        return Err(Reason::NoSuchMonth);
    }
    let mut text = Text::<48>::new();
    write_month_line(n, &mut text);
    hand_over(text.as_slice(), out)
}

// A `MONTH` line into a lent buffer: reason 7, then 12.
#[tactic(auto, unfolding(penned::specs::Promises::month_item_at))]
pub fn print_month(n: u32, out: &mut [u8]) -> Result<usize, Reason>
    ensures { PrintMonth n out.old result out.new }
{
    if 507599 < n {
        return Err(Reason::NoSuchMonth);
    }
    let mut text = Text::<54>::new();
    write_month(n, &mut text);
    hand_over(text.as_slice(), out)
}

// The listing's `DAY` line into a lent buffer: reason 6, then 12.
#[tactic(auto, unfolding(penned::specs::Promises::day_item_at))]
pub fn print_day(day: u32, out: &mut [u8]) -> Result<usize, Reason>
    ensures { PrintDay day out.old result out.new }
{
    if 14989859 < day {
        return Err(Reason::NoSuchDay);
    }
    let mut text = Text::<61>::new();
    write_day(day, &mut text);
    hand_over(text.as_slice(), out)
}
