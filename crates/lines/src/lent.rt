// The same lines put into a lent buffer from a place on: what stands before and behind is left, and the next place is answered.
ghost use Rattle.std.specs.Prelude.{◌+◌, ◌≤◌, length};
ghost use Rattle.rule.specs.Counts.{CivilYearInRange, MonthInRange, DayInRange};
ghost use Rattle.rule.specs.Reasons.{reason_number};
ghost use Rattle.fields.specs.Fields.{Put, joined};
ghost use Rattle.penned.specs.Lines.{fields_of_month, fields_of_year, fields_of_day, year_block, month_item, day_item, refused_line};

use dates::Date;
use facts::{MonthFacts, YearFacts};
use fields::Text;
use rule::Reason;

// The six fields of a month's line.
pub fn put_month_fields(n: u32, f: MonthFacts, out: &mut [u8], at: usize) -> usize
    requires { at + 47 ≤ length out.old }
    ensures { Put 47 out.old at (joined (fields_of_month n f)) out.new result }
{
    let mut text = Text::<47>::new();
    super::write_month_fields(n, f, &mut text);
    fields::put_bytes(text.as_slice(), out, at)
}

// A `MONTH` line: the word, a space and the month's line.
pub fn put_month(n: u32, out: &mut [u8], at: usize) -> usize
    requires { MonthInRange n × (at + 54 ≤ length out.old) }
    ensures { Put 54 out.old at (month_item n) out.new result }
{
    let mut text = Text::<54>::new();
    super::write_month(n, &mut text);
    fields::put_bytes(text.as_slice(), out, at)
}

// The six fields of a civil year's header.
pub fn put_year_fields(year: u16, f: YearFacts, out: &mut [u8], at: usize) -> usize
    requires { at + 49 ≤ length out.old }
    ensures { Put 49 out.old at (joined (fields_of_year year f)) out.new result }
{
    let mut text = Text::<49>::new();
    super::write_year_fields(year, f, &mut text);
    fields::put_bytes(text.as_slice(), out, at)
}

// A civil year's block: its header, and one line a month.
pub fn put_year(year: u16, out: &mut [u8], at: usize) -> usize
    requires { CivilYearInRange year × (at + 674 ≤ length out.old) }
    ensures { Put 674 out.old at (year_block year) out.new result }
{
    let mut text = Text::<674>::new();
    super::write_year(year, &mut text);
    fields::put_bytes(text.as_slice(), out, at)
}

// The seven fields of the listing's `DAY` line.
pub fn put_day_fields(day: u32, d: Date, out: &mut [u8], at: usize) -> usize
    requires { at + 60 ≤ length out.old }
    ensures { Put 60 out.old at (joined (fields_of_day day d)) out.new result }
{
    let mut text = Text::<60>::new();
    super::write_day_fields(day, d, &mut text);
    fields::put_bytes(text.as_slice(), out, at)
}

// The listing's `DAY` line.
pub fn put_day(day: u32, out: &mut [u8], at: usize) -> usize
    requires { DayInRange day × (at + 61 ≤ length out.old) }
    ensures { Put 61 out.old at (day_item day) out.new result }
{
    let mut text = Text::<61>::new();
    super::write_day(day, &mut text);
    fields::put_bytes(text.as_slice(), out, at)
}

// A `REFUSED` line.
pub fn put_refused(why: Reason, out: &mut [u8], at: usize) -> usize
    requires { at + 19 ≤ length out.old }
    ensures { Put 19 out.old at (refused_line (reason_number why)) out.new result }
{
    let mut text = Text::<19>::new();
    super::write_refused(why, &mut text);
    fields::put_bytes(text.as_slice(), out, at)
}
