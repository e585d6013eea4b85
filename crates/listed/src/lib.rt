// The listing of a whole sheet, and the listing program's own code: a sheet is read from an input, its listing written to an
// output; and three lists' listing put into a lent buffer.
#![tactic(auto)]

ghost use Rattle.std.specs.Prelude.{◌+◌, ◌*◌, ◌≤◌, ◌≡◌, ◌++◌, length, OnOk};
ghost use Rattle.std.specs.Io.KnownBytes.{Appends, Consumes};
ghost use Rattle.sheet.specs.Sheet.{ranged, year_items, month_items, day_items};
ghost use Rattle.sheet.specs.Faults.{GoodList, GoodLists};
ghost use Rattle.fields.specs.Fields.{each};
ghost use Rattle.penned.specs.Lines.{year_block, month_item, day_item, listing_of, listing};
ghost use Rattle.listed.specs.Paper.{input_held, InputListed};

use fields::Text;
use std::io;
use std::io::{Read, Write};

mod lent;

pub use lent::put_lists;

// The blocks of civil years. Three loops: a trait over what differs would take longer than they do, and its method no `const N`.
fn write_years<const N: usize>(years: &[u16], text: &mut Text<N>)
    requires good { GoodList (ranged year_items) years.now }
    requires room { length text.old + 674 * length years.now ≤ N }
    ensures text { text.new ≡ text.old ++ each year_block years.now }
    ensures few { length text.new ≤ length text.old + 674 * length years.now }
{
    for &year in years {
        lines::write_year(year, text);
    }
}

// The `MONTH` lines of month items.
fn write_months<const N: usize>(months: &[u32], text: &mut Text<N>)
    requires good { GoodList (ranged month_items) months.now }
    requires room { length text.old + 54 * length months.now ≤ N }
    ensures text { text.new ≡ text.old ++ each month_item months.now }
    ensures few { length text.new ≤ length text.old + 54 * length months.now }
{
    for &month in months {
        lines::write_month(month, text);
    }
}

// The `DAY` lines of day items.
fn write_days<const N: usize>(days: &[u32], text: &mut Text<N>)
    requires good { GoodList (ranged day_items) days.now }
    requires room { length text.old + 61 * length days.now ≤ N }
    ensures text { text.new ≡ text.old ++ each day_item days.now }
    ensures few { length text.new ≤ length text.old + 61 * length days.now }
{
    for &day in days {
        lines::write_day(day, text);
    }
}

// The listing of three lists: 674, 54 and 61 bytes at most for an item, and 1,000 items at most in each.
#[tactic(auto, unfolding(sheet::specs::Faults::GoodEach, penned::specs::Lines::listing_of))]
pub fn write_lists<const N: usize>(years: &[u16], months: &[u32], days: &[u32], text: &mut Text<N>)
    requires good { GoodLists (record { years = years.now; months = months.now; days = days.now }) }
    requires room { length text.old + 789000 ≤ N }
    ensures text { text.new ≡ text.old ++ listing_of (record { years = years.now; months = months.now; days = days.now }) }
    ensures few { length text.new ≤ length text.old + 789000 }
{
    write_years(years, text);
    write_months(months, text);
    write_days(days, text);
}

// The listing of a sheet's bytes.
fn list_sheet<const N: usize>(bytes: &[u8], text: &mut Text<N>)
    requires { length text.old + 789000 ≤ N }
    ensures text { text.new ≡ text.old ++ listing bytes.now }
    ensures few { length text.new ≤ length text.old + 789000 }
{
    let mut years = [0u16; 1000];
    let mut months = [0u32; 1000];
    let mut days = [0u32; 1000];
    match sheet::read_sheet(bytes, &mut years, &mut months, &mut days) {
        Err(why) => lines::write_refused(why, text),
        Ok(c) => write_lists(
            &years[..c.years],
            &months[..c.months],
            &days[..c.days],
            text,
        ),
    }
}

// The longest sheet has 10,006 bytes; one byte more shows that an input is longer.
// (An array: no heap, docs/DECISIONS.md, 269.)
fn sheet_room() -> [u8; 10007]
    ensures { input_held ≡ length result }
{
    [0u8; 10007]
}

// The listing of the input of which n bytes were taken into a room: the front says what the whole does (FrontIsEnough).
// (The room and how much of it: `InputListed` is of such.)
fn list_taken<const N: usize>(bytes: &[u8], n: usize, text: &mut Text<N>)
    requires { (input_held ≡ length bytes.now) × (n ≤ length bytes.now) × (length text.old + 789000 ≤ N) }
    ensures { InputListed bytes.now n text.old text.new }
{
    list_sheet(&bytes[..n], text)
}

// A sheet's listing: of what was taken of an input, which has that of the whole. That all that fits is read no clause says.
// (As judging's `report_from`: each has its room, its text and its theorem `FrontIsEnough`; a closure over both would
// need a clause for each.)
pub fn list_from<R: Read, W: Write>(from: &mut R, to: &mut W) -> io::Result<()>
    ensures { (s : _) × Consumes (R.remaining from.old) (R.remaining from.new) s
        × OnOk result (Appends (W.contents to.old) (W.contents to.new) (listing s)) }
{
    let mut bytes = sheet_room();
    let mut text = Text::<789000>::new();
    let n = streams::read_full(from, &mut bytes);
    list_taken(&bytes, n, &mut text);
    to.write_all(text.as_slice())
}
