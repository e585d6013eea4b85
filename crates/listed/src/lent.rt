// The same listing put into a lent buffer: item by item, each by its own call of `lines`, and what stands behind is left.
ghost use Rattle.std.specs.Prelude.{◌+◌, ◌*◌, ◌≤◌, length};
ghost use Rattle.sheet.specs.Sheet.{ranged, year_items, month_items, day_items};
ghost use Rattle.sheet.specs.Faults.{GoodList, GoodLists};
ghost use Rattle.fields.specs.Fields.{Put, each};
ghost use Rattle.penned.specs.Lines.{year_block, month_item, day_item, listing_of};

// The blocks of civil years.
fn put_years(years: &[u16], out: &mut [u8], at: usize) -> usize
    requires { GoodList (ranged year_items) years.now × (at + 674 * length years.now ≤ length out.old) }
    ensures { Put (674 * length years.now) out.old at (each year_block years.now)
        out.new result }
{
    let mut to = at;
    for &year in years {
        to = lines::put_year(year, out, to);
    }
    to
}

// The `MONTH` lines of month items.
fn put_month_items(months: &[u32], out: &mut [u8], at: usize) -> usize
    requires { GoodList (ranged month_items) months.now × (at + 54 * length months.now ≤ length out.old) }
    ensures { Put (54 * length months.now) out.old at (each month_item months.now)
        out.new result }
{
    let mut to = at;
    for &month in months {
        to = lines::put_month(month, out, to);
    }
    to
}

// The `DAY` lines of day items.
fn put_day_items(days: &[u32], out: &mut [u8], at: usize) -> usize
    requires { GoodList (ranged day_items) days.now × (at + 61 * length days.now ≤ length out.old) }
    ensures { Put (61 * length days.now) out.old at (each day_item days.now)
        out.new result }
{
    let mut to = at;
    for &day in days {
        to = lines::put_day(day, out, to);
    }
    to
}

// The listing of three lists: 674, 54 and 61 bytes at most for an item, and 1,000 items at most in each.
#[tactic(auto, unfolding(sheet::specs::Faults::GoodEach))]
pub fn put_lists(years: &[u16], months: &[u32], days: &[u32], out: &mut [u8]) -> usize
    requires { GoodLists (record { years = years.now; months = months.now; days = days.now }) × (789000 ≤ length out.old) }
    ensures { Put 789000 out.old 0
        (listing_of (record { years = years.now; months = months.now; days = days.now }))
        out.new result }
{
    let after_years = put_years(years, out, 0);
    let after_months = put_month_items(months, out, after_years);
    put_day_items(days, out, after_months)
}
