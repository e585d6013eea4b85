// A move of a date by any signed 64-bit number of days.
// A range is asked for in one word of a `requires` and by no type: rule's functions take plain numbers
// (docs/DECISIONS.md, 263).
#![tactic(auto)]

ghost use Rattle.std.specs.Prelude.{◌≡◌};
ghost use Rattle.rule.specs.Counts.{DayInRange};
ghost use Rattle.rule.specs.Reasons.{said};
ghost use Rattle.moves.specs.Moves.{way_of, stepped, MoveDate};

use dates::Date;
use rule::Reason;

// Which way a move goes: so many days on, or so many and one more back. (So the least number of 64 bits is no special case.)
#[derive(Debug, Clone, Copy, PartialEq, Eq)]
pub enum Way {
    On(u64),
    Back(u64),
}

impl From<i64> for Way {
    ghost from_gives = { λ n way. way ≡ way_of n };

    fn from(n: i64) -> Way {
        if n < 0 {
            Way::Back((!n) as u64)
        } else {
            Way::On(n as u64)
        }
    }
}

// The signed number, taken apart once, by the name of docs/CALLS.md.
pub fn way_of(n: i64) -> Way
    ensures { result ≡ way_of n }
{
    Way::from(n)
}

// The date so many days after a day in range, or reason 8.
fn on(day: u32, n: u64) -> Result<Date, Reason>
    requires { DayInRange day }
    ensures { said result ≡ stepped day (Way.On n) }
{
    if ((14989859 - day) as u64) < n {
        return Err(Reason::MoveOutOfRange);
    }
    Ok(dates::date_at(day + n as u32))
}

// The date so many days and one more before a day in range, or reason 8.
fn back(day: u32, n: u64) -> Result<Date, Reason>
    requires { DayInRange day }
    ensures { said result ≡ stepped day (Way.Back n) }
{
    if (day as u64) <= n {
        return Err(Reason::MoveOutOfRange);
    }
    Ok(dates::date_at(day - 1 - n as u32))
}

// A move: the date's own reasons first, then 8 where the move ends outside the range.
pub fn move_date(
    year: u32,
    number: u32,
    leap: bool,
    day_of_month: u32,
    days: i64,
) -> Result<Date, Reason>
    ensures { MoveDate year number leap day_of_month days result }
{
    let day = dates::day_of_date(year, number, leap, day_of_month)?;
    match way_of(days) {
        Way::On(n) => on(day, n),
        Way::Back(n) => back(day, n),
    }
}
