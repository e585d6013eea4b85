// Emending a misread slip: where no day of a window fits a reading, every day that disagrees with exactly one known field, with that field,
// what was read and what it should be, four numbers each in a lent list.
// A range is asked for in one word of a `requires` and by no type: rule's functions take plain numbers
// (docs/DECISIONS.md, 263).
#![tactic(auto)]

ghost use Rattle.std.specs.Prelude.{◌≡◌, ◌+◌, ◌-◌, ◌*◌, ◌≤◌, ◌<◌, true, cond, [], ◌∷◌, length};
ghost use Rattle.std.proofs.lemmas.List.Edits.{sets};
ghost use Rattle.rule.specs.Lists.{placed};
ghost use Rattle.rule.specs.Counts.{MonthInRange};
ghost use Rattle.rule.specs.Rule.{month_start};
ghost use Rattle.emending.specs.Faults.{place_number, fault_in, together, is_more, name_fault, number_fault, month_fault, day_fault, laid_out, days_out, emendations, NoneBetween};
ghost use Rattle.emending.specs.Emended.{EmendsReading};

use reading::{Field, Part, Reading, SearchError};

// The six fields of a reading, in the paper's order.
#[derive(Debug, Clone, Copy, PartialEq)]
enum Place {
    YearName,
    MonthNumber,
    LeapMark,
    DayOfMonth,
    DayName,
    FirstName,
}

// The field's number, 1 to 6, as an emendation is given.
impl From<Place> for u32 {
    ghost from_gives = { λ place number. number ≡ place_number place };

    fn from(place: Place) -> u32 {
        match place {
            Place::YearName => 1,
            Place::MonthNumber => 2,
            Place::LeapMark => 3,
            Place::DayOfMonth => 4,
            Place::DayName => 5,
            Place::FirstName => 6,
        }
    }
}

// What a reading disagrees in: in nothing; in one known field, what was read there and what is right; or in more.
// (Three cases: neither an Option nor a Result says them.)
#[derive(Debug, Clone, Copy, PartialEq)]
enum Fault {
    Without,
    One { place: Place, read: u32, right: u32 },
    More,
}

// The answer of an emendation: how many days fit; or how many emendations there are.
#[derive(Debug, Clone, Copy, PartialEq)]
pub enum Emended {
    Fits(u32),
    Are(u32),
}

// The fault of the field at a place, where it does not fit a value.
fn fault_in(place: Place, f: Field, value: u32) -> Fault
    ensures { result ≡ fault_in place f value }
{
    match f {
        Field::Known(k) => {
            if k == value {
                Fault::Without
            } else {
                Fault::One {
                    place,
                    read: k,
                    right: value,
                }
            }
        }
        Field::Unread => Fault::Without,
    }
}

// The faults of two parts together.
fn together(a: Fault, b: Fault) -> Fault
    ensures { result ≡ together a b }
{
    match (a, b) {
        (Fault::Without, _) => b,
        (Fault::One { .. }, Fault::Without) => a,
        _ => Fault::More,
    }
}

// Whether there is more than one fault.
fn is_more(a: Fault) -> bool
    ensures { result ≡ is_more a }
{
    matches!(a, Fault::More)
}

// The fault of a month's two names, of its year and of its first day.
// (As `number_fault`: two fields each, and the second is looked at only where the first allows it.)
fn name_fault(r: Reading, n: u32) -> Fault
    requires { MonthInRange n }
    ensures { result ≡ name_fault r n }
{
    let year = fault_in(
        Place::YearName,
        r.year_name,
        rule::year_name(rule::civil_year_of_month(n)) as u32,
    );
    let first = fault_in(
        Place::FirstName,
        r.first_name,
        rule::day_name(rule::month_start(n)) as u32,
    );
    together(year, first)
}

// The fault of a month's number and mark.
fn number_fault(r: Reading, n: u32) -> Fault
    requires { MonthInRange n }
    ensures { result ≡ number_fault r n }
{
    let number = fault_in(
        Place::MonthNumber,
        r.month_number,
        rule::month_number(n) as u32,
    );
    let mark = fault_in(
        Place::LeapMark,
        r.leap_mark,
        reading::mark_number(rule::is_leap(n)),
    );
    together(number, mark)
}

// The fault of what all days of a month share: looked at once, and no further where both names are at fault, which are the cheaper to find.
fn month_fault(r: Reading, n: u32) -> Fault
    requires { MonthInRange n }
    ensures { result ≡ month_fault r n }
{
    let names = name_fault(r, n);
    if is_more(names) {
        return Fault::More;
    }
    together(names, number_fault(r, n))
}

// The fault of a day's own two values, its month starting on a day.
fn day_fault(r: Reading, start: u32, day: u32) -> Fault
    requires { (start ≤ day) × (day < start + 30) }
    ensures { result ≡ day_fault r start day }
{
    together(
        fault_in(Place::DayOfMonth, r.day_of_month, day - start + 1),
        fault_in(Place::DayName, r.day_name, rule::day_name(day) as u32),
    )
}

// Four numbers put into the list at a place, or only counted; the place after them.
// (One walk counts and writes, as `write` says: one clause says both, and two walks would each need the laws of it.)
fn put_four(
    day: u32,
    i: u32,
    read: u32,
    value: u32,
    out: &mut [u32],
    at: usize,
    write: bool,
) -> usize
    requires { (at ≤ 59959440) × (write ≡ true → at + 4 ≤ length out.old) }
    ensures { (result ≡ at + 4) × (out.new ≡ cond write (sets out.old at (day ∷ i ∷ read ∷ value ∷ [])) out.old) }
{
    if !write {
        return at + 4;
    }
    out[at] = day;
    out[at + 1] = i;
    out[at + 2] = read;
    out[at + 3] = value;
    at + 4
}

// An emendation put into the list at a place, or only counted; the place after it. Nothing where there is not exactly one fault.
fn put_fault(a: Fault, day: u32, out: &mut [u32], at: usize, write: bool) -> usize
    requires { (at ≤ 59959440) × (write ≡ true → at + length (laid_out day a) ≤ length out.old) }
    ensures { (result ≡ at + length (laid_out day a)) × (out.new ≡ cond write (sets out.old at (laid_out day a)) out.old) }
{
    match a {
        Fault::Without => at,
        Fault::One { place, read, right } => put_four(
            day,
            u32::from(place),
            read,
            right,
            out,
            at,
            write,
        ),
        Fault::More => at,
    }
}

// The emendations of the days of a part whose month's own fault is given, put into the list from a place on, or only counted; the place after
// them.
fn emend_days(
    r: Reading,
    shared: Fault,
    part: Part,
    out: &mut [u32],
    at: usize,
    write: bool,
) -> usize
    requires { (at + 4 * (part.to - part.from) ≤ 59959440) × (write ≡ true → at + length (days_out r shared (month_start part.month) part.from (part.to - part.from)) ≤ length out.old) }
    ensures { (result ≡ at + length (days_out r shared (month_start part.month) part.from (part.to - part.from))) × (out.new ≡ cond write (sets out.old at (days_out r shared (month_start part.month) part.from (part.to - part.from))) out.old) }
{
    let start = rule::month_start(part.month);
    let mut k = at;
    for day in part.from..part.to {
        let own = day_fault(r, start, day);
        let all = together(shared, own);
        k = put_fault(all, day, out, k, write);
    }
    k
}

// The emendations of the days of a part, put into the list from a place on, or only counted; the place after them. A month with more than one
// fault of its own has none.
fn emend_month(r: Reading, part: Part, out: &mut [u32], at: usize, write: bool) -> usize
    requires { (at + 4 * (part.to - part.from) ≤ 59959440) × (write ≡ true → at + length (emendations r part.from (part.to - part.from)) ≤ length out.old) }
    ensures { (result ≡ at + length (emendations r part.from (part.to - part.from))) × (out.new ≡ cond write (sets out.old at (emendations r part.from (part.to - part.from))) out.old) }
{
    let shared = month_fault(r, part.month);
    if is_more(shared) {
        return at;
    }
    emend_days(r, shared, part, out, at, write)
}

// The first month from n on that has at most one fault of its own, or one that starts at `end` or after it. A loop of its own, so that the
// months without an emendation, nearly all, are passed over lightly; by hand, since it ends by a month's start and no range says that.
fn skip_months(r: Reading, n: u32, end: u32) -> u32
    requires { (n ≤ 507600) × (end ≤ 14989860) }
    ensures { (n ≤ result) × (result ≤ 507600) × NoneBetween r end n result }
{
    let mut m = n;
    let mut start = rule::month_start(n);
    while start < end {
        if !is_more(month_fault(r, m)) {
            return m;
        }
        m += 1;
        start = rule::month_start(m);
    }
    m
}

// The emendations of the days from `first` up to `end`, put into the front of the list, month by month, or only counted; how many numbers they
// are. A loop by hand: it goes on at the month that skip_months found, which no range says.
fn emend_window(r: Reading, first: u32, end: u32, out: &mut [u32], write: bool) -> usize
    requires { (first < end) × (end ≤ 14989860) × (write ≡ true → length (emendations r first (end - first)) ≤ length out.old) }
    ensures { (result ≡ length (emendations r first (end - first))) × (out.new ≡ cond write (placed (emendations r first (end - first)) out.old) out.old) }
{
    let mut k: usize = 0;
    let mut day = first;
    let mut n = rule::month_of_day(first);
    while day < end {
        let to = reading::part_end(n, end);
        let part = Part {
            month: n,
            from: day,
            to,
        };
        k = emend_month(r, part, out, k, write);
        n = skip_months(r, n + 1, end);
        day = reading::part_end(n - 1, end);
    }
    k
}

// Where a day of the window fits the reading, how many do; else every day that disagrees with exactly one known field, four numbers each at the
// front of the lent list. Only a list with fewer than four places for each day can be too short: then they are counted first.
pub fn emend(r: Reading, first: u32, last: u32, out: &mut [u32]) -> Result<Emended, SearchError>
    ensures { EmendsReading r first last out.old result out.new }
{
    reading::test_search(r, first, last)?;
    let end = last + 1;
    let fits = reading::count_window(r, first, end);
    if 0 < fits {
        return Ok(Emended::Fits(fits));
    }
    if out.len() < 4 * ((end - first) as usize) {
        let numbers = emend_window(r, first, end, out, false);
        if out.len() < numbers {
            return Err(SearchError::TooShort {
                total: (numbers / 4) as u32,
            });
        }
    }
    Ok(Emended::Are((emend_window(r, first, end, out, true) / 4) as u32))
}
