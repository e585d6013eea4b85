// The same answers put into a lent buffer from a place on: each is written into a small text, and its bytes are put. The days of a search and the
// emendations go over line by line.
ghost use Rattle.std.specs.Prelude.{[], ◌∷◌, ℕ, ◌+◌, ◌*◌, ◌≤◌, ◌<◌, length, get_or, take};
ghost use Rattle.rule.specs.Counts.{DayInRange};
ghost use Rattle.rule.specs.Reasons.{reason_number};
ghost use Rattle.fields.specs.Fields.{Put, decimal, lined, each};
ghost use Rattle.told.specs.Answers.{
  refused_text,
  place_text,
  year_text,
  month_text,
  quarter_text,
  term_text,
  conjunction_text,
  next_text,
  pair_text,
  day_text,
  day_line,
  date_text,
  move_text,
  places,
  search_text,
  line_from,
  emendation_lines,
  emend_text,
  clerk_text,
};
ghost use Rattle.told.specs.Yearbook.{figures_text};

use emending::Emended;
use fields::Text;
use reading::{Reading, SearchError};
use rule::Reason;

// The answer to `TERM solstice-year k`.
pub fn answer_term(year: u32, k: u32, out: &mut [u8], at: usize) -> usize
    requires { at + 120 ≤ length out.old }
    ensures { Put 120 out.old at (term_text year k) out.new result }
{
    let mut text = Text::<120>::new();
    super::answer_term(year, k, &mut text);
    fields::put_bytes(text.as_slice(), out, at)
}

// The answer to `QUARTER month q`.
pub fn answer_quarter(n: u32, q: u32, out: &mut [u8], at: usize) -> usize
    requires { at + 120 ≤ length out.old }
    ensures { Put 120 out.old at (quarter_text n q) out.new result }
{
    let mut text = Text::<120>::new();
    super::answer_quarter(n, q, &mut text);
    fields::put_bytes(text.as_slice(), out, at)
}

// The answer to `PLACE solstice-year`.
pub fn answer_place(year: u32, out: &mut [u8], at: usize) -> usize
    requires { at + 120 ≤ length out.old }
    ensures { Put 120 out.old at (place_text year) out.new result }
{
    let mut text = Text::<120>::new();
    super::answer_place(year, &mut text);
    fields::put_bytes(text.as_slice(), out, at)
}

// The answer to `MONTH count`.
pub fn answer_month(n: u32, out: &mut [u8], at: usize) -> usize
    requires { at + 120 ≤ length out.old }
    ensures { Put 120 out.old at (month_text n) out.new result }
{
    let mut text = Text::<120>::new();
    super::answer_month(n, &mut text);
    fields::put_bytes(text.as_slice(), out, at)
}

// The answer to `YEAR year`.
pub fn answer_year(year: u32, out: &mut [u8], at: usize) -> usize
    requires { at + 120 ≤ length out.old }
    ensures { Put 120 out.old at (year_text year) out.new result }
{
    let mut text = Text::<120>::new();
    super::answer_year(year, &mut text);
    fields::put_bytes(text.as_slice(), out, at)
}

// The answer to `CONJUNCTION planet k`.
pub fn answer_conjunction(planet: u32, k: u32, out: &mut [u8], at: usize) -> usize
    requires { at + 120 ≤ length out.old }
    ensures { Put 120 out.old at (conjunction_text planet k) out.new result }
{
    let mut text = Text::<120>::new();
    super::answer_conjunction(planet, k, &mut text);
    fields::put_bytes(text.as_slice(), out, at)
}

// The answer to `NEXT planet day`.
pub fn answer_next(planet: u32, day: u32, out: &mut [u8], at: usize) -> usize
    requires { at + 120 ≤ length out.old }
    ensures { Put 120 out.old at (next_text planet day) out.new result }
{
    let mut text = Text::<120>::new();
    super::answer_next(planet, day, &mut text);
    fields::put_bytes(text.as_slice(), out, at)
}

// The answer to `PAIR planet`.
pub fn answer_pair(planet: u32, out: &mut [u8], at: usize) -> usize
    requires { at + 120 ≤ length out.old }
    ensures { Put 120 out.old at (pair_text planet) out.new result }
{
    let mut text = Text::<120>::new();
    super::answer_pair(planet, &mut text);
    fields::put_bytes(text.as_slice(), out, at)
}

// The answer to `DAY day`.
pub fn answer_day(day: u32, out: &mut [u8], at: usize) -> usize
    requires { at + 120 ≤ length out.old }
    ensures { Put 120 out.old at (day_text day) out.new result }
{
    let mut text = Text::<120>::new();
    super::answer_day(day, &mut text);
    fields::put_bytes(text.as_slice(), out, at)
}

// The answer to `DATE year number mark day-of-month`.
pub fn answer_date(
    year: u32,
    number: u32,
    leap: bool,
    day_of_month: u32,
    out: &mut [u8],
    at: usize,
) -> usize
    requires { at + 120 ≤ length out.old }
    ensures { Put 120 out.old at (date_text year number leap day_of_month) out.new result }
{
    let mut text = Text::<120>::new();
    super::answer_date(year, number, leap, day_of_month, &mut text);
    fields::put_bytes(text.as_slice(), out, at)
}

// The answer to `MOVE year number mark day-of-month n`: the moved date is looked up as a date.
pub fn answer_move(
    year: u32,
    number: u32,
    leap: bool,
    day_of_month: u32,
    days: i64,
    out: &mut [u8],
    at: usize,
) -> usize
    requires { at + 120 ≤ length out.old }
    ensures { Put 120 out.old at (move_text year number leap day_of_month days) out.new result }
{
    let mut text = Text::<120>::new();
    super::answer_move(year, number, leap, day_of_month, days, &mut text);
    fields::put_bytes(text.as_slice(), out, at)
}

// A refusal.
fn put_refusal(why: Reason, out: &mut [u8], at: usize) -> usize
    requires { at + 84 ≤ length out.old }
    ensures { Put 84 out.old at (refused_text (reason_number why)) out.new result }
{
    let mut text = Text::<84>::new();
    super::write_refusal(why, &mut text);
    fields::put_bytes(text.as_slice(), out, at)
}

// A line of a word of seven bytes at most and a total.
fn put_total(name: &[u8], n: u32, out: &mut [u8], at: usize) -> usize
    requires { (length name.now ≤ 7) × (at + length name.now + 12 ≤ length out.old) }
    ensures { Put (length name.now + 12) out.old at (lined (name.now ∷ decimal n ∷ [])) out.new result }
{
    let mut text = Text::<19>::new();
    super::write_total(name, n, &mut text);
    fields::put_bytes(text.as_slice(), out, at)
}

// The `DAY` line of a day in range.
fn put_day_of(day: u32, out: &mut [u8], at: usize) -> usize
    requires { DayInRange day × (at + 118 ≤ length out.old) }
    ensures { Put 118 out.old at (day_line day) out.new result }
{
    let mut text = Text::<118>::new();
    super::write_day_of(day, &mut text);
    fields::put_bytes(text.as_slice(), out, at)
}

// The `DAY` lines of days in range.
fn put_days(days: &[u32], out: &mut [u8], at: usize) -> usize
    requires { ((i : ℕ) → i < length days.now → DayInRange (get_or days.now i 0)) × (at + 118 * length days.now ≤ length out.old) }
    ensures { Put (118 * length days.now) out.old at (each day_line days.now) out.new result }
{
    let mut to = at;
    for &day in days {
        to = put_day_of(day, out, to);
    }
    to
}

// The answer to `SEARCH ..`, into a lent list with more places than the longest window has days, and a buffer with room for a `FOUND` line of
// 17 bytes and 27,759 `DAY` lines of 118. What the list of days holds afterwards is not promised.
pub fn answer_search(
    r: Reading,
    first: u32,
    last: u32,
    days: &mut [u32],
    out: &mut [u8],
    at: usize,
) -> usize
    requires { (places ≤ length days.old) × (at + 3275579 ≤ length out.old) }
    ensures { Put 3275579 out.old at (search_text r first last) out.new result }
{
    match reading::search(r, first, last, days) {
        Ok(n) => {
            let to = put_total(b"FOUND", n, out, at);
            put_days(&days[..n as usize], out, to)
        }
        Err(SearchError::TooShort { .. }) => put_refusal(Reason::LentTooShort, out, at),
        Err(SearchError::Refused(why)) => put_refusal(why, out, at),
    }
}

// The line of the emendation whose four numbers stand in a list from a place on.
fn put_four(k: usize, list: &[u32], out: &mut [u8], at: usize) -> usize
    requires { (k + 4 ≤ length list.now) × (at + 55 ≤ length out.old) }
    ensures { Put 55 out.old at (line_from list.now k) out.new result }
{
    let mut text = Text::<55>::new();
    super::write_four(k, list, &mut text);
    fields::put_bytes(text.as_slice(), out, at)
}

// The lines of the first n emendations of a list, four numbers each, of one window.
fn put_emendations(n: usize, list: &[u32], out: &mut [u8], at: usize) -> usize
    requires { (n ≤ 27759) × (4 * n ≤ length list.now) × (at + 55 * n ≤ length out.old) }
    ensures { Put (55 * n) out.old at (emendation_lines (take (4 * n) list.now)) out.new result }
{
    let mut to = at;
    for i in 0..n {
        to = put_four(4 * i, list, out, to);
    }
    to
}

// The answer to `EMEND ..`, into a lent list with four places for each day of the longest window, and a buffer with room for an `EMENDED`
// line of 19 bytes and 27,759 `EMENDATION` lines of 55. What the list holds afterwards is not promised.
pub fn answer_emend(
    r: Reading,
    first: u32,
    last: u32,
    list: &mut [u32],
    out: &mut [u8],
    at: usize,
) -> usize
    requires { (places ≤ length list.old) × (at + 1526764 ≤ length out.old) }
    ensures { Put 1526764 out.old at (emend_text r first last) out.new result }
{
    match emending::emend(r, first, last, list) {
        Ok(Emended::Fits(n)) => put_total(b"FITS", n, out, at),
        Ok(Emended::Are(n)) => {
            let to = put_total(b"EMENDED", n, out, at);
            put_emendations(n as usize, list, out, to)
        }
        Err(SearchError::TooShort { .. }) => put_refusal(Reason::LentTooShort, out, at),
        Err(SearchError::Refused(why)) => put_refusal(why, out, at),
    }
}

// The answer to `CLERK bu steps`: what the clerk shows after so many steps.
pub fn answer_clerk(b: u32, steps: u32, out: &mut [u8], at: usize) -> usize
    requires { at + 120 ≤ length out.old }
    ensures { Put 120 out.old at (clerk_text b steps) out.new result }
{
    let mut text = Text::<120>::new();
    super::answer_clerk(b, steps, &mut text);
    fields::put_bytes(text.as_slice(), out, at)
}

// The answer to `FIGURES first last`: three lines, of 52, 137 and 666 bytes at most.
pub fn answer_figures(first: u32, last: u32, out: &mut [u8], at: usize) -> usize
    requires { at + 855 ≤ length out.old }
    ensures { Put 855 out.old at (figures_text first last) out.new result }
{
    let mut text = Text::<855>::new();
    super::answer_figures(first, last, &mut text);
    fields::put_bytes(text.as_slice(), out, at)
}
