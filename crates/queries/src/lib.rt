// The answer to a query and to a line, written after a text; by `lent`, put into a lent buffer.
#![tactic(auto)]

ghost use Rattle.std.specs.Prelude.{◌≡◌, [], ◌∷◌, ◌++◌, ◌+◌, ◌≤◌, length};
ghost use Rattle.told.specs.Answers.{places, search_text, emend_text};
ghost use Rattle.queries.specs.Queries.{unreadable, reading_of, mark_field, answered, answer_to};

use asked::{Query, Slip};
use fields::Text;
use reading::{Field, Reading};

pub mod lent;

pub use lent::put_line;

// `UNREADABLE`.
#[tactic(auto, unfolding(crate::specs::Queries::unreadable, fields::specs::Fields::followed))]
fn write_unreadable<const N: usize>(text: &mut Text<N>)
    requires { length text.old + 11 ≤ N }
    ensures text { text.new ≡ text.old ++ unreadable }
    ensures few { length text.new ≤ length text.old + 11 }
{
    text.bytes(b"UNREADABLE\n");
}

// A line as it stands: a note, and what echo prints.
pub fn write_line<const N: usize>(line: &[u8], text: &mut Text<N>)
    requires { (length line.now ≤ 201) × (length text.old + 202 ≤ N) }
    ensures text { text.new ≡ text.old ++ (line.now ++ (10 ∷ [])) }
    ensures few { length text.new ≤ length text.old + 202 }
{
    text.bytes(line);
    text.byte(b'\n');
}

// A mark of a slip as a field of a reading.
fn mark_field(m: Option<bool>) -> Field
    ensures { result ≡ mark_field m }
{
    match m {
        Some(true) => Field::Known(2),
        Some(false) => Field::Known(1),
        None => Field::Unread,
    }
}

// A slip as a search and an emendation take it.
fn reading_of(s: Slip) -> Reading
    ensures { result ≡ reading_of s }
{
    Reading {
        year_name: s.year_name,
        month_number: s.month_number,
        leap_mark: mark_field(s.leap_mark),
        day_of_month: s.day_of_month,
        day_name: s.day_name,
        first_name: s.first_name,
    }
}

// The answer to a search by a slip.
fn answer_slip<const N: usize>(s: Slip, first: u32, last: u32, days: &mut [u32], text: &mut Text<N>)
    requires { (places ≤ length days.old) × (length text.old + 3275579 ≤ N) }
    ensures text { text.new ≡ text.old ++ search_text (reading_of s) first last }
    ensures few { length text.new ≤ length text.old + 3275579 }
{
    answers::answer_search(reading_of(s), first, last, days, text)
}

// The answer to an emendation of a slip.
fn emend_slip<const N: usize>(s: Slip, first: u32, last: u32, days: &mut [u32], text: &mut Text<N>)
    requires { (places ≤ length days.old) × (length text.old + 3275579 ≤ N) }
    ensures text { text.new ≡ text.old ++ emend_text (reading_of s) first last }
    ensures few { length text.new ≤ length text.old + 3275579 }
{
    answers::answer_emend(reading_of(s), first, last, days, text)
}

// The answer to a query, which a line of 200 bytes at most asks.
fn answer<const N: usize>(q: Query, line: &[u8], days: &mut [u32], text: &mut Text<N>)
    requires { (length line.now ≤ 200) × (places ≤ length days.old) × (length text.old + 3275579 ≤ N) }
    ensures text { text.new ≡ text.old ++ answered line.now q }
    ensures few { length text.new ≤ length text.old + 3275579 }
{
    match q {
        Query::Unreadable => write_unreadable(text),
        Query::Note => write_line(line, text),
        Query::Place(y) => answers::answer_place(y, text),
        Query::Year(y) => answers::answer_year(y, text),
        Query::Month(n) => answers::answer_month(n, text),
        Query::Quarter(n, k) => answers::answer_quarter(n, k, text),
        Query::Term(y, k) => answers::answer_term(y, k, text),
        Query::Conjunction(p, k) => answers::answer_conjunction(p, k, text),
        Query::Next(p, d) => answers::answer_next(p, d, text),
        Query::Pair(p) => answers::answer_pair(p, text),
        Query::Day(d) => answers::answer_day(d, text),
        Query::Date(y, k, l, d) => answers::answer_date(y, k, l, d, text),
        Query::Move(y, k, l, d, n) => answers::answer_move(y, k, l, d, n, text),
        Query::Search(s, a, b) => answer_slip(s, a, b, days, text),
        Query::Emend(s, a, b) => emend_slip(s, a, b, days, text),
        Query::Clerk(b, k) => answers::answer_clerk(b, k, text),
        Query::Figures(a, b) => answers::answer_figures(a, b, text),
    }
}

// The answer to a line, its newlines included. The lent list is used by searches and emendations; what it holds
// afterwards is not promised.
#[tactic(auto, using(crate::proofs::Cutting::by_length))]
pub fn answer_line<const N: usize>(line: &[u8], days: &mut [u32], text: &mut Text<N>)
    requires { (places ≤ length days.old) × (length text.old + 3275579 ≤ N) }
    ensures text { text.new ≡ text.old ++ answer_to line.now }
    ensures few { length text.new ≤ length text.old + 3275579 }
{
    if 200 < line.len() {
        return write_unreadable(text);
    }
    answer(asked::read_query(line), line, days, text);
}
