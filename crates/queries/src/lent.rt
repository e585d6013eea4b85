// The same put into a lent buffer from a place on: the note and what is unreadable here, and each answer by `answers::lent`.
ghost use Rattle.std.specs.Prelude.{[], ◌∷◌, ◌++◌, ◌+◌, ◌≤◌, length};
ghost use Rattle.fields.specs.Fields.{Put};
ghost use Rattle.told.specs.Answers.{places};
ghost use Rattle.queries.specs.Queries.{unreadable, answered, answer_to};

use asked::Query;

// `UNREADABLE`.
#[tactic(auto, unfolding(crate::specs::Queries::unreadable, fields::specs::Fields::followed))]
fn put_unreadable(out: &mut [u8], at: usize) -> usize
    requires { at + 11 ≤ length out.old }
    ensures { Put 11 out.old at unreadable out.new result }
{
    fields::put_bytes(b"UNREADABLE\n", out, at)
}

// A line as it stands: a note, and what echo prints.
pub fn put_line(line: &[u8], out: &mut [u8], at: usize) -> usize
    requires { (length line.now ≤ 201) × (at + 202 ≤ length out.old) }
    ensures { Put 202 out.old at (line.now ++ (10 ∷ [])) out.new result }
{
    let to = fields::put_bytes(line, out, at);
    fields::put_byte(b'\n', out, to)
}

// The answer to a query, which a line of 200 bytes at most asks.
fn answer(q: Query, line: &[u8], days: &mut [u32], out: &mut [u8], at: usize) -> usize
    requires { (length line.now ≤ 200) × (places ≤ length days.old) × (at + 3275579 ≤ length out.old) }
    ensures { Put 3275579 out.old at (answered line.now q) out.new result }
{
    match q {
        Query::Unreadable => put_unreadable(out, at),
        Query::Note => put_line(line, out, at),
        Query::Place(y) => answers::lent::answer_place(y, out, at),
        Query::Year(y) => answers::lent::answer_year(y, out, at),
        Query::Month(n) => answers::lent::answer_month(n, out, at),
        Query::Quarter(n, k) => answers::lent::answer_quarter(n, k, out, at),
        Query::Term(y, k) => answers::lent::answer_term(y, k, out, at),
        Query::Conjunction(p, k) => answers::lent::answer_conjunction(p, k, out, at),
        Query::Next(p, d) => answers::lent::answer_next(p, d, out, at),
        Query::Pair(p) => answers::lent::answer_pair(p, out, at),
        Query::Day(d) => answers::lent::answer_day(d, out, at),
        Query::Date(y, k, l, d) => answers::lent::answer_date(y, k, l, d, out, at),
        Query::Move(y, k, l, d, n) => answers::lent::answer_move(y, k, l, d, n, out, at),
        Query::Search(s, a, b) => {
            answers::lent::answer_search(super::reading_of(s), a, b, days, out, at)
        }
        Query::Emend(s, a, b) => {
            answers::lent::answer_emend(super::reading_of(s), a, b, days, out, at)
        }
        Query::Clerk(b, k) => answers::lent::answer_clerk(b, k, out, at),
        Query::Figures(a, b) => answers::lent::answer_figures(a, b, out, at),
    }
}

// The answer to a line, its newlines included, from a place of the buffer on: where it ends. The lent list is used by searches
// and emendations; what it holds afterwards is not promised.
#[tactic(auto, using(crate::proofs::Cutting::by_length))]
pub fn answer_line(line: &[u8], days: &mut [u32], out: &mut [u8], at: usize) -> usize
    requires { (places ≤ length days.old) × (at + 3275579 ≤ length out.old) }
    ensures { Put 3275579 out.old at (answer_to line.now) out.new result }
{
    if 200 < line.len() {
        return put_unreadable(out, at);
    }
    answer(asked::read_query(line), line, days, out, at)
}
