// What a line asks: one table of forms as text, and the query of each form. A new query is a row of the table, a variant of `Query` and
// an arm of `query_of`.
#![tactic(auto)]

ghost use Rattle.std.specs.Prelude.{◌≡◌};
ghost use Rattle.capped.specs.Capped.{capped};
ghost use Rattle.forms.specs.Forms.{fields_in, first_like};
ghost use Rattle.asked.specs.Asked.{hashed, slip_in, places_in, table_of, forms, query_at, read_by};

use reading::Field;

// What was read on a slip.
#[derive(Debug, Clone, Copy, PartialEq)]
pub struct Slip {
    pub year_name: Field,
    pub month_number: Field,
    pub leap_mark: Option<bool>,
    pub day_of_month: Field,
    pub day_name: Field,
    pub first_name: Field,
}

// What a line asks, in the paper's words. A note holds nothing: what is said to it is the line.
#[derive(Debug, Clone, Copy, PartialEq)]
pub enum Query {
    Unreadable,
    Note,
    Place(u32),
    Year(u32),
    Month(u32),
    Quarter(u32, u32),
    Term(u32, u32),
    Conjunction(u32, u32),
    Next(u32, u32),
    Pair(u32),
    Day(u32),
    Date(u32, u32, bool, u32),
    Move(u32, u32, bool, u32, i64),
    Search(Slip, u32, u32),
    Emend(Slip, u32, u32),
    Clerk(u32, u32),
    Figures(u32, u32),
}

// The slip in places 1 to 6 of a line.
// (The parts are taken one by one here and in `read_places`: most lines have two, and the rest is then not read,
// docs/DECISIONS.md, 103.)
fn read_slip(line: &[u8]) -> Slip
    ensures { result ≡ slip_in capped (fields_in line.now) }
{
    let s1 = forms::after_first(line);
    let s2 = forms::after_first(s1);
    let s3 = forms::after_first(s2);
    let s4 = forms::after_first(s3);
    let s5 = forms::after_first(s4);
    let s6 = forms::after_first(s5);
    Slip {
        year_name: forms::slip_field(s1),
        month_number: forms::slip_field(s2),
        leap_mark: forms::slip_mark(s3),
        day_of_month: forms::slip_field(s4),
        day_name: forms::slip_field(s5),
        first_name: forms::slip_field(s6),
    }
}

// What stands in the places of a line, read as the part that forms have there: a number, a mark, a move.
#[derive(Debug, Clone, Copy, PartialEq)]
struct Places {
    pub n1: u32,
    pub n2: u32,
    pub m3: bool,
    pub n4: u32,
    pub s5: i64,
    pub n7: u32,
    pub n8: u32,
}

fn read_places(line: &[u8]) -> Places
    ensures { result ≡ places_in capped (fields_in line.now) }
{
    let s1 = forms::after_first(line);
    let s2 = forms::after_first(s1);
    let s3 = forms::after_first(s2);
    if s3.len() == 0 {
        return Places {
            n1: forms::number(s1),
            n2: forms::number(s2),
            m3: false,
            n4: 0,
            s5: 0,
            n7: 0,
            n8: 0,
        };
    }
    let s4 = forms::after_first(s3);
    let s5 = forms::after_first(s4);
    let s6 = forms::after_first(s5);
    let s7 = forms::after_first(s6);
    let s8 = forms::after_first(s7);
    Places {
        n1: forms::number(s1),
        n2: forms::number(s2),
        m3: forms::leap(s3),
        n4: forms::number(s4),
        s5: forms::signed(s5),
        n7: forms::number(s7),
        n8: forms::number(s8),
    }
}

// The table of forms: which of them a line is like, counted from 0. (A call a row, and no loop over a constant of rows:
// measured with the older kit, that is laid onto the stack at each use, some 110 instructions a line, and a row whose form is known costs a
// look at one letter: docs/DECISIONS.md, 102 and 103.)
fn form_number(line: &[u8]) -> usize
    ensures { result ≡ first_like forms (fields_in line.now) }
{
    let k1 = forms::past(0, 0, b"PLACE n", line);
    let k2 = forms::past(k1, 1, b"YEAR n", line);
    let k3 = forms::past(k2, 2, b"MONTH n", line);
    let k4 = forms::past(k3, 3, b"QUARTER n n", line);
    let k5 = forms::past(k4, 4, b"TERM n n", line);
    let k6 = forms::past(k5, 5, b"CONJUNCTION n n", line);
    let k7 = forms::past(k6, 6, b"NEXT n n", line);
    let k8 = forms::past(k7, 7, b"PAIR n", line);
    let k9 = forms::past(k8, 8, b"DAY n", line);
    let k10 = forms::past(k9, 9, b"DATE n n m n", line);
    let k11 = forms::past(k10, 10, b"MOVE n n m n s", line);
    let k12 = forms::past(k11, 11, b"SEARCH f f g f f f n n", line);
    let k13 = forms::past(k12, 12, b"EMEND f f g f f f n n", line);
    let k14 = forms::past(k13, 13, b"CLERK n n", line);
    forms::past(k14, 14, b"FIGURES n n", line)
}

// The query of a line that is like a form, counted from 0: its row in the table of the specification. (An enum of the
// fifteen forms would be `Query` once more.)
#[tactic(auto, using(crate::proofs::Rows::arm), unfolding(crate::specs::Asked::table, crate::specs::Asked::query_at))]
fn query_of(k: usize, line: &[u8]) -> Query
    ensures { result ≡ query_at (table_of capped (fields_in line.now)) k }
{
    let w = read_places(line);
    match k {
        0 => Query::Place(w.n1),
        1 => Query::Year(w.n1),
        2 => Query::Month(w.n1),
        3 => Query::Quarter(w.n1, w.n2),
        4 => Query::Term(w.n1, w.n2),
        5 => Query::Conjunction(w.n1, w.n2),
        6 => Query::Next(w.n1, w.n2),
        7 => Query::Pair(w.n1),
        8 => Query::Day(w.n1),
        9 => Query::Date(w.n1, w.n2, w.m3, w.n4),
        10 => Query::Move(w.n1, w.n2, w.m3, w.n4, w.s5),
        11 => Query::Search(read_slip(line), w.n7, w.n8),
        12 => Query::Emend(read_slip(line), w.n7, w.n8),
        13 => Query::Clerk(w.n1, w.n2),
        14 => Query::Figures(w.n1, w.n2),
        _ => Query::Unreadable,
    }
}

// Whether a line begins with `#`.
pub fn is_hashed(line: &[u8]) -> bool
    ensures { result ≡ hashed line.now }
{
    if line.len() == 0 {
        return false;
    }
    line[0] == 35
}

// What a line asks.
pub fn read_query(line: &[u8]) -> Query
    ensures { result ≡ read_by capped line.now }
{
    if is_hashed(line) {
        return Query::Note;
    }
    query_of(form_number(line), line)
}
