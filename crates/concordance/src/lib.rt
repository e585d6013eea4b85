// Other people's concordances, text in the line form of our listing: for each line right, unreadable, or wrong with the first wrong field.
// The reader over a text is the crate `reader`; both stand on `judge_at`.
// A range is asked for in one word of a `requires` and by no type: rule's functions take plain numbers
// (docs/DECISIONS.md, 263).
#![tactic(auto)]

ghost use Rattle.std.specs.Prelude.{◌≡◌, ◌+◌, ◌≤◌, length, drop};
ghost use Rattle.rule.specs.Counts.{MonthInRange};
ghost use Rattle.rule.specs.Lists.{placed};
ghost use Rattle.facts.specs.Facts.{month_facts};
ghost use Rattle.concordance.specs.Text.{lines_of, line_length, advance, newline_in, newlines};
ghost use Rattle.concordance.specs.Verdicts.{field_number, verdict_of, verdict_number, verdicts_of, line_at, step_of};
ghost use Rattle.concordance.specs.Parts.{Scanned, Numbered, first_mark, last_mark, Parted, parts_printed, differing};
ghost use Rattle.concordance.specs.Promises.{JudgeText};

use rule::Reason;

// The fields of a line, in their order.
#[derive(Debug, Clone, Copy, PartialEq)]
pub enum LineField {
    MonthCount,
    Number,
    LeapMark,
    FirstName,
    Length,
    EclipseMark,
}

// Fields are counted from 1.
impl From<LineField> for u8 {
    ghost from_gives = { λ field k. k ≡ field_number field };

    fn from(field: LineField) -> u8 {
        match field {
            LineField::MonthCount => 1,
            LineField::Number => 2,
            LineField::LeapMark => 3,
            LineField::FirstName => 4,
            LineField::Length => 5,
            LineField::EclipseMark => 6,
        }
    }
}

// The verdict on a line: right, wrong with the first wrong field, or unreadable.
#[derive(Debug, Clone, Copy, PartialEq)]
pub enum Verdict {
    Right,
    Wrong(LineField),
    Unreadable,
}

// What the first field of a text says as a number, and how many bytes it has.
#[derive(Debug, Clone, Copy, PartialEq)]
struct Numeral {
    value: u32,
    end: usize,
}

// A line's fields: four numbers, and two marks.
#[derive(Debug, Clone, Copy, PartialEq)]
struct Parts {
    count: u32,
    number: u32,
    leap: bool,
    name: u32,
    days: u32,
    eclipse: bool,
}

// The digits of the first field, if they are nine at most and nothing else is there.
fn scan(s: &[u8]) -> Option<Numeral>
    ensures { Scanned s.now result }
{
    let mut value: u32 = 0;
    for (end, &b) in s.iter().enumerate() {
        if b == b' ' {
            return Some(Numeral { value, end });
        }
        if 9 <= end {
            return None;
        }
        if !forms::is_digit(b) {
            return None;
        }
        value = 10 * value + (b - b'0') as u32;
    }
    Some(Numeral {
        value,
        end: s.len(),
    })
}

// The first field as a number: 0 stands alone.
fn first_number(s: &[u8]) -> Option<Numeral>
    ensures { Numbered s.now result }
{
    let n = scan(s)?;
    let to = n.end;
    if forms::leads_well(&s[0..to]) {
        return Some(n);
    }
    None
}

// What stands after so many bytes and the space behind them.
fn after(s: &[u8], end: usize) -> &[u8]
    ensures { result.now ≡ drop (end + 1) s.now }
{
    if end < s.len() {
        return &s[end + 1..];
    }
    &s[s.len()..]
}

// The first field as a leap mark, where another field follows it.
fn first_mark(s: &[u8]) -> Option<bool>
    ensures { result ≡ first_mark s.now }
{
    if s.len() < 2 {
        return None;
    }
    if s[1] != b' ' {
        return None;
    }
    if s[0] == b'-' {
        return Some(false);
    }
    if s[0] == b'L' {
        return Some(true);
    }
    None
}

// What is left of a line as an eclipse mark.
fn last_mark(s: &[u8]) -> Option<bool>
    ensures { result ≡ last_mark s.now }
{
    if s.len() != 1 {
        return None;
    }
    if s[0] == b'-' {
        return Some(false);
    }
    if s[0] == b'E' {
        return Some(true);
    }
    None
}

// The six fields of a line, if all can be read.
fn read_parts(l: &[u8]) -> Option<Parts>
    ensures { Parted l.now result }
{
    let count = first_number(l)?;
    let l1 = after(l, count.end);
    let number = first_number(l1)?;
    let l2 = after(l1, number.end);
    let leap = first_mark(l2)?;
    let l3 = after(l2, 1);
    let name = first_number(l3)?;
    let l4 = after(l3, name.end);
    let days = first_number(l4)?;
    let l5 = after(l4, days.end);
    let eclipse = last_mark(l5)?;
    Some(Parts {
        count: count.value,
        number: number.value,
        leap,
        name: name.value,
        days: days.value,
        eclipse,
    })
}

// The fields of what is printed for a month in range.
fn printed_parts(n: u32) -> Parts
    requires { MonthInRange n }
    ensures { result ≡ parts_printed n (month_facts n) }
{
    let f = facts::month_facts_at(n);
    let m = f.month;
    Parts {
        count: n,
        number: rule::number_of(m) as u32,
        leap: rule::leap_mark(m),
        name: f.first_name as u32,
        days: f.month_length as u32,
        eclipse: f.eclipse,
    }
}

// The first of the fields behind the month count in which two lines differ.
fn first_differing(p: Parts, q: Parts) -> Verdict
    ensures { result ≡ differing p q }
{
    if p.number != q.number {
        return Verdict::Wrong(LineField::Number);
    }
    if p.leap != q.leap {
        return Verdict::Wrong(LineField::LeapMark);
    }
    if p.name != q.name {
        return Verdict::Wrong(LineField::FirstName);
    }
    if p.days != q.days {
        return Verdict::Wrong(LineField::Length);
    }
    if p.eclipse != q.eclipse {
        return Verdict::Wrong(LineField::EclipseMark);
    }
    Verdict::Right
}

// The verdict on a line.
fn judge_line(l: &[u8]) -> Verdict
    ensures { result ≡ verdict_of l.now }
{
    let Some(p) = read_parts(l) else {
        return Verdict::Unreadable;
    };
    let n = p.count;
    if 507599 < n {
        return Verdict::Wrong(LineField::MonthCount);
    }
    let q = printed_parts(n);
    first_differing(p, q)
}

// A verdict as a number: 0 right, 1 to 6 the first wrong field, 7 unreadable.
// (A function by the name of docs/CALLS.md.)
pub fn verdict_number(v: Verdict) -> u8
    ensures { result ≡ verdict_number v }
{
    match v {
        Verdict::Right => 0,
        Verdict::Wrong(field) => u8::from(field),
        Verdict::Unreadable => 7,
    }
}

// Where the line that starts at a place ends: at its newline, or with the text. (`split` opens a line behind a last
// newline, and has no place for the reader to keep.)
fn line_end(text: &[u8], from: usize) -> usize
    requires { from ≤ length text.now }
    ensures { result ≡ from + line_length (drop from text.now) }
{
    for to in from..text.len() {
        if text[to] == b'\n' {
            return to;
        }
    }
    text.len()
}

// Where the next line starts.
fn past(text: &[u8], from: usize, to: usize) -> usize
    requires { (from ≤ length text.now) × (to ≡ from + line_length (drop from text.now)) }
    ensures { result ≡ from + advance (drop from text.now) }
{
    if to < text.len() { to + 1 } else { to }
}

// The verdict on the line that starts at a place, and where the next line starts. The reader and the call both stand on this.
#[derive(Debug, Clone, Copy, PartialEq)]
struct Judged {
    verdict: Verdict,
    next: usize,
}

fn judge_at(text: &[u8], place: usize) -> Judged
    requires { place ≤ length text.now }
    ensures { result ≡ record { verdict = verdict_of (line_at text.now place); next = place + advance (drop place text.now) } }
{
    let to = line_end(text, place);
    let verdict = judge_line(&text[place..to]);
    let next = past(text, place, to);
    Judged { verdict, next }
}

// A step from a place and a line number: what it says (none where no line is left), and where the reader stands then.
#[derive(Debug, Clone, Copy, PartialEq)]
pub struct Step {
    pub said: Result<Option<Verdict>, Reason>,
    pub place: usize,
    pub line: u32,
}

// A reader's step: reason 18 where the text is too long.
pub fn step_at(text: &[u8], place: usize, line: u32) -> Step
    ensures { result ≡ step_of text.now place line }
{
    if 65536 < text.len() {
        let said = Err(Reason::TextTooLong);
        return Step { said, place, line };
    }
    if place < text.len() {
        let j = judge_at(text, place);
        let said = Ok(Some(j.verdict));
        return Step {
            said,
            place: j.next,
            line: std::num::wrapping_add_u32(line, 1),
        };
    }
    let said = Ok(None);
    Step { said, place, line }
}

// 1 for a newline, 0 for any other byte.
fn newline(b: u8) -> usize
    ensures { result ≡ newline_in b }
{
    if b == b'\n' { 1 } else { 0 }
}

// How many newlines a text has.
fn count_newlines(text: &[u8]) -> usize
    ensures { result ≡ newlines text.now }
{
    let mut n: usize = 0;
    for &b in text {
        n += newline(b);
    }
    n
}

// How many lines a text has: one a newline, and one more where it does not end with a newline.
pub fn count_lines(text: &[u8]) -> usize
    ensures { result ≡ length (lines_of text.now) }
{
    if text.len() == 0 {
        return 0;
    }
    let n = count_newlines(text);
    if text[text.len() - 1] == b'\n' {
        return n;
    }
    n + 1
}

// The verdicts as numbers, at the front of a lent list.
fn fill(text: &[u8], n: usize, out: &mut [u8])
    requires { (n ≡ length (lines_of text.now)) × (n ≤ length out.old) }
    ensures { out.new ≡ placed (verdicts_of text.now) out.old }
{
    let mut place: usize = 0;
    for i in 0..n {
        let j = judge_at(text, place);
        let v = j.verdict;
        out[i] = verdict_number(v);
        place = j.next;
    }
}

// The verdicts on a text's lines, one number a line, into a lent list: reason 18, then 12.
pub fn judge_text(text: &[u8], out: &mut [u8]) -> Result<usize, Reason>
    ensures { JudgeText text.now out.old result out.new }
{
    if 65536 < text.len() {
        return Err(Reason::TextTooLong);
    }
    let n = count_lines(text);
    if out.len() < n {
        return Err(Reason::LentTooShort);
    }
    fill(text, n, out);
    Ok(n)
}
