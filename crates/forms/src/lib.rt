// A line's fields, parted by single spaces: whether they are like a form, and what each of them says. No query is named here. Numbers
// are cut down to 32 bits (crate `capped`).
#![tactic(auto)]

ghost use Rattle.std.specs.Prelude.{◌≡◌, cond, ◌+◌, ◌-◌, ◌*◌, ◌≤◌, length, drop};
ghost use Rattle.rule.specs.Reasons.{within};
ghost use Rattle.fields.specs.Fields.{word};
ghost use Rattle.fields.specs.Paper.{value_from};
ghost use Rattle.capped.specs.Capped.{capped};
ghost use Rattle.forms.specs.Forms.{
  first_field,
  fields_in,
  after_first,
  same,
  all_digits,
  leads,
  is_decimal,
  is_back,
  is_mark,
  letter,
  admits,
  like,
  other_word,
  past,
  move_of,
  slip_field_of,
  slip_mark_of,
};

use reading::Field;

// Where the field ends that starts at a place: at the next space, or with the line.
fn end_of(s: &[u8], from: usize) -> usize
    requires { from ≤ length s.now }
    ensures { result ≡ from + length (first_field (drop from s.now)) }
{
    for to in from..s.len() {
        if s[to] == b' ' {
            return to;
        }
    }
    s.len()
}

// The first field of a line.
fn first_field(s: &[u8]) -> &[u8]
    ensures { result.now ≡ first_field s.now }
{
    let to = end_of(s, 0);
    &s[0..to]
}

// What stands after the first field of a line and its space: nothing where there is no other field.
pub fn after_first(s: &[u8]) -> &[u8]
    ensures { result.now ≡ after_first s.now }
{
    let to = end_of(s, 0);
    if to == s.len() {
        return &s[to..];
    }
    &s[to + 1..]
}

// Whether two texts are the same.
fn same(p: &[u8], s: &[u8]) -> bool
    ensures { result ≡ same p.now s.now }
{
    p == s
}

// Whether a byte is a digit.
pub fn is_digit(b: u8) -> bool
    ensures { result ≡ within 48 57 b }
{
    (b'0' <= b) & (b <= b'9')
}

// Whether every byte is a digit.
fn all_digits(s: &[u8]) -> bool
    ensures { result ≡ all_digits s.now }
{
    s.iter().all(|&b| is_digit(b))
}

// Whether a number of so many digits may start so: 0 stands alone.
pub fn leads_well(s: &[u8]) -> bool
    ensures { result ≡ leads s.now }
{
    if s.len() < 2 {
        return s.len() == 1;
    }
    s[0] != b'0'
}

// Whether a text is a decimal number without leading zeros.
fn is_decimal(s: &[u8]) -> bool
    ensures { result ≡ is_decimal s.now }
{
    leads_well(s) & all_digits(s)
}

// Whether a text is `-` and a number that is not 0.
fn is_back(s: &[u8]) -> bool
    ensures { result ≡ is_back s.now }
{
    if s.len() == 0 {
        return false;
    }
    (s[0] == b'-') & !same(b"0", &s[1..]) & is_decimal(&s[1..])
}

// Whether a text is a mark.
fn is_mark(s: &[u8]) -> bool
    ensures { result ≡ is_mark s.now }
{
    same(b"-", s) | same(b"L", s)
}

// The letter that a field of a form is, 0 for a longer word. (0 goes to the last arm of `admits`, as None would.)
fn letter(s: &[u8]) -> u8
    ensures { result ≡ letter s.now }
{
    if s.len() != 1 {
        return 0;
    }
    s[0]
}

// Whether a field of a form admits a field of a line.
fn admits(p: &[u8], s: &[u8]) -> bool
    ensures { result ≡ admits p.now s.now }
{
    match letter(p) {
        b'n' => is_decimal(s),
        b'm' => is_mark(s),
        b's' => is_decimal(s) | is_back(s),
        b'f' => is_decimal(s) | same(b"?", s),
        b'g' => is_mark(s) | same(b"?", s),
        _ => same(p, s),
    }
}

// Whether a line is like a form: as many fields, and each admitted. (Two texts at once, each with its own place, and an
// answer where either ends: over two iterators of fields zipped, whether both end together would be one test more.)
// (Never inlined: `past`, which asks it, is then a look at one letter where that decides.)
#[inline(never)]
fn is_like(form: &[u8], line: &[u8]) -> bool
    ensures { result ≡ like (fields_in form.now) (fields_in line.now) }
{
    let mut i = 0;
    let mut j = 0;
    loop {
        let a = end_of(form, i);
        let b = end_of(line, j);
        if !admits(&form[i..a], &line[j..b]) {
            return false;
        }
        if a == form.len() {
            return b == line.len();
        }
        if b == line.len() {
            return false;
        }
        i = a + 1;
        j = b + 1;
    }
}

// Whether a form begins with a capital letter with which the line does not begin: then its word is another.
fn begins_otherwise(form: &[u8], line: &[u8]) -> bool
    ensures { result ≡ other_word form.now line.now }
{
    if form.len() == 0 {
        return false;
    }
    if line.len() == 0 {
        return false;
    }
    (form[0] < 91) & (64 < form[0]) & (form[0] != line[0])
}

// The place of a form that a line is like, the next one where it is not.
fn past_this(like: bool, i: u8) -> usize
    ensures { result ≡ cond like i (i + 1) }
{
    if like {
        return i as usize;
    }
    i as usize + 1
}

// How many forms of a table a line is past, once it was held against the form in place i: k, where that is an earlier one that it is like;
// else i where it is like this one, and one more where it is not. The first letter is looked at first. (`is_like` is asked for in two
// places so that it stays a function by itself in the compiled code, and this one, with its form known, a look at one letter.)
pub fn past(k: usize, i: u8, form: &[u8], line: &[u8]) -> usize
    ensures { result ≡ past k i form.now (fields_in line.now) }
{
    if k < i as usize {
        return k;
    }
    if begins_otherwise(form, line) {
        return i as usize + 1;
    }
    if form.len() < 2 {
        return past_this(is_like(form, line), i);
    }
    past_this(is_like(form, line), i)
}

// A number with one digit more.
fn one_more(v: u32, b: u8) -> u32
    ensures { result ≡ capped (10 * v + (b - 48)) }
{
    if b < 48 {
        return capped::cap(10 * v as u64);
    }
    capped::cap(10 * v as u64 + (b - 48) as u64)
}

// What digits are worth.
fn value_of(s: &[u8]) -> u32
    ensures { result ≡ capped (value_from 0 s.now) }
{
    let mut v = 0;
    for &b in s {
        v = one_more(v, b);
    }
    v
}

// A move's number: so many days back where it starts with `-`.
fn move_of(s: &[u8]) -> i64
    ensures { result ≡ move_of capped s.now }
{
    if s.len() == 0 {
        return 0;
    }
    if s[0] == b'-' {
        return -(value_of(&s[1..]) as i64);
    }
    value_of(s) as i64
}

// A field of a slip.
fn slip_field_of(s: &[u8]) -> Field
    ensures { result ≡ slip_field_of capped s.now }
{
    if same(b"?", s) {
        return Field::Unread;
    }
    Field::Known(value_of(s))
}

// A mark of a slip: whether it is leap (a bool, as in a date), or none where it is unread.
fn slip_mark_of(s: &[u8]) -> Option<bool>
    ensures { result ≡ slip_mark_of s.now }
{
    if same(b"?", s) {
        return None;
    }
    Some(same(b"L", s))
}

// What the first field says, as a number: the same in one look along it.
pub fn number(s: &[u8]) -> u32
    ensures { result ≡ capped (value_from 0 (first_field s.now)) }
{
    let mut v = 0;
    for &b in s {
        if b == b' ' {
            return v;
        }
        v = one_more(v, b);
    }
    v
}

// As a mark, as a move, and on a slip.
pub fn leap(s: &[u8]) -> bool
    ensures { result ≡ same (word "L") (first_field s.now) }
{
    same(b"L", first_field(s))
}

pub fn signed(s: &[u8]) -> i64
    ensures { result ≡ move_of capped (first_field s.now) }
{
    move_of(first_field(s))
}

pub fn slip_field(s: &[u8]) -> Field
    ensures { result ≡ slip_field_of capped (first_field s.now) }
{
    slip_field_of(first_field(s))
}

pub fn slip_mark(s: &[u8]) -> Option<bool>
    ensures { result ≡ slip_mark_of (first_field s.now) }
{
    slip_mark_of(first_field(s))
}
