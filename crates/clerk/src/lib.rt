// The clerk's own way: from one month to the next by additions alone. A carry is a comparison and a subtraction; no month formula and no
// printed list is asked. Only a start, at the origin or at any bu's head, multiplies.
#![tactic(auto)]

ghost use Rattle.std.specs.Prelude.{◌≡◌, true, ◌+◌, ◌≤◌, ◌<◌};
ghost use Rattle.clerk.specs.Clerk.{carried, round, days_on, term_ahead, mid_term_ahead, ahead_then, number_then, head, stepped, StartsAt, StepsOn, WalksOn, Shows};

use facts::MonthFacts;
use rule::{Reason, Term};

// What the clerk keeps of the month at which it stands: its count, number, leap mark, first day and small remainder, length, first day's name
// and eclipse mark (the marks are bools, as C has the struct); and to go on by, the eclipse remainder in parts of 135, and the next mid-term
// after the month, its day and the rest in parts of 32.
#[repr(C)]
#[derive(Debug, Clone, Copy, PartialEq, Eq)]
pub struct Clerk {
    pub month_count: u32,
    pub first_day: u32,
    pub mid_term_day: u32,
    pub small_remainder: u16,
    pub number: u8,
    pub leap: bool,
    pub month_length: u8,
    pub first_name: u8,
    pub eclipse: bool,
    pub eclipse_remainder: u8,
    pub mid_term_parts: u8,
}

// Parts added to parts that are counted from 0: where they come to a whole, the whole is taken off.
fn carry_parts(whole: u8, parts: u8, more: u8) -> u8
    requires { more ≤ whole }
    ensures { result ≡ carried whole (parts + more) }
{
    let room = whole - more;
    if parts < room {
        parts + more
    } else {
        parts - room
    }
}

// The same of what is counted from 1, as numbers and names are. (No carry of the count less one: in a state that no start leads to it may be 0.)
fn count_round(whole: u8, count: u8, more: u8) -> u8
    requires { more ≤ whole }
    ensures { result ≡ round whole (count + more) }
{
    let room = whole - more;
    if room < count {
        count - room
    } else {
        count + more
    }
}

// 499 parts of 940 added to a small remainder. (Of sixteen bits: one carry for both widths would cast what it gives back.)
fn remainder_on(small_remainder: u16) -> u16
    ensures { result ≡ carried 940 (small_remainder + 499) }
{
    if small_remainder < 441 {
        small_remainder + 499
    } else {
        small_remainder - 441
    }
}

// From a month's first day to the next: 29 days, and one more where the 499 parts make a whole one.
fn days_on(small_remainder: u16) -> u8
    ensures { result ≡ days_on small_remainder }
{
    if small_remainder < 441 { 29 } else { 30 }
}

// From one term to the next: 15 days and 7 parts of 32.
fn term_ahead(t: Term) -> Term
    requires { t.day ≤ 20000000 }
    ensures { result ≡ term_ahead t }
{
    let day = if t.parts < 25 { t.day + 15 } else { t.day + 16 };
    Term {
        day,
        parts: carry_parts(32, t.parts, 7),
    }
}

// From one mid-term to the next: two terms.
fn mid_term_ahead(t: Term) -> Term
    requires { t.day ≤ 15000000 }
    ensures { result ≡ mid_term_ahead t }
{
    term_ahead(term_ahead(t))
}

// The mid-term ahead of a month: where the month holds the one that was ahead, the next.
fn ahead_then(held: bool, t: Term) -> Term
    requires { held ≡ true → t.day ≤ 15000000 }
    ensures { result ≡ ahead_then held t }
{
    if held { mid_term_ahead(t) } else { t }
}

// The number of a month: where it holds a mid-term the next, where it is leap that of the month before it.
fn number_then(held: bool, number: u8) -> u8
    ensures { result ≡ number_then held number }
{
    if held {
        count_round(12, number, 1)
    } else {
        number
    }
}

// The next month, of a clerk that stands before the last.
fn next_month(c: Clerk) -> Clerk
    requires { (c.month_count < 507599) × (c.first_day < 14989830) }
    ensures { result ≡ stepped c }
{
    let days = days_on(c.small_remainder);
    let first_day = c.first_day + days as u32;
    let small_remainder = remainder_on(c.small_remainder);
    let month_length = days_on(small_remainder);
    let held = c.mid_term_day < first_day + month_length as u32;
    let ahead = ahead_then(
        held,
        Term {
            day: c.mid_term_day,
            parts: c.mid_term_parts,
        },
    );
    let eclipse_remainder = carry_parts(135, c.eclipse_remainder, 23);
    Clerk {
        month_count: c.month_count + 1,
        first_day,
        mid_term_day: ahead.day,
        small_remainder,
        number: number_then(held, c.number),
        leap: !held,
        month_length,
        first_name: count_round(60, c.first_name, days),
        eclipse: eclipse_remainder < 23,
        eclipse_remainder,
        mid_term_parts: ahead.parts,
    }
}

// A step to the next month, or reason 7.
pub fn step(c: Clerk) -> Result<Clerk, Reason>
    ensures { StepsOn c result }
{
    if 507598 < c.month_count {
        return Err(Reason::NoSuchMonth);
    }
    if 14989829 < c.first_day {
        return Err(Reason::NoSuchMonth);
    }
    Ok(next_month(c))
}

// The clerk at a bu's head.
fn at_head(b: u32) -> Clerk
    requires { (1 ≤ b) × (b ≤ 540) }
    ensures { result ≡ head b }
{
    let before = b - 1;
    let day = 27759 * before;
    let ahead = mid_term_ahead(Term { day: day, parts: 0 });
    let eclipse_rest = ((23 + 20 * before) % 135) as u8;
    Clerk {
        month_count: 940 * before,
        first_day: day,
        mid_term_day: ahead.day,
        small_remainder: 0,
        number: 11,
        leap: false,
        month_length: days_on(0),
        first_name: rule::day_name(day),
        eclipse: eclipse_rest < 23,
        eclipse_remainder: eclipse_rest,
        mid_term_parts: ahead.parts,
    }
}

// A start at a bu's head, or reason 21. Bu 1 starts at the origin.
pub fn start(b: u32) -> Result<Clerk, Reason>
    ensures { StartsAt b result }
{
    if !rule::in_range(1, 540, b) {
        return Err(Reason::NoSuchBu);
    }
    Ok(at_head(b))
}

// A start and so many steps, one at a time: reason 21, then 7. It ends at the first step that is refused.
pub fn walk(b: u32, steps: u32) -> Result<Clerk, Reason>
    ensures { WalksOn b steps result }
{
    let mut at = start(b)?;
    for _ in 0..steps {
        at = step(at)?;
    }
    Ok(at)
}

// What the clerk shows of the month at which it stands.
pub fn show(c: Clerk) -> MonthFacts
    ensures { Shows c result }
{
    MonthFacts {
        month: rule::marked(c.leap, c.number),
        first_day: c.first_day,
        small_remainder: c.small_remainder,
        month_length: c.month_length,
        first_name: c.first_name,
        eclipse: c.eclipse,
    }
}
