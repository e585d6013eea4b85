// What `beside`, `uses` and `printed` print with, in the desk's words and order.
#![tactic(auto)]

use dates::Date;
use planets::{Conjunction, Phase};
use rule::{Month, Reason};
use std::fmt::Display;
use std::io::Write;
use streams::Output;

pub fn text<W: Write>(out: &mut Output<W>, s: &[u8]) {
    out.put(s);
}

// A space, and a number.
pub fn next<W: Write>(out: &mut Output<W>, n: u64) {
    write!(out, " {n}");
}

// A word, and a number.
pub fn field<W: Write>(out: &mut Output<W>, word: &[u8], n: u64) {
    text(out, word);
    next(out, n);
}

// A line of a word and a number.
pub fn line<W: Write>(out: &mut Output<W>, word: &[u8], n: u64) {
    text(out, word);
    writeln!(out, " {n}");
}

// A space, and a number that may be below nought.
pub fn signed<W: Write>(out: &mut Output<W>, n: i64) {
    write!(out, " {n}");
}

// A space, and a letter where the mark is there, `-` where it is absent.
fn letter<W: Write>(out: &mut Output<W>, there: bool, letter: char) {
    let shown = if there { letter } else { '-' };
    write!(out, " {shown}");
}

// `L` for leap, `-` for ordinary.
pub fn mark<W: Write>(out: &mut Output<W>, leap: bool) {
    letter(out, leap, 'L');
}

// `E` for an eclipse month, `-` for another.
pub fn eclipse<W: Write>(out: &mut Output<W>, there: bool) {
    letter(out, there, 'E');
}

// A month: its number and its mark.
pub fn month<W: Write>(out: &mut Output<W>, m: Month) {
    next(out, rule::number_of(m) as u64);
    mark(out, rule::leap_mark(m));
}

// A refusal: the reason's number and its words.
pub fn refused<W: Write>(out: &mut Output<W>, why: Reason) {
    writeln!(out, "REFUSED {} {why}", rule::reason_number(why));
}

// What the desk's `DAY` line has after the day.
pub fn date<W: Write>(out: &mut Output<W>, d: Date) {
    next(out, d.year as u64);
    month(out, d.month);
    write!(out, " {} {} {}", d.day_of_month, d.day_name, d.month_length);
    write!(out, " {} {} {} {}", d.year_name, d.ji, d.bu, d.year_in_bu);
    eclipse(out, d.eclipse);
    writeln!(out);
}

// The `DAY` line of a date that a call has answered, with the day of its own civil year, month, mark and day of month.
pub fn dated<W: Write>(out: &mut Output<W>, d: Date) {
    let number = rule::number_of(d.month) as u32;
    let leap = rule::leap_mark(d.month);
    match dates::day_of_date(d.year as u32, number, leap, d.day_of_month as u32) {
        Ok(day) => {
            field(out, b"DAY", day as u64);
            date(out, d);
        }
        Err(why) => refused(out, why),
    }
}

// What a conjunction's line ends with: day, parts, divisor, phase.
pub fn conjunction<W: Write>(out: &mut Output<W>, c: Conjunction) {
    let phase = match c.phase {
        Phase::Morning => 'M',
        Phase::Evening => 'E',
        Phase::Neither => '-',
    };
    writeln!(out, " {} {} {} {phase}", c.day, c.parts, c.divisor);
}

// Every item of a list.
fn items<W: Write, T: Display>(out: &mut Output<W>, list: &[T]) {
    for item in list {
        write!(out, " {item}");
    }
}

pub fn bytes<W: Write>(out: &mut Output<W>, list: &[u8]) {
    items(out, list);
}

pub fn numbers<W: Write>(out: &mut Output<W>, list: &[u32]) {
    items(out, list);
}

// The three lists of a sheet.
pub fn lists<W: Write>(out: &mut Output<W>, years: &[u16], months: &[u32], days: &[u32]) {
    items(out, years);
    text(out, b",");
    items(out, months);
    text(out, b",");
    items(out, days);
    writeln!(out);
}
