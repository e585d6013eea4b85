// Searches into a lent list of four sevens, which keeps what is not filled.
use crate::Out;
use reading::Field::Known;
use reading::{Field, Reading, SearchError};

// A field that is not read.
const U: Field = Field::Unread;

fn shown(out: &mut Out, field: Field) {
    match field {
        Field::Known(k) => show::next(out, k as u64),
        Field::Unread => show::text(out, b" ?"),
    }
}

// A reading's mark; one that is neither, which the desk cannot write, is its number.
fn shown_mark(out: &mut Out, mark: Field) {
    match mark {
        Field::Known(1) => show::mark(out, false),
        Field::Known(2) => show::mark(out, true),
        _ => shown(out, mark),
    }
}

// What a call has found, and then the whole list.
fn told(out: &mut Out, found: Result<u32, SearchError>, list: &[u32]) {
    match found {
        Ok(n) => show::line(out, b"FOUND", n as u64),
        Err(SearchError::TooShort { total }) => {
            show::refused(out, rule::Reason::LentTooShort);
            show::line(out, b"TOTAL", total as u64);
        }
        Err(SearchError::Refused(why)) => show::refused(out, why),
    }
    show::text(out, b"LIST");
    show::numbers(out, list);
    show::text(out, b"\n");
}

// A reading's six fields in the paper's order, and a window.
fn search(out: &mut Out, fields: [Field; 6], first: u32, last: u32) {
    let [y, n, l, m, d, f] = fields;
    let reading = Reading {
        year_name: y,
        month_number: n,
        leap_mark: l,
        day_of_month: m,
        day_name: d,
        first_name: f,
    };
    let mut list = [7u32; 4];
    show::text(out, b"SEARCH");
    shown(out, y);
    shown(out, n);
    shown_mark(out, l);
    shown(out, m);
    shown(out, d);
    shown(out, f);
    writeln!(out, " {first} {last} INTO 4");
    told(out, reading::search(reading, first, last, &mut list), &list);
}

fn windows(out: &mut Out) {
    writeln!(out, "# Searches into a list of four sevens: windows");
    for (first, last) in [
        (14989860, 14989860),
        (14989859, 14989860),
        (14989859, 14989859),
        (5, 4),
        (5, 5),
        (0, 27758),
        (0, 27759),
        (4294967295, 0),
    ] {
        search(out, [U; 6], first, last);
    }
}

fn outside(out: &mut Out) {
    writeln!(
        out,
        "# Each field just outside its range, the marks 0 and 3 among them"
    );
    for fields in [
        [Known(0), U, U, U, U, U],
        [U, Known(0), U, U, U, U],
        [U, U, Known(0), U, U, U],
        [U, U, U, Known(0), U, U],
        [U, U, U, U, Known(0), U],
        [U, U, U, U, U, Known(0)],
        [Known(61), U, U, U, U, U],
        [U, Known(13), U, U, U, U],
        [U, U, Known(3), U, U, U],
        [U, U, U, Known(31), U, U],
        [U, U, U, U, Known(61), U],
        [U, U, U, U, U, Known(273)],
        [
            Known(60),
            Known(12),
            Known(2),
            Known(30),
            Known(60),
            Known(60),
        ],
    ] {
        search(out, fields, 0, 3);
    }
}

fn order(out: &mut Out) {
    writeln!(
        out,
        "# The order 6, 13, 14, 12; and 12 with its total, at the edge"
    );
    for (fields, first, last) in [
        ([Known(61), U, U, U, U, U], 14989860, 0),
        ([Known(61), U, U, U, U, U], 5, 4),
        ([Known(61), U, U, U, U, U], 0, 9),
        ([U, U, U, U, U, U], 0, 4),
        ([U, U, U, U, U, U], 0, 3),
        ([U, U, U, Known(1), U, U], 0, 27758),
    ] {
        search(out, fields, first, last);
    }
}

fn found(out: &mut Out) {
    writeln!(
        out,
        "# The first of a leap month, the last day, and days of the second of two big months"
    );
    for (fields, first, last) in [
        (
            [Known(27), Known(9), Known(2), Known(1), U, Known(58)],
            0,
            27758,
        ),
        (
            [U, Known(10), Known(2), Known(30), Known(60), U],
            14962101,
            14989859,
        ),
        ([Known(27), Known(5), Known(1), Known(1), U, U], 3600, 3900),
        ([Known(27), Known(5), Known(1), Known(15), U, U], 3600, 3900),
        ([Known(27), Known(5), Known(1), Known(30), U, U], 3600, 3900),
    ] {
        search(out, fields, first, last);
    }
}

pub fn all(out: &mut Out) {
    windows(out);
    outside(out);
    order(out);
    found(out);
}
