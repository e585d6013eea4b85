// One short example of the use of each public call, as a user would write it: a question on a line, and its answer
// below it, in the desk's words. What it must write is made by tools/expected.py.
#![tactic(auto)]

use dates::Date;
use facts::LeapMonth;
use reading::{Field, Reading, SearchError};
use rule::Reason;
use std::io;
use std::io::Stdout;
use streams::Output;

// Standard output.
type Out = Output<Stdout>;

fn end(out: &mut Out) {
    show::text(out, b"\n");
}

// A line of a word and two numbers.
fn two(out: &mut Out, word: &[u8], a: u32, b: u64) {
    show::field(out, word, a as u64);
    writeln!(out, " {b}");
}

// Day to date: which date has this day? The record has the place of its solstice year and its month's eclipse mark too.
fn date_of_day(out: &mut Out, day: u32) {
    match dates::date_of_day(day) {
        Ok(date) => day_line(out, day, date),
        Err(why) => show::refused(out, why),
    }
}

fn day_line(out: &mut Out, day: u32, date: Date) {
    show::field(out, b"DAY", day as u64);
    show::date(out, date);
}

// The four things that a date is asked for by; the year is the civil one, which months 11 and 12 close.
fn four(out: &mut Out, word: &[u8], year: u32, number: u32, leap: bool, day_of_month: u32) {
    show::field(out, word, year as u64);
    show::next(out, number as u64);
    show::mark(out, leap);
    show::next(out, day_of_month as u64);
}

// Date to day: which day has this date?
fn day_of_date(out: &mut Out, year: u32, number: u32, leap: bool, day_of_month: u32) {
    match dates::day_of_date(year, number, leap, day_of_month) {
        Ok(day) => date_of_day(out, day),
        Err(why) => show::refused(out, why),
    }
}

fn date(out: &mut Out, year: u32, number: u32, leap: bool, day_of_month: u32) {
    four(out, b"DATE", year, number, leap, day_of_month);
    end(out);
    day_of_date(out, year, number, leap, day_of_month);
}

// A move: which date comes so many days after this one, or before it?
fn move_date(out: &mut Out, year: u32, number: u32, leap: bool, day_of_month: u32, days: i64) {
    four(out, b"MOVE", year, number, leap, day_of_month);
    show::signed(out, days);
    end(out);
    match moves::move_date(year, number, leap, day_of_month, days) {
        Ok(date) => show::dated(out, date),
        Err(why) => show::refused(out, why),
    }
}

// The place of a solstice year: ji, bu, year in bu, its bu's head name; its first month, leap remainder, and how many
// months.
fn solstice_year(out: &mut Out, year: u32) {
    show::line(out, b"PLACE", year as u64);
    match facts::solstice_year(year) {
        Ok(f) => {
            write!(
                out,
                "PLACE {} {} {} {}",
                f.ji, f.bu, f.year_in_bu, f.head_name
            );
            writeln!(out, " {} {} {}", f.first_month, f.leap_remainder, f.months);
        }
        Err(why) => show::refused(out, why),
    }
}

// A civil year's own facts: its name, how many months it has, its first month, and its leap month by number and month
// count.
fn year_facts(out: &mut Out, year: u32) {
    show::line(out, b"YEAR", year as u64);
    match facts::year_facts(year) {
        Ok(f) => {
            write!(
                out,
                "YEAR {year} NAME {} MONTHS {} FIRST {}",
                f.name, f.months, f.first_month
            );
            leap_month(out, f.leap_month);
        }
        Err(why) => show::refused(out, why),
    }
}

// The end of a year's line.
fn leap_month(out: &mut Out, leap: Option<LeapMonth>) {
    match leap {
        Some(leap) => writeln!(out, " LEAP {} {}", leap.number, leap.month),
        None => writeln!(out, " LEAP - -"),
    }
}

// A month by its count: its number and leap mark, first day's name, length, eclipse mark, first day, small remainder.
fn month_facts(out: &mut Out, n: u32) {
    show::line(out, b"MONTH", n as u64);
    match facts::month_facts(n) {
        Ok(f) => {
            show::field(out, b"MONTH", n as u64);
            show::month(out, f.month);
            write!(out, " {} {}", f.first_name, f.month_length);
            show::eclipse(out, f.eclipse);
            writeln!(out, " {} {}", f.first_day, f.small_remainder);
        }
        Err(why) => show::refused(out, why),
    }
}

// A quarter of a month (0 new, 1 first, 2 full, 3 last): its day, and the rest in parts of 3,760.
fn quarter(out: &mut Out, n: u32, q: u32) {
    two(out, b"QUARTER", n, q as u64);
    match facts::quarter(n, q) {
        Ok(f) => two(out, b"QUARTER", f.day, f.parts as u64),
        Err(why) => show::refused(out, why),
    }
}

// A term of a solstice year (0 to 23, 0 the solstice): its day, and the rest in parts of 32.
fn term(out: &mut Out, year: u32, k: u32) {
    two(out, b"TERM", year, k as u64);
    match facts::term(year, k) {
        Ok(f) => two(out, b"TERM", f.day, f.parts as u64),
        Err(why) => show::refused(out, why),
    }
}

// A slip on which the year name 27, the month number 9 and the day of month 1 can be read, the other fields not.
fn slip() -> Reading {
    Reading {
        year_name: Field::Known(27),
        month_number: Field::Known(9),
        leap_mark: Field::Unread,
        day_of_month: Field::Known(1),
        day_name: Field::Unread,
        first_name: Field::Unread,
    }
}

// A search: which days of the window, both ends included, fit the slip? They come to stand at the front of the lent
// list.
fn search(out: &mut Out, first: u32, last: u32) {
    let mut days = [0u32; 4];
    writeln!(out, "SEARCH 27 9 ? 1 ? ? {first} {last} INTO 4");
    match reading::search(slip(), first, last, &mut days) {
        Ok(n) => {
            show::line(out, b"FOUND", n as u64);
            numbers_in_front(out, &days, n as usize);
        }
        Err(SearchError::TooShort { total }) => {
            show::refused(out, rule::Reason::LentTooShort);
            show::line(out, b"TOTAL", total as u64);
        }
        Err(SearchError::Refused(why)) => show::refused(out, why),
    }
}

// The first numbers of a list, so many as a call has filled.
fn numbers_in_front(out: &mut Out, list: &[u32], n: usize) {
    if n <= list.len() {
        show::text(out, b"LIST");
        show::numbers(out, &list[0..n]);
        end(out);
    }
}

// Reading a sheet into three lent lists: how many civil years, months and days does it have? The items stand in the
// lists.
fn read_sheet(out: &mut Out, bytes: &[u8]) {
    let mut years = [0u16; 10];
    let mut months = [0u32; 10];
    let mut days = [0u32; 10];
    show::text(out, b"SHEET");
    show::bytes(out, bytes);
    end(out);
    match sheet::read_sheet(bytes, &mut years, &mut months, &mut days) {
        Ok(c) => {
            writeln!(out, "COUNTS {} {} {}", c.years, c.months, c.days);
            numbers_in_front(out, &months, c.months);
        }
        Err(why) => show::refused(out, why),
    }
}

// Writing a sheet into a lent buffer: the bytes of three lists.
fn write_sheet(out: &mut Out, years: &[u16], months: &[u32], days: &[u32]) {
    let mut buffer = [0u8; 20];
    show::text(out, b"WRITE");
    show::lists(out, years, months, days);
    match sheet::write_sheet(years, months, days, &mut buffer) {
        Ok(n) => bytes_in_front(out, &buffer, n),
        Err(why) => show::refused(out, why),
    }
}

fn bytes_in_front(out: &mut Out, list: &[u8], n: usize) {
    if n <= list.len() {
        show::line(out, b"BYTES", n as u64);
        show::text(out, b"BUFFER");
        show::bytes(out, &list[0..n]);
        end(out);
    }
}

// The text that a call has put at the front of a lent buffer, as it is.
fn text_in_front(out: &mut Out, buffer: &[u8], n: usize) {
    if n <= buffer.len() {
        show::text(out, &buffer[0..n]);
    }
}

// What a call that prints has answered: its text stands at the front of the buffer, or the call is refused.
fn printed(out: &mut Out, answer: Result<usize, Reason>, buffer: &[u8]) {
    match answer {
        Ok(n) => text_in_front(out, buffer, n),
        Err(why) => show::refused(out, why),
    }
}

// The four that print are not brought to one: each shows its call, and how large a buffer it takes.
// A civil year's block: its header and one line a month. 674 bytes always hold it.
fn print_year(out: &mut Out, year: u32) {
    show::line(out, b"PRINT YEAR", year as u64);
    let mut buffer = [0u8; 674];
    printed(out, lines::print_year(year, &mut buffer), &buffer);
}

// A month's line. 48 bytes always hold it.
fn print_month_line(out: &mut Out, n: u32) {
    show::line(out, b"PRINT LINE", n as u64);
    let mut buffer = [0u8; 48];
    printed(out, lines::print_month_line(n, &mut buffer), &buffer);
}

// A `MONTH` line. 54 bytes always hold it.
fn print_month(out: &mut Out, n: u32) {
    show::line(out, b"PRINT MONTH", n as u64);
    let mut buffer = [0u8; 54];
    printed(out, lines::print_month(n, &mut buffer), &buffer);
}

// The listing's `DAY` line. 61 bytes always hold it.
fn print_day(out: &mut Out, day: u32) {
    show::line(out, b"PRINT DAY", day as u64);
    let mut buffer = [0u8; 61];
    printed(out, lines::print_day(day, &mut buffer), &buffer);
}

// A planet's conjunction by its count (planets 1 to 5: Jupiter, Mars, Saturn, Venus, Mercury; the count from 0): its
// day, its remainder in parts, of how many they are, and whether it is a morning or an evening one.
// (The planet is a number, as the public call takes it.)
fn conjunction(out: &mut Out, planet: u32, k: u64) {
    two(out, b"CONJUNCTION", planet, k);
    match planets::kth_conjunction(planet, k) {
        Ok(c) => {
            show::text(out, b"CONJUNCTION");
            show::conjunction(out, c);
        }
        Err(why) => show::refused(out, why),
    }
}

// The first conjunction of a planet on or after a day: its count, and the conjunction.
fn next_conjunction(out: &mut Out, planet: u32, day: u32) {
    two(out, b"NEXT", planet, day as u64);
    match planets::next_conjunction(planet, day) {
        Ok(next) => {
            show::field(out, b"NEXT", next.k as u64);
            show::conjunction(out, next.conjunction);
        }
        Err(why) => show::refused(out, why),
    }
}

// 004's pair of a planet, got by reducing two long counts against each other: so many years, and the conjunctions in
// them.
fn reduced_pair(out: &mut Out, planet: u32) {
    show::line(out, b"PAIR", planet as u64);
    match planets::reduced_pair(planet) {
        Ok(pair) => writeln!(out, "PAIR {} {}", pair.years, pair.conjunctions),
        Err(why) => show::refused(out, why),
    }
}

// The common divisor of two numbers. It is never refused.
fn common_divisor(out: &mut Out, a: u64, b: u64) {
    writeln!(out, "DIVISOR {a} {b}");
    show::line(out, b"DIVISOR", planets::common_divisor(a, b));
}

// Each call once where it answers, and once where it is refused; a date by 16 too, month 10 not being in civil year 0.
fn dates_and_moves(out: &mut Out) {
    show::line(out, b"DAY", 3420558);
    date_of_day(out, 3420558);
    show::line(out, b"DAY", 14989860);
    date_of_day(out, 14989860);
    date(out, 9365, 11, false, 1);
    date(out, 11, 8, true, 1);
    date(out, 0, 10, false, 1);
    move_date(out, 0, 11, false, 1, 27759);
    move_date(out, 0, 11, false, 1, -1);
}

fn facts_of_years_and_months(out: &mut Out) {
    solstice_year(out, 9366);
    solstice_year(out, 0);
    year_facts(out, 11);
    year_facts(out, 12);
    year_facts(out, 41041);
    month_facts(out, 134);
    month_facts(out, 507600);
    quarter(out, 115830, 2);
    quarter(out, 115830, 4);
    term(out, 9366, 0);
    term(out, 9366, 24);
}

fn searches_and_sheets(out: &mut Out) {
    search(out, 3600, 4000);
    search(out, 4000, 3600);
    read_sheet(out, &[0u8, 0, 1, 0, 134, 0, 0, 0, 0, 0]);
    read_sheet(out, &[1u8, 0, 11]);
    write_sheet(out, &[11u16], &[134u32], &[3957u32]);
    write_sheet(out, &[41041u16], &[134u32], &[3957u32]);
}

fn printed_lines(out: &mut Out) {
    print_year(out, 11);
    print_year(out, 41041);
    print_month_line(out, 134);
    print_month_line(out, 507600);
    print_month(out, 134);
    print_month(out, 507600);
    print_day(out, 0);
    print_day(out, 14989860);
}

fn conjunctions(out: &mut Out) {
    conjunction(out, 4, 11826);
    conjunction(out, 6, 1);
    next_conjunction(out, 4, 3453043);
    next_conjunction(out, 1, 14989826);
    reduced_pair(out, 5);
    reduced_pair(out, 0);
    common_divisor(out, 27612900, 25286988);
}

fn main(rt: HostRuntime) -> io::Result<()> {
    let mut out = Output::new(rt.stdout());
    dates_and_moves(&mut out);
    facts_of_years_and_months(&mut out);
    searches_and_sheets(&mut out);
    printed_lines(&mut out);
    conjunctions(&mut out);
    out.end()
}
