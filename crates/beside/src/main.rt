// What the desk cannot ask, asked of the calls: what they leave in lent lists and buffers, numbers that the desk cuts
// down before it asks, and figures of 004 that no one answer gives. A question on a line, its answer below it. What it
// must write is made by tools/expected.py.
#![tactic(auto)]

mod figures;
mod printed;
mod searches;
mod sheets;

use std::io;
use std::io::Stdout;
use streams::Output;

// Standard output.
type Out = Output<Stdout>;

fn moved(out: &mut Out, year: u32, number: u32, leap: bool, day_of_month: u32, days: i64) {
    show::field(out, b"MOVE", year as u64);
    show::next(out, number as u64);
    show::mark(out, leap);
    show::next(out, day_of_month as u64);
    show::signed(out, days);
    show::text(out, b"\n");
    match moves::move_date(year, number, leap, day_of_month, days) {
        Ok(d) => show::dated(out, d),
        Err(why) => show::refused(out, why),
    }
}

fn conjunction(out: &mut Out, p: u32, k: u64) {
    writeln!(out, "CONJUNCTION {p} {k}");
    match planets::kth_conjunction(p, k) {
        Ok(c) => {
            show::text(out, b"CONJUNCTION");
            show::conjunction(out, c);
        }
        Err(why) => show::refused(out, why),
    }
}

// A date's own reasons, 16 in the two civil years that are not whole among them, come before a move's end. A planet
// that there is not is told before a count outside; with 1,341,063,005,370 Saturn's product has more than 64 bits for
// the first time.
fn large_numbers(out: &mut Out) {
    writeln!(
        out,
        "# The largest and least numbers of 64 bits, which the desk cuts down before it asks"
    );
    for (year, number, leap, day_of_month, days) in [
        (1, 13, false, 1, i64::MAX),
        (0, 10, true, 1, i64::MIN),
        (41040, 11, false, 1, i64::MAX),
        (11, 8, true, 1, i64::MIN),
        (0, 11, false, 1, i64::MAX),
        (41040, 10, true, 30, i64::MIN),
    ] {
        moved(out, year, number, leap, day_of_month, days);
    }
    for p in [0, 6, 261, u32::MAX, 1, 2, 3, 4, 5] {
        conjunction(out, p, u64::MAX);
    }
    for (p, k) in [
        (1, 4294967296),
        (3, 1341063005369),
        (3, 1341063005370),
        (5, 9223372036854775808),
    ] {
        conjunction(out, p, k);
    }
}

fn main(rt: HostRuntime) -> io::Result<()> {
    let mut out = Output::new(rt.stdout());
    searches::all(&mut out);
    sheets::read_ones(&mut out);
    sheets::written_ones(&mut out);
    sheets::large_ones(&mut out);
    printed::all(&mut out);
    large_numbers(&mut out);
    figures::all(&mut out);
    out.end()
}
