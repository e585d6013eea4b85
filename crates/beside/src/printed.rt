// The calls that print a line, into a part of thirty sevens.
use crate::{Out, sheets};
use rule::Reason;

// A call that prints, and all thirty, of which a part was lent.
fn print<F: FnOnce(u32, &mut [u8]) -> Result<usize, Reason>>(
    out: &mut Out,
    word: &str,
    call: F,
    n: u32,
    room: usize,
)
    requires { F.IsAlwaysCallable call }
{
    let mut space = [7u8; 30];
    writeln!(out, "PRINT {word} {n} INTO {room}");
    if room <= 30 {
        let answer = call(n, &mut space[0..room]);
        sheets::put(out, answer, &space);
    }
}

pub fn all(out: &mut Out) {
    writeln!(
        out,
        "# Printed lines into a part of thirty sevens: what does not exist, then a buffer too short, just enough, and more"
    );
    print(out, "YEAR", lines::print_year, 41041, 0);
    print(out, "YEAR", lines::print_year, 70000, 30);
    print(out, "YEAR", lines::print_year, 0, 30);
    print(out, "YEAR", lines::print_year, 11, 30);
    print(out, "LINE", lines::print_month_line, 507600, 0);
    print(out, "LINE", lines::print_month_line, 507599, 0);
    print(out, "LINE", lines::print_month_line, 134, 15);
    print(out, "LINE", lines::print_month_line, 134, 16);
    print(out, "LINE", lines::print_month_line, 134, 30);
    print(out, "MONTH", lines::print_month, 507600, 0);
    print(out, "MONTH", lines::print_month, 134, 21);
    print(out, "MONTH", lines::print_month, 134, 22);
    print(out, "MONTH", lines::print_month, 4294967295, 30);
    print(out, "DAY", lines::print_day, 14989860, 0);
    print(out, "DAY", lines::print_day, 14989859, 29);
    print(out, "DAY", lines::print_day, 14989859, 30);
    print(out, "DAY", lines::print_day, 0, 30);
}
