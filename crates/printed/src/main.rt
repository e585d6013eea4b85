// The printed list of a bu, which the desk reads against old print: 940 lines `place day name`. What it must write is
// made by tools/expected.py.
#![tactic(auto)]

ghost use Rattle.std.specs.Prelude.{◌<◌};

use std::io;
use std::io::Write;
use streams::Output;

// A place's line: the place, its day counted from the bu's head, and that day's name where the head's is 1.
fn line<W: Write>(out: &mut Output<W>, k: u16)
    requires { k < 940 }
{
    let day = rule::printed_day(k) as u32;
    writeln!(out, "{k} {day} {}", rule::day_name(day));
}

fn main(rt: HostRuntime) -> io::Result<()> {
    let mut out = Output::new(rt.stdout());
    for k in 0..940 {
        line(&mut out, k);
    }
    out.end()
}
