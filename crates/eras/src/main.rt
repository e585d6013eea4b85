// The figures of 004: the page of notes and queries in stdin, a note for each row, through the desk program's own code with echo.
#![tactic(auto)]

use std::io;

fn main(rt: HostRuntime) -> io::Result<()> {
    held::answer_input(true, &mut rt.stdin(), rt.stdout())
}
