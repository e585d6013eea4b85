// The paper's known dates and the planets' table: the page of notes and queries in stdin, through the desk program's own code with echo.
#![tactic(auto)]

use std::io;

fn main(rt: HostRuntime) -> io::Result<()> {
    held::answer_input(true, &mut rt.stdin(), rt.stdout())
}
