// The reject tray: the page of notes and queries in stdin, for a person to read, through the desk program's own code with echo.
#![tactic(auto)]

use std::io;

fn main(rt: HostRuntime) -> io::Result<()> {
    held::answer_input(true, &mut rt.stdin(), rt.stdout())
}
