// The desk program with echo: each line of standard input before its answer, and a note as it stands. Thin over `held`.
#![tactic(auto)]

use std::io;

fn main(rt: HostRuntime) -> io::Result<()> {
    held::answer_input(true, &mut rt.stdin(), rt.stdout())
}
