// The desk program: one query a line on standard input, its answer on standard output, in input order. Thin over `held`.
#![tactic(auto)]

use std::io;

fn main(rt: HostRuntime) -> io::Result<()> {
    held::answer_input(false, &mut rt.stdin(), rt.stdout())
}
