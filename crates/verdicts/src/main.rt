// The verdicts program: reads a concordance on standard input and prints the verdict on each of its lines, and the totals.
#![tactic(auto)]

use std::io;

fn main(rt: HostRuntime) -> io::Result<()> {
    judging::report_from(&mut rt.stdin(), &mut rt.stdout())
}
