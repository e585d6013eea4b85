// The answering program: reads a sheet of the new form on standard input and prints its listing, then each reading and the search's answer.
#![tactic(auto)]

use std::io;

fn main(rt: HostRuntime) -> io::Result<()> {
    answered::answer_from(&mut rt.stdin(), &mut rt.stdout())
}
