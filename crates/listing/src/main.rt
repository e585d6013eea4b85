// The listing program: reads a sheet on standard input and prints its listing.
#![tactic(auto)]

use std::io;

fn main(rt: HostRuntime) -> io::Result<()> {
    listed::list_from(&mut rt.stdin(), &mut rt.stdout())
}
