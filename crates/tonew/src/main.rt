// The program that converts to the new form: reads a sheet of the old form on standard input and writes it in the new one.
#![tactic(auto)]

use std::io;

fn main(rt: HostRuntime) -> io::Result<()> {
    converted::new_from(&mut rt.stdin(), &mut rt.stdout(), &mut rt.stderr())
}
