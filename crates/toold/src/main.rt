// The program that converts to the old form: reads a sheet of the new form on standard input and writes it in the old one, where it has no readings.
#![tactic(auto)]

use std::io;

fn main(rt: HostRuntime) -> io::Result<()> {
    converted::old_from(&mut rt.stdin(), &mut rt.stdout(), &mut rt.stderr())
}
