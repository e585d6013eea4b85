// How the programs read and write, over any reader and any writer.
#![tactic(auto)]

ghost use Rattle.std.specs.Prelude.{◌≤◌, ◌≡◌, length, take, Ok, is_ok, OnOk, OnErr, IfSome};
ghost use Rattle.std.specs.Fmt.{decimal};
ghost use Rattle.std.specs.Io.{ReadsAtMost};
ghost use Rattle.std.specs.Io.KnownBytes.{Appends, Consumes, ReadConsumes};

use std::fmt::Display;
use std::io;
use std::io::{ErrorKind, Read, Write};

// The next bytes of an input, as many as come. A read that was interrupted is tried again.
fn read_next<R: Read>(from: &mut R, bytes: &mut [u8]) -> io::Result<usize>
    ensures bound { ReadsAtMost result bytes.new }
    ensures consumes { ReadConsumes (R.remaining from.old) (R.remaining from.new) result bytes.new }
{
    for _ in 0..u64::MAX {
        match from.read(bytes) {
            Ok(n) => return Ok(n),
            Err(e) => {
                if e.kind() != ErrorKind::Interrupted {
                    return Err(e);
                }
            }
        }
    }
    Err(io::Error::from(ErrorKind::Interrupted))
}

// The next bytes of an input, as many as come: none at its end, and none where it cannot be read. What came is at the
// front of `bytes`, and where it is known what an input has, nothing of it is lost.
pub fn read_some<R: Read>(from: &mut R, bytes: &mut [u8]) -> usize
    ensures bound { result ≤ length bytes.new }
    ensures consumes { Consumes (R.remaining from.old) (R.remaining from.new) (take result bytes.new) }
{
    read_next(from, bytes).unwrap_or(0)
}

// An input, read until the room is full or nothing more comes. How many bytes came.
pub fn read_full<R: Read>(from: &mut R, bytes: &mut [u8]) -> usize
    ensures bound { result ≤ length bytes.new }
    ensures consumes { Consumes (R.remaining from.old) (R.remaining from.new) (take result bytes.new) }
{
    let mut done = 0;
    // A `while`: what each read gave says how far it has come, and no list is gone over.
    while done < bytes.len() {
        let n = read_some(from, &mut bytes[done..]);
        if n == 0 {
            break;
        }
        done += n;
    }
    done
}

// A writer, and the first error that it gave: after one nothing more is written.
#[derive(Drop)]
pub struct Output<W> {
    to: W,
    so_far: io::Result<()>,
}

impl<W: Write> Output<W> {
    pub fn new(to: W) -> Output<W>
        ensures to { result.to ≡ to }
        ensures so_far { result.so_far ≡ Ok tt }
    {
        Output { to, so_far: Ok(()) }
    }

    // All of the bytes.
    pub fn put(&mut self, bytes: &[u8])
        ensures stops { OnErr self.old.so_far (self.new ≡ self.old) }
        ensures puts { OnOk self.new.so_far (Appends (W.contents self.old.to) (W.contents self.new.to) bytes.now) }
    {
        if self.is_ok() {
            self.so_far = self.to.write_all(bytes);
        }
    }

    // A text, as `write!` and `writeln!` make it.
    pub fn write_fmt<D: Display + Drop>(&mut self, text: D)
        ensures stops { OnErr self.old.so_far (self.new ≡ self.old) }
        ensures puts { OnOk self.new.so_far (IfSome (D.output text)
            (Appends (W.contents self.old.to) (W.contents self.new.to))) }
    {
        if self.is_ok() {
            self.so_far = self.to.write_fmt(text);
        }
    }

    // A number in decimal.
    pub fn put_decimal(&mut self, n: u64)
        ensures stops { OnErr self.old.so_far (self.new ≡ self.old) }
        ensures puts { OnOk self.new.so_far (Appends (W.contents self.old.to) (W.contents self.new.to) (decimal n)) }
    {
        write!(self, "{n}")
    }

    // Whether nothing has failed so far.
    pub fn is_ok(&self) -> bool
        ensures { result ≡ is_ok self.now.so_far }
    {
        self.so_far.is_ok()
    }

    // The first error, where there was one.
    pub fn end(self) -> io::Result<()>
    where
        W: Drop,
        ensures { result ≡ self.so_far }
    {
        self.so_far
    }
}

#[cfg(test)]
mod tests {
    use super::*;
    use std::io::Cursor;
    use std::test::Fail;

    // An input that comes three bytes at most at a time, every other read interrupted, and that ends or fails.
    #[derive(Drop)]
    struct Parts<'a> {
        left: &'a [u8],
        interrupted: bool,
        fails: bool,
    }

    impl Read for Parts<'_> {
        fn read(&mut self, buf: &mut [u8]) -> io::Result<usize> {
            self.interrupted = !self.interrupted;
            if self.interrupted {
                return Err(io::Error::from(ErrorKind::Interrupted));
            }
            if self.left.is_empty() & self.fails {
                return Err(io::Error::from(ErrorKind::Other));
            }
            let most = buf.len().min(3);
            self.left.read(&mut buf[..most])
        }
    }

    fn in_parts(left: &[u8], fails: bool) -> Parts<'_> {
        Parts {
            left,
            interrupted: false,
            fails,
        }
    }

    #[test]
    fn reads_on_over_short_and_interrupted_reads(rt: HostRuntime) {
        for (size, fails) in [(7, false), (7, true)] {
            let mut room = [0u8; 9];
            let mut from = in_parts(&b"abcdefg"[..], fails);
            assert_eq!(rt; read_full(&mut from, &mut room), size);
            assert_eq!(rt; &room[..], &b"abcdefg\0\0"[..]);
            assert_eq!(rt; read_some(&mut from, &mut room), 0);
        }
    }

    #[test]
    fn a_longer_input_is_cut(rt: HostRuntime) {
        let mut room = [0u8; 4];
        let mut from = in_parts(&b"abcdefg"[..], false);
        assert_eq!(rt; read_full(&mut from, &mut room), 4);
        assert_eq!(rt; &room[..], &b"abcd"[..]);
        assert_eq!(rt; read_some(&mut from, &mut room), 3);
        assert_eq!(rt; &room[..], &b"efgd"[..]);
    }

    #[test]
    fn writes_all_and_numbers(rt: HostRuntime) -> Result<(), Fail> {
        let mut written = Vec::new(rt.alloc());
        let mut out = Output::new(&mut written);
        out.put(b"a ");
        out.put_decimal(0);
        out.put(b" ");
        out.put_decimal(18446744073709551615);
        out.end()?;
        assert_eq!(rt; written.as_slice(), &b"a 0 18446744073709551615"[..]);
        Ok(())
    }

    #[test]
    fn writes_nothing_after_an_error(rt: HostRuntime) {
        let mut room = [0u8; 5];
        let mut out = Output::new(Cursor::new(&mut room[..]));
        out.put(b"abc");
        assert!(rt; out.is_ok());
        out.put(b"defg");
        assert!(rt; !out.is_ok());
        out.put(b"");
        out.put_decimal(7);
        let end = out.end();
        assert!(rt; end.is_err_and(|e| e.kind() == ErrorKind::WriteZero));
        assert_eq!(rt; &room[..], &b"abcde"[..]);
    }
}
