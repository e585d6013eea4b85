// The same put into a lent buffer from a place on, one after the other: what stands before and behind is left, and the next place is answered.
ghost use Rattle.std.specs.Prelude.{[], ◌∷◌, ◌+◌, ◌≤◌, length};
ghost use Rattle.fields.specs.Fields.{decimal, mark, Put};

// A byte.
pub fn put_byte(b: u8, out: &mut [u8], at: usize) -> usize
    requires { at + 1 ≤ length out.old }
    ensures { Put 1 out.old at (b ∷ []) out.new result }
{
    out[at] = b;
    at + 1
}

// Bytes, as those of a word.
pub fn put_bytes(s: &[u8], out: &mut [u8], at: usize) -> usize
    requires { at + length s.now ≤ length out.old }
    ensures { Put (length s.now) out.old at s.now out.new result }
{
    let to = at + s.len();
    out[at..to].copy_from_slice(s);
    to
}

// A number's digits: those in front of the last one first.
fn put_digits(n: u32, out: &mut [u8], at: usize) -> usize
    requires { at + length (decimal n) ≤ length out.old }
    ensures { Put (length (decimal n)) out.old at (decimal n) out.new result }
{
    if n < 10 {
        return put_byte(b'0' + n as u8, out, at);
    }
    let to = put_digits(n / 10, out, at);
    put_byte(b'0' + (n % 10) as u8, out, to)
}

// A decimal number: ten digits at most.
pub fn put_decimal(n: u32, out: &mut [u8], at: usize) -> usize
    requires { at + 10 ≤ length out.old }
    ensures { Put 10 out.old at (decimal n) out.new result }
{
    put_digits(n, out, at)
}

// A space, and a decimal number.
pub fn put_next(n: u32, out: &mut [u8], at: usize) -> usize
    requires { at + 11 ≤ length out.old }
    ensures { Put 11 out.old at (32 ∷ decimal n) out.new result }
{
    let to = put_byte(b' ', out, at);
    put_decimal(n, out, to)
}

// A space, and a mark.
pub fn put_mark(there: bool, letter: u8, out: &mut [u8], at: usize) -> usize
    requires { at + 2 ≤ length out.old }
    ensures { Put 2 out.old at (32 ∷ mark there letter ∷ []) out.new result }
{
    let to = put_byte(b' ', out, at);
    put_byte(super::mark_of(there, letter), out, to)
}
