// Numbers in bytes, least byte first: read from the front of what is left, filled into lent lists, laid into a lent buffer.
#![tactic(auto)]

ghost use Rattle.std.specs.Prelude.{◌≡◌, ℕ, ◌+◌, ◌*◌, ◌^◌, ◌≤◌, ◌<◌, List, length, drop};
ghost use Rattle.std.proofs.lemmas.List.Edits.{sets};
ghost use Rattle.octets.specs.Bytes.{number, lay, length-lay, read_all, lay_each};

// A number that stands in a fixed count of bytes.
pub trait InBytes: Copy {
    const WIDTH: usize;

    ghost WIDTH: { ℕ };

    ghost read: { List ℕ → Self };

    ghost laid: { Self → List ℕ };

    ghost value: { Self → ℕ };

    // The number in the first bytes.
    fn read(s: &[u8]) -> Self
        requires { WIDTH ≤ length s.now }
        ensures { result ≡ read s.now };

    // Its bytes, from a place on.
    fn lay(self, out: &mut [u8], at: usize)
        requires { at + WIDTH ≤ length out.old }
        ensures { out.new ≡ sets out.old at (laid self) };

    // The number by itself.
    fn value(self) -> u32
        ensures { result ≡ value self };

    ghost as_wide: { (x : Self) → length (laid x) ≡ WIDTH };
}

// The number in the first bytes, least byte first.
pub fn number_in(s: &[u8], width: usize) -> u32
    requires { (width ≤ 4) × (width ≤ length s.now) }
    ensures { (result ≡ number width s.now) × (result < 256 ^ width) }
{
    let mut x: u32 = 0;
    for i in (0..width).rev() {
        x = x * 256 + s[i] as u32;
    }
    x
}

// The bytes of a number, least byte first.
pub fn lay_number(out: &mut [u8], at: usize, width: usize, x: u32)
    requires { at + width ≤ length out.old }
    ensures { out.new ≡ sets out.old at (lay width x) }
{
    let mut rest = x;
    for i in 0..width {
        out[at + i] = (rest % 256) as u8;
        rest = rest / 256;
    }
}

impl InBytes for u16 {
    const WIDTH: usize = 2;

    ghost WIDTH = { 2 };

    ghost read = { number 2 };

    ghost laid = { lay 2 };

    ghost value = { λ x. x };

    fn read(s: &[u8]) -> u16 {
        number_in(s, 2) as u16
    }

    fn lay(self, out: &mut [u8], at: usize) {
        lay_number(out, at, 2, self as u32);
    }

    fn value(self) -> u32 {
        self as u32
    }

    ghost as_wide = { length-lay 2 };
}

impl InBytes for u32 {
    const WIDTH: usize = 4;

    ghost WIDTH = { 4 };

    ghost read = { number 4 };

    ghost laid = { lay 4 };

    ghost value = { λ x. x };

    fn read(s: &[u8]) -> u32 {
        number_in(s, 4)
    }

    fn lay(self, out: &mut [u8], at: usize) {
        lay_number(out, at, 4, self);
    }

    fn value(self) -> u32 {
        self
    }

    ghost as_wide = { length-lay 4 };
}

// n numbers, which stand behind their count, put into a lent list.
pub fn fill<T: InBytes>(s: &[u8], out: &mut [T], n: usize)
    requires { (2 + T.WIDTH * n ≤ length s.now) × (n ≤ length out.old) }
    ensures { out.new ≡ sets out.old 0 (read_all T.read T.WIDTH n (drop 2 s.now)) }
{
    let mut t = &s[2..];
    for i in 0..n {
        out[i] = T::read(t);
        t = &t[T::WIDTH..];
    }
}

// The bytes of numbers, one after another.
pub fn lay_each<T: InBytes>(out: &mut [u8], at: usize, xs: &[T])
    requires { at + T.WIDTH * length xs.now ≤ length out.old }
    ensures { out.new ≡ sets out.old at (lay_each T.laid xs.now) }
{
    for (i, &x) in xs.iter().enumerate() {
        x.lay(out, at + T::WIDTH * i);
    }
}
