// A text of N bytes at most that owns its bytes: what printed lines are made in, without a heap. Seen as the list of what is written.
ghost use Rattle.std.specs.Prelude.{◌≡◌, [], ◌∷◌, ◌++◌, ◌+◌, ◌≤◌, length};
ghost use Rattle.fields.specs.Fields.{decimal, mark};

use super::lent::{put_decimal, put_next};
use std::marker::Model;

#[derive(Drop)]
pub struct Text<const N: usize> {
    bytes: [u8; N],
    len: usize,
}

impl<const N: usize> Model for Text<N> {
    ghost use Rattle.std.specs.Prelude.{ℕ, List, ◌≤◌, take};

    ghost Value = { List ℕ };

    ghost view = { λ t. take t.len t.bytes };

    ghost invariant = { λ t. t.len ≤ N };
}

impl<const N: usize> Text<N> {
    pub fn new() -> Text<N>
        ensures { result ≡ [] }
    {
        Text {
            bytes: [0; N],
            len: 0,
        }
    }

    pub fn clear(&mut self)
        ensures { self.new ≡ [] }
    {
        self.len = 0;
    }

    pub fn as_slice(&self) -> &[u8]
        ensures { result.now ≡ self.now }
    {
        let all = &self.bytes[..];
        &all[..self.len]
    }

    // A byte.
    pub fn byte(&mut self, b: u8)
        requires { length self.old + 1 ≤ N }
        ensures text { self.new ≡ self.old ++ b ∷ [] }
        ensures len { length self.new ≡ length self.old + 1 }
    {
        self.bytes[self.len] = b;
        self.len += 1;
    }

    // Bytes, as those of a word.
    pub fn bytes(&mut self, s: &[u8])
        requires { length self.old + length s.now ≤ N }
        ensures text { self.new ≡ self.old ++ s.now }
        ensures len { length self.new ≡ length self.old + length s.now }
    {
        let end = self.len + s.len();
        let all = &mut self.bytes[..];
        all[self.len..end].copy_from_slice(s);
        self.len = end;
    }

    // A number in decimal: ten digits at most. It and a further field are put in place, so that how much is written is stored once.
    pub fn number(&mut self, n: u32)
        requires { length self.old + 10 ≤ N }
        ensures text { self.new ≡ self.old ++ decimal n }
        ensures few { length self.new ≤ length self.old + 10 }
    {
        let all = &mut self.bytes[..];
        self.len = put_decimal(n, all, self.len);
    }

    // A further field: a space, and a number.
    pub fn field(&mut self, n: u32)
        requires { length self.old + 11 ≤ N }
        ensures text { self.new ≡ self.old ++ (32 ∷ decimal n) }
        ensures few { length self.new ≤ length self.old + 11 }
    {
        let all = &mut self.bytes[..];
        self.len = put_next(n, all, self.len);
    }

    // A further field: a space, and a letter where the mark is there, `-` where it is absent.
    pub fn mark(&mut self, there: bool, letter: u8)
        requires { length self.old + 2 ≤ N }
        ensures text { self.new ≡ self.old ++ (32 ∷ mark there letter ∷ []) }
        ensures len { length self.new ≡ length self.old + 2 }
    {
        self.byte(b' ');
        self.byte(super::mark_of(there, letter));
    }
}
