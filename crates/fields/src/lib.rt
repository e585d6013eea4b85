// What printed lines are made of, and made in: a text, into which words, decimal numbers, spaces and marks are written one after the other; or a
// lent buffer, into which they are put.
// All of these are inner: each asks for room, and says how many bytes it takes at most, so that callers can add them up.
#![tactic(auto)]

ghost use Rattle.std.specs.Prelude.{◌≡◌};
ghost use Rattle.fields.specs.Fields.{mark};

mod lent;
mod text;

pub use lent::{put_byte, put_bytes, put_decimal, put_mark, put_next};
pub use text::Text;

// A letter where the mark is there, `-` where it is absent.
pub fn mark_of(there: bool, letter: u8) -> u8
    ensures { result ≡ mark there letter }
{
    if there { letter } else { 45 }
}
