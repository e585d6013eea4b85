// The words of a reason, true wherever it is given (docs/PAPER.md has the paper's rows beside them), written into a text; or put into a lent
// buffer.
#![tactic(auto)]

ghost use Rattle.std.specs.Prelude.{◌≡◌, ◌++◌, ◌+◌, ◌≤◌, length};
ghost use Rattle.penned.specs.Lines.{words_of};

use fields::Text;
use rule::Reason;

mod lent;

pub use lent::put_words;

// The words of a reason, written after a text.
pub fn write_words<const N: usize>(why: Reason, text: &mut Text<N>)
    requires { length text.old + 64 ≤ N }
    ensures text { text.new ≡ text.old ++ words_of why }
    ensures few { length text.new ≤ length text.old + 64 }
{
    text.bytes(why.words().as_bytes());
}
