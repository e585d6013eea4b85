// The words of a reason put into a lent buffer from a place on: what stands before and behind is left, and the next place is answered.
ghost use Rattle.std.specs.Prelude.{◌+◌, ◌≤◌, length};
ghost use Rattle.fields.specs.Fields.{Put};
ghost use Rattle.penned.specs.Lines.{words_of};

use rule::Reason;

// The words of a reason: 64 bytes at most.
pub fn put_words(why: Reason, out: &mut [u8], at: usize) -> usize
    requires { at + 64 ≤ length out.old }
    ensures { Put 64 out.old at (words_of why) out.new result }
{
    fields::put_bytes(why.words().as_bytes(), out, at)
}
