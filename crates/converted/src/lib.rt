// The converting programs' own code: a sheet is read from an input and written in the other form to an output, a refusal to another.
#![tactic(auto)]

ghost use Rattle.std.specs.Prelude.{◌≤◌, ◌≡◌, length, take, IfOk, OnOk, MatchResult};
ghost use Rattle.std.specs.Io.KnownBytes.{Appends, Consumes};
ghost use Rattle.rule.specs.Reasons.{reason_number};
ghost use Rattle.penned.specs.Lines.{refused_line};
ghost use Rattle.newsheet.specs.New.{to_new, to_old};
ghost use Rattle.converted.specs.Paper.{old_held, new_held, new_most, old_most, InputToNew, InputToOld, Given};

use fields::Text;
use rule::Reason;
use std::io;
use std::io::{Read, Write};

// The longest sheet of the old form has 10,006 bytes, that of the new one 17,008; one byte more shows that an input is longer.
// (An array: no heap, docs/DECISIONS.md, 269.)
fn old_room() -> [u8; 10007]
    ensures { old_held ≡ length result }
{
    [0u8; 10007]
}

fn new_room() -> [u8; 17009]
    ensures { new_held ≡ length result }
{
    [0u8; 17009]
}

// The input of which n bytes were taken into a room, in the new form: the front is converted as the whole is (FrontIsEnough).
// (The room and how much of it: `InputToNew` and `InputToOld` are of such.)
fn new_taken(bytes: &[u8], n: usize, out: &mut [u8]) -> Result<usize, Reason>
    requires { (old_held ≡ length bytes.now) × (n ≤ length bytes.now) }
    ensures { InputToNew bytes.now n out.old result out.new }
{
    newsheet::to_new(&bytes[..n], out)
}

// The same in the old form.
fn old_taken(bytes: &[u8], n: usize, out: &mut [u8]) -> Result<usize, Reason>
    requires { (new_held ≡ length bytes.now) × (n ≤ length bytes.now) }
    ensures { InputToOld bytes.now n out.old result out.new }
{
    newsheet::to_old(&bytes[..n], out)
}

// A refusal.
fn refuse<E: Write>(why: Reason, errors: &mut E) -> io::Result<()>
    ensures { OnOk result (Appends (E.contents errors.old) (E.contents errors.new) (refused_line (reason_number why))) }
{
    let mut line = Text::<19>::new();
    lines::write_refused(why, &mut line);
    errors.write_all(line.as_slice())
}

// What a conversion answered: the front of its buffer to the output, or a refusal to the other.
fn hand_on<W: Write, E: Write>(
    answer: Result<usize, Reason>,
    out: &[u8],
    to: &mut W,
    errors: &mut E,
) -> io::Result<()>
    requires { IfOk answer (λ m. m ≤ length out.now) }
    ensures { OnOk result (MatchResult answer (λ m. Appends (W.contents to.old) (W.contents to.new) (take m out.now))
        (λ why. Appends (E.contents errors.old) (E.contents errors.new) (refused_line (reason_number why)))) }
{
    match answer {
        Err(why) => refuse(why, errors),
        Ok(m) => to.write_all(&out[..m]),
    }
}

// A sheet of the old form in the new one. The two programs differ in their rooms and in the call: a closure over both would need more clauses
// than they have lines.
pub fn new_from<R: Read, W: Write, E: Write>(
    from: &mut R,
    to: &mut W,
    errors: &mut E,
) -> io::Result<()>
    ensures { (s : _) × Consumes (R.remaining from.old) (R.remaining from.new) s
        × OnOk result (Given (to_new s new_most) (W.contents to.old) (W.contents to.new)
        (E.contents errors.old) (E.contents errors.new)) }
{
    let mut bytes = old_room();
    let mut out = [0u8; 10008];
    let n = streams::read_full(from, &mut bytes);
    let answer = new_taken(&bytes, n, &mut out);
    hand_on(answer, &out, to, errors)
}

// A sheet of the new form in the old one.
pub fn old_from<R: Read, W: Write, E: Write>(
    from: &mut R,
    to: &mut W,
    errors: &mut E,
) -> io::Result<()>
    ensures { (s : _) × Consumes (R.remaining from.old) (R.remaining from.new) s
        × OnOk result (Given (to_old s old_most) (W.contents to.old) (W.contents to.new)
        (E.contents errors.old) (E.contents errors.new)) }
{
    let mut bytes = new_room();
    let mut out = [0u8; 10006];
    let n = streams::read_full(from, &mut bytes);
    let answer = old_taken(&bytes, n, &mut out);
    hand_on(answer, &out, to, errors)
}
