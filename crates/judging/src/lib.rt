// What the verdicts program prints, made in a text, and the program's own code: a text is read from an input, and a line written to an
// output for each of its lines, with the totals last.
#![tactic(auto)]

ghost use Rattle.std.specs.Prelude.{◌+◌, ◌*◌, ◌≤◌, ◌≡◌, ◌++◌, length, OnOk};
ghost use Rattle.std.specs.Io.KnownBytes.{Appends, Consumes};
ghost use Rattle.judging.specs.Report.{
  field_words,
  said_of,
  verdict_line,
  verdict_lines,
  how_many,
  total_line,
  refusal_line,
  report,
};
ghost use Rattle.judging.specs.Paper.{text_held, TextReported};

use fields::Text;
use rule::Reason;
use std::io;
use std::io::{Read, Write};

// The words of a field, by its number: a verdict stands in the lent list as one.
fn field_words(k: u8) -> &'static str
    ensures words { result.now ≡ field_words k }
    ensures few { length result.now ≤ 16 }
{
    match k {
        1 => "month count",
        2 => "number",
        3 => "leap mark",
        4 => "first day's name",
        5 => "length",
        _ => "eclipse mark",
    }
}

// What is said of a verdict: of a wrong line the field's number and its words.
fn write_said<const N: usize>(v: u8, text: &mut Text<N>)
    requires { length text.old + 34 ≤ N }
    ensures text { text.new ≡ text.old ++ said_of v }
    ensures few { length text.new ≤ length text.old + 34 }
{
    match v {
        0 => text.bytes(b" RIGHT"),
        1..=6 => {
            text.bytes(b" WRONG");
            text.field(v as u32);
            text.byte(b' ');
            text.bytes(field_words(v).as_bytes());
        }
        _ => text.bytes(b" UNREADABLE"),
    }
}

// The line of a verdict: the line number, and what is said.
#[tactic(auto, unfolding(crate::specs::Report::verdict_line))]
fn write_verdict<const N: usize>(line: u32, v: u8, text: &mut Text<N>)
    requires { length text.old + 45 ≤ N }
    ensures text { text.new ≡ text.old ++ verdict_line line v }
    ensures few { length text.new ≤ length text.old + 45 }
{
    text.number(line);
    write_said(v, text);
    text.byte(b'\n');
}

// The lines of all verdicts, numbered from 1.
// (That there are 65,536 at most is a clause and no type: all three that ask it are asked by `write_report` alone, of
// one list.)
fn write_verdicts<const N: usize>(vs: &[u8], text: &mut Text<N>)
    requires few { length vs.now ≤ 65536 }
    requires room { length text.old + 45 * length vs.now ≤ N }
    ensures text { text.new ≡ text.old ++ verdict_lines 1 vs.now }
    ensures few { length text.new ≤ length text.old + 45 * length vs.now }
{
    for (i, &v) in vs.iter().enumerate() {
        write_verdict(i as u32 + 1, v, text);
    }
}

// How many verdicts are one of those from `least` to `most`.
fn how_many(least: u8, most: u8, vs: &[u8]) -> u32
    requires { length vs.now ≤ 65536 }
    ensures { result ≡ how_many least most vs.now }
{
    vs.iter().filter(|v| (least <= **v) & (**v <= most)).count() as u32
}

// The last line: how many are right, wrong, unreadable.
#[tactic(auto, unfolding(crate::specs::Report::total_line, fields::specs::Fields::followed))]
fn write_total<const N: usize>(vs: &[u8], text: &mut Text<N>)
    requires few { length vs.now ≤ 65536 }
    requires room { length text.old + 39 ≤ N }
    ensures text { text.new ≡ text.old ++ total_line vs.now }
    ensures few { length text.new ≤ length text.old + 39 }
{
    let right = how_many(0, 0, vs);
    let wrong = how_many(1, 6, vs);
    let unreadable = how_many(7, 7, vs);
    text.bytes(b"TOTAL");
    text.field(right);
    text.field(wrong);
    text.field(unreadable);
    text.byte(b'\n');
}

// A refusal: `REFUSED`, the reason's number and its words, by `refusal_line`; the desk's is held to told's `refused_text`, on which this crate
// does not stand.
#[tactic(auto, unfolding(crate::specs::Report::refusal_line, fields::specs::Fields::followed))]
fn write_refusal<const N: usize>(why: Reason, text: &mut Text<N>)
    requires { length text.old + 84 ≤ N }
    ensures text { text.new ≡ text.old ++ refusal_line why }
    ensures few { length text.new ≤ length text.old + 84 }
{
    text.bytes(b"REFUSED");
    text.field(rule::reason_number(why) as u32);
    text.byte(b' ');
    words::write_words(why, text);
    text.byte(b'\n');
}

// The report of a text: 45 bytes at most a line, 65,536 lines at most, and 39.
fn write_report<const N: usize>(bytes: &[u8], text: &mut Text<N>)
    requires { length text.old + 2949159 ≤ N }
    ensures text { text.new ≡ text.old ++ report bytes.now }
    ensures few { length text.new ≤ length text.old + 2949159 }
{
    let mut vs = [0u8; 65536];
    match concordance::judge_text(bytes, &mut vs) {
        Err(why) => write_refusal(why, text),
        Ok(n) => {
            write_verdicts(&vs[..n], text);
            write_total(&vs[..n], text);
        }
    }
}

// The longest text has 65,536 bytes; one byte more shows that an input is longer.
// (An array: no heap, docs/DECISIONS.md, 269.)
fn text_room() -> [u8; 65537]
    ensures { text_held ≡ length result }
{
    [0u8; 65537]
}

// The report of the input of which n bytes were taken into a room: the front says what the whole does (FrontIsEnough).
// (The room and how much of it: `TextReported` is of such.)
fn report_taken<const N: usize>(bytes: &[u8], n: usize, text: &mut Text<N>)
    requires { (text_held ≡ length bytes.now) × (n ≤ length bytes.now) × (length text.old + 2949159 ≤ N) }
    ensures { TextReported bytes.now n text.old text.new }
{
    write_report(&bytes[..n], text)
}

// A text's report: of what was taken of an input, which has that of the whole. That all that fits is read no clause says.
pub fn report_from<R: Read, W: Write>(from: &mut R, to: &mut W) -> io::Result<()>
    ensures { (s : _) × Consumes (R.remaining from.old) (R.remaining from.new) s
        × OnOk result (Appends (W.contents to.old) (W.contents to.new) (report s)) }
{
    let mut bytes = text_room();
    let mut text = Text::<2949159>::new();
    let n = streams::read_full(from, &mut bytes);
    report_taken(&bytes, n, &mut text);
    to.write_all(text.as_slice())
}
