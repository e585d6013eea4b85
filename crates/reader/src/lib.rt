// A reader over a concordance: it goes through a text line by line, and keeps its place and line number between lines. What a step says
// and where it leads is `concordance::step_at`; it and the call for a whole text stand on `concordance::judge_at`.
#![tactic(auto)]

ghost use Rattle.std.specs.Prelude.{◌≡◌};
ghost use Rattle.reader.specs.Readers.{opened, NextLine};

use concordance::Verdict;
use rule::Reason;

// A text, the place where its next line starts, and how many lines were read: the paper's form, which stays.
// (It is neither compared nor printed.)
#[derive(Clone, Copy)]
pub struct Reader<'a> {
    text: &'a [u8],
    place: usize,
    line: u32,
}

// At the start of a text.
pub fn start<'a>(text: &'a [u8]) -> Reader<'a>
    ensures { result ≡ opened text.entry }
{
    Reader {
        text,
        place: 0,
        line: 0,
    }
}

// The verdict on the next line, past which the reader goes; or that none is left; or reason 18, where the text is too long.
pub fn next_line<'s, 'a>(r: &'s mut Reader<'a>) -> Result<Option<Verdict>, Reason>
    ensures { NextLine r.old r.new result }
{
    let s = concordance::step_at(r.text, r.place, r.line);
    r.place = s.place;
    r.line = s.line;
    s.said
}

// How many lines were read: the number of the line that was read last.
pub fn line_number<'a>(r: Reader<'a>) -> u32
    ensures { result ≡ r.entry.line }
{
    r.line
}
