// The lines of an input, held and answered, with echo or without: the desk program's own code. Of each line the first
// 201 bytes are held, which have the answer of the whole. No contract here says what is written; what the text
// that is written holds, and whose answer it is, is said.
#![tactic(auto)]

ghost use Rattle.std.specs.Prelude.{◌+◌, ◌≤◌, ◌≡◌, cond, [], ◌∷◌, ◌++◌, length, take};
ghost use Rattle.told.specs.Answers.{places};
ghost use Rattle.held.specs.Held.{line_after, line_after_all, is_note, echoed, reply, said_at, said_at_end};
ghost use Rattle.held.specs.Held.{Becomes, Answers};

use fields::Text;
use std::io;
use std::io::{Read, Write};
use streams::Output;

// What is held of the line that is being read: its first 201 bytes. A room and how much of it is held, since
// `OneHolding` is of such.
#[derive(Drop)]
struct Line {
    bytes: [u8; 201],
    held: usize,
    ghost few: { held ≤ 201 },
}

impl Line {
    // A line of which nothing has come.
    fn new() -> Line
        ensures { result.held ≡ 0 }
    {
        Line {
            bytes: [0; 201],
            held: 0,
        }
    }

    // What is held of it.
    fn as_slice(&self) -> &[u8]
        ensures bytes { result.now ≡ take self.now.held self.now.bytes }
        ensures few { length result.now ≤ 201 }
    {
        &self.bytes[..self.held]
    }

    // A byte more of the line of which so many are held, where there is room for it: how many are held then. (The count
    // goes from byte to byte by value: kept in the struct, each byte waited for the one before to be stored.)
    fn hold(&mut self, b: u8, held: usize) -> usize
        requires { held ≤ 201 }
        ensures { Becomes (λ l. l ++ (b ∷ [])) self.old.bytes held self.new.bytes result }
    {
        if held < 201 {
            self.bytes[held] = b;
            return held + 1;
        }
        held
    }
}

// Whether a line is a note, which is printed as its own answer.
fn is_note(line: &[u8]) -> bool
    ensures { result ≡ is_note line.now }
{
    line.len() <= 200 && asked::is_hashed(line)
}

// With echo, a line of 201 bytes at most, where its answer does not print it.
#[tactic(auto, using(crate::proofs::Echo::echoes))]
fn write_echo<const N: usize>(echo: bool, line: &[u8], text: &mut Text<N>)
    requires { (length line.now ≤ 201) × (length text.old + 202 ≤ N) }
    ensures text { text.new ≡ text.old ++ cond echo (echoed line.now) [] }
    ensures few { length text.new ≤ length text.old + 202 }
{
    if echo && !is_note(line) {
        queries::write_line(line, text);
    }
}

// What is said to a line of 201 bytes at most.
#[tactic(auto, unfolding(crate::specs::Held::reply))]
fn write_said<const N: usize>(echo: bool, line: &[u8], days: &mut [u32], text: &mut Text<N>)
    requires { (length line.now ≤ 201) × (places ≤ length days.old) × (length text.old + 3275781 ≤ N) }
    ensures text { text.new ≡ text.old ++ reply echo line.now }
    ensures few { length text.new ≤ length text.old + 3275781 }
{
    write_echo(echo, line, text);
    queries::answer_line(line, days, text);
}

// The desk at work: the line that is being read, the memory that its answer takes, what is said, and where it goes.
#[derive(Drop)]
struct Desk<W> {
    echo: bool,
    line: Line,
    // Four places for each day of the longest window, as many as its emendations take.
    days: [u32; 111036],
    // Room for a line that is echoed, of 202 bytes, and the longest answer: a `FOUND` line of 17 and 27,759 `DAY` lines
    // of 118.
    said: Text<3275781>,
    to: Output<W>,
}

impl<W: Write> Desk<W> {
    // The line is answered: to what is held the same is said as to the whole (HeldIsEnough).
    fn answer_held(&mut self)
        ensures answers { Answers (reply self.old.echo) self.old.line.bytes self.old.line.held self.new.said }
        ensures echo { self.new.echo ≡ self.old.echo }
    {
        self.said.clear();
        write_said(
            self.echo,
            self.line.as_slice(),
            &mut self.days,
            &mut self.said,
        );
        self.to.put(self.said.as_slice());
    }

    // One byte of the input, where so many are held of the line: the end of the line, which is answered, or a byte more
    // of it. How many bytes are held then.
    fn take_byte(&mut self, b: u8, held: usize) -> usize
        requires { held ≤ 201 }
        ensures becomes { Becomes (λ l. line_after l b) self.old.line.bytes held self.new.line.bytes result }
        ensures answers { Answers (λ l. said_at self.old.echo l b) self.old.line.bytes held self.new.said }
        ensures echo { self.new.echo ≡ self.old.echo }
    {
        if b == b'\n' {
            self.line.held = held;
            self.answer_held();
            0
        } else {
            self.said.clear();
            self.line.hold(b, held)
        }
    }

    // So many bytes of the input, one after the other.
    fn take_bytes(&mut self, bytes: &[u8])
        ensures { Becomes (λ l. line_after_all l bytes.now) self.old.line.bytes self.old.line.held
            self.new.line.bytes self.new.line.held }
    {
        let mut held = self.line.held;
        for &b in bytes {
            held = self.take_byte(b, held);
        }
        self.line.held = held;
    }

    // The next bytes of the input, as many as come: how many, and none at the input's end.
    fn take_some<R: Read>(&mut self, from: &mut R, bytes: &mut [u8]) -> usize
        ensures { Becomes (λ l. line_after_all l (take result bytes.new)) self.old.line.bytes self.old.line.held
            self.new.line.bytes self.new.line.held }
    {
        let n = streams::read_some(from, bytes);
        self.take_bytes(&bytes[..n]);
        n
    }

    // "A final line without a newline counts", where there is one.
    fn end_input(&mut self)
        ensures { Answers (said_at_end self.old.echo) self.old.line.bytes self.old.line.held self.new.said }
    {
        self.said.clear();
        if 0 < self.line.held {
            self.answer_held();
        }
    }

    // The whole input, or as much as is read until a write fails. No input has 2 to the 64th parts.
    fn answer_all<R: Read>(&mut self, from: &mut R, bytes: &mut [u8]) {
        for _ in 0..u64::MAX {
            if self.take_some(from, bytes) == 0 {
                self.end_input();
                return;
            }
            if !self.to.is_ok() {
                return;
            }
        }
    }
}

// An input answered on an output. It is read so many bytes at once, since a loop that moves much data would spend its
// time on calls of fewer.
pub fn answer_input<R: Read, W: Write + Drop>(echo: bool, from: &mut R, to: W) -> io::Result<()> {
    let mut bytes = [0u8; 65536];
    let mut desk = Desk {
        echo,
        line: Line::new(),
        days: [0; 111036],
        said: Text::new(),
        to: Output::new(to),
    };
    desk.answer_all(from, &mut bytes);
    desk.to.end()
}
