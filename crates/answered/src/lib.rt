// The answers to a sheet of the new form, each made in a text: its listing, then each reading with the search's answer; the answering program's
// own code.
#![tactic(auto)]

ghost use Rattle.std.specs.Prelude.{◌+◌, ◌*◌, ◌≤◌, ◌<◌, ◌≡◌, ◌∷◌, ◌++◌, length, take, drop, OnOk};
ghost use Rattle.std.specs.Io.KnownBytes.{Appends, Consumes};
ghost use Rattle.told.specs.Answers.{places};
ghost use Rattle.newsheet.specs.New.{eight_numbers};
ghost use Rattle.answered.specs.Answers.{field_shown, mark_shown, rest_text, reading_line, answer_to_reading, answers_text};
ghost use Rattle.answered.specs.Paper.{answers_held, HeadWritten, InputHeaded, ReadingAnswered, ReadingsAnswered, InputHeadAnswered, InputAnswered};

use fields::Text;
use newsheet::Eight;
use reading::Reading;
use std::io;
use std::io::{Read, Write};

// A space, and a number that was read or `?`.
// (0 is unread, as `reading_line` is said of the eight numbers of the lent list.)
fn write_field<const N: usize>(n: u32, text: &mut Text<N>)
    requires { length text.old + 11 ≤ N }
    ensures text { text.new ≡ text.old ++ (32 ∷ field_shown n) }
    ensures few { length text.new ≤ length text.old + 11 }
{
    match n {
        0 => text.bytes(b" ?"),
        _ => text.field(n),
    }
}

// A space, and a mark that was read or `?`.
fn write_mark<const N: usize>(n: u32, text: &mut Text<N>)
    requires { length text.old + 2 ≤ N }
    ensures text { text.new ≡ text.old ++ (32 ∷ mark_shown n) }
    ensures few { length text.new ≤ length text.old + 2 }
{
    match n {
        0 => text.bytes(b" ?"),
        _ => text.mark(n == 2, b'L'),
    }
}

// A space, and what a `READING` line has from the day of the month on; apart, since ten writes in a row did not prove by themselves.
#[tactic(auto, unfolding(fields::specs::Fields::followed))]
fn write_rest<const N: usize>(e: Eight, text: &mut Text<N>)
    requires { length text.old + 55 ≤ N }
    ensures text { text.new ≡ text.old ++ (32 ∷ rest_text (eight_numbers e)) }
    ensures few { length text.new ≤ length text.old + 55 }
{
    write_field(e.day_of_month, text);
    write_field(e.day_name, text);
    write_field(e.first_name, text);
    text.field(e.first);
    text.field(e.last);
}

// A `READING` line.
#[tactic(auto, unfolding(crate::specs::Answers::reading_line, fields::specs::Fields::followed))]
fn write_reading<const N: usize>(e: Eight, text: &mut Text<N>)
    requires { length text.old + 87 ≤ N }
    ensures text { text.new ≡ text.old ++ reading_line (eight_numbers e) }
    ensures few { length text.new ≤ length text.old + 87 }
{
    text.bytes(b"READING");
    write_field(e.year_name, text);
    write_field(e.month_number, text);
    write_mark(e.leap_mark, text);
    write_rest(e, text);
    text.byte(b'\n');
}

// A reading and the search's answer: a `READING` line of 87 bytes, a `FOUND` line of 17 and 27,759 `DAY` lines of 118 at most.
fn write_answer<const N: usize>(e: Eight, days: &mut [u32], text: &mut Text<N>)
    requires { (places ≤ length days.old) × (length text.old + 3275666 ≤ N) }
    ensures text { text.new ≡ text.old ++ answer_to_reading (eight_numbers e) }
    ensures few { length text.new ≤ length text.old + 3275666 }
{
    write_reading(e, text);
    answers::answer_search(Reading::from(e), e.first, e.last, days, text);
}

// The eight numbers of reading j of a list.
fn eight_at(list: &[u32], j: usize) -> Eight
    requires { (j < 500) × (8 * j + 8 ≤ length list.now) }
    ensures { eight_numbers result ≡ take 8 (drop (8 * j) list.now) }
{
    let t = &list[8 * j..];
    Eight {
        year_name: t[0],
        month_number: t[1],
        leap_mark: t[2],
        day_of_month: t[3],
        day_name: t[4],
        first_name: t[5],
        first: t[6],
        last: t[7],
    }
}

// Reading j of n, answered after a text.
fn answer_reading<const N: usize>(
    list: &[u32],
    n: usize,
    j: usize,
    days: &mut [u32],
    text: &mut Text<N>,
)
    requires { (j < n) × (n ≤ 500) × (8 * n ≤ length list.now) × (places ≤ length days.old) × (length text.old + 3275666 ≤ N) }
    ensures text { ReadingAnswered list.now n j text.old text.new }
    ensures few { length text.new ≤ length text.old + 3275666 }
{
    write_answer(eight_at(list, j), days, text);
}

// The n readings of a list, one by one: the days that a search finds and the answer to a reading have room of their own.
// (The list and how many readings: `HoldsReadings` is of such.)
fn answer_readings<W: Write>(list: &[u32], n: usize, to: &mut W) -> io::Result<()>
    requires { (n ≤ 500) × (8 * n ≤ length list.now) }
    ensures { ReadingsAnswered list.now n result (W.contents to.old) (W.contents to.new) }
{
    let mut days = [0u32; 111036];
    let mut text = Text::<3275666>::new();
    for j in 0..n {
        text.clear();
        answer_reading(list, n, j, &mut days, &mut text);
        to.write_all(text.as_slice())?;
    }
    Ok(())
}

// What comes before the readings, after a text; and the readings that follow, put into a list with room for 500: how many they are.
fn write_head<const N: usize>(bytes: &[u8], list: &mut [u32], text: &mut Text<N>) -> usize
    requires { (4000 ≤ length list.old) × (length text.old + 789000 ≤ N) }
    ensures { HeadWritten bytes.now list.new text.old text.new result }
{
    let mut years = [0u16; 1000];
    let mut months = [0u32; 1000];
    let mut days = [0u32; 1000];
    match newsheet::read_new(bytes, &mut years, &mut months, &mut days, list) {
        Err(why) => {
            lines::write_refused(why, text);
            0
        }
        Ok(c) => {
            let three = c.three;
            listed::write_lists(
                &years[..three.years],
                &months[..three.months],
                &days[..three.days],
                text,
            );
            c.readings
        }
    }
}

// The head for the input of which n bytes were taken into a room: the front says what the whole does (FrontIsEnough).
// (The room and how much of it: `InputHeaded` and `InputAnswered` are of such.)
fn head_taken<const N: usize>(bytes: &[u8], n: usize, list: &mut [u32], text: &mut Text<N>) -> usize
    requires { (answers_held ≡ length bytes.now) × (n ≤ length bytes.now) × (4000 ≤ length list.old) × (length text.old + 789000 ≤ N) }
    ensures { InputHeaded bytes.now n list.new text.old text.new result }
{
    write_head(&bytes[..n], list, text)
}

// What comes before the readings, to an output; and the readings that follow, put into a list: how many they are.
fn answer_head<W: Write>(bytes: &[u8], n: usize, list: &mut [u32], to: &mut W) -> io::Result<usize>
    requires { (answers_held ≡ length bytes.now) × (n ≤ length bytes.now) × (4000 ≤ length list.old) }
    ensures { InputHeadAnswered bytes.now n list.new result (W.contents to.old) (W.contents to.new) }
{
    let mut text = Text::<789000>::new();
    let readings = head_taken(bytes, n, list, &mut text);
    to.write_all(text.as_slice())?;
    Ok(readings)
}

// The input answered: first what comes before the readings, then reading by reading.
fn answer_taken<W: Write>(bytes: &[u8], n: usize, to: &mut W) -> io::Result<()>
    requires { (answers_held ≡ length bytes.now) × (n ≤ length bytes.now) }
    ensures { InputAnswered bytes.now n result (W.contents to.old) (W.contents to.new) }
{
    let mut list = [0u32; 4000];
    let readings = answer_head(bytes, n, &mut list, to)?;
    answer_readings(&list, readings, to)
}

// The longest sheet has 17,008 bytes; one byte more shows that an input is longer.
// (An array: no heap, docs/DECISIONS.md, 269.)
fn sheet_room() -> [u8; 17009]
    ensures { answers_held ≡ length result }
{
    [0u8; 17009]
}

// A sheet's answers.
pub fn answer_from<R: Read, W: Write>(from: &mut R, to: &mut W) -> io::Result<()>
    ensures { (s : _) × Consumes (R.remaining from.old) (R.remaining from.new) s
        × OnOk result (Appends (W.contents to.old) (W.contents to.new) (answers_text s)) }
{
    let mut bytes = sheet_room();
    let n = streams::read_full(from, &mut bytes);
    answer_taken(&bytes, n, to)
}
