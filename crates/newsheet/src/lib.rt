// The new form of the sheet: a fourth section of readings after the days, read into four lent lists; the old form converted to it, and back
// where there are no readings.
#![tactic(auto)]

ghost use Rattle.std.specs.Prelude.{◌≡◌, [], ◌∷◌, ◌+◌, ◌*◌, ◌≤◌, length, drop};
ghost use Rattle.std.proofs.lemmas.List.Edits.{sets};
ghost use Rattle.rule.specs.Reasons.{said, is, and_then};
ghost use Rattle.octets.specs.Bytes.{number, numbers};
ghost use Rattle.sheet.specs.Sheet.{count_of, sections_read};
ghost use Rattle.newsheet.specs.New.{eight_of, eights, eight_numbers, field_by, reading_in, reading_section, new_sections};
ghost use Rattle.newsheet.specs.Promises.{four_counts_in, ReadNew, ToNew, ToOld, ToFillNew, FilledNew};

use reading::{Field, Reading};
use rule::Reason;
use sheet::{Counted, InSection};

// The four counts of a sheet of the new form: years, months and days, and readings.
#[derive(Debug, Clone, Copy, PartialEq, Eq)]
pub struct FourCounts {
    pub three: Counted,
    pub readings: usize,
}

// The eight numbers of a reading, as they stand in a sheet: 0 is unread; a leap mark is 1 for ordinary and 2 for leap.
#[derive(Debug, Clone, Copy, PartialEq, Eq)]
pub struct Eight {
    pub year_name: u32,
    pub month_number: u32,
    pub leap_mark: u32,
    pub day_of_month: u32,
    pub day_name: u32,
    pub first_name: u32,
    pub first: u32,
    pub last: u32,
}

// A field by its number: 0 is unread. No `From`: neither the field nor the number is of this crate.
fn field_by(n: u32) -> Field
    ensures { result ≡ field_by n }
{
    if n == 0 {
        Field::Unread
    } else {
        Field::Known(n)
    }
}

// The eight numbers of the reading in the first 14 bytes.
fn eight_in(s: &[u8]) -> Eight
    requires { 14 ≤ length s.now }
    ensures { eight_numbers result ≡ eight_of (number 14 s.now) }
{
    let first = octets::number_in(&s[6..], 4);
    let last = octets::number_in(&s[10..], 4);
    Eight {
        year_name: s[0] as u32,
        month_number: s[1] as u32,
        leap_mark: s[2] as u32,
        day_of_month: s[3] as u32,
        day_name: s[4] as u32,
        first_name: s[5] as u32,
        first,
        last,
    }
}

// The reading that eight numbers are of.
impl From<Eight> for Reading {
    ghost from_gives = { λ e r. r ≡ reading_in (eight_numbers e) };

    fn from(e: Eight) -> Reading {
        Reading {
            year_name: field_by(e.year_name),
            month_number: field_by(e.month_number),
            leap_mark: field_by(e.leap_mark),
            day_of_month: field_by(e.day_of_month),
            day_name: field_by(e.day_name),
            first_name: field_by(e.first_name),
        }
    }
}

// The same by a function.
pub fn reading_in(e: Eight) -> Reading
    ensures { result ≡ reading_in (eight_numbers e) }
{
    Reading::from(e)
}

// The fourth section is of readings, with the search's own tests: 6, 13 and 14.
#[derive(Debug, Clone, Copy, PartialEq, Eq)]
struct Readings;

const MOST_READINGS: usize = 500;

impl InSection for Readings {
    ghost section = { λ k. reading_section };

    ghost Readable = { λ k. Unit {0} };

    fn width(self) -> usize {
        14
    }

    fn most(self) -> usize {
        MOST_READINGS
    }

    fn test(self, s: &[u8]) -> Result<(), Reason> {
        let e = eight_in(s);
        reading::test_search(Reading::from(e), e.first, e.last)
    }
}

// The fourth section, which ends the sheet: its count, then its readings; after them nothing is left.
fn check_fourth(s: &[u8]) -> Result<usize, Reason>
    ensures { said result ≡ and_then (sections_read (reading_section ∷ []) s.now) (λ l. is (count_of s.now)) }
{
    let n = sheet::check_section(s, Readings)?;
    if 2 + 14 * n < s.len() {
        return Err(Reason::BytesAfterLast);
    }
    Ok(n)
}

// The whole sheet: the three sections, then the fourth from where they ended.
fn check_new(s: &[u8]) -> Result<FourCounts, Reason>
    ensures { said result ≡ and_then (sections_read new_sections s.now) (λ l. is (four_counts_in s.now)) }
{
    let three = sheet::check_three(s)?;
    let end = three.end();
    let readings = check_fourth(&s[end..])?;
    Ok(FourCounts { three, readings })
}

// The eight numbers of a reading, put into the list at a place: one by one, since a copy of eight in a row took half as long again.
fn put_eight(e: Eight, out: &mut [u32], at: usize)
    requires { at + 8 ≤ length out.old }
    ensures { out.new ≡ sets out.old at (eight_numbers e) }
{
    out[at] = e.year_name;
    out[at + 1] = e.month_number;
    out[at + 2] = e.leap_mark;
    out[at + 3] = e.day_of_month;
    out[at + 4] = e.day_name;
    out[at + 5] = e.first_name;
    out[at + 6] = e.first;
    out[at + 7] = e.last;
}

// The numbers of n readings, which stand behind their count, put into a lent list.
fn fill_readings(s: &[u8], out: &mut [u32], n: usize)
    requires { (n ≤ 500) × (2 + 14 * n ≤ length s.now) × (8 * n ≤ length out.old) }
    ensures { out.new ≡ sets out.old 0 (eights (numbers 14 n (drop 2 s.now))) }
{
    let mut t = &s[2..];
    for i in 0..n {
        put_eight(eight_in(t), out, 8 * i);
        t = &t[14..];
    }
}

// The items of a sheet that is good, put into four lists with room for them.
fn fill_new(
    s: &[u8],
    years: &mut [u16],
    months: &mut [u32],
    days: &mut [u32],
    readings: &mut [u32],
    c: FourCounts,
)
    requires { ToFillNew s.now (length years.old) (length months.old) (length days.old) (length readings.old) c }
    ensures { FilledNew s.now years.old months.old days.old readings.old
        years.new months.new days.new readings.new }
{
    let three = c.three;
    let n = c.readings;
    sheet::fill_sheet(s, years, months, days, three);
    let end = three.end();
    fill_readings(&s[end..], readings, n);
}

// Reads a sheet of the new form into four lent lists, eight numbers a reading. Nothing is written before the whole sheet and the lists are known
// to be good.
pub fn read_new(
    bytes: &[u8],
    years: &mut [u16],
    months: &mut [u32],
    days: &mut [u32],
    readings: &mut [u32],
) -> Result<FourCounts, Reason>
    ensures { ReadNew bytes.now years.old months.old days.old readings.old result
        years.new months.new days.new readings.new }
{
    let c = check_new(bytes)?;
    if !c.three.has_room(years.len(), months.len(), days.len()) {
        return Err(Reason::LentTooShort);
    }
    if readings.len() < 8 * c.readings {
        return Err(Reason::LentTooShort);
    }
    fill_new(bytes, years, months, days, readings, c);
    Ok(c)
}

// Bytes copied to the front of a buffer, one by one: nothing says that two lent buffers lie apart, so that `copy_from_slice` of them would ask
// whoever links the archive for a `memmove` (docs/C.md).
fn copy_bytes(bytes: &[u8], out: &mut [u8])
    requires { length bytes.now ≤ length out.old }
    ensures { out.new ≡ sets out.old 0 bytes.now }
{
    for (i, &b) in bytes.iter().enumerate() {
        out[i] = b;
    }
}

// A sheet of the old form put into a lent buffer in the new one: the same bytes and a count of 0.
pub fn to_new(bytes: &[u8], out: &mut [u8]) -> Result<usize, Reason>
    ensures { ToNew bytes.now out.old result out.new }
{
    sheet::check_sheet(bytes)?;
    let n = bytes.len();
    if out.len() < n + 2 {
        return Err(Reason::LentTooShort);
    }
    copy_bytes(bytes, out);
    out[n] = 0;
    out[n + 1] = 0;
    Ok(n + 2)
}

// A sheet of the new form without readings put into a lent buffer in the old one: the same bytes without the count of 0.
pub fn to_old(bytes: &[u8], out: &mut [u8]) -> Result<usize, Reason>
    ensures { ToOld bytes.now out.old result out.new }
{
    let c = check_new(bytes)?;
    if 0 < c.readings {
        return Err(Reason::ReadingsPresent);
    }
    let n = bytes.len() - 2;
    if out.len() < n {
        return Err(Reason::LentTooShort);
    }
    copy_bytes(&bytes[..n], out);
    Ok(n)
}
