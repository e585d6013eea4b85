// The sheet: three sections of civil years, months and days, read into three lent lists and written into a lent buffer.
#![tactic(auto)]

ghost use Rattle.std.specs.Prelude.{◌≡◌, ◌≤◌, ◌&&◌, leb, length, map};
ghost use Rattle.std.proofs.lemmas.List.Edits.{sets};
ghost use Rattle.rule.specs.Reasons.{is, said, and_then, within};
ghost use Rattle.sheet.specs.Sheet.{
  Section,
  ranged,
  count_of,
  items_read,
  section_read,
  sections_read,
  sheet_sections,
  section_written,
  three_lists,
  sheet_of,
  write_sheet,
};
ghost use Rattle.sheet.specs.Steps.{CountRead, item_tested, front_read, bytes_of, FewOf, ToFill, Filled, ToLay};
ghost use Rattle.sheet.specs.Promises.{counts_in, ReadSheet, WriteSheet};

use octets::InBytes;
use rule::Reason;

// What a section is of: the bytes of an item, the most items, and whether an item is good.
pub trait InSection: Copy {
    ghost section: { Self → Section };

    ghost Readable: { Self → Type 0 };

    fn width(self) -> usize
        ensures { result ≡ (section self).width };

    fn most(self) -> usize
        ensures { result ≡ (section self).items };

    // Is the item good that stands, whole, at the front of what is left?
    fn test(self, s: &[u8]) -> Result<(), Reason>
        requires { Readable self × ((section self).width ≤ length s.now) }
        ensures { said result ≡ item_tested (section self) s.now };
}

// Items that are numbers in one range: the bytes of one, the least and the most that it may be, the reason where it is
// not, and the most items.
#[derive(Debug, Clone, Copy, PartialEq)]
pub struct Items {
    pub width: usize,
    pub least: u32,
    pub most: u32,
    pub reason: Reason,
    pub items: usize,
}

// The three counts of a sheet.
#[derive(Debug, Clone, Copy, PartialEq, Eq)]
pub struct Counted {
    pub years: usize,
    pub months: usize,
    pub days: usize,
}

impl Counted {
    // Where three sections of so many items end.
    pub fn end(self) -> usize
        requires { FewOf self }
        ensures { result ≡ bytes_of self }
    {
        6 + 2 * self.years + 4 * self.months + 4 * self.days
    }

    // Have three lent lists of these lengths room for so many?
    pub fn has_room(self, years: usize, months: usize, days: usize) -> bool
        ensures { result ≡ (leb self.years years && leb self.months months && leb self.days days) }
    {
        let y = self.years <= years;
        let m = self.months <= months;
        let d = self.days <= days;
        y & m & d
    }
}

// Where three sections of so many items end, by a function.
pub fn end_of(c: Counted) -> usize
    requires { FewOf c }
    ensures { result ≡ bytes_of c }
{
    c.end()
}

// Whether three lent lists of these lengths have room for so many, by a function.
pub fn has_room(c: Counted, years: usize, months: usize, days: usize) -> bool
    ensures { result ≡ (leb c.years years && leb c.months months && leb c.days days) }
{
    c.has_room(years, months, days)
}

const YEARS: Items = Items {
    width: 2,
    least: 0,
    most: 41040,
    reason: Reason::NoSuchYear,
    items: 1000,
};

const MONTHS: Items = Items {
    width: 4,
    least: 0,
    most: 507599,
    reason: Reason::NoSuchMonth,
    items: 1000,
};

const DAYS: Items = Items {
    width: 4,
    least: 0,
    most: 14989859,
    reason: Reason::NoSuchDay,
    items: 1000,
};

impl Items {
    // Is a number in the range?
    fn holds(self, x: u32) -> bool
        ensures { result ≡ within self.least self.most x }
    {
        rule::in_range(self.least, self.most, x)
    }
}

impl InSection for Items {
    ghost section = { ranged };

    ghost Readable = { λ k. k.width ≤ 4 };

    fn width(self) -> usize {
        self.width
    }

    fn most(self) -> usize {
        self.items
    }

    fn test(self, s: &[u8]) -> Result<(), Reason> {
        if !self.holds(octets::number_in(s, self.width)) {
            return Err(self.reason);
        }
        Ok(())
    }
}

// Are so many bytes left?
pub fn is_whole(s: &[u8], width: usize) -> bool
    ensures { result ≡ leb width (length s.now) }
{
    width <= s.len()
}

// The count of a section with so many items at most: reason 9, then 10.
pub fn count_at(s: &[u8], most: usize) -> Result<usize, Reason>
    ensures { CountRead most s.now result }
{
    if !is_whole(s, 2) {
        return Err(Reason::SheetEndsEarly);
    }
    let n = octets::number_in(s, 2) as usize;
    if most < n {
        return Err(Reason::CountTooLarge);
    }
    Ok(n)
}

// The items of a section, one by one: reason 9, then the section's own.
fn check_items<K: InSection>(s: &[u8], k: K, n: usize) -> Result<usize, Reason>
    requires { K.Readable k }
    ensures { said result ≡ and_then (items_read (K.section k) n s.now) (λ xs. is n) }
{
    let width = k.width();
    let mut t = s;
    for _ in 0..n {
        if !is_whole(t, width) {
            return Err(Reason::SheetEndsEarly);
        }
        k.test(t)?;
        t = &t[width..];
    }
    Ok(n)
}

// A section at the front of what is left: its count, then its items.
pub fn check_section<K: InSection>(s: &[u8], k: K) -> Result<usize, Reason>
    requires { K.Readable k }
    ensures { said result ≡ and_then (section_read (K.section k) s.now) (λ xs. is (count_of s.now)) }
{
    let n = count_at(s, k.most())?;
    check_items(&s[2..], k, n)
}

// The three sections, whatever comes after them: each is handed what the one before it left.
pub fn check_three(s: &[u8]) -> Result<Counted, Reason>
    ensures { said result ≡ and_then (front_read sheet_sections s.now) (λ l. is (counts_in s.now)) }
{
    let years = check_section(s, YEARS)?;
    let t = &s[2 + 2 * years..];
    let months = check_section(t, MONTHS)?;
    let u = &t[2 + 4 * months..];
    let days = check_section(u, DAYS)?;
    Ok(Counted {
        years,
        months,
        days,
    })
}

// The whole sheet: after the three sections nothing is left.
pub fn check_sheet(s: &[u8]) -> Result<Counted, Reason>
    ensures { said result ≡ and_then (sections_read sheet_sections s.now) (λ l. is (counts_in s.now)) }
{
    let c = check_three(s)?;
    if c.end() < s.len() {
        return Err(Reason::BytesAfterLast);
    }
    Ok(c)
}

// The items of three sections that are good, put into three lists with room for them.
// (Three lent lists, as the public calls have them.)
pub fn fill_sheet(s: &[u8], years: &mut [u16], months: &mut [u32], days: &mut [u32], c: Counted)
    requires { ToFill s.now (length years.old) (length months.old) (length days.old) c }
    ensures { Filled s.now years.old months.old days.old
        years.new months.new days.new }
{
    octets::fill(s, years, c.years);
    let t = &s[2 + 2 * c.years..];
    octets::fill(t, months, c.months);
    let u = &t[2 + 4 * c.months..];
    octets::fill(u, days, c.days);
}

// Reads a sheet into three lent lists. Nothing is written before the whole sheet and the lists are known to be good.
pub fn read_sheet(
    bytes: &[u8],
    years: &mut [u16],
    months: &mut [u32],
    days: &mut [u32],
) -> Result<Counted, Reason>
    ensures { ReadSheet bytes.now years.old months.old days.old result
        years.new months.new days.new }
{
    let c = check_sheet(bytes)?;
    if !c.has_room(years.len(), months.len(), days.len()) {
        return Err(Reason::LentTooShort);
    }
    fill_sheet(bytes, years, months, days, c);
    Ok(c)
}

// A list for a section: its length (reason 10), then its items.
fn check_list<T: InBytes>(xs: &[T], k: Items) -> Result<usize, Reason>
    ensures { said result ≡ and_then (section_written (ranged k) (map T.value xs.now)) (λ b. is (length xs.now)) }
{
    if k.items < xs.len() {
        return Err(Reason::CountTooLarge);
    }
    for &x in xs {
        if !k.holds(x.value()) {
            return Err(k.reason);
        }
    }
    Ok(xs.len())
}

// The three lists, one after the other; then how many bytes their sheet has.
fn size_of_sheet(years: &[u16], months: &[u32], days: &[u32]) -> Result<usize, Reason>
    ensures { said result ≡ and_then (write_sheet (three_lists years.now months.now days.now))
        (λ b. is (length (sheet_of (three_lists years.now months.now days.now)))) }
{
    let y = check_list(years, YEARS)?;
    let m = check_list(months, MONTHS)?;
    let d = check_list(days, DAYS)?;
    Ok(6 + 2 * y + 4 * m + 4 * d)
}

// The bytes of three lists that are good, in a buffer with room for them.
fn lay_sheet(years: &[u16], months: &[u32], days: &[u32], out: &mut [u8])
    requires { ToLay (length years.now) (length months.now) (length days.now) (length out.old) }
    ensures { out.new ≡ sets out.old 0
        (sheet_of (three_lists years.now months.now days.now)) }
{
    let m = 2 + 2 * years.len();
    let d = m + (2 + 4 * months.len());
    octets::lay_number(out, 0, 2, years.len() as u32);
    octets::lay_each(out, 2, years);
    octets::lay_number(out, m, 2, months.len() as u32);
    octets::lay_each(out, m + 2, months);
    octets::lay_number(out, d, 2, days.len() as u32);
    octets::lay_each(out, d + 2, days);
}

// Writes three lists into a lent buffer. Nothing is written before the lists and the buffer are known to be good.
pub fn write_sheet(
    years: &[u16],
    months: &[u32],
    days: &[u32],
    out: &mut [u8],
) -> Result<usize, Reason>
    ensures { WriteSheet years.now months.now days.now out.old result
        out.new }
{
    let n = size_of_sheet(years, months, days)?;
    if out.len() < n {
        return Err(Reason::LentTooShort);
    }
    lay_sheet(years, months, days, out);
    Ok(n)
}
