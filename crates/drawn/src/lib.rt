// A drawer filled behind plain parameters, for tests and times: a record holds an enum, so that C and Rust cannot be lent a list of them.
// The records stand in a local array, and every one that is filled goes into a sum.
#![tactic(auto)]

ghost use Rattle.std.specs.Prelude.{◌≡◌, ◌<◌, ◌≤◌};
ghost use Rattle.drawer.specs.Drawer.{said_filled};
ghost use Rattle.drawn.specs.Drawn.{bit, low_of, high_of, added_of, drawn_with, drawn_of};

use dates::Date;
use drawer::DrawerError;
use rule::Month;

// The answer for a drawer laid flat, and what the records that are filled add up to.
// (For C: no more derives than it needs.)
#[repr(C)]
#[derive(Clone, Copy)]
pub struct Drawn {
    pub reason: u32,
    pub count: u32,
    pub place: u32,
    pub sum: u64,
}

// A record before it is filled.
// (`Date` has no number that is none, and the blank date of `flat` is a record for C.)
fn blank() -> Date {
    Date {
        month: Month::Ordinary(0),
        year: 0,
        day_of_month: 0,
        month_length: 0,
        day_name: 0,
        year_name: 0,
        ji: 0,
        bu: 0,
        year_in_bu: 0,
        eclipse: false,
    }
}

// A mark as a number.
fn bit(mark: bool) -> u64
    ensures { (result ≡ bit mark) × (result ≤ 1) }
{
    if mark {
        return 1;
    }
    0
}

// The values of a record in two numbers, side by side as they lie in memory.
fn low_word(date: Date) -> u64
    ensures { result ≡ low_of date }
{
    let month = date.month;
    let leap = bit(rule::leap_mark(month));
    let number = rule::number_of(month) as u64;
    let year = date.year as u64;
    let days = date.day_of_month as u64 + 256 * (date.month_length as u64);
    let names = date.day_name as u64 + 256 * (date.year_name as u64);
    leap + 256 * number + 65536 * year + 4294967296 * (days + 65536 * names)
}

fn high_word(date: Date) -> u64
    ensures { (result ≡ high_of date) × (result < 33554432) }
{
    let eclipse = bit(date.eclipse);
    let place = date.ji as u64 + 256 * (date.bu as u64);
    place + 65536 * (date.year_in_bu as u64 + 256 * eclipse)
}

// One record more in the sum: it is turned by seven bits, and the record's two words, laid one over the other bit by bit, come in. Cheap, since it is
// timed with the call: with sums alone the compiler would add the words' parts to it one after the other, each waiting for the one before.
fn added(sum: u64, date: Date) -> u64
    ensures { result ≡ added_of sum date }
{
    let turned = sum % 144115188075855872 * 128 + sum / 144115188075855872;
    let words = low_word(date) ^ 4294967291 * high_word(date);
    std::num::wrapping_add_u64(turned, words)
}

// An answer laid flat; the sum is 0 where the drawer comes back.
fn told(answer: Result<u32, DrawerError>, sum: u64) -> Drawn
    ensures { result ≡ drawn_with (said_filled answer) sum }
{
    match answer {
        Ok(n) => Drawn {
            reason: 0,
            count: n,
            place: 0,
            sum,
        },
        Err(DrawerError::BadDay { place }) => Drawn {
            reason: 6,
            count: 0,
            place,
            sum: 0,
        },
        Err(DrawerError::Refused(why)) => Drawn {
            reason: rule::reason_number(why) as u32,
            count: 0,
            place: 0,
            sum: 0,
        },
    }
}

// A drawer of 4,096 records filled with the dates of these days, and all of them read.
#[unsafe(no_mangle)]
pub extern "C" fn oes_drawn(days: &[u32]) -> Drawn
    ensures { result ≡ drawn_of days.now }
{
    let mut records = [blank(); 4096];
    let answer = drawer::fill_dates(days, &mut records);
    let mut sum: u64 = 0;
    for &record in &records[..drawer::to_fill(answer)] {
        sum = added(sum, record);
    }
    told(answer, sum)
}
