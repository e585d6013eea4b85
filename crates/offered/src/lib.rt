// What C is offered: one struct for each answer, with the reason in front, and one for a slip; in specs/ how an answer is laid flat into
// its struct, what the twenty-nine calls promise, and statements with their proofs. No code: answers are laid flat in the crate `flat`, and
// the calls are the crate `capi`. So an edit of a definition is refused without checking those again. The structs are C's: none is compared
// or printed here, and they derive no more than C needs of them.
#![tactic(auto)]

use clerk::Clerk;

// A date. `number` is the month's, `leap` whether it is the leap month of that number, `year` the civil one; ji, bu and year in the bu are
// the place of the solstice year in which the day lies, `eclipse` whether the month is an eclipse month.
#[repr(C)]
#[derive(Clone, Copy)]
pub struct CDate {
    pub reason: u32,
    pub year: u32,
    pub number: u32,
    pub leap: bool,
    pub day_of_month: u32,
    pub month_length: u32,
    pub day_name: u32,
    pub year_name: u32,
    pub ji: u32,
    pub bu: u32,
    pub year_in_bu: u32,
    pub eclipse: bool,
}

// A day.
#[repr(C)]
#[derive(Clone, Copy)]
pub struct CDay {
    pub reason: u32,
    pub day: u32,
}

// A solstice year: its place, its bu's head name, its months.
#[repr(C)]
#[derive(Clone, Copy)]
pub struct CSolstice {
    pub reason: u32,
    pub ji: u32,
    pub bu: u32,
    pub year_in_bu: u32,
    pub head_name: u32,
    pub first_month: u32,
    pub leap_remainder: u32,
    pub months: u32,
}

// A civil year's own; without a leap month, `has_leap` is false and the two numbers after it are 0.
#[repr(C)]
#[derive(Clone, Copy)]
pub struct CYear {
    pub reason: u32,
    pub name: u32,
    pub first_month: u32,
    pub months: u32,
    pub has_leap: bool,
    pub leap_number: u32,
    pub leap_month: u32,
}

// A month by its count.
#[repr(C)]
#[derive(Clone, Copy)]
pub struct CMonth {
    pub reason: u32,
    pub number: u32,
    pub leap: bool,
    pub first_day: u32,
    pub small_remainder: u32,
    pub month_length: u32,
    pub first_name: u32,
    pub eclipse: bool,
}

// The clerk at a month: its state, by which it goes on.
#[repr(C)]
#[derive(Clone, Copy)]
pub struct CClerk {
    pub reason: u32,
    pub clerk: Clerk,
}

// A quarter of a month: its day and the parts that are left.
#[repr(C)]
#[derive(Clone, Copy)]
pub struct CQuarter {
    pub reason: u32,
    pub day: u32,
    pub parts: u32,
}

// A term of a solstice year: its day and the rest in parts of 32.
#[repr(C)]
#[derive(Clone, Copy)]
pub struct CTerm {
    pub reason: u32,
    pub day: u32,
    pub parts: u32,
}

// A conjunction of a planet: its day, its remainder in parts of the divisor; `phase` is 1 for a morning one, 2 for an evening one,
// 0 for neither.
#[repr(C)]
#[derive(Clone, Copy)]
pub struct CConjunction {
    pub reason: u32,
    pub day: u32,
    pub parts: u32,
    pub divisor: u32,
    pub phase: u32,
}

// The same with its count.
#[repr(C)]
#[derive(Clone, Copy)]
pub struct CNext {
    pub reason: u32,
    pub k: u32,
    pub day: u32,
    pub parts: u32,
    pub divisor: u32,
    pub phase: u32,
}

// A planet's pair: so many years, and the conjunctions in them.
#[repr(C)]
#[derive(Clone, Copy)]
pub struct CPair {
    pub reason: u32,
    pub years: u64,
    pub conjunctions: u64,
}

// How many days a search found; where the lent list was too short, how many there are.
#[repr(C)]
#[derive(Clone, Copy)]
pub struct CFound {
    pub reason: u32,
    pub total: u32,
}

// How many days fit, or how many emendations there are; where the lent list was too short, how many there are.
#[repr(C)]
#[derive(Clone, Copy)]
pub struct CEmended {
    pub reason: u32,
    pub fits: bool,
    pub total: u32,
}

// How many records of a drawer were filled; where a day was out of range, the place of the first, counted from 0.
#[repr(C)]
#[derive(Clone, Copy)]
pub struct CFilled {
    pub reason: u32,
    pub count: u32,
    pub place: u32,
}

// How many items each of a sheet's lists has.
#[repr(C)]
#[derive(Clone, Copy)]
pub struct CSheetCounts {
    pub reason: u32,
    pub years: usize,
    pub months: usize,
    pub days: usize,
}

// The same of a sheet of the new form, with its readings.
#[repr(C)]
#[derive(Clone, Copy)]
pub struct CNewCounts {
    pub reason: u32,
    pub years: usize,
    pub months: usize,
    pub days: usize,
    pub readings: usize,
}

// How many bytes were written.
#[repr(C)]
#[derive(Clone, Copy)]
pub struct CLength {
    pub reason: u32,
    pub length: usize,
}

// The figures of a range of civil years: big months, small months, big pairs, eclipse months.
#[repr(C)]
#[derive(Clone, Copy)]
pub struct CFigures {
    pub reason: u32,
    pub big: u32,
    pub small: u32,
    pub pairs: u32,
    pub eclipses: u32,
}

// A reading of a slip: six values, and whether each was read. A leap mark is 1 for ordinary and 2 for leap.
#[repr(C)]
#[derive(Clone, Copy)]
pub struct CReading {
    pub year_name: u64,
    pub month_number: u64,
    pub leap_mark: u64,
    pub day_of_month: u64,
    pub day_name: u64,
    pub first_name: u64,
    pub year_name_known: bool,
    pub month_number_known: bool,
    pub leap_mark_known: bool,
    pub day_of_month_known: bool,
    pub day_name_known: bool,
    pub first_name_known: bool,
}
