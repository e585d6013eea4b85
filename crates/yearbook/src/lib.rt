// The yearbook's figures: over a range of civil years the big and small months, big pairs, leap months by number, eclipse months, and the days of
// each name. No month and no day of the range is walked.
// A range is asked for in one word of a `requires` and by no type: rule's functions take plain numbers
// (docs/DECISIONS.md, 263).
#![tactic(auto)]

ghost use Rattle.std.specs.Prelude.{◌≡◌, ◌%◌, ◌≤◌, ◌<◌, eqb};
ghost use Rattle.rule.specs.Lists.{those};
ghost use Rattle.rule.specs.Rule.{big, pair_starts, leap, eclipse};
ghost use Rattle.yearbook.specs.Figures.{passing, has_name, figures_from, leaps_from, names_from};
ghost use Rattle.yearbook.specs.Promise.{CountsFigures};

use rule::Reason;

// How many big months, small months, big pairs and eclipse months there are.
#[derive(Debug, Clone, Copy, PartialEq, Eq)]
pub struct Figures {
    pub big: u32,
    pub small: u32,
    pub pairs: u32,
    pub eclipses: u32,
}

// The leap months of a bu, counted from its head: 28 of its 940.
const LEAPS: [u16; 28] = [
    32, 66, 100, 134, 167, 200, 234, 268, 301, 334, 368, 402, 435, 468, 503, 537, 570, 603, 637,
    671, 704, 737, 771, 805, 838, 871, 905, 939,
];

// The table of them; that it has all leap months of a bu and no other is computed here, once for all.
fn leap_places() -> [u16; 28]
    ensures { result ≡ those leap 0 940 }
{
    LEAPS
}

// How many big months there are from one up to another: days beyond 29 a month.
fn big_months(from: u32, to: u32) -> u32
    requires { (from ≤ to) × (to ≤ 507600) }
    ensures { result ≡ passing big from to }
{
    rule::month_start(to) - rule::month_start(from) - 29 * (to - from)
}

// How many of them start a big pair: days of each and of the month after it beyond 59.
fn big_pairs(from: u32, to: u32) -> u32
    requires { (from ≤ to) × (to < 507600) }
    ensures { result ≡ passing pair_starts from to }
{
    let ends = rule::month_start(to) + rule::month_start(to + 1);
    let begins = rule::month_start(from) + rule::month_start(from + 1);
    ends - begins - 59 * (to - from)
}

// How many of them are eclipse months: 23 in 135. (A difference of two counts, as those above: over a closure that
// counts up to a month, each would still say its own count, and what it takes off.)
fn eclipse_months(from: u32, to: u32) -> u32
    requires { (from ≤ to) × (to ≤ 507600) }
    ensures { result ≡ passing eclipse from to }
{
    23 * to / 135 - 23 * from / 135
}

// How many of them stand at a place of their bu.
fn at_place(place: u32, from: u32, to: u32) -> u32
    requires { (place < 940) × (from ≤ to) × (to ≤ 507600) }
    ensures { (result ≡ passing (λ n. eqb (n % 940) place) from to) × (result ≤ 541) }
{
    (to + 939 - place) / 940 - (from + 939 - place) / 940
}

// How many leap months of each number there are: those like each of the 28 of a bu.
fn leap_counts(from: u32, to: u32) -> [u32; 12]
    requires { (from ≤ to) × (to ≤ 507600) }
    ensures { result ≡ leaps_from from to }
{
    let places = leap_places();
    let mut counts = [0u32; 12];
    for &leap in &places {
        let place = leap as u32;
        let at = rule::month_number(place) as usize - 1;
        counts[at] += at_place(place, from, to);
    }
    counts
}

// How many days from one up to another have name k.
fn days_named(k: u32, from: u32, to: u32) -> u32
    requires { (1 ≤ k) × (k ≤ 60) × (from ≤ to) × (to ≤ 14989860) }
    ensures { result ≡ passing (has_name k) from to }
{
    (to + 60 - k) / 60 - (from + 60 - k) / 60
}

// How many days of each name there are. (Not one with `leap_counts`: there several places add to one number.)
fn name_counts(from: u32, to: u32) -> [u32; 60]
    requires { (from ≤ to) × (to ≤ 14989860) }
    ensures { result ≡ names_from from to }
{
    let mut counts = [0u32; 60];
    for i in 0..60 {
        counts[i] = days_named(i as u32 + 1, from, to);
    }
    counts
}

// The four numbers of the months from one up to another.
fn figures_from(from: u32, to: u32) -> Figures
    requires { (from ≤ to) × (to < 507600) }
    ensures { result ≡ figures_from from to }
{
    let big = big_months(from, to);
    Figures {
        big,
        small: to - from - big,
        pairs: big_pairs(from, to),
        eclipses: eclipse_months(from, to),
    }
}

// The figures of the civil years from first to last; the leap months by number and the days by name go into the lent arrays.
pub fn figures_of(
    first: u32,
    last: u32,
    leaps: &mut [u32; 12],
    names: &mut [u32; 60],
) -> Result<Figures, Reason>
    ensures { CountsFigures first last leaps.old names.old result leaps.new names.new }
{
    if !rule::in_range(1, 41039, first) {
        return Err(Reason::NoSuchYear);
    }
    if !rule::in_range(1, 41039, last) {
        return Err(Reason::NoSuchYear);
    }
    if last < first {
        return Err(Reason::BadWindow);
    }
    let from = rule::civil_first_month(first as u16);
    let to = rule::civil_first_month((last + 1) as u16);
    let l = leap_counts(from, to);
    *leaps = l;
    let n = name_counts(rule::month_start(from), rule::month_start(to));
    *names = n;
    Ok(figures_from(from, to))
}
