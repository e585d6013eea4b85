// Figures of 004 that no one answer gives: counts over many months, years or conjunctions, and the sums of the planets.
use crate::Out;
use planets::Phase;

// The first day of a civil year, which is that of its month 1; nought where there is none.
fn new_year(year: u32) -> u32 {
    dates::day_of_date(year, 1, false, 1).unwrap_or(0)
}

// An eclipse month that starts from a day on and before another.
fn is_eclipse_between(n: u32, from: u32, until: u32) -> bool {
    facts::month_facts(n).is_ok_and(|f| f.eclipse && from <= f.first_day && f.first_day < until)
}

fn is_eclipse(n: u32) -> bool {
    is_eclipse_between(n, 0, 14989860)
}

// Whether a month's small remainder is 441 to 498 where it and the month before are big, and else not.
fn is_big_pair(before: u32, n: u32) -> bool {
    let (Ok(b), Ok(f)) = (facts::month_facts(before), facts::month_facts(n)) else {
        return false;
    };
    let pair = b.month_length == 30 && f.month_length == 30;
    let between = 441 <= f.small_remainder && f.small_remainder <= 498;
    pair == between
}

// 004's second way to a solstice year's first day: 343,335 for each elapsed year less 1,461 for each part of the leap
// remainder, in parts of 940.
fn is_first_day(year: u32) -> bool {
    let Ok(p) = facts::solstice_year(year) else {
        return false;
    };
    let Ok(f) = facts::month_facts(p.first_month) else {
        return false;
    };
    let parts = 940 * (f.first_day as u64) + (f.small_remainder as u64);
    343335 * (year as u64) == parts + 1461 * (p.leap_remainder as u64) + 343335
}

// 004's second way to the next eclipse: 112 for each month, 135s cast out, then a month for each 23; without remainder
// the month already counted. None of the five months from n on that come before it is an eclipse month.
fn is_next_eclipse(n: u32) -> bool {
    if n == 0 || 1000000 < n {
        return false;
    }
    let parts = 112 * n % 135;
    let counted = n + parts / 23;
    let named = if parts % 23 == 0 {
        counted - 1
    } else {
        counted
    };
    is_eclipse(named) && (n..named).take(5).all(|passed| !is_eclipse(passed))
}

fn is_morning(p: u32, k: u32) -> bool {
    planets::kth_conjunction(p, k as u64).is_ok_and(|c| c.phase == Phase::Morning)
}

// How many of the numbers from one on and before another pass.
fn count<F: Fn(u32) -> bool>(out: &mut Out, passes: F, from: u32, until: u32)
    requires { F.IsAlwaysCallable passes }
{
    show::field(out, b" FROM", from as u64);
    show::line(out, b" BEFORE", until as u64);
    show::line(
        out,
        b"COUNT",
        (from..until).filter(|n| passes(*n)).count() as u64,
    );
}

// So many days and parts, all in parts.
fn in_parts(days: u32, divisor: u32, parts: u32) -> u64 {
    (days as u64) * (divisor as u64) + (parts as u64)
}

// Notes, and then one conjunction in parts, the two long counts that are made of it, and their common divisor.
fn sums(out: &mut Out, p: u32, notes: &[&str]) {
    for note in notes {
        writeln!(out, "# {note}");
    }
    show::line(out, b"PLANET-SUMS", p as u64);
    match planets::kth_conjunction(p, 1) {
        Ok(c) => long_counts(out, in_parts(c.day, c.divisor, c.parts), c.divisor),
        Err(why) => show::refused(out, why),
    }
}

fn long_counts(out: &mut Out, parts: u64, divisor: u32) {
    if 4294967295 < parts {
        return;
    }
    let days = 4 * parts;
    let circle = 1461 * (divisor as u64);
    show::field(out, b"SUMS", parts);
    show::next(out, days);
    show::next(out, circle);
    show::line(out, b" DIVISOR", planets::common_divisor(days, circle));
}

fn counts(out: &mut Out) {
    writeln!(
        out,
        "# Figures of 004 that no one answer gives, as on the page of eras; COUNT is of how many numbers it holds"
    );
    writeln!(
        out,
        "# H35 L535 eclipse-count first-civil=9368 last-civil=9460: eclipse-months=196"
    );
    show::text(out, b"ECLIPSE-COUNT 9368 9460");
    let (first, end) = (new_year(9368), new_year(9461));
    count(out, |n| is_eclipse_between(n, first, end), 0, 507600);
    writeln!(out, "# Q18 L2519 big-pair months=941: least=441 most=498");
    show::text(out, b"BIG-PAIR 441 498");
    count(
        out,
        |n| is_big_pair(std::num::wrapping_sub_u32(n, 1), n),
        1,
        941,
    );
    writeln!(
        out,
        "# N06 L1485-1487 first-day-identity years=41040: holds=yes"
    );
    show::text(out, b"FIRST-DAY-IDENTITY");
    count(out, is_first_day, 1, 41041);
    writeln!(
        out,
        "# N38 L1877 next-eclipse-identity months=20000: holds=yes"
    );
    show::text(out, b"NEXT-ECLIPSE-IDENTITY");
    count(out, is_next_eclipse, 1, 20001);
    writeln!(out, "# P89 L2207 planet-mornings p=4: conjunctions=2915");
    show::text(out, b"PLANET-MORNINGS 4");
    count(out, |k| is_morning(4, k), 0, 5830);
    writeln!(out, "# P109 L2277 planet-mornings p=5: conjunctions=5954");
    show::text(out, b"PLANET-MORNINGS 5");
    count(out, |k| is_morning(5, k), 0, 11908);
}

pub fn all(out: &mut Out) {
    counts(out);
    sums(
        out,
        1,
        &[
            "P04 L2046 planet-parts p=1: parts=6903225",
            "P05 L2047 planet-long-days p=1: parts=27612900",
            "P06 L2048-2049 planet-long-circle p=1: parts=25286988",
            "P07 L2050 planet-gcd a=27612900 b=25286988: common-divisor=5844",
            "R18 L2628-2630 planet-parts p=1: parts=6993325; MISPRINT(numeral): the rule gives parts=6903225",
        ],
    );
    sums(
        out,
        2,
        &[
            "P25 L2103-2104 planet-parts p=2: parts=2740836",
            "P26 L2104-2105 planet-long-days p=2: parts=10963344",
            "P27 L2106 planet-long-circle p=2: parts=5136876",
            "P28 L2108 planet-gcd a=10963344 b=5136876: common-divisor=5844",
        ],
    );
    sums(
        out,
        3,
        &[
            "P46 L2161 planet-parts p=3: parts=13755315",
            "P47 L2161 planet-long-days p=3: parts=55021260",
            "P48 L2161-2163 planet-long-circle p=3: parts=53157024",
            "P49 L2163-2164 planet-gcd a=55021260 b=53157024: common-divisor=5844",
        ],
    );
    sums(
        out,
        4,
        &[
            "P68 L2212 planet-parts p=4: parts=6809721",
            "P69 L2213 planet-long-days p=4: parts=27238884",
            "P70 L2215-2216 planet-long-circle p=4: parts=34070520",
            "P71 L2216 planet-gcd a=27238884 b=34070520: common-divisor=5844",
        ],
    );
    sums(
        out,
        5,
        &[
            "P93 L2280-2281 planet-parts p=5: parts=2759829",
            "P94 L2281-2282 planet-long-days p=5: parts=11039316",
            "P95 L2283 planet-long-circle p=5: parts=69590352",
            "P96 L2284 planet-gcd a=11039316 b=69590352: common-divisor=5844",
        ],
    );
}
