// The five planets: the k-th conjunction of a planet since the origin, the first one on or after a day, and the pair of numbers that
// 004 gets by reducing two long counts against each other. One definition, and the planets' numbers are data.
// A range is asked for in one word of a `requires` and by no type: rule's functions take plain numbers
// (docs/DECISIONS.md, 263).
#![tactic(auto)]

ghost use Rattle.std.specs.Prelude.{◌≡◌, ◌≤◌, ◌<◌};
ghost use Rattle.rule.specs.Counts.{DayInRange};
ghost use Rattle.planets.specs.Planets.{numbers_of, planet_figures, conjunction_day, phase, conjunction_of, next_count, long_days, long_circle};
ghost use Rattle.planets.specs.Divisors.{CommonDivisor, Reduced};
ghost use Rattle.planets.specs.Five.{planet_number, IsPlanetOf};
ghost use Rattle.planets.specs.Promises.{KthConjunction, NextConjunction, ReducedPair};

use rule::Reason;

// The planets, which are numbered 1 to 5 in this order.
#[derive(Debug, Clone, Copy, PartialEq, Eq)]
enum Planet {
    Jupiter,
    Mars,
    Saturn,
    Venus,
    Mercury,
}

// A planet's numbers: so many conjunctions in so many years, and whether they are evening and morning ones by turns.
#[derive(Debug, Clone, Copy, PartialEq, Eq)]
pub struct Numbers {
    pub conjunctions: u16,
    pub years: u16,
    pub by_turns: bool,
}

// One conjunction's days, as 004 works them out: so many days, and parts of a divisor.
#[derive(Debug, Clone, Copy, PartialEq, Eq)]
struct PlanetFigures {
    pub days: u16,
    pub parts: u16,
    pub divisor: u16,
}

// Whether a conjunction is a morning or an evening one; of three planets it is neither.
#[derive(Debug, Clone, Copy, PartialEq, Eq)]
pub enum Phase {
    Morning,
    Evening,
    Neither,
}

// A conjunction: its day, its remainder in parts, of how many they are, morning or evening.
#[derive(Debug, Clone, Copy, PartialEq, Eq)]
pub struct Conjunction {
    pub day: u32,
    pub parts: u32,
    pub divisor: u32,
    pub phase: Phase,
}

// The first conjunction on or after a day, with its count.
#[derive(Debug, Clone, Copy, PartialEq, Eq)]
pub struct Next {
    pub k: u32,
    pub conjunction: Conjunction,
}

// 004's pair: so many years, and the conjunctions in them.
#[derive(Debug, Clone, Copy, PartialEq, Eq)]
pub struct Pair {
    pub years: u64,
    pub conjunctions: u64,
}

impl TryFrom<u32> for Planet {
    type Error = Reason;

    ghost try_from_gives = { IsPlanetOf };

    fn try_from(number: u32) -> Result<Planet, Reason> {
        match number {
            1 => Ok(Planet::Jupiter),
            2 => Ok(Planet::Mars),
            3 => Ok(Planet::Saturn),
            4 => Ok(Planet::Venus),
            5 => Ok(Planet::Mercury),
            _ => Err(Reason::NoSuchPlanet),
        }
    }
}

impl Planet {
    // Its numbers.
    fn numbers(self) -> Numbers
        ensures { result ≡ numbers_of (planet_number self) }
    {
        let (conjunctions, years, by_turns) = match self {
            Planet::Jupiter => (4327, 4725, false),
            Planet::Mars => (879, 1876, false),
            Planet::Saturn => (9096, 9415, false),
            Planet::Venus => (5830, 4661, true),
            Planet::Mercury => (11908, 1889, true),
        };
        Numbers {
            conjunctions,
            years,
            by_turns,
        }
    }

    // The figures of one of its conjunctions.
    fn figures(self) -> PlanetFigures
        ensures { result ≡ planet_figures (planet_number self) }
    {
        let (days, parts, divisor) = match self {
            Planet::Jupiter => (398, 14641, 17308),
            Planet::Mars => (779, 1872, 3516),
            Planet::Saturn => (378, 2163, 36384),
            Planet::Venus => (292, 281, 23320),
            Planet::Mercury => (57, 44805, 47632),
        };
        PlanetFigures {
            days,
            parts,
            divisor,
        }
    }
}

impl Numbers {
    // The day of a conjunction, which may be beyond the range.
    fn conjunction_day(self, k: u64) -> u64
        requires { (0 < self.conjunctions) × (k ≤ 14989859) }
        ensures { result ≡ conjunction_day self k }
    {
        k * self.years as u64 * 1461 / (4 * self.conjunctions as u64)
    }

    // Morning or evening.
    fn phase(self, k: u64) -> Phase
        ensures { result ≡ phase self k }
    {
        if !self.by_turns {
            Phase::Neither
        } else if k % 2 == 1 {
            Phase::Morning
        } else {
            Phase::Evening
        }
    }

    // A conjunction whose day is in range.
    fn conjunction(self, k: u64) -> Conjunction
        requires { (0 < self.conjunctions) × (k ≤ 14989859) × DayInRange (conjunction_day self k) }
        ensures { result ≡ conjunction_of self k }
    {
        let divisor = 4 * self.conjunctions as u64;
        Conjunction {
            day: self.conjunction_day(k) as u32,
            parts: (k * self.years as u64 * 1461 % divisor) as u32,
            divisor: divisor as u32,
            phase: self.phase(k),
        }
    }

    // The least count whose conjunction is not before a day.
    fn next_count(self, day: u32) -> u64
        requires { (0 < self.years) × DayInRange day }
        ensures { result ≡ next_count self day }
    {
        let step = 1461 * self.years as u64;
        (day as u64 * (4 * self.conjunctions as u64) + (step - 1)) / step
    }
}

impl PlanetFigures {
    // One of the two long counts, four times one conjunction's parts.
    fn long_days(self) -> u64
        ensures { result ≡ long_days self }
    {
        4 * (self.days as u64 * self.divisor as u64 + self.parts as u64)
    }

    // The other, 1,461 times the divisor.
    fn long_circle(self) -> u64
        ensures { result ≡ long_circle self }
    {
        1461 * self.divisor as u64
    }
}

// The k-th conjunction of a planet: reason 19, then 6. A conjunction's day is never before its count, so that a count beyond the days
// needs no product.
// (A planet is asked for by a number of any size: `KthConjunction`, `NextConjunction` and `ReducedPair` refuse the
// others with 19.)
pub fn kth_conjunction(planet: u32, k: u64) -> Result<Conjunction, Reason>
    ensures { KthConjunction planet k result }
{
    let numbers = Planet::try_from(planet)?.numbers();
    if 14989859 < k {
        return Err(Reason::NoSuchDay);
    }
    if 14989859 < numbers.conjunction_day(k) {
        return Err(Reason::NoSuchDay);
    }
    Ok(numbers.conjunction(k))
}

// The first conjunction of a planet on or after a day: reason 19, then 6, then 20.
pub fn next_conjunction(planet: u32, day: u32) -> Result<Next, Reason>
    ensures { NextConjunction planet day result }
{
    let numbers = Planet::try_from(planet)?.numbers();
    if 14989859 < day {
        return Err(Reason::NoSuchDay);
    }
    let k = numbers.next_count(day);
    if 14989859 < numbers.conjunction_day(k) {
        return Err(Reason::NoConjunctionLeft);
    }
    Ok(Next {
        k: k as u32,
        conjunction: numbers.conjunction(k),
    })
}

// The common divisor of two numbers, "taking the remainder of one by the other until none is left".
pub fn common_divisor(a: u64, b: u64) -> u64
    ensures { CommonDivisor a b result }
{
    if b == 0 {
        return a;
    }
    common_divisor(b, a % b)
}

// Two long counts reduced against each other; the second is not 0.
fn reduced(a: u64, b: u64) -> Pair
    requires { 0 < b }
    ensures { Reduced a b result }
{
    let d = common_divisor(a, b);
    Pair {
        years: a / d,
        conjunctions: b / d,
    }
}

// The pair of a planet, by reducing its two long counts: reason 19.
pub fn reduced_pair(planet: u32) -> Result<Pair, Reason>
    ensures { ReducedPair planet result }
{
    let figures = Planet::try_from(planet)?.figures();
    Ok(reduced(figures.long_days(), figures.long_circle()))
}
