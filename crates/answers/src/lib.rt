// The desk program's answers, written after a text: one function a query, the query already taken apart into numbers.
// First those of facts and planets, then those that are `DAY` lines: of a day, of a date, of a move, of a search; then
// that of an emendation, that of the clerk, last that of figures. All are inner: each asks for room. A one-line answer
// takes 120 bytes at most, so that the caller has one need of room for all of them.
// A range is asked for in one word of a `requires` and by no type: rule's functions take plain numbers
// (docs/DECISIONS.md, 263). The same names in `lent` put each answer into a lent buffer.
#![tactic(auto)]

ghost use Rattle.std.specs.Prelude.{[], ◌∷◌, ◌++◌, ◌≡◌, ℕ, ◌+◌, ◌*◌, ◌≤◌, ◌<◌, length, get_or, take};
ghost use Rattle.rule.specs.Counts.{DayInRange};
ghost use Rattle.rule.specs.Reasons.{reason_number};
ghost use Rattle.fields.specs.Fields.{decimal, joined, lined, each};
ghost use Rattle.told.specs.Answers.{
  refused_text,
  fields_of_bu,
  fields_of_leap,
  place_line,
  place_text,
  year_line,
  year_text,
  line_of_month,
  month_text,
  quarter_line,
  quarter_text,
  term_line,
  term_text,
  phase_text,
  fields_of_conjunction,
  conjunction_line,
  conjunction_text,
  next_line,
  next_text,
  pair_line,
  pair_text,
  fields_of_card,
  day_line_of,
  day_text,
  day_line,
  date_text,
  text_of_date,
  move_text,
  places,
  search_text,
  value_text,
  emendation_line,
  line_from,
  emendation_lines,
  emend_text,
  clerk_text,
};
ghost use Rattle.told.specs.Yearbook.{figures_line, counts_line, figures_text, spaced};

use dates::Date;
use emending::Emended;
use facts::{LeapMonth, MonthFacts, SolsticeYear, YearFacts};
use fields::Text;
use planets::{Conjunction, Next, Pair, Phase};
use reading::{Reading, SearchError};
use rule::{Quarter, Reason, Term};
use yearbook::Figures;

pub mod lent;

// A refusal: `REFUSED`, the reason's number and its words.
#[tactic(auto, unfolding(told::specs::Answers::refused_text, told::specs::Answers::words_numbered, fields::specs::Fields::followed))]
fn write_refusal<const N: usize>(why: Reason, text: &mut Text<N>)
    requires { length text.old + 84 ≤ N }
    ensures text { text.new ≡ text.old ++ refused_text (reason_number why) }
    ensures few { length text.new ≤ length text.old + 84 }
{
    text.bytes(b"REFUSED");
    text.field(rule::reason_number(why) as u32);
    text.byte(b' ');
    words::write_words(why, text);
    text.byte(b'\n');
}

// A `TERM` line.
#[tactic(auto, unfolding(told::specs::Answers::term_line, fields::specs::Fields::followed))]
fn write_term<const N: usize>(t: Term, text: &mut Text<N>)
    requires { length text.old + 27 ≤ N }
    ensures text { text.new ≡ text.old ++ term_line t }
    ensures few { length text.new ≤ length text.old + 27 }
{
    text.bytes(b"TERM");
    text.field(t.day);
    text.field(t.parts as u32);
    text.byte(b'\n');
}

// The answer to `TERM solstice-year k`. Each answer is such a match: one function over a closure that writes the line
// would have to be told the line's text too, and its calls would be no shorter.
#[tactic(auto, unfolding(told::specs::Answers::term_text))]
pub fn answer_term<const N: usize>(year: u32, k: u32, text: &mut Text<N>)
    requires { length text.old + 120 ≤ N }
    ensures text { text.new ≡ text.old ++ term_text year k }
    ensures few { length text.new ≤ length text.old + 120 }
{
    match facts::term(year, k) {
        Ok(f) => write_term(f, text),
        Err(why) => write_refusal(why, text),
    }
}

// A `QUARTER` line.
#[tactic(auto, unfolding(told::specs::Answers::quarter_line, fields::specs::Fields::followed))]
fn write_quarter<const N: usize>(q: Quarter, text: &mut Text<N>)
    requires { length text.old + 30 ≤ N }
    ensures text { text.new ≡ text.old ++ quarter_line q }
    ensures few { length text.new ≤ length text.old + 30 }
{
    text.bytes(b"QUARTER");
    text.field(q.day);
    text.field(q.parts as u32);
    text.byte(b'\n');
}

// The answer to `QUARTER month q`.
#[tactic(auto, unfolding(told::specs::Answers::quarter_text))]
pub fn answer_quarter<const N: usize>(n: u32, q: u32, text: &mut Text<N>)
    requires { length text.old + 120 ≤ N }
    ensures text { text.new ≡ text.old ++ quarter_text n q }
    ensures few { length text.new ≤ length text.old + 120 }
{
    match facts::quarter(n, q) {
        Ok(f) => write_quarter(f, text),
        Err(why) => write_refusal(why, text),
    }
}

// A solstice year's place among ji and bu, and its bu's head name.
#[tactic(auto, unfolding(fields::specs::Fields::followed))]
fn write_bu_fields<const N: usize>(p: SolsticeYear, text: &mut Text<N>)
    requires { length text.old + 49 ≤ N }
    ensures text { text.new ≡ text.old ++ joined (fields_of_bu p) }
    ensures few { length text.new ≤ length text.old + 49 }
{
    text.bytes(b"PLACE");
    text.field(p.ji as u32);
    text.field(p.bu as u32);
    text.field(p.year_in_bu as u32);
    text.field(p.head_name as u32);
}

// A `PLACE` line: the solstice year's place, then its first month, leap remainder and how many months.
#[tactic(auto, unfolding(told::specs::Answers::place_line, fields::specs::Fields::followed))]
fn write_place<const N: usize>(p: SolsticeYear, text: &mut Text<N>)
    requires { length text.old + 83 ≤ N }
    ensures text { text.new ≡ text.old ++ place_line p }
    ensures few { length text.new ≤ length text.old + 83 }
{
    write_bu_fields(p, text);
    text.field(p.first_month);
    text.field(p.leap_remainder as u32);
    text.field(p.months as u32);
    text.byte(b'\n');
}

// The answer to `PLACE solstice-year`.
#[tactic(auto, unfolding(told::specs::Answers::place_text))]
pub fn answer_place<const N: usize>(year: u32, text: &mut Text<N>)
    requires { length text.old + 120 ≤ N }
    ensures text { text.new ≡ text.old ++ place_text year }
    ensures few { length text.new ≤ length text.old + 120 }
{
    match facts::solstice_year(year) {
        Ok(p) => write_place(p, text),
        Err(why) => write_refusal(why, text),
    }
}

// A month's line behind a word: the listing's fields, then the first day and the small remainder.
#[tactic(auto, unfolding(fields::specs::Fields::followed))]
fn write_month_line<const N: usize>(name: &[u8], n: u32, f: MonthFacts, text: &mut Text<N>)
    requires { length text.old + length name.now + 71 ≤ N }
    ensures text { text.new ≡ text.old ++ line_of_month name.now n f }
    ensures few { length text.new ≤ length text.old + length name.now + 71 }
{
    text.bytes(name);
    text.byte(b' ');
    lines::write_month_fields(n, f, text);
    text.field(f.first_day);
    text.field(f.small_remainder as u32);
    text.byte(b'\n');
}

// The answer to `MONTH count`.
#[tactic(auto, unfolding(told::specs::Answers::month_text, told::specs::Answers::month_line_of))]
pub fn answer_month<const N: usize>(n: u32, text: &mut Text<N>)
    requires { length text.old + 120 ≤ N }
    ensures text { text.new ≡ text.old ++ month_text n }
    ensures few { length text.new ≤ length text.old + 120 }
{
    match facts::month_facts(n) {
        Ok(f) => write_month_line(b"MONTH", n, f, text),
        Err(why) => write_refusal(why, text),
    }
}

// A civil year's leap month by number and count, or two `-`, each after a space.
#[tactic(auto, unfolding(fields::specs::Fields::followed))]
fn write_leap<const N: usize>(l: Option<LeapMonth>, text: &mut Text<N>)
    requires { length text.old + 22 ≤ N }
    ensures text { text.new ≡ text.old ++ (32 ∷ joined (fields_of_leap l)) }
    ensures few { length text.new ≤ length text.old + 22 }
{
    match l {
        None => text.bytes(b" - -"),
        Some(leap) => {
            text.field(leap.number as u32);
            text.field(leap.month);
        }
    }
}

// A `YEAR` line: the listing's header, then the first month and the leap month.
#[tactic(auto, unfolding(told::specs::Answers::year_line, fields::specs::Fields::followed))]
fn write_year_line<const N: usize>(year: u16, f: YearFacts, text: &mut Text<N>)
    requires { length text.old + 94 ≤ N }
    ensures text { text.new ≡ text.old ++ year_line year f }
    ensures few { length text.new ≤ length text.old + 94 }
{
    let l = f.leap_month;
    lines::write_year_fields(year, f, text);
    text.bytes(b" FIRST");
    text.field(f.first_month);
    text.bytes(b" LEAP");
    write_leap(l, text);
    text.byte(b'\n');
}

// The answer to `YEAR year`.
#[tactic(auto, unfolding(told::specs::Answers::year_text))]
pub fn answer_year<const N: usize>(year: u32, text: &mut Text<N>)
    requires { length text.old + 120 ≤ N }
    ensures text { text.new ≡ text.old ++ year_text year }
    ensures few { length text.new ≤ length text.old + 120 }
{
    match facts::year_facts(year) {
        Ok(f) => write_year_line(year as u16, f, text),
        Err(why) => write_refusal(why, text),
    }
}

// A phase's letter, after a space.
fn write_phase<const N: usize>(f: Phase, text: &mut Text<N>)
    requires { length text.old + 2 ≤ N }
    ensures text { text.new ≡ text.old ++ (32 ∷ phase_text f) }
    ensures few { length text.new ≤ length text.old + 2 }
{
    match f {
        Phase::Morning => text.bytes(b" M"),
        Phase::Evening => text.bytes(b" E"),
        Phase::Neither => text.bytes(b" -"),
    }
}

// A conjunction's day, parts, divisor and phase, each after a space.
#[tactic(auto, unfolding(fields::specs::Fields::followed))]
fn write_conjunction_fields<const N: usize>(c: Conjunction, text: &mut Text<N>)
    requires { length text.old + 35 ≤ N }
    ensures text { text.new ≡ text.old ++ (32 ∷ joined (fields_of_conjunction c)) }
    ensures few { length text.new ≤ length text.old + 35 }
{
    let f = c.phase;
    text.field(c.day);
    text.field(c.parts);
    text.field(c.divisor);
    write_phase(f, text);
}

// A `CONJUNCTION` line.
#[tactic(auto, unfolding(told::specs::Answers::conjunction_line, fields::specs::Fields::followed))]
fn write_conjunction<const N: usize>(c: Conjunction, text: &mut Text<N>)
    requires { length text.old + 47 ≤ N }
    ensures text { text.new ≡ text.old ++ conjunction_line c }
    ensures few { length text.new ≤ length text.old + 47 }
{
    text.bytes(b"CONJUNCTION");
    write_conjunction_fields(c, text);
    text.byte(b'\n');
}

// The answer to `CONJUNCTION planet k`.
// (The planet is the number of the query, which the call refuses with 19.)
#[tactic(auto, unfolding(told::specs::Answers::conjunction_text))]
pub fn answer_conjunction<const N: usize>(planet: u32, k: u32, text: &mut Text<N>)
    requires { length text.old + 120 ≤ N }
    ensures text { text.new ≡ text.old ++ conjunction_text planet k }
    ensures few { length text.new ≤ length text.old + 120 }
{
    match planets::kth_conjunction(planet, k as u64) {
        Ok(c) => write_conjunction(c, text),
        Err(why) => write_refusal(why, text),
    }
}

// A `NEXT` line.
#[tactic(auto, unfolding(told::specs::Answers::next_line, fields::specs::Fields::followed))]
fn write_next_line<const N: usize>(n: Next, text: &mut Text<N>)
    requires { length text.old + 51 ≤ N }
    ensures text { text.new ≡ text.old ++ next_line n }
    ensures few { length text.new ≤ length text.old + 51 }
{
    let c = n.conjunction;
    text.bytes(b"NEXT");
    text.field(n.k);
    write_conjunction_fields(c, text);
    text.byte(b'\n');
}

// The answer to `NEXT planet day`.
#[tactic(auto, unfolding(told::specs::Answers::next_text))]
pub fn answer_next<const N: usize>(planet: u32, day: u32, text: &mut Text<N>)
    requires { length text.old + 120 ≤ N }
    ensures text { text.new ≡ text.old ++ next_text planet day }
    ensures few { length text.new ≤ length text.old + 120 }
{
    match planets::next_conjunction(planet, day) {
        Ok(n) => write_next_line(n, text),
        Err(why) => write_refusal(why, text),
    }
}

// A `PAIR` line.
#[tactic(auto, unfolding(told::specs::Answers::pair_line, fields::specs::Fields::followed))]
fn write_pair<const N: usize>(p: Pair, text: &mut Text<N>)
    requires { (p.years ≤ 9415) × (p.conjunctions ≤ 11908) × (length text.old + 27 ≤ N) }
    ensures text { text.new ≡ text.old ++ pair_line p }
    ensures few { length text.new ≤ length text.old + 27 }
{
    text.bytes(b"PAIR");
    text.field(p.years as u32);
    text.field(p.conjunctions as u32);
    text.byte(b'\n');
}

// The answer to `PAIR planet`.
#[tactic(auto, unfolding(told::specs::Answers::pair_text))]
pub fn answer_pair<const N: usize>(planet: u32, text: &mut Text<N>)
    requires { length text.old + 120 ≤ N }
    ensures text { text.new ≡ text.old ++ pair_text planet }
    ensures few { length text.new ≤ length text.old + 120 }
{
    match planets::reduced_pair(planet) {
        Ok(p) => write_pair(p, text),
        Err(why) => write_refusal(why, text),
    }
}

// What the card shows of a date: ji, bu, year in the bu and the eclipse mark, each after a space.
#[tactic(auto, unfolding(fields::specs::Fields::followed))]
fn write_card<const N: usize>(d: Date, text: &mut Text<N>)
    requires { length text.old + 35 ≤ N }
    ensures text { text.new ≡ text.old ++ (32 ∷ joined (fields_of_card d)) }
    ensures few { length text.new ≤ length text.old + 35 }
{
    text.field(d.ji as u32);
    text.field(d.bu as u32);
    text.field(d.year_in_bu as u32);
    text.mark(d.eclipse, b'E');
}

// A `DAY` line: the listing's fields, then the month's length and the year's name, then what the card shows.
#[tactic(auto, unfolding(told::specs::Answers::day_line_of, fields::specs::Fields::followed))]
fn write_day_line<const N: usize>(day: u32, d: Date, text: &mut Text<N>)
    requires { length text.old + 118 ≤ N }
    ensures text { text.new ≡ text.old ++ day_line_of day d }
    ensures few { length text.new ≤ length text.old + 118 }
{
    lines::write_day_fields(day, d, text);
    text.field(d.month_length as u32);
    text.field(d.year_name as u32);
    write_card(d, text);
    text.byte(b'\n');
}

// The answer to `DAY day`.
#[tactic(auto, unfolding(told::specs::Answers::day_text))]
pub fn answer_day<const N: usize>(day: u32, text: &mut Text<N>)
    requires { length text.old + 120 ≤ N }
    ensures text { text.new ≡ text.old ++ day_text day }
    ensures few { length text.new ≤ length text.old + 120 }
{
    match dates::date_of_day(day) {
        Ok(d) => write_day_line(day, d, text),
        Err(why) => write_refusal(why, text),
    }
}

// The `DAY` line of a day in range.
#[tactic(auto, unfolding(told::specs::Answers::day_line))]
fn write_day_of<const N: usize>(day: u32, text: &mut Text<N>)
    requires { DayInRange day × (length text.old + 118 ≤ N) }
    ensures text { text.new ≡ text.old ++ day_line day }
    ensures few { length text.new ≤ length text.old + 118 }
{
    write_day_line(day, dates::date_at(day), text);
}

// The answer to `DATE year number mark day-of-month`.
#[tactic(auto, unfolding(told::specs::Answers::date_text))]
pub fn answer_date<const N: usize>(
    year: u32,
    number: u32,
    leap: bool,
    day_of_month: u32,
    text: &mut Text<N>,
)
    requires { length text.old + 120 ≤ N }
    ensures text { text.new ≡ text.old ++ date_text year number leap day_of_month }
    ensures few { length text.new ≤ length text.old + 120 }
{
    match dates::day_of_date(year, number, leap, day_of_month) {
        Ok(day) => write_day_of(day, text),
        Err(why) => write_refusal(why, text),
    }
}

// The answer for a date, asked for by its own four things.
fn answer_of_date<const N: usize>(d: Date, text: &mut Text<N>)
    requires { length text.old + 120 ≤ N }
    ensures text { text.new ≡ text.old ++ text_of_date d }
    ensures few { length text.new ≤ length text.old + 120 }
{
    let m = d.month;
    answer_date(
        d.year as u32,
        rule::number_of(m) as u32,
        rule::leap_mark(m),
        d.day_of_month as u32,
        text,
    );
}

// The answer to `MOVE year number mark day-of-month n`: the moved date is looked up as a date.
#[tactic(auto, unfolding(told::specs::Answers::move_text))]
pub fn answer_move<const N: usize>(
    year: u32,
    number: u32,
    leap: bool,
    day_of_month: u32,
    days: i64,
    text: &mut Text<N>,
)
    requires { length text.old + 120 ≤ N }
    ensures text { text.new ≡ text.old ++ move_text year number leap day_of_month days }
    ensures few { length text.new ≤ length text.old + 120 }
{
    match moves::move_date(year, number, leap, day_of_month, days) {
        Ok(d) => answer_of_date(d, text),
        Err(why) => write_refusal(why, text),
    }
}

// A line of a word and a total.
#[tactic(auto, unfolding(fields::specs::Fields::followed))]
fn write_total<const N: usize>(name: &[u8], n: u32, text: &mut Text<N>)
    requires { length text.old + length name.now + 12 ≤ N }
    ensures text { text.new ≡ text.old ++ (lined (name.now ∷ decimal n ∷ [])) }
    ensures few { length text.new ≤ length text.old + length name.now + 12 }
{
    text.bytes(name);
    text.field(n);
    text.byte(b'\n');
}

// The `DAY` lines of days in range.
fn write_days<const N: usize>(days: &[u32], text: &mut Text<N>)
    requires { ((i : ℕ) → i < length days.now → DayInRange (get_or days.now i 0)) × (length text.old + 118 * length days.now ≤ N) }
    ensures text { text.new ≡ text.old ++ each day_line days.now }
    ensures few { length text.new ≤ length text.old + 118 * length days.now }
{
    for &day in days {
        write_day_of(day, text);
    }
}

// The answer to `SEARCH ..`, into a lent list with more places than the longest window has days, and a text with room
// for a `FOUND` line of 17 bytes and 27,759 `DAY` lines of 118. What the list of days holds afterwards is not promised.
#[tactic(auto, unfolding(told::specs::Answers::search_text, told::specs::Answers::found_line))]
pub fn answer_search<const N: usize>(
    r: Reading,
    first: u32,
    last: u32,
    days: &mut [u32],
    text: &mut Text<N>,
)
    requires { (places ≤ length days.old) × (length text.old + 3275579 ≤ N) }
    ensures text { text.new ≡ text.old ++ search_text r first last }
    ensures few { length text.new ≤ length text.old + 3275579 }
{
    match reading::search(r, first, last, days) {
        Ok(n) => {
            write_total(b"FOUND", n, text);
            write_days(&days[..n as usize], text);
        }
        Err(SearchError::TooShort { .. }) => write_refusal(Reason::LentTooShort, text),
        Err(SearchError::Refused(why)) => write_refusal(why, text),
    }
}

// What was read in a field, or should stand there, after a space: the third is a mark.
// (The field is its number, as an emendation stands in the lent list: `EmendsReading`.)
fn write_value<const N: usize>(field: u32, value: u32, text: &mut Text<N>)
    requires { length text.old + 11 ≤ N }
    ensures text { text.new ≡ text.old ++ (32 ∷ value_text field value) }
    ensures few { length text.new ≤ length text.old + 11 }
{
    if field == 3 {
        return text.mark(value == 2, b'L');
    }
    text.field(value);
}

// An `EMENDATION` line.
#[tactic(auto, unfolding(told::specs::Answers::emendation_line, fields::specs::Fields::followed))]
fn write_emendation<const N: usize>(day: u32, field: u32, read: u32, value: u32, text: &mut Text<N>)
    requires { length text.old + 55 ≤ N }
    ensures text { text.new ≡ text.old ++ emendation_line day field read value }
    ensures few { length text.new ≤ length text.old + 55 }
{
    text.bytes(b"EMENDATION");
    text.field(day);
    text.field(field);
    write_value(field, read, text);
    write_value(field, value, text);
    text.byte(b'\n');
}

// The line of the emendation whose four numbers stand in a list from a place on.
fn write_four<const N: usize>(k: usize, list: &[u32], text: &mut Text<N>)
    requires { (k + 4 ≤ length list.now) × (length text.old + 55 ≤ N) }
    ensures text { text.new ≡ text.old ++ line_from list.now k }
    ensures few { length text.new ≤ length text.old + 55 }
{
    write_emendation(list[k], list[k + 1], list[k + 2], list[k + 3], text);
}

// The lines of the first n emendations of a list, four numbers each, of one window.
fn write_emendations<const N: usize>(n: usize, list: &[u32], text: &mut Text<N>)
    requires { (n ≤ 27759) × (4 * n ≤ length list.now) × (length text.old + 55 * n ≤ N) }
    ensures text { text.new ≡ text.old ++ emendation_lines (take (4 * n) list.now) }
    ensures few { length text.new ≤ length text.old + 55 * n }
{
    for i in 0..n {
        write_four(4 * i, list, text);
    }
}

// The answer to `EMEND ..`, into a lent list with four places for each day of the longest window, and a text with
// room for an `EMENDED` line of 19 bytes and 27,759 `EMENDATION` lines of 55. What the list holds afterwards is not
// promised.
#[tactic(auto, unfolding(told::specs::Answers::emend_text, told::specs::Answers::fits_line, told::specs::Answers::emended_line))]
pub fn answer_emend<const N: usize>(
    r: Reading,
    first: u32,
    last: u32,
    list: &mut [u32],
    text: &mut Text<N>,
)
    requires { (places ≤ length list.old) × (length text.old + 1526764 ≤ N) }
    ensures text { text.new ≡ text.old ++ emend_text r first last }
    ensures few { length text.new ≤ length text.old + 1526764 }
{
    match emending::emend(r, first, last, list) {
        Ok(Emended::Fits(n)) => write_total(b"FITS", n, text),
        Ok(Emended::Are(n)) => {
            write_total(b"EMENDED", n, text);
            write_emendations(n as usize, list, text);
        }
        Err(SearchError::TooShort { .. }) => write_refusal(Reason::LentTooShort, text),
        Err(SearchError::Refused(why)) => write_refusal(why, text),
    }
}

// The answer to `CLERK bu steps`: what the clerk shows after so many steps.
#[tactic(auto, unfolding(told::specs::Answers::clerk_text, told::specs::Answers::clerk_line))]
pub fn answer_clerk<const N: usize>(b: u32, steps: u32, text: &mut Text<N>)
    requires { length text.old + 120 ≤ N }
    ensures text { text.new ≡ text.old ++ clerk_text b steps }
    ensures few { length text.new ≤ length text.old + 120 }
{
    match clerk::walk(b, steps) {
        Ok(c) => write_month_line(b"CLERK", c.month_count, clerk::show(c), text),
        Err(why) => write_refusal(why, text),
    }
}

// Numbers, each after a space.
fn write_numbers<const N: usize>(counts: &[u32], text: &mut Text<N>)
    requires { length text.old + 11 * length counts.now ≤ N }
    ensures text { text.new ≡ text.old ++ each spaced counts.now }
    ensures few { length text.new ≤ length text.old + 11 * length counts.now }
{
    for &count in counts {
        text.field(count);
    }
}

// A line of a word and counts.
#[tactic(auto, unfolding(told::specs::Yearbook::counts_line))]
fn write_counts<const N: usize>(name: &[u8], counts: &[u32], text: &mut Text<N>)
    requires { length text.old + (length name.now + 11 * length counts.now + 1) ≤ N }
    ensures text { text.new ≡ text.old ++ counts_line name.now counts.now }
    ensures few { length text.new ≤ length text.old + length name.now + 11 * length counts.now + 1 }
{
    text.bytes(name);
    write_numbers(counts, text);
    text.byte(b'\n');
}

// A `FIGURES` line.
#[tactic(auto, unfolding(told::specs::Yearbook::figures_line, fields::specs::Fields::followed))]
fn write_figures<const N: usize>(f: Figures, text: &mut Text<N>)
    requires { length text.old + 52 ≤ N }
    ensures text { text.new ≡ text.old ++ figures_line f }
    ensures few { length text.new ≤ length text.old + 52 }
{
    text.bytes(b"FIGURES");
    text.field(f.big);
    text.field(f.small);
    text.field(f.pairs);
    text.field(f.eclipses);
    text.byte(b'\n');
}

// The answer to `FIGURES first last`: three lines, of 52, 137 and 666 bytes at most.
#[tactic(auto, unfolding(told::specs::Yearbook::figures_text, told::specs::Yearbook::figures_lines))]
pub fn answer_figures<const N: usize>(first: u32, last: u32, text: &mut Text<N>)
    requires { length text.old + 855 ≤ N }
    ensures text { text.new ≡ text.old ++ figures_text first last }
    ensures few { length text.new ≤ length text.old + 855 }
{
    let mut leaps = [0u32; 12];
    let mut names = [0u32; 60];
    match yearbook::figures_of(first, last, &mut leaps, &mut names) {
        Ok(f) => {
            write_figures(f, text);
            write_counts(b"LEAP", &leaps, text);
            write_counts(b"NAMES", &names, text);
        }
        Err(why) => write_refusal(why, text),
    }
}
