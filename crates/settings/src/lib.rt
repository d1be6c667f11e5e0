// The setup that an S line carries (document 01, "Setup").
#![tactic(auto)]

ghost use Rattle.std.specs.Prelude.{◌≡◌, ◌+◌, ◌≤◌, ◌<◌, false, Option, None, Some, MatchOption, slice_get, length, drop};
ghost use Rattle.laws.specs.Tab.{tab};
ghost use Rattle.laws.specs.Every.{every};
ghost use Rattle.text.specs.Fields.{field_at};
ghost use Rattle.text.specs.Number.{decimal_of, saturated};
ghost use Rattle.settings.specs.Places.{NUMBERS};
ghost use Rattle.settings.specs.Settings.{up_to, degrees, or_none, range_of, is_within, plain_of, none_or, boost_of, override_of, setup_by, rises_by, is_setup, settings_of};
ghost use Rattle.settings.specs.Entries.{all_spelt, AreEntries, HoldsAs, held_byte, held_degrees};

use state::{Refusal, Setup, most};
use std::array;
use text::Number;

mod places;

// What a number may be.
#[derive(Clone, Copy)]
pub struct Range {
    // The largest.
    pub most: u16,
    // The largest below 0, without its sign.
    pub below: u16,
    // Whether it may be "-".
    pub none: bool,
}

impl Range {
    // 0 to the largest.
    fn up_to(most: u16) -> Range
        ensures { result ≡ up_to most }
    {
        Range {
            most,
            below: 0,
            none: false,
        }
    }

    // As far below 0 as above.
    fn degrees() -> Range
        ensures { result ≡ degrees }
    {
        Range {
            most: most::DEGREES as u16,
            below: most::DEGREES as u16,
            none: false,
        }
    }

    fn or_none(self) -> Range
        ensures { result ≡ or_none self }
    {
        Range { none: true, ..self }
    }

    #[tactic(auto, unfolding(crate::specs::Settings::is_within))]
    fn holds(self, n: Number) -> bool
        ensures { result ≡ is_within self (Some n) }
    {
        match n {
            Number::Dash => self.none,
            Number::Plus(v) => v <= self.most,
            Number::Minus(v) => v <= self.below,
        }
    }
}

// ---- the numbers as they are spelled

// The number in the field at a place; None where it is spelled wrong.
fn number_from(line: &[u8], at: usize) -> Option<Number>
    requires { at ≤ length line.now }
    ensures { result ≡ saturated (decimal_of (field_at (drop at line.now) 0)) }
{
    text::decimal(text::field(&line[at..], 0))
}

// The 59 numbers behind the letter, in one walk along the line; None where one is spelled wrong.
fn entries_of(line: &[u8]) -> Option<[Number; places::NUMBERS]>
    ensures { MatchOption result (all_spelt line.now ≡ false) (AreEntries line.now) }
{
    let mut entries = [Number::Dash; places::NUMBERS];
    let mut at = 0;
    for entry in entries.iter_mut() {
        at = text::next_field(line, at);
        *entry = number_from(line, at)?;
    }
    Some(entries)
}

// ---- ranges, duties that never fall

// What number k may be.
#[tactic(auto, unfolding(crate::specs::Settings::range_of))]
fn range_of(k: usize) -> Range
    ensures { result ≡ range_of k }
{
    match k {
        places::LEVEL..places::BASES => Range::up_to(most::LEVEL as u16),
        places::BASES..places::OFFSETS12 => Range::degrees(),
        places::OFFSETS12..places::HYSTERESES => Range::up_to(most::OFFSET as u16),
        places::HYSTERESES..places::DUTIES => Range::up_to(most::HYSTERESIS as u16),
        places::DUTIES..places::BOOSTS => Range::up_to(most::DUTY),
        places::BOOSTS..places::BOOST_HYSTERESIS => Range::degrees().or_none(),
        places::BOOST_HYSTERESIS..places::BINDINGS => Range::up_to(most::HYSTERESIS as u16),
        places::BINDINGS..places::OVERRIDES => Range::up_to(most::BYTE as u16),
        places::OVERRIDES..places::START_DUTIES => Range::up_to(most::DUTY).or_none(),
        places::START_DUTIES..places::START_COUNTS => Range::up_to(most::DUTY),
        places::START_COUNTS.. => Range::up_to(most::BYTE as u16),
    }
}

fn all_within(entries: &[Number; places::NUMBERS]) -> bool
    ensures { result ≡ every NUMBERS (λ k. is_within (range_of k) (slice_get entries.now k)) }
{
    entries
        .iter()
        .enumerate()
        .all(|(k, n)| range_of(k).holds(*n))
}

// A number that is not below 0; 0 where it is none.
#[tactic(auto, unfolding(crate::specs::Settings::plain_of))]
fn word_of(n: Number) -> u16
    ensures { result ≡ plain_of (Some n) }
{
    if let Number::Plus(v) = n { v } else { 0 }
}

// Whether each duty is not below the one before.
fn all_rise(entries: &[Number; places::NUMBERS]) -> bool
    ensures { result ≡ every 12 (rises_by (slice_get entries.now)) }
{
    for k in 0..12 {
        let lower = word_of(entries[places::DUTIES + k]);
        let upper = word_of(entries[places::DUTIES + k + 1]);
        if upper < lower {
            return false;
        }
    }
    true
}

// ---- the setup

#[tactic(auto, unfolding(crate::specs::Entries::held_byte))]
fn held_byte(n: Number) -> u8
    ensures { result ≡ held_byte (Some n) }
{
    (word_of(n) % 256) as u8
}

#[tactic(auto, unfolding(crate::specs::Entries::held_degrees))]
fn held_degrees(n: Number) -> i8
    ensures { result ≡ held_degrees (Some n) }
{
    match n {
        Number::Dash => 0,
        Number::Plus(v) => (v % 128) as i8,
        Number::Minus(v) => -((v % 128) as i8),
    }
}

// None for "-", else the number as it is held.
#[tactic(auto, unfolding(crate::specs::Settings::none_or))]
fn none_or<T, F: FnOnce(Number) -> T>(n: Number, held: F) -> Option<T>
    requires { F.pre held n }
    ensures { (f : Option Number → T) → HoldsAs (F.post held) f → result ≡ none_or None (Some (f (Some n))) (Some n) }
{
    match n {
        Number::Dash => None,
        _ => Some(held(n)),
    }
}

fn boost_from(n: Number) -> Option<i8>
    ensures { result ≡ boost_of held_degrees (Some n) }
{
    none_or(n, held_degrees)
}

fn override_from(n: Number) -> Option<u16>
    ensures { result ≡ override_of (Some n) }
{
    none_or(n, word_of)
}

// The N numbers from the first on, as they are held.
fn group<T, const N: usize, F: Fn(Number) -> T>(
    entries: &[Number; places::NUMBERS],
    first: usize,
    held: F,
) -> [T; N]
    requires place { first + N ≤ NUMBERS }
    requires callable { F.IsAlwaysCallable held }
    ensures { (f : Option Number → T) → HoldsAs (F.post held) f → result ≡ tab (λ k. f (slice_get entries.now (first + k))) N }
{
    array::from_fn(|k| held(entries[first + k]))
}

fn setup_from(entries: &[Number; places::NUMBERS]) -> Setup
    ensures { result ≡ setup_by held_byte held_degrees (slice_get entries.now) }
{
    Setup {
        level: held_byte(entries[places::LEVEL]),
        bases: group(entries, places::BASES, held_degrees),
        offsets12: group(entries, places::OFFSETS12, held_byte),
        offsets34: group(entries, places::OFFSETS34, held_byte),
        hystereses: group(entries, places::HYSTERESES, held_byte),
        duties: group(entries, places::DUTIES, word_of),
        boosts: group(entries, places::BOOSTS, boost_from),
        boost_hysteresis: held_byte(entries[places::BOOST_HYSTERESIS]),
        bindings: group(entries, places::BINDINGS, held_byte),
        overrides: group(entries, places::OVERRIDES, override_from),
        start_duties: group(entries, places::START_DUTIES, word_of),
        start_counts: group(entries, places::START_COUNTS, held_byte),
    }
}

// Whether a line has the letter S and 59 fields behind it.
#[tactic(auto, unfolding(crate::specs::Settings::is_setup))]
fn is_setup(line: &[u8]) -> bool
    ensures { result ≡ is_setup line.now }
{
    text::width(line) == 1 && line[0] == b'S' && text::count_fields(line) == places::NUMBERS + 1
}

// The setup of an S line, or its refusal: spelling first, then ranges, then duties that fall.
pub fn settings_of(line: &[u8]) -> Result<Setup, Refusal>
    ensures { result ≡ settings_of line.now }
{
    if !is_setup(line) {
        return Err(Refusal::Spelling);
    }
    let entries = entries_of(line).ok_or(Refusal::Spelling)?;
    if all_within(&entries) && all_rise(&entries) {
        Ok(setup_from(&entries))
    } else {
        Err(Refusal::Setup)
    }
}
