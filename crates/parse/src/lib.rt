// A line of text as an event (document 01, "Lines and refusals"; document 02, Q-1 and Q-7). The ranges of its numbers are the event's own
// business.
#![tactic(auto)]

ghost use Rattle.std.specs.Prelude.{◌≡◌, ◌++◌, MatchOption, None, Some, min, eqb, pos, length, drop};
ghost use Rattle.laws.specs.Pick.{pick};
ghost use Rattle.text.specs.Fields.{first_field, fields_of, field_at};
ghost use Rattle.text.specs.Number.{saturated};
ghost use Rattle.text.specs.Hex.{hex_byte_of};
ghost use Rattle.parse.specs.Parse.{letter_of, number_at, index_of, spelled_stated, count_of, pair_of, pin_line, alone_line, two_of, three_of, write_line, read_line, read_block_line, is_data, write_block_line, event_of, data_of};
ghost use Rattle.parse.specs.Clamped.{saturated_pair, clamped_index, clamped_stated, clamped_count, clamped_parsed};
ghost use Rattle.parse.specs.Pairs.{pair_line, counted_by};
ghost use Rattle.parse.specs.Walked.{Behind};

use event::{BLOCK_MOST, Event};
use temperature::Stated;
use text::{Number, TAB};

// The first field of a P line's data.
const DATA: usize = 4;

// ---- numbers

// An index; what is no number from 1 on counts as 0, and all from 255 on as 255: no range holds either.
#[tactic(auto, unfolding(crate::specs::Parse::index_of))]
fn index_of(n: Number) -> u8
    ensures { result ≡ clamped_index (index_of n) }
{
    match n {
        Number::Plus(v) => u8::try_from(v).unwrap_or(255),
        Number::Dash | Number::Minus(_) => 0,
    }
}

// A number as it is, or 32767, which no range holds.
// Stays: numbers that no range holds, here and beside, for `clamped_parsed` promises them, and the ranges are the event's own business.
fn above(v: u16) -> i16
    ensures { result ≡ pos (min v 32767) }
{
    i16::try_from(v).unwrap_or(i16::MAX)
}

// A temperature in the unit of its letter: of T half degrees, of U sixteenths.
// Stays: by its letter, as `counted_by` of the definitions has it; a function handed in would be the same test at its callers.
#[tactic(auto, unfolding(crate::specs::Pairs::counted_by))]
fn counted_by(letter: u8, n: i16) -> Stated
    ensures { result ≡ counted_by letter n }
{
    if letter == b'T' {
        Stated::Halves(n)
    } else {
        Stated::Sixteenths(n)
    }
}

#[tactic(auto, unfolding(crate::specs::Parse::spelled_stated, crate::specs::Pairs::counted_by))]
fn spelled_stated(letter: u8, n: Number) -> Stated
    ensures { result ≡ clamped_stated (spelled_stated (counted_by letter) n) }
{
    match n {
        Number::Dash => Stated::Missing,
        Number::Plus(v) => counted_by(letter, above(v)),
        Number::Minus(v) => counted_by(letter, -above(v)),
    }
}

// A count; one below 0 counts as 65535, which no range holds.
#[tactic(auto, unfolding(crate::specs::Parse::count_of))]
fn count_of(n: Number) -> Option<u16>
    ensures { result ≡ clamped_count (count_of n) }
{
    match n {
        Number::Dash => None,
        Number::Plus(v) => Some(v),
        Number::Minus(_) => Some(u16::MAX),
    }
}

// ---- fields

// Nothing of a line that has not n fields.
fn of_fields(line: &[u8], n: usize) -> Option<()>
    ensures { result ≡ pick (eqb (length (fields_of line.now)) n) (Some tt) None }
{
    (text::count_fields(line) == n).then_some(())
}

// The number in field k.
#[tactic(auto, unfolding(crate::specs::Parse::number_at))]
fn number_at(line: &[u8], k: usize) -> Option<Number>
    ensures { result ≡ saturated (number_at line.now k) }
{
    text::decimal(text::field(line, k))
}

// The byte in field k.
fn hex_at(line: &[u8], k: usize) -> Option<u8>
    ensures { result ≡ hex_byte_of (field_at line.now k) }
{
    text::hex_byte(text::field(line, k))
}

// The first field, and what stands behind its tab; nothing where there is no tab.
#[tactic(auto, using(text::specs::Walk::first_take, crate::specs::Walked::behind))]
fn parted(s: &[u8]) -> Option<(&[u8], &[u8])>
    ensures { MatchOption result (length (first_field s.now) ≡ length s.now) (λ p. (p.0.now ≡ first_field s.now) × Behind s.now p.1.now) }
{
    let width = text::width(s);
    if width == s.len() {
        return None;
    }
    Some((&s[..width], &s[width + 1..]))
}

// ---- lines of decimal fields

// An index and a value, both spelled right. A further tab in the value makes it a wrong decimal.
fn pair_of(line: &[u8]) -> Option<(Number, Number)>
    ensures { result ≡ saturated_pair (pair_of line.now) }
{
    let (_, rest) = parted(line)?;
    let (index, value) = parted(rest)?;
    text::decimal(index).zip(text::decimal(value))
}

// The event of a letter that has an index and a value behind it.
#[tactic(auto, using(crate::specs::Held::pair_read, crate::specs::Pairs::pair_temperature), unfolding(crate::specs::Pairs::pair_line))]
fn pair_line(letter: u8, line: &[u8]) -> Option<Event>
    ensures { result ≡ clamped_parsed (pair_line letter (pair_of line.now)) }
{
    let (i, v) = pair_of(line)?;
    let index = index_of(i);
    match letter {
        b'F' => Some(Event::Fan {
            fan: index,
            count: count_of(v),
        }),
        b'H' => Some(Event::Hot {
            input: index,
            level: count_of(v),
        }),
        b'T' | b'U' => Some(Event::Temperature {
            zone: index,
            stated: spelled_stated(letter, v),
        }),
        b'V' => Some(Event::Voltage {
            channel: index,
            count: count_of(v),
        }),
        _ => None,
    }
}

#[tactic(auto, using(crate::specs::Held::pin_read), unfolding(crate::specs::Parse::pin_line))]
fn pin_line(line: &[u8]) -> Option<Event>
    ensures { result ≡ clamped_parsed (pin_line line.now) }
{
    of_fields(line, 2)?;
    let level = number_at(line, 1)?;
    Some(Event::Pin {
        level: count_of(level),
    })
}

// A line that is a letter alone.
#[tactic(auto, unfolding(crate::specs::Parse::alone_line))]
fn alone_line(line: &[u8], event: Event) -> Option<Event>
    ensures { result ≡ alone_line event line.now }
{
    of_fields(line, 1)?;
    Some(event)
}

// ---- lines of bus fields

// The two of a line that has no more.
#[tactic(auto, unfolding(crate::specs::Parse::two_of))]
fn two_alone(line: &[u8]) -> Option<(u8, u8)>
    ensures { result ≡ pick (eqb (length (fields_of line.now)) 3) (two_of line.now) None }
{
    of_fields(line, 3)?;
    Some((hex_at(line, 1)?, hex_at(line, 2)?))
}

#[tactic(auto, unfolding(crate::specs::Parse::three_of, crate::specs::Parse::two_of))]
fn three_of(line: &[u8]) -> Option<(u8, u8, u8)>
    ensures { result ≡ three_of line.now }
{
    Some((hex_at(line, 1)?, hex_at(line, 2)?, hex_at(line, 3)?))
}

#[tactic(auto, unfolding(crate::specs::Parse::read_line))]
fn read_line(line: &[u8]) -> Option<Event>
    ensures { result ≡ read_line line.now }
{
    let (address, register) = two_alone(line)?;
    Some(Event::Read { address, register })
}

#[tactic(auto, unfolding(crate::specs::Parse::read_block_line))]
fn read_block_line(line: &[u8]) -> Option<Event>
    ensures { result ≡ read_block_line line.now }
{
    let (address, command) = two_alone(line)?;
    Some(Event::ReadBlock { address, command })
}

#[tactic(auto, unfolding(crate::specs::Parse::write_line))]
fn write_line(line: &[u8]) -> Option<Event>
    ensures { result ≡ write_line line.now }
{
    of_fields(line, 4)?;
    let (address, register, byte) = three_of(line)?;
    Some(Event::Write {
        address,
        register,
        byte,
    })
}

// Whether a line has as many bytes behind its count as that says, all spelled right.
#[tactic(auto, unfolding(crate::specs::Parse::is_data))]
fn is_data(n: u8, line: &[u8]) -> bool
    ensures { result ≡ is_data n line.now }
{
    let count = usize::from(n);
    count <= BLOCK_MOST
        && text::count_fields(line) == DATA + count
        && text::hex_fields(line, DATA, &mut [0; BLOCK_MOST][..count])
}

#[tactic(auto, unfolding(crate::specs::Parse::write_block_line))]
fn write_block_line(line: &[u8]) -> Option<Event>
    ensures { result ≡ write_block_line line.now }
{
    let (address, command, n) = three_of(line)?;
    is_data(n, line).then_some(Event::WriteBlock { address, command })
}

// ---- the event

// The letter of a line; 0, which is none, where its first field is not one byte.
// Stays: a byte, 0 for none, for so `line_before`, `line_refused` and `line_same` (`spoken`: OldLines) speak of a line's letter.
#[tactic(auto, using(crate::specs::Walked::letter_walked))]
pub fn letter_of(line: &[u8]) -> u8
    ensures { result ≡ letter_of line.now }
{
    match line {
        [TAB, ..] => 0,
        [letter] | [letter, TAB, ..] => *letter,
        _ => 0,
    }
}

// The event that a line says.
#[tactic(auto, using(crate::proofs::Letters::by_letter), unfolding(crate::specs::Parse::event_by))]
pub fn event_of(line: &[u8]) -> Option<Event>
    ensures { result ≡ clamped_parsed (event_of line.now) }
{
    match letter_of(line) {
        b'A' => pin_line(line),
        b'G' => read_block_line(line),
        b'K' => alone_line(line, Event::Tick),
        b'P' => write_block_line(line),
        b'R' => read_line(line),
        b'W' => write_line(line),
        b'X' => alone_line(line, Event::Reset),
        letter => pair_line(letter, line),
    }
}

// ---- the bytes beside the event

// The bytes of data that a P line carries, at the start of the lent buffer, and how many; none of any other line.
// Stays: a count beside the buffer, since the promise is about all its bytes: no clause can name those behind a slice lent from it.
#[tactic(auto, using(crate::specs::Data::data_count), unfolding(crate::specs::Parse::data_of))]
pub fn data_of(line: &[u8], bytes: &mut [u8; BLOCK_MOST]) -> usize
    ensures { (result ≡ length (data_of line.now)) × (bytes.new ≡ data_of line.now ++ drop (length (data_of line.now)) bytes.old) }
{
    let [b'P', ..] = line else {
        return 0;
    };
    let Some((_, _, n)) = three_of(line) else {
        return 0;
    };
    let count = usize::from(n).min(BLOCK_MOST);
    text::hex_fields(line, DATA, &mut bytes[..count]);
    count
}
