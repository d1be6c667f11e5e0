// A zone's temperature: how it is held, how an event states it, and how its two registers show it.
#![tactic(auto)]

ghost use Rattle.std.specs.Prelude.{◌≡◌, ◌%◌};
ghost use Rattle.temperature.specs.Raised.{raised};
ghost use Rattle.temperature.specs.Temperature.{whole_of, is_odd, whole_byte, half_set, sixteenths_of, reading_of, count_reading, with_half, hotter_of};

// A signed count of sixteenths of a degree, or none.
// Stays: document 01 names this enum, a taken count or missing, and how it is taken apart.
#[derive(Clone, Copy, PartialEq, Eq)]
pub enum Reading {
    Missing,
    Taken(i16),
}

// A temperature as an event states it: none, a signed count of half degrees (T), or of sixteenths (U).
#[derive(Clone, Copy, PartialEq, Eq)]
pub enum Stated {
    Missing,
    Halves(i16),
    Sixteenths(i16),
}

// The bits of a reading below half a degree, and below a degree.
const HALF_BITS: i16 = 3;

const DEGREE_BITS: i16 = HALF_BITS + 1;

// How many sixteenths half a degree is, and a degree.
pub const HALF: i16 = 1 << HALF_BITS;

pub const DEGREE: i16 = 1 << DEGREE_BITS;

// The whole byte while a reading is missing.
const MISSING: u8 = 0x80;

// A number with no sign that ends in the same bits as z + 65536.
#[tactic(auto, unfolding(crate::specs::Raised::raised))]
fn bits_of(z: i16) -> u16
    ensures { result ≡ raised z % 65536 }
{
    z.cast_unsigned()
}

// The reading rounded down to a degree, as two's complement.
fn whole(n: i16) -> u8
    ensures { result ≡ whole_of n }
{
    (bits_of(n >> DEGREE_BITS) % 256) as u8
}

fn is_odd(h: i16) -> bool
    ensures { result ≡ is_odd h }
{
    bits_of(h) % 2 == 1
}

// The whole-degree byte that shows a reading.
#[tactic(auto, unfolding(crate::specs::Temperature::whole_byte))]
pub fn whole_byte(reading: Reading) -> u8
    ensures { result ≡ whole_byte reading }
{
    let Reading::Taken(n) = reading else {
        return MISSING;
    };
    whole(n)
}

// Whether the half bit is set that shows a reading.
#[tactic(auto, unfolding(crate::specs::Temperature::half_set))]
pub fn half_set(reading: Reading) -> bool
    ensures { result ≡ half_set reading }
{
    let Reading::Taken(n) = reading else {
        return false;
    };
    is_odd(n >> HALF_BITS)
}

// How many sixteenths a byte of signed degrees is.
#[tactic(auto, unfolding(crate::specs::Temperature::degrees_of))]
pub fn from_degrees(byte: u8) -> i16
    ensures { result ≡ sixteenths_of byte }
{
    byte.cast_signed() as i16 * DEGREE
}

// The reading that a whole-degree byte stands for, with no fraction.
#[tactic(auto, unfolding(crate::specs::Temperature::reading_of))]
pub fn from_byte(byte: u8) -> Reading
    ensures { result ≡ reading_of byte }
{
    if byte == MISSING {
        return Reading::Missing;
    }
    Reading::Taken(from_degrees(byte))
}

// The reading that a voltage count stands for: the count minus 128 degrees. A count of 0 is missing.
#[tactic(auto, unfolding(crate::specs::Temperature::count_reading))]
pub fn from_count(count: u8) -> Reading
    ensures { result ≡ count_reading count }
{
    if count == 0 {
        return Reading::Missing;
    }
    Reading::Taken((count as i16 - 128) * DEGREE)
}

// The reading with its half bit set or cleared and no rest below it; a missing one stays missing.
#[tactic(auto, unfolding(crate::specs::Temperature::with_half))]
pub fn with_half(reading: Reading, half: bool) -> Reading
    ensures { result ≡ with_half reading half }
{
    let Reading::Taken(n) = reading else {
        return Reading::Missing;
    };
    let degrees = (n >> DEGREE_BITS) * DEGREE;
    if half {
        Reading::Taken(degrees + HALF)
    } else {
        Reading::Taken(degrees)
    }
}

// The hotter of two readings; a missing one is the hotter.
#[tactic(auto, unfolding(crate::specs::Temperature::hotter_of))]
pub fn hotter(a: Reading, b: Reading) -> Reading
    ensures { result ≡ hotter_of a b }
{
    let (Reading::Taken(x), Reading::Taken(y)) = (a, b) else {
        return Reading::Missing;
    };
    Reading::Taken(x.max(y))
}
