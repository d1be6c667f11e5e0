// Lines as text: fields in, answers out (document 01, "Lines and refusals"; document 02, Q-1).
#![tactic(auto)]

ghost use Rattle.std.specs.Prelude.{◌≡◌, ◌==◌, IfSome, position, [], ◌∷◌, ◌+◌, ◌*◌, ◌≤◌, ◌<◌, length, drop};
ghost use Rattle.text.specs.Widths.{width_before};
ghost use Rattle.text.specs.Fields.{first_field, fields_of, field_at, next_field};
ghost use Rattle.text.specs.Walk.{FieldsFrom};
ghost use Rattle.text.specs.Number.{run_of, saturated_run, saturated, plus_of, minus_of, decimal_of, one_more};
ghost use Rattle.text.specs.Hex.{nibble_of, hex_byte_of, hexes_spelt, hexes_of};
ghost use Rattle.text.specs.Answers.{Wrote, HasRoom, Writes, digits_text, column_text, hex_digit, hex_text, digit_of, ack_text, byte_text, no_byte_text, bytes_text, block_text, tick_text, refusal_text, ROOM, BLOCK_ROOM, wrote_length, wrote_into};

pub const TAB: u8 = 9;

const LINE_FEED: u8 = 10;

// The least room that an answer is written into, and the least for that to a block read.
pub const ROOM: usize = 64;

pub const BLOCK_ROOM: usize = 128;

// The longest block.
// Stays: beside that of `event`, of which `text` knows nothing.
const BLOCK_MOST: usize = 32;

// A decimal field: "-" alone, or a number, of which all above 65535 count as 65535.
#[derive(Clone, Copy, PartialEq, Eq)]
pub enum Number {
    Dash,
    Plus(u16),
    Minus(u16),
}

// ---- lines and fields

// Where the first byte stands that is this one.
fn place_of(s: &[u8], end: u8) -> Option<usize>
    ensures { result ≡ position (λ b. b == end) s.now }
{
    s.iter().position(|b| *b == end)
}

// How many bytes stand before the first that is this one.
fn width_before(s: &[u8], end: u8) -> usize
    ensures within { result ≤ length s.now }
    ensures holds { result ≡ width_before end s.now }
{
    place_of(s, end).unwrap_or(s.len())
}

// How many bytes stand before the first tab.
// Stays: `width` and `line_width` are public, one for each byte that parts a text (docs/PROMISES.md).
pub fn width(s: &[u8]) -> usize
    ensures within { result ≤ length s.now }
    ensures holds { result ≡ length (first_field s.now) }
{
    width_before(s, TAB)
}

// How many bytes stand before the first line feed.
pub fn line_width(s: &[u8]) -> usize
    ensures within { result ≤ length s.now }
    ensures holds { result ≡ width_before 10 s.now }
{
    width_before(s, LINE_FEED)
}

// How many fields a line has: one more than its tabs.
pub fn count_fields(s: &[u8]) -> usize
    ensures { result ≡ length (fields_of s.now) }
{
    let mut n = 1;
    for b in s {
        if *b == TAB {
            n += 1;
        }
    }
    n
}

// Where field k begins, or the line's end.
fn field_start(s: &[u8], k: usize) -> usize
    ensures { FieldsFrom s.now result k }
{
    let mut left = k;
    for (i, b) in s.iter().enumerate() {
        if left == 0 {
            return i;
        }
        if *b == TAB {
            left -= 1;
        }
    }
    s.len()
}

// The first field of what is left of a line.
fn first_field(s: &[u8]) -> &[u8]
    ensures { result.now ≡ first_field s.now }
{
    &s[..width(s)]
}

// Field k of a line, counted from 0; empty where the line has fewer.
pub fn field(s: &[u8], k: usize) -> &[u8]
    ensures { result.now ≡ field_at s.now k }
{
    first_field(&s[field_start(s, k)..])
}

// Where the field behind the one at a place begins, or the line's end.
#[tactic(auto, unfolding(crate::specs::Fields::next_field))]
pub fn next_field(s: &[u8], at: usize) -> usize
    ensures within { result ≤ length s.now }
    ensures holds { result ≡ next_field s.now at }
{
    let at = at.min(s.len());
    (at + width(&s[at..]) + 1).min(s.len())
}

// ---- decimals

// One digit more behind v.
#[tactic(auto, unfolding(crate::specs::Number::one_more))]
fn one_more(v: u16, digit: u8) -> u16
    requires { (48 ≤ digit) × (digit ≤ 57) }
    ensures { result ≡ one_more v digit }
{
    v.saturating_mul(10).saturating_add(u16::from(digit - b'0'))
}

// The number that digits spell; None for anything else.
fn run_of(s: &[u8]) -> Option<u16>
    ensures { result ≡ saturated_run (run_of s.now) }
{
    let mut v = 0;
    for b in s {
        if !b.is_ascii_digit() {
            return None;
        }
        v = one_more(v, *b);
    }
    Some(v)
}

// What stands without a sign: digits, the first no 0 unless it stands alone.
#[tactic(auto, unfolding(crate::specs::Number::plus_of, crate::specs::Number::saturated, crate::specs::Number::saturated_run))]
fn plus_of(s: &[u8]) -> Option<Number>
    ensures { result ≡ saturated (plus_of s.now) }
{
    match s {
        [] | [b'0', _, ..] => None,
        _ => run_of(s).map(Number::Plus),
    }
}

// What stands behind a minus sign.
#[tactic(auto, unfolding(crate::specs::Number::minus_of, crate::specs::Number::saturated, crate::specs::Number::saturated_run))]
fn minus_of(s: &[u8]) -> Option<Number>
    ensures { result ≡ saturated (minus_of s.now) }
{
    match s {
        [] => Some(Number::Dash),
        [b'0', ..] => None,
        _ => run_of(s).map(Number::Minus),
    }
}

// A decimal field; None where it is spelled wrong.
#[tactic(auto, unfolding(crate::specs::Number::decimal_of, crate::specs::Number::saturated))]
pub fn decimal(s: &[u8]) -> Option<Number>
    ensures { result ≡ saturated (decimal_of s.now) }
{
    match s {
        [] => None,
        [b'-', rest @ ..] => minus_of(rest),
        _ => plus_of(s),
    }
}

// ---- bus fields

// The value of a capital hex digit, None for any other byte.
#[tactic(auto, unfolding(crate::specs::Hex::nibble_of))]
fn nibble_of(b: u8) -> Option<u8>
    ensures value { result ≡ nibble_of b }
    ensures bound { IfSome result (λ n. n < 16) }
{
    match b {
        b'0'..=b'9' => Some(b - b'0'),
        b'A'..=b'F' => Some(b - b'A' + 10),
        _ => None,
    }
}

// A bus field: two capital hex digits; None where it is spelled wrong.
#[tactic(auto, unfolding(crate::specs::Hex::hex_byte_of))]
pub fn hex_byte(s: &[u8]) -> Option<u8>
    ensures { result ≡ hex_byte_of s.now }
{
    let [high, low] = s else {
        return None;
    };
    Some(nibble_of(*high)? * 16 + nibble_of(*low)?)
}

// The bus fields from field k on, as many as bytes are lent, and whether all of them are spelled right.
// Stays: the bytes are promised where a field is spelled wrong too, so there is nothing that an Option would hold back.
pub fn hex_fields(s: &[u8], k: usize, bytes: &mut [u8]) -> bool
    ensures { (result ≡ hexes_spelt s.now k (length bytes.old)) × (bytes.new ≡ hexes_of s.now k (length bytes.old)) }
{
    let mut at = field_start(s, k);
    let mut spelt = true;
    for byte in bytes.iter_mut() {
        let hex = hex_byte(first_field(&s[at..]));
        *byte = hex.unwrap_or(0);
        spelt &= hex.is_some();
        at = next_field(s, at);
    }
    spelt
}

// ---- answers

// A byte at a place; where it ends.
fn put(out: &mut [u8], at: usize, b: u8) -> usize
    requires { at < length out.old }
    ensures { Wrote out.old at (b ∷ []) result out.new }
{
    out[at] = b;
    at + 1
}

// A number from a place on; where it ends.
// Stays: `write!` promises its text only where it returns Ok, and an answer's text is promised always.
fn put_digits(out: &mut [u8], at: usize, n: u64) -> usize
    requires { at + length (digits_text 20 n) ≤ length out.old }
    ensures { Wrote out.old at (digits_text 20 n) result out.new }
{
    if n < 10 {
        return put(out, at, b'0' + n as u8);
    }
    let last = put_digits(out, at, n / 10);
    put(out, last, b'0' + (n % 10) as u8)
}

// A lent buffer, and how much of it is written.
#[derive(Drop)]
struct Output<'a> {
    out: &'a mut [u8],
    written: usize,
}

impl<'a> Output<'a> {
    // One byte.
    fn byte(&mut self, b: u8)
        requires { HasRoom self.old 1 }
        ensures { Writes self.old (b ∷ []) self.new }
    {
        self.written = put(self.out, self.written, b);
    }

    // A tab and a number.
    fn column(&mut self, n: u64)
        requires { HasRoom self.old 21 }
        ensures writes { Writes self.old (column_text n) self.new }
        ensures long { self.new.written ≤ self.old.written + 21 }
        ensures short { n < 100000 → self.new.written ≤ self.old.written + 6 }
    {
        self.byte(TAB);
        self.written = put_digits(self.out, self.written, n);
    }

    // A tab and a byte.
    #[tactic(auto, unfolding(crate::specs::Answers::hex_text))]
    fn hex(&mut self, b: u8)
        requires { HasRoom self.old 3 }
        ensures writes { Writes self.old (hex_text b) self.new }
        ensures three { self.new.written ≡ self.old.written + 3 }
    {
        self.byte(TAB);
        self.byte(hex_digit(b / 16));
        self.byte(hex_digit(b % 16));
    }

    // The bytes of a block, a tab before each.
    #[tactic(auto, unfolding(crate::specs::Answers::bytes_text))]
    fn hexes(&mut self, bytes: &[u8])
        requires { HasRoom self.old (3 * length bytes.now) }
        ensures writes { Writes self.old (bytes_text bytes.now) self.new }
        ensures three { self.new.written ≡ self.old.written + 3 * length bytes.now }
    {
        for b in bytes {
            self.hex(*b);
        }
    }

    // What the answers to W, R, K, G and P begin with: the letter, a tab, and 1 or 0.
    fn head(&mut self, letter: u8, flag: bool)
        requires { HasRoom self.old 3 }
        ensures { Writes self.old (letter ∷ 9 ∷ digit_of flag ∷ []) self.new }
    {
        self.byte(letter);
        self.byte(TAB);
        self.byte(digit_of(flag));
    }

    // The line feed that ends an answer; the answer's length.
    fn end(&mut self) -> usize
        requires { HasRoom self.old 1 }
        ensures writes { Writes self.old (10 ∷ []) self.new }
        ensures length { result ≡ self.new.written }
    {
        self.byte(LINE_FEED);
        self.written
    }
}

#[tactic(auto, unfolding(crate::specs::Answers::hex_digit))]
fn hex_digit(d: u8) -> u8
    requires { d < 16 }
    ensures { result ≡ hex_digit d }
{
    if d < 10 { b'0' + d } else { b'A' + (d - 10) }
}

#[tactic(auto, unfolding(crate::specs::Answers::digit_of))]
fn digit_of(on: bool) -> u8
    ensures { result ≡ digit_of on }
{
    if on { b'1' } else { b'0' }
}

// The answer to W or P, at the start of a lent buffer: its length, or 0 where there is no room.
// Stays: 0 for no room, since `wrote_length` promises that length.
// Stays: each answer tests the room itself (tried: where a function answers an `Option<Output>`, its caller does not know what it left).
#[tactic(auto, unfolding(crate::specs::Answers::ack_text, crate::specs::Answers::wrote_length, crate::specs::Answers::wrote_into))]
pub fn write_ack(out: &mut [u8], letter: u8, ack: bool) -> usize
    ensures { (result ≡ wrote_length ROOM (ack_text letter ack) out.old) × (out.new ≡ wrote_into ROOM (ack_text letter ack) out.old) }
{
    if out.len() < ROOM {
        return 0;
    }
    let mut output = Output { out, written: 0 };
    output.head(letter, ack);
    output.end()
}

// The answer to an acknowledged R.
#[tactic(auto, unfolding(crate::specs::Answers::wrote_length, crate::specs::Answers::wrote_into))]
pub fn write_shown(out: &mut [u8], byte: u8) -> usize
    ensures { (result ≡ wrote_length ROOM (byte_text byte) out.old) × (out.new ≡ wrote_into ROOM (byte_text byte) out.old) }
{
    if out.len() < ROOM {
        return 0;
    }
    let mut output = Output { out, written: 0 };
    output.head(b'R', true);
    output.hex(byte);
    output.end()
}

// The answer to an R or a G that is not acknowledged.
#[tactic(auto, unfolding(crate::specs::Answers::wrote_length, crate::specs::Answers::wrote_into))]
pub fn write_not_shown(out: &mut [u8], letter: u8) -> usize
    ensures { (result ≡ wrote_length ROOM (no_byte_text letter) out.old) × (out.new ≡ wrote_into ROOM (no_byte_text letter) out.old) }
{
    if out.len() < ROOM {
        return 0;
    }
    let mut output = Output { out, written: 0 };
    output.head(letter, false);
    output.byte(TAB);
    output.byte(b'-');
    output.byte(b'-');
    output.end()
}

// The answer to an acknowledged G, of a block of at most 32 bytes.
#[tactic(auto, unfolding(crate::specs::Answers::block_text, crate::specs::Answers::wrote_length, crate::specs::Answers::wrote_into))]
pub fn write_block_shown(out: &mut [u8], bytes: &[u8]) -> usize
    ensures { (result ≡ wrote_length BLOCK_ROOM (block_text bytes.now) out.old) × (out.new ≡ wrote_into BLOCK_ROOM (block_text bytes.now) out.old) }
{
    if out.len() < BLOCK_ROOM || bytes.len() > BLOCK_MOST {
        return 0;
    }
    let mut output = Output { out, written: 0 };
    output.head(b'G', true);
    output.hex(bytes.len() as u8);
    output.hexes(bytes);
    output.end()
}

// The answer to K.
// Stays: six numbers, for `text` knows no chip and no tick.
#[tactic(auto, unfolding(crate::specs::Answers::wrote_length, crate::specs::Answers::wrote_into))]
pub fn write_tick(
    out: &mut [u8],
    alert: bool,
    duty1: u16,
    duty2: u16,
    output1: u16,
    output2: u16,
    errors: u32,
) -> usize
    ensures { (result ≡ wrote_length ROOM (tick_text alert duty1 duty2 output1 output2 errors) out.old) × (out.new ≡ wrote_into ROOM (tick_text alert duty1 duty2 output1 output2 errors) out.old) }
{
    if out.len() < ROOM {
        return 0;
    }
    let mut output = Output { out, written: 0 };
    output.head(b'K', alert);
    output.column(duty1 as u64);
    output.column(duty2 as u64);
    output.column(output1 as u64);
    output.column(output2 as u64);
    output.column(errors as u64);
    output.end()
}

// What a refused line prints: E, the line's number, the refusal.
// Stays: a number, for `text` knows no chip, and prints the refusal of any reader.
#[tactic(auto, unfolding(crate::specs::Answers::wrote_length, crate::specs::Answers::wrote_into))]
pub fn write_refusal(out: &mut [u8], number: u64, refusal: u8) -> usize
    ensures { (result ≡ wrote_length ROOM (refusal_text number refusal) out.old) × (out.new ≡ wrote_into ROOM (refusal_text number refusal) out.old) }
{
    if out.len() < ROOM {
        return 0;
    }
    let mut output = Output { out, written: 0 };
    output.byte(b'E');
    output.column(number);
    output.column(refusal as u64);
    output.end()
}
