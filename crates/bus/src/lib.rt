// The SMBus side of the chip: the address latch, byte writes, byte reads and the register dump (document 01, "Bus answers"), block reads
// and block writes (document 02, Q-1), the high bytes of fan counts that byte reads keep (Q-4).
#![tactic(auto)]

ghost use Rattle.std.specs.Prelude.{◌≡◌, length};
ghost use Rattle.laws.specs.Pick.{pick};
ghost use Rattle.state.specs.With.{with_kept};
ghost use Rattle.state.specs.Made.{of_zones};
ghost use Rattle.bus.specs.Latch.{latch_after, transacted_pin, is_ours};
ghost use Rattle.bus.specs.Write.{stored_byte, cleared_byte, is_shut, zone_writable, change_home, change_of, wrote_register};
ghost use Rattle.bus.specs.Read.{of_parts, volt_byte, fan_word, low_byte, high_byte, half_byte, shown_kind, shown_register, read_register};
ghost use Rattle.bus.specs.Dump.{dump_answer, dumped_into};
ghost use Rattle.bus.specs.Block.{block_place, block_for, block_bytes, counted_block, wrote_from};

use map::{Block, Kind, bits, registers};
use state::{Pin, Refusal};
use temperature::Reading;

// The top five bits of a slave address that the chip listens for: 01011.
const FAMILY: u8 = 0x0B;

// The last register: a block that would go past it stays there.
const LAST: u8 = 0xFF;

// What a byte write changes: nothing, a register that then holds a byte, or a zone that then has a reading.
#[derive(Clone, Copy, PartialEq, Eq)]
pub enum Change {
    Nothing,
    Register(u8, u8),
    ZoneReading(u8, Reading),
}

// What a byte read shows, and the high bytes of fan counts that are kept after it.
#[derive(Clone, Copy, PartialEq, Eq)]
pub struct ByteRead {
    pub byte: u8,
    pub kept: [Option<u8>; 4],
}

// ---- the latch

// The latch after a transaction for an address.
#[tactic(auto, unfolding(crate::specs::Latch::latch_after, crate::specs::Latch::latch_by))]
fn latch_after(pin: Pin, address: u8) -> Option<u8>
    ensures { result ≡ latch_after pin address }
{
    if pin.latch.is_none() && address / 4 == FAMILY {
        Some(map::slave_address(pin.level))
    } else {
        pin.latch
    }
}

// The pin as a transaction leaves it.
#[tactic(auto, unfolding(crate::specs::Latch::transacted_pin))]
pub fn transact(pin: Pin, address: u8) -> Pin
    ensures { result ≡ transacted_pin pin address }
{
    Pin {
        level: pin.level,
        latch: latch_after(pin, address),
    }
}

// Whether the latched address is the transaction's.
#[tactic(auto, unfolding(crate::specs::Latch::is_ours))]
pub fn answers(pin: Pin, address: u8) -> bool
    ensures { result ≡ is_ours pin.latch address }
{
    pin.latch == Some(address)
}

// ---- byte write

// Only writable bits change.
#[tactic(auto, unfolding(crate::specs::Write::stored_byte))]
fn stored_byte(old: u8, writable: u8, byte: u8) -> u8
    ensures { result ≡ stored_byte old writable byte }
{
    (old & !writable) | (byte & writable)
}

// A written 1 clears, a written 0 keeps.
#[tactic(auto, unfolding(crate::specs::Write::cleared_byte))]
fn cleared_byte(old: u8, writable: u8, byte: u8) -> u8
    ensures { result ≡ cleared_byte old writable byte }
{
    old & !(byte & writable)
}

// Whether a zone is writable, by 31h.
#[tactic(auto, unfolding(crate::specs::Write::zone_writable))]
fn zone_writable(source: u8, zone: u8) -> bool
    ensures { result ≡ zone_writable source zone }
{
    match zone {
        4 => map::is_set(source, bits::INT_WR_E),
        5 => !map::is_set(source, bits::EXT_AD15),
        _ => false,
    }
}

// Whether LOCK keeps a register as it is.
#[tactic(auto, unfolding(crate::specs::Write::is_shut))]
fn is_shut(configuration: u8, home: u8) -> bool
    ensures { result ≡ is_shut configuration home }
{
    map::lock_marked(home) && map::is_set(configuration, bits::LOCK)
}

// A zone that is writable, by 31h, then has the reading.
fn change_zone(source: u8, zone: u8, reading: Reading) -> Change
    ensures { result ≡ pick (zone_writable source zone) (Change.ZoneReading zone reading) Change.Nothing }
{
    if zone_writable(source, zone) {
        Change::ZoneReading(zone, reading)
    } else {
        Change::Nothing
    }
}

// What a write to a register changes, at its home.
#[tactic(auto, unfolding(crate::specs::Write::change_home, crate::specs::Write::change_kind, crate::specs::Write::stored, crate::specs::Write::cleared, crate::specs::Write::change_whole, crate::specs::Write::change_half, state::specs::Parts::register_at, state::specs::Parts::zone_at))]
fn change_home(file: &[u8; 256], zones: &[Reading; 6], home: u8, byte: u8) -> Change
    ensures { result ≡ change_home (of_zones file.now zones.now) home byte }
{
    if is_shut(file[registers::CONFIGURATION as usize], home) {
        return Change::Nothing;
    }
    let source = file[registers::TEMPERATURE_SOURCE_SELECT as usize];
    let old = file[home as usize];
    match map::kind_of(home) {
        Kind::Plain
        | Kind::VoltLow(_)
        | Kind::VoltHigh(_)
        | Kind::FanLimitLow(_)
        | Kind::FanLimitHigh(_) => Change::Register(
            home,
            stored_byte(old, map::writable_of(home), byte),
        ),
        Kind::Status => Change::Register(home, cleared_byte(old, map::writable_of(home), byte)),
        Kind::Whole(zone) => change_zone(source, zone, temperature::from_byte(byte)),
        Kind::Half(zone) => {
            let reading = state::at(zones, zone, Reading::Missing);
            let half = map::is_set(byte, bits::HALF);
            change_zone(source, zone, temperature::with_half(reading, half))
        }
        Kind::Volt(_) | Kind::FanLow(_) | Kind::FanHigh(_) => Change::Nothing,
    }
}

// What a write to a register changes, at its own address or a mirror's.
#[tactic(auto, unfolding(crate::specs::Write::change_of))]
pub fn change_of(file: &[u8; 256], zones: [Reading; 6], register: u8, byte: u8) -> Change
    ensures { result ≡ change_of (of_zones file.now zones) register byte }
{
    change_home(file, &zones, map::home_of(register), byte)
}

// ---- what a register shows

#[tactic(auto, unfolding(crate::specs::Read::volt_byte))]
fn volt_byte(count: Option<u16>) -> u8
    ensures { result ≡ volt_byte count }
{
    count.map_or(0x00, |n| (n % 256) as u8)
}

#[tactic(auto, unfolding(crate::specs::Read::fan_word))]
fn fan_word(count: Option<u16>) -> u16
    ensures { result ≡ fan_word count }
{
    count.unwrap_or(0x3FFF)
}

#[tactic(auto, unfolding(crate::specs::Read::low_byte))]
fn low_byte(count: Option<u16>) -> u8
    ensures { result ≡ low_byte count }
{
    (fan_word(count) % 64 * 4) as u8
}

#[tactic(auto, unfolding(crate::specs::Read::high_byte))]
fn high_byte(count: Option<u16>) -> u8
    ensures { result ≡ high_byte count }
{
    (fan_word(count) / 64 % 256) as u8
}

#[tactic(auto, unfolding(crate::specs::Read::half_byte))]
fn half_byte(reading: Reading) -> u8
    ensures { result ≡ half_byte reading }
{
    if temperature::half_set(reading) {
        bits::HALF
    } else {
        0x00
    }
}

// The registers and the readings: what they show at present needs no other part of the chip.
#[derive(Clone, Copy)]
pub struct Readings<'a> {
    pub file: &'a [u8; 256],
    pub zones: &'a [Reading; 6],
    pub volts: &'a [Option<u16>; 16],
    pub fans: &'a [Option<u16>; 4],
}

impl Readings<'_> {
    // What a register shows, at its home, by its kind.
    #[tactic(auto, unfolding(crate::specs::Read::shown_kind, state::specs::Parts::register_at, state::specs::Parts::zone_at, state::specs::Parts::volt_at, state::specs::Parts::fan_at))]
    fn show_kind(&self, home: u8, kind: Kind) -> u8
        ensures { result ≡ shown_kind (of_parts self.now) home kind }
    {
        let Readings {
            file,
            zones,
            volts,
            fans,
        } = *self;
        match kind {
            Kind::Whole(zone) => temperature::whole_byte(state::at(zones, zone, Reading::Missing)),
            Kind::Half(zone) => half_byte(state::at(zones, zone, Reading::Missing)),
            Kind::Volt(channel) => volt_byte(state::at(volts, channel, None)),
            Kind::FanLow(fan) => low_byte(state::at(fans, fan, None)),
            Kind::FanHigh(fan) => high_byte(state::at(fans, fan, None)),
            Kind::Plain
            | Kind::Status
            | Kind::VoltLow(_)
            | Kind::VoltHigh(_)
            | Kind::FanLimitLow(_)
            | Kind::FanLimitHigh(_) => file[home as usize],
        }
    }

    // What a register shows, at its own address or a mirror's.
    #[tactic(auto, unfolding(crate::specs::Read::shown_register, crate::specs::Read::shown_home))]
    fn show_register(&self, register: u8) -> u8
        ensures { result ≡ shown_register (of_parts self.now) register }
    {
        let home = map::home_of(register);
        self.show_kind(home, map::kind_of(home))
    }
}

// ---- byte read

// What a byte read of a register shows, and the high bytes that are kept after it: a read of a low byte keeps the high byte, a read of a
// high byte drops it.
pub fn read_register(readings: &Readings, kept: [Option<u8>; 4], register: u8) -> ByteRead
    ensures { result ≡ read_register (with_kept (of_parts readings.now) kept) register }
{
    let home = map::home_of(register);
    let kind = map::kind_of(home);
    let present = readings.show_kind(home, kind);
    match kind {
        Kind::FanLow(fan) => {
            let fans = readings.fans;
            let high = high_byte(state::at(fans, fan, None));
            ByteRead {
                byte: present,
                kept: state::with(kept, fan, Some(high)),
            }
        }
        Kind::FanHigh(fan) => ByteRead {
            byte: state::at(&kept, fan, None).unwrap_or(present),
            kept: state::with(kept, fan, None),
        },
        _ => ByteRead {
            byte: present,
            kept,
        },
    }
}

// ---- dump

// The 256 bytes that byte reads of 00h to FFh, one after the other, would show, into a lent buffer. Under 256 bytes are refused by 5.
#[tactic(auto, unfolding(crate::specs::Dump::dump_answer, crate::specs::Dump::dumped_into))]
pub fn dump(readings: &Readings, out: &mut [u8]) -> Result<usize, Refusal>
    ensures { (result ≡ dump_answer out.old) × (out.new ≡ dumped_into (of_parts readings.now) out.old) }
{
    if out.len() < 256 {
        return Err(Refusal::Room);
    }
    show_block(readings, 0x00, &mut out[..256]);
    Ok(256)
}

// ---- blocks

// The register of a block's byte k.
#[tactic(auto, unfolding(crate::specs::Block::block_place))]
fn block_place(first: u8, k: usize) -> u8
    ensures { result ≡ block_place first k }
{
    (first as usize).saturating_add(k).min(LAST as usize) as u8
}

// The block that a transaction reads: none where it is not acknowledged.
#[tactic(auto, unfolding(crate::specs::Block::block_for))]
pub fn block_read(pin: Pin, address: u8, command: u8) -> Option<Block>
    ensures { result ≡ block_for pin.latch address command }
{
    if answers(pin, address) {
        map::block_of(command)
    } else {
        None
    }
}

// The block that a transaction with these bytes writes: none where it is not acknowledged.
#[tactic(auto, unfolding(crate::specs::Block::counted_block))]
pub fn block_written(pin: Pin, address: u8, command: u8, bytes: &[u8]) -> Option<Block>
    ensures { result ≡ counted_block (length bytes.now) (block_for pin.latch address command) }
{
    block_read(pin, address, command).filter(|block| bytes.len() == block.count as usize)
}

// What the registers from the first on show, as many as bytes are lent.
#[tactic(auto, using(laws::specs::Tab::tab_none, laws::specs::Tab::tab_more, laws::specs::Tab::tab_done), unfolding(crate::specs::Block::block_bytes))]
pub fn show_block(readings: &Readings, first: u8, bytes: &mut [u8])
    ensures { bytes.new ≡ block_bytes (of_parts readings.now) first (length bytes.old) }
{
    for (k, byte) in bytes.iter_mut().enumerate() {
        *byte = readings.show_register(block_place(first, k));
    }
}

// Writes a byte to a register. It asks for the home and for the change by itself, as `change_of` does: two callers keep `change_home` a
// function of its own, and the table of the homes is gone from the stack when that looks up others.
#[tactic(auto, unfolding(crate::specs::Write::change_of, crate::specs::Write::changed, crate::specs::Write::wrote_register, state::specs::With::with_register, state::specs::With::with_zone, sense::specs::Events::read_zone))]
fn write_register(file: &mut [u8; 256], zones: &mut [Reading; 6], register: u8, byte: u8)
    ensures { (zones.new ≡ (wrote_register (of_zones file.old zones.old) register byte).zones) × (file.new ≡ (wrote_register (of_zones file.old zones.old) register byte).registers) }
{
    match change_home(file, zones, map::home_of(register), byte) {
        Change::Nothing => {}
        Change::Register(home, stored) => {
            file[home as usize] = stored;
        }
        Change::ZoneReading(zone, reading) => {
            sense::compare_zone(file, zone, reading);
            *zones = state::with(*zones, zone, reading);
        }
    }
}

// Writes the bytes to the registers from the first on, one after the other, and answers the zones as they are then.
// Stays: `file` and `zones` apart, here and in `change_of`, as a chip holds them: a struct of both would be made and taken apart at each call.
#[tactic(auto, using(crate::specs::Blocks::wrote_more, crate::specs::Blocks::wrote_done))]
pub fn write_block(
    file: &mut [u8; 256],
    zones: [Reading; 6],
    first: u8,
    bytes: &[u8],
) -> [Reading; 6]
    ensures { (result ≡ (wrote_from (of_zones file.old zones) first 0 bytes.now).zones) × (file.new ≡ (wrote_from (of_zones file.old zones) first 0 bytes.now).registers) }
{
    let mut left = zones;
    for (k, byte) in bytes.iter().enumerate() {
        write_register(file, &mut left, block_place(first, k), *byte);
    }
    left
}
