// The register map of the LM94: what stands at each of its 256 addresses, and the fixed blocks.
#![tactic(auto)]

ghost use Rattle.std.specs.Prelude.{◌≡◌, ◌/◌, ◌%◌, MatchBool, nat_eq};
ghost use Rattle.map.specs.Map.{default_of, writable_of, lock_marked, home_of};
ghost use Rattle.map.specs.Bits.{is_set};
ghost use Rattle.map.specs.Kind.{kind_of};
ghost use Rattle.map.specs.Slave.{slave_address};
ghost use Rattle.map.specs.Blocks.{block_of};

pub mod bits;
pub mod commands;
pub mod registers;
mod tables;

// What kind of register stands at an address. Zones count from 0 in the order 1a, 1b, 2a, 2b, 3, 4; channels and fans count from 0.
#[derive(Clone, Copy, PartialEq, Eq)]
pub enum Kind {
    // Stored as it is written.
    Plain,
    // Error status: a written 1 clears.
    Status,
    // A zone's whole degrees, and its half bit.
    Whole(u8),
    Half(u8),
    // A voltage reading.
    Volt(u8),
    // A fan count's low six bits, and its high eight.
    FanLow(u8),
    FanHigh(u8),
    // A voltage's limits.
    VoltLow(u8),
    VoltHigh(u8),
    // A fan limit's low six bits, and its high eight.
    FanLimitLow(u8),
    FanLimitHigh(u8),
}

// A fixed block, by its first register and how many it has.
#[derive(Clone, Copy, PartialEq, Eq)]
pub struct Block {
    pub first: u8,
    pub count: u8,
}

// Stays: `default_of`, `writable_of` and `home_of` are a line each; one function for all three would be asked for a table, and no shorter.
// What a register holds at power-on.
#[tactic(auto, unfolding(crate::specs::Map::default_of, crate::specs::Tables::defaults))]
pub fn default_of(address: u8) -> u8
    ensures { result ≡ default_of address }
{
    tables::DEFAULTS[address as usize]
}

// The bits that a bus write can change; of an error status register, those that a written 1 clears.
#[tactic(auto, unfolding(crate::specs::Map::writable_of, crate::specs::Tables::writables))]
pub fn writable_of(address: u8) -> u8
    ensures { result ≡ writable_of address }
{
    tables::WRITABLE[address as usize]
}

// Whether LOCK keeps the register from bus writes.
#[tactic(auto, unfolding(crate::specs::Map::lock_marked, crate::specs::Tables::lock_marks))]
pub fn lock_marked(address: u8) -> bool
    ensures { result ≡ lock_marked address }
{
    tables::LOCK_MARKS[address as usize] == 1
}

// The register that stands at an address: of a mirror the one it mirrors, else the address itself.
#[tactic(auto, unfolding(crate::specs::Map::home_of, crate::specs::Tables::homes))]
pub fn home_of(address: u8) -> u8
    ensures { result ≡ home_of address }
{
    tables::HOMES[address as usize]
}

// Whether a bit stands in a register's byte.
#[tactic(auto, unfolding(crate::specs::Bits::is_set))]
pub fn is_set(byte: u8, bit: u8) -> bool
    ensures { result ≡ is_set byte bit }
{
    byte & bit == bit
}

// Of two registers side by side the first has the even address; both are of one zone, channel or fan.
fn even_odd<E: FnOnce(u8) -> Kind, O: FnOnce(u8) -> Kind>(place: u8, even: E, odd: O) -> Kind
    requires even { E.pre even (place / 2) }
    requires odd { O.pre odd (place / 2) }
    ensures { MatchBool (nat_eq (place % 2) 0) (E.post even (place / 2) result) (O.post odd (place / 2) result) }
{
    if place % 2 == 0 {
        even(place / 2)
    } else {
        odd(place / 2)
    }
}

// The kind of the register at an address; a mirror's is that of its home.
#[tactic(auto, unfolding(crate::specs::Kind::kind_of))]
pub fn kind_of(address: u8) -> Kind
    ensures { result ≡ kind_of address }
{
    match address {
        0x06..=0x07 => Kind::Whole((address - 0x06) * 2 + 1),
        0x10..=0x17 => even_odd(address - 0x10, Kind::Half, Kind::Whole),
        0x20..=0x23 => even_odd(address - 0x18, Kind::Half, Kind::Whole),
        0x40..=0x4F => Kind::Status,
        0x50..=0x51 => Kind::Whole((address - 0x50) * 2),
        0x52..=0x53 => Kind::Whole(address - 0x4E),
        0x56..=0x65 => Kind::Volt(address - 0x56),
        0x6E..=0x75 => even_odd(address - 0x6E, Kind::FanLow, Kind::FanHigh),
        0x90..=0xAF => even_odd(address - 0x90, Kind::VoltLow, Kind::VoltHigh),
        0xB4..=0xBB => even_odd(address - 0xB4, Kind::FanLimitLow, Kind::FanLimitHigh),
        _ => Kind::Plain,
    }
}

// The slave address that a level of the address pin means: low, middle, high.
// Stays: document 01 names the match on the pin's level, and gives levels as the numbers 0, 1 and 2.
#[tactic(auto, unfolding(crate::specs::Slave::slave_address))]
pub fn slave_address(level: u8) -> u8
    ensures { result ≡ slave_address level }
{
    match level {
        0 => 0x2C,
        1 => 0x2E,
        _ => 0x2D,
    }
}

// The block that a command names; a command that is not listed names none.
#[tactic(auto, unfolding(crate::specs::Blocks::block_of, crate::specs::Blocks::block_firsts, crate::specs::Blocks::block_counts))]
pub fn block_of(command: u8) -> Option<Block>
    ensures { result ≡ block_of command }
{
    match command {
        commands::FIXED_BLOCK_0..=commands::FIXED_BLOCK_11 => {
            let (first, count) = tables::BLOCKS[(command - commands::FIXED_BLOCK_0) as usize];
            Some(Block { first, count })
        }
        _ => None,
    }
}
