// The events of the chip: each is taken, or refused (document 01, "Events" and "Lines and refusals"; document 02, Q-1, Q-7 and Q-12).
#![tactic(auto)]

ghost use Rattle.std.specs.Prelude.{◌≡◌, ◌-◌, ◌==◌, true, length};
ghost use Rattle.event.specs.Event.{stated_in, count_in, level_in, level_of, temperature_in, voltage_in, fan_in, hot_in, address_in, event_in, refusal_of, tick_answer, taken_step, stepped_chip};
ghost use Rattle.map.specs.Names.{TEMPERATURE_SOURCE_SELECT};
ghost use Rattle.state.specs.Parts.{register_at};
ghost use Rattle.state.specs.Made.{of_readings};
ghost use Rattle.sense.specs.Events.{read_zone, took_temperature, took_voltage, took_fan, took_hot};
ghost use Rattle.sense.specs.Missing.{missed};
ghost use Rattle.drive.specs.Tick.{ticked_chip};
ghost use Rattle.bus.specs.Latch.{transacted};
ghost use Rattle.bus.specs.Write.{wrote_byte};
ghost use Rattle.bus.specs.Read.{of_parts, read_byte};
ghost use Rattle.bus.specs.Block.{block_bytes, read_block, wrote_block};
ghost use Rattle.temperature.specs.Temperature.{stated_reading};
ghost use Rattle.bus.specs.Dump.{dump_answer, dumped_into};

use bus::{ByteRead, Change, Readings};
use map::{Block, registers};
use state::{Chip, Refusal};
use temperature::{HALF, Reading, Stated};

// An event, with the numbers as they came in. The bytes of a block write are lent beside it, and their count is how many are lent.
#[derive(Clone, Copy)]
pub enum Event {
    // T and U: zone 1 to 5, and the temperature in half degrees or in sixteenths.
    Temperature { zone: u8, stated: Stated },
    // V: channel 1 to 16, and its count, or missing.
    Voltage { channel: u8, count: Option<u16> },
    // F: fan 1 to 4, and its count, or missing.
    Fan { fan: u8, count: Option<u16> },
    // H: input 1 to 4, 0 or 1, never missing.
    Hot { input: u8, level: Option<u16> },
    // A: the address pin's level, 0 to 2, never missing.
    Pin { level: Option<u16> },
    // K: 50 ms.
    Tick,
    // X: the reset pin.
    Reset,
    // W and R: bus transactions.
    Write { address: u8, register: u8, byte: u8 },
    Read { address: u8, register: u8 },
    // G and P: block reads and block writes.
    ReadBlock { address: u8, command: u8 },
    WriteBlock { address: u8, command: u8 },
}

// What a tick shows.
#[derive(Clone, Copy, PartialEq, Eq)]
pub struct Tick {
    pub alert: bool,
    pub duty1: u16,
    pub duty2: u16,
    pub output1: u16,
    pub output2: u16,
    pub errors: u32,
}

// What an event answers.
// Stays: a refusal is one of the answers, and no Err, for `refused_step`, `refused_keeps` and `NoneRefused` speak of it so.
#[derive(Clone, Copy, PartialEq, Eq)]
pub enum Answer {
    Nothing,
    Refused(Refusal),
    // Of W: whether it was acknowledged.
    Acknowledged(bool),
    // Of R: the byte, or none where it was not acknowledged.
    Byte(Option<u8>),
    // Of K.
    Ticked(Tick),
    // Of G: the block that the chip shows, or none where it was not acknowledged.
    Block(Option<Block>),
    // Of P: whether it was acknowledged.
    BlockWritten(bool),
}

// The chip after an event, and the event's answer.
#[derive(Clone, Copy)]
pub struct Stepped {
    pub chip: Chip,
    pub answer: Answer,
}

// The longest block.
pub const BLOCK_MOST: usize = 32;

// The ranges of T and of U.
const HALVES_LEAST: i16 = -254;

const HALVES_MOST: i16 = 255;

const SIXTEENTHS_LEAST: i16 = -2032;

const SIXTEENTHS_MOST: i16 = 2040;

// The largest slave address, of seven bits.
const ADDRESS_TOP: u8 = 0x7F;

// ---- ranges

#[tactic(auto, unfolding(crate::specs::Event::stated_in, crate::specs::Event::reading_within))]
fn stated_in(stated: Stated) -> bool
    ensures { result ≡ stated_in stated }
{
    match stated {
        Stated::Missing => true,
        Stated::Halves(h) => (HALVES_LEAST..=HALVES_MOST).contains(&h),
        Stated::Sixteenths(n) => (SIXTEENTHS_LEAST..=SIXTEENTHS_MOST).contains(&n),
    }
}

// A count up to most, or missing.
#[tactic(auto, unfolding(crate::specs::Event::count_in))]
fn count_in(most: u16, count: Option<u16>) -> bool
    ensures { result ≡ count_in most count }
{
    count.is_none_or(|n| n <= most)
}

// A level up to most, never missing.
#[tactic(auto, unfolding(crate::specs::Event::level_in))]
fn level_in(most: u16, level: Option<u16>) -> bool
    ensures { result ≡ level_in most level }
{
    level.is_some_and(|n| n <= most)
}

fn address_in(address: u8) -> bool
    ensures { result ≡ address_in address }
{
    address <= ADDRESS_TOP
}

#[tactic(auto, unfolding(crate::specs::Event::event_in, crate::specs::Event::index_in))]
fn event_in(event: Event) -> bool
    ensures { result ≡ event_in event }
{
    match event {
        Event::Temperature { zone, stated } => (1..=5).contains(&zone) && stated_in(stated),
        Event::Voltage { channel, count } => (1..=16).contains(&channel) && count_in(255, count),
        Event::Fan { fan, count } => (1..=4).contains(&fan) && count_in(16383, count),
        Event::Hot { input, level } => (1..=4).contains(&input) && level_in(1, level),
        Event::Pin { level } => level_in(2, level),
        Event::Tick | Event::Reset => true,
        Event::Write { address, .. }
        | Event::Read { address, .. }
        | Event::ReadBlock { address, .. }
        | Event::WriteBlock { address, .. } => address_in(address),
    }
}

// The refusal of an event that has too many bytes beside it or a number out of range, or none: of any chip, since no range asks for one.
#[tactic(auto, unfolding(crate::specs::Event::refusal_of))]
pub fn refusal_of(event: Event, bytes: &[u8]) -> Option<Refusal>
    ensures { result ≡ refusal_of event bytes.now }
{
    if bytes.len() > BLOCK_MOST {
        Some(Refusal::Spelling)
    } else if event_in(event) {
        None
    } else {
        Some(Refusal::Event)
    }
}

// ---- the events

// The reading that a temperature states; in range, half degrees fit as sixteenths.
#[tactic(auto, using(crate::proofs::Ranges::halves_fit), unfolding(crate::specs::Event::stated_in, temperature::specs::Temperature::stated_reading))]
fn stated_reading(stated: Stated) -> Reading
    requires { stated_in stated ≡ true }
    ensures { result ≡ stated_reading stated }
{
    match stated {
        Stated::Missing => Reading::Missing,
        Stated::Halves(h) => Reading::Taken(h * HALF),
        Stated::Sixteenths(n) => Reading::Taken(n),
    }
}

// A level as a number; 0 where it is missing.
#[tactic(auto, unfolding(crate::specs::Event::level_of))]
fn level_of(level: Option<u16>) -> u8
    ensures { result ≡ level_of level }
{
    (level.unwrap_or(0) % 256) as u8
}

// 31h, which says what sets zones 3 and 4.
#[tactic(auto, unfolding(state::specs::Parts::register_at))]
fn source_of(chip: &Chip) -> u8
    ensures { result ≡ register_at chip.now TEMPERATURE_SOURCE_SELECT }
{
    chip.registers[registers::TEMPERATURE_SOURCE_SELECT as usize]
}

// The parts by which its registers are shown.
fn readings_of(chip: &Chip) -> Readings
    ensures { of_parts result ≡ of_readings chip.now.registers chip.now.zones chip.now.volts chip.now.fans }
{
    Readings {
        file: &chip.registers,
        zones: &chip.zones,
        volts: &chip.volts,
        fans: &chip.fans,
    }
}

// A zone, counted from 0, has a reading, and it is compared.
#[tactic(auto, unfolding(sense::specs::Events::read_zone, state::specs::With::with_zone))]
fn read_zone(chip: &mut Chip, zone: u8, reading: Reading)
    ensures { chip.new ≡ read_zone chip.old zone reading }
{
    chip.zones = state::with(chip.zones, zone, reading);
    sense::compare_zone(&mut chip.registers, zone, reading);
}

#[tactic(auto, unfolding(crate::specs::Event::index_in, sense::specs::Events::took_temperature))]
fn take_temperature(chip: &mut Chip, zone: u8, stated: Stated)
    requires { temperature_in zone stated ≡ true }
    ensures { chip.new ≡ took_temperature chip.old (zone - 1) (stated_reading stated) }
{
    let at = zone - 1;
    if sense::hears_zone(source_of(chip), at) {
        read_zone(chip, at, stated_reading(stated));
    }
}

#[tactic(auto, using(sense::specs::Events::voltage_by_parts), unfolding(crate::specs::Event::index_in, state::specs::Parts::register_at, state::specs::Parts::in_error, state::specs::With::with_volt, state::specs::With::with_in_error, sense::specs::Events::fed_zone))]
fn take_voltage(chip: &mut Chip, channel: u8, count: Option<u16>)
    requires { voltage_in channel count ≡ true }
    ensures { chip.new ≡ took_voltage chip.old (channel - 1) count }
{
    let at = channel - 1;
    let i = at as usize;
    chip.volts[i] = count;
    chip.erring[i] = sense::compare_voltage(&mut chip.registers, at, chip.erring[i], count);
    let source = source_of(chip);
    let reading = sense::volt_reading(count);
    if sense::feeds_three(source, at) {
        read_zone(chip, 4, reading);
    } else if sense::feeds_four(source, at) {
        read_zone(chip, 5, reading);
    }
}

#[tactic(auto, using(sense::specs::Events::fan_by_parts), unfolding(crate::specs::Event::index_in, state::specs::With::with_fan))]
fn take_fan(chip: &mut Chip, fan: u8, count: Option<u16>)
    requires { fan_in fan count ≡ true }
    ensures { chip.new ≡ took_fan chip.old (fan - 1) count }
{
    let at = fan - 1;
    chip.fans[at as usize] = count;
    sense::compare_count(&mut chip.registers, at, count);
}

#[tactic(auto, unfolding(crate::specs::Event::index_in, sense::specs::Events::took_hot, state::specs::With::with_hot_input))]
fn take_hot(chip: &mut Chip, input: u8, level: Option<u16>)
    requires { hot_in input level ≡ true }
    ensures { chip.new ≡ took_hot chip.old (input - 1) (level_of level == 1) }
{
    chip.hot[(input - 1) as usize] = level_of(level) == 1;
}

#[tactic(auto, using(crate::specs::Ticking::tick_by_parts), unfolding(crate::specs::Event::taken_step, crate::specs::Event::tick_answer))]
fn take_tick(chip: &mut Chip) -> Tick
    ensures { tick_answer (ticked_chip (missed chip.old)) ≡ record { chip = chip.new; answer = Answer.Ticked result } }
{
    sense::mark_missing(&mut chip.registers, &chip.zones, &chip.volts, &chip.fans);
    let driven = drive::tick(
        &chip.setup,
        &chip.registers,
        &chip.zones,
        &chip.hot,
        &chip.drive,
    );
    chip.drive = driven.drive;
    Tick {
        alert: sense::alert_active(&chip.registers),
        duty1: driven.drive.duties[0],
        duty2: driven.drive.duties[1],
        output1: driven.outputs[0],
        output2: driven.outputs[1],
        errors: sense::errors_standing(&chip.registers),
    }
}

// The latch of a bus transaction.
#[tactic(auto, unfolding(bus::specs::Latch::transacted))]
fn transact(chip: &mut Chip, address: u8)
    ensures { chip.new ≡ transacted chip.old address }
{
    chip.pin = bus::transact(chip.pin, address);
}

// Whether it is acknowledged.
#[tactic(auto, using(bus::specs::Write::change_by_parts), unfolding(bus::specs::Write::wrote_byte, bus::specs::Write::wrote_register, bus::specs::Write::changed, state::specs::With::with_register))]
fn write(chip: &mut Chip, address: u8, register: u8, byte: u8) -> bool
    ensures { wrote_byte chip.old address register byte ≡ record { chip = chip.new; ack = result } }
{
    transact(chip, address);
    if !bus::answers(chip.pin, address) {
        return false;
    }
    match bus::change_of(&chip.registers, chip.zones, register, byte) {
        Change::Nothing => {}
        Change::Register(home, stored) => chip.registers[home as usize] = stored,
        Change::ZoneReading(zone, reading) => read_zone(chip, zone, reading),
    }
    true
}

// The byte that it shows, or none where it is not acknowledged.
#[tactic(auto, using(bus::specs::Read::read_register_by_parts), unfolding(bus::specs::Read::read_byte, bus::specs::Read::read_register))]
fn read(chip: &mut Chip, address: u8, register: u8) -> Option<u8>
    ensures { read_byte chip.old address register ≡ record { chip = chip.new; shown = result } }
{
    transact(chip, address);
    if !bus::answers(chip.pin, address) {
        return None;
    }
    let ByteRead { byte, kept } = bus::read_register(&readings_of(chip), chip.kept, register);
    chip.kept = kept;
    Some(byte)
}

// The block that it shows, or none where it is not acknowledged.
#[tactic(auto, unfolding(bus::specs::Block::read_block))]
fn read_block(chip: &mut Chip, address: u8, command: u8) -> Option<Block>
    ensures { read_block chip.old address command ≡ record { chip = chip.new; block = result } }
{
    transact(chip, address);
    bus::block_read(chip.pin, address, command)
}

// Whether it is acknowledged.
#[tactic(auto, using(bus::specs::Blocks::wrote_from_by_parts), unfolding(bus::specs::Block::wrote_block, bus::specs::Block::wrote_by))]
fn write_block(chip: &mut Chip, address: u8, command: u8, bytes: &[u8]) -> bool
    ensures { wrote_block chip.old address command bytes.now ≡ record { chip = chip.new; ack = result } }
{
    transact(chip, address);
    match bus::block_written(chip.pin, address, command, bytes) {
        None => false,
        Some(block) => {
            chip.zones = bus::write_block(&mut chip.registers, chip.zones, block.first, bytes);
            true
        }
    }
}

// An event with its numbers in range, and its answer.
#[tactic(auto, unfolding(crate::specs::Event::event_in, crate::specs::Event::quiet_step, crate::specs::Event::written_answer, crate::specs::Event::seen_answer, crate::specs::Event::read_answer, crate::specs::Event::block_answer, crate::specs::Event::seen_block_answer, crate::specs::Event::written_block_answer, crate::specs::Event::taken_step, sense::specs::Events::took_pin, sense::specs::Events::took_reset))]
fn take_in_range(chip: &mut Chip, event: Event, bytes: &[u8]) -> Answer
    requires { event_in event ≡ true }
    ensures { taken_step chip.old event bytes.now ≡ record { chip = chip.new; answer = result } }
{
    match event {
        Event::Temperature { zone, stated } => take_temperature(chip, zone, stated),
        Event::Voltage { channel, count } => take_voltage(chip, channel, count),
        Event::Fan { fan, count } => take_fan(chip, fan, count),
        Event::Hot { input, level } => take_hot(chip, input, level),
        Event::Pin { level } => chip.pin.level = level_of(level),
        Event::Tick => return Answer::Ticked(take_tick(chip)),
        Event::Reset => sense::take_reset(&mut chip.registers),
        Event::Write {
            address,
            register,
            byte,
        } => return Answer::Acknowledged(write(chip, address, register, byte)),
        Event::Read { address, register } => return Answer::Byte(read(chip, address, register)),
        Event::ReadBlock { address, command } => {
            return Answer::Block(read_block(chip, address, command));
        }
        Event::WriteBlock { address, command } => {
            return Answer::BlockWritten(write_block(chip, address, command, bytes));
        }
    }
    Answer::Nothing
}

// One event on a chip that is lent, and its answer. A refused event leaves the chip as it was.
#[tactic(auto, using(crate::specs::Refusal::taken_in, crate::specs::Refusal::step_taken, crate::specs::Refusal::step_refused), unfolding(crate::specs::Event::refused_step))]
pub fn take(chip: &mut Chip, event: Event, bytes: &[u8]) -> Answer
    ensures { (result ≡ (stepped_chip chip.old event bytes.now).answer) × (chip.new ≡ (stepped_chip chip.old event bytes.now).chip) }
{
    match refusal_of(event, bytes) {
        Some(refusal) => Answer::Refused(refusal),
        None => take_in_range(chip, event, bytes),
    }
}

// The same by value: the chip after the event and its answer. The chip is large to hand on, so it is put where it is answered at once.
pub fn step(chip: Chip, event: Event, bytes: &[u8]) -> Stepped
    ensures { result ≡ stepped_chip chip event bytes.now }
{
    let mut stepped = Stepped {
        chip,
        answer: Answer::Nothing,
    };
    stepped.answer = take(&mut stepped.chip, event, bytes);
    stepped
}

// ---- what a chip shows

// The register dump of a chip, into a lent buffer.
#[tactic(auto, using(bus::specs::Dump::dumped_by_parts))]
pub fn dump(chip: Chip, out: &mut [u8]) -> Result<usize, Refusal>
    ensures { (result ≡ dump_answer out.old) × (out.new ≡ dumped_into chip out.old) }
{
    bus::dump(&readings_of(&chip), out)
}

// What the registers of a chip from the first on show, as many as bytes are lent: of a block read that was acknowledged, its bytes.
#[tactic(auto, using(bus::specs::Blocks::block_bytes_by_parts))]
pub fn show_block(chip: Chip, first: u8, bytes: &mut [u8])
    ensures { bytes.new ≡ block_bytes chip first (length bytes.old) }
{
    bus::show_block(&readings_of(&chip), first, bytes);
}
