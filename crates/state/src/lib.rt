// The chip's state: what a setup holds, what the chip holds, and the chip at power-on.
#![tactic(auto)]

ghost use Rattle.std.specs.Prelude.{◌≡◌, get_or, set};
ghost use Rattle.state.specs.Parts.{zone_enabled};
ghost use Rattle.map.specs.Tables.{defaults};
ghost use Rattle.state.specs.PowerOn.{default_setup, power_on, at_rest};
ghost use Rattle.state.specs.Most.{DUTY_MOST};
ghost use Rattle.state.specs.Refusal.{number_of};
ghost use Rattle.state.specs.Valid.{degrees_in, boost_in, override_in, bases_in, numbers_in, never_fall, boosts_in, overrides_in, tables_in, fans_in, setup_in};
ghost use Rattle.state.specs.Powered.{powered, powered_on};

use map::bits;
use temperature::Reading;

pub mod most;

// The refusals of an event, a line and a setup, each with its number in document 01.
#[derive(Clone, Copy, PartialEq, Eq)]
pub enum Refusal {
    // A setup number out of range, or duties that fall.
    Setup,
    // An event number out of range.
    Event,
    // S after any taken line.
    Late,
    // A wrong letter, field count or spelling, too long a line, or too many bytes beside an event.
    Spelling,
    // Too little room for the answer.
    Room,
}

impl From<Refusal> for u8 {
    #[tactic(auto, unfolding(crate::specs::Refusal::number_of))]
    fn from(refusal: Refusal) -> u8
        ensures { result ≡ number_of refusal }
    {
        match refusal {
            Refusal::Setup => 1,
            Refusal::Event => 2,
            Refusal::Late => 3,
            Refusal::Spelling => 4,
            Refusal::Room => 5,
        }
    }
}

// The 59 numbers of a setup, in document 01's order.
// Stays: a list for each group of numbers, not a struct for each fan, for `setup_by` and `default_setup` have the groups of document 01.
#[derive(Clone, Copy)]
pub struct Setup {
    pub level: u8,
    // In degrees.
    pub bases: [i8; 4],
    // In degrees, or half degrees if LT12_RS or LT34_RS is set: tables 1 and 2 share theirs, so do 3 and 4.
    pub offsets12: [u8; 12],
    pub offsets34: [u8; 12],
    pub hystereses: [u8; 2],
    pub duties: [u16; 13],
    // In degrees, or none, in zone order 1a, 1b, 2a, 2b, 3, 4.
    pub boosts: [Option<i8>; 6],
    pub boost_hysteresis: u8,
    // Bits 0 to 3 tables, 4 to 7 hot inputs.
    pub bindings: [u8; 2],
    pub overrides: [Option<u16>; 2],
    pub start_duties: [u16; 2],
    pub start_counts: [u8; 2],
}

// The address pin, and the slave address that its level has been taken for, once it has.
#[derive(Clone, Copy)]
pub struct Pin {
    pub level: u8,
    pub latch: Option<u8>,
}

// A hot input's ramp.
#[derive(Clone, Copy)]
pub struct Ramp {
    pub level: u16,
    pub wait: u8,
}

// What only a tick changes.
#[derive(Clone, Copy)]
pub struct Drive {
    pub steps: [u8; 4],
    pub boosts: [bool; 6],
    pub ramps: [Ramp; 4],
    pub duties: [u16; 2],
    pub starts: [u8; 2],
}

// Stays: `erring` beside `volts`, and what each fan has in lists, for so `in_error`, `volt_at`, `power_on` and `Cooler` read them.
#[derive(Clone, Copy)]
pub struct Chip {
    pub setup: Setup,
    pub registers: [u8; 256],
    // In zone order 1a, 1b, 2a, 2b, 3, 4.
    pub zones: [Reading; 6],
    // Voltage counts, missing or taken.
    pub volts: [Option<u16>; 16],
    // Whether each voltage channel is in error.
    pub erring: [bool; 16],
    // Fan counts, missing or taken.
    pub fans: [Option<u16>; 4],
    // Of each fan count, the high byte that a read of its low byte kept, or none.
    pub kept: [Option<u8>; 4],
    // VRD1, VRD2, PROCHOT1, PROCHOT2.
    pub hot: [bool; 4],
    pub pin: Pin,
    pub drive: Drive,
}

// The chip, and the refusal of its setup or none.
#[derive(Clone, Copy)]
pub struct Powered {
    pub chip: Chip,
    pub refusal: Option<Refusal>,
}

// The setup without a setup.
#[tactic(auto, unfolding(crate::specs::PowerOn::default_setup))]
pub fn default_setup() -> Setup
    ensures { result ≡ default_setup }
{
    Setup {
        level: 0,
        bases: [30; 4],
        offsets12: [2; 12],
        offsets34: [2; 12],
        hystereses: [2; 2],
        duties: [0, 64, 80, 96, 112, 128, 144, 160, 176, 192, 208, 224, 240],
        boosts: [None; 6],
        boost_hysteresis: 3,
        bindings: [17, 4],
        overrides: [None; 2],
        start_duties: [128; 2],
        start_counts: [2; 2],
    }
}

// The register file at power-on.
// Stays: document 01 has it built of zeros and then filled from the map's defaults.
fn default_registers() -> [u8; 256]
    ensures { result ≡ defaults }
{
    let mut registers = [0; 256];
    for address in 0..=255u8 {
        registers[address as usize] = map::default_of(address);
    }
    registers
}

// The part that only a tick changes, before the first.
#[tactic(auto, unfolding(crate::specs::PowerOn::at_rest))]
fn at_rest() -> Drive
    ensures { result ≡ at_rest }
{
    Drive {
        steps: [0; 4],
        boosts: [false; 6],
        ramps: [Ramp { level: 0, wait: 0 }; 4],
        duties: [0; 2],
        starts: [0; 2],
    }
}

// ---- the setups that are taken

// No i8 is above 127.
#[tactic(auto, unfolding(crate::specs::Valid::degrees_in))]
fn degrees_in(degrees: i8) -> bool
    ensures { result ≡ degrees_in degrees }
{
    -most::DEGREES <= degrees
}

#[tactic(auto, unfolding(crate::specs::Valid::boost_in))]
fn boost_in(boost: Option<i8>) -> bool
    ensures { result ≡ boost_in boost }
{
    boost.is_none_or(|degrees| degrees_in(degrees))
}

#[tactic(auto, unfolding(crate::specs::Valid::override_in))]
fn override_in(duty: Option<u16>) -> bool
    ensures { result ≡ override_in duty }
{
    duty.is_none_or(|d| d <= most::DUTY)
}

// Stays: a line for each of five lists, of bytes, duties, bases, boosts and overrides: what a bound of all would have to promise is longer.
#[tactic(auto, using(laws::specs::Passing::every_is), unfolding(crate::specs::Valid::numbers_in, laws::specs::AllPass::all_pass))]
fn bytes_in(most: u8, numbers: &[u8]) -> bool
    ensures { result ≡ numbers_in most numbers.now }
{
    numbers.iter().all(|n| *n <= most)
}

#[tactic(auto, using(laws::specs::Passing::every_is), unfolding(crate::specs::Valid::numbers_in, laws::specs::AllPass::all_pass))]
fn duties_in(duties: &[u16]) -> bool
    ensures { result ≡ numbers_in DUTY_MOST duties.now }
{
    duties.iter().all(|duty| *duty <= most::DUTY)
}

#[tactic(auto, using(laws::specs::Passing::every_is), unfolding(crate::specs::Valid::never_fall))]
fn never_fall(duties: &[u16; 13]) -> bool
    ensures { result ≡ never_fall duties.now }
{
    duties.windows(2).all(|w| w[0] <= w[1])
}

#[tactic(auto, using(laws::specs::Passing::every_is), unfolding(crate::specs::Valid::bases_in, laws::specs::AllPass::all_pass))]
fn bases_in(bases: &[i8; 4]) -> bool
    ensures { result ≡ bases_in bases.now }
{
    bases.iter().all(|base| degrees_in(*base))
}

#[tactic(auto, using(laws::specs::Passing::every_is), unfolding(crate::specs::Valid::boosts_in, laws::specs::AllPass::all_pass))]
fn boosts_in(boosts: &[Option<i8>; 6]) -> bool
    ensures { result ≡ boosts_in boosts.now }
{
    boosts.iter().all(|boost| boost_in(*boost))
}

#[tactic(auto, using(laws::specs::Passing::every_is), unfolding(crate::specs::Valid::overrides_in, laws::specs::AllPass::all_pass))]
fn overrides_in(overrides: &[Option<u16>; 2]) -> bool
    ensures { result ≡ overrides_in overrides.now }
{
    overrides.iter().all(|duty| override_in(*duty))
}

#[tactic(auto, unfolding(crate::specs::Valid::tables_in))]
fn tables_in(setup: &Setup) -> bool
    ensures { result ≡ tables_in setup.now }
{
    bases_in(&setup.bases)
        && bytes_in(most::OFFSET, &setup.offsets12)
        && bytes_in(most::OFFSET, &setup.offsets34)
        && bytes_in(most::HYSTERESIS, &setup.hystereses)
}

#[tactic(auto, unfolding(crate::specs::Valid::fans_in))]
fn fans_in(setup: &Setup) -> bool
    ensures { result ≡ fans_in setup.now }
{
    duties_in(&setup.duties)
        && never_fall(&setup.duties)
        && overrides_in(&setup.overrides)
        && duties_in(&setup.start_duties)
}

// Whether each number is in its range and the duties never fall. Bindings and start counts are any bytes.
#[tactic(auto, unfolding(crate::specs::Valid::setup_in))]
fn setup_in(setup: &Setup) -> bool
    ensures { result ≡ setup_in setup.now }
{
    setup.level <= most::LEVEL
        && setup.boost_hysteresis <= most::HYSTERESIS
        && boosts_in(&setup.boosts)
        && tables_in(setup)
        && fans_in(setup)
}

// ---- power-on

// The chip at power-on.
#[tactic(auto, unfolding(crate::specs::PowerOn::power_on))]
fn new_chip(setup: Setup) -> Chip
    ensures { result ≡ power_on setup }
{
    Chip {
        setup,
        registers: default_registers(),
        zones: [Reading::Missing; 6],
        volts: [None; 16],
        erring: [false; 16],
        fans: [None; 4],
        kept: [None; 4],
        hot: [false; 4],
        pin: Pin {
            level: setup.level,
            latch: None,
        },
        drive: at_rest(),
    }
}

// A chip powered on anew; a setup that is refused leaves it as it was.
#[tactic(auto, unfolding(crate::specs::Powered::powered))]
pub fn power_again(chip: Chip, setup: Setup) -> Powered
    ensures { result ≡ powered chip setup }
{
    if setup_in(&setup) {
        return Powered {
            chip: new_chip(setup),
            refusal: None,
        };
    }
    Powered {
        chip,
        refusal: Some(Refusal::Setup),
    }
}

// A first chip; where its setup is refused, the one without a setup.
#[tactic(auto, unfolding(crate::specs::Powered::powered_on))]
pub fn power_on(setup: Setup) -> Powered
    ensures { result ≡ powered_on setup }
{
    power_again(new_chip(default_setup()), setup)
}

// ---- readings and kept bytes; zones, channels and fans count from 0

// Of the readings of zones, channels or fans, their kept bytes, or duties, that of one; none where there is no such one.
pub fn at<T: Copy>(parts: &[T], k: u8, none: T) -> T
    ensures { result ≡ get_or parts.now k none }
{
    parts.get(usize::from(k)).copied().unwrap_or(none)
}

// The same with that of one replaced; unchanged where there is no such one.
pub fn with<T: Copy, const N: usize>(parts: [T; N], k: u8, part: T) -> [T; N]
    ensures { result ≡ set parts k part }
{
    let i = usize::from(k);
    let mut next = parts;
    if i < N {
        next[i] = part;
    }
    next
}

// Whether a zone is enabled, by 31h: 1b and 2b can be disabled.
#[tactic(auto, unfolding(crate::specs::Parts::zone_enabled))]
pub fn zone_enabled(source: u8, zone: u8) -> bool
    ensures { result ≡ zone_enabled source zone }
{
    match zone {
        1 => map::is_set(source, bits::Z1BE),
        3 => map::is_set(source, bits::Z2BE),
        _ => true,
    }
}
