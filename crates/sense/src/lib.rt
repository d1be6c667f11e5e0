// How readings come in, and the errors they raise (document 01, "Events" and "Errors and ALERT"; document 02, Q-2 and Q-12).
#![tactic(auto)]

ghost use Rattle.std.specs.Prelude.{◌≡◌, ◌+◌, ◌-◌, ◌<◌, ◌≤◌, ◌^◌, ◌==◌, MatchOption};
ghost use Rattle.std.specs.Int.Bits.{bit_and};
ghost use Rattle.laws.specs.Binary.{has_digit};
ghost use Rattle.laws.specs.Count.{count_to};
ghost use Rattle.laws.specs.Pick.{pick};
ghost use Rattle.map.specs.Bits.{is_set};
ghost use Rattle.sense.specs.Errors.{marked, marked_volt, marked_fan, low_limit, high_limit, is_outside, fan_limit, fan_limit_at, fan_file};
ghost use Rattle.sense.specs.Hysteresis.{hysteresis_of, ends_error, erring_on, voltage_file, voltage_erring};
ghost use Rattle.sense.specs.ZoneLimits.{zone_number, low_temp, high_temp, temps_watched, zone_watched, is_beyond, marked_zone, zone_file};
ghost use Rattle.sense.specs.Missing.{volt_watched, fan_watched, missed_volt, missed_fan, missed_zone, missed_file};
ghost use Rattle.sense.specs.Standing.{errors_standing, alert_active};
ghost use Rattle.sense.specs.Events.{zone_three_fed, zone_heard, volt_reading, feeds_three, feeds_four, reset_file};

use map::{bits, registers};
use temperature::Reading;

// A fan limit, or a fan count, that nothing exceeds.
const FAN_TOP: u16 = 0x3FFF;

// The limits of a zone that is not watched.
const LOW_TEMP_UNWATCHED: u8 = 0x80;

const HIGH_TEMP_UNWATCHED: u8 = 0x7F;

// ---- error bits

// The bit of a place below 8.
fn bit_at(place: u8) -> u8
    requires { place < 8 }
    ensures { result ≡ 2 ^ place }
{
    1 << place
}

// An error bit: its register of the BMC group, that of the Host group, and which of their bits are masked.
#[derive(Clone, Copy)]
struct ErrorBit {
    bmc: u8,
    host: u8,
    bit: u8,
    masks: u8,
}

impl ErrorBit {
    // Set in both groups, unless it is masked.
    #[tactic(auto, unfolding(crate::specs::Errors::marked, crate::specs::Errors::with_bit))]
    fn mark(self, file: &mut [u8; 256])
        ensures { file.new ≡ marked (is_set self.masks self.bit) file.old self.bmc self.host self.bit }
    {
        if !map::is_set(self.masks, self.bit) {
            file[self.bmc as usize] |= self.bit;
            file[self.host as usize] |= self.bit;
        }
    }
}

// ---- channels, fans and zones

// One of N voltage channels, fans or zones, counted from 0.
#[derive(Clone, Copy)]
struct Below<const N: u8> {
    at: u8,
    ghost in_range: { at < N },
}

impl<const N: u8> Below<N> {
    fn new(at: u8) -> Option<Self>
        ensures { MatchOption result (N ≤ at) (λ v. v.at ≡ at) }
    {
        if at < N { Some(Below { at }) } else { None }
    }
}

type Channel = Below<16>;

type Fan = Below<4>;

// Zones 1a, 1b, 2a, 2b, 3, 4.
type Zone = Below<6>;

// ---- voltages

// The limits of a voltage, and VH, the voltage hysteresis.
#[derive(Clone, Copy)]
struct VoltLimits {
    low: u8,
    high: u8,
    vh: u8,
}

impl VoltLimits {
    #[tactic(auto, unfolding(crate::specs::Missing::volt_watched))]
    fn are_watched(self) -> bool
        ensures { result ≡ volt_watched self.low self.high }
    {
        self.low != 0x00 || self.high != 0xFF
    }

    #[tactic(auto, unfolding(crate::specs::Errors::is_outside))]
    fn is_outside(self, count: u16) -> bool
        ensures { result ≡ is_outside self.low self.high count }
    {
        count < self.low as u16 || count > self.high as u16
    }

    // By how much VH moves a limit: not at all where it is at its end.
    fn move_of(self, limit: u8, end: u8) -> u32
        ensures { result ≡ pick (limit == end) 0 self.vh }
    {
        if limit == end { 0 } else { self.vh as u32 }
    }

    // Whether a reading ends an error.
    #[tactic(auto, unfolding(crate::specs::Hysteresis::ends_error, crate::specs::Hysteresis::low_move, crate::specs::Hysteresis::high_move))]
    fn ends_error(self, count: u16) -> bool
        ensures { result ≡ ends_error self.low self.high self.vh count }
    {
        self.low as u32 + self.move_of(self.low, 0x00) <= count as u32
            && count as u32 + self.move_of(self.high, 0xFF) <= self.high as u32
    }

    // Whether a channel is in error after a reading.
    #[tactic(auto, unfolding(crate::specs::Hysteresis::erring_on))]
    fn is_erring(self, before: bool, count: u16) -> bool
        ensures { result ≡ erring_on self.low self.high self.vh before count }
    {
        self.is_outside(count) || before && !self.ends_error(count)
    }
}

impl Channel {
    #[tactic(auto, unfolding(crate::specs::Errors::low_limit, crate::specs::Errors::high_limit, crate::specs::Hysteresis::hysteresis_of))]
    fn limits(self, file: &[u8; 256]) -> VoltLimits
        ensures low { result.low ≡ low_limit file.now self.at }
        ensures high { result.high ≡ high_limit file.now self.at }
        ensures vh { result.vh ≡ hysteresis_of file.now }
    {
        let at = registers::AD_IN1_LOW_LIMIT as usize + 2 * self.at as usize;
        VoltLimits {
            low: file[at],
            high: file[at + 1],
            vh: file[registers::SPECIAL_FUNCTION_CONTROL_1 as usize] & bits::VH,
        }
    }

    // Its error bit is set, unless it is masked.
    #[tactic(auto, using(masks::specs::Table::volt_bit), unfolding(crate::specs::Errors::marked_volt))]
    fn mark(self, file: &mut [u8; 256])
        ensures { file.new ≡ marked_volt file.old self.at }
    {
        let group = self.at / 8;
        let error = ErrorBit {
            bmc: registers::B_ERROR_STATUS_2 + group,
            host: registers::H_ERROR_STATUS_2 + group,
            bit: bit_at(self.at % 8),
            masks: masks::volt_masks(file, group),
        };
        error.mark(file);
    }

    // A voltage that is watched and missing sets its bit.
    // Stays: `mark` and `miss` stand three times, for each is masked and watched by other registers; one trait of all three is no shorter.
    #[tactic(auto, unfolding(crate::specs::Missing::missed_volt))]
    fn miss(self, file: &mut [u8; 256], count: Option<u16>)
        ensures { file.new ≡ missed_volt file.old self.at count }
    {
        if count.is_none() && self.limits(file).are_watched() {
            self.mark(file);
        }
    }
}

// A voltage reading is compared with its limits and VH, and sets its error bit if it leaves its channel in error. Given whether the channel
// was in error before, answers whether it is now. Channels count from 0; there are sixteen.
#[tactic(auto, unfolding(crate::specs::Hysteresis::voltage_file, crate::specs::Hysteresis::voltage_erring, crate::specs::Hysteresis::erred_volt, crate::specs::Hysteresis::erring_after))]
pub fn compare_voltage(file: &mut [u8; 256], channel: u8, before: bool, count: Option<u16>) -> bool
    ensures { (result ≡ voltage_erring file.old channel before count) × (file.new ≡ voltage_file file.old channel before count) }
{
    let (Some(channel), Some(n)) = (Channel::new(channel), count) else {
        return before;
    };
    let erring = channel.limits(file).is_erring(before, n);
    if erring {
        channel.mark(file);
    }
    erring
}

// ---- fans

impl Fan {
    // Six bits in the low byte's top, eight in the high byte.
    #[tactic(auto, unfolding(crate::specs::Errors::fan_limit_at, crate::specs::Errors::fan_limit))]
    fn limit(self, file: &[u8; 256]) -> u16
        ensures { result ≡ fan_limit_at file.now self.at }
    {
        let at = registers::FAN_TACH_1_LIMIT_LSB as usize + 2 * self.at as usize;
        (file[at] / 4) as u16 + file[at + 1] as u16 * 64
    }

    // Its error bit is set, unless it is masked.
    #[tactic(auto, using(masks::specs::Table::fan_bit), unfolding(crate::specs::Errors::marked_fan))]
    fn mark(self, file: &mut [u8; 256])
        ensures { file.new ≡ marked_fan file.old self.at }
    {
        let error = ErrorBit {
            bmc: registers::B_FAN_ERROR_STATUS,
            host: registers::H_FAN_ERROR_STATUS,
            bit: bit_at(self.at),
            masks: masks::fan_masks(file),
        };
        error.mark(file);
    }

    // A fan that is watched and missing sets its bit.
    #[tactic(auto, unfolding(crate::specs::Missing::missed_fan, crate::specs::Missing::fan_watched))]
    fn miss(self, file: &mut [u8; 256], count: Option<u16>)
        ensures { file.new ≡ missed_fan file.old self.at count }
    {
        if count.is_none() && self.limit(file) != FAN_TOP {
            self.mark(file);
        }
    }
}

// A fan count is compared with its limit, and can set its error bit. Fans count from 0; there are four.
#[tactic(auto, unfolding(crate::specs::Errors::fan_file, crate::specs::Errors::compared_fan))]
pub fn compare_count(file: &mut [u8; 256], fan: u8, count: Option<u16>)
    ensures { file.new ≡ fan_file file.old fan count }
{
    let (Some(fan), Some(n)) = (Fan::new(fan), count) else {
        return;
    };
    if fan.limit(file) < n {
        fan.mark(file);
    }
}

// ---- zones

// The limits of a zone, in degrees.
#[derive(Clone, Copy)]
struct ZoneLimits {
    low: u8,
    high: u8,
}

impl ZoneLimits {
    #[tactic(auto, unfolding(crate::specs::ZoneLimits::temps_watched))]
    fn are_watched(self) -> bool
        ensures { result ≡ temps_watched self.low self.high }
    {
        self.low != LOW_TEMP_UNWATCHED || self.high != HIGH_TEMP_UNWATCHED
    }

    // Whether a reading is below the low limit or above the high one.
    #[tactic(auto, unfolding(crate::specs::ZoneLimits::is_beyond))]
    fn is_beyond(self, n: i16) -> bool
        ensures { result ≡ is_beyond self.low self.high n }
    {
        n < temperature::from_degrees(self.low) || n > temperature::from_degrees(self.high)
    }
}

impl Zone {
    // That of zones 1 to 4 whose limits and error bit it has, counted from 0.
    #[tactic(auto, unfolding(crate::specs::ZoneLimits::zone_number))]
    fn number(self) -> u8
        ensures { (result ≡ zone_number self.at) × (result < 4) }
    {
        if self.at < 4 {
            self.at / 2
        } else {
            self.at - 2
        }
    }

    #[tactic(auto, unfolding(crate::specs::ZoneLimits::low_temp, crate::specs::ZoneLimits::high_temp))]
    fn limits(self, file: &[u8; 256]) -> ZoneLimits
        ensures low { result.low ≡ low_temp file.now self.at }
        ensures high { result.high ≡ high_temp file.now self.at }
    {
        let at = registers::ZONE_1_LOW_TEMP as usize + 2 * self.number() as usize;
        ZoneLimits {
            low: file[at],
            high: file[at + 1],
        }
    }

    // By its limits and 31h.
    #[tactic(auto, unfolding(crate::specs::ZoneLimits::zone_watched))]
    fn is_watched(self, file: &[u8; 256]) -> bool
        ensures { result ≡ zone_watched file.now self.at }
    {
        self.limits(file).are_watched()
            && state::zone_enabled(file[registers::TEMPERATURE_SOURCE_SELECT as usize], self.at)
    }

    // Its error bit is set, unless it is masked.
    #[tactic(auto, using(masks::specs::Table::zone_bit), unfolding(crate::specs::ZoneLimits::marked_zone))]
    fn mark(self, file: &mut [u8; 256])
        ensures { file.new ≡ marked_zone file.old self.at }
    {
        let error = ErrorBit {
            bmc: registers::B_ERROR_STATUS_1,
            host: registers::H_ERROR_STATUS_1,
            bit: bit_at(self.number()),
            masks: masks::zone_masks(file),
        };
        error.mark(file);
    }

    // A zone that is watched and missing sets its bit.
    #[tactic(auto, unfolding(crate::specs::Missing::missed_zone))]
    fn miss(self, file: &mut [u8; 256], reading: Reading)
        ensures { file.new ≡ missed_zone file.old self.at reading }
    {
        if reading == Reading::Missing && self.is_watched(file) {
            self.mark(file);
        }
    }
}

// A zone's reading is compared with its limits, and can set its error bit. Zones count from 0; there are six.
#[tactic(auto, unfolding(crate::specs::ZoneLimits::zone_file, crate::specs::ZoneLimits::compared_zone))]
pub fn compare_zone(file: &mut [u8; 256], zone: u8, reading: Reading)
    ensures { file.new ≡ zone_file file.old zone reading }
{
    let (Some(zone), Reading::Taken(n)) = (Zone::new(zone), reading) else {
        return;
    };
    if zone.is_watched(file) && zone.limits(file).is_beyond(n) {
        zone.mark(file);
    }
}

// ---- a tick

// At a tick every watched reading that is still missing sets its bit.
#[tactic(auto, unfolding(crate::specs::Missing::missed_volts, crate::specs::Missing::missed_fans, crate::specs::Missing::missed_zones, crate::specs::Missing::missed_file))]
pub fn mark_missing(
    file: &mut [u8; 256],
    zones: &[Reading; 6],
    volts: &[Option<u16>; 16],
    fans: &[Option<u16>; 4],
)
    ensures { file.new ≡ missed_file file.old zones.now volts.now fans.now }
{
    // Stays: three loops by index, for `Channel`, `Fan` and `Zone` are made of it, and the readings are of two types.
    for i in 0..16 {
        Channel { at: i }.miss(file, volts[i as usize]);
    }
    for i in 0..4 {
        Fan { at: i }.miss(file, fans[i as usize]);
    }
    for i in 0..6 {
        Zone { at: i }.miss(file, zones[i as usize]);
    }
}

// ---- errors standing, and ALERT

// How many ones stand in two bytes and the low halves of two more.
fn ones_in(first: u8, second: u8, fans: u8, zones: u8) -> u32
    ensures { result ≡ count_to (has_digit first) 8 + count_to (has_digit second) 8 + count_to (has_digit fans) 4 + count_to (has_digit zones) 4 }
{
    let halves = zones % 16 * 16 + fans % 16;
    u32::from_le_bytes([first, second, halves, 0]).count_ones()
}

// What is left of a byte without the bits that are masked.
fn unmasked(byte: u8, masks: u8) -> u8
    ensures { result ≡ bit_and byte (255 - masks) }
{
    byte & !masks
}

// The number of zone, voltage and fan errors that stand in the BMC group and are not masked, 0 to 24.
#[tactic(auto, using(crate::specs::Ones::errors_are))]
pub fn errors_standing(file: &[u8; 256]) -> u32
    ensures { result ≡ errors_standing file.now }
{
    let first = unmasked(
        file[registers::B_ERROR_STATUS_2 as usize],
        masks::volt_masks(file, 0),
    );
    let second = unmasked(
        file[registers::B_ERROR_STATUS_3 as usize],
        masks::volt_masks(file, 1),
    );
    let fans = unmasked(
        file[registers::B_FAN_ERROR_STATUS as usize],
        masks::fan_masks(file),
    );
    let zones = unmasked(
        file[registers::B_ERROR_STATUS_1 as usize],
        masks::zone_masks(file),
    );
    ones_in(first, second, fans, zones)
}

// Whether ALERT is active.
#[tactic(auto, unfolding(crate::specs::Standing::alert_active))]
pub fn alert_active(file: &[u8; 256]) -> bool
    ensures { result ≡ alert_active file.now }
{
    !map::is_set(file[registers::CONFIGURATION as usize], bits::GMSK) && 0 < errors_standing(file)
}

// ---- events

// Whether zone 3 takes its reading from elsewhere than T, by 31h.
#[tactic(auto, unfolding(crate::specs::Events::zone_three_fed))]
fn zone_three_fed(source: u8) -> bool
    ensures { result ≡ zone_three_fed source }
{
    map::is_set(source, bits::INT_AD11) || map::is_set(source, bits::INT_WR_E)
}

// T and U: whether they set their zone, by 31h. Zones count from 0 in the order 1a, 1b, 2a, 2b, 3; the sixth has neither.
#[tactic(auto, unfolding(crate::specs::Events::zone_heard))]
pub fn hears_zone(source: u8, zone: u8) -> bool
    ensures { result ≡ zone_heard source zone }
{
    zone < 4 || zone == 4 && !zone_three_fed(source)
}

// V: the temperature that a voltage count stands for.
#[tactic(auto, unfolding(crate::specs::Events::volt_reading))]
pub fn volt_reading(count: Option<u16>) -> Reading
    ensures { result ≡ volt_reading count }
{
    count.map_or(
        Reading::Missing,
        |n| temperature::from_count((n % 256) as u8),
    )
}

// V: whether a channel also sets zone 3, by 31h. Channels count from 0.
#[tactic(auto, unfolding(crate::specs::Events::feeds_three))]
pub fn feeds_three(source: u8, channel: u8) -> bool
    ensures { result ≡ feeds_three source channel }
{
    channel == 10 && !map::is_set(source, bits::INT_WR_E) && map::is_set(source, bits::INT_AD11)
}

// V: whether a channel also sets zone 4, by 31h. Channels count from 0.
#[tactic(auto, unfolding(crate::specs::Events::feeds_four))]
pub fn feeds_four(source: u8, channel: u8) -> bool
    ensures { result ≡ feeds_four source channel }
{
    channel == 14 && map::is_set(source, bits::EXT_AD15)
}

// X: the reset pin. It clears LOCK, sets GMSK and the sleep state S4/S5, and nothing else.
#[tactic(auto, unfolding(crate::specs::Events::reset_file))]
pub fn take_reset(file: &mut [u8; 256])
    ensures { file.new ≡ reset_file file.old }
{
    let configuration = file[registers::CONFIGURATION as usize];
    file[registers::CONFIGURATION as usize] = configuration & !bits::LOCK | bits::GMSK;
    file[registers::SLEEP_STATE_CONTROL as usize] |= bits::S4_5;
}
