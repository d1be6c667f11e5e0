// Which error bits the sleep state masks (document 02, Q-12; source document 000, 6.4.9 and 6.4.14).
#![tactic(auto)]

ghost use Rattle.std.specs.Prelude.{◌≡◌};
ghost use Rattle.masks.specs.Masks.{state_by, sleep_state, zone_masks, volt_masks, fan_masks};
ghost use Rattle.masks.specs.Asleep.{asleep_mask, asleep_volts, asleep_zones};

use map::{bits, registers};

// The sleep states of E4h.
#[derive(Clone, Copy, PartialEq, Eq)]
pub enum SleepState {
    S0,
    S1,
    S3,
    S4S5,
}

// What is masked of channels 9 to 16 in S3 and S4/5, whatever the mask register holds: 9, 10, 11 and 15.
const NINE_TO_SIXTEEN: u8 = 0x47;

// The bits of zones 1 and 2.
const ZONES_ONE_AND_TWO: u8 = 0x03;

// The bits of the four fans.
const ALL_FANS: u8 = 0x0F;

// The sleep state that E4h holds.
impl From<u8> for SleepState {
    ghost from_gives = { λ control state. state ≡ state_by control };

    #[tactic(auto, unfolding(crate::specs::Masks::state_by))]
    fn from(control: u8) -> SleepState {
        match control & bits::SB {
            bits::S0 => SleepState::S0,
            bits::S1 => SleepState::S1,
            bits::S3 => SleepState::S3,
            _ => SleepState::S4S5,
        }
    }
}

#[tactic(auto, unfolding(crate::specs::Masks::sleep_state))]
fn sleep_state(file: &[u8; 256]) -> SleepState
    ensures { result ≡ sleep_state file.now }
{
    SleepState::from(file[registers::SLEEP_STATE_CONTROL as usize])
}

// The mask register of voltages and temperatures, in S3 and in S4/5; no other state has one.
#[tactic(auto, unfolding(crate::specs::Asleep::asleep_mask, crate::specs::Asleep::mask_in))]
fn asleep_mask(file: &[u8; 256]) -> Option<u8>
    ensures { result ≡ asleep_mask file.now }
{
    match sleep_state(file) {
        SleepState::S0 | SleepState::S1 => None,
        SleepState::S3 => Some(file[registers::S3_TEMPERATURE_VOLTAGE_MASK as usize]),
        SleepState::S4S5 => Some(file[registers::S4_5_TEMPERATURE_VOLTAGE_MASK as usize]),
    }
}

// Of a group of eight channels, by that register: its bits 0 to 2 are channels 12, 13 and 14.
#[tactic(auto, unfolding(crate::specs::Asleep::asleep_volts))]
fn asleep_volts(mask: u8, group: u8) -> u8
    ensures { result ≡ asleep_volts mask group }
{
    match group {
        0 => 0xFF,
        1 => NINE_TO_SIXTEEN + mask % 8 * 8,
        _ => 0x00,
    }
}

// The bits of 41h (group 0) or 42h (group 1) that are masked.
// Stays: the group is a number, since it is the place of a register behind 41h.
#[tactic(auto, using(crate::specs::Asleep::volts_by_mask))]
pub fn volt_masks(file: &[u8; 256], group: u8) -> u8
    ensures { result ≡ volt_masks file.now group }
{
    asleep_mask(file).map_or(0x00, |mask| asleep_volts(mask, group))
}

// The bits of 47h that are masked.
#[tactic(auto, using(crate::specs::Asleep::fans_by_state))]
pub fn fan_masks(file: &[u8; 256]) -> u8
    ensures { result ≡ fan_masks file.now }
{
    match sleep_state(file) {
        SleepState::S0 => 0x00,
        SleepState::S1 => file[registers::S1_FAN_MASK as usize] % 16,
        SleepState::S3 => file[registers::S3_FAN_MASK as usize] % 16,
        SleepState::S4S5 => ALL_FANS,
    }
}

// Zones 1 and 2, by the mask register of the state.
#[tactic(auto, unfolding(crate::specs::Asleep::asleep_zones))]
fn asleep_zones(mask: u8) -> u8
    ensures { result ≡ asleep_zones mask }
{
    if map::is_set(mask, bits::TEMP_MSK) {
        ZONES_ONE_AND_TWO
    } else {
        0x00
    }
}

// The bits of 40h that are masked.
#[tactic(auto, using(crate::specs::Asleep::zones_by_mask))]
pub fn zone_masks(file: &[u8; 256]) -> u8
    ensures { result ≡ zone_masks file.now }
{
    asleep_mask(file).map_or(0x00, asleep_zones)
}
