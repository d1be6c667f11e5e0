// The bits and fields that behaviour uses, by their names in source document 000.

// TEMPERATURE_SOURCE_SELECT, 31h
pub const INT_AD11: u8 = 0x01;

pub const EXT_AD15: u8 = 0x02;

pub const Z1BE: u8 = 0x04;

pub const Z2BE: u8 = 0x08;

pub const INT_WR_E: u8 = 0x10;

// FAN_CONTROL_BINDINGS, 35h
pub const LUT1_Z1: u8 = 0x10;

pub const LUT2_Z2: u8 = 0x20;

pub const LUT3_Z1: u8 = 0x40;

pub const LUT4_Z2: u8 = 0x80;

// SPECIAL_FUNCTION_CONTROL_1, BCh: the voltage hysteresis, in counts
pub const VH: u8 = 0x07;

// SPECIAL_FUNCTION_CONTROL_2, BDh
pub const LT12_RS: u8 = 0x10;

pub const LT34_RS: u8 = 0x20;

// CONFIGURATION, E3h
pub const LOCK: u8 = 0x02;

pub const GMSK: u8 = 0x04;

// SLEEP_STATE_CONTROL, E4h: the field of the sleep state, and the states
pub const SB: u8 = 0x03;

pub const S0: u8 = 0x00;

pub const S1: u8 = 0x01;

pub const S3: u8 = 0x02;

pub const S4_5: u8 = 0x03;

// S3_TEMPERATURE_VOLTAGE_MASK, E9h, and S4_5_TEMPERATURE_VOLTAGE_MASK, EBh: zones 1 and 2
pub const TEMP_MSK: u8 = 0x08;

// The half bit of an extended-resolution register, 10h to 16h, 20h and 22h
pub const HALF: u8 = 0x80;
