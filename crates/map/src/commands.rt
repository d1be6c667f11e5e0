// The fixed block commands, by the names of source document 000.
pub const FIXED_BLOCK_0: u8 = 0xF2;

pub const FIXED_BLOCK_1: u8 = 0xF3;

pub const FIXED_BLOCK_2: u8 = 0xF4;

pub const FIXED_BLOCK_3: u8 = 0xF5;

pub const FIXED_BLOCK_4: u8 = 0xF6;

pub const FIXED_BLOCK_5: u8 = 0xF7;

pub const FIXED_BLOCK_6: u8 = 0xF8;

pub const FIXED_BLOCK_7: u8 = 0xF9;

pub const FIXED_BLOCK_8: u8 = 0xFA;

pub const FIXED_BLOCK_9: u8 = 0xFB;

pub const FIXED_BLOCK_10: u8 = 0xFC;

pub const FIXED_BLOCK_11: u8 = 0xFD;
