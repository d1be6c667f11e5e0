// The largest numbers of a setup (document 01, "Setup"; of an offset document 02, Q-6).
pub const LEVEL: u8 = 2;

// In degrees, above and below 0.
pub const DEGREES: i8 = 127;

pub const OFFSET: u8 = 63;

pub const HYSTERESIS: u8 = 15;

pub const DUTY: u16 = 256;

// Of a binding and of a start count: all that a byte holds.
pub const BYTE: u8 = 255;
