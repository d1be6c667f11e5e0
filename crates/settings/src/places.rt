// The 59 numbers of a setup, counted from 0: where each group begins, in document 01's order.
pub const LEVEL: usize = 0;

pub const BASES: usize = 1;

pub const OFFSETS12: usize = 5;

pub const OFFSETS34: usize = 17;

pub const HYSTERESES: usize = 29;

pub const DUTIES: usize = 31;

pub const BOOSTS: usize = 44;

pub const BOOST_HYSTERESIS: usize = 50;

pub const BINDINGS: usize = 51;

pub const OVERRIDES: usize = 53;

pub const START_DUTIES: usize = 55;

pub const START_COUNTS: usize = 57;

// How many there are.
pub const NUMBERS: usize = 59;
