// Floats by their bit patterns.

pub(crate) const ZERO: u64 = 0x0000000000000000;

pub(crate) const MINUS_ZERO: u64 = 0x8000000000000000;

pub(crate) const ONE: u64 = 0x3ff0000000000000;

pub(crate) const HUNDRED: u64 = 0x4059000000000000;

pub(crate) const BILLION: u64 = 0x41cdcd6500000000;

// The least float above 0, which is subnormal.
pub(crate) const LEAST: u64 = 0x0000000000000001;

pub(crate) const BELOW_ZERO: u64 = 0x8000000000000001;

pub(crate) const BELOW_ONE: u64 = 0x3fefffffffffffff;

pub(crate) const ABOVE_BILLION: u64 = 0x41cdcd6500000001;

pub(crate) const INFINITY: u64 = 0x7ff0000000000000;

pub(crate) const MINUS_INFINITY: u64 = 0xfff0000000000000;

pub(crate) const NAN: u64 = 0x7ff8000000000000;

// A NaN with a payload.
pub(crate) const NAN_1: u64 = 0x7ff8000000000001;

pub(crate) const THREE: u64 = 0x4008000000000000;

pub(crate) const FIVE: u64 = 0x4014000000000000;

pub(crate) const NINE: u64 = 0x4022000000000000;

pub(crate) const EIGHTY_FIVE: u64 = 0x4055400000000000;

pub(crate) const SEVEN_TENTHS: u64 = 0x3fe6666666666666;

pub(crate) const NINE_TENTHS: u64 = 0x3feccccccccccccd;

pub(crate) const ELEVEN_TENTHS: u64 = 0x3ff199999999999a;

// Document 004, example 1, table 1-1-1: 2,000 m³ filled in.
pub(crate) const VOLUME: u64 = 0x409f400000000000;

// The same: 98,100 Pa in the tank.
pub(crate) const TANK: u64 = 0x40f7f34000000000;

// The same, table 1-1-3: toluene's vapour pressure, 3,750 Pa.
pub(crate) const PRESSURE_3750: u64 = 0x40ad4c0000000000;
