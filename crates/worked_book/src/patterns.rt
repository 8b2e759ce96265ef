// Floats by their bit patterns.

pub(crate) const MINUS_ZERO: u64 = 0x8000000000000000;

// The least float above 0.
pub(crate) const LEAST: u64 = 0x0000000000000001;

pub(crate) const BELOW_ZERO: u64 = 0x8000000000000001;

pub(crate) const HALF: u64 = 0x3fe0000000000000;

pub(crate) const BELOW_ONE: u64 = 0x3fefffffffffffff;

pub(crate) const ONE: u64 = 0x3ff0000000000000;

pub(crate) const ABOVE_ONE: u64 = 0x3ff0000000000001;

pub(crate) const HUNDRED: u64 = 0x4059000000000000;

pub(crate) const BILLION: u64 = 0x41cdcd6500000000;

pub(crate) const ABOVE_BILLION: u64 = 0x41cdcd6500000001;

pub(crate) const INFINITY: u64 = 0x7ff0000000000000;

pub(crate) const NAN: u64 = 0x7ff8000000000000;
