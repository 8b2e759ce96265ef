// What a good body of a set-up block is changed to, and how the line says it.
use crate::blocks::{Body, Part, Side};
use crate::{blocks, line};
use std::io::Stdout;

#[derive(Clone, Copy)]
pub(crate) enum Change {
    // A place and its byte.
    Byte(u16, u8),
    // The numbers of both substances.
    Numbers(u16, u16),
    // The contents of the second material.
    Contents(u32, u32),
    // The rates of the second substance.
    Rates([u32; 4]),
}

impl Change {
    pub(crate) fn show(self, out: Stdout) {
        match self {
            Change::Byte(at, byte) => line::begin(out, "byte", &[u64::from(at), u64::from(byte)]),
            Change::Numbers(a, b) => line::begin(out, "numbers", &[u64::from(a), u64::from(b)]),
            Change::Contents(a, b) => line::begin(out, "contents", &[u64::from(a), u64::from(b)]),
            Change::Rates(rates) => line::begin(out, "rates", &rates.map(u64::from)),
        }
        line::word(out, " ");
    }

    pub(crate) fn write(self, body: &mut Body) {
        match self {
            Change::Byte(at, byte) => blocks::write(body, &[Part::Byte(at, byte)]),
            Change::Numbers(first, second) => blocks::write(
                body,
                &[Part::Substance(0, first, 1), Part::Substance(1, second, 2)],
            ),
            Change::Contents(first, second) => blocks::write(
                body,
                &[Part::Content(1, 0, first), Part::Content(1, 1, second)],
            ),
            Change::Rates(rates) => {
                blocks::write(body, &[Part::Treated(1, Side::WasteWater, rates)])
            }
        }
    }
}
