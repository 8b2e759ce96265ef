// Decline 6, floats aside: a post's length, kind, unused fields, indices and limits.
ghost use Rattle.std.specs.Prelude.{◌≤◌};

use crate::posts::{BOUGHT, CLOSE, FORMED, FOUND, Field, ISSUED, OPENING, SHIPPED, VAPOUR, WATER};
use crate::sites::Start;
use crate::steps::Step;
use crate::steps::Step::{Length, On, Reports, Title, Try, TryKinds};

pub(crate) const LENGTHS: [Step; 10] = [
    Title("lengths"),
    On(Start::Standing),
    Reports,
    Length(47),
    Length(49),
    Length(0),
    Length(96),
    Reports,
    Length(48),
    Reports,
];

pub(crate) const KINDS: [Step; 10] = [
    Title("kinds"),
    On(Start::Standing),
    Try(OPENING, Field::Kind(0)),
    Try(CLOSE, Field::Kind(15)),
    Try(OPENING, Field::Kind(255)),
    Reports,
    Try(FOUND, Field::Same),
    Reports,
    TryKinds(OPENING, CLOSE, Field::Same),
    Reports,
];

pub(crate) const UNUSED: [Step; 14] = [
    Title("unused fields"),
    On(Start::Standing),
    TryKinds(FORMED, WATER, Field::Material(1)),
    TryKinds(CLOSE, FOUND, Field::Material(1)),
    TryKinds(OPENING, BOUGHT, Field::Stage(1)),
    Try(CLOSE, Field::Stage(1)),
    TryKinds(OPENING, ISSUED, Field::Substance(1)),
    Try(CLOSE, Field::Substance(1)),
    TryKinds(OPENING, FORMED, Field::Content(1)),
    Try(VAPOUR, Field::Content(1)),
    Try(CLOSE, Field::Content(16_777_216)),
    Try(VAPOUR, Field::Quantity(1)),
    Try(CLOSE, Field::Quantity(72_057_594_037_927_936)),
    Reports,
];

// Two materials, stages and substances: 2 is none of them. Forms are 1 to 3.
pub(crate) const INDICES: [Step; 11] = [
    Title("indices at their count, and forms"),
    On(Start::Standing),
    TryKinds(OPENING, ISSUED, Field::Material(2)),
    Try(OPENING, Field::Material(255)),
    Try(VAPOUR, Field::Material(0)),
    Try(VAPOUR, Field::Material(4)),
    TryKinds(ISSUED, VAPOUR, Field::Stage(2)),
    TryKinds(FORMED, VAPOUR, Field::Substance(2)),
    Try(FOUND, Field::Stage(2)),
    Try(FOUND, Field::Substance(2)),
    Reports,
];

// Contents of 1 to 1,000,000, grams of 1 to 2,000,000,000 and micrograms of 1 to 2 × 10^15.
pub(crate) const LIMITS: [Step; 22] = [
    Title("contents and quantities"),
    On(Start::Standing),
    TryKinds(SHIPPED, WATER, Field::Content(0)),
    TryKinds(SHIPPED, WATER, Field::Content(1_000_001)),
    Try(WATER, Field::Content(4_294_967_295)),
    TryKinds(OPENING, WATER, Field::Quantity(0)),
    TryKinds(OPENING, ISSUED, Field::Quantity(2_000_000_001)),
    TryKinds(SHIPPED, WATER, Field::Quantity(2_000_000_001)),
    Try(BOUGHT, Field::Quantity(4_294_967_297)),
    Try(FORMED, Field::Quantity(2_000_000_000_000_001)),
    Try(FORMED, Field::Quantity(18_446_744_073_709_551_615)),
    Try(FOUND, Field::Content(0)),
    Try(FOUND, Field::Content(1_000_001)),
    Try(FOUND, Field::Quantity(0)),
    Try(FOUND, Field::Quantity(2_000_000_001)),
    Reports,
    Try(SHIPPED, Field::Content(1_000_000)),
    Try(OPENING, Field::Quantity(2_000_000_000)),
    Try(FORMED, Field::Quantity(2_000_000_000_000_000)),
    Try(FOUND, Field::Content(1_000_000)),
    Try(FOUND, Field::Quantity(2_000_000_000)),
    Reports,
];
