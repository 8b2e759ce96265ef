// Decline 7: floats that are not finite, or outside the ranges of their kind and form.
use crate::patterns::{
    ABOVE_BILLION, ABOVE_ONE, BELOW_ONE, BELOW_ZERO, INFINITY, LEAST, MINUS_ZERO, NAN, ONE,
};
use crate::posts::Entry::Vapour;
use crate::posts::{CLOSE, FOUND, Field, OPENING, VAPOUR, WATER};
use crate::sites::Start;
use crate::steps::Step;
use crate::steps::Step::{On, Post, Reports, Title, Try, TryKinds};

// A float that the kind does not use is zero, of either sign.
pub(crate) const UNUSED: [Step; 18] = [
    Title("unused floats"),
    On(Start::Standing),
    Reports,
    TryKinds(OPENING, WATER, Field::W(LEAST)),
    TryKinds(CLOSE, FOUND, Field::W(LEAST)),
    TryKinds(OPENING, WATER, Field::U(BELOW_ZERO)),
    TryKinds(CLOSE, FOUND, Field::U(BELOW_ZERO)),
    TryKinds(OPENING, WATER, Field::P(NAN)),
    TryKinds(CLOSE, FOUND, Field::P(NAN)),
    TryKinds(OPENING, WATER, Field::Q(INFINITY)),
    TryKinds(CLOSE, FOUND, Field::Q(INFINITY)),
    Reports,
    Title("minus zeros"),
    TryKinds(OPENING, WATER, Field::W(MINUS_ZERO)),
    TryKinds(OPENING, VAPOUR, Field::Q(MINUS_ZERO)),
    Try(FOUND, Field::U(MINUS_ZERO)),
    Try(CLOSE, Field::P(MINUS_ZERO)),
    Reports,
];

pub(crate) const FIRST_FORM: [Step; 14] = [
    Title("form 1"),
    On(Start::Standing),
    Reports,
    Post(Vapour(1, 0, 0, [BELOW_ONE, ONE, ONE, 0])),
    Post(Vapour(1, 0, 0, [0x408f400000000001, ONE, ONE, 0])),
    Post(Vapour(1, 0, 0, [ONE, BELOW_ZERO, ONE, 0])),
    Post(Vapour(1, 0, 0, [ONE, 0x4059000000000001, ONE, 0])),
    Post(Vapour(1, 0, 0, [ONE, ONE, ABOVE_BILLION, 0])),
    Post(Vapour(1, 0, 0, [ONE, ONE, ONE, LEAST])),
    Post(Vapour(1, 0, 0, [NAN, ONE, ONE, 0])),
    Post(Vapour(1, 0, 0, [ONE, ONE, ONE, NAN])),
    Reports,
    Post(Vapour(1, 0, 0, [ONE, ONE, ONE, MINUS_ZERO])),
    Reports,
];

pub(crate) const OTHER_FORMS: [Step; 17] = [
    Title("forms 2 and 3"),
    On(Start::Standing),
    Reports,
    Post(Vapour(2, 0, 0, [ABOVE_BILLION, ONE, ONE, ONE])),
    Post(Vapour(2, 0, 0, [ONE, BELOW_ZERO, ONE, ONE])),
    Post(Vapour(2, 0, 0, [ONE, ONE, BELOW_ONE, ONE])),
    Post(Vapour(2, 0, 0, [ONE, ONE, MINUS_ZERO, ONE])),
    Post(Vapour(2, 0, 0, [ONE, ONE, ONE, ABOVE_ONE])),
    Post(Vapour(2, 0, 0, [ONE, INFINITY, ONE, ONE])),
    Post(Vapour(3, 0, 0, [ABOVE_BILLION, 0, 0, 0])),
    Post(Vapour(3, 0, 0, [0, BELOW_ZERO, 0, 0])),
    Post(Vapour(3, 0, 0, [0, 0, NAN, 0])),
    Post(Vapour(3, 0, 0, [0, 0, 0, INFINITY])),
    Reports,
    // A quarter escapes of what 0.015625 m³ hold; 0.1 kg and 10^-9 kg.
    Post(Vapour(2, 0, 0, [0x3f90000000000000, ONE, ONE, 0x3fd0000000000000])),
    Post(Vapour(3, 0, 0, [ONE, 0x3fb999999999999a, 0x3e112e0be826d695, ONE])),
    Reports,
];
