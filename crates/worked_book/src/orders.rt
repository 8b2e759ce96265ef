// Two faults at once: the lower number is the answer.
use crate::patterns::{BILLION, NAN, ONE};
use crate::posts::Entry::{Issued, Shipped, Vapour};
use crate::posts::{FOUND, Field};
use crate::sites::Start;
use crate::steps::Step;
use crate::steps::Step::{On, Post, Reports, Title, Try};

pub(crate) const LAYOUT_FIRST: [Step; 10] = [
    Title("6 before 7, 8, 9 and 11"),
    On(Start::Standing),
    Reports,
    Try(FOUND + 1, Field::W(NAN)),
    Post(Vapour(4, 0, 0, [NAN, ONE, ONE, ONE])),
    Post(Vapour(1, 2, 1, [ONE, ONE, ONE, 0])),
    Post(Vapour(3, 0, 2, [BILLION, BILLION, 0, 0])),
    Post(Shipped(0, 0, 1_000_001, 1_000)),
    Post(Issued(0, 0, 2_000_000_001)),
    Reports,
];

pub(crate) const FLOATS_FIRST: [Step; 10] = [
    Title("7 before 8, 9 and 11, 8 before 9 and 11, 9 before 11"),
    On(Start::Standing),
    Reports,
    Post(Vapour(1, 0, 1, [NAN, ONE, ONE, 0])),
    Post(Vapour(3, 0, 0, [BILLION, BILLION, NAN, 0])),
    Post(Vapour(3, 1, 0, [ONE, ONE, NAN, 0])),
    Post(Vapour(2, 0, 1, [BILLION, BILLION, ONE, ONE])),
    Post(Vapour(1, 1, 1, [ONE, ONE, ONE, 0])),
    Post(Vapour(2, 1, 0, [BILLION, BILLION, ONE, ONE])),
    Reports,
];
