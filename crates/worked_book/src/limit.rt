// The 4,000th post, the one after it, and the close past the limit.
use crate::patterns::{BILLION, ONE};
use crate::posts::Entry::{Bought, Close, Found, Opening, Shipped, Vapour};
use crate::posts::{BOUGHT, CLOSE, Field};
use crate::sites::Start;
use crate::steps::Step;
use crate::steps::Step::{On, Post, Reports, Title, Try};

// 6, 7, 8 and 9 come before 10, and 10 before 11. A loss of nothing is a post too. A close with a wrong field or float is none.
pub(crate) const REACHED: [Step; 19] = [
    Title("the limit of posts"),
    On(Start::Filled),
    Reports,
    Post(Opening(1, 2_000_000_000)),
    Reports,
    Post(Bought(1, 1)),
    Post(Bought(2, 1)),
    Try(BOUGHT, Field::U(ONE)),
    Post(Vapour(1, 0, 1, [ONE, 0, 0, 0])),
    Post(Vapour(3, 0, 0, [BILLION, BILLION, 0, 0])),
    Post(Shipped(0, 1, 1, 1)),
    Post(Found(0, 1, 1, 1)),
    Post(Vapour(3, 0, 0, [0, 0, 0, 0])),
    Reports,
    Try(CLOSE, Field::Stage(1)),
    Try(CLOSE, Field::Q(ONE)),
    Post(Close),
    Post(Close),
    Reports,
];
