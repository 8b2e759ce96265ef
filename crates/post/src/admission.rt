// Whether a post is admitted: declines 4 to 10, for which neither a store nor a holding is looked at.
ghost use Rattle.std.specs.Prelude.{◌≡◌};
ghost use Rattle.post.specs.Admission.{has_room, admitted};

use crate::moves;
use crate::moves::Move;
use amounts::decline::{Decline, check};
use layout::outline::Outline;

impl Move {
    // Behind so many posts.
    fn has_room(self, posts: u32) -> bool
        ensures { result ≡ has_room posts self }
    {
        self.closes() || posts < 4000
    }
}

// The move of a post of any bytes that passes 4 to 10. It takes what it reads of a set-up and a year, which stand above this crate. The turn is asked as of a block
// of posts, since each table has its own rows.
#[tactic(auto, unfolding(amounts::specs::Decline::checked, crate::specs::Admission::admitted))]
pub fn admit(
    o: Outline,
    numbers: &[u16],
    closed: bool,
    posts: u32,
    s: &[u8],
) -> Result<Move, Decline>
    ensures { result ≡ admitted o numbers.now closed posts s.now }
{
    check(o.may_post(), Decline::OutOfTurn)?;
    check(!closed, Decline::Closed)?;
    let m = moves::read_move(o, numbers, s)?;
    check(m.has_room(posts), Decline::Full)?;
    Ok(m)
}
