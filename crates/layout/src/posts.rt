// Kind 3: what a block's own bytes say of its posts, and their limits.
use crate::outline::Outline;
use amounts::decline::{Decline, check};
use encoding::bytes;

// The bytes of a post.
pub const POST_SIZE: usize = 48;

impl Outline {
    ghost use Rattle.std.specs.Prelude.{◌≡◌};
    ghost use Rattle.amounts.specs.Decline.{checked};
    ghost use Rattle.layout.specs.Posts.{own_checks};

    // Whether a kind 3 block's own bytes are in their turn and within their limits, by the outline and whether the book is closed.
    #[tactic(auto, unfolding(amounts::specs::Decline::checked))]
    pub fn check_posts(self, closed: bool, count: u8, body: &[u8]) -> Result<(), Decline>
        ensures { result ≡ checked (own_checks self closed count body.now) (tt {0}) }
    {
        check(self.may_post(), Decline::OutOfTurn)?;
        check(!closed, Decline::Closed)?;
        check(body.len() == 500, Decline::Layout)?;
        check(bytes::is_within(1, 10, count), Decline::Layout)?;
        check(
            bytes::zero_from(body, usize::from(count) * POST_SIZE),
            Decline::Layout,
        )
    }
}
