// What a post does is one value, a move.
ghost use Rattle.std.specs.Prelude.{◌≡◌, [], ◌∷◌, ◌*◌, ◌^◌, ◌<◌};
ghost use Rattle.amounts.specs.Decline.{check, checked, verdict_of};
ghost use Rattle.amounts.specs.declared.decline.Decline.TheVariants.{OutOfRange};
ghost use Rattle.kinds.specs.Fields.{post_at};
ghost use Rattle.kinds.specs.declared.kind.Measure.TheVariants.{Content};
ghost use Rattle.post.specs.Moves.{floats_of, floats_unused, floats_fit, move_of, laid_out, well_formed, move_at, closes};
ghost use Rattle.post.specs.Steps.{laid_of, amount_read};

use amounts::decline::{Decline, check};
use forms::form::Inputs;
use forms::{form, pattern};
use kinds::account::Account;
use kinds::fields::Post;
use kinds::kind;
use kinds::kind::{Does, Measure};
use layout::outline::Outline;
use layout::posts::POST_SIZE;
use losses::loss;

// Received into a store; issued from a store to a stage's holdings; brought to an account from outside; gone from a holding to an
// account; the close. Grams of a material, micrograms of a substance. What is brought and what is gone have the same fields: one struct for both would be taken apart
// at each match.
#[derive(Clone, Copy)]
pub enum Move {
    Received {
        material: usize,
        grams: u64,
    },
    Issued {
        material: usize,
        stage: usize,
        grams: u64,
    },
    Brought {
        account: Account,
        stage: usize,
        substance: usize,
        amount: u64,
    },
    Gone {
        account: Account,
        stage: usize,
        substance: usize,
        amount: u64,
    },
    Close,
}

// A post in its layout: its fields, how its amount is measured, and what it does.
#[derive(Clone, Copy)]
struct Laid {
    post: Post,
    measure: Measure,
    does: Does,
}

// A post's floats are kept loose, since `kinds` doesn't stand on `forms`; and neither type is of this crate, so that there is no `From`.
fn floats_of(p: Post) -> Inputs<u64>
    ensures { result ≡ floats_of p }
{
    Inputs {
        w: p.w,
        u: p.u,
        p: p.p,
        q: p.q,
    }
}

// Over a `Post`, which is `kinds`'s.
fn has_no_floats(p: Post) -> bool
    ensures { result ≡ floats_unused p }
{
    pattern::is_zero(p.w) && pattern::is_zero(p.u) && pattern::is_zero(p.p) && pattern::is_zero(p.q)
}

// An amount where no float is used.
#[tactic(auto, unfolding(amounts::specs::Decline::checked))]
fn stated(p: Post, n: u64) -> Result<u64, Decline>
    ensures { result ≡ checked (check (floats_unused p) OutOfRange ∷ []) n }
{
    check(has_no_floats(p), Decline::OutOfRange)?;
    Ok(n)
}

impl Laid {
    // Whether each float is in its range, by the measure of the post's kind.
    fn floats_fit(self) -> bool
        ensures { result ≡ floats_fit self.measure self.post }
    {
        match self.measure {
            Measure::Quantity | Measure::Content => has_no_floats(self.post),
            Measure::Loss => form::in_form(self.post.material, floats_of(self.post)),
        }
    }

    // The amount, over the management numbers; a substance that has none there has 0.
    #[tactic(auto, unfolding(crate::specs::Steps::amount_read))]
    fn amount(self, numbers: &[u16]) -> Result<u64, Decline>
        requires { self.measure ≡ Content → self.post.quantity * self.post.content < 2 ^ 64 }
        ensures { result ≡ amount_read self.measure numbers.now self.post }
    {
        let post = self.post;
        match self.measure {
            Measure::Quantity => stated(post, post.quantity),
            Measure::Content => stated(post, post.quantity * u64::from(post.content)),
            Measure::Loss => {
                let number = numbers.get(usize::from(post.substance));
                loss::loss_by_number(post.material, number.copied().unwrap_or(0), floats_of(post))
            }
        }
    }

    fn move_of(self, n: u64) -> Move
        ensures { result ≡ move_of self.does self.post n }
    {
        let material = usize::from(self.post.material);
        let stage = usize::from(self.post.stage);
        let substance = usize::from(self.post.substance);
        match self.does {
            Does::Receives => Move::Received { material, grams: n },
            Does::Issues => Move::Issued {
                material,
                stage,
                grams: n,
            },
            Does::Brings(account) => Move::Brought {
                account,
                stage,
                substance,
                amount: n,
            },
            Does::Leaves(account) => Move::Gone {
                account,
                stage,
                substance,
                amount: n,
            },
            Does::Closes => Move::Close,
        }
    }
}

// The post that bytes lay out, by an outline: declined by 6.
fn read_post(o: Outline, s: &[u8]) -> Result<Laid, Decline>
    ensures { result ≡ laid_of (post_at s.now) (laid_out o s.now) }
{
    check(s.len() == POST_SIZE, Decline::Layout)?;
    let post = Post::decode(s);
    let kind = kind::kind_of(o, post.kind)?;
    check(kind.limits.admit(&post), Decline::Layout)?;
    Ok(Laid {
        post,
        measure: kind.measure,
        does: kind.does,
    })
}

// Whether the bytes of a post are well formed, by an outline, which is `layout`'s: declined by 6 and 7, which need no book.
pub fn check_post(o: Outline, s: &[u8]) -> Result<(), Decline>
    ensures { result ≡ verdict_of (well_formed o s.now) }
{
    let laid = read_post(o, s)?;
    check(laid.floats_fit(), Decline::OutOfRange)
}

// What the bytes of a post move, by an outline and the management numbers: declined by 6 to 9.
pub fn read_move(o: Outline, numbers: &[u16], s: &[u8]) -> Result<Move, Decline>
    ensures { result ≡ move_at o numbers.now s.now }
{
    let laid = read_post(o, s)?;
    let amount = laid.amount(numbers)?;
    Ok(laid.move_of(amount))
}

impl Move {
    // Whether no post follows.
    pub fn closes(self) -> bool
        ensures { result ≡ closes self }
    {
        matches!(self, Move::Close)
    }
}
