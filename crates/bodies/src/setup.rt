// Kind 1: what a body says of the substances and the materials without a set-up, its turn and its limits.
ghost use Rattle.std.specs.Prelude.{◌≡◌, ◌<◌};
ghost use Rattle.amounts.specs.Decline.{checked, passes};
ghost use Rattle.bodies.specs.Setup.{outline_of, before, rising, all_classes, row_sum, row_fits, rows_fit, material_checks, substance_checks, setup_limits, setup_checks};

use amounts::class::Class;
use amounts::decline::{Decline, check};
use encoding::bytes;
use layout::outline::Outline;

// The number of 16 bits before the ith, and 0 before the first.
fn before(s: &[u8], i: usize) -> u16
    requires { i < 256 }
    ensures { result ≡ before s.now i }
{
    if i == 0 {
        0
    } else {
        bytes::le16(s, (i - 1) * 2)
    }
}

// The first n numbers of 16 bits are each above the one before, and the first is above 0.
fn is_rising(s: &[u8], n: u8) -> bool
    ensures { result ≡ rising n s.now }
{
    (0..usize::from(n)).all(|i| before(s, i) < bytes::le16(s, i * 2))
}

fn all_classes(s: &[u8]) -> bool
    ensures { result ≡ all_classes s.now }
{
    s.iter().all(|c| Class::is_class(*c))
}

fn row_sum(s: &[u8]) -> u64
    ensures { result ≡ row_sum s.now }
{
    (0..8).map(|i| u64::from(bytes::le32(s, i * 4))).sum()
}

// A material's contents sum to at most 1,000,000, and are zero from the kth substance on.
fn row_fits(s: &[u8], k: u8) -> bool
    ensures { result ≡ row_fits k s.now }
{
    row_sum(s) <= 1_000_000 && bytes::zero_between(s, usize::from(k) * 4, 32)
}

fn rows_fit(s: &[u8], n: u8, k: u8) -> bool
    ensures { result ≡ rows_fit k n s.now }
{
    (0..usize::from(n)).all(|i| row_fits(bytes::tail(s, i * 32), k))
}

// The materials' rows, and zeros behind them.
fn materials_fit(count: u8, body: &[u8]) -> bool
    ensures { result ≡ passes (material_checks count body.now) }
{
    let materials = bytes::byte_at(body, 0);
    rows_fit(bytes::tail(body, 26), materials, count)
        && bytes::zero_from(body, 26 + usize::from(materials) * 32)
}

// The substances' numbers and classes, each with zeros behind them, and the materials.
fn substances_fit(count: u8, body: &[u8]) -> bool
    ensures { result ≡ passes (substance_checks count body.now) }
{
    let n = usize::from(count);
    is_rising(bytes::tail(body, 2), count)
        && bytes::zero_between(body, 2 + n * 2, 18)
        && all_classes(bytes::between(body, 18, 18 + n))
        && bytes::zero_between(body, 18 + n, 26)
        && materials_fit(count, body)
}

// Whether a body is within its limits. One that isn't breaks the layout.
fn is_within_limits(count: u8, body: &[u8]) -> bool
    ensures { result ≡ passes (setup_limits count body.now) }
{
    body.len() == 500
        && bytes::is_within(1, 8, count)
        && bytes::is_within(1, 12, bytes::byte_at(body, 0))
        && bytes::is_within(1, 8, bytes::byte_at(body, 1))
        && substances_fit(count, body)
}

// Whether a kind 1 block's body is in its turn and within its limits, by the outline, which is `layout`'s, and the bytes alone. A block's count and body go
// together loose, as its head and the rest have them.
#[tactic(auto, unfolding(amounts::specs::Decline::checked))]
pub fn check_setup(o: Outline, count: u8, body: &[u8]) -> Result<(), Decline>
    ensures { result ≡ checked (setup_checks o count body.now) (tt {0}) }
{
    check(o.may_set_up(), Decline::OutOfTurn)?;
    check(is_within_limits(count, body), Decline::Layout)
}

// How far a kind 1 block's body brings the set-up.
pub fn outline_of(count: u8, body: &[u8]) -> Outline
    ensures { result ≡ outline_of count body.now }
{
    Outline {
        substances: count,
        materials: bytes::byte_at(body, 0),
        stages: bytes::byte_at(body, 1),
        described: 0,
    }
}
