// A block's frame: its tag, its check sums, its kind and its number.
ghost use Rattle.std.specs.Prelude.{◌≡◌, ◌+◌, ◌<◌, pos, take};
ghost use Rattle.amounts.specs.Decline.{checked};
ghost use Rattle.layout.specs.Frame.{has_tag, sums_of, body_of, summed, block_of, block_checks, sum_checks, next_checks, frame_checks, held_at};

use crate::holds;
use crate::holds::Holds;
use amounts::decline::{Decline, check};
use encoding::bytes;

// The sum of bytes, and of each byte times its place from 1, both modulo 65,521.
#[derive(Clone, Copy)]
pub struct CheckSums {
    pub plain: u16,
    pub weighted: u16,
}

fn has_tag(s: &[u8]) -> bool
    ensures { result ≡ has_tag s.now }
{
    s.starts_with(b"PRTR")
}

// The check sums that a block's bytes ask for, of the bytes before the place where they stand.
pub fn check_sums(s: &[u8]) -> CheckSums
    ensures { result ≡ sums_of s.now }
{
    let summed = &s[..s.len().min(508)];
    let mut plain: i32 = 0;
    let mut weighted: i32 = 0;
    for (i, x) in summed.iter().enumerate() {
        plain += i32::from(*x);
        weighted += i32::from(*x) * i32::from(place_of(i));
    }
    CheckSums {
        plain: (plain as u32 % 65521) as u16,
        weighted: (weighted as u32 % 65521) as u16,
    }
}

// A byte's place, from 1. Signed and of 16 bits, which the compiler multiplies and adds eight at a time.
// A function of its own, since with the cast in the loop a block's sums take 1.4 times as long.
fn place_of(i: usize) -> i16
    requires { i < 512 }
    ensures { result ≡ pos (i + 1) }
{
    (i + 1) as i16
}

// Decline 1: the length and the tag.
#[tactic(auto, unfolding(amounts::specs::Decline::checked))]
fn check_block(s: &[u8]) -> Result<(), Decline>
    ensures { result ≡ checked (block_checks s.now) (tt {0}) }
{
    check(s.len() == 512, Decline::NotABlock)?;
    check(has_tag(s), Decline::NotABlock)
}

// Decline 2: the two sums, a row of the table each.
#[tactic(auto, unfolding(amounts::specs::Decline::checked))]
fn check_stored_sums(s: &[u8]) -> Result<(), Decline>
    ensures { result ≡ checked (sum_checks s.now) (tt {0}) }
{
    let sums = check_sums(s);
    check(bytes::le16(s, 508) == sums.plain, Decline::CheckSum)?;
    check(bytes::le16(s, 510) == sums.weighted, Decline::CheckSum)
}

// Decline 3: the kind and the number.
#[tactic(auto, unfolding(amounts::specs::Decline::checked))]
fn check_next(number: u32, s: &[u8]) -> Result<(), Decline>
    ensures { result ≡ checked (next_checks number s.now) (tt {0}) }
{
    check(holds::is_kind(bytes::byte_at(s, 4)), Decline::NotNext)?;
    check(u32::from(bytes::le16(s, 6)) == number, Decline::NotNext)
}

// Declines 1 to 3. No check sum is taken where the length or the tag fails, since the sums are what a block's check costs.
pub fn check_frame(number: u32, s: &[u8]) -> Result<(), Decline>
    ensures { result ≡ checked (frame_checks number s.now) (tt {0}) }
{
    check_block(s)?;
    check_stored_sums(s)?;
    check_next(number, s)
}

// Declines 1 to 3, or what the block holds.
pub fn read_frame(number: u32, s: &[u8]) -> Result<Holds, Decline>
    ensures { result ≡ held_at number s.now }
{
    check_frame(number, s)?;
    Holds::try_from(bytes::byte_at(s, 4))
}

// Writes the check sums that the bytes before them ask for.
fn write_sums(block: &mut [u8; 512])
    ensures { block.new ≡ summed (take 508 block.old) }
{
    let sums = check_sums(block);
    block[508..510].copy_from_slice(&sums.plain.to_le_bytes());
    block[510..].copy_from_slice(&sums.weighted.to_le_bytes());
}

// The block of a kind, a count and a number over the body that it holds: the tag and the head before it, the check sums behind it. The kind is its byte, as it
// stands there.
pub fn framed(block: [u8; 512], kind: u8, count: u8, number: u16) -> [u8; 512]
    ensures { result ≡ block_of kind count number (body_of block) }
{
    let mut out = block;
    out[..4].copy_from_slice(b"PRTR");
    out[4] = kind;
    out[5] = count;
    out[6..8].copy_from_slice(&number.to_le_bytes());
    write_sums(&mut out);
    out
}
