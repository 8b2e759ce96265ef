// Numbers and zero runs in bytes of any length. A byte that is missing counts as 0.
ghost use Rattle.std.specs.Prelude.{◌≡◌, drop, get_or};
ghost use Rattle.encoding.specs.Bytes.{le, first_bytes, part, within, all_zero, placed};

use std::array;

pub fn byte_at(s: &[u8], at: usize) -> u8
    ensures { result ≡ get_or s.now at 0 }
{
    s.get(at).copied().unwrap_or(0)
}

// The bytes from a place on, N of them. Where all are there they are read in one piece: one by one, a post's numbers take twice as long.
fn bytes_at<const N: usize>(s: &[u8], at: usize) -> [u8; N]
    ensures { result ≡ first_bytes N (drop at s.now) }
{
    let rest = tail(s, at);
    match rest.first_chunk() {
        Some(whole) => *whole,
        None => array::from_fn(|i| byte_at(rest, i)),
    }
}

// A function for each width: one for all would need a trait with an impl for each, longer than these lines, and its callers' contracts the trait's word for a number.
pub fn le16(s: &[u8], at: usize) -> u16
    ensures { result ≡ le 2 (drop at s.now) }
{
    u16::from_le_bytes(bytes_at(s, at))
}

pub fn le32(s: &[u8], at: usize) -> u32
    ensures { result ≡ le 4 (drop at s.now) }
{
    u32::from_le_bytes(bytes_at(s, at))
}

pub fn le64(s: &[u8], at: usize) -> u64
    ensures { result ≡ le 8 (drop at s.now) }
{
    u64::from_le_bytes(bytes_at(s, at))
}

pub fn all_zero(s: &[u8]) -> bool
    ensures { result ≡ all_zero s.now }
{
    s.iter().all(|b| *b == 0)
}

// The bytes from a place on, as far as there are bytes. With an end and without are two functions: one over a range would have a case for each kind of bound.
pub fn tail(s: &[u8], at: usize) -> &[u8]
    ensures { result.now ≡ drop at s.now }
{
    &s[at.min(s.len())..]
}

// The bytes from one place up to another, as far as there are bytes.
pub fn between(s: &[u8], from: usize, to: usize) -> &[u8]
    ensures { result.now ≡ part from to s.now }
{
    let end = to.min(s.len());
    &s[from.min(end)..end]
}

pub fn zero_from(s: &[u8], at: usize) -> bool
    ensures { result ≡ all_zero (drop at s.now) }
{
    all_zero(tail(s, at))
}

pub fn zero_between(s: &[u8], from: usize, to: usize) -> bool
    ensures { result ≡ all_zero (part from to s.now) }
{
    all_zero(between(s, from, to))
}

pub fn is_within(low: u8, high: u8, n: u8) -> bool
    ensures { result ≡ within low high n }
{
    (low..=high).contains(&n)
}

// The bytes at a place of the buffer, where they fit; all else stays.
#[tactic(auto, using(crate::proofs::bytes::Placed::copied_in, crate::proofs::bytes::Placed::placed_out))]
pub fn put(buffer: &mut [u8], at: usize, s: &[u8])
    ensures { buffer.new ≡ placed buffer.old at s.now }
{
    if s.len() <= buffer.len() && at <= buffer.len() - s.len() {
        buffer[at..at + s.len()].copy_from_slice(s);
    }
}
