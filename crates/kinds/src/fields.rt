// A post's 48 bytes, field by field.
use encoding::bytes;

// As its bytes are, kind and form by number: what they name is read where declines are told. Floats are kept as bit patterns. In kind 12 the form stands in the
// material's place.
#[derive(Clone, Copy)]
pub struct Post {
    pub kind: u8,
    pub material: u8,
    pub stage: u8,
    pub substance: u8,
    pub content: u32,
    pub quantity: u64,
    pub w: u64,
    pub u: u64,
    pub p: u64,
    pub q: u64,
}

impl Post {
    ghost use Rattle.std.specs.Prelude.{◌≡◌};
    ghost use Rattle.kinds.specs.Fields.{post_at};

    #[tactic(auto, unfolding(crate::specs::Fields::post_at))]
    pub fn decode(s: &[u8]) -> Post
        ensures { result ≡ post_at s.now }
    {
        Post {
            kind: bytes::byte_at(s, 0),
            material: bytes::byte_at(s, 1),
            stage: bytes::byte_at(s, 2),
            substance: bytes::byte_at(s, 3),
            content: bytes::le32(s, 4),
            quantity: bytes::le64(s, 8),
            w: bytes::le64(s, 16),
            u: bytes::le64(s, 24),
            p: bytes::le64(s, 32),
            q: bytes::le64(s, 40),
        }
    }
}
