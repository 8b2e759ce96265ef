// Kind 1: the set-up that a body makes.
ghost use Rattle.std.specs.Prelude.{◌≡◌};
ghost use Rattle.amounts.specs.Content.{counted_of};
ghost use Rattle.amounts.specs.Decline.{value_or, verdict_of};
ghost use Rattle.bodies.specs.Setup.{numbers_in, classes_in, contents_in};
ghost use Rattle.plant.specs.Setup.{counted_all, fresh_setup, setup_of, set_up_on};

use amounts::content;
use amounts::decline::Decline;
use bodies::setup::{check_setup, outline_of};
use bodies::stage::Rates;
use encoding::bytes;
use layout::outline::Outline;
use std::array;

// Where a stage's treated water goes, to the sewer or to public water, and its residues, to landfill or off site. These and a pair's side are flags, since one
// reading of two cases serves all three, and an enum for each would need a reading of its own.
#[derive(Clone, Copy, Default)]
pub struct Stage {
    pub to_sewer: bool,
    pub to_landfill: bool,
}

// A pair of a stage and a substance: its side, water or gas, and its rates.
#[derive(Clone, Copy, Default)]
pub struct Pair {
    pub to_water: bool,
    pub rates: Rates,
}

// What the set-up blocks say. Contents are kept as counted: for the material m and the substance s at m * 8 + s. A pair stands at stage * 8 + substance. Of a
// stage that isn't described yet all is false and 0. Classes are their numbers, since any body is parsed, and stand apart from the management numbers, since a
// post is read over these alone. Each list is one of fixed length, so that a law of it goes by one index.
#[derive(Clone, Copy)]
pub struct Setup {
    pub outline: Outline,
    pub numbers: [u16; 8],
    pub classes: [u8; 8],
    pub counted: [u32; 96],
    pub stages: [Stage; 8],
    pub pairs: [Pair; 64],
}

// A class that is none counts nothing.
fn counted_or_none(class: u8, ppm: u32) -> u32
    ensures { result ≡ value_or 0 (counted_of class ppm) }
{
    content::counted_content(class, ppm).unwrap_or(0)
}

// The eight management numbers.
fn numbers_in(body: &[u8]) -> [u16; 8]
    ensures { result ≡ numbers_in body.now }
{
    array::from_fn(|i| bytes::le16(body, 2 + i * 2))
}

// The eight classes, by their numbers.
fn classes_in(body: &[u8]) -> [u8; 8]
    ensures { result ≡ classes_in body.now }
{
    array::from_fn(|i| bytes::byte_at(body, 18 + i))
}

// Each material's content of each substance, as it counts by the substance's class.
fn counted_in(classes: &[u8; 8], body: &[u8]) -> [u32; 96]
    ensures { result ≡ counted_all classes.now (contents_in body.now) }
{
    array::from_fn(|i| counted_or_none(classes[i % 8], bytes::le32(body, 26 + i * 4)))
}

impl Setup {
    // Before any block.
    pub fn new() -> Setup
        ensures { result ≡ fresh_setup }
    {
        Setup {
            outline: Outline::default(),
            numbers: [0; 8],
            classes: [0; 8],
            counted: [0; 96],
            stages: [Stage::default(); 8],
            pairs: [Pair::default(); 64],
        }
    }

    // What a kind 1 block's body says, whatever its bytes are.
    pub fn parse(count: u8, body: &[u8]) -> Setup
        ensures { result ≡ setup_of count body.now }
    {
        let classes = classes_in(body);
        Setup {
            outline: outline_of(count, body),
            numbers: numbers_in(body),
            classes,
            counted: counted_in(&classes, body),
            ..Setup::new()
        }
    }

    // The substances and materials of a kind 1 block.
    #[tactic(auto, using(crate::proofs::setup::Laws::set_up_declined))]
    pub fn set_up(&mut self, count: u8, body: &[u8]) -> Result<(), Decline>
        ensures verdict { result ≡ verdict_of (set_up_on self.old count body.now) }
        ensures setup { self.new ≡ value_or self.old (set_up_on self.old count body.now) }
    {
        check_setup(self.outline, count, body)?;
        *self = Setup::parse(count, body);
        Ok(())
    }
}
