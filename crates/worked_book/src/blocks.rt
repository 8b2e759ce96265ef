// Set-up blocks, and what their bodies are made of.
use amounts::decline::Decline;
use book::site::Book;
use encoding::bytes;
use layout::frame;

// What a block holds, by its kind.
#[derive(Clone, Copy)]
pub(crate) enum Kind {
    SetUp = 1,
    Stage = 2,
}

// Where a stage's treated water goes.
#[derive(Clone, Copy)]
pub(crate) enum WaterTo {
    Public = 1,
    Sewer = 2,
}

// Where a stage's residues go.
#[derive(Clone, Copy)]
pub(crate) enum ResiduesTo {
    OffSite = 1,
    Landfill = 2,
}

// What the close moves a holding to.
#[derive(Clone, Copy)]
pub(crate) enum Side {
    Gas = 1,
    WasteWater = 2,
}

// What stands in a body.
#[derive(Clone, Copy)]
pub(crate) enum Part {
    // Kind 1: how many materials and stages there are.
    Counts(u8, u8),
    // A substance's place, its number and its class.
    Substance(u8, u16, u8),
    // A material, a substance's place, and its ppm there.
    Content(u8, u8, u32),
    // Kind 2: where water and residues go.
    Ways(WaterTo, ResiduesTo),
    // A substance's place, its side, and its rates in ppm: what is removed of gas, what of that is destroyed, and the same of waste water.
    Treated(u8, Side, [u32; 4]),
    // Any body: a place and its byte.
    Byte(u16, u8),
}

pub(crate) type Body = [u8; 500];

fn treat(body: &mut Body, place: u8, side: Side, rates: [u32; 4]) {
    let at = 2 + usize::from(place) * 17;
    let [
        gas_removal,
        gas_destruction,
        water_removal,
        water_destruction,
    ] = rates;
    bytes::put(body, at, &[side as u8]);
    bytes::put(body, at + 1, &gas_removal.to_le_bytes());
    bytes::put(body, at + 5, &gas_destruction.to_le_bytes());
    bytes::put(body, at + 9, &water_removal.to_le_bytes());
    bytes::put(body, at + 13, &water_destruction.to_le_bytes());
}

impl Part {
    fn write(self, body: &mut Body) {
        match self {
            Part::Counts(materials, stages) => bytes::put(body, 0, &[materials, stages]),
            Part::Substance(place, number, class) => {
                let at = usize::from(place);
                bytes::put(body, 2 + at * 2, &number.to_le_bytes());
                bytes::put(body, 18 + at, &[class]);
            }
            Part::Content(material, place, ppm) => {
                let at = 26 + usize::from(material) * 32 + usize::from(place) * 4;
                bytes::put(body, at, &ppm.to_le_bytes());
            }
            Part::Ways(water, residues) => bytes::put(body, 0, &[water as u8, residues as u8]),
            Part::Treated(place, side, rates) => treat(body, place, side, rates),
            Part::Byte(at, byte) => bytes::put(body, usize::from(at), &[byte]),
        }
    }
}

// Writes each part over what is there.
pub(crate) fn write(body: &mut Body, parts: &[Part]) {
    for part in parts {
        part.write(body);
    }
}

pub(crate) fn body_of(parts: &[Part]) -> Body {
    let mut body = [0; 500];
    write(&mut body, parts);
    body
}

// Gives the book the block of a kind that is next.
pub(crate) fn give(book: &mut Book, kind: Kind, count: u8, body: &Body) -> Result<(), Decline> {
    let mut block = [0; 512];
    bytes::put(&mut block, 8, body);
    // A block has two bytes for its number.
    let number = (book.block_number() % 65_536) as u16;
    book.take_block(&frame::framed(block, kind as u8, count, number))
}
