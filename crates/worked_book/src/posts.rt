// Posts by what their kinds use, and their bytes.
use encoding::bytes;
use kinds::fields::Post;
use layout::posts::POST_SIZE;

// The kinds, as numbers and no enum: trials go over ranges of them, and past their ends.
pub(crate) const OPENING: u8 = 1;

pub(crate) const BOUGHT: u8 = 2;

pub(crate) const ISSUED: u8 = 3;

pub(crate) const FORMED: u8 = 4;

pub(crate) const SHIPPED: u8 = 5;

pub(crate) const OFF_SITE: u8 = 6;

pub(crate) const LANDFILL: u8 = 7;

pub(crate) const SOIL: u8 = 8;

pub(crate) const CONSUMED: u8 = 9;

pub(crate) const GAS: u8 = 10;

pub(crate) const WATER: u8 = 11;

pub(crate) const VAPOUR: u8 = 12;

pub(crate) const CLOSE: u8 = 13;

pub(crate) const FOUND: u8 = 14;

pub(crate) fn encode(p: Post) -> [u8; POST_SIZE] {
    let mut out = [0; POST_SIZE];
    bytes::put(&mut out, 0, &[p.kind, p.material, p.stage, p.substance]);
    bytes::put(&mut out, 4, &p.content.to_le_bytes());
    bytes::put(&mut out, 8, &p.quantity.to_le_bytes());
    bytes::put(&mut out, 16, &p.w.to_le_bytes());
    bytes::put(&mut out, 24, &p.u.to_le_bytes());
    bytes::put(&mut out, 32, &p.p.to_le_bytes());
    bytes::put(&mut out, 40, &p.q.to_le_bytes());
    out
}

// A post of no kind, with no field.
const BLANK: Post = Post {
    kind: 0,
    material: 0,
    stage: 0,
    substance: 0,
    content: 0,
    quantity: 0,
    w: 0,
    u: 0,
    p: 0,
    q: 0,
};

// A post by what its kind uses: a material, a stage, a substance, a content in ppm, and grams.
#[derive(Clone, Copy)]
pub(crate) enum Entry {
    Opening(u8, u64),
    Bought(u8, u64),
    Issued(u8, u8, u64),
    // In micrograms.
    Formed(u8, u8, u64),
    Shipped(u8, u8, u32, u64),
    OffSite(u8, u8, u32, u64),
    Landfill(u8, u8, u32, u64),
    Soil(u8, u8, u32, u64),
    Consumed(u8, u8, u32, u64),
    Gas(u8, u8, u32, u64),
    Water(u8, u8, u32, u64),
    // The form, which stands in the material's place, a stage and a substance, and the floats w, u, p and q.
    Vapour(u8, u8, u8, [u64; 4]),
    Close,
    Found(u8, u8, u32, u64),
}

fn of_store(kind: u8, material: u8, stage: u8, grams: u64) -> Post {
    Post {
        kind,
        material,
        stage,
        quantity: grams,
        ..BLANK
    }
}

// Of a kind that states a content, and of what is formed.
fn of_content(kind: u8, stage: u8, substance: u8, content: u32, quantity: u64) -> Post {
    Post {
        kind,
        stage,
        substance,
        content,
        quantity,
        ..BLANK
    }
}

fn of_vapour(form: u8, stage: u8, substance: u8, floats: [u64; 4]) -> Post {
    let [w, u, p, q] = floats;
    Post {
        kind: VAPOUR,
        material: form,
        stage,
        substance,
        w,
        u,
        p,
        q,
        ..BLANK
    }
}

impl Entry {
    pub(crate) fn post(self) -> Post {
        match self {
            Entry::Opening(m, grams) => of_store(OPENING, m, 0, grams),
            Entry::Bought(m, grams) => of_store(BOUGHT, m, 0, grams),
            Entry::Issued(m, stage, grams) => of_store(ISSUED, m, stage, grams),
            Entry::Formed(stage, s, micrograms) => of_content(FORMED, stage, s, 0, micrograms),
            Entry::Shipped(stage, s, ppm, grams) => of_content(SHIPPED, stage, s, ppm, grams),
            Entry::OffSite(stage, s, ppm, grams) => of_content(OFF_SITE, stage, s, ppm, grams),
            Entry::Landfill(stage, s, ppm, grams) => of_content(LANDFILL, stage, s, ppm, grams),
            Entry::Soil(stage, s, ppm, grams) => of_content(SOIL, stage, s, ppm, grams),
            Entry::Consumed(stage, s, ppm, grams) => of_content(CONSUMED, stage, s, ppm, grams),
            Entry::Gas(stage, s, ppm, grams) => of_content(GAS, stage, s, ppm, grams),
            Entry::Water(stage, s, ppm, grams) => of_content(WATER, stage, s, ppm, grams),
            Entry::Vapour(form, stage, s, floats) => of_vapour(form, stage, s, floats),
            Entry::Close => Post {
                kind: CLOSE,
                ..BLANK
            },
            Entry::Found(stage, s, ppm, grams) => of_content(FOUND, stage, s, ppm, grams),
        }
    }
}

// A post of each kind that the book of `sites` takes, and blank ones of others.
fn good(kind: u8) -> Post {
    match kind {
        OPENING..=FORMED => Post {
            kind,
            quantity: 1,
            ..BLANK
        },
        SHIPPED..=WATER | FOUND => of_content(kind, 0, 0, 1, 1),
        VAPOUR => of_vapour(3, 0, 0, [0; 4]),
        _ => Post { kind, ..BLANK },
    }
}

// A field with what it is changed to.
#[derive(Clone, Copy)]
pub(crate) enum Field {
    // None: the post as it is.
    Same,
    Kind(u8),
    Material(u8),
    Stage(u8),
    Substance(u8),
    Content(u32),
    Quantity(u64),
    W(u64),
    U(u64),
    P(u64),
    Q(u64),
}

fn changed(given: Post, field: Field) -> Post {
    match field {
        Field::Same => given,
        Field::Kind(kind) => Post { kind, ..given },
        Field::Material(material) => Post { material, ..given },
        Field::Stage(stage) => Post { stage, ..given },
        Field::Substance(substance) => Post { substance, ..given },
        Field::Content(content) => Post { content, ..given },
        Field::Quantity(quantity) => Post { quantity, ..given },
        Field::W(w) => Post { w, ..given },
        Field::U(u) => Post { u, ..given },
        Field::P(p) => Post { p, ..given },
        Field::Q(q) => Post { q, ..given },
    }
}

// The good post of a kind with a field changed.
pub(crate) fn tried(kind: u8, field: Field) -> Post {
    changed(good(kind), field)
}
