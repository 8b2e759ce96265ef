// The kinds of posts: one row for each, with the limits of its fields, how its amount is measured, and what it does.
ghost use Rattle.std.specs.Prelude.{◌≡◌};
ghost use Rattle.kinds.specs.Kind.{in_span, fields_fit, kind_of, limited, below, of_stock, of_issue, of_micrograms, of_content, of_form};

use crate::account::Account;
use crate::fields::Post;
use amounts::decline::Decline;
use layout::outline::Outline;

// The numbers from one up to another, which is not among them.
#[derive(Clone, Copy)]
pub struct Span {
    pub from: u64,
    pub end: u64,
}

// What a post's fields may be.
#[derive(Clone, Copy)]
pub struct Limits {
    pub material: Span,
    pub stage: Span,
    pub substance: Span,
    pub content: Span,
    pub quantity: Span,
}

// How a kind's amount is had: its quantity as stated, its quantity times its content, or the loss of its floats.
#[derive(Clone, Copy)]
pub enum Measure {
    Quantity,
    Content,
    Loss,
}

// What a kind does with its amount.
#[derive(Clone, Copy)]
pub enum Does {
    Receives,
    Issues,
    Brings(Account),
    Leaves(Account),
    Closes,
}

#[derive(Clone, Copy)]
pub struct Kind {
    pub limits: Limits,
    pub measure: Measure,
    pub does: Does,
}

const UNUSED: Span = Span { from: 0, end: 1 };

const FORMS: Span = Span { from: 1, end: 4 };

const CONTENTS: Span = Span {
    from: 1,
    end: 1_000_001,
};

const GRAMS: Span = Span {
    from: 1,
    end: 2_000_000_001,
};

const MICROGRAMS: Span = Span {
    from: 1,
    end: 2_000_000_000_000_001,
};

// A kind that uses no field.
const OF_NOTHING: Limits = Limits {
    material: UNUSED,
    stage: UNUSED,
    substance: UNUSED,
    content: UNUSED,
    quantity: UNUSED,
};

fn below(count: u8) -> Span
    ensures { result ≡ below count }
{
    Span {
        from: 0,
        end: u64::from(count),
    }
}

fn of_stock(o: Outline) -> Limits
    ensures { result ≡ of_stock o }
{
    Limits {
        material: below(o.materials),
        quantity: GRAMS,
        ..OF_NOTHING
    }
}

// A row's fields, as in the four that follow: each row names others.
fn of_issue(o: Outline) -> Limits
    ensures { result ≡ of_issue o }
{
    Limits {
        material: below(o.materials),
        stage: below(o.stages),
        quantity: GRAMS,
        ..OF_NOTHING
    }
}

fn of_micrograms(o: Outline) -> Limits
    ensures { result ≡ of_micrograms o }
{
    Limits {
        stage: below(o.stages),
        substance: below(o.substances),
        quantity: MICROGRAMS,
        ..OF_NOTHING
    }
}

fn of_content(o: Outline) -> Limits
    ensures { result ≡ of_content o }
{
    Limits {
        stage: below(o.stages),
        substance: below(o.substances),
        content: CONTENTS,
        quantity: GRAMS,
        ..OF_NOTHING
    }
}

fn of_form(o: Outline) -> Limits
    ensures { result ≡ of_form o }
{
    Limits {
        material: FORMS,
        stage: below(o.stages),
        substance: below(o.substances),
        ..OF_NOTHING
    }
}

// The row of a kind, by the number that a post has of it and with its limits by an outline. One that has none is outside the layout.
#[tactic(auto, unfolding(crate::specs::Kind::kind_of, crate::specs::Kind::find, crate::specs::Kind::rows))]
pub fn kind_of(o: Outline, number: u8) -> Result<Kind, Decline>
    ensures { result ≡ limited o (kind_of number) }
{
    use Does::{Brings, Closes, Issues, Leaves, Receives};
    use Measure::{Content, Loss, Quantity};

    let (limits, measure, does) = match number {
        // An arm each, as each has its row in the table.
        1 => (of_stock(o), Quantity, Receives),
        2 => (of_stock(o), Quantity, Receives),
        3 => (of_issue(o), Quantity, Issues),
        4 => (of_micrograms(o), Quantity, Brings(Account::Held)),
        5 => (of_content(o), Content, Leaves(Account::Shipped)),
        6 => (of_content(o), Content, Leaves(Account::OffSite)),
        7 => (of_content(o), Content, Leaves(Account::Landfill)),
        8 => (of_content(o), Content, Leaves(Account::Soil)),
        9 => (of_content(o), Content, Leaves(Account::Consumed)),
        10 => (of_content(o), Content, Leaves(Account::Gas)),
        11 => (of_content(o), Content, Leaves(Account::Water)),
        12 => (of_form(o), Loss, Leaves(Account::Vapour)),
        13 => (OF_NOTHING, Quantity, Closes),
        14 => (of_content(o), Content, Brings(Account::OffSite)),
        _ => return Err(Decline::Layout),
    };
    Ok(Kind {
        limits,
        measure,
        does,
    })
}

// Whether a number is among those that a field may be.
fn in_span(span: &Span, n: u64) -> bool
    ensures { result ≡ in_span span.now n }
{
    (span.from..span.end).contains(&n)
}

impl Limits {
    // Whether each field is within its limits.
    pub fn admit(&self, post: &Post) -> bool
        ensures { result ≡ fields_fit self.now post.now }
    {
        in_span(&self.material, u64::from(post.material))
            && in_span(&self.stage, u64::from(post.stage))
            && in_span(&self.substance, u64::from(post.substance))
            && in_span(&self.content, u64::from(post.content))
            && in_span(&self.quantity, post.quantity)
    }
}
