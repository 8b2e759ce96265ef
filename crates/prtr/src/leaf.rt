// The calculations of `amounts`, `losses` and `mixture`. Each that can decline returns 0 or the papers' number, and writes only where it returns 0.
// The C interface has each value and each place loose, and a decline by number.
ghost use Rattle.std.specs.Prelude.{◌≡◌};
ghost use Rattle.forms.specs.Form.{values_of};
ghost use Rattle.amounts.specs.Content.{counted_of};
ghost use Rattle.amounts.specs.Filed.{case_of, step_of, filed_of};
ghost use Rattle.losses.specs.Loss.{vapour_of};
ghost use Rattle.amounts.specs.Threshold.{due_of};
ghost use Rattle.amounts.specs.Treatment.{split_of};
ghost use Rattle.forms.specs.Binary64.{value_of};
ghost use Rattle.mixture.specs.Pressure.{floats_of, partial_of};
ghost use Rattle.prtr.specs.Host.{number_of, lent, one_or_zero};
ghost use Rattle.std.specs.Float.{binary64};
ghost use Rattle.std.specs.Float.Ieee.{to_bits};

use amounts::content::counted_content;
use amounts::decline::Decline;
use amounts::filed;
use amounts::threshold::is_due;
use amounts::treatment::{Rate, split_total};
use forms::form::Inputs;
use losses::loss::vapour_loss;
use mixture::pressure::partial_pressure;

// What is answered goes to a lent place, and a decline's number to the caller.
fn lend<T: Copy>(answer: Result<T, Decline>, place: &mut T) -> u8
    ensures value { result ≡ number_of answer }
    ensures place_after { place.new ≡ lent (λ a. a) place.old answer }
{
    match answer {
        Ok(value) => {
            *place = value;
            0
        }
        Err(decline) => decline.number(),
    }
}

// The content in ppm that counts for a substance of the class.
#[unsafe(no_mangle)]
pub extern "C" fn prtr_counted(class: u8, ppm: u32, counted: &mut u32) -> u8
    ensures value { result ≡ number_of (counted_of class ppm) }
    ensures counted_after { counted.new ≡ lent (λ n. n) counted.old (counted_of class ppm) }
{
    lend(counted_content(class, ppm), counted)
}

// The parts of a gas or waste-water total in micrograms at a removal and a destruction in ppm.
#[unsafe(no_mangle)]
pub extern "C" fn prtr_split(
    total: u64,
    removal: u32,
    destruction: u32,
    released: &mut u64,
    destroyed: &mut u64,
    residue: &mut u64,
) -> u8
    ensures value { result ≡ number_of (split_of total removal destruction) }
    ensures released_after { released.new ≡ lent (λ p. p.released) released.old (split_of total removal destruction) }
    ensures destroyed_after { destroyed.new ≡ lent (λ p. p.destroyed) destroyed.old (split_of total removal destruction) }
    ensures residue_after { residue.new ≡ lent (λ p. p.residue) residue.old (split_of total removal destruction) }
{
    match split_total(
        total,
        Rate {
            removal,
            destruction,
        },
    ) {
        Ok(parts) => {
            *released = parts.released;
            *destroyed = parts.destroyed;
            *residue = parts.residue;
            0
        }
        Err(decline) => decline.number(),
    }
}

// The case of an amount in micrograms: its step is the answer, and its number is put.
#[unsafe(no_mangle)]
pub extern "C" fn prtr_case(amount: u64, number: &mut u8) -> u64
    ensures value { result ≡ (case_of amount).step }
    ensures number_after { number.new ≡ (case_of amount).number }
{
    let case = filed::case_of(amount);
    *number = case.number;
    case.step
}

// The step to which an amount in micrograms is rounded.
#[unsafe(no_mangle)]
pub extern "C" fn prtr_step(amount: u64) -> u64
    ensures { result ≡ step_of amount }
{
    filed::step_of(amount)
}

// The figure that is filed for an amount in micrograms.
#[unsafe(no_mangle)]
pub extern "C" fn prtr_figure(amount: u64) -> u64
    ensures { result ≡ filed_of amount }
{
    filed::filed_figure(amount)
}

// Whether a substance of the class is due at an amount handled, in micrograms: 1 or 0.
#[unsafe(no_mangle)]
pub extern "C" fn prtr_due(class: u8, handled: u64, due: &mut u8) -> u8
    ensures value { result ≡ number_of (due_of class handled) }
    ensures due_after { due.new ≡ lent one_or_zero due.old (due_of class handled) }
{
    lend(is_due(class, handled).map(u8::from), due)
}

// The vapour loss in micrograms of a form, a management number and four floats by their bits.
#[unsafe(no_mangle)]
pub extern "C" fn prtr_loss(
    form: u8,
    number: u16,
    w: u64,
    u: u64,
    p: u64,
    q: u64,
    micrograms: &mut u64,
) -> u8
    ensures value { result ≡ number_of (vapour_of form number (values_of (record { w = w; u = u; p = p; q = q }))) }
    ensures micrograms_after { micrograms.new ≡ lent (λ n. n) micrograms.old (vapour_of form number (values_of (record { w = w; u = u; p = p; q = q }))) }
{
    lend(vapour_loss(form, number, Inputs { w, u, p, q }), micrograms)
}

// The partial pressure in Pa of the part at a place from 0, by its vapour pressure and the contents and molecular weights of a mixture's parts; floats by their bits.
#[tactic(auto, using(mixture::proofs::pressure::Bound::is_number))]
#[unsafe(no_mangle)]
pub extern "C" fn prtr_pressure(
    contents: &[u64],
    weights: &[u64],
    named: usize,
    pressure: u64,
    partial: &mut u64,
) -> u8
    ensures value { result ≡ number_of (partial_of (floats_of contents.now) (floats_of weights.now) named (value_of pressure)) }
    ensures partial_after { partial.new ≡ lent (λ x. to_bits binary64 x) partial.old (partial_of (floats_of contents.now) (floats_of weights.now) named (value_of pressure)) }
{
    match partial_pressure(contents, weights, named, pressure) {
        Ok(x) => {
            *partial = f64::to_bits(x);
            0
        }
        Err(decline) => decline.number(),
    }
}
