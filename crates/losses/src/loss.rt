// Vapour losses in kg and in micrograms.
ghost use Rattle.std.specs.Prelude.{◌≡◌, Float};
ghost use Rattle.forms.specs.Form.{values_of};
ghost use Rattle.forms.specs.declared.form.Inputs.{Inputs};
ghost use Rattle.losses.specs.Coefficient.{row_of};
ghost use Rattle.losses.specs.Loss.{floating_roof_kg, fixed_roof_kg, station_kg, kg_of, limited_of, loss_of, loss_over, vapour_of};

use crate::coefficient::CoefficientRow;
use crate::{coefficient, whole};
use amounts::decline::{Decline, check};
use forms::form;
use forms::form::{Inputs, LossForm};

#[tactic(auto, using(crate::proofs::Numerals::numerals), unfolding(crate::specs::Loss::floating_roof_kg))]
fn floating_roof_kg(row: CoefficientRow, w: f64, u: f64, p: f64) -> f64
    ensures { result ≡ floating_roof_kg row w u p }
{
    ((((row.k * (4.0 / w)) * row.m) / 22.4) * (u / 100.0)) * p
}

#[tactic(auto, using(crate::proofs::Numerals::numerals), unfolding(crate::specs::Loss::fixed_roof_kg))]
fn fixed_roof_kg(row: CoefficientRow, w: f64, u: f64, p: f64, q: f64) -> f64
    ensures { result ≡ fixed_roof_kg row w u p q }
{
    (((0.041 * row.m) * w) * (u / p)) * q
}

#[tactic(auto, unfolding(crate::specs::Loss::station_kg))]
fn station_kg(w: f64, u: f64, p: f64, q: f64) -> f64
    ensures { result ≡ station_kg w u p q }
{
    (w * u) + (p * q)
}

// The loss of a form in kg, over the row that was found for its substance. It is handed the answer of the search, since a station needs none; a closure that
// searches would be no plainer. The three formulas name the paper's letters.
fn loss_kg(form: LossForm, found: Result<CoefficientRow, Decline>) -> Result<f64, Decline>
    ensures { result ≡ kg_of form found }
{
    match form {
        LossForm::FloatingRoof {
            diameter,
            content,
            drawn,
        } => Ok(floating_roof_kg(found?, diameter, content, drawn)),
        LossForm::FixedRoof {
            volume,
            partial,
            tank,
            escaping,
        } => Ok(fixed_roof_kg(found?, volume, partial, tank, escaping)),
        LossForm::Station {
            received,
            filling,
            dispensed,
            fueling,
        } => Ok(station_kg(received, filling, dispensed, fueling)),
    }
}

// A loss in kg as micrograms, up to 2,000,000 kg.
#[tactic(auto, using(crate::proofs::Numerals::numerals), unfolding(crate::specs::Loss::limited_of, amounts::specs::Decline::checked))]
fn limited(kg: f64) -> Result<u64, Decline>
    ensures { result ≡ limited_of kg }
{
    check(kg <= 2000000.0, Decline::Excess)?;
    Ok(whole::whole_part(kg * 1000000000.0))
}

// The loss of a form in micrograms, over the row that was found for its substance.
#[tactic(auto, unfolding(crate::specs::Loss::loss_of))]
fn loss_of(form: LossForm, found: Result<CoefficientRow, Decline>) -> Result<u64, Decline>
    ensures { result ≡ loss_of form found }
{
    limited(loss_kg(form, found)?)
}

// The loss of a form's number and four bit patterns, over the row that was found for its substance; a station needs none. It is inlined for speed, as
// is its caller: called, they would hand the inputs on in memory.
#[tactic(auto, unfolding(crate::specs::Loss::loss_over))]
#[inline(always)]
pub fn loss_over(
    form: u8,
    found: Result<CoefficientRow, Decline>,
    bits: Inputs<u64>,
) -> Result<u64, Decline>
    ensures { result ≡ loss_over form found (values_of bits) }
{
    loss_of(form::read_form(form, bits)?, found)
}

// The row over which a form's loss is that of the number: a station needs none, so that none is looked for. With the search its loss takes 1.1 times as long, and a closure that
// searches would be no plainer.
#[tactic(auto, using(crate::proofs::loss::Laws::station_alone))]
fn row_for(form: u8, number: u16) -> Result<CoefficientRow, Decline>
    ensures { (i : Inputs Float) → loss_over form result i ≡ loss_over form (row_of number) i }
{
    if form == 3 {
        return Err(Decline::NoRow);
    }
    coefficient::row_of(number)
}

// The loss of a form's number and four bit patterns, over the row of a management number, for a post.
#[inline(always)]
pub fn loss_by_number(form: u8, number: u16, bits: Inputs<u64>) -> Result<u64, Decline>
    ensures { result ≡ loss_over form (row_of number) (values_of bits) }
{
    loss_over(form, row_for(form, number), bits)
}

// The loss called alone: a form's number, a management number and four bit patterns.
#[tactic(auto, unfolding(crate::specs::Loss::vapour_of))]
pub fn vapour_loss(form: u8, number: u16, bits: Inputs<u64>) -> Result<u64, Decline>
    ensures { result ≡ vapour_of form number (values_of bits) }
{
    check(number >= 1, Decline::Layout)?;
    loss_by_number(form, number, bits)
}
