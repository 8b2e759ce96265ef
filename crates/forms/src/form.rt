// The three forms of a vapour loss, and the ranges of their inputs.
ghost use Rattle.std.specs.Prelude.{◌≡◌};
ghost use Rattle.forms.specs.Form.{values_of, ranged, form_of, in_form};

use crate::pattern;
use crate::pattern::Range;
use amounts::decline::Decline;

#[derive(Clone, Copy, Debug, PartialEq)]
pub enum LossForm {
    FloatingRoof {
        diameter: f64,
        content: f64,
        drawn: f64,
    },
    FixedRoof {
        volume: f64,
        partial: f64,
        tank: f64,
        escaping: f64,
    },
    Station {
        received: f64,
        filling: f64,
        dispensed: f64,
        fueling: f64,
    },
}

// The four inputs of a form: their bit patterns, their ranges or their values.
#[derive(Clone, Copy, Debug, PartialEq)]
pub struct Inputs<T> {
    pub w: T,
    pub u: T,
    pub p: T,
    pub q: T,
}

// The range of most inputs.
const TO_A_BILLION: Range = Range {
    low: 0.0,
    high: 1000000000.0,
};

const FLOATING_ROOF: Inputs<Range> = Inputs {
    w: Range {
        low: 1.0,
        high: 1000.0,
    },
    u: Range {
        low: 0.0,
        high: 100.0,
    },
    p: TO_A_BILLION,
    q: Range {
        low: 0.0,
        high: 0.0,
    },
};

const FIXED_ROOF: Inputs<Range> = Inputs {
    w: TO_A_BILLION,
    u: TO_A_BILLION,
    p: Range {
        low: 1.0,
        high: 1000000000.0,
    },
    q: Range {
        low: 0.0,
        high: 1.0,
    },
};

const STATION: Inputs<Range> = Inputs {
    w: TO_A_BILLION,
    u: TO_A_BILLION,
    p: TO_A_BILLION,
    q: TO_A_BILLION,
};

// Four floats from their bit patterns, each in its range.
#[tactic(auto, unfolding(crate::specs::Form::ranged, crate::specs::Pattern::reading_of, amounts::specs::Decline::checked))]
fn read_inputs(ranges: Inputs<Range>, bits: Inputs<u64>) -> Result<Inputs<f64>, Decline>
    ensures { result ≡ ranged ranges (values_of bits) (values_of bits) }
{
    Ok(Inputs {
        w: pattern::read_float(bits.w, ranges.w)?,
        u: pattern::read_float(bits.u, ranges.u)?,
        p: pattern::read_float(bits.p, ranges.p)?,
        q: pattern::read_float(bits.q, ranges.q)?,
    })
}

// The form of a number with its inputs, from four bit patterns. The number is a byte, as a post and the C interface have it. It is inlined for speed: called, it would hand them on in memory.
#[tactic(auto, using(crate::proofs::Numerals::ends), unfolding(crate::specs::Form::form_of, crate::specs::Form::ranged, amounts::specs::Decline::checked))]
#[inline(always)]
pub fn read_form(form: u8, bits: Inputs<u64>) -> Result<LossForm, Decline>
    ensures { result ≡ form_of form (values_of bits) }
{
    match form {
        1 => {
            let x = read_inputs(FLOATING_ROOF, bits)?;
            Ok(LossForm::FloatingRoof {
                diameter: x.w,
                content: x.u,
                drawn: x.p,
            })
        }
        2 => {
            let x = read_inputs(FIXED_ROOF, bits)?;
            Ok(LossForm::FixedRoof {
                volume: x.w,
                partial: x.u,
                tank: x.p,
                escaping: x.q,
            })
        }
        3 => {
            let x = read_inputs(STATION, bits)?;
            Ok(LossForm::Station {
                received: x.w,
                filling: x.u,
                dispensed: x.p,
                fueling: x.q,
            })
        }
        _ => Err(Decline::Layout),
    }
}

// Whether four bit patterns are in the ranges of a form's number, which is a byte of a post; a number that is no form has none.
#[tactic(auto, unfolding(crate::specs::Form::in_form))]
pub fn in_form(form: u8, bits: Inputs<u64>) -> bool
    ensures { result ≡ in_form form (values_of bits) }
{
    read_form(form, bits).is_ok()
}
