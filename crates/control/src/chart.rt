//! The mode 0 chart of the data sheet: sixteen rows of port directions, by bits 4, 3, 1 and 0 of the mode word.
ghost use Rattle.std.specs.Prelude.{◌≡◌};
ghost use Rattle.control.specs.Mode.{directions_of};

use crate::Directions;

const INPUT: bool = true;

const OUTPUT: bool = false;

// The rows in the sheet's order. Columns: port A, the upper half of C, port B, the lower half of C.
const CHART: [[bool; 4]; 16] = [
    [OUTPUT, OUTPUT, OUTPUT, OUTPUT],
    [OUTPUT, OUTPUT, OUTPUT, INPUT],
    [OUTPUT, OUTPUT, INPUT, OUTPUT],
    [OUTPUT, OUTPUT, INPUT, INPUT],
    [OUTPUT, INPUT, OUTPUT, OUTPUT],
    [OUTPUT, INPUT, OUTPUT, INPUT],
    [OUTPUT, INPUT, INPUT, OUTPUT],
    [OUTPUT, INPUT, INPUT, INPUT],
    [INPUT, OUTPUT, OUTPUT, OUTPUT],
    [INPUT, OUTPUT, OUTPUT, INPUT],
    [INPUT, OUTPUT, INPUT, OUTPUT],
    [INPUT, OUTPUT, INPUT, INPUT],
    [INPUT, INPUT, OUTPUT, OUTPUT],
    [INPUT, INPUT, OUTPUT, INPUT],
    [INPUT, INPUT, INPUT, OUTPUT],
    [INPUT, INPUT, INPUT, INPUT],
];

/// The chart's row for a mode word. Data sheet: Mode 0 Port Definition.
#[tactic(auto, using(crate::proofs::Charted::index_below, crate::proofs::Charted::listed))]
pub fn row(word: u8) -> Directions
    ensures { result ≡ directions_of word }
{
    let at = ((word >> 1) & 12 | word & 3) as usize;
    let line = CHART[at];
    let [a, upper, b, lower] = line;
    Directions { a, upper, b, lower }
}
