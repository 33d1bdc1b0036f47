// Digits that stand together.
ghost use Rattle.std.specs.Prelude.{◌≡◌, ◌∷◌, ◌+◌, ◌*◌, ◌-◌, ◌≤◌, ◌<◌, ℕ, true, min, [], length, IfSome, None};
ghost use Rattle.text_base.specs.Chars.{is_digit};
ghost use Rattle.text_base.specs.Pieces.{plain};
ghost use Rattle.scan77.specs.PieceSlice.{slice_of};
ghost use Rattle.format77.specs.Reading.{digits_here, behind_digits, is_written, count_by, number_of};
ghost use Rattle.format77.specs.Parts.{number_by, LIMIT};

use scan77::{FirstPiece, PieceSlice};
use text_base::chars::is_digit;

/// What digits stand for, which is kept up to this number.
const LIMIT: u32 = 10000;

/// The greatest number of a format.
const GREATEST: u32 = 9999;

/// Digits that stand together: whether there are any, and what they stand for, up to the limit.
#[derive(Clone, Copy, Debug)]
pub struct Digits {
    is_written: bool,
    value: u32,
}

impl Digits {
    /// Whether there are digits.
    pub fn is_written(self) -> bool
        ensures { result ≡ self.is_written }
    {
        self.is_written
    }

    /// The number that they stand for, if it is one from the least on that may stand in a format.
    pub fn number(self, least: u32) -> Option<u16>
        ensures { result ≡ number_by least self }
    {
        if !self.is_written || self.value < least || self.value > GREATEST {
            return None;
        }
        Some(self.value as u16)
    }

    /// How often an item stands behind them: once where there are none.
    pub fn count(self) -> Option<u16>
        ensures { result ≡ count_by self.is_written (number_by 1 self) }
    {
        if self.is_written {
            self.number(1)
        } else {
            Some(1)
        }
    }

    /// With one more digit.
    fn with(self, digit: u8) -> Digits
        requires limited { self.value ≤ LIMIT }
        requires digit { is_digit digit ≡ true }
        ensures written { result.is_written ≡ true }
        ensures value { result.value ≡ min (self.value * 10 + (digit - 48)) LIMIT }
    {
        let value = self.value * 10 + (digit - b'0') as u32;
        Digits {
            is_written: true,
            value: if value < LIMIT { value } else { LIMIT },
        }
    }
}

/// The first piece, if it is a digit, and what is left behind it.
fn first_digit(pieces: PieceSlice<'_>) -> Option<(u8, PieceSlice<'_>)>
    ensures some { IfSome result (λ r. slice_of pieces.entry ≡ plain r.0 ∷ slice_of r.1) }
    ensures digit { IfSome result (λ r. is_digit r.0 ≡ true) }
    ensures none { result ≡ None → digits_here (slice_of pieces.entry) ≡ [] }
    ensures rest { result ≡ None → behind_digits (slice_of pieces.entry) ≡ slice_of pieces.entry }
    ensures shorter { IfSome result (λ r. length (slice_of r.1) < length (slice_of pieces.entry)) }
{
    match pieces.split_piece()? {
        (FirstPiece::Plain(byte), rest) => if is_digit(byte) {
            Some((byte, rest))
        } else {
            None
        },
        _ => None,
    }
}

/// The digits that stand here, and what is left behind them.
pub fn split_digits(pieces: PieceSlice<'_>) -> (Digits, PieceSlice<'_>)
    ensures written { result.0.is_written ≡ is_written (digits_here (slice_of pieces.entry)) }
    ensures number { (least : ℕ) → number_by least result.0 ≡ number_of least (digits_here (slice_of pieces.entry)) }
    ensures rest { slice_of result.1 ≡ behind_digits (slice_of pieces.entry) }
{
    let mut number = Digits {
        is_written: false,
        value: 0,
    };
    let mut rest = pieces;
    while let Some((digit, more)) = first_digit(rest) {
        number = number.with(digit);
        rest = more;
    }
    (number, rest)
}
