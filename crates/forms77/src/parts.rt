// Labels and numbers.
ghost use Rattle.std.specs.Prelude.{◌≡◌, pos, true};
ghost use Rattle.tree77.specs.Forms.{small_or_0};
ghost use Rattle.tree77.specs.Lexemes as plain;

use expr77::small_value;

/// The value of digits, 0 where it is too great.
pub fn value_or_0(digits: &[u8]) -> i32
    ensures { result ≡ pos (small_or_0 digits.now) }
{
    match small_value(digits) {
        Some(value) => value,
        None => 0,
    }
}

/// The number of a label.
pub fn label_number(digits: &[u8]) -> u32
    requires { plain.is_label digits.now ≡ true }
    ensures { result ≡ plain.decimal digits.now }
{
    match small_value(digits) {
        Some(value) => value.unsigned_abs(),
        None => 0,
    }
}
