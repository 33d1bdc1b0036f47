// The texts of signs, operators and logical constants.
ghost use Rattle.std.specs.Prelude.{◌≡◌};
ghost use Rattle.expr_tree.specs.Plain.{unary_of, binary_of};
ghost use Rattle.tree90.specs.Printed.{sign_text, operator_text, logical_text};

use tree90::{Binary90, Unary90};

/// A sign (ISO/IEC 1539:1991 section 7.1.1), or `.NOT.` with the blank behind it.
pub fn sign_text(sign: Unary90) -> &'static str
    ensures { result.now ≡ sign_text (unary_of sign) }
{
    match sign {
        Unary90::Plus => "+",
        Unary90::Minus => "-",
        Unary90::Not => ".NOT. ",
    }
}

/// An operator (ISO/IEC 1539:1991 section 7.1.1), without the blanks around it.
pub fn operator_text(operator: Binary90) -> &'static str
    ensures { result.now ≡ operator_text (binary_of operator) }
{
    match operator {
        Binary90::Power => "**",
        Binary90::Times => "*",
        Binary90::Over => "/",
        Binary90::Plus => "+",
        Binary90::Minus => "-",
        Binary90::Concat => "//",
        Binary90::Lt => "<",
        Binary90::Le => "<=",
        Binary90::Eq => "==",
        Binary90::Ne => "/=",
        Binary90::Gt => ">",
        Binary90::Ge => ">=",
        Binary90::And => ".AND.",
        Binary90::Or => ".OR.",
        Binary90::Eqv => ".EQV.",
        Binary90::Neqv => ".NEQV.",
    }
}

/// A logical constant (ISO/IEC 1539:1991 section 4.3.2.2).
pub fn logical_text(value: bool) -> &'static str
    ensures { result.now ≡ logical_text value }
{
    if value { ".TRUE." } else { ".FALSE." }
}
