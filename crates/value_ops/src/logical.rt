// Operators between logicals.
ghost use Rattle.std.specs.Prelude.{◌≡◌, ◌∷◌, []};
ghost use Rattle.text_base.specs.Values.{logical};
ghost use Rattle.text_base.specs.Operations.{outcome, computes};
ghost use Rattle.value_ops.specs.Answers.{logical_op};

/// An operator between two logicals (X3.9 section 6.4; ISO/IEC 1539:1991 section 7.2.4).
#[derive(Clone, Copy, Debug, PartialEq, Eq)]
pub enum BinaryLog {
    And,
    Or,
    Eqv,
    Neqv,
}

/// What a logical operator gives. It never faults.
pub fn log_op(op: BinaryLog, a: bool, b: bool) -> bool
    ensures { outcome (logical_op op) (logical a ∷ logical b ∷ []) ≡ computes (logical result) }
{
    match op {
        BinaryLog::And => a && b,
        BinaryLog::Or => a || b,
        BinaryLog::Eqv => a == b,
        BinaryLog::Neqv => a != b,
    }
}
