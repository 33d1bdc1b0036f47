// Operations and intrinsic functions: what they give, and their types. `negsuc n` is -1 - n.
ghost use Rattle.std.specs.Prelude.{◌≡◌, [], ◌∷◌, codes, pos, negsuc, None, Some, true, false};
ghost use Rattle.text_base.specs.ExpressionKinds.{kind_of_expr};
ghost use Rattle.text_base.specs.Operations.{outcome, computes, faults, unfit, outcome_kind};
ghost use Rattle.text_base.specs.Operators.{intrinsic};
ghost use Rattle.text_base.specs.Values.{integer, logical, string, integers, characters};
ghost use Rattle.text_base.specs.declared.operation.Op.TheVariants as op;
ghost use Rattle.text_base.specs.declared.operation.RunFault.TheVariants.{Overflow, ZeroDivide, CharRange};
ghost use Rattle.worked_examples.specs.Expressions.{typed_expressions, i_is_integer};
ghost use Rattle.worked_examples.specs.Tables.{Gives};

/// What operations and intrinsic functions give of some values.
pub fn operation_rows()
    // Quotients, and the rest of a division, which has the sign of what is divided.
    ensures quotient { outcome op.Over (integer (negsuc 6) ∷ integer (pos 2) ∷ []) ≡ computes (integer (negsuc 2)) }
    ensures quotient_of_least { outcome op.Over (integer (negsuc 2147483647) ∷ integer (negsuc 0) ∷ []) ≡ faults Overflow }
    ensures rest { outcome op.Mod (integer (negsuc 6) ∷ integer (pos 2) ∷ []) ≡ computes (integer (negsuc 0)) }
    ensures rest_of_least { outcome op.Mod (integer (negsuc 2147483647) ∷ integer (negsuc 0) ∷ []) ≡ computes (integer (pos 0)) }
    ensures rest_by_zero { outcome op.Mod (integer (pos 7) ∷ integer (pos 0) ∷ []) ≡ faults ZeroDivide }
    // Powers.
    ensures power { outcome op.Power (integer (pos 10) ∷ integer (pos 9) ∷ []) ≡ computes (integer (pos 1000000000)) }
    ensures least_power { outcome op.Power (integer (negsuc 1) ∷ integer (pos 31) ∷ []) ≡ computes (integer (negsuc 2147483647)) }
    ensures large_power { outcome op.Power (integer (pos 2) ∷ integer (pos 31) ∷ []) ≡ faults Overflow }
    ensures zeroth_power { outcome op.Power (integer (pos 0) ∷ integer (pos 0) ∷ []) ≡ computes (integer (pos 1)) }
    ensures negative_power { outcome op.Power (integer (pos 2) ∷ integer (negsuc 0) ∷ []) ≡ computes (integer (pos 0)) }
    ensures negative_power_of_one { outcome op.Power (integer (negsuc 0) ∷ integer (negsuc 2) ∷ []) ≡ computes (integer (negsuc 0)) }
    ensures negative_power_of_zero { outcome op.Power (integer (pos 0) ∷ integer (negsuc 0) ∷ []) ≡ faults ZeroDivide }
    // Functions of integers.
    ensures magnitude_of_least { outcome op.Abs (integer (negsuc 2147483647) ∷ []) ≡ faults Overflow }
    ensures sign_of_zero { outcome op.Sign (integer (pos 3) ∷ integer (pos 0) ∷ []) ≡ computes (integer (pos 3)) }
    ensures negative_excess { outcome op.Dim (integer (pos 2) ∷ integer (pos 5) ∷ []) ≡ computes (integer (pos 0)) }
    ensures greatest_of_five { outcome op.Max (integer (pos 3) ∷ integer (pos 7) ∷ integer (negsuc 4) ∷ integer (pos 5) ∷ integer (pos 6) ∷ []) ≡ computes (integer (pos 7)) }
    ensures least_of_three { outcome op.Min (integer (pos 3) ∷ integer (negsuc 4) ∷ integer (pos 7) ∷ []) ≡ computes (integer (negsuc 4)) }
    ensures magnitude { outcome op.Iabs (integer (negsuc 6) ∷ []) ≡ computes (integer (pos 7)) }
    ensures other_sign { outcome op.Isign (integer (pos 3) ∷ integer (negsuc 0) ∷ []) ≡ computes (integer (negsuc 2)) }
    ensures excess { outcome op.Idim (integer (pos 5) ∷ integer (pos 2) ∷ []) ≡ computes (integer (pos 3)) }
    ensures greatest_of_one { outcome op.Max (integer (pos 3) ∷ []) ≡ unfit }
    // Characters.
    ensures place { outcome op.Index (string (codes "ABAB") ∷ string (codes "BA") ∷ []) ≡ computes (integer (pos 2)) }
    ensures place_of_nothing { outcome op.Index (string (codes "ABAB") ∷ string [] ∷ []) ≡ computes (integer (pos 1)) }
    ensures padded { outcome op.Eq (string (codes "A") ∷ string (codes "A  ") ∷ []) ≡ computes (logical true) }
    ensures in_order { outcome op.Lt (string (codes "AB") ∷ string (codes "B") ∷ []) ≡ computes (logical true) }
    ensures not_in_order { outcome op.Lge (string (codes "AB") ∷ string (codes "B") ∷ []) ≡ computes (logical false) }
    ensures joined { outcome op.Concat (string (codes "AB") ∷ string (codes "C ") ∷ []) ≡ computes (string (codes "ABC ")) }
    ensures length { outcome op.Len (string (codes "AB ") ∷ []) ≡ computes (integer (pos 3)) }
    ensures character { outcome op.Char (integer (pos 65) ∷ []) ≡ computes (string (codes "A")) }
    ensures number { outcome op.Ichar (string (codes "A") ∷ []) ≡ computes (integer (pos 65)) }
    ensures no_character { outcome op.Char (integer (pos 256) ∷ []) ≡ faults CharRange }
    ensures no_number { outcome op.Ichar (string (codes "AB") ∷ []) ≡ faults CharRange }
    // Relations and logicals.
    ensures above { outcome op.Gt (integer (negsuc 0) ∷ integer (negsuc 1) ∷ []) ≡ computes (logical true) }
    ensures at_most { outcome op.Le (integer (pos 2) ∷ integer (pos 2) ∷ []) ≡ computes (logical true) }
    ensures negation { outcome op.Not (logical true ∷ []) ≡ computes (logical false) }
    ensures both { outcome op.And (logical true ∷ logical false ∷ []) ≡ computes (logical false) }
    ensures either { outcome op.Or (logical true ∷ logical false ∷ []) ≡ computes (logical true) }
    ensures same { outcome op.Eqv (logical false ∷ logical false ∷ []) ≡ computes (logical true) }
    ensures not_same { outcome op.Neqv (logical false ∷ logical false ∷ []) ≡ computes (logical false) }
    ensures mixed { outcome_kind op.Lt (characters ∷ integers ∷ []) ≡ None }
{}

/// Names of intrinsic functions, and one that is none.
pub fn intrinsic_functions()
    ensures first { intrinsic (codes "ABS") ≡ Some op.Abs }
    ensures inside { intrinsic (codes "MAX0") ≡ Some op.Max0 }
    ensures last { intrinsic (codes "LLT") ≡ Some op.Llt }
    ensures none { intrinsic (codes "AMOD") ≡ None }
{}

/// Types of expressions in which I and MOD are integer variables.
pub fn types_of_expressions()
    ensures { Gives (kind_of_expr i_is_integer) typed_expressions }
{}
