// Runs of programs, statement by statement.
ghost use Rattle.std.specs.Prelude.{◌≡◌, [], ◌∷◌, codes, pos, negsuc, None};
ghost use Rattle.text_base.specs.Operations.{outcome, computes, faults};
ghost use Rattle.text_base.specs.Values.{integer, undefined};
ghost use Rattle.text_base.specs.declared.operation.Op.TheVariants as op;
ghost use Rattle.text_base.specs.declared.operation.RunFault.TheVariants.{Undefined, Overflow};
ghost use Rattle.text_base.specs.Runs.{going, ended, fault};
ghost use Rattle.program77.specs.Meaning.{run77};
ghost use Rattle.tree90.specs.Meaning.{nowhere, IsStart, run90};
ghost use Rattle.worked_examples.specs.Read.{whole_program, short_program, undefined_program, overflow_program, order_program, product_program};
ghost use Rattle.worked_examples.specs.Runs.{value, goes_on, has_ended, has_faulted, three};
ghost use Rattle.worked_examples.specs.Written.{whole_written};

/// The whole program: three assignments count, CONTINUE doesn't, STOP does and ends the run.
pub fn whole_run()
    ensures at_0 { run77 whole_program 0 ≡ goes_on (undefined ∷ undefined ∷ undefined ∷ []) }
    ensures at_1 { run77 whole_program 1 ≡ goes_on (value 1 ∷ undefined ∷ undefined ∷ []) }
    ensures at_2 { run77 whole_program 2 ≡ goes_on (value 1 ∷ value 5 ∷ undefined ∷ []) }
    ensures at_3 { run77 whole_program 3 ≡ goes_on (value 1 ∷ value 5 ∷ value 6 ∷ []) }
    ensures at_4 { run77 whole_program 4 ≡ has_ended (value 1 ∷ value 5 ∷ value 6 ∷ []) }
    ensures at_5 { run77 whole_program 5 ≡ has_ended (value 1 ∷ value 5 ∷ value 6 ∷ []) }
{}

/// END counts, and ends the run.
pub fn short_run()
    ensures at_0 { run77 short_program 0 ≡ goes_on (undefined ∷ []) }
    ensures at_1 { run77 short_program 1 ≡ goes_on (value 1 ∷ []) }
    ensures at_2 { run77 short_program 2 ≡ has_ended (value 1 ∷ []) }
    ensures at_3 { run77 short_program 3 ≡ has_ended (value 1 ∷ []) }
{}

/// The second statement reads a variable that has no value.
pub fn undefined_run()
    ensures at_0 { run77 undefined_program 0 ≡ goes_on (undefined ∷ undefined ∷ undefined ∷ []) }
    ensures at_1 { run77 undefined_program 1 ≡ goes_on (value 1 ∷ undefined ∷ undefined ∷ []) }
    ensures at_2 { run77 undefined_program 2 ≡ has_faulted 3 Undefined }
    ensures at_3 { run77 undefined_program 3 ≡ has_faulted 3 Undefined }
{}

/// The first statement gives the greatest integer, and the second would give one more.
pub fn overflow_run()
    ensures at_0 { run77 overflow_program 0 ≡ goes_on (undefined ∷ undefined ∷ []) }
    ensures at_1 { run77 overflow_program 1 ≡ goes_on (value 2147483647 ∷ undefined ∷ []) }
    ensures at_2 { run77 overflow_program 2 ≡ has_faulted 3 Overflow }
    ensures at_3 { run77 overflow_program 3 ≡ has_faulted 3 Overflow }
{}

/// Of two operands the left one is evaluated first.
pub fn order_of_operands()
    ensures { run77 order_program 1 ≡ has_faulted 2 Overflow }
{}

/// The least and the greatest integer, and what passes them. `negsuc n` is -1 - n.
pub fn operations()
    ensures sum { outcome op.Plus (integer (pos 3) ∷ integer (pos 2) ∷ []) ≡ computes (integer (pos 5)) }
    ensures difference { outcome op.Minus (integer (pos 3) ∷ integer (pos 5) ∷ []) ≡ computes (integer (negsuc 1)) }
    ensures greatest { outcome op.Plus (integer (pos 2147483646) ∷ integer (pos 1) ∷ []) ≡ computes (integer (pos 2147483647)) }
    ensures above { outcome op.Plus (integer (pos 2147483647) ∷ integer (pos 1) ∷ []) ≡ faults Overflow }
    ensures least { outcome op.Minus (integer (negsuc 2147483646) ∷ integer (pos 1) ∷ []) ≡ computes (integer (negsuc 2147483647)) }
    ensures below { outcome op.Minus (integer (negsuc 2147483646) ∷ integer (pos 2) ∷ []) ≡ faults Overflow }
    ensures plus { outcome op.Positive (integer (pos 7) ∷ []) ≡ computes (integer (pos 7)) }
    ensures minus { outcome op.Negative (integer (pos 7) ∷ []) ≡ computes (integer (negsuc 6)) }
    ensures minus_least { outcome op.Negative (integer (negsuc 2147483647) ∷ []) ≡ faults Overflow }
{}

/// I is 7, and J is MOD((I + 2) * 3, 4) ** 2: the rest of 27 by 4 is 3.
pub fn product_run()
    ensures at_1 { run77 product_program 1 ≡ goes_on (value 7 ∷ undefined ∷ []) }
    ensures at_2 { run77 product_program 2 ≡ goes_on (value 7 ∷ value 9 ∷ []) }
    ensures at_3 { run77 product_program 3 ≡ has_ended (value 7 ∷ value 9 ∷ []) }
{}

/// What is written for the whole program, statement by statement, from objects on that begin with any values.
pub fn written_run()
    ensures start { IsStart whole_written (three 7 8 9) }
    ensures at_0 { run90 (three 7 8 9) whole_written 0 ≡ going (three 7 8 9) }
    ensures at_1 { run90 (three 7 8 9) whole_written 1 ≡ going (three 1 8 9) }
    ensures at_2 { run90 (three 7 8 9) whole_written 2 ≡ going (three 1 5 9) }
    ensures at_3 { run90 (three 7 8 9) whole_written 3 ≡ going (three 1 5 6) }
    ensures at_4 { run90 (three 7 8 9) whole_written 4 ≡ ended (three 1 5 6) None }
    ensures at_5 { run90 (three 7 8 9) whole_written 5 ≡ ended (three 1 5 6) None }
{}
