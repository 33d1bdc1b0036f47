// What holds of the table of operations.
ghost use Rattle.value_ops.specs.Laws.{TypesFit, TypesAreGiven, OperationsFaultInThreeWays, ValuesAreStorable};
ghost use Rattle.value_ops.specs.Laws.{QuotientsAreTruncated, PowersOfZero, NextPowers, NegativePowers};
ghost use Rattle.value_ops.specs.Laws.{IndexIsPlace, IndexIsFirst, ZeroIsNowhere, BlanksDontCount, EqualButForBlanks};

/// Whether values fit an operation, and the type of what it gives, is told by their types.
pub fn types_tell_what_is_given()
    ensures fit { TypesFit }
    ensures given { TypesAreGiven }
{}

/// An operation faults with Overflow, ZeroDivide or CharRange alone.
pub fn operations_fault_in_three_ways()
    ensures { OperationsFaultInThreeWays }
{}

/// Integers in the range give integers in the range, and bytes give bytes.
pub fn values_are_storable()
    ensures { ValuesAreStorable }
{}

/// A quotient is truncated toward zero, and MOD is what is left.
pub fn quotients_are_truncated()
    ensures { QuotientsAreTruncated }
{}

/// A power is a product, from 1 at the exponent 0 on, and below 0 it has no value exactly at the base 0.
pub fn powers_are_products()
    ensures zero { PowersOfZero }
    ensures next { NextPowers }
    ensures negative { NegativePowers }
{}

/// INDEX is the first place where a text begins, and 0 where it begins nowhere.
pub fn index_is_the_first_place()
    ensures place { IndexIsPlace }
    ensures first { IndexIsFirst }
    ensures nowhere { ZeroIsNowhere }
{}

/// Blanks at the end of a text don't count in a comparison, and texts are equal that differ in them alone.
pub fn blanks_at_the_end_dont_count()
    ensures same { BlanksDontCount }
    ensures equal { EqualButForBlanks }
{}
