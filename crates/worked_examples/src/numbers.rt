// The limits and the causes, each with its number.
ghost use Rattle.std.specs.Prelude.{◌≡◌};
ghost use Rattle.text_base.specs.Causes.{cause_number, cause_text};
ghost use Rattle.text_base.specs.declared.limits.TheConstants.{LARGEST_FILE, LARGEST_PROJECT, LONGEST_LINE, LAST_COLUMN, MOST_CONTINUED, LONGEST_NAME, GREATEST_COUNT, GREATEST_INTEGER, DEEPEST_NESTING, LONGEST_WRITTEN, MOST_INDENTED, MOST_SHOWN};
ghost use Rattle.tree90.specs.declared.names.TheConstants.{MOST_NAMES, LONGEST_STEM};
ghost use Rattle.unit77.specs.declared.limits.TheConstants.{MOST_NESTED, MOST_LABELS};
ghost use Rattle.worked_examples.specs.Causes.{causes};
ghost use Rattle.worked_examples.specs.Tables.{Gives};

/// Each limit has its number.
pub fn limits()
    ensures file { LARGEST_FILE ≡ 16777216 }
    ensures project { LARGEST_PROJECT ≡ 67108864 }
    ensures line { LONGEST_LINE ≡ 132 }
    ensures column { LAST_COLUMN ≡ 72 }
    ensures continued { MOST_CONTINUED ≡ 99 }
    ensures name { LONGEST_NAME ≡ 31 }
    ensures count { GREATEST_COUNT ≡ 4294967295 }
    ensures integer { GREATEST_INTEGER ≡ 2147483647 }
    ensures nesting { DEEPEST_NESTING ≡ 200 }
    ensures constructs { MOST_NESTED ≡ 100 }
    ensures labels { MOST_LABELS ≡ 2000 }
    ensures names { MOST_NAMES ≡ 999999999 }
    ensures stem { LONGEST_STEM ≡ 21 }
    ensures written { LONGEST_WRITTEN ≡ 132 }
    ensures indented { MOST_INDENTED ≡ 60 }
    ensures shown { MOST_SHOWN ≡ 12 }
{}

/// Each cause has its number and its name.
pub fn causes_of_refusals()
    ensures { Gives (λ cause. (cause_number cause, cause_text cause)) causes }
{}
