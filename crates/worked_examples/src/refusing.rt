// Files of which something is refused, with all of it.
ghost use Rattle.std.specs.Prelude.{◌≡◌, ℕ, List, [], ◌∷◌, length, codes, Some, None};
ghost use Rattle.text_base.specs.LineRefusals.{line_fault, begun_after};
ghost use Rattle.text_base.specs.declared.refusal.Cause.TheVariants.{FileTooLarge, TooManyContinuations};
ghost use Rattle.project_set.specs.Refusals.{refusals};
ghost use Rattle.worked_examples.specs.Refused.{at, refused_sources, continued};
ghost use Rattle.worked_examples.specs.Tables.{Gives};

/// Each of these files has its refusals.
pub fn refused_files()
    ensures { Gives refusals refused_sources }
{}

/// A file of one byte more than 16 MiB, and one of one more than 64 MiB.
pub fn large_files()
    ensures file { (bytes : List ℕ) → length bytes ≡ 16777217 → refusals bytes ≡ at 0 FileTooLarge (codes "16777217") ∷ [] }
    ensures project { (bytes : List ℕ) → length bytes ≡ 67108865 → refusals bytes ≡ at 0 FileTooLarge (codes "67108865") ∷ [] }
{}

/// The 99th continuation line of a statement, and the 100th; behind a refused initial line they are counted anew.
pub fn continuation_lines()
    ensures last { line_fault (Some (continued 98)) (codes "     1+ 2") ≡ None }
    ensures one_more { line_fault (Some (continued 99)) (codes "     1+ 2") ≡ Some (TooManyContinuations, codes "6") }
    ensures anew { begun_after (Some (continued 99)) (codes "1A    J = 1") ≡ Some (continued 0) }
{}
