// What doesn't match.
ghost use Rattle.std.specs.Prelude.{[], ◌∷◌, codes};
ghost use Rattle.worked_examples.specs.Wrong.{other_value, no_value, NeverMatches, line_at, line_to, IsNoMap};

/// After the one assignment of the source, no run matches of a program that assigns another value, or none.
pub fn unmatched_programs()
    ensures other_value { NeverMatches other_value }
    ensures no_value { NeverMatches no_value }
{}

/// Nothing is no map of its storage, nor are a line that stands twice, one of a place that the object doesn't have, and one of an
/// object that the program doesn't declare.
pub fn unfit_maps()
    ensures nothing { IsNoMap [] }
    ensures twice { IsNoMap (line_at 1 ∷ line_at 1 ∷ []) }
    ensures place_0 { IsNoMap (line_at 0 ∷ []) }
    ensures place_2 { IsNoMap (line_at 2 ∷ []) }
    ensures undeclared { IsNoMap (line_to (codes "J") ∷ []) }
{}
