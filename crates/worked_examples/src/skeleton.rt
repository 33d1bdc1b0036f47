// Skeletons.
ghost use Rattle.std.specs.Prelude.{◌≡◌, [], ◌∷◌};
ghost use Rattle.project_set.specs.Skeleton.{marks, source_skeletons, written_skeletons};
ghost use Rattle.worked_examples.specs.Read.{whole_program};
ghost use Rattle.worked_examples.specs.Skeletons.{whole_skeleton, shown_expressions};
ghost use Rattle.worked_examples.specs.Tables.{Gives};
ghost use Rattle.worked_examples.specs.Written.{whole_written};

/// The skeleton of the whole program and of what is written for it, and what is shown of expressions.
pub fn skeletons()
    ensures source { source_skeletons whole_program ≡ whole_skeleton ∷ [] }
    ensures written { written_skeletons whole_written ≡ whole_skeleton ∷ [] }
    ensures expressions { Gives marks shown_expressions }
{}
