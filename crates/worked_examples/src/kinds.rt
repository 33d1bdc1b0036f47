// The keywords, each with its characters, and statements with their kinds.
ghost use Rattle.std.specs.Prelude.{◌≡◌, map};
ghost use Rattle.scan77.specs.Word.{word_text};
ghost use Rattle.tree77.specs.Kinds.{IsKind, accepted, refused};
ghost use Rattle.worked_examples.specs.Tables.{Gives, Holds};
ghost use Rattle.worked_examples.specs.Words.{accepted_words, refused_words, kinds};

use scan77::one_kind;

/// Each keyword has its characters, and these are all.
pub fn keywords()
    ensures accepted_text { Gives word_text accepted_words }
    ensures refused_text { Gives word_text refused_words }
    ensures accepted { accepted ≡ map (λ row. row.1) accepted_words }
    ensures refused { refused ≡ map (λ row. row.1) refused_words }
{}

/// Each of these statements has its kind.
pub fn kinds_of_statements()
    ensures { Holds (λ s. IsKind s.0 s.1) kinds }
{
    one_kind();
}
