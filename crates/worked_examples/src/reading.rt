// Sources, from their bytes to their programs.
ghost use Rattle.std.specs.Prelude.{◌≡◌, [], All};
ghost use Rattle.text_base.specs.Cards.{cards, comments};
ghost use Rattle.program77.specs.Source.{IsSource};
ghost use Rattle.project_set.specs.Refusals.{refusals};
ghost use Rattle.worked_examples.specs.Sources.{whole_source, short_source, undefined_source, overflow_source, product_source, no_sources};
ghost use Rattle.worked_examples.specs.Read.{whole_cards, whole_comments, whole_program, short_program, undefined_program, overflow_program, product_program, IsNoSource};

use program77::sources_are_read;

/// The statements and the comments of a file.
pub fn whole_deck()
    ensures statements { cards 0 whole_source ≡ whole_cards }
    ensures comments { comments whole_source ≡ whole_comments }
{}

/// The bytes are the sources of these programs, and others of none.
pub fn sources()
    ensures whole { IsSource 0 whole_source whole_program }
    ensures short { IsSource 0 short_source short_program }
    ensures undefined { IsSource 0 undefined_source undefined_program }
    ensures overflow { IsSource 0 overflow_source overflow_program }
    ensures product { IsSource 0 product_source product_program }
    ensures none { All IsNoSource no_sources }
{
    sources_are_read();
}

/// Nothing is refused of those that are converted.
pub fn accepted_sources()
    ensures whole { refusals whole_source ≡ [] }
    ensures short { refusals short_source ≡ [] }
    ensures undefined { refusals undefined_source ≡ [] }
    ensures overflow { refusals overflow_source ≡ [] }
    ensures product { refusals product_source ≡ [] }
{}
