// The call over a shelf and a sink in memory.
ghost use Rattle.std.specs.Prelude.{◌≡◌, ◌<◌, ◌-◌, ◌^◌, [], Some};
ghost use Rattle.project_set.specs.Conversion.{IsRefused};
ghost use Rattle.command.specs.Words.{words_of, form};
ghost use Rattle.command.specs.FromFile.{FromFile, LacksName, IsAccepted};
ghost use Rattle.command.specs.Answers.{IsOrMemory};

use crate::Status;
use crate::top::modern;
use std::alloc::Global;
use text_base::{MemoryShelf, MemorySink};

/// `modern` over a shelf and a sink in memory of which no call is to fail. A source is converted, any other file is refused, and
/// an absent one is missing; or memory is wanted.
pub fn in_memory(
    alloc: Global,
    words: &[String],
    shelf: &mut MemoryShelf,
    out: &mut MemorySink,
) -> Status
    requires reads { shelf.old.failing_reads ≡ [] }
    requires writes { shelf.old.failing_writes ≡ [] }
    requires puts { out.old.failing_puts ≡ [] }
    requires read_room { shelf.old.read_faults < 2 ^ 64 - 1 }
    requires write_room { shelf.old.write_faults < 2 ^ 64 - 1 }
    requires put_room { out.old.faults < 2 ^ 64 - 1 }
    ensures converted { FromFile (form (words_of words.now)) (Some shelf.old.files) (λ _ bytes. IsAccepted bytes) → IsOrMemory result Status.Done }
    ensures refused { FromFile (form (words_of words.now)) (Some shelf.old.files) (λ _ bytes. IsRefused bytes) → IsOrMemory result Status.Refused }
    ensures missing { LacksName (form (words_of words.now)) (Some shelf.old.files) → IsOrMemory result Status.Missing }
{
    modern(alloc, words, shelf, out)
}
