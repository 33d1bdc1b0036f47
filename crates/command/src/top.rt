// The call that does all that the program does.
ghost use Rattle.std.specs.Prelude.{◌≡◌, ◌⊎◌, ℕ, List, None, Some, IfSome};
ghost use Rattle.std.specs.Io.KnownBytes.{append_known};
ghost use Rattle.text_base.specs.Faults.{Rose};
ghost use Rattle.project_set.specs.Conversion.{IsRefused};
ghost use Rattle.command.specs.Words.{words_of, form};
ghost use Rattle.command.specs.FromFile.{FromFile, LacksName, IsAccepted, Converts, Headline};
ghost use Rattle.command.specs.Answers.{IsOrMemory, ExactlyWhere, IsComplete, IsBeforeWrites, IsPartly};
ghost use Rattle.command.specs.Print.{Prints};

use crate::Status;
use crate::answers::answer_words;
use crate::print::say;
use std::alloc::Global;
use text_base::{Shelf, Sink};

/// Does what the words ask for, over the shelf and the sink that are handed in.
///
/// In: the words after the program's name. Their one form is `one FILE OUT`.
///
/// FILE is read from the shelf and converted. The text is written under OUT, the map under `OUT.map` and the report under
/// `OUT.report`, in this order, up to the first write that fails. All memory that is taken beside that of the shelf and the sink
/// is taken before the first write. Then the report is put to the sink, or the refusals, one line each, or the one line of any
/// other status.
///
/// Out: the status; `Status` says when each comes. The shelf then holds what it held, and after `Done` the three outputs too.
/// After `WriteFault`, and after `Memory` where the shelf or the sink wanted it, some first outputs may stand, and the name at
/// which a write failed is unknown. A file of which something is refused changes nothing.
pub fn modern<S: Shelf, O: Sink>(
    alloc: Global,
    words: &[String],
    shelf: &mut S,
    out: &mut O,
) -> Status
    // When each status comes. `Memory` may come in place of any other.
    ensures usage { ExactlyWhere Status.Usage result (form (words_of words.now) ≡ None) }
    ensures read_fault { result ≡ Status.ReadFault → Rose (S.read_faults shelf.old) (S.read_faults shelf.new) }
    ensures missing { result ≡ Status.Missing → Rose (S.absences shelf.old) (S.absences shelf.new) }
    ensures missing_told { result ≡ Status.Missing → LacksName (form (words_of words.now)) (S.held shelf.old) }
    ensures missing_always { ¬ Rose (S.read_faults shelf.old) (S.read_faults shelf.new)
        → IfSome (S.held shelf.old) (λ files. LacksName (form (words_of words.now)) (Some files) → IsOrMemory result Status.Missing) }
    ensures refused { result ≡ Status.Refused → FromFile (form (words_of words.now)) (S.held shelf.old) (λ _ bytes. IsRefused bytes) }
    ensures refused_always { ¬ Rose (S.read_faults shelf.old) (S.read_faults shelf.new) → ¬ Rose (O.faults out.old) (O.faults out.new)
        → IfSome (S.held shelf.old) (λ files. FromFile (form (words_of words.now)) (Some files) (λ _ bytes. IsRefused bytes) → IsOrMemory result Status.Refused) }
    ensures write_fault { result ≡ Status.WriteFault → Rose (S.write_faults shelf.old) (S.write_faults shelf.new) ⊎ Rose (O.faults out.old) (O.faults out.new) }
    ensures converts { result ≡ Status.Done → FromFile (form (words_of words.now)) (S.held shelf.old) (Converts (S.held shelf.old) (S.held shelf.new)) }
    ensures complete { ¬ (form (words_of words.now) ≡ None) → ¬ Rose (S.absences shelf.old) (S.absences shelf.new)
        → ¬ Rose (S.read_faults shelf.old) (S.read_faults shelf.new) → ¬ Rose (S.write_faults shelf.old) (S.write_faults shelf.new)
        → ¬ Rose (O.faults out.old) (O.faults out.new) → IsComplete result }
    ensures complete_told { ¬ Rose (S.read_faults shelf.old) (S.read_faults shelf.new) → ¬ Rose (S.write_faults shelf.old) (S.write_faults shelf.new)
        → ¬ Rose (O.faults out.old) (O.faults out.new)
        → IfSome (S.held shelf.old) (λ files. FromFile (form (words_of words.now)) (Some files) (λ _ bytes. IsAccepted bytes) → IsOrMemory result Status.Done) }

    // What the shelf holds then.
    ensures unchanged { IsBeforeWrites result → S.held shelf.new ≡ S.held shelf.old }
    ensures partly { IsPartly (form (words_of words.now)) (S.held shelf.old) (S.held shelf.new) }
    ensures sink_fault { result ≡ Status.WriteFault → ¬ Rose (S.write_faults shelf.old) (S.write_faults shelf.new)
        → (FromFile (form (words_of words.now)) (S.held shelf.old) (λ _ bytes. IsRefused bytes) × (S.held shelf.new ≡ S.held shelf.old))
        ⊎ FromFile (form (words_of words.now)) (S.held shelf.old) (Converts (S.held shelf.old) (S.held shelf.new)) }
    // Whatever the status, a refused file changes nothing; nor does memory that is wanted before the first write.
    ensures refused_unchanged { IfSome (S.held shelf.old)
        (λ files. FromFile (form (words_of words.now)) (Some files) (λ _ bytes. IsRefused bytes) → S.held shelf.new ≡ S.held shelf.old) }
    ensures memory_unchanged { result ≡ Status.Memory → ¬ Rose (S.denials shelf.old) (S.denials shelf.new)
        → ¬ Rose (O.denials out.old) (O.denials out.new) → S.held shelf.new ≡ S.held shelf.old }
    ensures untold { S.held shelf.old ≡ None → S.held shelf.new ≡ None }

    // What is printed.
    ensures printed { (text : List ℕ) × (O.written out.new ≡ append_known (O.written out.old) text)
        × Prints result (form (words_of words.now)) (S.held shelf.old) (S.held shelf.new) (Rose (S.write_faults shelf.old) (S.write_faults shelf.new))
        (record { faults = O.faults out.old; denials = O.denials out.old }) (record { faults = O.faults out.new; denials = O.denials out.new }) text }

    // The output does what the file does.
    ensures headline { result ≡ Status.Done
        → FromFile (form (words_of words.now)) (S.held shelf.old) (λ command bytes. IfSome (S.held shelf.new) (Headline command bytes)) }

    // Over a shelf and a sink that don't fail no fault is counted.
    ensures reliable { S.reliable shelf.old → O.reliable out.old → (S.read_faults shelf.new ≡ S.read_faults shelf.old)
        × (S.write_faults shelf.new ≡ S.write_faults shelf.old) × (O.faults out.new ≡ O.faults out.old) }
{
    let outcome = answer_words(alloc, words, shelf);
    say(out, &outcome)
}
