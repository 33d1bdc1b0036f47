// Which kind a statement has.
ghost use Rattle.std.specs.Prelude.{◌≡◌, ◌++◌, map, codes, Some};
ghost use Rattle.std.specs.Option.{option_map, option_and_then};
ghost use Rattle.tree77.specs.Kinds.{outline_of, accepted, refused, accepted_types, refused_types, IsKind};
ghost use Rattle.scan77.specs.KindReading as reading;
ghost use Rattle.scan77.specs.Kind.{kind_of};
ghost use Rattle.scan77.specs.Outline.{characters_left};
ghost use Rattle.scan77.specs.PieceSlice.{slice_of};
ghost use Rattle.scan77.specs.Word.{word_text};

use crate::outline::Outline;
use crate::outline_reading::{
    behind_comma, behind_group, behind_name, behind_number, behind_text, has_comma,
    reads_dummy_list, reads_equals,
};
use crate::word::WORDS;
use crate::{Kind, PieceSlice, Word, one_kind};

/// The types that a FUNCTION statement may begin with (X3.9 section 15.5.1), and those with which it is refused.
const ACCEPTED_TYPES: [Word; 3] = [Word::Integer, Word::Logical, Word::Character];

const REFUSED_TYPES: [Word; 3] = [Word::Real, Word::DoublePrecision, Word::Complex];

fn is_format(label: u32, at: Outline<'_>) -> bool
    ensures { result ≡ reading.reads_format label (characters_left at.entry) }
{
    label != 0 && behind_text(at, "FORMAT(").is_some()
}

/// What is left behind DO, digits and an optional comma.
fn behind_loop_label(at: Outline<'_>) -> Option<Outline<'_>>
    ensures { option_map characters_left result ≡ reading.behind_loop_label (characters_left at.entry) }
{
    let label = behind_text(at, "DO")?;
    let rest = behind_number(label)?;
    Some(behind_comma(rest))
}

/// Whether an equals sign stands here, and later a comma outside parentheses.
fn is_range(at: Outline<'_>) -> bool
    ensures { result ≡ reading.reads_range (characters_left at.entry) }
{
    match at.next() {
        Some((b'=', more)) => has_comma(more),
        _ => false,
    }
}

fn behind_loop_variable(at: Outline<'_>) -> Option<Outline<'_>>
    ensures { option_map characters_left result ≡ option_and_then reading.behind_name (reading.behind_loop_label (characters_left at.entry)) }
{
    let variable = behind_loop_label(at)?;
    behind_name(variable)
}

fn is_loop(at: Outline<'_>) -> bool
    ensures { result ≡ reading.reads_loop (characters_left at.entry) }
{
    match behind_loop_variable(at) {
        Some(rest) => is_range(rest),
        None => false,
    }
}

/// Whether an equals sign stands here, or behind a group.
fn is_equals_past_one(at: Outline<'_>) -> bool
    ensures { result ≡ reading.reads_past reading.reads_equals (characters_left at.entry) }
{
    if reads_equals(at) {
        return true;
    }
    match behind_group(at) {
        Some(rest) => reads_equals(rest),
        None => false,
    }
}

/// Whether an equals sign stands here, or behind one or two groups.
fn is_equals_past_two(at: Outline<'_>) -> bool
    ensures { result ≡ reading.reads_past (reading.reads_past reading.reads_equals) (characters_left at.entry) }
{
    if reads_equals(at) {
        return true;
    }
    match behind_group(at) {
        Some(rest) => is_equals_past_one(rest),
        None => false,
    }
}

fn is_assignment(at: Outline<'_>) -> bool
    ensures { result ≡ reading.reads_assignment (characters_left at.entry) }
{
    match behind_name(at) {
        Some(rest) => is_equals_past_two(rest),
        None => false,
    }
}

/// The first of some types that stands here, and what is left behind it.
fn behind_type<'a>(at: Outline<'a>, types: &[Word]) -> Option<(Word, Outline<'a>)>
    ensures { option_map (λ r. (word_text r.0, characters_left r.1)) result ≡ reading.behind_type (map word_text types.now) (characters_left at.entry) }
{
    for word in types {
        if let Some(rest) = behind_text(at, word.text()) {
            return Some((*word, rest));
        }
    }
    None
}

/// What is left behind a star and digits or a group, and all where no star stands here.
fn behind_length(at: Outline<'_>) -> Option<Outline<'_>>
    ensures { option_map characters_left result ≡ reading.behind_length (characters_left at.entry) }
{
    match at.next() {
        Some((b'*', more)) => match behind_number(more) {
            Some(rest) => Some(rest),
            None => behind_group(more),
        },
        _ => Some(at),
    }
}

/// What is left behind a length, FUNCTION and a name.
fn behind_function_name(at: Outline<'_>) -> Option<Outline<'_>>
    ensures { option_map characters_left result ≡ option_and_then reading.behind_name (option_and_then (reading.behind_text (codes "FUNCTION")) (reading.behind_length (characters_left at.entry))) }
{
    let word = behind_length(at)?;
    let name = behind_text(word, "FUNCTION")?;
    behind_name(name)
}

/// Whether a length, FUNCTION, a name and dummies stand here, and no more.
fn is_header(at: Outline<'_>) -> bool
    ensures { result ≡ reading.reads_header (characters_left at.entry) }
{
    match behind_function_name(at) {
        Some(rest) => reads_dummy_list(rest),
        None => false,
    }
}

/// The type, one of some, with which a FUNCTION statement begins.
fn function_type(at: Outline<'_>, types: &[Word]) -> Option<Word>
    ensures { option_map word_text result ≡ reading.function_type (map word_text types.now) (characters_left at.entry) }
{
    let (word, rest) = behind_type(at, types)?;
    if is_header(rest) { Some(word) } else { None }
}

fn is_typed_function(at: Outline<'_>) -> bool
    ensures { result ≡ reading.is_some (reading.function_type accepted_types (characters_left at.entry)) }
{
    function_type(at, &ACCEPTED_TYPES).is_some()
}

fn refused_type(at: Outline<'_>) -> Option<Word>
    ensures { option_map word_text result ≡ reading.function_type refused_types (characters_left at.entry) }
{
    function_type(at, &REFUSED_TYPES)
}

fn is_labelled_while(at: Outline<'_>) -> bool
    ensures { result ≡ reading.reads_while (characters_left at.entry) }
{
    match behind_loop_label(at) {
        Some(rest) => behind_text(rest, "WHILE").is_some(),
        None => false,
    }
}

/// The keyword, if it stands here and is longer than the longest so far, and else that one.
fn longer_here(at: Outline<'_>, longest: Option<Word>, word: Word) -> Option<Word>
    ensures { option_map word_text result ≡ reading.longer (option_map word_text longest) (reading.word_here (word_text word) (characters_left at.entry)) }
{
    if behind_text(at, word.text()).is_none() {
        return longest;
    }
    match longest {
        Some(longest) => {
            if longest.text().len() < word.text().len() {
                Some(word)
            } else {
                Some(longest)
            }
        }
        None => Some(word),
    }
}

/// The longest of some keywords that stands here, the first of those of one length.
fn longest_in(at: Outline<'_>, words: &[Word]) -> Option<Word>
    ensures { option_map word_text result ≡ reading.longest_of (map word_text words.now) (characters_left at.entry) }
{
    let mut longest = None;
    for word in words {
        longest = longer_here(at, longest, *word);
    }
    longest
}

/// The longest keyword that stands here.
fn longest_word(at: Outline<'_>) -> Option<Word>
    ensures { option_map word_text result ≡ reading.longest_of (accepted ++ refused) (characters_left at.entry) }
{
    longest_in(at, &WORDS)
}

/// The kind of a statement by its longest keyword.
fn keyword_kind(at: Outline<'_>) -> Kind
    ensures { kind_of result ≡ reading.kind_of_word (reading.longest_of (accepted ++ refused) (characters_left at.entry)) }
{
    match longest_word(at) {
        Some(word) => {
            if word.is_accepted() {
                Kind::Keyword(word)
            } else {
                Kind::Unsupported(word)
            }
        }
        None => Kind::Nothing,
    }
}

/// The kind of a statement that is neither a FORMAT, a DO, an assignment nor a FUNCTION with an accepted type.
fn other_kind(at: Outline<'_>) -> Kind
    ensures { kind_of result ≡ reading.other_kind (characters_left at.entry) }
{
    if let Some(word) = refused_type(at) {
        Kind::RefusedFunction(word)
    } else if is_labelled_while(at) {
        Kind::Unsupported(Word::DoWhile)
    } else {
        keyword_kind(at)
    }
}

/// The kind of a statement with this label.
fn kind_at(label: u32, at: Outline<'_>) -> Kind
    ensures { kind_of result ≡ reading.read_kind label (characters_left at.entry) }
{
    if is_format(label, at) {
        Kind::Format
    } else if is_loop(at) {
        Kind::Do
    } else if is_assignment(at) {
        Kind::Assign
    } else if is_typed_function(at) {
        Kind::Keyword(Word::Function)
    } else {
        other_kind(at)
    }
}

/// The kind of a statement (X3.9 sections 7 to 16). Each statement has one, and it takes no memory.
///
/// In: the label of the statement, 0 where it has none, and its pieces. For the statement under a logical IF (X3.9 section
/// 11.5) the label is 0.
///
/// Out: its kind, the first of these that it has: `Format` with a label and `FORMAT(`; `Do`; `Assign`, which is an
/// assignment or a statement function; `Keyword(Function)` where it begins with a type, its length, FUNCTION and a name
/// with dummies; `RefusedFunction` with the type where that is REAL, DOUBLEPRECISION or COMPLEX; `Unsupported(DoWhile)` for
/// DO, a label and WHILE; `Keyword` with the longest keyword that begins it, or `Unsupported` where its statement isn't
/// accepted; and `Nothing` where no keyword does.
pub fn classify(label: u32, pieces: PieceSlice<'_>) -> Kind
    ensures { IsKind label (outline_of (slice_of pieces.entry)) (kind_of result) }
{
    one_kind();
    kind_at(label, Outline::of(pieces))
}
