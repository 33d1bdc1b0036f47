// What stands behind the condition of an IF.
ghost use Rattle.std.specs.Prelude.{◌≡◌, List, codes, [], ◌∷◌};
ghost use Rattle.text_base.specs.Pieces.{Piece};
ghost use Rattle.tree77.specs.Forms.{ahead, one, text};
ghost use Rattle.scan77.specs.PieceSlice.{slice_of};
ghost use Rattle.parse77.specs.Reading.{Read, read_if};
ghost use Rattle.parse77.specs.Views.{read_shape};

use scan77::{FirstPiece, PieceSlice};
use text_base::chars::is_digit;

/// The shape of an IF: an arithmetic one, or one that begins a block, with the pieces behind its keyword (X3.9 sections 11.4
/// and 11.6); a logical one, with its condition and what stands under it (X3.9 section 11.5); or none of them.
#[derive(Clone, Copy)]
pub enum Branch<'a> {
    Labels(PieceSlice<'a>),
    Block(PieceSlice<'a>),
    Guard(PieceSlice<'a>, PieceSlice<'a>),
    Other,
}

/// Whether pieces begin with a digit.
#[tactic(auto, using(crate::proofs::Looks::digit_sort))]
fn begins_with_digit(pieces: PieceSlice<'_>) -> bool
    ensures { result ≡ ahead (one (codes "0")) (slice_of pieces.entry) }
{
    match pieces.split_piece() {
        Some((FirstPiece::Plain(character), _)) => is_digit(character),
        Some((FirstPiece::Whole(_), _)) => false,
        Some((FirstPiece::Broken(_), _)) => false,
        None => false,
    }
}

/// Whether pieces are THEN and nothing more.
#[tactic(auto, using(crate::proofs::Looks::then_alone))]
fn is_then(pieces: PieceSlice<'_>) -> bool
    ensures { result ≡ ahead (text (codes "THEN") (0 ∷ [])) (slice_of pieces.entry) }
{
    match pieces.behind("THEN") {
        Some(rest) => rest.is_empty(),
        None => false,
    }
}

/// The shape of an IF.
pub fn shape_of(pieces: PieceSlice<'_>) -> Branch<'_>
    ensures { (under : List Piece → List Piece → Read) → read_shape under result ≡ read_if under (slice_of pieces.entry) }
{
    let Some(rest) = pieces.behind("IF") else {
        return Branch::Other;
    };
    let Some((front, under)) = rest.split_group() else {
        return Branch::Other;
    };
    if begins_with_digit(under) {
        Branch::Labels(rest)
    } else if is_then(under) {
        Branch::Block(rest)
    } else {
        Branch::Guard(front, under)
    }
}
