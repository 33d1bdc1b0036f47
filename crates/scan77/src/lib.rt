//! The first reading of a statement of FORTRAN 77: its pieces (`pieces`), its kind (`classify`) and its tokens (`cut`).
#![tactic(auto)]

mod classification;
mod cutting;
mod first_piece;
mod kind;
mod laws;
mod mark;
mod outline;
mod outline_reading;
mod piece_list;
mod piece_parts;
mod piece_reader;
mod piece_slice;
mod scan_error;
mod token;
mod word;

pub use classification::classify;
pub use cutting::cut;
pub use first_piece::FirstPiece;
pub use kind::Kind;
pub use laws::{
    cuts_are_parted, one_cut, one_format, one_kind, one_list_of_format_pieces, one_list_of_pieces,
    outlines_are_equal,
};
pub use piece_list::Pieces;
pub use piece_reader::{format_pieces, pieces};
pub use piece_slice::PieceSlice;
pub use scan_error::ScanError;
pub use token::{Token, TokenKind, Tokens};
pub use word::Word;
