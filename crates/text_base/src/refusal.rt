// Where and why a source is refused.
ghost use Rattle.std.specs.Prelude.{◌≡◌, ◌∷◌, [], codes, IfOk};
ghost use Rattle.text_base.specs.Causes.{cause_number, cause_text};
ghost use Rattle.text_base.specs.Refusing.{not_built};

use crate::Bytes;
use sqlite_items::Items;
use std::alloc::{AllocError, Global};

/// Where something stands: the number of the file, from 0 in the order of the sources, and that of the line, from 1. Line 0
/// stands for the whole file.
#[derive(Clone, Copy, Debug, PartialEq, Eq)]
pub struct Place {
    pub file: u32,
    pub line: u32,
}

/// Why a source is refused. `NotBuilt` stands for what this version does not convert yet.
#[derive(Clone, Copy, Debug, PartialEq, Eq)]
pub enum Cause {
    FileTooLarge,
    LineTooLong,
    BadLabelField,
    ContinuationFirst,
    TooManyContinuations,
    BadCharacter,
    NotAStatement,
    Unsupported,
    ConstantRange,
    NameTooLong,
    StatementOrder,
    BadNesting,
    MissingEnd,
    RealType,
    Redeclared,
    LabelMissing,
    LabelTwice,
    JumpIntoBlock,
    TypeMismatch,
    SubscriptCount,
    BadBound,
    BadConstant,
    EquivConflict,
    EquivKinds,
    EquivCommon,
    DataMismatch,
    DataTwice,
    UnitTwice,
    MainCount,
    NoSuchUnit,
    ArgMismatch,
    Recursion,
    CommonKinds,
    BlockTooLarge,
    NameInView,
    FunctionInView,
    StatementTooLong,
    NotBuilt,
}

impl Cause {
    /// The number that a refusal is printed with.
    pub fn number(self) -> u32
        ensures { result ≡ cause_number self }
    {
        match self {
            Cause::FileTooLarge => 1,
            Cause::LineTooLong => 2,
            Cause::BadLabelField => 3,
            Cause::ContinuationFirst => 4,
            Cause::TooManyContinuations => 5,
            Cause::BadCharacter => 6,
            Cause::NotAStatement => 7,
            Cause::Unsupported => 8,
            Cause::ConstantRange => 9,
            Cause::NameTooLong => 10,
            Cause::StatementOrder => 11,
            Cause::BadNesting => 12,
            Cause::MissingEnd => 13,
            Cause::RealType => 14,
            Cause::Redeclared => 15,
            Cause::LabelMissing => 16,
            Cause::LabelTwice => 17,
            Cause::JumpIntoBlock => 18,
            Cause::TypeMismatch => 19,
            Cause::SubscriptCount => 20,
            Cause::BadBound => 21,
            Cause::BadConstant => 22,
            Cause::EquivConflict => 23,
            Cause::EquivKinds => 24,
            Cause::EquivCommon => 25,
            Cause::DataMismatch => 26,
            Cause::DataTwice => 27,
            Cause::UnitTwice => 28,
            Cause::MainCount => 29,
            Cause::NoSuchUnit => 30,
            Cause::ArgMismatch => 31,
            Cause::Recursion => 32,
            Cause::CommonKinds => 33,
            Cause::BlockTooLarge => 34,
            Cause::NameInView => 35,
            Cause::FunctionInView => 36,
            Cause::StatementTooLong => 37,
            Cause::NotBuilt => 99,
        }
    }

    /// The name that a refusal is printed with.
    pub fn text(self) -> &'static str
        ensures { result.now ≡ cause_text self }
    {
        match self {
            Cause::FileTooLarge => "FileTooLarge",
            Cause::LineTooLong => "LineTooLong",
            Cause::BadLabelField => "BadLabelField",
            Cause::ContinuationFirst => "ContinuationFirst",
            Cause::TooManyContinuations => "TooManyContinuations",
            Cause::BadCharacter => "BadCharacter",
            Cause::NotAStatement => "NotAStatement",
            Cause::Unsupported => "Unsupported",
            Cause::ConstantRange => "ConstantRange",
            Cause::NameTooLong => "NameTooLong",
            Cause::StatementOrder => "StatementOrder",
            Cause::BadNesting => "BadNesting",
            Cause::MissingEnd => "MissingEnd",
            Cause::RealType => "RealType",
            Cause::Redeclared => "Redeclared",
            Cause::LabelMissing => "LabelMissing",
            Cause::LabelTwice => "LabelTwice",
            Cause::JumpIntoBlock => "JumpIntoBlock",
            Cause::TypeMismatch => "TypeMismatch",
            Cause::SubscriptCount => "SubscriptCount",
            Cause::BadBound => "BadBound",
            Cause::BadConstant => "BadConstant",
            Cause::EquivConflict => "EquivConflict",
            Cause::EquivKinds => "EquivKinds",
            Cause::EquivCommon => "EquivCommon",
            Cause::DataMismatch => "DataMismatch",
            Cause::DataTwice => "DataTwice",
            Cause::UnitTwice => "UnitTwice",
            Cause::MainCount => "MainCount",
            Cause::NoSuchUnit => "NoSuchUnit",
            Cause::ArgMismatch => "ArgMismatch",
            Cause::Recursion => "Recursion",
            Cause::CommonKinds => "CommonKinds",
            Cause::BlockTooLarge => "BlockTooLarge",
            Cause::NameInView => "NameInView",
            Cause::FunctionInView => "FunctionInView",
            Cause::StatementTooLong => "StatementTooLong",
            Cause::NotBuilt => "NotBuilt",
        }
    }
}

/// One refusal: the place, the cause, and the name that shows what it is about.
#[derive(Debug, Drop)]
pub struct Refusal {
    pub place: Place,
    pub cause: Cause,
    pub name: Bytes,
}

/// A list of refusals, which contracts see as the list.
pub type Refusals = Items<Refusal>;

/// The list of the one refusal of a file that isn't converted yet: `99 NotBuilt 0` at line 0. It fails for want of memory alone.
pub fn not_built(alloc: Global, file: u32) -> Result<Refusals, AllocError>
    ensures { IfOk result (λ refusals. refusals ≡ not_built file ∷ []) }
{
    let mut refusals = Items::new(alloc);
    let name = Bytes::from_slice(alloc, b"0")?;
    let place = Place { file, line: 0 };
    let cause = Cause::NotBuilt;
    refusals.push(Refusal { place, cause, name })?;
    Ok(refusals)
}
