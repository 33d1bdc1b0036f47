// The keywords that statements begin with.
ghost use Rattle.std.specs.Prelude.{◌≡◌};
ghost use Rattle.tree77.specs.Kinds.{accepted, is_among};
ghost use Rattle.tree77.specs.Spelling.{shown_word};
ghost use Rattle.scan77.specs.Word.{word_text};

/// A keyword of a statement. The last ones, from `Real` on, are those of statements that aren't accepted.
#[derive(Clone, Copy, Debug, PartialEq, Eq)]
pub enum Word {
    /// X3.9 section 14.1.
    Program,
    /// X3.9 section 15.6.1.
    Subroutine,
    /// X3.9 section 15.5.1.
    Function,
    /// X3.9 section 16.1.
    BlockData,
    /// X3.9 section 8.5.
    Implicit,
    /// X3.9 section 8.6.
    Parameter,
    /// X3.9 section 8.4.1.
    Integer,
    /// X3.9 section 8.4.1.
    Logical,
    /// X3.9 section 8.4.2.
    Character,
    /// X3.9 section 8.1.
    Dimension,
    /// X3.9 section 8.3.
    Common,
    /// X3.9 section 8.2.
    Equivalence,
    /// X3.9 section 8.7.
    External,
    /// X3.9 section 8.8.
    Intrinsic,
    /// X3.9 section 8.9.
    Save,
    /// X3.9 section 9.1.
    Data,
    /// X3.9 section 13.1.
    Format,
    /// X3.9 sections 11.1 and 11.2.
    GoTo,
    /// X3.9 sections 11.4 to 11.6.
    If,
    /// X3.9 section 11.7.
    ElseIf,
    /// X3.9 section 11.8.
    Else,
    /// X3.9 section 11.9.
    EndIf,
    /// X3.9 section 11.10.
    Do,
    /// X3.9 section 11.11.
    Continue,
    /// X3.9 section 11.12.
    Stop,
    /// X3.9 section 11.14.
    End,
    /// X3.9 section 15.6.2.
    Call,
    /// X3.9 section 15.8.
    Return,
    /// X3.9 section 12.8.
    Read,
    /// X3.9 section 12.8.
    Write,
    /// X3.9 section 12.8.
    Print,
    /// X3.9 section 12.10.1.
    Open,
    /// X3.9 section 12.10.2.
    Close,
    /// X3.9 section 12.10.4.
    Rewind,
    /// X3.9 section 8.4.1.
    Real,
    /// X3.9 section 8.4.1.
    DoublePrecision,
    /// X3.9 section 8.4.1.
    Complex,
    /// X3.9 section 15.7.
    Entry,
    /// X3.9 section 11.13.
    Pause,
    /// X3.9 section 12.10.3.
    Inquire,
    /// X3.9 section 12.10.4.
    Backspace,
    /// X3.9 section 12.10.4.
    EndFile,
    /// Not in X3.9.
    Include,
    /// Not in X3.9.
    Namelist,
    /// X3.9 section 10.3.
    Assign,
    /// Not in X3.9.
    DoWhile,
    /// Not in X3.9.
    EndDo,
    /// Not in X3.9.
    ImplicitNone,
}

/// All keywords.
pub const WORDS: [Word; 48] = [
    Word::Program,
    Word::Subroutine,
    Word::Function,
    Word::BlockData,
    Word::Implicit,
    Word::Parameter,
    Word::Integer,
    Word::Logical,
    Word::Character,
    Word::Dimension,
    Word::Common,
    Word::Equivalence,
    Word::External,
    Word::Intrinsic,
    Word::Save,
    Word::Data,
    Word::Format,
    Word::GoTo,
    Word::If,
    Word::ElseIf,
    Word::Else,
    Word::EndIf,
    Word::Do,
    Word::Continue,
    Word::Stop,
    Word::End,
    Word::Call,
    Word::Return,
    Word::Read,
    Word::Write,
    Word::Print,
    Word::Open,
    Word::Close,
    Word::Rewind,
    Word::Real,
    Word::DoublePrecision,
    Word::Complex,
    Word::Entry,
    Word::Pause,
    Word::Inquire,
    Word::Backspace,
    Word::EndFile,
    Word::Include,
    Word::Namelist,
    Word::Assign,
    Word::DoWhile,
    Word::EndDo,
    Word::ImplicitNone,
];

impl Word {
    /// The characters of the keyword, without blanks, in upper case.
    pub fn text(self) -> &'static str
        ensures { result.now ≡ word_text self }
    {
        match self {
            Word::Program => "PROGRAM",
            Word::Subroutine => "SUBROUTINE",
            Word::Function => "FUNCTION",
            Word::BlockData => "BLOCKDATA",
            Word::Implicit => "IMPLICIT",
            Word::Parameter => "PARAMETER",
            Word::Integer => "INTEGER",
            Word::Logical => "LOGICAL",
            Word::Character => "CHARACTER",
            Word::Dimension => "DIMENSION",
            Word::Common => "COMMON",
            Word::Equivalence => "EQUIVALENCE",
            Word::External => "EXTERNAL",
            Word::Intrinsic => "INTRINSIC",
            Word::Save => "SAVE",
            Word::Data => "DATA",
            Word::Format => "FORMAT",
            Word::GoTo => "GOTO",
            Word::If => "IF",
            Word::ElseIf => "ELSEIF",
            Word::Else => "ELSE",
            Word::EndIf => "ENDIF",
            Word::Do => "DO",
            Word::Continue => "CONTINUE",
            Word::Stop => "STOP",
            Word::End => "END",
            Word::Call => "CALL",
            Word::Return => "RETURN",
            Word::Read => "READ",
            Word::Write => "WRITE",
            Word::Print => "PRINT",
            Word::Open => "OPEN",
            Word::Close => "CLOSE",
            Word::Rewind => "REWIND",
            Word::Real => "REAL",
            Word::DoublePrecision => "DOUBLEPRECISION",
            Word::Complex => "COMPLEX",
            Word::Entry => "ENTRY",
            Word::Pause => "PAUSE",
            Word::Inquire => "INQUIRE",
            Word::Backspace => "BACKSPACE",
            Word::EndFile => "ENDFILE",
            Word::Include => "INCLUDE",
            Word::Namelist => "NAMELIST",
            Word::Assign => "ASSIGN",
            Word::DoWhile => "DOWHILE",
            Word::EndDo => "ENDDO",
            Word::ImplicitNone => "IMPLICITNONE",
        }
    }

    /// What a refusal of its statement shows.
    pub fn shown(self) -> &'static str
        ensures { result.now ≡ shown_word (word_text self) }
    {
        match self {
            Word::DoWhile => "WHILE",
            Word::ImplicitNone => "NONE",
            _ => self.text(),
        }
    }

    /// Whether it is the keyword of an accepted statement.
    pub fn is_accepted(self) -> bool
        ensures { result ≡ is_among accepted (word_text self) }
    {
        match self {
            Word::Real
            | Word::DoublePrecision
            | Word::Complex
            | Word::Entry
            | Word::Pause
            | Word::Inquire
            | Word::Backspace
            | Word::EndFile
            | Word::Include
            | Word::Namelist
            | Word::Assign
            | Word::DoWhile
            | Word::EndDo
            | Word::ImplicitNone => false,
            _ => true,
        }
    }
}
