// What order and nesting ask of a statement.
/// What nesting asks of an executable statement but END: whether it may be the terminal statement of a DO (X3.9 section 11.10),
/// what it begins, with the label of the terminal statement of a DO, and what it parts or ends.
#[derive(Clone, Copy, Debug, PartialEq, Eq)]
pub enum Sort {
    Plain,
    /// GO TO, arithmetic IF, RETURN and STOP, which are no terminal statements.
    Leaving,
    Do(u32),
    If,
    ElseIf,
    Else,
    EndIf,
}

/// An executable statement but END, as nesting sees it: its number among the statements of the file, from 0; its label, 0 where it
/// has none; and its sort.
#[derive(Clone, Copy, Debug, PartialEq, Eq)]
pub struct Mark {
    pub number: u32,
    pub label: u32,
    pub sort: Sort,
}

/// Why a statement is refused for its order, its nesting or its unit.
#[derive(Clone, Copy, Debug, PartialEq, Eq)]
pub enum Fault {
    /// More constructs are open behind it than may be.
    Depth,
    /// It stands where it may not stand.
    Order,
    /// It parts or ends no block IF, or is a terminal statement of a wrong kind, or an END where a block IF is open.
    Nesting,
    /// It is a DO without terminal statement, of this label, in its own list.
    Terminal(u32),
    /// It is an END, and the jumps of its unit name more labels than may be.
    Labels,
    /// It is the last statement of a file, whose last unit has no END.
    MissingEnd,
}

/// A statement of a file that is refused, by its number, and why.
#[derive(Clone, Copy, Debug, PartialEq, Eq)]
pub struct Stray {
    pub number: u32,
    pub fault: Fault,
}

/// The kind of a program unit (X3.9 section 2.4).
#[derive(Clone, Copy, Debug, PartialEq, Eq)]
pub enum UnitKind {
    Main,
    Subroutine,
    Function,
    BlockData,
}

/// What a statement counts as for the order of statements (X3.9 section 3.5).
#[derive(Clone, Copy, Debug, PartialEq, Eq)]
pub enum Counts {
    Header(UnitKind),
    Implicit,
    Parameter,
    /// Another declaration.
    Declaration,
    /// A statement function.
    Function,
    /// DATA or FORMAT.
    Anywhere,
    Executable(Sort),
    /// RETURN, by itself or in a logical IF.
    Return(Sort),
    End,
    /// An executable statement that isn't nested: a refused DO WHILE or END DO.
    Outside,
    /// A statement without spelling.
    Nothing,
}

/// What stands before a statement in its unit: no statement yet; the kind of the unit; a declaration but IMPLICIT and PARAMETER; an
/// executable statement.
#[derive(Clone, Copy, Debug, PartialEq, Eq)]
pub struct Standing {
    pub is_first: bool,
    pub kind: UnitKind,
    pub is_declared: bool,
    pub is_executed: bool,
}
