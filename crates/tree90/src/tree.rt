// The tree of a Fortran 90 program.
use expr_tree::Expr as Expr90;
use sqlite_items::Items;
use text_base::{Name, Remarks};

/// A simple statement: an assignment has the variable and the expression (ISO/IEC 1539:1991 section 7.5.1); STOP (ISO/IEC 1539:1991 section 8.4)
/// has nothing.
#[derive(Debug, Drop)]
pub enum Simple90 {
    Assign(Expr90, Expr90),
    Stop,
}

/// An executable statement or construct.
#[derive(Debug, Drop)]
pub enum Stmt90 {
    Simple(Simple90),
}

/// A list of statements, which contracts see as the list.
pub type Stmts90 = Items<Stmt90>;

/// The comments before one item of a source list, and the statements that stand for it: none for a CONTINUE.
#[derive(Debug, Drop)]
pub struct Item90 {
    pub comments: Remarks,
    pub body: Stmts90,
}

/// A list of items, which contracts see as the list.
pub type Items90 = Items<Item90>;

/// The type of an object (ISO/IEC 1539:1991 section 5.1.1).
#[derive(Clone, Copy, Debug, PartialEq, Eq)]
pub enum Type90 {
    Integer,
}

/// A declaration: a scalar object has its type and its name (ISO/IEC 1539:1991 section 5.1).
#[derive(Debug, Drop)]
pub enum Declared90 {
    Object(Type90, Name),
}

/// A list of declarations, which contracts see as the list.
pub type Declared90s = Items<Declared90>;

/// The kind of a program unit (ISO/IEC 1539:1991 section 2.2).
#[derive(Clone, Copy, Debug, PartialEq, Eq)]
pub enum UnitKind90 {
    Main,
}

/// A program unit: its kind, its name, its declarations and its executable statements, and the comments
/// before its header line, right after it, and before its END line.
#[derive(Debug, Drop)]
pub struct Unit90 {
    pub kind: UnitKind90,
    pub name: Name,
    pub declared: Declared90s,
    pub items: Items90,
    pub head: Remarks,
    pub inner: Remarks,
    pub tail: Remarks,
}

/// A list of units, which contracts see as the list.
pub type Unit90s = Items<Unit90>;

/// A program: its units, and the comments after the last of them.
#[derive(Debug, Drop)]
pub struct Program90 {
    pub units: Unit90s,
    pub tail: Remarks,
}
