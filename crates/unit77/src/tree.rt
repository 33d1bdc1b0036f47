// Statements in their places, and the nested lists that they stand in.
use expr_tree::Expr;
use sqlite_items::{Boxed, Items};
use text_base::{Name, Place};
use tree77::{Declared77, Header77, Names77, Stmt77};

/// A DO statement: the label of its terminal statement, its variable, and the values of that (X3.9 section 11.10).
#[derive(Debug, Drop)]
pub struct DoHead {
    pub terminal: u32,
    pub var: Name,
    pub from: Expr,
    pub to: Expr,
    pub by: Option<Expr>,
}

/// An END IF statement, or an END (X3.9 sections 11.9 and 11.14).
#[derive(Debug, Drop)]
pub struct EndIf {
    pub label: u32,
    pub place: Place,
    pub number: u32,
}

/// What an item of a list is: a simple statement; a logical IF (X3.9 section 11.5); a block IF with its arms (X3.9 section
/// 11.6); or a DO with its list, of which the last item is the terminal statement or a DO that shares it (X3.9 section 11.10).
#[cycle(item)]
#[derive(Debug, Drop)]
pub enum Body77 {
    Simple(Stmt77),
    Guarded(Expr, Boxed<Stmt77>),
    If(Arms77, EndIf),
    Do(DoHead, Items77),
}

/// An item of a list, with number, label and place of its first statement.
#[cycle(item)]
#[derive(Debug, Drop)]
pub struct Item77 {
    pub label: u32,
    pub place: Place,
    pub number: u32,
    pub body: Body77,
}

/// An arm of a block IF: its condition, `None` for ELSE; number, label and place of its IF, ELSE IF or ELSE; and its list.
#[cycle(item)]
#[derive(Debug, Drop)]
pub struct Arm77 {
    pub test: Option<Expr>,
    pub label: u32,
    pub place: Place,
    pub number: u32,
    pub items: Items77,
}

/// A list of items, which contracts see as the list.
pub type Items77 = Items<Item77>;

/// A list of arms, which contracts see as the list.
pub type Arms77 = Items<Arm77>;

/// The header of a unit in its place: PROGRAM, SUBROUTINE, FUNCTION or BLOCK DATA.
#[derive(Debug, Drop)]
pub struct HeaderLine77 {
    pub header: Header77,
    pub label: u32,
    pub place: Place,
    pub number: u32,
}

/// A declaration in its place; DATA and FORMAT are among them.
#[derive(Debug, Drop)]
pub struct DeclaredLine77 {
    pub declared: Declared77,
    pub label: u32,
    pub place: Place,
    pub number: u32,
}

/// A list of declarations in their places, which contracts see as the list.
pub type Declareds = Items<DeclaredLine77>;

/// A statement function in its place: its name, its dummies and its expression (X3.9 section 15.4).
#[derive(Debug, Drop)]
pub struct StmtFunction {
    pub name: Name,
    pub dummies: Names77,
    pub value: Expr,
    pub label: u32,
    pub place: Place,
    pub number: u32,
}

/// A list of statement functions in their places, which contracts see as the list.
pub type StmtFunctions = Items<StmtFunction>;

/// A program unit (X3.9 section 2.4): the number and the place of its first statement; its header, `None` for a main program
/// without one; its declarations; its statement functions; its executable statements as nested lists; and its END.
#[derive(Debug, Drop)]
pub struct Unit77 {
    pub header: Option<HeaderLine77>,
    pub place: Place,
    pub number: u32,
    pub declared: Declareds,
    pub functions: StmtFunctions,
    pub items: Items77,
    pub end: EndIf,
}

/// A list of program units, which contracts see as the list.
pub type Units77 = Items<Unit77>;
