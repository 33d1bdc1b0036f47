// The trees of FORTRAN 77 statements, one by one.
use expr_tree::{Expr, Exprs};
use sqlite_items::{Boxed, Items};
use text_base::{Bytes, FormatItems, Name, StopCode};

/// A list of names, which contracts see as the list.
pub type Names77 = Items<Name>;

/// A list of statement labels, which contracts see as the list.
pub type Labels77 = Items<u32>;

/// A length of characters (X3.9 section 8.4.2): `*`, or an expression.
#[derive(Debug, Drop)]
pub enum Length77 {
    Assumed,
    Given(Expr),
}

/// A type (X3.9 section 8.4), with the length of characters where it is written.
#[derive(Debug, Drop)]
pub enum Type77 {
    Integer,
    Logical,
    Character(Option<Length77>),
}

/// A dimension of an array (X3.9 section 5.1): its lower bound where it is written, and its upper bound, `None` for `*`.
#[derive(Debug, Drop)]
pub struct Dimension77 {
    pub lower: Option<Expr>,
    pub upper: Option<Expr>,
}

/// The dimensions of an array, which contracts see as the list.
pub type Dimensions77 = Items<Dimension77>;

/// A name that is declared (X3.9 section 8): its dimensions, none for a scalar, and its own length where it is written.
#[derive(Debug, Drop)]
pub struct Declarator77 {
    pub name: Name,
    pub dimensions: Dimensions77,
    pub length: Option<Length77>,
}

/// A list of declared names, which contracts see as the list.
pub type Declarators77 = Items<Declarator77>;

/// A constant and its value (X3.9 section 8.6).
#[derive(Debug, Drop)]
pub struct Equation77 {
    pub name: Name,
    pub value: Expr,
}

/// The letters from one to another, as bytes.
#[derive(Debug, Drop)]
pub struct Letters77 {
    pub from: u8,
    pub to: u8,
}

/// A type, and the letters with which names of it begin (X3.9 section 8.5).
#[derive(Debug, Drop)]
pub struct Implicit77 {
    pub of: Type77,
    pub letters: Items<Letters77>,
}

/// A block of COMMON (X3.9 section 8.3): its name, `None` for blank COMMON, and its members.
#[derive(Debug, Drop)]
pub struct Block77 {
    pub name: Option<Name>,
    pub members: Declarators77,
}

/// A name or a block that is saved (X3.9 section 8.9).
#[derive(Debug, Drop)]
pub enum Saved77 {
    Name(Name),
    Block(Name),
}

/// The values of a DO variable (X3.9 section 11.10): the first, the last, and the increment where it is written.
#[derive(Debug, Drop)]
pub struct Range77 {
    pub variable: Name,
    pub from: Expr,
    pub to: Expr,
    pub by: Option<Expr>,
}

/// An item of a list of input, output or DATA, or an implied DO list (X3.9 sections 9.3 and 12.8.2.3).
#[cycle(listed)]
#[derive(Debug, Drop)]
pub enum Listed77 {
    Item(Expr),
    Loop(Listeds77, Boxed<Range77>),
}

/// A list of items, which contracts see as the list.
pub type Listeds77 = Items<Listed77>;

/// How often a constant of DATA counts (X3.9 section 9.1).
#[derive(Debug, Drop)]
pub enum Times77 {
    Once,
    Number(i32),
    Name(Name),
}

/// A constant of DATA.
#[derive(Debug, Drop)]
pub struct DataValue77 {
    pub times: Times77,
    pub constant: Expr,
}

/// Objects of DATA and their values (X3.9 section 9.1).
#[derive(Debug, Drop)]
pub struct DataGroup77 {
    pub objects: Listeds77,
    pub values: Items<DataValue77>,
}

/// A unit of input and output (X3.9 section 12.3): `*`, or an expression.
#[derive(Debug, Drop)]
pub enum UnitRef77 {
    Star,
    Given(Expr),
}

/// A format (X3.9 section 12.4): `*`; a label; or a character constant, with the format that it is.
#[derive(Debug, Drop)]
pub enum FormatRef77 {
    Star,
    Label(u32),
    Text(Bytes, FormatItems),
}

/// The control list of a READ or WRITE (X3.9 section 12.8.1): unit, format, the variable of IOSTAT, and the labels of ERR and
/// END.
#[derive(Debug, Drop)]
pub struct Control77 {
    pub unit: UnitRef77,
    pub format: FormatRef77,
    pub iostat: Option<Name>,
    pub error: Option<u32>,
    pub ending: Option<u32>,
}

/// The control list of an OPEN, CLOSE or REWIND (X3.9 section 12.10): unit, the file and status of OPEN, the variable of
/// IOSTAT, and the label of ERR.
#[derive(Debug, Drop)]
pub struct FileControl77 {
    pub unit: Expr,
    pub file: Option<Expr>,
    pub status: Option<Expr>,
    pub iostat: Option<Name>,
    pub error: Option<u32>,
}

/// What directs a READ: a control list, or a format alone (X3.9 section 12.8).
#[derive(Debug, Drop)]
pub enum ReadBy77 {
    Control(Control77),
    Format(FormatRef77),
}

/// The first statement of a program unit: PROGRAM, SUBROUTINE with its dummies, FUNCTION with its type where it is written
/// and its dummies, BLOCK DATA (X3.9 sections 14.1, 15.6.1, 15.5.1 and 16.1).
#[derive(Debug, Drop)]
pub enum Header77 {
    Program(Name),
    Subroutine(Name, Names77),
    Function(Option<Type77>, Name, Names77),
    BlockData(Option<Name>),
}

/// A declaration (X3.9 sections 8, 9 and 13.1), one variant for each.
#[derive(Debug, Drop)]
pub enum Declared77 {
    Implicit(Items<Implicit77>),
    Parameter(Items<Equation77>),
    Typed(Type77, Declarators77),
    Dimension(Declarators77),
    Common(Items<Block77>),
    Equivalence(Items<Exprs>),
    External(Names77),
    Intrinsic(Names77),
    Save(Items<Saved77>),
    Data(Items<DataGroup77>),
    Format(FormatItems),
}

/// An executable statement that a logical IF may have (X3.9 sections 10, 11, 12 and 15), one variant for each: an assignment
/// with its variable and its expression; a jump to a label; a computed one with its labels and its expression; an arithmetic
/// IF with its expression and its three labels; CONTINUE; RETURN; STOP with its code where it has one; CALL with its
/// subroutine and its actual arguments; and those of input and output.
#[derive(Debug, Drop)]
pub enum Stmt77 {
    Assign(Expr, Expr),
    Goto(u32),
    Computed(Labels77, Expr),
    Arithmetic(Expr, u32, u32, u32),
    Continue,
    Return,
    Stop(Option<StopCode>),
    Call(Name, Exprs),
    Read(Boxed<ReadBy77>, Listeds77),
    Write(Boxed<Control77>, Listeds77),
    Print(FormatRef77, Listeds77),
    Open(Boxed<FileControl77>),
    Close(Boxed<FileControl77>),
    Rewind(Boxed<FileControl77>),
}

/// A statement by itself: a header, a declaration, a statement function with its dummies and its expression (X3.9 section
/// 15.4), a simple executable statement, a logical IF (X3.9 section 11.5), the statements of a block IF (X3.9 sections 11.6
/// to 11.9), a DO with the label of its terminal statement (X3.9 section 11.10), or END (X3.9 section 11.14).
///
/// A statement function with dummies has the form of an assignment to an array element, and is read as one: its unit tells
/// which it is.
#[derive(Debug, Drop)]
pub enum Statement77 {
    Header(Header77),
    Declared(Declared77),
    StmtFunction(Name, Names77, Expr),
    Simple(Stmt77),
    Guarded(Expr, Boxed<Stmt77>),
    IfThen(Expr),
    ElseIf(Expr),
    Else,
    EndIf,
    Do(u32, Boxed<Range77>),
    End,
}
