// What a statement counts as for the order of statements, its keyword, and where it may stand.
ghost use Rattle.std.specs.Prelude.{◌≡◌, ◌∷◌, ◌++◌, [], ℕ, List, false};
ghost use Rattle.tree77.specs.StatementPlain.{type_of, header_of, declared_of, simple_of, statement_of};
ghost use Rattle.order77.specs.Counts.{Reading, simple_sort, kind_of, counts_declared, counts_simple, counts_of, unless_end, counts_as, counts_nothing, counts_declaration, counts_action, kind_by, is_main, is_block_data, is_misplaced, sort_in, is_end};
ghost use Rattle.order77.specs.Keywords.{header_keyword, type_keyword, declared_keyword, simple_keyword, keyword};
ghost use Rattle.order77.specs.ReadViews.{reading_at};
ghost use Rattle.order77.specs.Standings.{standing_of};

use crate::mark::{Counts, Sort, Standing, UnitKind};
use crate::read::ReadStatement;
use tree77::{Declared77, Header77, Statement77, Stmt77, Type77};

// ---- what a statement counts as

// The kind of a unit with the header.
fn kind_of(header: &Header77) -> UnitKind
    ensures { result ≡ kind_of (header_of header.now) }
{
    match header {
        Header77::Program(_) => UnitKind::Main,
        Header77::Subroutine(_, _) => UnitKind::Subroutine,
        Header77::Function(_, _, _) => UnitKind::Function,
        Header77::BlockData(_) => UnitKind::BlockData,
    }
}

// What a declaration counts as.
fn counts_declared(declared: &Declared77) -> Counts
    ensures { result ≡ counts_declared (declared_of declared.now) }
{
    match declared {
        Declared77::Implicit(_) => Counts::Implicit,
        Declared77::Parameter(_) => Counts::Parameter,
        Declared77::Data(_) | Declared77::Format(_) => Counts::Anywhere,
        Declared77::Typed(_, _)
        | Declared77::Dimension(_)
        | Declared77::Common(_)
        | Declared77::Equivalence(_)
        | Declared77::External(_)
        | Declared77::Intrinsic(_)
        | Declared77::Save(_) => Counts::Declaration,
    }
}

// What nesting asks of a simple statement.
fn simple_sort(simple: &Stmt77) -> Sort
    ensures { result ≡ simple_sort (simple_of simple.now) }
{
    match simple {
        Stmt77::Goto(_) | Stmt77::Arithmetic(_, _, _, _) | Stmt77::Return | Stmt77::Stop(_) => {
            Sort::Leaving
        }
        Stmt77::Assign(_, _)
        | Stmt77::Computed(_, _)
        | Stmt77::Continue
        | Stmt77::Call(_, _)
        | Stmt77::Read(_, _)
        | Stmt77::Write(_, _)
        | Stmt77::Print(_, _)
        | Stmt77::Open(_)
        | Stmt77::Close(_)
        | Stmt77::Rewind(_) => Sort::Plain,
    }
}

// What a simple statement of this sort counts as, by itself or in a logical IF.
fn counts_simple(simple: &Stmt77, sort: Sort) -> Counts
    ensures { result ≡ counts_simple (simple_of simple.now) sort }
{
    match simple {
        Stmt77::Return => Counts::Return(sort),
        Stmt77::Assign(_, _)
        | Stmt77::Goto(_)
        | Stmt77::Computed(_, _)
        | Stmt77::Arithmetic(_, _, _, _)
        | Stmt77::Continue
        | Stmt77::Stop(_)
        | Stmt77::Call(_, _)
        | Stmt77::Read(_, _)
        | Stmt77::Write(_, _)
        | Stmt77::Print(_, _)
        | Stmt77::Open(_)
        | Stmt77::Close(_)
        | Stmt77::Rewind(_) => Counts::Executable(sort),
    }
}

/// What a statement counts as (X3.9 section 3.5).
pub fn counts_of(statement: &Statement77) -> Counts
    ensures { result ≡ counts_of (statement_of statement.now) }
{
    match statement {
        Statement77::Header(header) => Counts::Header(kind_of(header)),
        Statement77::Declared(declared) => counts_declared(declared),
        Statement77::StmtFunction(_, _, _) => Counts::Function,
        Statement77::Simple(simple) => counts_simple(simple, simple_sort(simple)),
        Statement77::Guarded(_, simple) => counts_simple(simple.get(), Sort::Plain),
        Statement77::IfThen(_) => Counts::Executable(Sort::If),
        Statement77::ElseIf(_) => Counts::Executable(Sort::ElseIf),
        Statement77::Else => Counts::Executable(Sort::Else),
        Statement77::EndIf => Counts::Executable(Sort::EndIf),
        Statement77::Do(terminal, _) => Counts::Executable(Sort::Do(*terminal)),
        Statement77::End => Counts::End,
    }
}

// What a refused statement counts as, by what stands for it.
fn unless_end(counts: Counts) -> Counts
    ensures { result ≡ unless_end counts }
{
    match counts {
        Counts::End => Counts::Outside,
        Counts::Header(_)
        | Counts::Implicit
        | Counts::Parameter
        | Counts::Declaration
        | Counts::Function
        | Counts::Anywhere
        | Counts::Executable(_)
        | Counts::Return(_)
        | Counts::Outside
        | Counts::Nothing => counts,
    }
}

/// What a statement of a file counts as, as it was read.
pub fn counts_as(read: &ReadStatement) -> Counts
    ensures { (n : ℕ) → result ≡ counts_as (reading_at n read.now) }
{
    let Some(statement) = &read.statement else {
        return Counts::Nothing;
    };
    match &read.refusal {
        Some(_) => unless_end(counts_of(statement)),
        None => counts_of(statement),
    }
}

/// The sort of what is nested.
pub fn sort_in(counts: Counts) -> Option<Sort>
    ensures { result ≡ sort_in counts }
{
    match counts {
        Counts::Executable(sort) | Counts::Return(sort) => Some(sort),
        Counts::Header(_)
        | Counts::Implicit
        | Counts::Parameter
        | Counts::Declaration
        | Counts::Function
        | Counts::Anywhere
        | Counts::End
        | Counts::Outside
        | Counts::Nothing => None,
    }
}

// ---- keywords

// The keyword of a header.
fn header_keyword(header: &Header77) -> &'static str
    ensures { result.now ≡ header_keyword (header_of header.now) }
{
    match header {
        Header77::Program(_) => "PROGRAM",
        Header77::Subroutine(_, _) => "SUBROUTINE",
        Header77::Function(_, _, _) => "FUNCTION",
        Header77::BlockData(_) => "BLOCKDATA",
    }
}

// The keyword of a type.
fn type_keyword(of: &Type77) -> &'static str
    ensures { result.now ≡ type_keyword (type_of of.now) }
{
    match of {
        Type77::Integer => "INTEGER",
        Type77::Logical => "LOGICAL",
        Type77::Character(_) => "CHARACTER",
    }
}

// The keyword of a declaration.
fn declared_keyword(declared: &Declared77) -> &'static str
    ensures { result.now ≡ declared_keyword (declared_of declared.now) }
{
    match declared {
        Declared77::Implicit(_) => "IMPLICIT",
        Declared77::Parameter(_) => "PARAMETER",
        Declared77::Typed(of, _) => type_keyword(of),
        Declared77::Dimension(_) => "DIMENSION",
        Declared77::Common(_) => "COMMON",
        Declared77::Equivalence(_) => "EQUIVALENCE",
        Declared77::External(_) => "EXTERNAL",
        Declared77::Intrinsic(_) => "INTRINSIC",
        Declared77::Save(_) => "SAVE",
        Declared77::Data(_) => "DATA",
        Declared77::Format(_) => "FORMAT",
    }
}

// The keyword of a simple statement.
fn simple_keyword(simple: &Stmt77) -> &'static str
    ensures { result.now ≡ simple_keyword (simple_of simple.now) }
{
    match simple {
        Stmt77::Assign(_, _) => "=",
        Stmt77::Goto(_) | Stmt77::Computed(_, _) => "GOTO",
        Stmt77::Arithmetic(_, _, _, _) => "IF",
        Stmt77::Continue => "CONTINUE",
        Stmt77::Return => "RETURN",
        Stmt77::Stop(_) => "STOP",
        Stmt77::Call(_, _) => "CALL",
        Stmt77::Read(_, _) => "READ",
        Stmt77::Write(_, _) => "WRITE",
        Stmt77::Print(_, _) => "PRINT",
        Stmt77::Open(_) => "OPEN",
        Stmt77::Close(_) => "CLOSE",
        Stmt77::Rewind(_) => "REWIND",
    }
}

/// The keyword of a statement, without blanks; `=` for an assignment or a statement function.
pub fn keyword(statement: &Statement77) -> &'static str
    ensures { result.now ≡ keyword (statement_of statement.now) }
{
    match statement {
        Statement77::Header(header) => header_keyword(header),
        Statement77::Declared(declared) => declared_keyword(declared),
        Statement77::StmtFunction(_, _, _) => "=",
        Statement77::Simple(simple) => simple_keyword(simple),
        Statement77::Guarded(_, _) | Statement77::IfThen(_) => "IF",
        Statement77::ElseIf(_) => "ELSEIF",
        Statement77::Else => "ELSE",
        Statement77::EndIf => "ENDIF",
        Statement77::Do(_, _) => "DO",
        Statement77::End => "END",
    }
}

// ---- what stands before a statement in its unit

// Whether it is a statement without spelling.
fn counts_nothing(counts: Counts) -> bool
    ensures { result ≡ counts_nothing counts }
{
    counts == Counts::Nothing
}

// Whether it is a declaration but IMPLICIT and PARAMETER.
fn counts_declaration(counts: Counts) -> bool
    ensures { result ≡ counts_declaration counts }
{
    counts == Counts::Declaration
}

/// Whether it is executable.
pub fn counts_action(counts: Counts) -> bool
    ensures { result ≡ counts_action counts }
{
    match counts {
        Counts::Executable(_) | Counts::Return(_) | Counts::Outside => true,
        Counts::Header(_)
        | Counts::Implicit
        | Counts::Parameter
        | Counts::Declaration
        | Counts::Function
        | Counts::Anywhere
        | Counts::End
        | Counts::Nothing => false,
    }
}

// The kind that the first statement of a unit gives it.
fn kind_by(counts: Counts) -> UnitKind
    ensures { result ≡ kind_by counts }
{
    match counts {
        Counts::Header(kind) => kind,
        Counts::Implicit
        | Counts::Parameter
        | Counts::Declaration
        | Counts::Function
        | Counts::Anywhere
        | Counts::Executable(_)
        | Counts::Return(_)
        | Counts::End
        | Counts::Outside
        | Counts::Nothing => UnitKind::Main,
    }
}

/// What stands before the first statement of a unit.
pub fn first_standing() -> Standing
    ensures { result ≡ standing_of [] }
{
    Standing {
        is_first: true,
        kind: UnitKind::Main,
        is_declared: false,
        is_executed: false,
    }
}

/// What stands before the next statement, behind one that counts as this and isn't END.
#[tactic(auto, using(crate::proofs::StandingLemmas::standing_more))]
pub fn next_standing(standing: Standing, counts: Counts) -> Standing
    ensures { (before : List Reading) (r : Reading) → standing ≡ standing_of before → counts_as r ≡ counts → is_end counts ≡ false → result ≡ standing_of (before ++ r ∷ []) }
{
    let is_first = standing.is_first && counts_nothing(counts);
    let kind = if standing.is_first {
        kind_by(counts)
    } else {
        standing.kind
    };
    let is_declared = standing.is_declared || counts_declaration(counts);
    let is_executed = standing.is_executed || counts_action(counts);
    Standing {
        is_first,
        kind,
        is_declared,
        is_executed,
    }
}

/// Whether a statement may not stand there.
pub fn is_misplaced(standing: Standing, counts: Counts) -> bool
    ensures { (before : List Reading) → standing ≡ standing_of before → result ≡ is_misplaced before counts }
{
    match counts {
        Counts::Header(_) => !standing.is_first,
        Counts::Implicit => standing.is_declared || standing.is_executed,
        Counts::Parameter | Counts::Declaration | Counts::Function => standing.is_executed,
        Counts::Executable(_) | Counts::Outside => standing.kind == UnitKind::BlockData,
        Counts::Return(_) => {
            standing.kind == UnitKind::BlockData || standing.kind == UnitKind::Main
        }
        Counts::Anywhere | Counts::End | Counts::Nothing => false,
    }
}
