// The units of a file, made of its statements.
ghost use Rattle.std.specs.Prelude.{◌≡◌, ◌∷◌, ◌++◌, ◌<◌, ◌≤◌, ◌+◌, ◌^◌, [], length, map, List, None, true, false, IfOk, OnOk};
ghost use Rattle.std.specs.Option.{option_map};
ghost use Rattle.tree77.specs.StatementPlain.{statement_of};
ghost use Rattle.tree77.specs.Statements as s;
ghost use Rattle.unit77.specs.FileRefusals.{file_refusals};
ghost use Rattle.unit77.specs.Laws.{AreReadOrRefused, IsProgram};
ghost use Rattle.unit77.specs.Nesting.{is_executable, mark};
ghost use Rattle.unit77.specs.Programs.{AreUnits, reading_of, is_header, is_end_statement};
ghost use Rattle.unit77.specs.Running.{heads, fits};
ghost use Rattle.unit77.specs.Tree.{Line};
ghost use Rattle.unit77.specs.UnitViews.{FirstIs, Gathers, HasPartsOf, IsBuild, MayTake, Takes, lines_at, lines_from, unit_of};
ghost use Rattle.order77.specs.ReadViews.{readings_of};
ghost use Rattle.unit77.specs.Units.{file_strays};
ghost use Rattle.unit77.specs.Views.{line, stack_of};

use crate::nester::{Nester, Spot, end_if};
use crate::tree::{
    DeclaredLine77, Declareds, EndIf, HeaderLine77, StmtFunction, StmtFunctions, Unit77, Units77,
};
use order77::ReadStatement;
use sqlite_items::Items;
use std::alloc::{AllocError, Global};
use std::mem;
use text_base::Place;
use tree77::Statement77;

/// A unit of which some statements are gathered: where the first one stands, the header, the declarations, the statement functions,
/// and the executable statements as far as they are nested.
#[derive(Drop)]
pub struct Gathering {
    pub first: Option<(u32, Place)>,
    pub header: Option<HeaderLine77>,
    pub declared: Declareds,
    pub functions: StmtFunctions,
    pub nester: Nester,
}

impl Gathering {
    /// No statement is gathered.
    fn new(alloc: Global) -> Gathering
        ensures { Gathers result [] }
    {
        Gathering {
            first: None,
            header: None,
            declared: Items::new(alloc),
            functions: Items::new(alloc),
            nester: Nester::new(alloc),
        }
    }

    /// Notes where a statement stands, if it is the first one.
    fn begin(&mut self, number: u32, place: Place)
        ensures first { (own : List Line) (l : Line) → FirstIs self.old.first own → l.number ≡ number → l.place ≡ place → FirstIs self.new.first (own ++ l ∷ []) }
        ensures others { self.new ≡ record self.old { first = self.new.first } }
    {
        if self.first.is_none() {
            self.first = Some((number, place));
        }
    }

    /// Adds a statement.
    fn add(&mut self, alloc: Global, at: Spot, statement: Statement77) -> Result<(), AllocError>
        requires not_end { is_end_statement (statement_of statement) ≡ false }
        requires one_header { is_header (statement_of statement) ≡ true → self.old.header ≡ None }
        requires fits { is_executable (statement_of statement) ≡ true → fits (heads (stack_of self.old.nester.open)) (mark (line at.number at.label at.place (statement_of statement))) ≡ true }
        ensures { OnOk result ((own : List Line) → Gathers self.old own → Gathers self.new (own ++ line at.number at.label at.place (statement_of statement) ∷ [])) }
    {
        let Spot {
            number,
            label,
            place,
        } = at;
        self.begin(number, place);
        match statement {
            Statement77::Header(header) => {
                self.header = Some(HeaderLine77 {
                    number,
                    label,
                    place,
                    header,
                });
            }
            Statement77::Declared(declared) => self.declared.push(DeclaredLine77 {
                number,
                label,
                place,
                declared,
            })?,
            Statement77::StmtFunction(name, dummies, value) => {
                self.functions.push(StmtFunction {
                    number,
                    label,
                    place,
                    name,
                    dummies,
                    value,
                })?;
            }
            other => self.nester.step(alloc, at, other)?,
        }
        Ok(())
    }

    /// Ends the unit.
    fn end(self, at: Spot) -> Unit77
        ensures parts { (own : List Line) → Gathers self own → heads (stack_of self.nester.open) ≡ [] → HasPartsOf own (unit_of result) }
        ensures last { (unit_of result).last ≡ line at.number at.label at.place s.end }
    {
        let Gathering {
            first,
            header,
            declared,
            functions,
            nester,
        } = self;
        let (number, place) = first.unwrap_or((at.number, at.place));
        Unit77 {
            number,
            place,
            header,
            declared,
            functions,
            items: nester.items,
            end: end_if(at),
        }
    }
}

/// The units so far, and the one that is gathered.
#[derive(Drop)]
pub struct Building {
    pub units: Units77,
    pub gathering: Gathering,
}

impl Building {
    /// Ends a unit.
    fn end(&mut self, alloc: Global, at: Spot) -> Result<(), AllocError>
        requires { MayTake (line at.number at.label at.place s.end) self.old }
        ensures { OnOk result (Takes self.old self.new (line at.number at.label at.place s.end)) }
    {
        let gathering = mem::replace(&mut self.gathering, Gathering::new(alloc));
        self.units.push(gathering.end(at))?;
        Ok(())
    }

    /// Takes the next statement.
    fn take(&mut self, alloc: Global, at: Spot, statement: Statement77) -> Result<(), AllocError>
        requires { MayTake (line at.number at.label at.place (statement_of statement)) self.old }
        ensures { OnOk result (Takes self.old self.new (line at.number at.label at.place (statement_of statement))) }
    {
        match statement {
            Statement77::End => self.end(alloc, at)?,
            other => self.gathering.add(alloc, at, other)?,
        }
        Ok(())
    }

    /// Takes the next statement as it was read.
    fn take_read(
        &mut self,
        alloc: Global,
        number: u32,
        read: ReadStatement,
    ) -> Result<(), AllocError>
        requires { (all : List Line) × (left : List Line) × IsBuild all (lines_at number read (option_map statement_of read.statement) ++ left) self.old }
        ensures { OnOk result ((all left : List Line) → IsBuild all (lines_at number read (option_map statement_of read.statement) ++ left) self.old → IsBuild all left self.new) }
    {
        let ReadStatement {
            label,
            place,
            statement,
            refusal: _,
        } = read;
        let at = Spot {
            number,
            label,
            place,
        };
        match statement {
            Some(statement) => self.take(alloc, at, statement)?,
            None => {}
        }
        Ok(())
    }
}

/// The units that statements are of which nothing is refused.
fn built(alloc: Global, statements: Vec<ReadStatement>) -> Result<Units77, AllocError>
    requires room { length statements.items < 2 ^ 32 }
    requires read { map reading_of (lines_from 0 statements.items) ≡ readings_of statements.items }
    requires accepted { file_strays (readings_of statements.items) ≡ [] }
    ensures { IfOk result (λ us. AreUnits (lines_from 0 statements.items) (map unit_of us)) }
{
    let mut building = Building {
        units: Items::new(alloc),
        gathering: Gathering::new(alloc),
    };
    let mut number = 0;
    for read in statements {
        building.take_read(alloc, number, read)?;
        number += 1;
    }
    Ok(mem::replace(&mut building.units, Items::new(alloc)))
}

/// The units of a file (X3.9 section 2.4), of which nothing is refused.
///
/// In: the statements of the file as they were read, statement functions told from assignments. Their trees become those of the
/// units.
///
/// Out: the units, in order. It fails for want of memory alone.
pub fn nest_units(alloc: Global, statements: Vec<ReadStatement>) -> Result<Units77, AllocError>
    requires room { length statements.items < 2 ^ 32 }
    requires read { AreReadOrRefused (readings_of statements.items) }
    requires accepted { file_refusals (readings_of statements.items) ≡ [] }
    ensures { IfOk result (λ us. IsProgram (readings_of statements.items) (map unit_of us)) }
{
    let units = built(alloc, statements)?;
    Ok(units)
}
