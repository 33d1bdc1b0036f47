// What a unit says of each of its names.
ghost use Rattle.std.specs.Prelude.{◌≡◌, [], IfOk, OnOk};
ghost use Rattle.names77.specs.Rows.{blank, taken, with_fact, row_in, has_name, with_note, with_notes, rows_of};
ghost use Rattle.names77.specs.Views.{shown_fact, shown_note, shown_notes, shown_row, shown_table};

use crate::notes::{Fact, Note};
use crate::role::Allowed;
use crate::types::NameType;
use expr_tree::Expr;
use indexmap::IndexMap;
use std::alloc::{AllocError, Global};
use text_base::Name;
use tree77::Dimension77;

/// All that is said of one name: its type and dimensions; the value of a constant and the dummies of a statement function;
/// whether it is the unit's own function, one of the unit's dummies, or stands in COMMON, EXTERNAL or INTRINSIC; whether its type
/// is given behind its PARAMETER; whether it stands elsewhere than as a dummy of a statement function; and what it may be.
#[derive(Clone, Copy)]
pub struct Row<'a> {
    pub typed: Option<NameType<'a>>,
    pub shape: Option<&'a [Dimension77]>,
    pub value: Option<&'a Expr>,
    pub dummies: Option<&'a [Name]>,
    pub is_result: bool,
    pub is_dummy: bool,
    pub is_common: bool,
    pub is_external: bool,
    pub is_intrinsic: bool,
    pub is_late: bool,
    pub stands: bool,
    pub allowed: Allowed,
}

/// Names in the order in which they were noted first.
#[derive(Drop)]
pub struct Table<'a> {
    pub map: IndexMap<&'a [u8], Row<'a>>,
}

impl<'a> Row<'a> {
    /// Nothing is said.
    pub fn blank() -> Row<'a>
        ensures { shown_row result ≡ blank }
    {
        Row {
            typed: None,
            shape: None,
            value: None,
            dummies: None,
            is_result: false,
            is_dummy: false,
            is_common: false,
            is_external: false,
            is_intrinsic: false,
            is_late: false,
            stands: false,
            allowed: Allowed::Anything,
        }
    }

    // The row with one more fact, which agrees with it. Where two facts are of one kind, the first counts.
    #[tactic(auto, using(crate::proofs::Rows::shown_or, crate::proofs::Rows::shown_some))]
    fn taken(self, fact: Fact<'a>) -> Row<'a>
        ensures { shown_row result ≡ taken (shown_row self.entry) (shown_fact fact.entry) }
    {
        match fact {
            Fact::Typed(name_type) => Row {
                typed: self.typed.or(Some(name_type)),
                is_late: self.is_late | self.value.is_some(),
                ..self
            },
            Fact::Shaped(shape) => Row {
                shape: self.shape.or(Some(shape)),
                ..self
            },
            Fact::Constant(value) => Row {
                value: self.value.or(Some(value)),
                ..self
            },
            Fact::Function(dummies) => Row {
                dummies: self.dummies.or(Some(dummies)),
                ..self
            },
            Fact::Result => Row {
                is_result: true,
                ..self
            },
            Fact::Dummy => Row {
                is_dummy: true,
                ..self
            },
            Fact::Common => Row {
                is_common: true,
                ..self
            },
            Fact::External => Row {
                is_external: true,
                ..self
            },
            Fact::Intrinsic => Row {
                is_intrinsic: true,
                ..self
            },
            _ => self,
        }
    }

    /// The row with one more fact. One that doesn't agree with what the name may be counts for nothing, and where two are of one
    /// kind, the first counts.
    pub fn with_fact(self, fact: Fact<'a>) -> Row<'a>
        ensures { shown_row result ≡ with_fact (shown_row self.entry) (shown_fact fact.entry) }
    {
        let allowed = fact.allowed();
        if !self.allowed.agrees(allowed) {
            return self;
        }
        Row {
            allowed: self.allowed.narrowed(allowed),
            stands: self.stands | fact.is_standing(),
            ..self.taken(fact)
        }
    }
}

impl<'a> Table<'a> {
    /// No names.
    pub fn new(alloc: Global) -> Table<'a>
        ensures { shown_table result ≡ [] }
    {
        Table {
            map: IndexMap::new(alloc),
        }
    }

    /// What is said of a name.
    #[tactic(auto, using(crate::proofs::Rows::looked_up))]
    pub fn row(&self, name: &[u8]) -> Row<'a>
        ensures { shown_row result ≡ row_in (shown_table self.now) name.now }
    {
        match self.map.get(name) {
            Some(row) => *row,
            None => Row::blank(),
        }
    }

    /// Whether the name was noted.
    #[tactic(auto, using(crate::proofs::Rows::has_looked_up))]
    pub fn has(&self, name: &[u8]) -> bool
        ensures { result ≡ has_name (shown_table self.now) name.now }
    {
        self.map.contains_key(name)
    }

    /// One more note.
    pub fn add(&mut self, note: Note<'a>) -> Result<(), AllocError>
        ensures { OnOk result (shown_table self.new ≡ with_note (shown_table self.old) (shown_note note.entry)) }
    {
        let row = self.row(note.key).with_fact(note.fact);
        self.map.insert(note.key, row)?;
        Ok(())
    }

    /// More notes, one after another.
    pub fn add_all(&mut self, notes: &[Note<'a>]) -> Result<(), AllocError>
        ensures { OnOk result (shown_table self.new ≡ with_notes (shown_table self.old) (shown_notes notes.now)) }
    {
        for note in notes {
            self.add(*note)?;
        }
        Ok(())
    }
}

/// The table of all notes of a unit. It fails for want of memory alone.
#[tactic(auto, using(crate::proofs::Rows::one_name))]
pub fn rows_of<'a>(alloc: Global, notes: &[Note<'a>]) -> Result<Table<'a>, AllocError>
    ensures { IfOk result (λ table. shown_table table ≡ rows_of (shown_notes notes.now)) }
{
    let mut table = Table::new(alloc);
    table.add_all(notes)?;
    Ok(table)
}
