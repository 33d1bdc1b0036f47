// Sets of names and of labels that grow as statements are gone through.
ghost use Rattle.std.specs.Prelude.{◌≡◌, ◌==◌, ◌++◌, [], not, filter, length, OnOk};
ghost use Rattle.std.specs.List.{list_any};
ghost use Rattle.std.specs.Str.{bytes_eq};
ghost use Rattle.text_base.specs.Names.{expr_names};
ghost use Rattle.expr_tree.specs.Plain.{expr_of};
ghost use Rattle.tree77.specs.declared.statement.Equation77.{Equation77};
ghost use Rattle.tree77.specs.StatementPlain.{read_by_of, simple_of, statement_of};
ghost use Rattle.order77.specs.Names.{is_among, as_list, read_jumps, simple_jumps, jumps, arrays, uses, constants};
ghost use Rattle.order77.specs.NameSets.{with_one, with_names, with_labels, lent, names_in, labels_in};

use crate::uses::{declared_arrays, declared_uses, expr_uses, header_uses};
use expr_tree::Expr;
use indexmap::IndexSet;
use sqlite_items::Items;
use std::alloc::{AllocError, Global};
use text_base::Name;
use tree77::{Declared77, Equation77, ReadBy77, Statement77, Stmt77};

/// Names of statements, each once.
#[derive(Drop)]
pub struct Names<'a> {
    alloc: Global,
    keys: IndexSet<&'a [u8]>,
}

impl<'a> Names<'a> {
    /// No names. It takes no memory yet.
    pub fn new(alloc: Global) -> Names<'a>
        ensures { names_in result ≡ [] }
    {
        Names {
            alloc,
            keys: IndexSet::new(alloc),
        }
    }

    // Adds a name.
    fn add(&mut self, name: &'a [u8]) -> Result<(), AllocError>
        ensures { OnOk result (names_in self.new ≡ with_one bytes_eq (names_in self.old) name.now) }
    {
        self.keys.insert(name)?;
        Ok(())
    }

    // Adds names, one after another.
    #[tactic(auto, using(crate::proofs::NameLemmas::name_steps))]
    fn add_all(&mut self, names: &[&'a [u8]]) -> Result<(), AllocError>
        ensures { OnOk result (names_in self.new ≡ with_names (names_in self.old) (lent names.now)) }
    {
        for name in names {
            self.add(*name)?;
        }
        Ok(())
    }

    // Adds the dummies of a statement function.
    #[tactic(auto, using(crate::proofs::NameLemmas::name_steps))]
    fn add_dummies(&mut self, dummies: &'a [Name]) -> Result<(), AllocError>
        ensures { OnOk result (names_in self.new ≡ with_names (names_in self.old) dummies.now) }
    {
        for dummy in dummies {
            self.add(dummy.as_slice())?;
        }
        Ok(())
    }

    // Adds the names that stand in no other set.
    #[tactic(auto, using(crate::proofs::NameLemmas::name_steps))]
    fn add_others(&mut self, names: &[&'a [u8]], held: &Names<'a>) -> Result<(), AllocError>
        ensures { OnOk result (names_in self.new ≡ with_names (names_in self.old) (filter (λ y. not (is_among (names_in held.now) y)) (lent names.now))) }
    {
        for name in names {
            if !held.has(*name) {
                self.add(*name)?;
            }
        }
        Ok(())
    }

    // Adds the names of a statement function but its dummies.
    fn add_function(&mut self, dummies: &'a [Name], value: &'a Expr) -> Result<(), AllocError>
        ensures { OnOk result (names_in self.new ≡ with_names (names_in self.old) (filter (λ y. not (is_among dummies.now y)) (expr_names (expr_of value.now)))) }
    {
        let mut held = Names::new(self.alloc);
        held.add_dummies(dummies)?;
        let mut found = Items::new(self.alloc);
        expr_uses(&mut found, value)?;
        self.add_others(found.as_slice(), &held)
    }

    /// Adds the names whose values a header, a declaration or a statement function uses. It fails for want of memory alone.
    pub fn add_uses(&mut self, statement: &'a Statement77) -> Result<(), AllocError>
        ensures { OnOk result (names_in self.new ≡ with_names (names_in self.old) (uses (statement_of statement.now))) }
    {
        match statement {
            Statement77::Header(header) => {
                let mut found = Items::new(self.alloc);
                header_uses(&mut found, header)?;
                self.add_all(found.as_slice())
            }
            Statement77::Declared(declared) => {
                let mut found = Items::new(self.alloc);
                declared_uses(&mut found, declared)?;
                self.add_all(found.as_slice())
            }
            Statement77::StmtFunction(_, dummies, value) => {
                self.add_function(dummies.as_slice(), value)
            }
            Statement77::Simple(_)
            | Statement77::Guarded(_, _)
            | Statement77::IfThen(_)
            | Statement77::ElseIf(_)
            | Statement77::Else
            | Statement77::EndIf
            | Statement77::Do(_, _)
            | Statement77::End => Ok(()),
        }
    }

    /// Adds the names that a declaration gives dimensions. It fails for want of memory alone.
    pub fn add_arrays(&mut self, statement: &'a Statement77) -> Result<(), AllocError>
        ensures { OnOk result (names_in self.new ≡ with_names (names_in self.old) (arrays (statement_of statement.now))) }
    {
        match statement {
            Statement77::Declared(declared) => {
                let mut found = Items::new(self.alloc);
                declared_arrays(&mut found, declared)?;
                self.add_all(found.as_slice())
            }
            Statement77::Header(_)
            | Statement77::StmtFunction(_, _, _)
            | Statement77::Simple(_)
            | Statement77::Guarded(_, _)
            | Statement77::IfThen(_)
            | Statement77::ElseIf(_)
            | Statement77::Else
            | Statement77::EndIf
            | Statement77::Do(_, _)
            | Statement77::End => Ok(()),
        }
    }

    /// Whether a name is among them.
    #[tactic(auto, using(crate::proofs::NameLemmas::among_lent))]
    pub fn has(&self, name: &[u8]) -> bool
        ensures { result ≡ is_among (names_in self.now) name.now }
    {
        self.keys.contains(name)
    }

    // Whether a constant is among them.
    fn has_constant(&self, equations: &[Equation77]) -> bool
        ensures { result ≡ list_any (λ (e : Equation77). is_among (names_in self.now) e.name) equations.now }
    {
        equations
            .iter()
            .any(|equation| self.has(equation.name.as_slice()))
    }

    /// Whether a PARAMETER gives a value to a name that is among them.
    #[tactic(auto, using(crate::proofs::NameLemmas::any_mapped))]
    pub fn is_late(&self, statement: &Statement77) -> bool
        ensures { result ≡ list_any (is_among (names_in self.now)) (constants (statement_of statement.now)) }
    {
        match statement {
            Statement77::Declared(Declared77::Parameter(equations)) => {
                self.has_constant(equations.as_slice())
            }
            _ => false,
        }
    }
}

/// Labels that jumps name, each once.
#[derive(Drop)]
pub struct Labels {
    keys: IndexSet<u32>,
}

impl Labels {
    /// No labels. It takes no memory yet.
    pub fn new(alloc: Global) -> Labels
        ensures { labels_in result ≡ [] }
    {
        Labels {
            keys: IndexSet::new(alloc),
        }
    }

    // Adds a label.
    fn add(&mut self, label: u32) -> Result<(), AllocError>
        ensures { OnOk result (labels_in self.new ≡ with_one (λ x y. x == y) (labels_in self.old) label) }
    {
        self.keys.insert(label)?;
        Ok(())
    }

    // Adds labels, one after another.
    fn add_all(&mut self, labels: &[u32]) -> Result<(), AllocError>
        ensures { OnOk result (labels_in self.new ≡ with_labels (labels_in self.old) labels.now) }
    {
        for label in labels {
            self.add(*label)?;
        }
        Ok(())
    }

    // Adds a label, where there is one.
    fn add_some(&mut self, label: Option<u32>) -> Result<(), AllocError>
        ensures { OnOk result (labels_in self.new ≡ with_labels (labels_in self.old) (as_list label)) }
    {
        match label {
            Some(label) => self.add(label),
            None => Ok(()),
        }
    }

    // Adds the labels of ERR and END.
    fn add_both(&mut self, error: Option<u32>, ending: Option<u32>) -> Result<(), AllocError>
        ensures { OnOk result (labels_in self.new ≡ with_labels (labels_in self.old) (as_list error ++ as_list ending)) }
    {
        self.add_some(error)?;
        self.add_some(ending)
    }

    // Adds the labels that a READ names.
    fn add_read(&mut self, by: &ReadBy77) -> Result<(), AllocError>
        ensures { OnOk result (labels_in self.new ≡ with_labels (labels_in self.old) (read_jumps (read_by_of by.now))) }
    {
        match by {
            ReadBy77::Control(control) => self.add_both(control.error, control.ending),
            ReadBy77::Format(_) => Ok(()),
        }
    }

    // Adds the labels that a simple statement names.
    fn add_simple(&mut self, simple: &Stmt77) -> Result<(), AllocError>
        ensures { OnOk result (labels_in self.new ≡ with_labels (labels_in self.old) (simple_jumps (simple_of simple.now))) }
    {
        match simple {
            Stmt77::Goto(label) => self.add(*label),
            Stmt77::Computed(labels, _) => self.add_all(labels.as_slice()),
            Stmt77::Arithmetic(_, negative, zero, positive) => {
                self.add(*negative)?;
                self.add(*zero)?;
                self.add(*positive)
            }
            Stmt77::Read(by, _) => self.add_read(by.get()),
            Stmt77::Write(control, _) => {
                let control = control.get();
                self.add_both(control.error, control.ending)
            }
            Stmt77::Open(control) | Stmt77::Close(control) | Stmt77::Rewind(control) => {
                self.add_some(control.get().error)
            }
            Stmt77::Assign(_, _)
            | Stmt77::Continue
            | Stmt77::Return
            | Stmt77::Stop(_)
            | Stmt77::Call(_, _)
            | Stmt77::Print(_, _) => Ok(()),
        }
    }

    /// Adds the labels that the jumps of a statement name. It fails for want of memory alone.
    pub fn add_jumps(&mut self, statement: &Statement77) -> Result<(), AllocError>
        ensures { OnOk result (labels_in self.new ≡ with_labels (labels_in self.old) (jumps (statement_of statement.now))) }
    {
        match statement {
            Statement77::Simple(simple) => self.add_simple(simple),
            Statement77::Guarded(_, simple) => self.add_simple(simple.get()),
            Statement77::Header(_)
            | Statement77::Declared(_)
            | Statement77::StmtFunction(_, _, _)
            | Statement77::IfThen(_)
            | Statement77::ElseIf(_)
            | Statement77::Else
            | Statement77::EndIf
            | Statement77::Do(_, _)
            | Statement77::End => Ok(()),
        }
    }

    /// How many labels there are.
    pub fn count(&self) -> usize
        ensures { result ≡ length (labels_in self.now) }
    {
        self.keys.len()
    }
}
