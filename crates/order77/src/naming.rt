// The name of the last unit of a file.
ghost use Rattle.std.specs.Prelude.{◌≡◌, ℕ, ◌∷◌, List, flat_map};
ghost use Rattle.std.specs.Option.{option_map};
ghost use Rattle.tree77.specs.StatementPlain.{header_of, statement_of};
ghost use Rattle.order77.specs.Counts.{Reading};
ghost use Rattle.order77.specs.Naming as plain;
ghost use Rattle.order77.specs.Naming.{header_name, own_names, name_behind, lent_name};
ghost use Rattle.order77.specs.Names.{as_list};
ghost use Rattle.order77.specs.ReadViews.{reading_at, readings_of};

use crate::counts::counts_as;
use crate::mark::Counts;
use crate::read::ReadStatement;
use text_base::Name;
use tree77::{Header77, Statement77};

/// The name that a header gives its unit, if any.
fn header_name(header: &Header77) -> Option<&Name>
    ensures { lent_name result ≡ header_name (header_of header.now) }
{
    match header {
        Header77::Program(name) | Header77::Subroutine(name, _) | Header77::Function(_, name, _) =>
            { Some(name) }
        Header77::BlockData(Some(name)) => Some(name),
        Header77::BlockData(None) => None,
    }
}

/// The name that a statement gives its unit, if it is its first one.
fn own_name(statement: &Option<Statement77>) -> Option<&Name>
    ensures { lent_name result ≡ flat_map own_names (as_list (option_map statement_of statement.now)) }
{
    match statement {
        Some(Statement77::Header(header)) => header_name(header),
        _ => None,
    }
}

/// What is known of a unit: whether no statement of it stood so far, and its name, if any.
#[derive(Clone, Copy)]
struct Naming<'a> {
    is_first: bool,
    name: Option<&'a Name>,
}

impl<'a> Naming<'a> {
    /// Goes on behind a statement.
    fn step(self, read: &'a ReadStatement) -> Naming<'a>
        ensures { (n : ℕ) (rest : List Reading) → name_behind self.entry.is_first (lent_name self.entry.name) (reading_at n read.now ∷ rest) ≡ name_behind result.is_first (lent_name result.name) rest }
    {
        match counts_as(read) {
            Counts::End => Naming {
                is_first: true,
                name: None,
            },
            Counts::Nothing => self,
            _ => {
                if self.is_first {
                    Naming {
                        is_first: false,
                        name: own_name(&read.statement),
                    }
                } else {
                    Naming {
                        is_first: false,
                        name: self.name,
                    }
                }
            }
        }
    }
}

/// The name of the header of the last unit of a file, `MAIN` where it has none.
pub fn last_name(statements: &[ReadStatement]) -> &[u8]
    ensures { result.now ≡ plain.last_name (readings_of statements.now) }
{
    let mut naming = Naming {
        is_first: true,
        name: None,
    };
    for read in statements {
        naming = naming.step(read);
    }
    match naming.name {
        Some(name) => name.as_slice(),
        None => b"MAIN",
    }
}
