// Where the open DOs stand, by the label of their terminal statement.
ghost use Rattle.std.specs.Prelude.{◌≡◌, ℕ, ◌==◌, [], ◌∷◌, ◌++◌, if◌then◌else◌, OnOk};
ghost use Rattle.unit77.specs.Checking.{loops_for, loop_at};

use indexmap::IndexMap;
use order77::{Mark, Sort};
use sqlite_items::Items;
use std::alloc::{AllocError, Global};

/// An open DO, and where it stands among the constructs that were begun.
#[derive(Clone, Copy)]
pub struct OpenLoop {
    pub at: usize,
    pub mark: Mark,
}

/// For each label the open DOs that name it, the innermost last.
#[derive(Drop)]
pub struct OpenLoops {
    pub map: IndexMap<u32, Items<OpenLoop>>,
}

impl OpenLoops {
    /// No DO is open.
    pub fn new(alloc: Global) -> OpenLoops
        ensures { (k : ℕ) → loops_for result k ≡ [] }
    {
        OpenLoops {
            map: IndexMap::new(alloc),
        }
    }

    /// Moves out the DOs that name a label.
    pub fn take(&mut self, alloc: Global, label: u32) -> Items<OpenLoop>
        ensures found { result ≡ loops_for self.old label }
        ensures others { (k : ℕ) → loops_for self.new k ≡ (if k == label then [] else loops_for self.old k) }
    {
        match self.map.swap_remove(&label) {
            Some(loops) => loops,
            None => Items::new(alloc),
        }
    }

    /// Adds a DO behind the others that name the label.
    fn add(&mut self, alloc: Global, label: u32, begun: OpenLoop) -> Result<(), AllocError>
        ensures { OnOk result ((k : ℕ) → loops_for self.new k ≡ loops_for self.old k ++ (if label == k then begun ∷ [] else [])) }
    {
        let mut loops = self.take(alloc, label);
        loops.push(begun)?;
        self.map.insert(label, loops)?;
        Ok(())
    }

    /// Adds a construct, which stands at a place, if it is a DO.
    pub fn note(&mut self, alloc: Global, at: usize, mark: Mark) -> Result<(), AllocError>
        ensures { OnOk result ((k : ℕ) → loops_for self.new k ≡ loops_for self.old k ++ loop_at k at (Some mark)) }
    {
        match mark.sort {
            Sort::Do(terminal) => self.add(alloc, terminal, OpenLoop { at, mark }),
            _ => Ok(()),
        }
    }
}
