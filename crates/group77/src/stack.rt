// A stack of values.
ghost use Rattle.std.specs.Prelude.{◌≡◌, ◌↔◌, [], ◌∷◌, length, IfOk, OnOk, IsTrue, MatchOption, slice_get};
ghost use Rattle.std.specs.Option.{option_copied};

use sqlite_items::Items;
use std::alloc::{AllocError, Global};
use std::marker::Model;

/// A stack, which contracts see as the list of its values from the top down.
#[derive(Drop)]
pub struct Stack<T> {
    values: Items<T>,
}

impl<T> Model for Stack<T> {
    ghost use Rattle.std.specs.Prelude.{List, reverse};
    ghost use Rattle.std.specs.Coded.{coded_list};

    ghost Value = { List T };

    ghost coded = { coded_list T.code };

    ghost view = { λ stack. reverse stack.values };
}

impl<T> Stack<T> {
    pub fn new(alloc: Global) -> Stack<T>
        ensures { result ≡ [] }
    {
        Stack {
            values: Items::new(alloc),
        }
    }

    /// How many values there are.
    pub fn len(&self) -> usize
        ensures { result ≡ length self.now }
    {
        self.values.len()
    }

    /// Whether there is no value.
    pub fn is_empty(&self) -> bool
        ensures { IsTrue result ↔ (self.now ≡ []) }
    {
        self.values.is_empty()
    }

    /// The value on top.
    pub fn top(&self) -> Option<&T>
        ensures { option_copied result ≡ slice_get self.now 0 }
    {
        self.values.as_slice().last()
    }

    /// Takes the value on top.
    pub fn pop(&mut self) -> Option<T>
        ensures { MatchOption result ((self.old ≡ []) × (self.new ≡ [])) (λ top. self.old ≡ top ∷ self.new) }
    {
        self.values.pop()
    }
}

impl<T: Drop> Stack<T> {
    /// No value, and room for so many. It fails for want of memory alone.
    fn with_room(alloc: Global, count: usize) -> Result<Stack<T>, AllocError>
        ensures { IfOk result (λ stack. stack ≡ []) }
    {
        Ok(Stack {
            values: Items::from_vec(Vec::with_capacity(alloc, count)?),
        })
    }

    /// Puts a value on top. It fails for want of memory alone.
    pub fn push(&mut self, value: T) -> Result<(), AllocError>
        ensures { OnOk result (self.new ≡ value ∷ self.old) }
    {
        self.values.push(value)
    }

    /// The values of a list, the first on top. It fails for want of memory alone.
    pub fn from_items(alloc: Global, mut items: Items<T>) -> Result<Stack<T>, AllocError>
        ensures { IfOk result (λ stack. stack ≡ items) }
    {
        let mut stack = Stack::with_room(alloc, items.len())?;
        while let Some(last) = items.pop() {
            stack.push(last)?;
        }
        Ok(stack)
    }
}
