//! Lists that contracts see as their items alone.
ghost use Rattle.std.specs.Prelude.{◌≡◌, ◌++◌, ◌∷◌, [], OnErr, OnOk};
ghost use Rattle.std.specs.List.{All};
ghost use Rattle.dma_script.specs.Interpreted.{PrintsLines, StopsAtALine};

use crate::interpreter::Interpreter;
use std::alloc::{AllocError, Global};
use std::marker::Model;

/// A list of the lines or the jobs of a script. Contracts see only its items.
#[derive(Drop)]
pub struct List<T> {
    items: Vec<T>,
}

impl<T> Model for List<T> {
    ghost use Rattle.std.specs.Prelude.{List as Sequence};

    ghost Value = { Sequence T };

    ghost view = { λ list. list.items.items };
}

impl<T: Drop> List<T> {
    /// Returns a list without items, which takes no memory.
    pub(crate) fn new(alloc: Global) -> List<T>
        ensures { result ≡ [] }
    {
        let items = Vec::new(alloc);
        List { items }
    }

    /// Returns the items.
    pub fn as_slice(&self) -> &[T]
        ensures { result.now ≡ self.now }
    {
        self.items.as_slice()
    }

    /// Returns the items in a vector of their own, which takes no memory.
    pub fn into_vec(self) -> Vec<T>
        ensures { result.items ≡ self }
    {
        self.items
    }

    /// Reserves memory for this many more items, so that they are copied less often while the list grows. Reserves
    /// nothing if memory runs out.
    pub(crate) fn reserve(&mut self, more: usize)
        ensures { self.new ≡ self.old }
    {
        let _ = self.items.reserve(more);
    }

    /// Adds an item at the end. If it is out of memory, the list is unchanged.
    pub(crate) fn push(&mut self, item: T) -> Result<(), AllocError>
        ensures ok { OnOk result (self.new ≡ self.old ++ item ∷ []) }
        ensures err { OnErr result (self.new ≡ self.old) }
    {
        self.items.reserve(1)?;
        self.items.push_reserved(item);
        Ok(())
    }
}

impl<T: Drop> List<T> {
    /// Runs the items as lines, one after another. Each is moved to the interpreter.
    ///
    /// If a line is out of memory, fails without running those after it. The complete text of the lines before it has
    /// been appended, so no printed text is lost, and text is missing only after such a failure.
    pub fn run<I: Interpreter<Line = T>>(
        self,
        interpreter: &mut I,
        out: &mut Vec<u8>,
    ) -> Result<(), AllocError>
        requires taken { All I.takes self }
        requires ready { I.is_ready interpreter.old }
        ensures ok { OnOk result (PrintsLines I.acts
            interpreter.old self interpreter.new out.old.items out.new.items) }
        ensures ready_again { OnOk result (I.is_ready interpreter.new) }
        ensures err { OnErr result (StopsAtALine I.acts I.is_refused
            interpreter.old self interpreter.new out.old.items out.new.items) }
    {
        let mut left = self.items.into_iter();
        while let Some(line) = left.next() {
            interpreter.interpret(line, out)?;
        }
        Ok(())
    }
}
