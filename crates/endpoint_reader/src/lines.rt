//! Bodies as tables of lines.

ghost use Rattle.std.specs.Prelude.{◌≡◌, ◌<◌, ◌++◌, ◌∷◌, [], All, IfOk, OnOk, OnErr, length};
ghost use Rattle.endpoint_reader.specs.Lines.{nexts_of, IsClosed};

use crate::input::Named;
use crate::lists::Signature;
use crate::node::Action;
use chor_base::{Expr, List, Memory, Place};
use std::alloc::Global;

/// The number of a line in its table.
#[derive(Clone, Copy, Debug, PartialEq, Eq)]
pub struct LineId(pub u32);

/// A label of a branch, and the line with which its body begins.
#[derive(Clone, Copy, PartialEq, Eq)]
pub struct Arm {
    pub label: Named,
    pub body: LineId,
}

/// A node of a body, with where its names stand, and where it goes on.
#[derive(Drop)]
pub enum Line {
    Act(Action, LineId),
    Branch(Named, Named, List<Arm>),
    If(Expr, LineId, LineId),
    /// A call, with the place of its first word.
    Call(Place, Signature),
    End,
}

/// Lines, each after those that follow it.
#[derive(Drop)]
pub struct Lines {
    pub items: List<Line>,
    ghost closed: { IsClosed items },
}

impl Lines {
    /// No lines. It takes no memory.
    pub fn new(alloc: Global) -> Self
        ensures { result.items ≡ [] }
    {
        Lines {
            items: List::new(alloc),
        }
    }

    /// Adds a line. A table of 2^32 - 1 lines answers `Memory`.
    pub fn push(&mut self, line: Line) -> Result<LineId, Memory>
        requires { All (λ next. next.0 < length self.old.items) (nexts_of line) }
        ensures grows { OnOk result (self.new.items ≡ self.old.items ++ line ∷ []) }
        ensures id { IfOk result (λ id. id.0 ≡ length self.old.items) }
        ensures err { OnErr result (self.new ≡ self.old) }
    {
        let id = self.next_id()?;
        self.items.push(line)?;
        Ok(id)
    }

    // The number of the line that is added next.
    fn next_id(&self) -> Result<LineId, Memory>
        ensures { IfOk result (λ id. id.0 ≡ length self.now.items) }
    {
        let count = self.items.len();
        if count >= u32::MAX as usize {
            return Err(Memory);
        }
        Ok(LineId(count as u32))
    }
}
