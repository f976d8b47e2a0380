//! What runs the statements of a script, and defines what is printed when a statement is out of memory.
ghost use Rattle.std.specs.Prelude.{◌≡◌, OnErr, OnOk};
ghost use Rattle.dma_script.specs.Interpreted.{PrintsLine};

use std::alloc::AllocError;

/// Runs the lines of a script, one after another, and prints what each of them says.
pub trait Interpreter {
    ghost use Rattle.std.specs.Prelude.{ℕ, List};

    /// A line, as it was read.
    type Line: Drop;

    // Which lines it accepts.
    ghost takes: { Self.Line → Type 0 } = { λ _. Unit {0} };

    // Its invariant between two lines.
    ghost is_ready: { Self → Type 0 } = { λ _. Unit {0} };

    // How a line can run: the state before, the line, the lines that it prints, and the state after.
    ghost acts: { Self → Self.Line → List (List ℕ) → Self → Type 0 };

    // How a line can be out of memory: the state before, the line, and the state after. The default always holds: such
    // an interpreter may be out of memory at any time.
    ghost is_refused: { Self → Self.Line → Self → Type 0 } = { λ _ _ _. Unit {0} };

    /// Runs a line and appends what it prints. Appends nothing if it is out of memory.
    fn interpret(&mut self, line: Self::Line, out: &mut Vec<u8>) -> Result<(), AllocError>
        requires taken { takes line }
        requires ready { is_ready self.old }
        ensures ok { OnOk result
            (PrintsLine (acts self.old line) self.new out.old.items out.new.items) }
        ensures ready_again { OnOk result (is_ready self.new) }
        ensures refused { OnErr result (is_refused self.old line self.new) }
        ensures err { OnErr result (out.new.items ≡ out.old.items) };
}
