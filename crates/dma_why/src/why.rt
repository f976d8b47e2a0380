//! Why each channel is where it is after a script.

ghost use Rattle.std.specs.Prelude.{◌≡◌, ◌==◌, ◌++◌, IfOk, Ok, OnErr, OnOk, is_some, not};
ghost use Rattle.std.specs.Result.{result_err};
ghost use Rattle.dma_io.specs.Command.{printed_text};
ghost use Rattle.dma_script.specs.Statements.{IsWithin, run_script_of};
ghost use Rattle.dma_why.specs.Laws.{CirclesStayAfter};
ghost use Rattle.dma_why.specs.Why.{why_printed, why_printed_of};

use crate::lines::push_explanation;
use dma_commands::run::engine_after;
use dma_io::printing::print_line;
use dma_script::fault::{Fault, ScriptError};
use dma_script::statements::{RunScript, read_run_script};
use std::alloc::{AllocError, Global};

/// Executes a script, and appends why each channel is where it is after it.
fn push_why(alloc: Global, script: RunScript, out: &mut Vec<u8>) -> Result<(), AllocError>
    requires { IsWithin script }
    ensures { OnOk result (out.new.items
        ≡ out.old.items ++ printed_text (why_printed_of (Ok script)).groups) }
{
    let engine = engine_after(alloc, script)?;
    let pushed = push_explanation(alloc, &engine, out);
    drop(engine);
    pushed
}

/// Executes a script of `dmasim run`, and appends why each channel is where it is after it. Of a script with a fault it
/// appends and returns the fault. If memory runs out, appends nothing. No steps after the script move a channel of a
/// circle.
#[tactic(auto, using(crate::proofs::Stays::circles_stay_after))]
pub fn why(alloc: Global, script: &[u8], out: &mut Vec<u8>) -> Result<Option<Fault>, AllocError>
    ensures text { OnOk result (out.new.items
        ≡ out.old.items ++ printed_text (why_printed script.now).groups) }
    ensures fault { IfOk result (λ fault. fault ≡ result_err (run_script_of script.now)) }
    ensures good { IfOk result (λ fault.
        not (is_some fault) ≡ ((why_printed script.now).status == 0)) }
    ensures err { OnErr result (out.new.items ≡ out.old.items) }
    ensures circles { CirclesStayAfter script.now }
{
    let mut text = Vec::new(alloc);
    let fault = match read_run_script(alloc, script) {
        Ok(script) => {
            push_why(alloc, script, &mut text)?;
            None
        }
        Err(ScriptError::NoMemory) => return Err(AllocError),
        Err(ScriptError::Fault(fault)) => {
            print_line(&mut text, &fault)?;
            Some(fault)
        }
    };
    out.extend_from_slice(&text)?;
    Ok(fault)
}
