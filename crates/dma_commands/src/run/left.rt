//! The engine that a script finds, and the one that it leaves.
ghost use Rattle.std.specs.Prelude.{◌≡◌, IfOk};
ghost use Rattle.dma_engine.specs.View.{new_view};
ghost use Rattle.dma_script.specs.Statements.{IsWithin};
ghost use Rattle.dma_commands.specs.Left.{view_after};

use crate::run::execute_all;
use dma_engine::{Engine, NewFault};
use dma_script::statements::RunScript;
use std::alloc::{AllocError, Global};

/// Returns a new engine as a memory line describes it. Fails if memory runs out.
pub fn new_engine(alloc: Global, script: &RunScript) -> Result<Engine, AllocError>
    requires { IsWithin script.now }
    ensures { IfOk result (λ engine. engine.view ≡ new_view script.now.size script.now.channels) }
{
    match Engine::new(alloc, script.size, script.channels as u8) {
        Ok(engine) => Ok(engine),
        Err(NewFault::NoMemory) => Err(AllocError),
        Err(NewFault::BadChannels | NewFault::SizeOutOfRange) => unreachable!(),
    }
}

/// Executes a script and returns the engine that it leaves. Nothing is printed. Fails if memory runs out.
pub fn engine_after(alloc: Global, script: RunScript) -> Result<Engine, AllocError>
    requires { IsWithin script }
    ensures { IfOk result (λ engine. engine.view ≡ view_after script) }
{
    let mut engine = new_engine(alloc, &script)?;
    let mut printed = Vec::new(alloc);
    execute_all(&mut engine, script.statements, &mut printed)?;
    Ok(engine)
}
