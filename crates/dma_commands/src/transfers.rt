//! The transfer that a script line describes.
ghost use Rattle.std.specs.Prelude.{◌≡◌, IfErr, IfOk, None, Some};
ghost use Rattle.dma_mem.specs.Refusals.{refusal_of};
ghost use Rattle.dma_commands.specs.Transfers.{transfer_of};

use dma_mem::transfer::{Transfer, TransferFault};
use dma_script::transfer_line::{Origin, TransferLine};

/// Returns the transfer of a line, and moves the line's lists into it. Fails with the first rule that the transfer
/// breaks.
pub fn transfer_of(line: TransferLine) -> Result<Transfer, TransferFault>
    ensures ok { IfOk result (λ t. t ≡ transfer_of line) }
    ensures accepted { IfOk result (λ t. refusal_of t ≡ None) }
    ensures err { IfErr result (λ fault. refusal_of (transfer_of line) ≡ Some fault) }
{
    let TransferLine {
        src,
        dst,
        wait,
        signal,
    } = line;
    match src {
        Origin::List(list) => Transfer::from_lists(list, dst, wait, signal),
        Origin::Place(addr) => Transfer::fill_list(addr, dst, wait, signal),
    }
}
