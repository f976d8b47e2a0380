//! How a cookie finished.

/// The result of a finished cookie, with the names of the kernel's header `linux/dmaengine.h`.
#[derive(Clone, Copy, Debug, PartialEq, Eq)]
pub enum TransResult {
    /// All bytes were copied (DMA_TRANS_NOERROR).
    NoError,
    /// A load failed (DMA_TRANS_READ_FAILED).
    ReadFailed,
    /// A store failed (DMA_TRANS_WRITE_FAILED).
    WriteFailed,
    /// The channel was terminated (DMA_TRANS_ABORTED).
    Aborted,
}

/// The result of a finished cookie, and how many of its bytes were not stored.
#[derive(Clone, Copy, Debug, PartialEq, Eq)]
pub struct Outcome {
    /// How it finished.
    pub result: TransResult,
    /// The length of its transfer minus the bytes stored (profile).
    pub residue: u32,
}
