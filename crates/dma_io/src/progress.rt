//! Reports of how far a long call has come.

/// Receives reports of how far a call has come. No result depends on what it does with them.
pub trait Progress {
    /// `done` things of a kind, such as instructions, are done so far.
    fn report(&mut self, done: u64, kind: &str);
}
