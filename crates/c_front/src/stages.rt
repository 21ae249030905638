//! How a stage of a run ends: the run ends there, or it goes on.

/// What a stage says.
#[derive(Debug, Drop)]
pub enum Next<E, T> {
    /// The run ends, and this is why.
    Ends(E),
    /// The next stage goes on with this.
    Goes(T),
}
