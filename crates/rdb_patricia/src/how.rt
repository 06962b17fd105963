//! The ways to look keys up by a text.

/// Which keys are meant by a text.
#[derive(Clone, Copy, Debug, PartialEq, Eq)]
pub enum How {
    /// The key that is the text.
    Exact,
    /// The longest key with which the text begins.
    Longest,
    /// The keys that begin with the text.
    Starting,
}
