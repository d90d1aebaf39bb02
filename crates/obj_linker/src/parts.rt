//! Where symbols and parts of objects stand.

/// A symbol of an object, by the object's number and its own, from 0.
#[derive(Clone, Copy, Debug, PartialEq, Eq, Drop)]
pub struct SymbolId {
    pub object: usize,
    pub symbol: usize,
}

/// The addresses of an object's parts.
#[derive(Clone, Copy, Debug, PartialEq, Eq, Drop)]
pub struct Spot {
    pub code: u64,
    pub stored: u64,
}

/// The addresses after the last part of each kind.
#[derive(Clone, Copy, Debug, PartialEq, Eq, Drop)]
pub struct Ends {
    /// Instrumented code.
    pub code: u64,
    pub legacy: u64,
    pub stored: u64,
}
