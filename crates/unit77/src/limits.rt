// The limits on a unit, each once: code and definitions cite them from here.

/// The most DO and IF constructs that may be open at a place.
pub const MOST_NESTED: usize = 100;

/// The most different labels that the jumps of a unit may name.
pub const MOST_LABELS: usize = 2000;
