// The limits on types, each once: code and definitions cite them from here.

/// The greatest length of characters.
pub const GREATEST_LENGTH: usize = 32_767;
