// Values that are let go.

/// Lets a value go. What drops large trees calls this, so that their parts are taken apart in one place.
pub fn discard<T: Drop>(_value: T) {}
