use fixed_point::V3;

/// A pair waits for a reply, is dropped, gives others, or is counted: with the force on the first, or, if turned, on the
/// second.
pub(crate) enum Verdict {
    Waits,
    Drops,
    Opens,
    Counts(bool, V3),
}
