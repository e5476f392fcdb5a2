//! Where the bytes of a line stand.

/// Whether a byte stands outside a text in quotes, in it, or behind a backslash in it.
#[derive(Clone, Copy)]
pub(crate) enum Quote {
    Outside,
    Inside,
    Escaped,
}
