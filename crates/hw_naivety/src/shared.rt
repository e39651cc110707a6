//! Rows that observed units have in common.

/// A slot whose unit has a row.
#[derive(Clone, Copy)]
pub struct Source {
    pub slot: u32,
    /// One more than the number of the row, or 0 where no row is known.
    pub place: u32,
}

/// The slots from the first one on, as far as before the end.
#[derive(Clone, Copy)]
pub struct Span {
    pub first: u32,
    pub end: u32,
}

/// Which of the units that are observed have one row: the unit of the source, and those of all slots beside the span.
#[derive(Clone, Copy)]
pub struct Shared {
    pub source: Source,
    pub span: Span,
}
