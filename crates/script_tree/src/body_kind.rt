//! The kinds of bodies.

/// Whose body it is: what it may do goes by this.
#[derive(Clone, Copy, Debug, PartialEq, Eq)]
pub enum BodyKind {
    /// A plain app's, cached or not.
    Plain,
    /// A join app's.
    Join,
    /// The body of `main`.
    OfMain,
}
