//! What scaling decides.

/// Whether the blocks of a run become more or fewer, and by how many.
#[derive(Clone, Copy, PartialEq, Eq, Debug)]
pub enum Decision {
    Keep,
    Out(u32),
    In(u32),
}
