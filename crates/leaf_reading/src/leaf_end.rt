//! What is left of a leaf.

/// What is kept of a leaf, and how many of its items count.
#[derive(Drop)]
pub struct Portion<K> {
    pub count: u64,
    pub kept: K,
}

/// How the run of a leaf ended.
#[derive(Drop)]
pub enum LeafEnd<K> {
    /// What is kept of the leaf is all of it or is enough.
    Done(Portion<K>),
    /// A cut was found left of the leaf.
    Cut,
}
