//! What a leaf is read by.

/// What a leaf is read by: the stage that its items pass, how many are needed, and what keeps them.
#[derive(Drop)]
pub struct Reading<'a, G, D, C> {
    pub stage: &'a G,
    pub demand: &'a D,
    pub collector: &'a C,
}
