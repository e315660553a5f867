//! The steps of a search that shows that there is no whole point, one for each node. `proving` lists them, and `prove_run` and
//! `quota_conflicts` turn each into a line of a tree.

/// The multipliers by which a table refutes a node, in lowest terms.
#[derive(Debug, Drop)]
pub struct Refutation {
    /// What the weights are multiplied by.
    pub scale: u64,
    /// The number of each row, and what the row is multiplied by.
    pub multipliers: Vec<(usize, i128)>,
}

/// The step at a node. The steps of the nodes below it follow.
#[derive(Debug, Drop)]
pub enum Step {
    /// The span of this column is split. The lower part and then the upper part follow.
    Split(usize),
    /// The table has no point in the spans of the columns.
    Refuted(Refutation),
}
