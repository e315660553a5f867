//! What imports read, and which texts are made of the tables of a store. `command_stores` does them.

/// What is imported.
#[derive(Clone, Copy, Debug)]
pub enum Import {
    /// What the assembly is called, and how many members its panel has.
    Charter,
    /// The categories, with their values and bounds.
    Rules {
        /// 1 for the rules of the assembly. From 2 on the number of an open round, whose bounds are set.
        round: usize,
    },
    /// Volunteers.
    Register,
    /// A proof of a lottery over the pool of an open round, or that there is no quota panel.
    Proof {
        /// The round's number, counted from 1.
        round: usize,
    },
}

/// A text that is made of the tables of a store.
#[derive(Clone, Copy, Debug)]
pub enum RoundText {
    /// The report of a round.
    Report,
    /// The pool of a round.
    Pool,
    /// The page of a round that is past `Open`.
    Page,
}

/// A text about a round of a store.
#[derive(Clone, Copy, Debug)]
pub struct StoreText {
    /// Which text.
    pub text: RoundText,
    /// The round's number, counted from 1.
    pub round: usize,
}
