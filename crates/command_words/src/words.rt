//! The types of a table of words: commands with their options.

/// A command of the program.
#[derive(Clone, Copy, Debug)]
pub enum CommandName {
    /// The lottery of a pool or of a bundle, with its proof; or an open round of a store, to be solved by a proof that is made.
    Prove,
    /// An open round of a store, to be solved by a given proof.
    Keep,
    /// The verdict on a proof.
    Verify,
    /// The bundle of a proof.
    Bundle,
    /// The seal of a bundle, or of a round of a store.
    Seal,
    /// The panel that dice draw from a bundle, or from a round of a store.
    Draw,
    /// How dice draw from a bundle.
    Dice,
    /// The table of a bundle's tickets.
    Tickets,
    /// The volunteers' chances in a bundle.
    Chances,
    /// What any file is, in words.
    Explain,
    /// The lottery of a bundle in a round number of tickets.
    Short,
    /// The panel that dice draw from a bundle in a round number of tickets.
    ShortDraw,
    /// The first quota panel of a pool.
    Panel,
    /// The least loosening of a pool's quotas.
    Loosen,
    /// Quotas of a pool that can't be met together, or a quota panel.
    Why,
    /// A least loosening of a pool's quotas. Integer programs find it; adding and comparing whole numbers shows that none is smaller.
    LoosenByProof,
    /// A page about the lottery of a bundle, or of a round of a store.
    Page,
    /// The lottery of a pool by the stated run.
    Lottery,
    /// The legs of the stated run over a pool.
    Legs,
    /// The verdict on the certificate of a bundle.
    Check,
    /// A cover of a bundle.
    Cover,
    /// The verdict on a cover.
    CheckCover,
    /// The summary of the run over a made pool.
    Make,
    /// An open round of a store, to be solved by the stated run.
    Solve,
    /// A member of a round's drawn panel who drops out.
    Drop,
    /// The round after one with a dropout.
    NextRound,
    /// A dropout that was entered by mistake.
    Undrop,
    /// The last round while it is open, which is taken away.
    Reopen,
    /// A volunteer who withdraws, entered by the office.
    Withdraw,
    /// The bundle of a round.
    Show,
    /// The report of a round.
    Report,
    /// The pool of a round.
    Pool,
    /// The charter of an assembly, from a file.
    ImportCharter,
    /// The rules of an assembly, from a file.
    ImportRules,
    /// Volunteers for the register, from a file.
    ImportRegister,
    /// The desk of an office over HTTP.
    Serve,
}

/// The form that an option's value must have.
#[derive(Clone, Copy, Debug)]
pub enum Form {
    /// A whole number from `least` to `most`.
    Number {
        /// The least number.
        least: u64,
        /// The greatest number.
        most: u64,
    },
    /// Any text.
    Text,
    /// No value: the option is a flag, which is given or not.
    Flag,
}

/// What it means that an option isn't given.
#[derive(Clone, Copy, Debug)]
pub enum Missing<Text> {
    /// The words are refused: the option is required.
    Refused,
    /// The option is absent: it has no value.
    Absent,
    /// The option has this value.
    Default(Text),
}

/// The words of an option. `Text` is a parameter, since definitions can't name a constant of a struct with reference fields. The
/// definitions put a list of bytes in its place.
#[derive(Clone, Copy, Debug)]
pub struct OptionWords<Text> {
    /// The name after the two hyphens.
    pub name: Text,
    /// The option's line in the help.
    pub help: Text,
    /// The form that its value must have.
    pub form: Form,
    /// What it means that the option isn't given.
    pub missing: Missing<Text>,
}

/// The words of a command.
#[derive(Clone, Copy, Debug)]
pub struct CommandWords<Text, Options> {
    /// Which command it is.
    pub command: CommandName,
    /// The first word of a call.
    pub name: Text,
    /// The command's line in the help.
    pub help: Text,
    /// The last line of its help, with an example of a call.
    pub example: Text,
    /// Its options, of different names.
    pub options: Options,
}

/// An option of a table.
pub type TableOption = OptionWords<&'static str>;

/// A command of a table.
pub type TableCommand = CommandWords<&'static str, &'static [TableOption]>;
