//! How a call of the program ends.

ghost use Rattle.std.specs.Prelude.{◌≡◌};
ghost use Rattle.command_shell.specs.Answers.{cause_number, status_number, printed_number};

/// How a command ends if its answer is a text for `out`.
#[derive(Clone, Copy, Debug, PartialEq, Eq)]
pub enum Printed {
    /// The command did what it is for.
    Done,
    /// No quota panel exists.
    NoPanel,
    /// A certificate or a proof is refused.
    Refused,
}

/// Why a command stops.
#[derive(Clone, Copy, Debug, PartialEq, Eq)]
pub enum Cause {
    /// The input is outside its format, is too long, or spells a value that the command doesn't accept.
    Input,
    /// A number passes its width.
    Wide,
    /// A budget is spent.
    Spent,
    /// A rule refuses: a rule of draws or of the office, or that a proof must have a lottery.
    Rule,
}

/// How a call ends.
#[derive(Clone, Copy, Debug, PartialEq, Eq)]
pub enum Status {
    /// A text went to `out`.
    Printed(Printed),
    /// The words have none of the program's forms, or ask for help.
    Usage,
    /// The command stopped.
    Stopped(Cause),
    /// The source counted a fault.
    ReadFault,
    /// `out` counted a fault.
    WriteFault,
    /// The keeper of the store counted a fault.
    KeeperFault,
    /// The door of the desk counted a fault.
    DoorFault,
    /// No memory was left.
    WantOfMemory,
}

impl Status {
    /// Returns the number of the status, with which the program ends.
    pub fn number(self) -> u8
        ensures { result ≡ status_number self }
    {
        match self {
            Status::Printed(printed) => printed.number(),
            Status::Usage => 2,
            Status::Stopped(cause) => cause.number(),
            Status::ReadFault => 7,
            Status::WriteFault => 8,
            Status::KeeperFault => 9,
            Status::DoorFault => 10,
            Status::WantOfMemory => 12,
        }
    }
}

impl Printed {
    fn number(self) -> u8
        ensures { result ≡ printed_number self }
    {
        match self {
            Printed::Done => 0,
            Printed::NoPanel => 1,
            Printed::Refused => 11,
        }
    }
}

impl Cause {
    fn number(self) -> u8
        ensures { result ≡ cause_number self }
    {
        match self {
            Cause::Input => 3,
            Cause::Wide => 4,
            Cause::Spent => 5,
            Cause::Rule => 6,
        }
    }
}
