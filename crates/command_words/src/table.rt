//! The words of the program: its commands with their options, in the order in which people need them.
//!
//! They are in several constants of at most ten commands each, since the cost of a proof about a constant grows faster than the constant.

ghost use Rattle.std.specs.Prelude.{◌≡◌, IfOk, map};
ghost use Rattle.command_words.specs.Table.{
  command_entry,
  command_table as words_of_command_table,
  correcting_commands as words_of_correcting_commands,
  draw_commands as words_of_draw_commands,
  office_commands as words_of_office_commands,
  proof_commands as words_of_proof_commands,
  run_commands as words_of_run_commands,
};

use crate::words::{
    CommandName, CommandWords, Form, Missing, OptionWords, TableCommand, TableOption,
};
use std::alloc::{AllocError, Global};

/// Returns the commands of the program.
pub(crate) fn command_table(alloc: Global) -> Result<Vec<TableCommand>, AllocError>
    ensures { IfOk result (λ table. map command_entry table.items ≡ words_of_command_table) }
{
    let mut table = Vec::new(alloc);
    table.extend_from_slice(proof_commands())?;
    table.extend_from_slice(draw_commands())?;
    table.extend_from_slice(office_commands())?;
    table.extend_from_slice(correcting_commands())?;
    table.extend_from_slice(run_commands())?;
    Ok(table)
}

/// Returns the commands about proofs.
fn proof_commands() -> &'static [TableCommand]
    ensures { map command_entry result.now ≡ words_of_proof_commands }
{
    PROOF_COMMANDS
}

/// Returns the commands about seals and draws.
fn draw_commands() -> &'static [TableCommand]
    ensures { map command_entry result.now ≡ words_of_draw_commands }
{
    DRAW_COMMANDS
}

/// Returns the commands over a store.
fn office_commands() -> &'static [TableCommand]
    ensures { map command_entry result.now ≡ words_of_office_commands }
{
    OFFICE_COMMANDS
}

/// Returns the commands that correct what a store has.
fn correcting_commands() -> &'static [TableCommand]
    ensures { map command_entry result.now ≡ words_of_correcting_commands }
{
    CORRECTING_COMMANDS
}

/// Returns the commands about the stated run.
fn run_commands() -> &'static [TableCommand]
    ensures { map command_entry result.now ≡ words_of_run_commands }
{
    RUN_COMMANDS
}

const PROOF_COMMANDS: &[TableCommand] = &[
    CommandWords {
        command: CommandName::Prove,
        name: "prove",
        help: "Prints the lottery of the pool or of the bundle on standard input, with a proof; or answers an open round of the store",
        example: "Example: sortition prove < city.pool > city.proof",
        options: &[
            OptionWords {
                name: "store",
                help: "The file of the store, if an open round of it is answered",
                form: Form::Text,
                missing: Missing::Absent,
            },
            ROUND,
            PROOF_PIVOTS,
            PROOF_NODES,
        ],
    },
    CommandWords {
        command: CommandName::Keep,
        name: "keep",
        help: "Answers an open round of the store by the proof on standard input, whoever made it",
        example: "Example: sortition keep --store city.store < city.proof",
        options: &[STORE, ROUND],
    },
    CommandWords {
        command: CommandName::Verify,
        name: "verify",
        help: "Checks the proof on standard input by additions",
        example: "Example: sortition verify < city.proof",
        options: &[],
    },
    CommandWords {
        command: CommandName::Bundle,
        name: "bundle",
        help: "Prints the bundle of the proof on standard input",
        example: "Example: sortition bundle < city.proof > city.bundle",
        options: &[],
    },
    CommandWords {
        command: CommandName::Explain,
        name: "explain",
        help: "Says in words what the text on standard input holds, or what is wrong with the file",
        example: "Example: sortition explain < people.csv",
        options: &[],
    },
    CommandWords {
        command: CommandName::Why,
        name: "why",
        help: "Says which quotas can't be met together, of the pool or the proof on standard input",
        example: "Example: sortition why < city.pool",
        options: &[PROOF_PIVOTS, PROOF_NODES],
    },
    CommandWords {
        command: CommandName::LoosenByProof,
        name: "loosen-by-proof",
        help: "Prints which bounds to move least so that the pool on standard input has a quota panel; for large pools",
        example: "Example: sortition loosen-by-proof < city.pool",
        options: &[PROOF_PIVOTS, PROOF_NODES],
    },
    CommandWords {
        command: CommandName::Page,
        name: "page",
        help: "Prints a page to look at, about the lottery of the bundle or of the proof on standard input, or of a round of the store",
        example: "Example: sortition page < city.bundle > city.html",
        options: &[
            OptionWords {
                name: "drawn",
                help: "The digits of the dice, if the panel that they draw from standard input is to be shown",
                form: Form::Text,
                missing: Missing::Absent,
            },
            OptionWords {
                name: "tickets",
                help: "The number of tickets, 1 to 1000000000, if the digits draw in a round number of them",
                form: Form::Number {
                    least: 1,
                    most: MOST_TICKETS,
                },
                missing: Missing::Absent,
            },
            OptionWords {
                name: "store",
                help: "The file of the store, if the page is of a round in it; without --drawn and --tickets",
                form: Form::Text,
                missing: Missing::Absent,
            },
            ROUND,
        ],
    },
];

const DRAW_COMMANDS: &[TableCommand] = &[
    CommandWords {
        command: CommandName::Seal,
        name: "seal",
        help: "Prints the seal of the bundle on standard input, or of a round of the store",
        example: "Example: sortition seal < city.bundle",
        options: &[
            STORE_IF_ANY,
            ROUND,
            OptionWords {
                name: "tickets",
                help: "The number of tickets, 1 to 1000000000, if the round of the store is to be drawn in a round number of them",
                form: Form::Number {
                    least: 1,
                    most: MOST_TICKETS,
                },
                missing: Missing::Absent,
            },
        ],
    },
    CommandWords {
        command: CommandName::Dice,
        name: "dice",
        help: "Prints how dice draw from the bundle on standard input",
        example: "Example: sortition dice < city.bundle",
        options: &[TICKETS_IF_ANY],
    },
    CommandWords {
        command: CommandName::Tickets,
        name: "tickets",
        help: "Prints a table of the tickets of the bundle on standard input",
        example: "Example: sortition tickets < city.bundle",
        options: &[TICKETS_IF_ANY],
    },
    CommandWords {
        command: CommandName::Draw,
        name: "draw",
        help: "Prints the panel that dice draw from the bundle on standard input, or in a round of the store",
        example: "Example: sortition draw --seal SEAL --digits 9957 < city.bundle",
        options: &[
            STORE_IF_ANY,
            ROUND,
            SEAL,
            DIGITS,
            OptionWords {
                name: "try",
                help: "Prints what the digits would draw in the round of the store, and keeps nothing",
                form: Form::Flag,
                missing: Missing::Absent,
            },
        ],
    },
    CommandWords {
        command: CommandName::Chances,
        name: "chances",
        help: "Prints the volunteers' chances in the bundle on standard input",
        example: "Example: sortition chances < city.bundle",
        options: &[],
    },
    CommandWords {
        command: CommandName::Short,
        name: "short",
        help: "Prints the lottery of the bundle on standard input in a round number of tickets",
        example: "Example: sortition short --tickets 1000 < city.bundle",
        options: &[TICKETS],
    },
    CommandWords {
        command: CommandName::ShortDraw,
        name: "short-draw",
        help: "Prints the panel that dice draw from the bundle on standard input in a round number of tickets",
        example: "Example: sortition short-draw --tickets 1000 --seal SEAL --digits 500 < city.bundle",
        options: &[TICKETS, SEAL, DIGITS],
    },
];

const OFFICE_COMMANDS: &[TableCommand] = &[
    CommandWords {
        command: CommandName::ImportCharter,
        name: "import-charter",
        help: "Sets title and panel size of the store by the TOML file on standard input",
        example: "Example: sortition import-charter --store city.store < charter.toml",
        options: &[STORE],
    },
    CommandWords {
        command: CommandName::ImportRules,
        name: "import-rules",
        help: "Sets the rules of the store, or the bounds of an open round, by the CSV file on standard input",
        example: "Example: sortition import-rules --store city.store < rules.csv",
        options: &[
            STORE,
            OptionWords {
                name: "round",
                help: "The number of the open round whose bounds are set, 2 to 1000",
                form: Form::Number {
                    least: 2,
                    most: MOST_ROUND,
                },
                missing: Missing::Absent,
            },
        ],
    },
    CommandWords {
        command: CommandName::ImportRegister,
        name: "import-register",
        help: "Adds the volunteers in the CSV file on standard input to the store",
        example: "Example: sortition import-register --store city.store < register.csv",
        options: &[STORE],
    },
    CommandWords {
        command: CommandName::Solve,
        name: "solve",
        help: "Answers an open round of the store by the stated run",
        example: "Example: sortition solve --store city.store",
        options: &[STORE, ROUND, BITS, PIVOTS, NODES, WORKERS],
    },
    CommandWords {
        command: CommandName::Drop,
        name: "drop",
        help: "Notes that a member of a round's drawn panel drops out",
        example: "Example: sortition drop --store city.store --id p07",
        options: &[
            STORE,
            ROUND,
            OptionWords {
                name: "id",
                help: "The id of the member who drops out",
                form: Form::Text,
                missing: Missing::Refused,
            },
        ],
    },
    CommandWords {
        command: CommandName::NextRound,
        name: "next-round",
        help: "Begins the round after one with a dropout",
        example: "Example: sortition next-round --store city.store --after 1",
        options: &[
            STORE,
            OptionWords {
                name: "after",
                help: "The number of the round with a dropout, up to 1000",
                form: Form::Number {
                    least: 0,
                    most: MOST_ROUND,
                },
                missing: Missing::Default("1"),
            },
        ],
    },
    CommandWords {
        command: CommandName::Show,
        name: "show",
        help: "Prints the bundle of a round",
        example: "Example: sortition show --store city.store > city.bundle",
        options: &[STORE, ROUND],
    },
    CommandWords {
        command: CommandName::Report,
        name: "report",
        help: "Prints the report of a round, for the public",
        example: "Example: sortition report --store city.store",
        options: &[STORE, ROUND],
    },
    CommandWords {
        command: CommandName::Pool,
        name: "pool",
        help: "Prints the pool of a round",
        example: "Example: sortition pool --store city.store > city.pool",
        options: &[STORE, ROUND],
    },
    CommandWords {
        command: CommandName::Serve,
        name: "serve",
        help: "Opens the desk of the store over HTTP, at a port of this machine",
        example: "Example: sortition serve --store city.store --port 8080",
        options: &[
            STORE,
            OptionWords {
                name: "port",
                help: "The port, 1 to 65535",
                form: Form::Number {
                    least: 1,
                    most: 65_535,
                },
                missing: Missing::Refused,
            },
            OptionWords {
                name: "connections",
                help: "How many connections are answered before the desk closes, 1 to 1000000",
                form: Form::Number {
                    least: 1,
                    most: 1_000_000,
                },
                missing: Missing::Default("1000000"),
            },
            OptionWords {
                name: "log",
                help: "Tells each visit on standard error: the page and the status",
                form: Form::Flag,
                missing: Missing::Absent,
            },
        ],
    },
];

const CORRECTING_COMMANDS: &[TableCommand] = &[
    CommandWords {
        command: CommandName::Undrop,
        name: "undrop",
        help: "Takes a dropout back that was entered by mistake, while there is no next round",
        example: "Example: sortition undrop --store city.store --id p07",
        options: &[
            STORE,
            ROUND,
            OptionWords {
                name: "id",
                help: "The id of the member whose dropout is taken back",
                form: Form::Text,
                missing: Missing::Refused,
            },
        ],
    },
    CommandWords {
        command: CommandName::Reopen,
        name: "reopen",
        help: "Takes the last round away while it is open, so that more members of the round before can drop out",
        example: "Example: sortition reopen --store city.store --round 2",
        options: &[
            STORE,
            OptionWords {
                name: "round",
                help: "The number of the round that is taken away, 2 to 1000",
                form: Form::Number {
                    least: 2,
                    most: MOST_ROUND,
                },
                missing: Missing::Refused,
            },
        ],
    },
    CommandWords {
        command: CommandName::Withdraw,
        name: "withdraw",
        help: "Notes that a volunteer withdraws who told the office so",
        example: "Example: sortition withdraw --store city.store --id p07",
        options: &[
            STORE,
            OptionWords {
                name: "id",
                help: "The id of the volunteer who withdraws",
                form: Form::Text,
                missing: Missing::Refused,
            },
        ],
    },
];

const RUN_COMMANDS: &[TableCommand] = &[
    CommandWords {
        command: CommandName::Panel,
        name: "panel",
        help: "Prints the first quota panel of the pool on standard input",
        example: "Example: sortition panel < city.pool",
        options: &[NODES],
    },
    CommandWords {
        command: CommandName::Loosen,
        name: "loosen",
        help: "Prints which bounds to move least so that the pool on standard input has a quota panel; for small pools",
        example: "Example: sortition loosen < city.pool",
        options: &[NODES],
    },
    CommandWords {
        command: CommandName::Lottery,
        name: "lottery",
        help: "Prints the lottery over the quota panels of the pool on standard input, with its certificate",
        example: "Example: sortition lottery < city.pool > city.bundle",
        options: &[BITS, PIVOTS, NODES, WORKERS, SHARE],
    },
    CommandWords {
        command: CommandName::Legs,
        name: "legs",
        help: "Prints how many pivots the run over the pool on standard input makes, and how many it could make",
        example: "Example: sortition legs < city.pool",
        options: &[BITS, PIVOTS, NODES, WORKERS],
    },
    CommandWords {
        command: CommandName::Check,
        name: "check",
        help: "Checks the certificate of the bundle on standard input, by a search",
        example: "Example: sortition check < city.bundle",
        options: &[NODES],
    },
    CommandWords {
        command: CommandName::Cover,
        name: "cover",
        help: "Prints a cover of the bundle on standard input, which shows without a search that its certificate holds",
        example: "Example: sortition cover < city.bundle > city.cover",
        options: &[NODES],
    },
    CommandWords {
        command: CommandName::CheckCover,
        name: "check-cover",
        help: "Checks the cover on standard input, front by front, without a search",
        example: "Example: sortition check-cover < city.cover",
        options: &[],
    },
    CommandWords {
        command: CommandName::Make,
        name: "make",
        help: "Makes a pool from a number, and prints a summary of its lottery",
        example: "Example: sortition make --seed 7 --volunteers 200",
        options: &[
            OptionWords {
                name: "seed",
                help: "The number from which the pool is made, up to 9223372036854775807",
                form: Form::Number {
                    least: 0,
                    most: 9_223_372_036_854_775_807,
                },
                missing: Missing::Refused,
            },
            OptionWords {
                name: "volunteers",
                help: "How many volunteers the pool has, 1 to 400",
                form: Form::Number {
                    least: 1,
                    most: 400,
                },
                missing: Missing::Refused,
            },
            BITS,
            PIVOTS,
            NODES,
            WORKERS,
        ],
    },
];

const MOST_ROUND: u64 = 1000;

const MOST_TICKETS: u64 = 1_000_000_000;

const MOST_PIVOTS: u64 = 1_000_000_000;

const MOST_NODES: u64 = 1_000_000_000_000;

const STORE: TableOption = OptionWords {
    name: "store",
    help: "The file of the store",
    form: Form::Text,
    missing: Missing::Refused,
};

const STORE_IF_ANY: TableOption = OptionWords {
    name: "store",
    help: "The file of the store, if the bundle is in one",
    form: Form::Text,
    missing: Missing::Absent,
};

const SEAL: TableOption = OptionWords {
    name: "seal",
    help: "The seal of the bundle, as it was published",
    form: Form::Text,
    missing: Missing::Refused,
};

const DIGITS: TableOption = OptionWords {
    name: "digits",
    help: "The digits of ten-sided dice, in the order of the throws",
    form: Form::Text,
    missing: Missing::Refused,
};

const TICKETS: TableOption = OptionWords {
    name: "tickets",
    help: "The number of tickets, 1 to 1000000000",
    form: Form::Number {
        least: 1,
        most: MOST_TICKETS,
    },
    missing: Missing::Default("1000"),
};

const TICKETS_IF_ANY: TableOption = OptionWords {
    name: "tickets",
    help: "The number of tickets, 1 to 1000000000, if the lottery is drawn in a round number of them",
    form: Form::Number {
        least: 1,
        most: MOST_TICKETS,
    },
    missing: Missing::Absent,
};

const ROUND: TableOption = OptionWords {
    name: "round",
    help: "The number of the round, up to 1000",
    form: Form::Number {
        least: 0,
        most: MOST_ROUND,
    },
    missing: Missing::Default("1"),
};

const BITS: TableOption = OptionWords {
    name: "bits",
    help: "The width in bits of the run's numbers, 1 to 127",
    form: Form::Number {
        least: 1,
        most: 127,
    },
    missing: Missing::Default("127"),
};

const PIVOTS: TableOption = OptionWords {
    name: "pivots",
    help: "The most pivots that the run may make, up to 1000000000",
    form: Form::Number {
        least: 0,
        most: MOST_PIVOTS,
    },
    missing: Missing::Default("100000"),
};

const PROOF_PIVOTS: TableOption = OptionWords {
    name: "pivots",
    help: "The most pivots that the run may make, up to 1000000000",
    form: Form::Number {
        least: 0,
        most: MOST_PIVOTS,
    },
    missing: Missing::Default("1000000"),
};

const PROOF_NODES: TableOption = OptionWords {
    name: "nodes",
    help: "The most nodes that the run's searches may look at together, up to 1000000000000",
    form: Form::Number {
        least: 0,
        most: MOST_NODES,
    },
    missing: Missing::Default("200000"),
};

const NODES: TableOption = OptionWords {
    name: "nodes",
    help: "The most visits that a search may make, up to 1000000000000",
    form: Form::Number {
        least: 0,
        most: MOST_NODES,
    },
    missing: Missing::Default("50000000"),
};

const WORKERS: TableOption = OptionWords {
    name: "workers",
    help: "How many workers price, on threads, 1 to 64",
    form: Form::Number { least: 1, most: 64 },
    missing: Missing::Default("1"),
};

const SHARE: TableOption = OptionWords {
    name: "share",
    help: "Lets the workers share what they have found, which may save visits",
    form: Form::Flag,
    missing: Missing::Absent,
};
