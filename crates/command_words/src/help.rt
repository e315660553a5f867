//! The help of the program. `clap` makes the help of a single command by the table.

/// The commands, grouped by who needs them, with one line each. `table.rt` decides which words the program accepts; this text only shows
/// them.
pub(crate) const HELP: &str = "Selects a citizens' assembly by lot.

Usage: sortition <COMMAND>

To run an assembly over a store:
  import-charter   Sets the title and the size of the panel, from a file of TOML
  import-rules     Sets the quotas, from a file of CSV
  import-register  Adds volunteers, from a file of CSV
  solve            Answers an open round, of up to some 30 people
  prove            Answers an open round of hundreds of people, with --store
  keep             Answers an open round by a proof, whoever made it
  show             Prints the bundle of a round: its lottery with its pool
  drop             Notes that a member of the drawn panel drops out
  next-round       Begins the round after one with a dropout
  undrop           Takes a dropout back that was entered by mistake
  reopen           Takes an open round away, so that more members can drop out
  withdraw         Notes that a volunteer withdraws who told the office so
  report           Prints the report of a round, for the public
  pool             Prints the pool of a round
  serve            Opens the desk for volunteers over HTTP

To draw by dice, before everybody's eyes:
  seal             Prints the seal of a bundle, which is published before the draw
  dice             Prints how many dice a throw takes
  tickets          Prints which ticket draws which panel
  draw             Prints the panel that the digits of dice draw
  short            Prints the lottery in a round number of tickets
  short-draw       Prints the panel that dice draw in a round number of tickets

To check what was published:
  verify           Checks a proof, by additions
  bundle           Prints the bundle of a proof
  chances          Prints each volunteer's chance in a bundle
  page             Prints a page to look at, with pictures of the lottery, also of a round in a store
  check            Checks the certificate of a bundle, by a search
  cover            Makes a cover of a bundle, which shows without a search that its certificate holds
  check-cover      Checks a cover, front by front, without a search
  explain          Says in words what a text holds, or what is wrong with a file

If no panel meets the quotas:
  why              Says in words which quotas can't be met together
  loosen-by-proof  Prints which bounds to move least
  loosen           Prints which bounds to move least, by the stated search, for up to some 30 people

To make a lottery without a store:
  prove            Makes the lottery of a pool, with a proof of it
  lottery          Makes the lottery of a pool by the stated run, of up to some 30 people
  legs             Prints how many pivots the stated run makes, and how many it could make
  panel            Prints the first panel of a pool that meets the quotas
  make             Makes a pool from a number, and tells of its lottery

`sortition help COMMAND` prints the options of a command, and an example.
`sortition --version` prints the version, and the toolchain that built it.
";
