//! The commands that pages in a browser call, as a static library, which `tools/build-page` compiles for WebAssembly: those of a page that
//! checks (`calls`), and those of a page that makes a selection (`selection`). Each exported call gives the page the text that the command
//! of its name answers for the same bytes and arguments, whether the program prints it to `out` or to `errs`. The page lends the bytes and
//! the room for the text.
//!
//! Promises: the eight calls of `calls` and the thirteen of `selection`. None has a `requires`, so the page can't break one.
#![tactic(auto)]

mod calls;
mod first_pools;
mod next_pools;
mod proving;
mod room;
mod selection;
mod texts;
