//! What `--version` prints after the program's name. Nothing else of the program states it.

/// The version of the program, as CHANGELOG.md numbers it, and the line of the toolchain that proves and builds it (`rt version`).
pub(crate) const VERSION: &str = "1.0.0 (rattle-kit-13f logic dac8208d650f15bf)";
