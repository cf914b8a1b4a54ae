//! The version: the one place where it stands (decision 66), beside the logic that the program is proved by.

/// What `--version` prints behind a program's name: the version, and the logic of the toolchain that proves and builds it, as `rt version`
/// says it behind the kit's name. Kits of one logic prove the same.
pub const VERSION: &str = "0.1.0
rattle logic dac8208d650f15bf";
