//! What `--version` tells.

use crate::endings::status_of_print;

/// The version of this state: the newest of CHANGELOG.md.
pub const VERSION: &str = "3.0.0";

/// The sum of the logic by which this state is proved: the last word of `rt version`. Kits with different names can have the same sum, and
/// each of them proves this state. The sum is a constant because no build tells a program about its kit, so that the same sources always
/// give the same program.
pub const LOGIC: &str = "dac8208d650f15bf";

/// Prints the name and the version of a program, and the sum of the logic. Returns the exit status.
pub fn print_version(rt: &HostRuntime, program: &str) -> u8 {
    status_of_print(println!(rt; "{program} {VERSION} (logic {LOGIC})"))
}
