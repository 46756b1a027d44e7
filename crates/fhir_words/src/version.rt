//! Which program this is.

/// What `--version` prints: the program's name, the version, and the logic that it is proved in, by the sum that `rt version` prints. Kits of one logic may
/// differ in their tools.
pub const VERSION: &str = "fhirprof 0.1.0, proved in Rattle's logic dac8208d650f15bf\n";
