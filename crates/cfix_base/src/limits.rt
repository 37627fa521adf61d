/// The greatest length of a source file, in bytes.
pub const MAX_SOURCE_BYTES: usize = 4_194_304;
/// The greatest length of a file of reports, in bytes.
pub const MAX_REPORTS_BYTES: usize = 1_048_576;
/// The greatest length of an input file, in bytes.
pub const MAX_INPUT_BYTES: usize = 1_048_576;
/// The greatest length of a schedule file, in bytes.
pub const MAX_SCHEDULE_BYTES: usize = 8_388_608;
/// The greatest number of tokens of a source.
pub const MAX_TOKENS: u32 = 1_000_000;
/// The greatest depth of a token.
pub const MAX_DEPTH: u32 = 200;
/// The greatest number of nodes of a source.
pub const MAX_NODES: u32 = 20_000;
/// The greatest number of functions of a source, main included.
pub const MAX_FUNCTIONS: u32 = 500;
/// The greatest number of global variables of a source.
pub const MAX_GLOBALS: u32 = 1_000;
/// The greatest length of an array; the least is 1.
pub const MAX_ARRAY_LENGTH: u32 = 65_536;
/// The greatest number of cells of all globals together.
pub const MAX_GLOBAL_CELLS: u32 = 1_000_000;
/// The greatest number of cells of the parameters and locals of one function.
pub const MAX_LOCAL_CELLS: u32 = 1_024;
/// The greatest number of arguments of a call or of printf, without its string.
pub const MAX_ARGUMENTS: u32 = 16;
/// The greatest number of an inserted operation or of a start in a source.
pub const MAX_OPERATION_NUMBER: u32 = 999;
/// The greatest number of reports.
pub const MAX_REPORTS: u32 = 200;
/// The greatest number of entries of a schedule that is read.
pub const MAX_SCHEDULE_ENTRIES: u32 = 1_000_000;
/// The greatest number of steps of a run.
pub const MAX_STEPS: u32 = 4_000_000_000;
