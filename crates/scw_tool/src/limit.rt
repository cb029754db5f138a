//! The limits of a call.

/// The bytes that are read of a source: one more than the longest source has (1 MiB), so that a longer file is seen to be one.
pub const MOST_SOURCE_READ: u32 = 1_048_577;

/// The bytes of the longest class file that is shown: 16 MiB.
pub const MOST_CLASS_BYTES: u32 = 16_777_216;

/// The bytes that are read of a class file: one more than the longest has.
pub const MOST_CLASS_READ: u32 = 16_777_217;

/// The units of 16 bytes of the heap: 128 MiB.
pub const HEAP_UNITS: u32 = 8_388_608;

/// The frames that may be open at once.
pub const FRAMES: u32 = 100_000;

/// The words of at most 16 bytes of all frames together: 256 MiB.
pub const FRAME_WORDS: u32 = 16_777_216;

/// The rows that a run may take.
pub const MOST_ROWS: u64 = 50_000_000;
