//! What instructions work on (JVMS 2.5).

use scw_frame::{Frames, Value};
use scw_heap::Heap;
use sqlite_items::Items;

/// The state of a machine; what it puts stands beside it.
#[derive(Drop)]
pub struct State {
    pub frames: Frames,
    pub heap: Heap,
    pub statics: Items<Value>,
    /// The number of the one value of Unit, 0 until it is made.
    pub unit: u64,
}
