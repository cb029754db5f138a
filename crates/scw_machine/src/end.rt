//! Why a machine answers.

use scw_heap::Ref;

/// Where an instruction stands in the files.
#[derive(Clone, Copy, Debug, PartialEq, Eq)]
pub struct Place {
    /// The number of the file.
    pub class: u32,
    /// The number of the method in the file.
    pub method: u32,
    /// The opcode's byte in the file.
    pub at: u32,
}

/// Why a run goes on no further.
#[derive(Clone, Copy, Debug, PartialEq, Eq)]
pub enum End {
    /// The program returned.
    Ended,
    /// No handler caught the exception.
    Thrown(Ref),
    /// All the rows asked for were done, and the machine goes on.
    Steps,
    /// The next row needs so many units of the heap, which has fewer left.
    HeapFull { need: u64 },
    /// The next row needs one frame more than there may be, or more words of frames.
    Frames,
    /// The sink failed.
    SinkFault,
    /// The instruction at the place isn't defined in this state.
    Stuck(Place),
}

/// What one row comes to.
#[derive(Clone, Copy, Debug, PartialEq, Eq)]
pub enum Turn {
    /// The machine goes on.
    On,
    /// It doesn't.
    Done(End),
}
