//! The operand stack (JVMS 2.6.2): what instructions take from it and leave on it.

ghost use Rattle.std.specs.Prelude.{◌≡◌, []};
ghost use Rattle.scw_frame.specs.Frame.{with_stack};
ghost use Rattle.scw_frame.specs.Does.{Does, Takes};
ghost use Rattle.scw_frame.specs.FrameStep.{pushing, taken, taken_int, taken_long, taken_of, taken_reference};

use crate::frames::Frames;
use crate::value::{Value, ValueKind};

/// Pushes a value, if the stack has room.
#[tactic(auto, unfolding(crate::specs::FrameStep::pushing))]
pub fn push(frames: &mut Frames, value: Value) -> Option<()>
    ensures does { Does result frames.new (pushing value frames.old) }
    ensures calm { with_stack [] frames.new ≡ with_stack [] frames.old }
{
    if frames.push(value) { Some(()) } else { None }
}

/// Takes the top.
#[tactic(auto, unfolding(crate::specs::FrameStep::taken))]
pub fn pop(frames: &mut Frames) -> Option<Value>
    ensures takes { Takes result frames.new (taken frames.old) }
    ensures calm { with_stack [] frames.new ≡ with_stack [] frames.old }
{
    frames.pop()
}

/// Takes a value of the kind.
#[tactic(auto, unfolding(crate::specs::FrameStep::taken_of))]
pub fn pop_of(frames: &mut Frames, kind: ValueKind) -> Option<Value>
    ensures takes { Takes result frames.new (taken_of kind frames.old) }
    ensures calm { with_stack [] frames.new ≡ with_stack [] frames.old }
{
    let value = pop(frames)?;
    if value.is_of(kind) { Some(value) } else { None }
}

/// Takes an `Int`.
#[tactic(auto, unfolding(crate::specs::FrameStep::taken_int))]
pub fn pop_int(frames: &mut Frames) -> Option<u32>
    ensures takes { Takes result frames.new (taken_int frames.old) }
    ensures calm { with_stack [] frames.new ≡ with_stack [] frames.old }
{
    match pop(frames)? {
        Value::Int(n) => Some(n),
        Value::Unset | Value::Long(_) | Value::Reference(_) => None,
    }
}

/// Takes a `Long`.
#[tactic(auto, unfolding(crate::specs::FrameStep::taken_long))]
pub fn pop_long(frames: &mut Frames) -> Option<u64>
    ensures takes { Takes result frames.new (taken_long frames.old) }
    ensures calm { with_stack [] frames.new ≡ with_stack [] frames.old }
{
    match pop(frames)? {
        Value::Long(n) => Some(n),
        Value::Unset | Value::Int(_) | Value::Reference(_) => None,
    }
}

/// Takes a reference.
#[tactic(auto, unfolding(crate::specs::FrameStep::taken_reference))]
pub fn pop_reference(frames: &mut Frames) -> Option<u64>
    ensures takes { Takes result frames.new (taken_reference frames.old) }
    ensures calm { with_stack [] frames.new ≡ with_stack [] frames.old }
{
    match pop(frames)? {
        Value::Reference(r) => Some(r),
        Value::Unset | Value::Int(_) | Value::Long(_) => None,
    }
}
