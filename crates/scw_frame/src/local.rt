//! Local variables (JVMS 2.6.1 and 6.5): loads, stores and `iinc`.

ghost use Rattle.std.specs.Prelude.{◌≡◌, ◌^◌, ◌+◌, ◌<◌, ◌≤◌, length};
ghost use Rattle.scw_frame.specs.Does.{Does};
ghost use Rattle.scw_frame.specs.Frame.{places_of, with_locals};
ghost use Rattle.scw_frame.specs.FrameStep.{filling, incrementing, loading, local_of, put, storing, unset_before};

use crate::frames::Frames;
use crate::operand::{pop_of, push};
use crate::value::{Value, ValueKind};

/// The local variable, if it is of the kind.
#[tactic(auto, unfolding(crate::specs::FrameStep::local_of))]
fn local_of(frames: &Frames, kind: ValueKind, i: u16) -> Option<Value>
    ensures { result ≡ local_of kind i frames.now }
{
    match frames.local(i) {
        Some(value) if value.is_of(kind) => Some(value),
        Some(_) | None => None,
    }
}

/// Pushes a local variable: `iload`, `lload`, `aload`.
pub fn load(frames: &mut Frames, kind: ValueKind, i: u16) -> Option<()>
    ensures { Does result frames.new (loading kind i frames.old) }
{
    let value = local_of(frames, kind, i)?;
    push(frames, value)
}

/// A `Long` whose second half is the local variable is none any more.
fn unset_before(frames: &mut Frames, i: u16)
    requires { i < length frames.old.current.locals }
    ensures { frames.new ≡ with_locals (unset_before frames.old.current.locals i) frames.old }
{
    if i == 0 {
        return;
    }
    match frames.local(i - 1) {
        Some(value) if value.is_of(ValueKind::Long) => frames.set_local(i - 1, Value::Unset),
        Some(_) | None => {}
    }
}

/// Puts a value into a local variable, a `Long` into two.
fn put(frames: &mut Frames, i: u16, value: Value)
    requires there { i + places_of value ≤ length frames.old.current.locals }
    requires small { i + places_of value < 2 ^ 16 }
    ensures { frames.new ≡ with_locals (put value frames.old.current.locals i) frames.old }
{
    frames.set_local(i, value);
    if let Value::Long(_) = value {
        frames.set_local(i + 1, Value::Unset);
    }
}

/// Puts a value into a local variable, if there are enough of them.
#[tactic(auto, unfolding(crate::specs::FrameStep::filling))]
fn fill(frames: &mut Frames, i: u16, value: Value) -> Option<()>
    ensures { Does result frames.new (filling value i frames.old) }
{
    if i as u32 + value.places() as u32 > frames.local_count() as u32 {
        return None;
    }
    unset_before(frames, i);
    put(frames, i, value);
    Some(())
}

/// Takes the top into a local variable: `istore`, `lstore`, `astore`.
pub fn store(frames: &mut Frames, kind: ValueKind, i: u16) -> Option<()>
    ensures { Does result frames.new (storing kind i frames.old) }
{
    let value = pop_of(frames, kind)?;
    fill(frames, i, value)
}

/// Adds the constant to a local variable: `iinc`.
pub fn increment(frames: &mut Frames, i: u16, by: u32) -> Option<()>
    ensures { Does result frames.new (incrementing i by frames.old) }
{
    match frames.local(i)? {
        Value::Int(n) => {
            frames.set_local(i, Value::Int(n.wrapping_add(by)));
            Some(())
        }
        Value::Unset | Value::Long(_) | Value::Reference(_) => None,
    }
}
