//! What rearranges the operand stack: `pop`, `dup`, `swap` and their forms for two places (JVMS 6.5).

ghost use Rattle.scw_frame.specs.Does.{Does};
ghost use Rattle.scw_frame.specs.Group.{TakesGroup, values};
ghost use Rattle.scw_frame.specs.FrameStep.{and_then, doubled, one, pushing_all, rearranging, two};

use crate::frames::Frames;
use crate::operand::{pop, push};
use crate::operation::StackOperation;
use crate::value::Value;

/// Values that are taken together: a `Long`, or one or two of one place each.
#[derive(Clone, Copy)]
pub struct Group {
    top: Value,
    below: Option<Value>,
}

/// One value of one place.
#[tactic(auto, unfolding(crate::specs::FrameStep::one))]
fn pop_one(frames: &mut Frames) -> Option<Group>
    ensures { TakesGroup result frames.new (one frames.old) }
{
    let top = pop(frames)?;
    if top.places() == 1 {
        Some(Group { top, below: None })
    } else {
        None
    }
}

/// A `Long`, or two values of one place each.
#[tactic(auto, unfolding(crate::specs::FrameStep::one, crate::specs::FrameStep::two))]
fn pop_two(frames: &mut Frames) -> Option<Group>
    ensures { TakesGroup result frames.new (two frames.old) }
{
    let top = pop(frames)?;
    if top.places() == 2 {
        return Some(Group { top, below: None });
    }
    let below = pop(frames)?;
    if below.places() == 1 {
        Some(Group {
            top,
            below: Some(below),
        })
    } else {
        None
    }
}

/// Pushes a group again.
#[tactic(auto, unfolding(crate::specs::FrameStep::pushing_all))]
fn push_group(frames: &mut Frames, group: Group) -> Option<()>
    ensures { Does result frames.new (pushing_all (values group) frames.old) }
{
    if let Some(below) = group.below {
        push(frames, below)?;
    }
    push(frames, group.top)
}

/// Pushes x, y and x again.
fn push_doubled(frames: &mut Frames, x: Group, y: Group) -> Option<()>
    ensures { Does result frames.new (doubled (values x) (values y) frames.old) }
{
    push_group(frames, x)?;
    push_group(frames, y)?;
    push_group(frames, x)
}

/// Pushes the group, and once more.
fn push_twice(frames: &mut Frames, x: Group) -> Option<()>
    ensures { Does result frames.new (and_then (pushing_all (values x) frames.old) (pushing_all (values x))) }
{
    push_group(frames, x)?;
    push_group(frames, x)
}

/// Rearranges the top of the stack.
pub fn rearrange(frames: &mut Frames, operation: StackOperation) -> Option<()>
    ensures { Does result frames.new (rearranging operation frames.old) }
{
    let x = match operation {
        StackOperation::Pop
        | StackOperation::Duplicate
        | StackOperation::DuplicateBelowOne
        | StackOperation::DuplicateBelowTwo
        | StackOperation::Swap => pop_one(frames)?,
        StackOperation::PopTwo
        | StackOperation::DuplicateTwo
        | StackOperation::DuplicateTwoBelowOne
        | StackOperation::DuplicateTwoBelowTwo => pop_two(frames)?,
    };
    match operation {
        StackOperation::Pop | StackOperation::PopTwo => Some(()),
        StackOperation::Duplicate | StackOperation::DuplicateTwo => push_twice(frames, x),
        StackOperation::DuplicateBelowOne | StackOperation::DuplicateTwoBelowOne => {
            let y = pop_one(frames)?;
            push_doubled(frames, x, y)
        }
        StackOperation::DuplicateBelowTwo | StackOperation::DuplicateTwoBelowTwo => {
            let y = pop_two(frames)?;
            push_doubled(frames, x, y)
        }
        StackOperation::Swap => {
            let y = pop_one(frames)?;
            push_group(frames, x)?;
            push_group(frames, y)
        }
    }
}
