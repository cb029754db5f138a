//! Jumps and switches: JVMS 2.11.7 and 6.5.

ghost use Rattle.std.specs.Prelude.{◌≡◌};
ghost use Rattle.scw_frame.specs.Does.{Does};
ghost use Rattle.scw_frame.specs.Frame.{placed};
ghost use Rattle.scw_frame.specs.JumpStep as step;

use crate::frames::Frames;
use crate::operand::{pop_int, pop_reference};
use crate::program::{Case, Switch};
use scw_value::{Arithmetic, Comparison, int_compared, int_computed};

/// Goes on at the target, or behind the instruction.
fn go(frames: &mut Frames, jumps: bool, target: u16, next: u16)
    ensures { frames.new ≡ step.going jumps target next frames.old }
{
    frames.go_to(if jumps { target } else { next });
}

/// A jump where a number compares so with 0.
pub fn jump_if_zero(
    frames: &mut Frames,
    comparison: Comparison,
    target: u16,
    next: u16,
) -> Option<()>
    ensures { Does result frames.new (step.jumping_if_zero comparison target next frames.old) }
{
    let a = pop_int(frames)?;
    go(frames, int_compared(comparison, a, 0), target, next);
    Some(())
}

/// A jump where two numbers compare so.
pub fn jump_if_ints(
    frames: &mut Frames,
    comparison: Comparison,
    target: u16,
    next: u16,
) -> Option<()>
    ensures { Does result frames.new (step.jumping_if_ints comparison target next frames.old) }
{
    let b = pop_int(frames)?;
    let a = pop_int(frames)?;
    go(frames, int_compared(comparison, a, b), target, next);
    Some(())
}

/// A jump where two references are the same, or where they aren't.
pub fn jump_if_same(frames: &mut Frames, same: bool, target: u16, next: u16) -> Option<()>
    ensures { Does result frames.new (step.jumping_if_same same target next frames.old) }
{
    let b = pop_reference(frames)?;
    let a = pop_reference(frames)?;
    go(frames, if a == b { same } else { !same }, target, next);
    Some(())
}

/// A jump where a reference is null, or where it isn't.
pub fn jump_if_null(frames: &mut Frames, null: bool, target: u16, next: u16) -> Option<()>
    ensures { Does result frames.new (step.jumping_if_null null target next frames.old) }
{
    let a = pop_reference(frames)?;
    go(frames, if a == 0 { null } else { !null }, target, next);
    Some(())
}

/// The target of the first case with the key.
fn case_of(key: u32, cases: &[Case]) -> Option<u16>
    ensures { result ≡ step.case_of key cases.now }
{
    for case in cases {
        if case.key == key {
            return Some(case.target);
        }
    }
    None
}

/// Where the switch goes on at a number.
fn target_of(switch: &Switch, n: u32) -> u16
    ensures { result ≡ step.target_of switch.now n }
{
    match switch {
        Switch::Table {
            default,
            low,
            targets,
        } => {
            if n.cast_signed() < low.cast_signed() {
                return *default;
            }
            let i = int_computed(Arithmetic::Subtract, n, *low);
            match targets.get(i as usize) {
                Some(target) => *target,
                None => *default,
            }
        }
        Switch::Lookup { default, cases } => match case_of(n, cases.as_slice()) {
            Some(target) => target,
            None => *default,
        },
    }
}

/// `tableswitch`, `lookupswitch`
pub fn switch(frames: &mut Frames, switch: &Switch) -> Option<()>
    ensures { Does result frames.new (step.switching switch.now frames.old) }
{
    let n = pop_int(frames)?;
    frames.go_to(target_of(switch, n));
    Some(())
}
