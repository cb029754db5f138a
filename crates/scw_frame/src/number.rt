//! Computing with numbers: JVMS 2.11.3, 2.11.4 and 6.5.

ghost use Rattle.std.specs.Prelude.{◌≡◌, []};
ghost use Rattle.scw_frame.specs.Does.{Divides, Does};
ghost use Rattle.scw_frame.specs.Frame.{with_stack};
ghost use Rattle.scw_frame.specs.NumberStep as step;

use crate::frames::Frames;
use crate::operand::{pop_int, pop_long, push};
use crate::value::Value;
use scw_value::{
    Arithmetic, Conversion, Division, Shift, int_computed, int_converted, int_divided, int_negated,
    int_shifted, long_computed, long_divided, long_negated, long_order, long_shifted, narrowed,
    widened,
};

/// Whether the divisor was 0.
#[derive(Clone, Copy)]
pub enum Divided {
    Done,
    ByZero,
}

/// `iadd` and the other operations on two numbers of 32 bits.
pub fn compute_ints(frames: &mut Frames, operation: Arithmetic) -> Option<()>
    ensures { Does result frames.new (step.computing_ints operation frames.old) }
{
    let b = pop_int(frames)?;
    let a = pop_int(frames)?;
    push(frames, Value::Int(int_computed(operation, a, b)))
}

/// `ladd` and the other operations on two numbers of 64 bits.
pub fn compute_longs(frames: &mut Frames, operation: Arithmetic) -> Option<()>
    ensures { Does result frames.new (step.computing_longs operation frames.old) }
{
    let b = pop_long(frames)?;
    let a = pop_long(frames)?;
    push(frames, Value::Long(long_computed(operation, a, b)))
}

/// `ineg`
pub fn negate_int(frames: &mut Frames) -> Option<()>
    ensures { Does result frames.new (step.negating_int frames.old) }
{
    let a = pop_int(frames)?;
    push(frames, Value::Int(int_negated(a)))
}

/// `lneg`
pub fn negate_long(frames: &mut Frames) -> Option<()>
    ensures { Does result frames.new (step.negating_long frames.old) }
{
    let a = pop_long(frames)?;
    push(frames, Value::Long(long_negated(a)))
}

/// `ishl`, `ishr`, `iushr`
pub fn shift_int(frames: &mut Frames, operation: Shift) -> Option<()>
    ensures { Does result frames.new (step.shifting_int operation frames.old) }
{
    let by = pop_int(frames)?;
    let a = pop_int(frames)?;
    push(frames, Value::Int(int_shifted(operation, a, by)))
}

/// `lshl`, `lshr`, `lushr`
pub fn shift_long(frames: &mut Frames, operation: Shift) -> Option<()>
    ensures { Does result frames.new (step.shifting_long operation frames.old) }
{
    let by = pop_int(frames)?;
    let a = pop_long(frames)?;
    push(frames, Value::Long(long_shifted(operation, a, by)))
}

/// `i2b`, `i2c`, `i2s`
pub fn convert(frames: &mut Frames, operation: Conversion) -> Option<()>
    ensures { Does result frames.new (step.converting operation frames.old) }
{
    let a = pop_int(frames)?;
    push(frames, Value::Int(int_converted(operation, a)))
}

/// `i2l`
pub fn widen(frames: &mut Frames) -> Option<()>
    ensures { Does result frames.new (step.widening frames.old) }
{
    let a = pop_int(frames)?;
    push(frames, Value::Long(widened(a)))
}

/// `l2i`
pub fn narrow(frames: &mut Frames) -> Option<()>
    ensures { Does result frames.new (step.narrowing frames.old) }
{
    let a = pop_long(frames)?;
    push(frames, Value::Int(narrowed(a)))
}

/// `lcmp`
pub fn compare_longs(frames: &mut Frames) -> Option<()>
    ensures { Does result frames.new (step.comparing frames.old) }
{
    let b = pop_long(frames)?;
    let a = pop_long(frames)?;
    push(frames, Value::Int(long_order(a, b)))
}

/// `idiv`, `irem`
pub fn divide_ints(frames: &mut Frames, operation: Division) -> Option<Divided>
    ensures divides { Divides result frames.new (step.dividing_ints operation frames.old) }
    ensures calm { with_stack [] frames.new ≡ with_stack [] frames.old }
{
    let b = pop_int(frames)?;
    let a = pop_int(frames)?;
    if b == 0 {
        return Some(Divided::ByZero);
    }
    push(frames, Value::Int(int_divided(operation, a, b)))?;
    Some(Divided::Done)
}

/// `ldiv`, `lrem`
pub fn divide_longs(frames: &mut Frames, operation: Division) -> Option<Divided>
    ensures divides { Divides result frames.new (step.dividing_longs operation frames.old) }
    ensures calm { with_stack [] frames.new ≡ with_stack [] frames.old }
{
    let b = pop_long(frames)?;
    let a = pop_long(frames)?;
    if b == 0 {
        return Some(Divided::ByZero);
    }
    push(frames, Value::Long(long_divided(operation, a, b)))?;
    Some(Divided::Done)
}
