//! The frames of the machine (JVMS 2.6), in memory that is reserved once.

ghost use Rattle.std.specs.Prelude.{◌^◌, ◌-◌, ◌++◌, drop, vec_len, ◌≡◌, ◌+◌, ◌≤◌, ◌<◌, ℕ, [], ◌∷◌, length, replicate, IfOk, IfSome, IfNone, MatchOption, slice_get, slice_set, if◌then◌else◌, IsTrue, IsFalse};
ghost use Rattle.std.specs.Vec.{vec_capacity};
ghost use Rattle.scw_frame.specs.Frame.{are_arguments, are_of, arguments, can_enter, entered, frame_for, is_of, locals_of, places, spread, places_of, has_room, pushed, placed, with_stack, with_locals, HasLeft};
ghost use Rattle.scw_frame.specs.declared.value.Value.TheVariants.{Unset};

use crate::program::MethodNumber;
use crate::value::{Value, ValueKind};
use scw_text::NoMemory;
use std::alloc::Global;
use std::marker::Model;

/// An open call: how much of the memory of all frames is its own.
#[derive(Clone, Copy)]
pub struct Activation {
    pub method: MethodNumber,
    pub place: u16,
    /// How many places the operand stack has.
    pub room: u16,
    /// How many of them are taken.
    pub depth: u16,
    /// How many values the operand stack holds.
    pub operands: u16,
    /// How many local variables there are.
    pub locals: u16,
}

/// The open calls.
#[derive(Drop)]
pub struct Frames {
    operands: Vec<Value>,
    locals: Vec<Value>,
    current: Activation,
    callers: Vec<Activation>,
    in_use: u64,
    most_frames: u32,
    most_words: u32,
}

impl Model for Frames {
    ghost use Rattle.std.specs.Prelude.{reverse};
    ghost use Rattle.std.specs.Vec.{vec_capacity};
    ghost use Rattle.scw_frame.specs.Frame.{Calls};
    ghost use Rattle.scw_frame.specs.FrameLayout.{IsSound, calls_of};

    ghost Value = { Calls };

    ghost view = { λ f. calls_of f.current (reverse f.callers.items) (reverse f.operands.items) f.locals.items f.most_frames f.most_words };

    ghost invariant = { λ f. IsSound f.current f.callers.items f.operands.items f.locals.items f.in_use f.most_frames f.most_words (vec_capacity f.operands) (vec_capacity f.locals) (vec_capacity f.callers) };
}

impl Value {
    /// How many places the value takes on the stack.
    pub fn places(self) -> u16
        ensures value { result ≡ places_of self }
        ensures within { result ≤ 2 }
    {
        match self {
            Value::Long(_) => 2,
            Value::Unset | Value::Int(_) | Value::Reference(_) => 1,
        }
    }
}

impl Frames {
    /// Frames of which one acts, with so many places on its stack and so many local variables, all unset. Only this call
    /// takes memory.
    ///
    /// # Errors
    ///
    /// `NoMemory` where memory runs out.
    pub fn new(
        alloc: Global,
        method: MethodNumber,
        room: u16,
        locals: u16,
        most_frames: u32,
        most_words: u32,
    ) -> Result<Frames, NoMemory>
        requires frames { 1 ≤ most_frames }
        requires words { 1 + room + locals ≤ most_words }
        ensures { IfOk result (λ f. f ≡ record { current = frame_for method room (replicate locals Unset); callers = []; most_frames = Some most_frames; most_words = Some most_words }) }
    {
        let operands = Vec::with_capacity(alloc, most_words as usize)?;
        let mut variables = Vec::with_capacity(alloc, most_words as usize)?;
        unset(&mut variables, locals as usize);
        let callers = Vec::with_capacity(alloc, most_frames as usize)?;
        Ok(Frames {
            operands,
            locals: variables,
            current: Activation {
                method,
                place: 0,
                room,
                depth: 0,
                operands: 0,
                locals,
            },
            callers,
            in_use: 1 + room as u64 + locals as u64,
            most_frames,
            most_words,
        })
    }

    /// The method whose frame acts.
    pub fn method(&self) -> MethodNumber
        ensures { result ≡ self.now.current.method }
    {
        self.current.method
    }

    /// The place of the instruction that acts.
    pub fn place(&self) -> u16
        ensures { result ≡ self.now.current.place }
    {
        self.current.place
    }

    /// How many frames wait.
    pub fn depth_of_callers(&self) -> usize
        ensures { result ≡ length self.now.callers }
    {
        self.callers.len()
    }

    /// Goes on at the place.
    pub fn go_to(&mut self, place: u16)
        ensures { self.new ≡ placed place self.old }
    {
        self.current.place = place;
    }

    /// Whether the stack has room for the value.
    pub fn has_room(&self, value: Value) -> bool
        ensures { result ≡ has_room value self.now }
    {
        let current = self.current;
        value.places() <= current.room - current.depth
    }

    /// Pushes the value, and answers whether the stack has room for it.
    pub fn push(&mut self, value: Value) -> bool
        ensures value { result ≡ has_room value self.old }
        ensures new { self.new ≡ (if has_room value self.old then pushed value self.old else self.old) }
    {
        let places = value.places();
        if self.current.room - self.current.depth < places {
            return false;
        }
        self.operands.push(value).unwrap();
        self.current.depth += places;
        self.current.operands += 1;
        true
    }

    /// Takes the top of the stack.
    pub fn pop(&mut self) -> Option<Value>
        ensures { MatchOption result ((self.old.current.stack ≡ []) × (self.new ≡ self.old)) (λ top. self.old ≡ pushed top self.new) }
    {
        if self.current.operands == 0 {
            return None;
        }
        let value = self.operands.pop()?;
        self.current.depth -= value.places();
        self.current.operands -= 1;
        Some(value)
    }

    /// The value so far below the top of the stack, if there is one.
    pub fn operand(&self, i: usize) -> Option<Value>
        ensures { result ≡ slice_get self.now.current.stack i }
    {
        let current = self.current;
        if i >= current.operands as usize {
            return None;
        }
        Some(self.operands[self.operands.len() - 1 - i])
    }

    /// How many local variables there are.
    pub fn local_count(&self) -> u16
        ensures { result ≡ length self.now.current.locals }
    {
        self.current.locals
    }

    /// The local variable, if there is one of that number.
    pub fn local(&self, i: u16) -> Option<Value>
        ensures { result ≡ slice_get self.now.current.locals i }
    {
        if i >= self.current.locals {
            return None;
        }
        let first = self.locals.len() - self.current.locals as usize;
        Some(self.locals[first + i as usize])
    }

    /// Puts the local variable.
    pub fn set_local(&mut self, i: u16, value: Value)
        requires { i < length self.old.current.locals }
        ensures { self.new ≡ with_locals (slice_set self.old.current.locals i value) self.old }
    {
        let first = self.locals.len() - self.current.locals as usize;
        self.locals[first + i as usize] = value;
    }

    /// Empties the stack.
    pub fn clear(&mut self)
        ensures { self.new ≡ with_stack [] self.old }
    {
        let below = self.operands.len() - self.current.operands as usize;
        self.operands.truncate(below);
        self.current.depth = 0;
        self.current.operands = 0;
    }

    /// Ends the frame that acts, so that its caller acts again; without a caller it stays, and the answer is `false`.
    pub fn leave(&mut self) -> bool
        ensures { HasLeft result self.old self.new }
    {
        let Some(caller) = self.callers.pop() else {
            return false;
        };
        self.in_use -= 1 + self.current.room as u64 + self.current.locals as u64;
        let operands = self.operands.len() - self.current.operands as usize;
        self.operands.truncate(operands);
        let locals = self.locals.len() - self.current.locals as usize;
        self.locals.truncate(locals);
        self.current = caller;
        true
    }

    /// How many places the arguments on top of the stack take, if they are of these kinds; the first lies deepest.
    pub fn arguments_of(&self, kinds: &[ValueKind]) -> Option<u16>
        ensures { result ≡ (if are_arguments kinds.now self.now then Some (places (arguments (length kinds.now) self.now)) else None) }
    {
        let current = self.current;
        if kinds.len() > current.operands as usize {
            return None;
        }
        places_if(last(self.operands.as_slice(), kinds.len()), kinds)
    }

    /// Whether the limits leave room for one more frame, with so many places on its stack and local variables.
    pub fn can_enter(&self, room: u16, locals: u16) -> bool
        ensures { result ≡ can_enter room locals self.now }
    {
        let words = self.in_use + 1 + room as u64 + locals as u64;
        self.callers.len() + 1 < self.most_frames as usize && words <= self.most_words as u64
    }

    /// Lets a new frame for the method act, with so many places on its stack, and so many local variables, the first of
    /// which the arguments fill that are taken from the stack.
    pub fn enter(&mut self, method: MethodNumber, room: u16, locals: u16, count: usize)
        requires taken { count ≤ length self.old.current.stack }
        requires fit { places (arguments count self.old) ≤ locals }
        requires limits { IsTrue (can_enter room locals self.old) }
        ensures { self.new ≡ entered method room locals count self.old }
    {
        let places = fill(
            &mut self.locals,
            last(self.operands.as_slice(), count),
            locals,
        );
        let first = self.operands.len() - count;
        self.operands.truncate(first);
        self.current.depth -= places;
        self.current.operands -= count as u16;
        keep(&mut self.callers, self.current);
        self.in_use += 1 + room as u64 + locals as u64;
        self.current = Activation {
            method,
            place: 0,
            room,
            depth: 0,
            operands: 0,
            locals,
        };
    }
}

/// The last values.
fn last(values: &[Value], count: usize) -> &[Value]
    requires { count ≤ length values.now }
    ensures { result.now ≡ drop (length values.now - count) values.now }
{
    values.split_at(values.len() - count).1
}

/// Whether the value is of the kind.
fn is_of(kind: ValueKind, value: Value) -> bool
    ensures { result ≡ is_of kind value }
{
    match kind {
        ValueKind::Int => matches!(value, Value::Int(_)),
        ValueKind::Long => matches!(value, Value::Long(_)),
        ValueKind::Reference => matches!(value, Value::Reference(_)),
    }
}

/// How many places the values take, if they are of these kinds.
fn places_if(values: &[Value], kinds: &[ValueKind]) -> Option<u16>
    requires length { length values.now ≡ length kinds.now }
    requires within { places values.now < 2 ^ 16 }
    ensures { result ≡ (if are_of kinds.now values.now then Some (places values.now) else None) }
{
    let mut places = 0;
    for i in 0..kinds.len() {
        if !is_of(kinds[i], values[i]) {
            return None;
        }
        places += values[i].places();
    }
    Some(places)
}

/// Puts the arguments behind the local variables. The room is reserved, so that no memory is taken.
fn spread(locals: &mut Vec<Value>, arguments: &[Value])
    requires { vec_len locals.old + places arguments.now ≤ vec_capacity locals.old }
    ensures items { locals.new.items ≡ locals.old.items ++ spread arguments.now }
    ensures capacity { vec_capacity locals.old ≤ vec_capacity locals.new }
{
    for argument in arguments {
        locals.push(*argument).unwrap();
        if let Value::Long(_) = argument {
            locals.push(Value::Unset).unwrap();
        }
    }
}

/// Puts so many local variables that hold nothing behind the others. The room is reserved, so that no memory is taken.
fn unset(locals: &mut Vec<Value>, count: usize)
    requires { vec_len locals.old + count ≤ vec_capacity locals.old }
    ensures items { locals.new.items ≡ locals.old.items ++ replicate count Unset }
    ensures capacity { vec_capacity locals.old ≤ vec_capacity locals.new }
{
    let end = locals.len() + count;
    locals.resize(end, Value::Unset).unwrap();
}

/// Puts so many local variables behind the others, the first of which the arguments fill, and answers how many those
/// are. The room is reserved, so that no memory is taken.
fn fill(locals: &mut Vec<Value>, arguments: &[Value], count: u16) -> u16
    requires fit { places arguments.now ≤ count }
    requires room { vec_len locals.old + count ≤ vec_capacity locals.old }
    ensures value { result ≡ places arguments.now }
    ensures items { locals.new.items ≡ locals.old.items ++ locals_of count arguments.now }
    ensures capacity { vec_capacity locals.old ≤ vec_capacity locals.new }
{
    let below = locals.len();
    spread(locals, arguments);
    let places = locals.len() - below;
    unset(locals, count as usize - places);
    places as u16
}

/// Puts the frame that waits behind the others. The room is reserved, so that no memory is taken.
fn keep(callers: &mut Vec<Activation>, caller: Activation)
    requires { vec_len callers.old < vec_capacity callers.old }
    ensures items { callers.new.items ≡ callers.old.items ++ (caller ∷ []) }
    ensures capacity { vec_capacity callers.old ≤ vec_capacity callers.new }
{
    callers.push(caller).unwrap();
}
