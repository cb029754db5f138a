//! How long instructions are, where they begin, and where they jump (JVMS 6.5 and 4.9.1).

ghost use Rattle.std.specs.List.{list_all};
ghost use Rattle.std.specs.Prelude.{◌≡◌, ◌*◌, ◌++◌, ◌<◌, ◌^◌, false, IfOk, length, OnOk, replicate, slice_index_or};
ghost use Rattle.scw_code.specs.Code.{size_at};
ghost use Rattle.scw_code.specs.Instr.{lookup_of, table_of, wide_of};
ghost use Rattle.scw_code.specs.Jump.{further_size, is_jump, jumps_by, jumps_of, layout_size, starts, target_is};
ghost use Rattle.scw_code.specs.Layout.{wide_layout_at};
ghost use Rattle.scw_code.specs.Opcode.{form_of};

use crate::form::Form;
use crate::instr::{Instr, InstrArgs};
use crate::layout::{Layout, Shape, shape_at, wide_layout_at};
use crate::opcode::form_of;
use crate::switch::padding;
use std::alloc::{AllocError, Global};

impl Layout {
    /// How many bytes the numbers take.
    pub fn size(self) -> usize
        ensures { result ≡ layout_size self }
    {
        match self {
            Layout::Nothing => 0,
            Layout::U1 | Layout::S1 => 1,
            Layout::U2 | Layout::S2 | Layout::U1S1 => 2,
            Layout::U2U1 => 3,
            Layout::S4 | Layout::U2S2 | Layout::U2U1U1 => 4,
        }
    }
}

impl InstrArgs {
    /// How many distances a `tableswitch` has, without its default.
    fn jump_count(&self) -> usize
        ensures value { result ≡ length (table_of self.now).jumps }
        ensures bound { 4 * result < 2 ^ 63 }
    {
        match self {
            InstrArgs::Table(table) => table.get().jumps.as_slice().len(),
            InstrArgs::Plain(_) | InstrArgs::Lookup(_) | InstrArgs::Wide { .. } => 0,
        }
    }

    /// How many pairs a `lookupswitch` has.
    fn pair_count(&self) -> usize
        ensures value { result ≡ length (lookup_of self.now).pairs }
        ensures bound { 8 * result < 2 ^ 63 }
    {
        match self {
            InstrArgs::Lookup(lookup) => lookup.get().pairs.as_slice().len(),
            InstrArgs::Plain(_) | InstrArgs::Table(_) | InstrArgs::Wide { .. } => 0,
        }
    }

    /// The opcode behind `wide`, or 0 behind another opcode.
    fn further(&self) -> u8
        ensures { result ≡ (wide_of self.now).0 }
    {
        match self {
            InstrArgs::Wide { op, .. } => *op,
            InstrArgs::Plain(_) | InstrArgs::Table(_) | InstrArgs::Lookup(_) => 0,
        }
    }
}

/// How many bytes stand behind `wide` and the further opcode.
fn further_size(opcode: u8) -> usize
    ensures { result ≡ further_size (wide_layout_at opcode) }
{
    match wide_layout_at(opcode) {
        Some(layout) => layout.size(),
        None => 0,
    }
}

impl Instr {
    /// How many bytes the instruction takes whose opcode is at the place (JVMS 6.5).
    pub fn size(&self, at: usize) -> usize
        ensures { result ≡ size_at at self.now }
    {
        match shape_at(self.op) {
            None => 1,
            Some(Shape::Plain(layout)) => 1 + layout.size(),
            Some(Shape::Table) => 13 + padding(at) + 4 * self.args.jump_count(),
            Some(Shape::Lookup) => 9 + padding(at) + 8 * self.args.pair_count(),
            Some(Shape::Wide) => 2 + further_size(self.args.further()),
        }
    }

    /// Whether each distance to which the instruction at the place may jump leads to an opcode; the marks
    /// are those of `starts`.
    pub fn jumps_well(&self, at: usize, starts: &[bool]) -> bool
        ensures { result ≡ list_all (target_is starts.now at) (jumps_of self.now) }
    {
        match &self.args {
            InstrArgs::Plain(numbers) => {
                !jumps_by(form_of(self.op)) || target_is(starts, at, numbers.first())
            }
            InstrArgs::Table(table) => {
                let table = table.get();
                target_is(starts, at, table.default)
                    && targets_are(starts, at, table.jumps.as_slice())
            }
            InstrArgs::Lookup(lookup) => {
                let lookup = lookup.get();
                target_is(starts, at, lookup.default)
                    && pair_targets_are(starts, at, lookup.pairs.as_slice())
            }
            InstrArgs::Wide { .. } => true,
        }
    }
}

impl Form {
    /// Whether an opcode of this form has one operand, which is a distance.
    pub fn is_jump(self) -> bool
        ensures { result ≡ is_jump self }
    {
        matches!(self, Form::Jump | Form::FarJump)
    }
}

fn jumps_by(form: Option<Form>) -> bool
    ensures { result ≡ jumps_by form }
{
    match form {
        None => false,
        Some(form) => form.is_jump(),
    }
}

/// Whether an opcode is at the place.
fn starts_at(starts: &[bool], place: usize) -> bool
    ensures { result ≡ slice_index_or starts.now place false }
{
    if place < starts.len() {
        starts[place]
    } else {
        false
    }
}

/// Whether an opcode is at this distance from the place.
fn target_is(starts: &[bool], at: usize, distance: i32) -> bool
    ensures { result ≡ target_is starts.now at distance }
{
    let bytes = distance.unsigned_abs() as usize;
    let target = if distance < 0 {
        at.checked_sub(bytes)
    } else {
        at.checked_add(bytes)
    };
    match target {
        None => false,
        Some(place) => starts_at(starts, place),
    }
}

fn targets_are(starts: &[bool], at: usize, distances: &[i32]) -> bool
    ensures { result ≡ list_all (target_is starts.now at) distances.now }
{
    for distance in distances {
        if !target_is(starts, at, *distance) {
            return false;
        }
    }
    true
}

fn pair_targets_are(starts: &[bool], at: usize, pairs: &[(i32, i32)]) -> bool
    ensures { result ≡ list_all (λ p. target_is starts.now at p.1) pairs.now }
{
    for pair in pairs {
        if !target_is(starts, at, pair.1) {
            return false;
        }
    }
    true
}

/// Adds so many marks that aren't set.
fn push_unset(count: usize, starts: &mut Vec<bool>) -> Result<(), AllocError>
    ensures { OnOk result (starts.new.items ≡ starts.old.items ++ replicate count false) }
{
    for _ in 0..count {
        starts.push(false)?;
    }
    Ok(())
}

/// For each byte of the code of the instructions whether an opcode is there; it fails where memory runs out.
pub fn starts(alloc: Global, instrs: &[Instr]) -> Result<Vec<bool>, AllocError>
    ensures { IfOk result (λ marks. marks.items ≡ starts instrs.now) }
{
    let mut starts = Vec::new(alloc);
    for instr in instrs {
        let size = instr.size(starts.len());
        starts.push(true)?;
        push_unset(size.saturating_sub(1), &mut starts)?;
    }
    Ok(starts)
}
