//! The line for errors.

ghost use Rattle.std.specs.Prelude.{◌≡◌, ◌≤◌, ◌++◌, ℕ, List, OnOk, OnErr};
ghost use Rattle.std.specs.Io.KnownBytes.{append_known};
ghost use Rattle.std.specs.Option.{option_map};
ghost use Rattle.scw_outside.specs.Causes.{Rose};
ghost use Rattle.scw_tool.specs.Rules.{rule_name};
ghost use Rattle.scw_tool.specs.Status.{bad_class_line, kind_name, line_of, line_of_end, read_fault_line, refusal_text, shown_name, too_large_line};
ghost use Rattle.scw_tool.specs.Words.{job_file};

use crate::answer::{Answer, Excess};
use itoa::Buffer;
use scw_classfile::ClassRefusal;
use scw_gen::LargeKind;
use scw_machine::{End, Machine};
use scw_outside::{Sink, SinkFailed, put_all};

/// The names of the rules that a class file can break, by their numbers.
fn rule_name(rule: u8) -> &'static [u8]
    ensures { result.now ≡ rule_name rule }
{
    match rule {
        1 => b"Cut",
        2 => b"Magic",
        3 => b"Version",
        4 => b"Tag",
        5 => b"Index",
        6 => b"Utf8",
        7 => b"Descriptor",
        8 => b"AttributeLength",
        9 => b"Code",
        10 => b"Trailing",
        11 => b"Unsupported",
        12 => b"TooLong",
        13 => b"Missing",
        14 => b"Twice",
        15 => b"Stuck",
        _ => b"",
    }
}

/// Puts three texts in a row.
fn put_three<E: Sink>(
    err: &mut E,
    first: &[u8],
    second: &[u8],
    third: &[u8],
) -> Result<(), SinkFailed>
    ensures done { OnOk result (E.taken err.new ≡ append_known (E.taken err.old) (first.now ++ (second.now
        ++ third.now))) }
    ensures later { E.fault_count err.old ≤ E.fault_count err.new }
    ensures rose { OnErr result (Rose (E.fault_count err.old) (E.fault_count err.new)) }
{
    put_all(err, first)?;
    put_all(err, second)?;
    put_all(err, third)
}

fn put_read_fault<E: Sink>(err: &mut E, name: &str) -> Result<(), SinkFailed>
    ensures done { OnOk result (E.taken err.new ≡ append_known (E.taken err.old) (read_fault_line name.now)) }
    ensures rose { OnErr result (Rose (E.fault_count err.old) (E.fault_count err.new)) }
{
    put_three(err, b"cannot read ", name.as_bytes(), b"\n")
}

/// Puts the rule, and how many bytes stand before the fault.
fn put_refusal<E: Sink>(err: &mut E, refusal: ClassRefusal) -> Result<(), SinkFailed>
    ensures done { OnOk result (E.taken err.new ≡ append_known (E.taken err.old) (refusal_text refusal)) }
    ensures rose { OnErr result (Rose (E.fault_count err.old) (E.fault_count err.new)) }
{
    put_all(err, rule_name(refusal.rule))?;
    let mut digits = Buffer::new();
    put_three(err, b" at ", digits.format(refusal.place).as_bytes(), b"\n")
}

fn put_bad_class<E: Sink>(err: &mut E, name: &str, refusal: ClassRefusal) -> Result<(), SinkFailed>
    ensures done { OnOk result
        (E.taken err.new ≡ append_known (E.taken err.old) (bad_class_line name.now refusal)) }
    ensures rose { OnErr result (Rose (E.fault_count err.old) (E.fault_count err.new)) }
{
    put_three(err, b"bad class ", name.as_bytes(), b": ")?;
    put_refusal(err, refusal)
}

fn kind_name(kind: LargeKind) -> &'static [u8]
    ensures { result.now ≡ kind_name kind }
{
    match kind {
        LargeKind::Code => b"Code",
        LargeKind::Pool => b"Pool",
        LargeKind::Fields => b"Fields",
        LargeKind::Methods => b"Methods",
        LargeKind::Slots => b"Slots",
        LargeKind::Interfaces => b"Interfaces",
        LargeKind::Handlers => b"Handlers",
        LargeKind::Frames => b"Frames",
        LargeKind::Descriptor => b"Descriptor",
    }
}

fn put_too_large<E: Sink>(err: &mut E, excess: &Excess) -> Result<(), SinkFailed>
    ensures done { OnOk result (E.taken err.new ≡ append_known (E.taken err.old) (too_large_line excess.now)) }
    ensures rose { OnErr result (Rose (E.fault_count err.old) (E.fault_count err.new)) }
{
    put_three(
        err,
        excess.class.as_bytes(),
        b": too large: ",
        kind_name(excess.kind),
    )?;
    let mut digits = Buffer::new();
    put_three(err, b" ", digits.format(excess.number).as_bytes(), b"\n")
}

/// Puts what is said of a machine that ended so.
fn put_end<E: Sink>(err: &mut E, machine: &Machine, end: End) -> Result<(), SinkFailed>
    ensures done { OnOk result (E.taken err.new ≡ append_known (E.taken err.old) (line_of_end machine.now end)) }
    ensures rose { OnErr result (Rose (E.fault_count err.old) (E.fault_count err.new)) }
{
    match end {
        End::Ended | End::Stuck(_) => Ok(()),
        End::Thrown(r) => machine.tell(r, err),
        End::Steps => put_all(err, b"steps spent\n"),
        End::HeapFull { .. } => put_all(err, b"heap full\n"),
        End::Frames => put_all(err, b"too many frames\n"),
        End::SinkFault => put_all(err, b"cannot write output\n"),
    }
}

fn shown<'a>(name: Option<&'a str>) -> &'a str
    ensures { result.now ≡ shown_name (option_map (λ s. s.now) name.entry) }
{
    match name {
        Some(name) => name,
        None => "",
    }
}

/// Puts the line of an answer, where there is one. A failure is the sink's own.
pub fn report<E: Sink>(err: &mut E, name: Option<&str>, answer: &Answer) -> Result<(), SinkFailed>
    ensures done { (words : List (List ℕ)) → option_map (λ s. s.now) name.entry ≡ job_file words →
        OnOk result (E.taken err.new ≡ append_known (E.taken err.old) (line_of words answer.now)) }
    ensures rose { OnErr result (Rose (E.fault_count err.old) (E.fault_count err.new)) }
{
    match answer {
        Answer::Ran(run) => put_end(err, &run.machine, run.end),
        Answer::Shown => Ok(()),
        Answer::Words => put_all(
            err,
            b"usage: scw MODE [--main NAME] [--steps N] [--dir DIR] FILES\n",
        ),
        Answer::ReadFault => put_read_fault(err, shown(name)),
        Answer::ShowFault => put_all(err, b"cannot write output\n"),
        Answer::BadClass(refusal) => put_bad_class(err, shown(name), *refusal),
        Answer::TooLarge(excess) => put_too_large(err, excess),
        Answer::NoMemory => put_all(err, b"no memory\n"),
        Answer::NotBuilt => put_all(err, b"not built: source at 1:1\n"),
    }
}
