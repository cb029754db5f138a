//! Numbers of 32 and 64 bits: what operators, comparisons and conversions give.

use scw_rows::{Stop, Subject};
use scw_value::{
    Arithmetic, Comparison, Conversion, Decimal, Division, Shift, int_compared, int_computed,
    int_converted, int_divided, int_negated, int_shifted, long_computed, long_divided,
    long_negated, long_order, long_shifted, narrowed, widened,
};
use std::alloc::{AllocError, Global};

/// What an operator gives.
enum Number {
    Int(u32),
    Long(u64),
    Boolean(bool),
}

fn arithmetic_of(operator: &str) -> Option<Arithmetic> {
    match operator {
        "+" => Some(Arithmetic::Add),
        "-" => Some(Arithmetic::Subtract),
        "*" => Some(Arithmetic::Multiply),
        "&" => Some(Arithmetic::And),
        "|" => Some(Arithmetic::Or),
        "^" => Some(Arithmetic::Xor),
        _ => None,
    }
}

fn division_of(operator: &str) -> Option<Division> {
    match operator {
        "/" => Some(Division::Divide),
        "%" => Some(Division::Remainder),
        _ => None,
    }
}

fn shift_of(operator: &str) -> Option<Shift> {
    match operator {
        "<<" => Some(Shift::Left),
        ">>" => Some(Shift::Right),
        ">>>" => Some(Shift::UnsignedRight),
        _ => None,
    }
}

fn comparison_of(operator: &str) -> Option<Comparison> {
    match operator {
        "==" => Some(Comparison::Equal),
        "!=" => Some(Comparison::NotEqual),
        "<" => Some(Comparison::Less),
        ">=" => Some(Comparison::GreaterOrEqual),
        ">" => Some(Comparison::Greater),
        "<=" => Some(Comparison::LessOrEqual),
        _ => None,
    }
}

fn conversion_of(operator: &str) -> Option<Conversion> {
    match operator {
        "toByte" => Some(Conversion::IntToByte),
        "toChar" => Some(Conversion::IntToChar),
        "toShort" => Some(Conversion::IntToShort),
        _ => None,
    }
}

/// The operator between two numbers of 32 bits; of a shift the second is the count.
fn of_ints(operator: &str, a: u32, b: u32) -> Option<Number> {
    if let Some(operator) = arithmetic_of(operator) {
        return Some(Number::Int(int_computed(operator, a, b)));
    }
    if let Some(operator) = shift_of(operator) {
        return Some(Number::Int(int_shifted(operator, a, b)));
    }
    if let Some(operator) = comparison_of(operator) {
        return Some(Number::Boolean(int_compared(operator, a, b)));
    }
    match division_of(operator) {
        Some(operator) if b != 0 => Some(Number::Int(int_divided(operator, a, b))),
        Some(_) | None => None,
    }
}

/// The operator between two numbers of 64 bits; of a shift the second is the count, in its low 32 bits.
fn of_longs(operator: &str, a: u64, b: u64) -> Option<Number> {
    if let Some(operator) = arithmetic_of(operator) {
        return Some(Number::Long(long_computed(operator, a, b)));
    }
    if let Some(operator) = shift_of(operator) {
        return Some(Number::Long(long_shifted(operator, a, narrowed(b))));
    }
    if operator == "order" {
        return Some(Number::Int(long_order(a, b)));
    }
    match division_of(operator) {
        Some(operator) if b != 0 => Some(Number::Long(long_divided(operator, a, b))),
        Some(_) | None => None,
    }
}

/// The operator before one number.
fn of_one(type_name: &str, operator: &str, a: u64) -> Option<Number> {
    if let Some(conversion) = conversion_of(operator) {
        return Some(Number::Int(int_converted(conversion, narrowed(a))));
    }
    match (type_name, operator) {
        ("Int", "value") => Some(Number::Int(narrowed(a))),
        ("Int", "negated") => Some(Number::Int(int_negated(narrowed(a)))),
        ("Int", "toLong") => Some(Number::Long(widened(narrowed(a)))),
        ("Long", "value") => Some(Number::Long(a)),
        ("Long", "negated") => Some(Number::Long(long_negated(a))),
        ("Long", "toInt") => Some(Number::Int(narrowed(a))),
        _ => None,
    }
}

/// The characters of a number, as a program shows it.
fn characters(alloc: Global, decimal: &Decimal) -> Result<String, AllocError> {
    let mut text = String::new(alloc);
    for i in 0..decimal.len() {
        text.push(char::from(decimal.at(i)))?;
    }
    Ok(text)
}

/// The bits of a number, in decimal digits or, behind `0x`, in hexadecimal ones.
fn bits_of(cell: &str) -> u64 {
    match cell.strip_prefix("0x") {
        Some(digits) => u64::from_str_radix(digits, 16).unwrap_or(0),
        None => cell.parse::<i64>().unwrap_or(0).cast_unsigned(),
    }
}

/// A type, an operator, and one or two numbers.
#[derive(Drop)]
pub struct Computations;

impl Subject for Computations {
    fn answer(&mut self, alloc: Global, cells: &[String]) -> Result<String, Stop> {
        let number = match cells {
            [kind, operator, a] => of_one(kind.as_str(), operator.as_str(), bits_of(a.as_str())),
            [kind, operator, a, b] => {
                let (a, b) = (bits_of(a.as_str()), bits_of(b.as_str()));
                match kind.as_str() {
                    "Int" => of_ints(operator.as_str(), narrowed(a), narrowed(b)),
                    _ => of_longs(operator.as_str(), a, b),
                }
            }
            _ => None,
        };
        Ok(match number {
            Some(Number::Int(bits)) => characters(alloc, &Decimal::of_int(bits))?,
            Some(Number::Long(bits)) => characters(alloc, &Decimal::of_long(bits))?,
            Some(Number::Boolean(is)) => format!(in alloc; "{is}")?,
            None => format!(in alloc; "no number")?,
        })
    }
}
