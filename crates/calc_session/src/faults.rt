//! The lines that tell a fault.
ghost use Rattle.std.specs.Prelude.{◌≡◌, ◌≢◌, ◌++◌, IfOk, OnOk, is_ok, if◌then◌else◌, codes, option_map, Option};
ghost use Rattle.std.specs.Fmt.{decimal};
ghost use Rattle.calc_session.specs.Faults.{fault_line, fault_words, fault_column, column_text};

use crate::fault::LineFault;
use itoa::Buffer;
use sdmp_laws::NoMemory;
use std::alloc::{AllocError, Global};

/// Appends the fault line, all or nothing. Want of memory is no fault of a line, and is answered with itself.
pub fn write_fault(
    alloc: Global,
    line: u64,
    fault: &LineFault,
    out: &mut Vec<u8>,
) -> Result<(), NoMemory>
    ensures appended { out.new.items ≡ (if is_ok result then out.old.items ++ fault_line line fault.now else out.old.items) }
    ensures told { OnOk result (fault.now ≢ LineFault.NoMemory) }
{
    if let LineFault::NoMemory = fault {
        return Err(NoMemory);
    }
    let text = line_of(alloc, line, fault)?;
    out.extend_from_slice(&text)?;
    Ok(())
}

fn line_of(alloc: Global, line: u64, fault: &LineFault) -> Result<Vec<u8>, AllocError>
    ensures { IfOk result (λ text. text.items ≡ fault_line line fault.now) }
{
    let mut text = Vec::new(alloc);
    text.extend_from_slice(b"line ")?;
    write_number(&mut text, line)?;
    text.extend_from_slice(b": ")?;
    text.extend_from_slice(words_of(fault).as_bytes())?;
    if let Some(column) = column_of(fault) {
        text.extend_from_slice(b" at ")?;
        write_number(&mut text, column)?;
    }
    text.push(b'\n')?;
    Ok(text)
}

pub(crate) fn write_number(out: &mut Vec<u8>, n: u64) -> Result<(), AllocError>
    ensures { out.new.items ≡ (if is_ok result then out.old.items ++ decimal n else out.old.items) }
{
    let mut buffer = Buffer::new();
    out.extend_from_slice(buffer.format(n).as_bytes())
}

/// The words of a fault, without its column.
#[tactic(auto, unfolding(crate::specs::Faults::fault_words))]
fn words_of(fault: &LineFault) -> &'static str
    ensures { result.now ≡ fault_words fault.now }
{
    match fault {
        LineFault::VarsExpected => "vars expected",
        LineFault::VariableCount => "variable count",
        LineFault::BadName => "bad name",
        LineFault::ReservedName => "reserved name",
        LineFault::RepeatedName => "repeated name",
        LineFault::RingExpected => "ring expected",
        LineFault::BadModulus => "bad modulus",
        LineFault::BadOrder => "bad order",
        LineFault::VariableName => "variable name",
        LineFault::Syntax { .. } => "syntax",
        LineFault::UnknownNameAt { .. } => "unknown name",
        LineFault::DegreeBoundAt { .. } => "degree bound",
        LineFault::CoefficientBoundAt { .. } => "coefficient bound",
        LineFault::UnknownCommand => "unknown command",
        LineFault::ArgumentCount => "argument count",
        LineFault::UnknownName => "unknown name",
        LineFault::DegreeBound => "degree bound",
        LineFault::CoefficientBound => "coefficient bound",
        LineFault::TermBound => "term bound",
        LineFault::ZeroDivisor => "division by zero",
        LineFault::NotUnit => "leading coefficient is no unit",
        LineFault::NoMemory => "",
    }
}

#[tactic(auto, unfolding(crate::specs::Faults::fault_column))]
fn column_of(fault: &LineFault) -> Option<u64>
    ensures { result ≡ fault_column fault.now }
{
    match fault {
        LineFault::Syntax { column } => Some(*column),
        LineFault::UnknownNameAt { column } => Some(*column),
        LineFault::DegreeBoundAt { column } => Some(*column),
        LineFault::CoefficientBoundAt { column } => Some(*column),
        _ => None,
    }
}
