//! The line with the variables.
ghost use Rattle.std.specs.Prelude.{◌≡◌, ◌≢◌, Ok, Err, IfOk, IfErr};
ghost use Rattle.poly_text.specs.Words.{words_of};
ghost use Rattle.calc_session.specs.Header.{vars_of, name_fault};

use crate::fault::LineFault;
use poly_text::{Names, NamesFault, split_word};
use std::alloc::Global;

/// The variables of a line that isn't skipped.
pub fn parse_vars(alloc: Global, line: &[u8]) -> Result<Names, LineFault>
    ensures names { IfOk result (λ names. vars_of (words_of line.now) ≡ Ok names) }
    ensures refused { IfErr result (λ fault. fault ≢ LineFault.NoMemory → vars_of (words_of line.now) ≡ Err fault) }
{
    let Some((first, words)) = split_word(line) else {
        return Err(LineFault::VarsExpected);
    };
    if first != b"vars".as_slice() {
        return Err(LineFault::VarsExpected);
    }
    match Names::new(alloc, words) {
        Ok(names) => Ok(names),
        Err(fault) => Err(fault_of(fault)),
    }
}

fn fault_of(fault: NamesFault) -> LineFault
    ensures { result ≡ name_fault fault }
{
    match fault {
        NamesFault::Count => LineFault::VariableCount,
        NamesFault::BadName { .. } => LineFault::BadName,
        NamesFault::Reserved { .. } => LineFault::ReservedName,
        NamesFault::Repeated { .. } => LineFault::RepeatedName,
        NamesFault::NoMemory => LineFault::NoMemory,
    }
}
