ghost use Rattle.std.specs.Prelude.{◌≡◌, ◌≢◌, Err, ◌<◌, ◌≤◌, ◌++◌, ℕ, [], List, length, Some, IfOk, OnErr, IsErrOf};
ghost use Rattle.sdmp_top.specs.Outside.{HasCause, HasGiven, Rose};

use crate::outside::Source;
use std::alloc::{AllocError, Global};

/// The longest input.
pub const MAX_INPUT: usize = 67_108_864;

const CHUNK: usize = 4096;

#[derive(Clone, Copy, Debug, PartialEq, Eq)]
pub enum IntakeFault {
    ReadFault,
    TooLong,
    NoMemory,
}

impl From<AllocError> for IntakeFault {
    ghost use Rattle.sdmp_top.specs.declared.intake.IntakeFault.TheVariants.{NoMemory};

    ghost from_gives = { λ _ e. e ≡ NoMemory };

    fn from(_: AllocError) -> Self {
        IntakeFault::NoMemory
    }
}

/// Reads the whole input.
pub fn read_all<S: Source>(alloc: Global, source: &mut S) -> Result<Vec<u8>, IntakeFault>
    ensures given { IfOk result (λ bytes. HasGiven (S.left source.old) (S.left source.new) bytes.items) }
    ensures whole { IfOk result (λ bytes. (left : List ℕ) → S.left source.old ≡ Some left → bytes.items ≡ left) }
    ensures ended { IfOk result (λ _. (left : List ℕ) → S.left source.old ≡ Some left → S.left source.new ≡ Some []) }
    ensures short { IfOk result (λ bytes. length bytes.items ≤ MAX_INPUT) }
    ensures later { S.faults source.old ≤ S.faults source.new }
    ensures steady { result ≢ Err IntakeFault.ReadFault → S.faults source.new ≡ S.faults source.old }

    ensures read_fault { IsErrOf result IntakeFault.ReadFault
        → Rose (S.faults source.old) (S.faults source.new) (S.at_last source.new) }
    ensures too_long { IsErrOf result IntakeFault.TooLong
        → (left : List ℕ) → S.left source.old ≡ Some left → MAX_INPUT < length left }
{
    let mut bytes = Vec::new(alloc);
    let mut buffer = [0u8; CHUNK];
    loop {
        let Ok(n) = source.read(&mut buffer) else {
            return Err(IntakeFault::ReadFault);
        };
        if n == 0 {
            return Ok(bytes);
        }
        if n > MAX_INPUT - bytes.len() {
            return Err(IntakeFault::TooLong);
        }
        bytes.extend_from_slice(&buffer[..n])?;
    }
}
