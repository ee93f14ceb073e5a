//! Whether a text is in the grammar, and where not.
ghost use Rattle.std.specs.Prelude.{◌≡◌, ◌/◌, ◌%◌, ◌^◌};
ghost use Rattle.text_laws.specs.Automaton.{next, is_whole, run, start, fault_place};
ghost use Rattle.text_laws.specs.Bytes.{class_of};
ghost use Rattle.text_laws.specs.declared.State.{State};
ghost use Rattle.poly_text.specs.Codes.{code_of};

use crate::class::{class_digit, class_of_byte};
use text_laws::{ByteClass, State};

/// The state behind a byte of this class.
#[inline(always)]
fn next_state(state: State, class: ByteClass) -> State
    ensures { result ≡ next state class }
{
    match class {
        ByteClass::Blank => match state {
            State::Number => State::NumberEnd,
            State::Name => State::NameEnd,
            _ => state,
        },
        ByteClass::Digit => match state {
            State::Start | State::Term | State::Number | State::Exponent => State::Number,
            State::Name => State::Name,
            _ => State::Dead,
        },
        ByteClass::Letter => match state {
            State::Start | State::Term | State::Power | State::Name => State::Name,
            _ => State::Dead,
        },
        ByteClass::Sign => match state {
            State::Start | State::Number | State::NumberEnd | State::Name | State::NameEnd => {
                State::Term
            }
            _ => State::Dead,
        },
        ByteClass::Star => match state {
            State::Number | State::NumberEnd | State::Name | State::NameEnd => State::Power,
            _ => State::Dead,
        },
        ByteClass::Caret => match state {
            State::Name | State::NameEnd => State::Exponent,
            _ => State::Dead,
        },
        ByteClass::Other => State::Dead,
    }
}

/// For each digit of a class the steps of the automaton: from bit `c` on, where `c` is the code of a state, stands in six bits the code of the state behind it. The states are coded from the right, `Start` as 0o00 up to `Dead` as 0o60.
static STEPS: [u64; 8] = [
    0o60_52_44_44_30_22_22_06_00,
    0o60_14_60_36_60_60_14_14_14,
    0o60_60_60_36_36_60_60_36_36,
    0o60_60_06_06_60_06_06_60_06,
    0o60_60_30_30_60_30_30_60_60,
    0o60_60_52_52_60_60_60_60_60,
    0o60_60_60_60_60_60_60_60_60,
    0o60_60_60_60_60_60_60_60_60,
];

/// The steps at this byte.
#[inline(always)]
fn steps_at(b: u8) -> u64
    ensures { (s : State) → (result / 2 ^ code_of s) % 64 ≡ code_of (next s (class_of b)) }
{
    STEPS[class_digit(b) as usize]
}

const NUMBER: u64 = 0o14;

const NUMBER_END: u64 = 0o22;

const NAME: u64 = 0o36;

const NAME_END: u64 = 0o44;

/// Whether a text may end in the state of this code.
fn is_whole_code(code: u64) -> bool
    ensures { (s : State) → code ≡ code_of s → result ≡ is_whole s }
{
    code == NUMBER || code == NUMBER_END || code == NAME || code == NAME_END
}

/// Whether the bytes are in the grammar. The automaton takes one shift a byte, and no branch.
fn is_text(bytes: &[u8]) -> bool
    ensures { result ≡ is_whole (run start bytes.now) }
{
    let mut code = 0;
    for i in 0..bytes.len() {
        code = steps_at(bytes[i]) >> (code % 64);
    }
    is_whole_code(code % 64)
}

/// Whether a text may end in this state.
fn is_whole_state(state: State) -> bool
    ensures { result ≡ is_whole state }
{
    match state {
        State::Number | State::NumberEnd | State::Name | State::NameEnd => true,
        _ => false,
    }
}

/// The place of the syntax fault, and None where the bytes are in the grammar.
pub fn syntax_fault(bytes: &[u8]) -> Option<usize>
    ensures { result ≡ fault_place bytes.now }
{
    if is_text(bytes) {
        return None;
    }
    find_fault(bytes)
}

/// The same, found state by state.
fn find_fault(bytes: &[u8]) -> Option<usize>
    ensures { result ≡ fault_place bytes.now }
{
    let mut state = State::Start;
    for (i, b) in bytes.iter().enumerate() {
        state = next_state(state, class_of_byte(*b));
        if let State::Dead = state {
            return Some(i);
        }
    }
    if is_whole_state(state) {
        None
    } else {
        Some(bytes.len())
    }
}
