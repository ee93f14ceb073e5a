/// Why answering stopped before its end: a write failed, or memory is wanting.
#[derive(Clone, Copy, Debug, PartialEq, Eq, Drop)]
pub enum AnsweringFault {
    WriteFault,
    NoMemory,
}
