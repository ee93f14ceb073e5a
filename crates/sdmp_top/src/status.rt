/// How a run ends. The exit status is its number.
#[derive(Clone, Copy, Debug, PartialEq, Eq)]
pub enum Status {
    Done = 0,
    BadWords,
    Refused,
    ReadFault,
    WriteFault,
    NoMemory,
    TooLong,
}
