use std::alloc::AllocError;

/// Why the words set nothing: they aren't accepted, or memory is wanting.
#[derive(Clone, Copy, Debug, PartialEq, Eq)]
pub enum WordsFault {
    BadWords,
    NoMemory,
}

impl From<AllocError> for WordsFault {
    ghost use Rattle.std.specs.Prelude.{◌≡◌};
    ghost use Rattle.sdmp_words.specs.declared.fault.WordsFault.TheVariants.{NoMemory};

    ghost from_gives = { λ _ e. e ≡ NoMemory };

    fn from(_: AllocError) -> Self {
        WordsFault::NoMemory
    }
}
