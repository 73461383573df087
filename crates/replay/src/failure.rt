use cases::ListError;
use std::alloc::AllocError;
use std::io;

/// Why the reading of a list stopped.
#[derive(Debug, Drop)]
pub enum Failure {
    /// The text could not be read, or memory ran out.
    Io(io::Error),
    /// The text is no list.
    List(ListError),
}

impl From<io::Error> for Failure {
    fn from(error: io::Error) -> Self {
        Failure::Io(error)
    }
}

impl From<AllocError> for Failure {
    fn from(error: AllocError) -> Self {
        Failure::Io(io::Error::from(error))
    }
}

impl From<ListError> for Failure {
    fn from(error: ListError) -> Self {
        match error {
            ListError::OutOfMemory => Failure::from(AllocError),
            ListError::Cut | ListError::Malformed => Failure::List(error),
        }
    }
}
