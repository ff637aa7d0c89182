use std::alloc::{AllocError, Global};
use std::fmt::{Debug, Display};

/// What was read, or why nothing was.
pub fn told<T: Debug + Drop, E: Display + Drop>(
    alloc: Global,
    read: Result<T, E>,
) -> Result<String, AllocError> {
    match read {
        Ok(x) => format!(in alloc; "{x:?}"),
        Err(stop) => format!(in alloc; "{stop}"),
    }
}
