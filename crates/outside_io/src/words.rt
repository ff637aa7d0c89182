use std::alloc::AllocError;
use std::env::{self, Env};
use std::io::ErrorKind;

/// The words after the program's name: an empty list where one is no UTF-8.
///
/// Nothing is known of a process's words, so there is no clause.
pub fn words_of<R: Env + AllocGlobal>(rt: &R) -> Result<Vec<String>, AllocError> {
    let alloc = rt.alloc();
    match env::args(rt) {
        Ok(words) => words.skip(1).collect(alloc),
        Err(error) if error.kind() == ErrorKind::OutOfMemory => Err(AllocError),
        Err(_) => Ok(Vec::new(alloc)),
    }
}
