//! Shelves of files: one in memory, whose calls fail where a test wants it, and one over a folder.
#![tactic(auto)]

mod dir_shelf;
mod mem_shelf;

pub use dir_shelf::DirShelf;
pub use mem_shelf::MemShelf;
