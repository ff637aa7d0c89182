//! Files of decoded modules. A module has one file, and bytes are taken for a code only where they are
//! the file of its module.
#![tactic(auto)]

mod code;
mod field;
mod globals;
mod imports;
mod instr;
mod laws;
mod lists;
mod loading;
mod reading;
mod segments;
mod stop;
mod types;
mod writing;

pub use laws::files_tell_modules;
pub use loading::load;
pub use writing::file_of;
