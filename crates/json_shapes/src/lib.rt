//! Typed reading and writing of JSON: a reader says exactly what a value says by a form, or the path of
//! its first fault and what belongs there.
#![tactic(auto)]

mod fields;
mod floats;
mod form;
mod json;
mod paths;
mod stop;
mod taking;
mod values;
mod variants;
mod wrapped;

pub use fields::{
    bytes_at, field, list_at, list_field, nullable_field, optional_field, optional_list, text_at,
    u64_at,
};
pub use floats::has_float;
pub use form::{Binary, Form, each};
pub use json::{read_json, write_json};
pub use paths::{stop_at, stop_for, within, within_place};
pub use stop::{JsonStop, ShapeStop, Want};
pub use taking::{take_list, take_one_field};
pub use values::binary_value;
pub use variants::variant;
pub use wrapped::{Wrapper, wrapped_list};
