ghost use Rattle.std.specs.Prelude.{◌≡◌, ◌≢◌, ◌∷◌, [], IfOk, string_bytes};
ghost use Rattle.json_shapes.specs.Answers.{Names, IsBehind, IsWithin};
ghost use Rattle.json_shapes.specs.Shapes.{Step, Fault, field_step, place_step, step_text, dotted};

use crate::stop::{ShapeStop, Want};
use std::alloc::{AllocError, Global};

/// The stop in the field of this name, where this belongs.
pub fn stop_at(alloc: Global, name: &str, want: Want) -> ShapeStop
    ensures { Names result (record { path = field_step name.now ∷ []; want = want }) }
{
    match String::from_str(alloc, name) {
        Ok(path) => ShapeStop::Shape { path, want },
        Err(_) => ShapeStop::NoMemory,
    }
}

/// The stop where something else stands than what belongs there.
pub fn stop_for(alloc: Global, want: Want) -> ShapeStop
    ensures names { Names result (record { path = []; want = want }) }
    ensures shape { result ≢ ShapeStop.NoMemory }
{
    ShapeStop::Shape {
        path: String::new(alloc),
        want,
    }
}

/// A step and the path behind it.
fn dotted(alloc: Global, front: &str, rest: &str) -> Result<String, AllocError>
    ensures { IfOk result (λ path. string_bytes path ≡ dotted front.now rest.now) }
{
    let mut path = String::from_str(alloc, front)?;
    if !rest.is_empty() {
        path.push_str(".")?;
        path.push_str(rest)?;
    }
    Ok(path)
}

/// The stop with this step in front of its path.
fn behind(alloc: Global, step: &str, stop: ShapeStop) -> ShapeStop
    ensures { (at : Step) → step.now ≡ step_text at → IsBehind at stop result }
{
    let ShapeStop::Shape { path, want } = stop else {
        return ShapeStop::NoMemory;
    };
    match dotted(alloc, step, path.as_str()) {
        Ok(path) => ShapeStop::Shape { path, want },
        Err(_) => ShapeStop::NoMemory,
    }
}

/// The stop with this place in front of its path.
fn behind_place(alloc: Global, place: usize, stop: ShapeStop) -> ShapeStop
    ensures { IsBehind (place_step place) stop result }
{
    match place.to_string(alloc) {
        Ok(step) => behind(alloc, step.as_str(), stop),
        Err(_) => ShapeStop::NoMemory,
    }
}

/// What was read of the value in the field of this name: a stop's path has the name in front.
pub fn within<T>(alloc: Global, name: &str, read: Result<T, ShapeStop>) -> Result<T, ShapeStop>
    ensures { IsWithin (field_step name.now) read result }
{
    match read {
        Ok(x) => Ok(x),
        Err(stop) => Err(behind(alloc, name, stop)),
    }
}

/// What was read at this place of a list: a stop's path has the place in front.
pub fn within_place<T>(
    alloc: Global,
    place: usize,
    read: Result<T, ShapeStop>,
) -> Result<T, ShapeStop>
    ensures { IsWithin (place_step place) read result }
{
    match read {
        Ok(x) => Ok(x),
        Err(stop) => Err(behind_place(alloc, place, stop)),
    }
}
