ghost use Rattle.std.specs.Prelude.{◌≡◌, map, IfOk};
ghost use Rattle.serde_json.specs.View.{view};
ghost use Rattle.json_shapes.specs.Answers.{Reads};
ghost use Rattle.json_shapes.specs.Shapes.{field, list};

use crate::fields::list_field;
use crate::form::Form;
use crate::stop::ShapeStop;
use serde_json::Value;
use std::alloc::{AllocError, Global};

/// What gives a type of another crate its form: a type of one's own around it.
pub trait Wrapper: Form {
    type Inner: Drop;

    /// The wrapper around it.
    ghost around: { Self.Inner → Self };

    fn into_inner(self) -> Self::Inner
        ensures { around result ≡ self };
}

/// A field that has to be there, with a list of such items, each taken out of its wrapper.
pub fn wrapped_list<W: Wrapper>(
    alloc: Global,
    value: &Value,
    name: &str,
) -> Result<Vec<W::Inner>, ShapeStop>
    ensures { Reads (λ inner. map (λ x. W.plain_view (W.around x)) inner.items) result
        (field name.now (list W.form) (view value.now)) }
{
    let wrapped: Vec<W> = list_field(alloc, value, name)?;
    let inner = unwrapped(alloc, wrapped)?;
    Ok(inner)
}

/// Each item, taken out of its wrapper.
fn unwrapped<W: Wrapper>(alloc: Global, wrapped: Vec<W>) -> Result<Vec<W::Inner>, AllocError>
    ensures { IfOk result (λ inner. map (λ x. W.plain_view (W.around x)) inner.items
        ≡ map W.plain_view wrapped.items) }
{
    let mut inner = Vec::with_capacity(alloc, wrapped.len())?;
    for item in wrapped {
        inner.push(item.into_inner())?;
    }
    Ok(inner)
}
