//! The aggregations that the accepted programs use, by their names.
ghost use Rattle.std.specs.Prelude.{◌≡◌, IfSome};
ghost use Rattle.std.specs.Option.{option_map};
ghost use Rattle.dt_ecb.specs.Forms.{shapes_of};
ghost use Rattle.dt_life.specs.Aggregations as spec;

use dt_aggstore::Aggregation;
use dt_ecb::Shapes;
use dt_names::ShortText;

/// An aggregation that an accepted program uses, as stores keep it, with its name.
#[derive(Clone, Copy)]
pub struct NamedAggregation {
    pub name: ShortText,
    pub aggregation: Aggregation,
}

impl NamedAggregation {
    /// That of a name, if an accepted program uses it.
    pub fn of(shapes: &Shapes, name: &[u8]) -> Option<Self>
        ensures is { option_map (λ found. found.aggregation) result
            ≡ spec.aggregation_of (shapes_of shapes.now) name.now }
        ensures named { IfSome result (λ found. found.name ≡ name.now) }
    {
        let named = shapes.named(name)?;
        Some(NamedAggregation {
            name: named.name,
            aggregation: Aggregation {
                number: named.number,
                function: named.function,
            },
        })
    }
}
