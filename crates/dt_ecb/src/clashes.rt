//! Which uses of aggregations clash, and how many names there are. A program's own uses come after the accepted ones; they stand
//! apart here, so that the accepted ones need not be copied.
ghost use Rattle.std.specs.Prelude.{◌≡◌, ◌+◌, ◌++◌, ◌≤◌, false, bytes_eq, length, map, MatchOption};
ghost use Rattle.std.specs.List.{list_any};
ghost use Rattle.dt_ecb.specs.Forms.{form_of_shape, shapes_of};
ghost use Rattle.dt_ecb.specs.Shapes.{IsFirstClash, any_clash};
ghost use Rattle.dt_ecb.specs.Shapes as spec;

use crate::shape::Shape;
use crate::shapes::Shapes;
use dt_names::ShortText;

/// The name of a program's first use that clashes with the accepted ones or with an earlier use of the program.
pub(crate) fn first_clash(accepted: &Shapes, own: &Shapes) -> Option<ShortText>
    ensures { MatchOption result (any_clash (shapes_of accepted.now) (shapes_of own.now) ≡ false)
        (IsFirstClash (shapes_of accepted.now) (shapes_of own.now)) }
{
    let uses = own.uses.as_slice();
    for (place, one) in uses.iter().enumerate() {
        // the first use in order of the text that clashes is told, and no later one
        if is_clashing(&accepted.uses, &uses[..place], one) {
            return Some(one.name);
        }
    }
    None
}

/// Whether a use clashes with an accepted one, or with an earlier one of its program.
fn is_clashing(accepted: &[Shape], earlier: &[Shape], one: &Shape) -> bool
    ensures { result
        ≡ spec.clashes (map form_of_shape accepted.now ++ map form_of_shape earlier.now) (form_of_shape one.now) }
{
    any_clashes(accepted, one) || any_clashes(earlier, one)
}

/// Whether one of the uses clashes with this one.
fn any_clashes(uses: &[Shape], one: &Shape) -> bool
    ensures { result ≡ list_any (λ other. spec.clash (form_of_shape other) (form_of_shape one.now)) uses.now }
{
    uses.iter().any(|other| other.clashes_with(one))
}

/// How many names the accepted uses and a program's own have in all.
pub(crate) fn names_count(accepted: &Shapes, own: &Shapes) -> usize
    ensures { result ≡ spec.names_count (shapes_of accepted.now ++ shapes_of own.now) }
{
    last_names(&accepted.uses, &own.uses) + last_names(&own.uses, &[])
}

/// How many names the uses have that none of the later ones has.
fn last_names(uses: &[Shape], later: &[Shape]) -> usize
    ensures value { result + spec.names_count (map form_of_shape later.now)
        ≡ spec.names_count (map form_of_shape uses.now ++ map form_of_shape later.now) }
    ensures few { result ≤ length uses.now }
{
    let mut count = 0;
    for (i, one) in uses.iter().enumerate() {
        // a name is counted where it is used last
        if !is_named(one, &uses[i + 1..], later) {
            count += 1;
        }
    }
    count
}

/// Whether one of the uses, or of those after them, has this one's name.
fn is_named(one: &Shape, uses: &[Shape], later: &[Shape]) -> bool
    ensures { result ≡ list_any (λ other. bytes_eq (form_of_shape one.now).name other.name)
        (map form_of_shape uses.now ++ map form_of_shape later.now) }
{
    any_namesake(one, uses) || any_namesake(one, later)
}

/// Whether one of the uses has this one's name.
fn any_namesake(one: &Shape, uses: &[Shape]) -> bool
    ensures { result ≡ list_any (λ other. bytes_eq (form_of_shape one.now).name (form_of_shape other).name) uses.now }
{
    uses.iter().any(|other| one.is_namesake(other))
}
