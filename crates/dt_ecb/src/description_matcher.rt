//! Descriptions made ready to be compared with many probes.
ghost use Rattle.std.specs.Prelude.{◌≡◌, IfOk, map};
ghost use Rattle.dt_program.specs.Description.{form_of_description};
ghost use Rattle.dt_ecb.specs.Matching as spec;

use dt_glob::Matcher;
use dt_names::{Name, ProbeTuple};
use dt_program::Description;
use std::alloc::{AllocError, Global};
use std::marker::Model;

/// A description made ready: its four patterns. Contracts see the description's form.
#[derive(Drop)]
pub(crate) struct DescriptionMatcher<'a> {
    provider: Matcher<'a>,
    module: Matcher<'a>,
    function: Matcher<'a>,
    name: Matcher<'a>,
}

impl<'a> Model for DescriptionMatcher<'a> {
    ghost use Rattle.dt_program.specs.Description.{DescForm};

    ghost Value = { DescForm };

    ghost view = { λ m. record { provider = m.provider; «module» = m.module; function = m.function; name = m.name } };
}

impl<'a> DescriptionMatcher<'a> {
    /// Makes a description ready.
    pub(crate) fn of(description: &'a Description) -> DescriptionMatcher<'a>
        ensures { result ≡ form_of_description description.now }
    {
        DescriptionMatcher {
            provider: Matcher::of(&description.provider),
            module: Matcher::of(&description.module),
            function: Matcher::of(&description.function),
            name: Matcher::of(&description.name),
        }
    }

    /// Makes descriptions ready, in their order.
    pub(crate) fn of_each(
        alloc: Global,
        descriptions: &'a [Description],
    ) -> Result<Vec<DescriptionMatcher<'a>>, AllocError>
        ensures { IfOk result (λ matchers. matchers.items ≡ map form_of_description descriptions.now) }
    {
        let mut matchers = Vec::with_capacity(alloc, descriptions.len())?;
        for description in descriptions {
            matchers.push(DescriptionMatcher::of(description))?;
        }
        Ok(matchers)
    }

    /// Whether each field of the description asks for its name.
    pub(crate) fn asks_for(&self, tuple: &ProbeTuple) -> bool
        ensures { result ≡ spec.asks_for self.now tuple.now }
    {
        field_asks_for(&self.provider, &tuple.provider)
            && field_asks_for(&self.module, &tuple.module)
            && field_asks_for(&self.function, &tuple.function)
            && field_asks_for(&self.name, &tuple.name)
    }
}

/// An empty field asks for nothing, any other for the names that its pattern matches.
fn field_asks_for(field: &Matcher, name: &Name) -> bool
    ensures { result ≡ spec.field_asks_for field.now name.now }
{
    field.is_empty() || field.matches(name.as_bytes())
}
