//! The shape of an aggregation: what two uses of one name must have in common.
ghost use Rattle.std.specs.Prelude.{◌≡◌, [], ◌∷◌, map, bytes_eq, IfOk};
ghost use Rattle.dt_program.specs.Program.{form_of_argument, form_of_call, form_of_statement};
ghost use Rattle.dt_program.specs.Program as program;
ghost use Rattle.dt_program.specs.declared.clause.Statement.TheVariants.{Aggregate};
ghost use Rattle.dt_ecb.specs.Forms.{form_of_kind, form_of_function, form_of_shape};
ghost use Rattle.dt_ecb.specs.Shapes as spec;

use dt_aggfn::AggFn;
use dt_names::ShortText;
use dt_program::{AggregationUse, Argument, Call};
use std::alloc::{AllocError, Global};

/// What a key is.
#[derive(Clone, Copy, PartialEq, Eq)]
pub(crate) enum KeyKind {
    Number,
    Text,
}

impl KeyKind {
    /// What the key of a use is.
    fn of(key: &Argument) -> Self
        ensures { form_of_kind result ≡ spec.kind_of (form_of_argument key.now) }
    {
        match key {
            Argument::Number(_) => KeyKind::Number,
            Argument::Text(_) => KeyKind::Text,
        }
    }

    /// Whether two keys are of one kind.
    fn is_same(self, other: KeyKind) -> bool
        ensures { result ≡ spec.same_kind (form_of_kind self) (form_of_kind other) }
    {
        match self {
            KeyKind::Number => matches!(other, KeyKind::Number),
            KeyKind::Text => matches!(other, KeyKind::Text),
        }
    }
}

/// The function that a use calls.
fn function_of(call: &Call) -> AggFn
    ensures { form_of_function result ≡ spec.function_of (form_of_call call.now) }
{
    match call {
        Call::Count => AggFn::Count,
        Call::Sum(_) => AggFn::Sum,
        Call::Avg(_) => AggFn::Avg,
        Call::Min(_) => AggFn::Min,
        Call::Max(_) => AggFn::Max,
        Call::Quantize(_) => AggFn::Quantize,
        Call::Lquantize(_, bounds) => AggFn::Lquantize(*bounds),
    }
}

/// Whether two uses call one function, with the same bounds.
fn same_functions(function: AggFn, other: AggFn) -> bool
    ensures { result ≡ spec.same_function_form (form_of_function function) (form_of_function other) }
{
    match function {
        AggFn::Count => matches!(other, AggFn::Count),
        AggFn::Sum => matches!(other, AggFn::Sum),
        AggFn::Avg => matches!(other, AggFn::Avg),
        AggFn::Min => matches!(other, AggFn::Min),
        AggFn::Max => matches!(other, AggFn::Max),
        AggFn::Quantize => matches!(other, AggFn::Quantize),
        AggFn::Lquantize(bounds) => match other {
            AggFn::Lquantize(others) => {
                bounds.lower == others.lower
                    && bounds.upper == others.upper
                    && bounds.step == others.step
            }
            _ => false,
        },
    }
}

/// What a use of an aggregation must have in common with every other use of its name.
#[derive(Drop)]
pub(crate) struct Shape {
    pub(crate) name: ShortText,
    pub(crate) function: AggFn,
    keys: Vec<KeyKind>,
}

impl Shape {
    /// The shape of a use.
    pub(crate) fn of(alloc: Global, aggregation: &AggregationUse) -> Result<Self, AllocError>
        ensures { IfOk result (λ shape.
            spec.used_by (form_of_statement (Aggregate aggregation.now)) ≡ form_of_shape shape ∷ []) }
    {
        let mut keys = Vec::new(alloc);
        for key in &aggregation.keys {
            keys.push(KeyKind::of(key))?;
        }
        Ok(Shape {
            name: aggregation.name,
            function: function_of(&aggregation.call),
            keys,
        })
    }

    /// The same shape once more.
    pub(crate) fn copied(&self, alloc: Global) -> Result<Self, AllocError>
        ensures { IfOk result (λ shape. form_of_shape shape ≡ form_of_shape self.now) }
    {
        Ok(Shape {
            name: self.name,
            function: self.function,
            keys: self.keys.to_vec(alloc)?,
        })
    }

    /// Whether two uses are of one name.
    pub(crate) fn is_namesake(&self, other: &Shape) -> bool
        ensures { result ≡ bytes_eq (form_of_shape self.now).name (form_of_shape other.now).name }
    {
        self.name.as_bytes() == other.name.as_bytes()
    }

    /// Whether two uses of one name differ in function, bounds or kinds of keys.
    pub(crate) fn clashes_with(&self, other: &Shape) -> bool
        ensures { result ≡ spec.clash (form_of_shape self.now) (form_of_shape other.now) }
    {
        self.is_namesake(other)
            && !(same_functions(self.function, other.function)
                && same_kinds(&self.keys, &other.keys))
    }
}

/// Whether two rows of keys are of the same kinds, and as many.
fn same_kinds(kinds: &[KeyKind], others: &[KeyKind]) -> bool
    ensures { result ≡ spec.same_kinds (map form_of_kind kinds.now) (map form_of_kind others.now) }
{
    // an aggregation has as many keys wherever its name stands
    if kinds.len() != others.len() {
        return false;
    }
    for (i, kind) in kinds.iter().enumerate() {
        // and at each place a key of the same kind
        if !kind.is_same(others[i]) {
            return false;
        }
    }
    true
}
