//! What waits for its right side while an expression is read: open parentheses, and operators with their left sides.
ghost use Rattle.std.specs.Prelude.{◌≡◌, List, [], ◌∷◌, ◌↔◌, IsTrue, IfSome, IfNone, IfOk, MatchOption, Bool, true, false};
ghost use Rattle.dt_expr.specs.Form.{form_of};
ghost use Rattle.dt_lang.specs.Expression.{binding};
ghost use Rattle.dt_lang.specs.machine.ExpressionState.{PendingForm, opened, level_next, binds, around, close, is_bound, is_opened, has_opened};
ghost use Rattle.dt_lang.specs.machine.ExpressionView.{pending_form, pending_forms};

use dt_expr::{BinaryOp, Expr, UnaryOp};
use std::alloc::{AllocError, Global};

/// How tightly an operand with its signs binds: more so than any operator between operands.
pub(crate) const OPERAND: u8 = 11;

/// How tightly a comparison of texts binds.
pub(crate) const EQUALITY: u8 = 6;

/// What waits for its right side.
#[derive(Drop)]
pub(crate) enum PendingOperator {
    /// An open parenthesis, and whether `/` divides outside of it.
    Opened(bool),
    /// An operator before its operand.
    Before(UnaryOp),
    /// A left side and its operator.
    After(Box<Expr>, BinaryOp),
}

/// All that waits, the last on top.
#[derive(Drop)]
pub(crate) struct PendingStack {
    pending: Vec<PendingOperator>,
}

/// How tightly an operator binds, the loosest 0. (illumos Dynamic Tracing Guide, "Types, Operators and Expressions",
/// precedence.)
pub(crate) fn binding_of(op: BinaryOp) -> u8
    ensures { result ≡ binding op }
{
    match op {
        BinaryOp::Or => 0,
        BinaryOp::Xor => 1,
        BinaryOp::And => 2,
        BinaryOp::BitOr => 3,
        BinaryOp::BitXor => 4,
        BinaryOp::BitAnd => 5,
        BinaryOp::Equal | BinaryOp::NotEqual => 6,
        BinaryOp::Less | BinaryOp::LessEqual | BinaryOp::Greater | BinaryOp::GreaterEqual => 7,
        BinaryOp::ShiftLeft | BinaryOp::ShiftRight => 8,
        BinaryOp::Add | BinaryOp::Subtract => 9,
        BinaryOp::Multiply | BinaryOp::Divide | BinaryOp::Remainder => 10,
    }
}

impl PendingOperator {
    /// Whether an operator of this level ends it.
    fn binds(&self, level: u8) -> bool
        ensures { result ≡ binds level (pending_form self.now) }
    {
        match self {
            PendingOperator::Opened(_) => false,
            PendingOperator::Before(_) => true,
            PendingOperator::After(_, op) => level <= binding_of(*op),
        }
    }

    /// Whether it is an open parenthesis.
    fn is_opened(&self) -> bool
        ensures { result ≡ is_opened (pending_form self.now) }
    {
        matches!(self, PendingOperator::Opened(_))
    }

    /// How tightly what stands next must bind.
    fn level_next(&self) -> u8
        ensures { result ≡ level_next (pending_form self.now ∷ []) }
    {
        match self {
            PendingOperator::Opened(_) => 0,
            PendingOperator::Before(_) => OPERAND,
            PendingOperator::After(_, op) => binding_of(*op) + 1,
        }
    }

    /// It with its right side.
    fn around(self, alloc: Global, form: Expr) -> Result<Expr, AllocError>
        ensures { IfOk result (λ whole. form_of whole ≡ around (pending_form self) (form_of form)) }
    {
        match self {
            PendingOperator::Opened(_) => Ok(form),
            PendingOperator::Before(op) => Ok(Expr::Unary(op, Box::new(alloc, form)?)),
            PendingOperator::After(left, op) => Ok(Expr::Binary(op, left, Box::new(alloc, form)?)),
        }
    }
}

impl PendingStack {
    /// An empty stack.
    pub(crate) fn new(alloc: Global) -> Self
        ensures { pending_forms result ≡ [] }
    {
        PendingStack {
            pending: Vec::new(alloc),
        }
    }

    /// Takes all away.
    pub(crate) fn clear(&mut self)
        ensures { pending_forms self.new ≡ [] }
    {
        self.pending.clear();
    }

    /// Puts one on top.
    pub(crate) fn push(&mut self, top: PendingOperator) -> Result<(), AllocError>
        ensures { IfOk result (λ _. pending_forms self.new ≡ pending_form top ∷ pending_forms self.old) }
    {
        self.pending.push(top)?;
        Ok(())
    }

    /// Takes the top away.
    fn pop(&mut self) -> Option<PendingOperator>
        ensures { MatchOption result ((pending_forms self.old ≡ []) × (pending_forms self.new ≡ []))
            (λ top. pending_forms self.old ≡ pending_form top ∷ pending_forms self.new) }
    {
        self.pending.pop()
    }

    /// Takes the open parenthesis on top away, and says whether `/` divides outside of it.
    pub(crate) fn pop_opened(&mut self) -> bool
        requires { (divides : Bool) × (pending : List PendingForm) × (pending_forms self.old ≡ opened divides ∷ pending) }
        ensures { pending_forms self.old ≡ opened result ∷ pending_forms self.new }
    {
        match self.pop() {
            Some(PendingOperator::Opened(divides)) => divides,
            _ => unreachable!(),
        }
    }

    /// The top.
    fn last(&self) -> Option<&PendingOperator>
        ensures { MatchOption result (pending_forms self.now ≡ [])
            (λ top. (pending : List PendingForm) × (pending_forms self.now ≡ pending_form top.now ∷ pending)) }
    {
        self.pending.last()
    }

    /// How tightly what stands next must bind.
    pub(crate) fn level_next(&self) -> u8
        ensures { result ≡ level_next (pending_forms self.now) }
    {
        match self.last() {
            Some(top) => top.level_next(),
            None => 0,
        }
    }

    /// Whether nothing waits.
    pub(crate) fn is_empty(&self) -> bool
        ensures { IsTrue result ↔ (pending_forms self.now ≡ []) }
    {
        self.last().is_none()
    }

    /// Whether a parenthesis is open.
    pub(crate) fn has_opened(&self) -> bool
        ensures { result ≡ has_opened (pending_forms self.now) }
    {
        self.pending.iter().any(|top| top.is_opened())
    }

    /// Takes the top away where an operator of this level ends it.
    fn pop_binding(&mut self, level: u8) -> Option<PendingOperator>
        ensures some { IfSome result (λ top. pending_forms self.old ≡ pending_form top ∷ pending_forms self.new) }
        ensures binds { IfSome result (λ top. binds level (pending_form top) ≡ true) }
        ensures none { IfNone result (is_bound level (pending_forms self.old) ≡ false) }
        ensures unchanged { IfNone result (pending_forms self.new ≡ pending_forms self.old) }
    {
        match self.last() {
            Some(top) if top.binds(level) => self.pop(),
            _ => None,
        }
    }

    /// The expression with all ended that an operator of this level ends.
    pub(crate) fn close(&mut self, alloc: Global, level: u8, form: Expr) -> Result<Expr, AllocError>
        ensures { IfOk result (λ whole. close level (pending_forms self.old) (form_of form)
            ≡ record { pending = pending_forms self.new; form = form_of whole }) }
    {
        let mut form = form;
        while let Some(top) = self.pop_binding(level) {
            form = top.around(alloc, form)?;
        }
        Ok(form)
    }
}
