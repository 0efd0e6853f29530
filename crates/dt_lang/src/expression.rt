//! The reader of expressions: a token at a time, with what waits for its right side on a stack.
ghost use Rattle.std.specs.Prelude.{◌≡◌, IfOk, option_map, true};
ghost use Rattle.dt_expr.specs.Form.{form_of};
ghost use Rattle.dt_lang.specs.Expression.{prefix_of, comparison_of, text_token};
ghost use Rattle.dt_lang.specs.machine.ExpressionState.{nothing, self_read, arrow_read, whole, lone, compares, state, operator_in, begin_sign, begin_text, begin, point, name_variable, leave, follow_sign, follow, compare, compare_with, close, start, step, done, wants, is_long_name_at, Goes};
ghost use Rattle.dt_lang.specs.machine.ExpressionView.{pending_forms, hand_of, state_of};
ghost use Rattle.dt_program.specs.Clause.{form_of_argument};

use crate::pending::{EQUALITY, OPERAND, PendingOperator, PendingStack, binding_of};
use crate::token::{Sign, Token};
use crate::word::{Keyword, Word};
use dt_expr::{BinaryOp, Expr, Text, TextOp, UnaryOp};
use dt_program::Argument;
use std::alloc::{AllocError, Global};
use std::mem;

/// What is at hand after what is pending.
#[derive(Drop)]
pub(crate) enum Hand {
    /// Nothing yet: an operand stands next.
    Nothing,
    /// `self`: `->` stands next.
    ThreadLocal,
    /// `self` and `->`: a variable's name stands next.
    Arrow,
    /// An expression that binds at least so tightly.
    Whole(u8, Expr),
    /// A text.
    Lone(Text),
    /// A text and its comparison: another text stands next.
    Compares(TextOp, Text),
}

/// Reads an expression, or one text, token by token. (illumos Dynamic Tracing Guide, "Types, Operators and
/// Expressions", precedence.)
///
/// It has no recursion, and its stack is no longer than the tokens that it was given.
#[derive(Drop)]
pub(crate) struct ExpressionReader {
    divides: bool,
    pending: PendingStack,
    hand: Hand,
}

/// The operator before an operand that a sign is.
fn prefix_of(sign: Sign) -> Option<UnaryOp>
    ensures { result ≡ prefix_of sign }
{
    match sign {
        Sign::Bang => Some(UnaryOp::Not),
        Sign::Tilde => Some(UnaryOp::Complement),
        Sign::Minus => Some(UnaryOp::Negate),
        Sign::Plus => Some(UnaryOp::Plus),
        _ => None,
    }
}

/// The operator between operands that a sign is, where `/` is one only if it `divides`.
fn operator_in(divides: bool, sign: Sign) -> Option<BinaryOp>
    ensures { result ≡ operator_in divides sign }
{
    match sign {
        Sign::OrOr => Some(BinaryOp::Or),
        Sign::CaretCaret => Some(BinaryOp::Xor),
        Sign::AndAnd => Some(BinaryOp::And),
        Sign::Or => Some(BinaryOp::BitOr),
        Sign::Caret => Some(BinaryOp::BitXor),
        Sign::And => Some(BinaryOp::BitAnd),
        Sign::EqualEqual => Some(BinaryOp::Equal),
        Sign::BangEqual => Some(BinaryOp::NotEqual),
        Sign::Less => Some(BinaryOp::Less),
        Sign::LessEqual => Some(BinaryOp::LessEqual),
        Sign::Greater => Some(BinaryOp::Greater),
        Sign::GreaterEqual => Some(BinaryOp::GreaterEqual),
        Sign::LessLess => Some(BinaryOp::ShiftLeft),
        Sign::GreaterGreater => Some(BinaryOp::ShiftRight),
        Sign::Plus => Some(BinaryOp::Add),
        Sign::Minus => Some(BinaryOp::Subtract),
        Sign::Star => Some(BinaryOp::Multiply),
        Sign::Slash => {
            if divides {
                Some(BinaryOp::Divide)
            } else {
                None
            }
        }
        Sign::Percent => Some(BinaryOp::Remainder),
        _ => None,
    }
}

/// The comparison of two texts that a sign is.
fn comparison_of(sign: Sign) -> Option<TextOp>
    ensures { result ≡ comparison_of sign }
{
    match sign {
        Sign::EqualEqual => Some(TextOp::Equal),
        Sign::BangEqual => Some(TextOp::NotEqual),
        _ => None,
    }
}

/// The text that a token is.
fn text_of(token: &Token) -> Option<Text>
    ensures { result ≡ text_token token.now }
{
    match token {
        Token::String(text) => Some(Text::Literal(*text)),
        Token::Word(Word::Text(variable)) => Some(Text::Variable(*variable)),
        _ => None,
    }
}

impl ExpressionReader {
    /// A reader that has read nothing; `/` divides.
    pub(crate) fn new(alloc: Global) -> Self
        ensures { state_of result ≡ start true }
    {
        ExpressionReader {
            divides: true,
            pending: PendingStack::new(alloc),
            hand: Hand::Nothing,
        }
    }

    /// Forgets what was read. Where not `divides`, `/` is no operator outside parentheses.
    pub(crate) fn begin(&mut self, divides: bool)
        ensures { state_of self.new ≡ start divides }
    {
        self.divides = divides;
        self.pending.clear();
        self.hand = Hand::Nothing;
    }

    /// Whether an operand stands next.
    pub(crate) fn wants_operand(&self) -> bool
        ensures { result ≡ wants (state_of self.now) }
    {
        matches!(self.hand, Hand::Nothing | Hand::Compares(..))
    }

    /// Whether a token is a variable's name with too many bytes.
    pub(crate) fn is_long_name(&self, token: &Token) -> bool
        ensures { result ≡ is_long_name_at (hand_of self.now.hand) token.now }
    {
        matches!(self.hand, Hand::Arrow) && token.is_long_word()
    }

    /// Reads a token and says so, or that it doesn't go on with what was read: then nothing is changed.
    #[tactic(auto, unfolding(crate::specs::machine::ExpressionState::step))]
    pub(crate) fn push(&mut self, alloc: Global, token: &Token) -> Result<bool, AllocError>
        ensures { IfOk result (λ on. Goes (state_of self.old) (step (state_of self.old) token.now) on
            (state_of self.new)) }
    {
        match mem::replace(&mut self.hand, Hand::Nothing) {
            Hand::Nothing => self.begin_operand(token),
            Hand::ThreadLocal => Ok(self.point(token)),
            Hand::Arrow => Ok(self.name_variable(token)),
            Hand::Whole(level, form) => self.follow(alloc, level, form, token),
            Hand::Lone(text) => Ok(self.compare(text, token)),
            Hand::Compares(op, left) => Ok(self.compare_with(op, left, token)),
        }
    }

    /// What was read, where it is whole: an expression, or one text.
    pub(crate) fn finish(&mut self, alloc: Global) -> Result<Option<Argument>, AllocError>
        ensures { IfOk result (λ read. option_map form_of_argument read ≡ done (state_of self.old)) }
    {
        match mem::replace(&mut self.hand, Hand::Nothing) {
            Hand::Whole(_, form) => {
                let form = self.pending.close(alloc, 0, form)?;
                if self.pending.is_empty() {
                    Ok(Some(Argument::Number(form)))
                } else {
                    Ok(None)
                }
            }
            Hand::Lone(text) => {
                if self.pending.is_empty() {
                    Ok(Some(Argument::Text(text)))
                } else {
                    Ok(None)
                }
            }
            Hand::Nothing | Hand::ThreadLocal | Hand::Arrow | Hand::Compares(_, _) => Ok(None),
        }
    }

    /// Reads a token where an operand stands next.
    fn begin_operand(&mut self, token: &Token) -> Result<bool, AllocError>
        requires { hand_of self.old.hand ≡ nothing }
        ensures { IfOk result (λ on. Goes (state_of self.old)
            (begin self.old.divides (pending_forms self.old.pending) token.now) on (state_of self.new)) }
    {
        match token {
            Token::Number(number) => {
                self.hand = Hand::Whole(OPERAND, Expr::Number(*number));
                Ok(true)
            }
            Token::Word(Word::Number(variable)) => {
                self.hand = Hand::Whole(OPERAND, Expr::Variable(*variable));
                Ok(true)
            }
            Token::Word(Word::Text(variable)) => Ok(self.begin_text(Text::Variable(*variable))),
            Token::String(text) => Ok(self.begin_text(Text::Literal(*text))),
            Token::Word(Word::Keyword(Keyword::ThreadLocal)) => {
                self.hand = Hand::ThreadLocal;
                Ok(true)
            }
            Token::Sign(sign) => self.begin_sign(*sign),
            _ => Ok(false),
        }
    }

    /// Reads a token after `self`.
    fn point(&mut self, token: &Token) -> bool
        ensures { Goes (state self.old.divides (pending_forms self.old.pending) self_read)
            (point self.old.divides (pending_forms self.old.pending) token.now) result (state_of self.new) }
    {
        match token {
            Token::Sign(Sign::Arrow) => {
                self.hand = Hand::Arrow;
                true
            }
            _ => {
                self.hand = Hand::ThreadLocal;
                false
            }
        }
    }

    /// Reads a token after `self` and `->`: any identifier names a variable.
    fn name_variable(&mut self, token: &Token) -> bool
        ensures { Goes (state self.old.divides (pending_forms self.old.pending) arrow_read)
            (name_variable self.old.divides (pending_forms self.old.pending) token.now) result (state_of self.new) }
    {
        match token.name() {
            Some(name) => {
                self.hand = Hand::Whole(OPERAND, Expr::Local(name));
                true
            }
            None => {
                self.hand = Hand::Arrow;
                false
            }
        }
    }

    /// Reads a text where a comparison of texts may stand.
    fn begin_text(&mut self, text: Text) -> bool
        requires { hand_of self.old.hand ≡ nothing }
        ensures { Goes (state_of self.old) (begin_text self.old.divides (pending_forms self.old.pending) text) result
            (state_of self.new) }
    {
        if self.pending.level_next() <= EQUALITY {
            self.hand = Hand::Lone(text);
            true
        } else {
            false
        }
    }

    /// Reads a sign where an operand stands next.
    fn begin_sign(&mut self, sign: Sign) -> Result<bool, AllocError>
        requires { hand_of self.old.hand ≡ nothing }
        ensures { IfOk result (λ on. Goes (state_of self.old)
            (begin_sign self.old.divides (pending_forms self.old.pending) sign) on (state_of self.new)) }
    {
        // it is no operator: it waits for its `)`, and up to there a `/` divides in a predicate too
        if sign == Sign::OpenParen {
            self.pending.push(PendingOperator::Opened(self.divides))?;
            self.divides = true;
            return Ok(true);
        }
        match prefix_of(sign) {
            Some(op) => {
                self.pending.push(PendingOperator::Before(op))?;
                Ok(true)
            }
            None => Ok(false),
        }
    }

    /// Reads a token after an expression that binds at least so tightly.
    fn follow(
        &mut self,
        alloc: Global,
        level: u8,
        form: Expr,
        token: &Token,
    ) -> Result<bool, AllocError>
        ensures { IfOk result (λ on.
            Goes (state self.old.divides (pending_forms self.old.pending) (whole level (form_of form)))
            (follow self.old.divides (pending_forms self.old.pending) level (form_of form) token.now) on
            (state_of self.new)) }
    {
        match token {
            Token::Sign(sign) => self.follow_sign(alloc, level, form, *sign),
            _ => {
                self.hand = Hand::Whole(level, form);
                Ok(false)
            }
        }
    }

    /// Reads a sign after an expression that binds at least so tightly.
    fn follow_sign(
        &mut self,
        alloc: Global,
        level: u8,
        form: Expr,
        sign: Sign,
    ) -> Result<bool, AllocError>
        ensures { IfOk result (λ on.
            Goes (state self.old.divides (pending_forms self.old.pending) (whole level (form_of form)))
            (follow_sign self.old.divides (pending_forms self.old.pending) level (form_of form) sign) on
            (state_of self.new)) }
    {
        // it is no operator: it ends parentheses, or what the expression is read for
        if sign == Sign::CloseParen {
            return self.leave(alloc, level, form);
        }
        match operator_in(self.divides, sign) {
            Some(op) if binding_of(op) <= level => {
                let left = self.pending.close(alloc, binding_of(op), form)?;
                self.pending
                    .push(PendingOperator::After(Box::new(alloc, left)?, op))?;
                self.hand = Hand::Nothing;
                Ok(true)
            }
            _ => {
                self.hand = Hand::Whole(level, form);
                Ok(false)
            }
        }
    }

    /// Reads a closing parenthesis after an expression that binds at least so tightly.
    fn leave(&mut self, alloc: Global, level: u8, form: Expr) -> Result<bool, AllocError>
        ensures { IfOk result (λ on.
            Goes (state self.old.divides (pending_forms self.old.pending) (whole level (form_of form)))
            (let closed = close 0 (pending_forms self.old.pending) (form_of form) in leave closed.pending closed.form) on
            (state_of self.new)) }
    {
        // no `(` of the expression is open: this `)` ends what it is read for, as in `trace(1)`
        if !self.pending.has_opened() {
            self.hand = Hand::Whole(level, form);
            return Ok(false);
        }
        let form = self.pending.close(alloc, 0, form)?;
        self.divides = self.pending.pop_opened();
        self.hand = Hand::Whole(OPERAND, form);
        Ok(true)
    }

    /// Reads a token after a text.
    fn compare(&mut self, text: Text, token: &Token) -> bool
        ensures { Goes (state self.old.divides (pending_forms self.old.pending) (lone text))
            (compare self.old.divides (pending_forms self.old.pending) text token.now) result (state_of self.new) }
    {
        let comparison = match token {
            Token::Sign(sign) => comparison_of(*sign),
            _ => None,
        };
        match comparison {
            Some(op) => {
                self.hand = Hand::Compares(op, text);
                true
            }
            None => {
                self.hand = Hand::Lone(text);
                false
            }
        }
    }

    /// Reads a token after a text and its comparison.
    fn compare_with(&mut self, op: TextOp, left: Text, token: &Token) -> bool
        ensures { Goes (state self.old.divides (pending_forms self.old.pending) (compares op left))
            (compare_with self.old.divides (pending_forms self.old.pending) op left token.now) result (state_of self.new) }
    {
        match text_of(token) {
            Some(right) => {
                self.hand = Hand::Whole(EQUALITY, Expr::Compare(op, left, right));
                true
            }
            None => {
                self.hand = Hand::Compares(op, left);
                false
            }
        }
    }
}
