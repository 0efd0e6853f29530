//! The operators, and what they do to signed numbers of 64 bits.
ghost use Rattle.std.specs.Prelude.{◌≡◌, ◌<◌};
ghost use Rattle.dt_expr.specs.Found.{IsFound};
ghost use Rattle.dt_expr.specs.Operators.{unary, binary, decided, quotient, remainder, shifted_left, shifted_right, shift_count, compared};

/// An operator before its operand.
#[derive(Clone, Copy, Debug, PartialEq, Eq)]
pub enum UnaryOp {
    /// `!`: 1 where the operand is 0, else 0.
    Not,
    /// `~`: every bit turned.
    Complement,
    /// `-`
    Negate,
    /// `+`: the operand itself.
    Plus,
}

/// An operator between its operands.
#[derive(Clone, Copy, Debug, PartialEq, Eq)]
pub enum BinaryOp {
    /// `||`: 1 where an operand is not 0, else 0. The right one is evaluated only where the left one is 0.
    Or,
    /// `^^`: 1 where exactly one operand is not 0, else 0. Both are evaluated.
    Xor,
    /// `&&`: 1 where both operands are not 0, else 0. The right one is evaluated only where the left one is not 0.
    And,
    /// `|`
    BitOr,
    /// `^`
    BitXor,
    /// `&`
    BitAnd,
    /// `==`: 1 where it holds, else 0, as the other comparisons.
    Equal,
    /// `!=`
    NotEqual,
    /// `<`
    Less,
    /// `<=`
    LessEqual,
    /// `>`
    Greater,
    /// `>=`
    GreaterEqual,
    /// `<<`: the count is taken modulo 64.
    ShiftLeft,
    /// `>>`: keeps the sign. The count is taken modulo 64.
    ShiftRight,
    /// `+`: wraps, as `-` and `*` do.
    Add,
    /// `-`
    Subtract,
    /// `*`
    Multiply,
    /// `/`: cuts toward zero. A divisor of 0 is the fault.
    Divide,
    /// `%`: has the dividend's sign. A divisor of 0 is the fault.
    Remainder,
}

/// A comparison of two texts.
#[derive(Clone, Copy, Debug, PartialEq, Eq)]
pub enum TextOp {
    /// `==`
    Equal,
    /// `!=`
    NotEqual,
}

impl UnaryOp {
    /// What the operator gives.
    pub(crate) fn apply(self, operand: i64) -> i64
        ensures { result ≡ unary self operand }
    {
        match self {
            UnaryOp::Not => i64::from(operand == 0),
            UnaryOp::Complement => !operand,
            UnaryOp::Negate => operand.wrapping_neg(),
            UnaryOp::Plus => operand,
        }
    }
}

impl BinaryOp {
    /// What the left operand decides by itself.
    pub(crate) fn decided(self, left: i64) -> Option<i64>
        ensures { result ≡ decided self left }
    {
        match self {
            BinaryOp::Or if left != 0 => Some(1),
            BinaryOp::And if left == 0 => Some(0),
            _ => None,
        }
    }

    /// What the operator gives for both operands. A division by zero sets the mark, and what it gives means nothing.
    pub(crate) fn apply(self, left: i64, right: i64, divided_by_zero: &mut bool) -> i64
        ensures { IsFound (binary self left right) result divided_by_zero.old divided_by_zero.new }
    {
        match self {
            BinaryOp::Or => i64::from(left != 0 || right != 0),
            BinaryOp::Xor => i64::from((left != 0) != (right != 0)),
            BinaryOp::And => i64::from(left != 0 && right != 0),
            BinaryOp::BitOr => left | right,
            BinaryOp::BitXor => left ^ right,
            BinaryOp::BitAnd => left & right,
            BinaryOp::Equal => i64::from(left == right),
            BinaryOp::NotEqual => i64::from(left != right),
            BinaryOp::Less => i64::from(left < right),
            BinaryOp::LessEqual => i64::from(left <= right),
            BinaryOp::Greater => i64::from(left > right),
            BinaryOp::GreaterEqual => i64::from(left >= right),
            BinaryOp::ShiftLeft => shifted_left(left, right),
            BinaryOp::ShiftRight => shifted_right(left, right),
            BinaryOp::Add => left.wrapping_add(right),
            BinaryOp::Subtract => left.wrapping_sub(right),
            BinaryOp::Multiply => left.wrapping_mul(right),
            BinaryOp::Divide => quotient(left, right, divided_by_zero),
            BinaryOp::Remainder => remainder(left, right, divided_by_zero),
        }
    }
}

impl TextOp {
    /// 1 where the comparison of two texts holds, else 0.
    pub(crate) fn apply(self, left: &[u8], right: &[u8]) -> i64
        ensures { result ≡ compared self left.now right.now }
    {
        match self {
            TextOp::Equal => i64::from(left == right),
            TextOp::NotEqual => i64::from(left != right),
        }
    }
}

/// The count of a shift, taken modulo 64.
fn shift_count(count: i64) -> u32
    ensures value { result ≡ shift_count count }
    ensures bound { result < 64 }
{
    (count.cast_unsigned() % 64) as u32
}

fn shifted_left(number: i64, count: i64) -> i64
    ensures { result ≡ shifted_left number count }
{
    number.wrapping_shl(shift_count(count))
}

fn shifted_right(number: i64, count: i64) -> i64
    ensures { result ≡ shifted_right number count }
{
    number.wrapping_shr(shift_count(count))
}

fn quotient(dividend: i64, divisor: i64, divided_by_zero: &mut bool) -> i64
    ensures { IsFound (quotient dividend divisor) result divided_by_zero.old divided_by_zero.new }
{
    // there is no value to go on with: the clause is abandoned whole
    if divisor == 0 {
        *divided_by_zero = true;
        return 0;
    }
    dividend.wrapping_div(divisor)
}

fn remainder(dividend: i64, divisor: i64, divided_by_zero: &mut bool) -> i64
    ensures { IsFound (remainder dividend divisor) result divided_by_zero.old divided_by_zero.new }
{
    // a remainder by zero has no value either: the clause is abandoned whole
    if divisor == 0 {
        *divided_by_zero = true;
        return 0;
    }
    dividend.wrapping_rem(divisor)
}
