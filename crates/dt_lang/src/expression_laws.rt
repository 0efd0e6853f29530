//! What holds of expressions by their definitions alone.
ghost use Rattle.std.specs.Prelude.{◌≡◌, Bool, true, List, Some};
ghost use Rattle.dt_expr.specs.Form.{Form};
ghost use Rattle.dt_lang.specs.declared.token.Token.{Token};
ghost use Rattle.dt_lang.specs.Expression.{BeginsExpr, ReadsArgument, ReadsExpr};
ghost use Rattle.dt_lang.specs.machine.ExpressionState.{State, IsRead, done, run, start};
ghost use Rattle.dt_program.specs.Clause.{ArgForm, number};

/// Tokens are one expression at the most.
pub fn one_expression()
    ensures { (divides : Bool) (ts : List Token) (f g : Form)
        → ReadsExpr divides 0 ts f → ReadsExpr divides 0 ts g → f ≡ g }
{}

/// Tokens are one argument at the most.
pub fn one_argument()
    ensures { (ts : List Token) (a b : ArgForm) → ReadsArgument ts a → ReadsArgument ts b → a ≡ b }
{}

/// What is read token by token is what the tokens are, and what isn't refused begins an expression.
pub(crate) fn reading_by_tokens()
    ensures complete { (divides : Bool) (ts : List Token) (f : Form)
        → ReadsExpr divides 0 ts f → IsRead divides ts (number f) }
    ensures sound { (divides : Bool) (ts : List Token) (s : State) (f : Form)
        → run (start divides) ts ≡ Some s → done s ≡ Some (number f) → ReadsExpr divides 0 ts f }
    ensures complete_argument { (ts : List Token) (a : ArgForm) → ReadsArgument ts a → IsRead true ts a }
    ensures sound_argument { (ts : List Token) (s : State) (a : ArgForm)
        → run (start true) ts ≡ Some s → done s ≡ Some a → ReadsArgument ts a }
    ensures viable { (divides : Bool) (ts : List Token) (s : State)
        → run (start divides) ts ≡ Some s → BeginsExpr divides ts }
{}
