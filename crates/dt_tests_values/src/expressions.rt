//! Values of C and of DTrace: the expressions are written with each operator after its operands.
use dt_cred::{Firing, Mode, Probe, Process};
use dt_expr::{
    BinaryOp, Expr, NumberVariable, Scene, Text, TextOp, TextVariable, UnaryOp, Value, eval,
};
use dt_locals::Locals;
use dt_names::{Name, ProbeTuple, ShortText};
use std::alloc::Global;
use std::process::Abort;
use std::test::Fail;

/// In each line an expression and its value, or `fault` where it divides by zero. Each variable stands in the last ones.
const NUMBERS: &str = "
7 = 7
-7 2 / = -3
7 -2 / = -3
-7 -2 / = 3
-7 2 % = -1
7 -2 % = 1
-7 -2 % = -1
1 0 / = fault
1 0 % = fault
-9223372036854775808 -1 / = -9223372036854775808
-9223372036854775808 -1 % = 0
-9223372036854775808 1 / = -9223372036854775808
9223372036854775807 1 + = -9223372036854775808
-9223372036854775808 1 - = 9223372036854775807
9223372036854775807 2 * = -2
-9223372036854775808 -1 * = -9223372036854775808
4294967296 4294967296 * = 0
-3 5 * = -15
2 3 - = -1
-9223372036854775808 neg = -9223372036854775808
5 neg = -5
-5 plus = -5
0 ~ = -1
5 ~ = -6
0 ! = 1
-2 ! = 0
1 65 << = 2
1 63 << = -9223372036854775808
3 63 << = -9223372036854775808
-1 4 << = -16
1 -1 << = -9223372036854775808
1 64 << = 1
-1 63 >> = -1
-7 1 >> = -4
7 1 >> = 3
256 68 >> = 16
-9223372036854775808 63 >> = -1
-9223372036854775808 -1 >> = -1
1 2 3 4 & ^ | = 3
12 10 & = 8
12 10 | = 14
12 10 ^ = 6
-1 255 & = 255
-256 255 | = -1
-1 1 ^ = -2
1 2 < 1 < = 0
-1 0 < = 1
0 0 < = 0
0 0 <= = 1
1 0 <= = 0
0 -1 > = 1
0 0 > = 0
0 0 >= = 1
-1 0 >= = 0
4 4 == = 1
4 -4 == = 0
4 4 != = 0
4 -4 != = 1
1 1 ^^ = 0
1 2 ^^ = 0
0 2 ^^ = 1
2 0 ^^ = 1
0 0 ^^ = 0
0 1 0 / ^^ = fault
1 1 0 / ^^ = fault
0 1 0 / && = 0
1 1 0 / && = fault
2 4 && = 1
2 0 && = 0
1 1 0 / || = 1
0 1 0 / || = fault
0 4 || = 1
0 0 || = 0
1 0 / 0 && = fault
1 0 / 1 || = fault
1 0 / ! = fault
arg9 timestamp + cpu 1 << - uid % = -7
pid tid == epid id < || = 1
arg0 = 100
arg1 = -101
arg2 = 102
arg3 = 103
arg4 = 104
arg5 = 105
arg6 = 106
arg7 = 107
arg8 = 108
arg9 = -9223372036854775808
cpu = 3
pid = 999999
tid = 4294967295
uid = 4294967294
timestamp = 9223372036854775807
id = 17
epid = 5
self->x = 12
self->y = 0
self->x 3 * self->x - = 24
self->x self->y / = fault
";

/// In each line two texts that are equal, or are not; a variable stands by its name, and `()` is the empty text.
const TEXTS: &str = "
execname == my shell
probeprov == syscall
probemod == unix
probefunc == read
probename == entry
probename != probefunc
execname != my shel
execname != my shell x
() == ()
() != a
ab != abc
abc != ab
abc != abd
";

fn unary_of(word: &str) -> Option<UnaryOp> {
    match word {
        "!" => Some(UnaryOp::Not),
        "~" => Some(UnaryOp::Complement),
        "neg" => Some(UnaryOp::Negate),
        "plus" => Some(UnaryOp::Plus),
        _ => None,
    }
}

fn binary_of(word: &str) -> Option<BinaryOp> {
    match word {
        "||" => Some(BinaryOp::Or),
        "^^" => Some(BinaryOp::Xor),
        "&&" => Some(BinaryOp::And),
        "|" => Some(BinaryOp::BitOr),
        "^" => Some(BinaryOp::BitXor),
        "&" => Some(BinaryOp::BitAnd),
        "==" => Some(BinaryOp::Equal),
        "!=" => Some(BinaryOp::NotEqual),
        "<" => Some(BinaryOp::Less),
        "<=" => Some(BinaryOp::LessEqual),
        ">" => Some(BinaryOp::Greater),
        ">=" => Some(BinaryOp::GreaterEqual),
        "<<" => Some(BinaryOp::ShiftLeft),
        ">>" => Some(BinaryOp::ShiftRight),
        "+" => Some(BinaryOp::Add),
        "-" => Some(BinaryOp::Subtract),
        "*" => Some(BinaryOp::Multiply),
        "/" => Some(BinaryOp::Divide),
        "%" => Some(BinaryOp::Remainder),
        _ => None,
    }
}

fn argument_of(word: &str) -> Option<NumberVariable> {
    match word {
        "arg0" => Some(NumberVariable::Arg0),
        "arg1" => Some(NumberVariable::Arg1),
        "arg2" => Some(NumberVariable::Arg2),
        "arg3" => Some(NumberVariable::Arg3),
        "arg4" => Some(NumberVariable::Arg4),
        "arg5" => Some(NumberVariable::Arg5),
        "arg6" => Some(NumberVariable::Arg6),
        "arg7" => Some(NumberVariable::Arg7),
        "arg8" => Some(NumberVariable::Arg8),
        "arg9" => Some(NumberVariable::Arg9),
        _ => None,
    }
}

fn variable_of(word: &str) -> Option<NumberVariable> {
    match word {
        "cpu" => Some(NumberVariable::Cpu),
        "pid" => Some(NumberVariable::Pid),
        "tid" => Some(NumberVariable::Tid),
        "uid" => Some(NumberVariable::Uid),
        "timestamp" => Some(NumberVariable::Timestamp),
        "id" => Some(NumberVariable::Id),
        "epid" => Some(NumberVariable::Epid),
        _ => argument_of(word),
    }
}

/// Takes a word: a number or a variable onto the stack, or an operator with its operands from there.
fn take_word(alloc: Global, stack: &mut Vec<Expr>, word: &str) -> Option<()> {
    let expr = if let Some(op) = unary_of(word) {
        Expr::Unary(op, operand(alloc, stack)?)
    } else if let Some(op) = binary_of(word) {
        let right = operand(alloc, stack)?;
        Expr::Binary(op, operand(alloc, stack)?, right)
    } else {
        leaf_of(word)?
    };
    stack.push(expr).ok()
}

/// The operand that was taken last.
fn operand(alloc: Global, stack: &mut Vec<Expr>) -> Option<Box<Expr>> {
    Box::new(alloc, stack.pop()?).ok()
}

/// The variable or the number that a word writes.
fn leaf_of(word: &str) -> Option<Expr> {
    if let Some(variable) = variable_of(word) {
        Some(Expr::Variable(variable))
    } else if let Some(name) = word.strip_prefix("self->") {
        Some(Expr::Local(Name::new(name.as_bytes())?))
    } else {
        Some(Expr::Number(word.parse::<i64>().ok()?))
    }
}

/// The value of an expression, or nothing where it divides by zero.
fn evaluated(expr: &Expr, scene: &Scene, locals: &Locals) -> Option<i64> {
    eval(expr, scene, locals).ok()
}

/// The value of an expression, or `fault` where it divides by zero; `None` where the words are no expression.
fn value_of(alloc: Global, scene: &Scene, locals: &Locals, words: &str) -> Option<Option<i64>> {
    let mut stack = Vec::new(alloc);
    for word in words.split(' ') {
        take_word(alloc, &mut stack, word)?;
    }
    match (stack.pop(), stack.is_empty()) {
        (Some(expr), true) => Some(evaluated(&expr, scene, locals)),
        _ => None,
    }
}

fn text_of(word: &str) -> Option<Text> {
    match word {
        "execname" => Some(Text::Variable(TextVariable::Execname)),
        "probeprov" => Some(Text::Variable(TextVariable::Probeprov)),
        "probemod" => Some(Text::Variable(TextVariable::Probemod)),
        "probefunc" => Some(Text::Variable(TextVariable::Probefunc)),
        "probename" => Some(Text::Variable(TextVariable::Probename)),
        "()" => Some(Text::Literal(ShortText::new(b"")?)),
        _ => Some(Text::Literal(ShortText::new(word.as_bytes())?)),
    }
}

fn compare_by(scene: &Scene, locals: &Locals, op: TextOp, left: &str, right: &str) -> Option<i64> {
    let expr = Expr::Compare(op, text_of(left)?, text_of(right)?);
    evaluated(&expr, scene, locals)
}

fn are_alike(scene: &Scene, left: &str, right: &str) -> Option<bool> {
    let left = text_of(left)?.value(scene);
    Some(left == text_of(right)?.value(scene))
}

/// Whether `==` and `!=` say that two texts are equal or unequal, and records show them alike or not.
fn holds(scene: &Scene, locals: &Locals, left: &str, right: &str, equal: bool) -> bool {
    compare_by(scene, locals, TextOp::Equal, left, right) == Some(i64::from(equal))
        && compare_by(scene, locals, TextOp::NotEqual, left, right) == Some(i64::from(!equal))
        && are_alike(scene, left, right) == Some(equal)
}

fn probe_and_process() -> Option<(Probe, Process)> {
    let tuple = ProbeTuple::parse(b"syscall:unix:read:entry")?;
    let process = Process {
        pid: 999_999,
        uid: 4_294_967_294,
        execname: ShortText::new(b"my shell")?,
    };
    Some((Probe::new(17, tuple), process))
}

fn firing() -> Firing {
    Firing {
        cpu: 3,
        place: 8,
        probe: 17,
        pid: 999_999,
        tid: 4_294_967_295,
        mode: Mode::User,
        timestamp: i64::MAX,
        args: [100, -101, 102, 103, 104, 105, 106, 107, 108, i64::MIN],
        kstack: [1, 2, 0, 0, 0, 0, 0, 0],
        ustack: [3, 0, 0, 0, 0, 0, 0, 0],
    }
}

/// The variables of two threads of a process: `x` is 12 in the one that fires, and `y` is 5 in the other.
fn variables(alloc: Global) -> Result<Locals, Fail> {
    let mut locals = Locals::new(alloc, 64)?;
    let x = Name::new(b"x").ok_or("no name")?;
    let y = Name::new(b"y").ok_or("no name")?;
    locals.set(999_999, 4_294_967_295, &x, 12);
    locals.set(999_999, 1, &y, 5);
    Ok(locals)
}

/// The first line of numbers that does not hold.
fn first_wrong_number(alloc: Global, scene: &Scene, locals: &Locals) -> Option<&'static str> {
    for line in NUMBERS.lines() {
        if let Some((words, number)) = line.rsplit_once(" = ") {
            if value_of(alloc, scene, locals, words) != Some(number.parse::<i64>().ok()) {
                return Some(line);
            }
        }
    }
    None
}

/// The first line of texts that does not hold.
fn first_wrong_text(scene: &Scene, locals: &Locals) -> Option<&'static str> {
    for line in TEXTS.lines() {
        if let Some((left, right)) = line.split_once(" == ") {
            if !holds(scene, locals, left, right, true) {
                return Some(line);
            }
        } else if let Some((left, right)) = line.split_once(" != ") {
            if !holds(scene, locals, left, right, false) {
                return Some(line);
            }
        }
    }
    None
}

#[test]
fn gives_the_values_of_the_tables(rt: HostRuntime) -> Result<(), Fail> {
    let (probe, process) = probe_and_process().ok_or("no probe")?;
    let firing = firing();
    let scene = Scene {
        epid: 5,
        probe: &probe,
        process: &process,
        firing: &firing,
    };
    let locals = variables(rt.alloc())?;
    none_is_wrong(&rt, first_wrong_number(rt.alloc(), &scene, &locals));
    none_is_wrong(&rt, first_wrong_text(&scene, &locals));
    Ok(())
}

/// Ends the test where there is a line that doesn't hold.
fn none_is_wrong(rt: &impl Abort, wrong: Option<&str>) {
    assert_eq!(rt; wrong, None);
}
