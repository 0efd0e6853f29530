//! Texts of programs: which are read and which are refused, with the place and the cause, and what their expressions come to.
use crate::asserts::holds;
use dt_cred::{Mode, Probe, Process};
use dt_expr::{Expr, NumberVariable, Scene, TextVariable, eval};
use dt_lang::{
    Action, Argument, Destructive, Function, Keyword, LangFault, ParseProgram, Program, Statement,
    Word,
};
use dt_locals::Locals;
use dt_machine::Firing;
use dt_names::{Name, ProbeTuple, ShortText};
use std::alloc::Global;
use std::process::Abort;
use std::test::Fail;

/// In each line how a text is read, and the text: `read` where it is a program, and else the cause or the destructive
/// action and its place. A text that repeats a part is written in four: its beginning, how often the part stands there,
/// the part, and the end.
const TABLE: &str = "
read|BEGIN{}
read|:{}
read| /* a */ syscall::read:entry , fbt::: /pid == 100/ { trace(arg0) ; ; stack(8); }
read|BEGIN{@[execname,\"a\",1+2,pid]=lquantize(arg0,-10,10,2);@a=count();@b=sum(1)}END{exit(0)}
read|BEGIN{|8|exit(0);|}
read|a|15|,a|{}
read||64|BEGIN{} |
read|BEGIN{exit(|31|1+|1)}
read|BEGIN{exit(-1|31|+1|)}
read|BEGIN/|31|1+|+1/{}
read|BEGIN{@a[1,2,3,4]=count()}
read|BEGIN{@=lquantize(1,0,512)}
read|BEGIN{@=lquantize(1,-9223372036854775807,9223372036854775807,9223372036854775807)}
read|BEGIN{trace((\"a\"==\"b\"))}
Syntax 5|BEGIN
Syntax 14|BEGIN{trace(1)
Syntax 7|BEGIN{}}
Syntax 8|BEGIN/1/2/{}
Syntax 8|BEGIN/1+/{}
Syntax 14|BEGIN/execname/{}
Syntax 6|BEGIN,{}
Syntax 6|BEGIN END{}
Syntax 8|BEGIN{} /*
Syntax 13|BEGIN{ustack(9)}
Syntax 12|BEGIN{stack(0)}
Syntax 12|BEGIN{stack(pid)}
Syntax 15|BEGIN{trace(1) panic()}
Syntax 14|BEGIN{trace(1 1)}
Syntax 16|BEGIN{trace((\"a\"))}
Syntax 19|BEGIN{exit(execname)}
Syntax 14|BEGIN{trace(1+execname)}
Syntax 15|BEGIN{@a=count(1)}
Syntax 21|BEGIN{@=lquantize(1,2)}
Syntax 20|BEGIN{@=lquantize(1,a,2)}
Syntax 9|BEGIN{@a[]=count()}
Syntax 70|BEGIN{|8|exit(0);|1}
Syntax 17|BEGIN{@a[1,2,3,4,)]=count()}
Syntax 76|BEGIN{exit(-1|31|+1| 1)}
Syntax 75|BEGIN{exit(|32|1+|)}
Probe 0|[a{}
Probe 8|BEGIN{} syscall::[a:entry{}
Probe 6|BEGIN a:b:c:d:e{}
Probe 6|BEGIN,[]{}
Probe 8|BEGIN/1/[a{}
Action 6|BEGIN{print(1)}
Action 6|BEGIN{count()}
Action 7|BEGIN{;pid}
Action 8|BEGIN{@=trace(1)}
Action 9|BEGIN{@a=panic()}
Variable 12|BEGIN{trace(foo)}
Variable 14|BEGIN{trace(1+arg10)}
Variable 22|BEGIN{trace(execname==foo)}
Variable 6|BEGIN/panic/{}
Variable 73|BEGIN{exit(|31|1+|foo)}
TooLong 512||100|BEGIN{} |
TooLong 512||64|BEGIN{} |[a
TooLong 76|BEGIN{trace(|100|(|
TooLong 76|BEGIN{trace(|65536|(|
TooLong 75|BEGIN{exit(|32|1+|foo)}
TooLong 75|BEGIN{exit(|32|1+|\"a\")}
TooLong 75|BEGIN{exit(-1|31|+1|+1)}
TooLong 70|BEGIN/|32|1+|1/{}
TooLong 70|BEGIN{|8|exit(0);|foo
TooLong 70|BEGIN{|8|exit(0);|panic
TooLong 70|BEGIN{|8|exit(0);|@
TooLong 32|a|16|,a|{}
TooLong 32|a|15|,a|,[{}
TooLong 17|BEGIN{@a[1,2,3,4,foo]=count()}
TooLong 6|BEGIN{@|32|a|=count()}
TooLong 12|BEGIN{trace(\"|32|a|
TooLong 14|BEGIN{trace(1+\"|32|a|\")}
read|read:entry{self->n = self->n + 1; trace(self->n)}
read|read:entry{self->s = speculation(); speculate(self->s); trace(arg0)}
read|BEGIN/self->x/{commit(1);commit(2);discard(3);exit(1);@a=count()}
read|BEGIN{speculate(1);trace(1);stack(1);ustack(1);discard(1);self->x=0}
read|BEGIN{discard(1);speculate(1)}
read|BEGIN{speculate(1)}BEGIN{speculate(1)}
read|BEGIN{self->panic=self->pid+self->count}
read|BEGIN{@[self->self]=sum(self -> speculation)}
read|BEGIN{self->|31|a|=1}
read|BEGIN{trace(|61|-|self->x)}
Spec 20|read:entry{trace(1);speculate(1)}
Spec 21|read:entry{commit(1);trace(2)}
Spec 19|BEGIN{speculate(1);speculate(2)}
Spec 19|BEGIN{speculate(1);commit(1)}
Spec 19|BEGIN{speculate(1);exit(1)}
Spec 19|BEGIN{speculate(1);@=count()}
Spec 16|BEGIN{commit(1);speculate(1)}
Spec 14|BEGIN{exit(1);speculate(1)}
Spec 17|BEGIN{@a=count();speculate(1)}
Spec 15|BEGIN{stack(1);speculate(1)}
Spec 16|BEGIN{ustack(1);commit(1)}
Spec 16|BEGIN{commit(1);ustack(1)}
Spec 19|BEGIN{speculate(1);speculate foo
Spec 30|BEGIN{speculate(1);discard(1);commit(1)}
TooLong 12|BEGIN{self->|32|a|=1}
TooLong 18|BEGIN{trace(self->|32|a|)}
TooLong 80|BEGIN{trace(|62|-|self->x)}
TooLong 80|BEGIN{trace(|62|-|self->aaaaaaaaaaaaaaaaaaaaaaaaaaaaaaaa)}
TooLong 70|BEGIN{|8|exit(0);|self->x=1}
TooLong 71|BEGIN{trace(1);|7|exit(0);|speculate(1)}
Syntax 80|BEGIN{trace(|62|-|self->5)}
Syntax 10|BEGIN{self}
Syntax 16|BEGIN{trace(self)}
Syntax 12|BEGIN{@[self]=count()}
Syntax 12|BEGIN{self->}
Syntax 13|BEGIN{self->x}
Syntax 14|BEGIN{self->x=}
Syntax 13|BEGIN{self->x==1}
Syntax 19|BEGIN{trace(self->x->y)}
Syntax 13|BEGIN{trace(1->2)}
Syntax 22|BEGIN{trace(execname==self->x)}
Syntax 25|BEGIN{self->x=speculation+1}
Syntax 26|BEGIN{self->x=speculation(1)}
Syntax 27|BEGIN{self->x=speculation()+1}
Syntax 16|BEGIN{self->x=1 panic()}
Variable 12|BEGIN{trace(speculation())}
Variable 15|BEGIN{self->x=(speculation())}
Variable 16|BEGIN{self->x=1+speculation()}
Variable 14|BEGIN{self->x=panic()}
Action 6|BEGIN{speculation()}
Range 27|BEGIN{@a=lquantize(1,0,10,3)}
Range 23|BEGIN{@=lquantize(1,5,5)}
Range 25|BEGIN{@=lquantize(1,0,513)}
Range 26|BEGIN{@=lquantize(1,0,10,0)}
Range 27|BEGIN{@=lquantize(1,0,10,-1)}
panic 12|BEGIN{} END{panic();}
stop 6|BEGIN{stop
chill 8|BEGIN{;;chill(1)}
system 15|BEGIN{trace(1);system(2)}
raise 62|BEGIN{|7|exit(0);|raise}
Syntax 12|BEGIN{trace(08)}
Syntax 12|BEGIN{trace(09)}
Syntax 12|BEGIN{trace(0x)}
Syntax 12|BEGIN{trace(0xg)}
Syntax 12|BEGIN{trace(0x1_)}
Syntax 12|BEGIN{trace(1a)}
Syntax 12|BEGIN{trace(1_)}
Syntax 15|BEGIN{trace(19 1)}
Syntax 12|BEGIN{trace(18446744073709551616)}
Syntax 12|BEGIN{trace(99999999999999999999999999)}
Syntax 12|BEGIN{trace(0x10000000000000000)}
Syntax 12|BEGIN{trace(02000000000000000000000)}
Syntax 18|BEGIN{trace(1/*\"*/2)}
Syntax 12|BEGIN{trace(/*/)}
Syntax 21|BEGIN{trace(/* /* */ */1)}
Syntax 13|BEGIN{trace( /* 1)}
Syntax 7|BEGIN/1/*/{}
Syntax 6|a/* */b{}
Syntax 8|/* a */ /{}
Syntax 15|BEGIN{trace(1<<=2)}
Syntax 15|BEGIN{trace(1<=<2)}
Syntax 15|BEGIN{trace(1>>>2)}
Syntax 15|BEGIN{trace(1===2)}
Syntax 15|BEGIN{trace(1!==2)}
Syntax 13|BEGIN{trace(1!~2)}
Syntax 15|BEGIN{trace(1^ ^2)}
Syntax 15|BEGIN{trace(1&&&2)}
Syntax 12|BEGIN{trace(:)}
Syntax 12|BEGIN{trace(?)}
Syntax 12|BEGIN{trace(\\)}
Variable 12|BEGIN{trace(_a1 )}
Variable 12|BEGIN{trace(a1b2c3d4e5f6g7h8i9j0k1l2m3n4o5p6)}
Action 6|BEGIN{tracee(1)}
Syntax 8|BEGIN{@ a=count()}
Syntax 7|BEGIN{@1=count()}
read|BEGIN{@=count()}
read|BEGIN{@_9=count()}
read|BEGIN{@abcdefghijklmnopqrstuvwxyz01234=count()}
TooLong 6|BEGIN{@abcdefghijklmnopqrstuvwxyz012345=count()}
Syntax 12|BEGIN{trace(\"abcdefghijklmnopqrstuvwxyz01234
TooLong 13|BEGIN{trace( \"abcdefghijklmnopqrstuvwxyz012345\")}
TooLong 12|BEGIN{trace(\"abcdefghijklmnopqrstuvwxyz012345
Syntax 12|BEGIN{trace(\"a\\n\")}
Syntax 12|BEGIN{trace(\"a\x7f\")}
Syntax 12|BEGIN{trace(\"
Syntax 12|BEGIN{trace(\x0b)}
Syntax 13|BEGIN{trace( \0)}
Syntax 12|BEGIN{trace(\x7f)}
Syntax 12|BEGIN{trace(ä)}
Syntax 0|\x0c
Syntax 0|\"
Syntax 0|}
read| BEGIN,END{}
Probe 0|a:b:c:d:e{}
Probe 0|[a/
Syntax 3|@a;\"{}
Syntax 1|a\x7f
Syntax 9|BEGIN/1/ 1 {}
Syntax 10|BEGIN/6 / 2/{}
Syntax 10|BEGIN/1 + /{}
Syntax 6|BEGIN//{}
Syntax 10|BEGIN/\"a\" /{}
Syntax 15|BEGIN{trace(1 +)}
Syntax 16|BEGIN{trace(( 1)}
Syntax 13|BEGIN{trace(()}
Syntax 13|BEGIN{trace(-)}
Syntax 18|BEGIN{trace(\"a\" ==)}
Syntax 30|BEGIN{trace(( execname == \"a\")}
Syntax 17|BEGIN{trace(1 == \"a\")}
Syntax 16|BEGIN{trace(1 + \"a\" == \"b\")}
Syntax 16|BEGIN{trace(1 < \"a\" == \"b\")}
Syntax 14|BEGIN{trace(! \"a\" == \"b\")}
Syntax 14|BEGIN{trace(- execname)}
Syntax 23|BEGIN{trace(\"a\" == \"b\" < 1)}
Syntax 23|BEGIN{trace(\"a\" == \"b\" + 1)}
Syntax 19|BEGIN{trace(\"a\" == 1)}
Syntax 19|BEGIN{trace(\"a\" == ()}
Syntax 19|BEGIN{trace(\"a\" == pid)}
Syntax 16|BEGIN{trace(\"a\" +)}
Syntax 16|BEGIN{trace(\"a\" \"b\")}
Syntax 18|BEGIN{trace(( \"a\" ))}
Syntax 18|BEGIN{trace(( \"a\" ) == \"b\")}
Syntax 14|BEGIN{trace(1 1)}
Syntax 16|BEGIN{trace(pid execname)}
Syntax 14|BEGIN{trace(1 ()}
Syntax 14|BEGIN{trace(1 !)}
Syntax 15|BEGIN{trace(1 ))}
Syntax 12|BEGIN{trace())}
Syntax 14|BEGIN{trace(( ))}
Syntax 19|BEGIN{trace(( 1 ) ))}
Syntax 18|BEGIN{trace(( 1 + ))}
Syntax 12|BEGIN{trace(*)}
Syntax 16|BEGIN{trace(1 * / 2)}
Syntax 14|BEGIN{trace(1 ])}
Syntax 14|BEGIN{trace(1 ,)}
Syntax 14|BEGIN{trace(1 = 1)}
Syntax 12|BEGIN{trace(;)}
Variable 12|BEGIN{trace(trace)}
Variable 12|BEGIN{trace(foo)}
Variable 16|BEGIN{trace(1 + foo)}
Syntax 12|BEGIN{trace(@a)}
Syntax 14|BEGIN{trace(1 @a)}
";

/// In each line an expression and what it comes to where it is traced: a value, `fault` where it divides by zero, `text`
/// for one text, or `no` and the place in the whole text at which it is refused for its syntax.
const EXPRESSIONS: &str = "
7 -> 7
pid -> 999999
execname -> text
\"a\" -> text
7 - 2 - 1 -> 4
2 - 3 + 4 -> 3
7 % 4 * 2 -> 6
64 / 4 / 2 -> 8
8 >> 1 << 1 -> 8
3 > 2 > 1 -> 0
1 < 2 < 1 -> 0
2 == 2 != 0 -> 1
1 ^^ 1 -> 0
1 ^^ 1 ^^ 1 -> 1
1 | 2 ^ 3 & 4 -> 3
1 + 2 * 3 -> 7
1 << 1 + 1 -> 4
1 < 1 << 1 -> 1
1 == 2 < 3 -> 1
1 & 3 == 3 -> 1
1 || 0 && 0 -> 1
1 ^^ 1 && 0 -> 1
1 || 1 ^^ 1 -> 1
0 && 1 | 1 -> 0
( 1 + 2 ) * 3 -> 9
( ( ( 5 ) ) ) -> 5
8 / ( 4 / 2 ) -> 4
- 7 / 2 -> -3
- ( 7 / 2 ) * 2 -> -6
- - 1 -> 1
! ~ + - 1 -> 1
! 0 + 1 -> 2
2 - - 3 -> 5
1 << 65 -> 2
0 && ( 1 / 0 ) -> 0
1 && ( 1 / 0 ) -> fault
\"a\" == \"a\" -> 1
( \"a\" == \"b\" ) == 0 -> 1
\"a\" == \"b\" == 1 -> 0
\"a\" != \"b\" != 0 -> 1
1 & \"a\" == \"a\" -> 1
\"a\" == \"a\" & 3 -> 1
execname == \"shell\" && probefunc != \"read\" -> 0
0 || \"a\" == \"b\" ^^ 1 -> 1
1 < ( \"a\" == \"b\" ) -> 0
0 -> 0
00 -> 0
010 -> 8
0777 -> 511
0x1F -> 31
0X1f -> 31
9223372036854775807 -> 9223372036854775807
9223372036854775808 -> -9223372036854775808
18446744073709551615 -> -1
0xFFFFFFFFFFFFFFFF -> -1
01777777777777777777777 -> -1
/* a */ 1 -> 1
/**/1 -> 1
/***/1 -> 1
1/*\"*/+1 -> 2
!~1 -> 0
2->1 -> no 13
self->x + 1 -> 1
1|||2 -> no 15
\"\" -> text
\"a/*b\" -> text
\"abcdefghijklmnopqrstuvwxyz01234\" -> text
";

/// Values of predicates.
const PREDICATES: &str = "
pid == 1 -> 0
( 6 / 2 ) -> 3
2 * ( 6 / 2 ) -> 6
( ( 1 ) / 1 ) -> 1
1 % 2 -> 1
";

/// In each line where the refused token begins and ends and what was found there, and the text, written as in the table
/// of texts.
const FOUND: &str = "
12 15 Variable|BEGIN{trace(foo)}
6 11 Action|BEGIN{print(1)}
14 15 Syntax|BEGIN{trace(1 1)}
12 12 Syntax|BEGIN{trace(08)}
12 12 Syntax|BEGIN{trace(\"a
5 5 Syntax|BEGIN
12 17 panic|BEGIN{} END{panic();}
512 514 TooLong(Clauses)||64|BEGIN{} |[a
32 33 TooLong(Descriptions)|a|16|,a|{}
70 75 TooLong(Statements)|BEGIN{|8|exit(0);|panic
17 20 TooLong(Keys)|BEGIN{@a[1,2,3,4,foo]=count()}
75 78 TooLong(Tokens)|BEGIN{exit(|32|1+|foo)}
70 71 TooLong(Tokens)|BEGIN/|32|1+|1/{}
6 39 TooLong(NameBytes)|BEGIN{@|32|a|=count()}
12 45 TooLong(StringBytes)|BEGIN{trace(\"|32|a|
23 24 Range(NotRising)|BEGIN{@=lquantize(1,5,5)}
26 27 Range(NoStep)|BEGIN{@=lquantize(1,0,10,0)}
27 28 Range(Uneven)|BEGIN{@a=lquantize(1,0,10,3)}
25 26 Range(TooMany)|BEGIN{@=lquantize(1,0,513)}
0 64 Probe(Fields(TooLong))||64|a|{}
6 15 Probe(Fields(TooManyFields))|BEGIN a:b:c:d:e{}
0 2 Probe(Pattern(Unclosed))|[a{}
6 10 Probe(Pattern(EmptySet))|BEGIN,a:[]{}
6 8 Probe(Pattern(LoneEscape))|BEGIN,a\\{}
";

fn parsed(alloc: Global, text: &[u8]) -> Result<Program, LangFault> {
    Program::parse(alloc, text)
}

/// Whether a text is read as the words say.
fn is_read_so(alloc: Global, text: &[u8], told: &str) -> bool {
    let (word, place) = told.split_once(' ').unwrap_or((told, "0"));
    match parsed(alloc, text) {
        Ok(_) => word == "read",
        Err(LangFault::Program { at, flaw, .. }) => word == flaw.why().word()
            && place.parse::<usize>() == Ok(at),
        Err(LangFault::Destructive { at, what, .. }) => {
            word == what.name() && place.parse::<usize>() == Ok(at)
        }
        Err(LangFault::Memory) => false,
    }
}

/// What is found of a text that is refused, as the lines of the table say it.
fn found_of(alloc: Global, text: &[u8]) -> Result<Option<String>, Fail> {
    match parsed(alloc, text) {
        Err(LangFault::Program { at, end, flaw }) => {
            Ok(Some(format!(in alloc; "{at} {end} {flaw:?}")?))
        }
        Err(LangFault::Destructive { at, end, what }) => {
            Ok(Some(format!(in alloc; "{at} {end} {what}")?))
        }
        _ => Ok(None),
    }
}

/// What a line of a table says, and the text of which it says so.
fn line_of(alloc: Global, line: &str) -> Option<(&str, Vec<u8>)> {
    let (told, written) = line.split_once('|')?;
    let mut text = Vec::new(alloc);
    push_written(&mut text, written)?;
    Some((told, text))
}

/// Adds a text that is written in one part or in four.
fn push_written(text: &mut Vec<u8>, written: &str) -> Option<()> {
    let mut parts = written.split('|');
    push_times(text, 1, parts.next()?)?;
    if let Some(times) = parts.next() {
        push_times(text, times.parse::<usize>().ok()?, parts.next()?)?;
        push_times(text, 1, parts.next()?)?;
    }
    Some(())
}

/// Adds a part as often as it stands there.
fn push_times(text: &mut Vec<u8>, times: usize, part: &str) -> Option<()> {
    for _ in 0..times {
        text.extend_from_slice(part.as_bytes()).ok()?;
    }
    Some(())
}

/// Whether a line of the table is right.
fn is_right(alloc: Global, line: &str) -> Option<bool> {
    let (told, text) = line_of(alloc, line)?;
    Some(is_read_so(alloc, &text, told))
}

#[test]
fn reads_programs_and_refuses_other_texts(rt: HostRuntime) {
    for line in TABLE.lines() {
        let is_so = line.is_empty() || is_right(rt.alloc(), line) == Some(true);
        holds(&rt, is_so, line);
    }
}

#[test]
fn tells_what_was_found_where_it_refuses(rt: HostRuntime) -> Result<(), Fail> {
    for line in FOUND.lines() {
        if !line.is_empty() {
            holds(&rt, is_found(rt.alloc(), line)?, line);
        }
    }
    Ok(())
}

/// Whether what a line says is found of its text.
fn is_found(alloc: Global, line: &str) -> Result<bool, Fail> {
    let (told, text) = line_of(alloc, line).ok_or("no line of the table")?;
    match found_of(alloc, &text)? {
        Some(found) => Ok(found.as_str() == told),
        None => Ok(false),
    }
}

#[test]
fn refuses_blanks_at_their_end(rt: HostRuntime) {
    assert!(rt; is_read_so(rt.alloc(), b"", "Syntax 0"));
    assert!(rt; is_read_so(rt.alloc(), b" \t\r\n", "Syntax 4"));
    assert!(rt; is_read_so(rt.alloc(), b"BEGIN ", "Syntax 6"));
}

/// What an expression comes to.
#[derive(Clone, Copy, Debug, PartialEq, Eq)]
enum Outcome {
    Number(i64),
    Fault,
    Text,
    Refused(usize),
}

/// What a line says that its expression comes to.
fn expected_of(outcome: &str) -> Option<Outcome> {
    match outcome {
        "fault" => Some(Outcome::Fault),
        "text" => Some(Outcome::Text),
        _ => match outcome.strip_prefix("no ") {
            Some(place) => Some(Outcome::Refused(place.parse::<usize>().ok()?)),
            None => Some(Outcome::Number(outcome.parse::<i64>().ok()?)),
        },
    }
}

fn value_of(expr: &Expr, scene: &Scene, locals: &Locals) -> Outcome {
    match eval(expr, scene, locals) {
        Ok(number) => Outcome::Number(number),
        Err(_) => Outcome::Fault,
    }
}

/// What the predicate of a text's first clause comes to, or where there is none what its first statement traces.
fn outcome_of(alloc: Global, scene: &Scene, locals: &Locals, text: &str) -> Option<Outcome> {
    let program = match parsed(alloc, text.as_bytes()) {
        Ok(program) => program,
        Err(LangFault::Program { at, .. }) => return Some(Outcome::Refused(at)),
        Err(_) => return None,
    };
    let clause = program.clauses.first()?;
    match (&clause.predicate, clause.statements.first()) {
        (Some(predicate), _) => Some(value_of(predicate, scene, locals)),
        (None, Some(Statement::Trace(Argument::Number(traced)))) => Some(value_of(
            traced, scene, locals,
        )),
        (None, Some(Statement::Trace(Argument::Text(_)))) => Some(Outcome::Text),
        (None, _) => None,
    }
}

/// Ends the test at the first line of a table that does not hold of its expression between these two parts.
fn table_holds(
    rt: &impl Abort,
    alloc: Global,
    scene: &Scene,
    locals: &Locals,
    table: &str,
    (before, after): (&str, &str),
) -> Result<(), Fail> {
    for line in table.lines() {
        if let Some((words, outcome)) = line.split_once(" -> ") {
            let text = format!(in alloc; "{before}{words}{after}")?;
            let is_so = comes_to(alloc, scene, locals, text.as_str(), outcome);
            holds(rt, is_so, line);
        }
    }
    Ok(())
}

/// Whether the expression of a text comes to what a line says.
fn comes_to(alloc: Global, scene: &Scene, locals: &Locals, text: &str, outcome: &str) -> bool {
    let expected = expected_of(outcome);
    expected.is_some() && outcome_of(alloc, scene, locals, text) == expected
}

fn probe_and_process() -> Option<(Probe, Process)> {
    let tuple = ProbeTuple::parse(b"syscall:unix:read:entry")?;
    let process = Process {
        pid: 999_999,
        uid: 0,
        execname: ShortText::new(b"shell")?,
    };
    Some((Probe::new(17, tuple), process))
}

fn firing() -> Firing {
    Firing {
        cpu: 0,
        place: 0,
        probe: 17,
        pid: 999_999,
        tid: 1,
        mode: Mode::User,
        timestamp: 1,
        args: [0; 10],
        kstack: [0; 8],
        ustack: [0; 8],
    }
}

#[test]
fn expressions_come_to_what_the_tables_say(rt: HostRuntime) -> Result<(), Fail> {
    let (probe, process) = probe_and_process().ok_or("no probe")?;
    let firing = firing();
    let scene = Scene {
        epid: 1,
        probe: &probe,
        process: &process,
        firing: &firing,
    };
    tables_hold(&rt, rt.alloc(), &scene)
}

/// Checks both tables, where there is no variable of a thread.
fn tables_hold(rt: &impl Abort, alloc: Global, scene: &Scene) -> Result<(), Fail> {
    let locals = Locals::new(alloc, 65_536)?;
    let traced = ("BEGIN{trace(", ")}");
    table_holds(rt, alloc, scene, &locals, EXPRESSIONS, traced)?;
    table_holds(rt, alloc, scene, &locals, PREDICATES, ("BEGIN/", "/{}"))
}

#[test]
fn knows_the_words(rt: HostRuntime) {
    let rows: [(&[u8], Word); 10] = [
        (b"ustack", Word::Action(Action::Ustack)),
        (b"lquantize", Word::Function(Function::Lquantize)),
        (b"copyoutstr", Word::Destructive(Destructive::Copyoutstr)),
        (b"arg9", Word::Number(NumberVariable::Arg9)),
        (b"probemod", Word::Text(TextVariable::Probemod)),
        (b"speculate", Word::Action(Action::Speculate)),
        (b"self", Word::Keyword(Keyword::ThreadLocal)),
        (b"speculation", Word::Keyword(Keyword::Speculation)),
        (b"Trace", Word::Unknown(Name::new(b"Trace"))),
        (b"a_name_that_takes_32_bytes_to_be", Word::Unknown(None)),
    ];
    for (name, word) in rows {
        assert!(rt; Word::of(name) == word, "{name:?}");
    }
}
