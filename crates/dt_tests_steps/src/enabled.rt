//! Lists of steps, enabled or not, each with what is answered and what its looks name.
use crate::calls::{look, machine_of, named, ran, replies_of, seat_numbered, step_on, words_of};
use dt_machine::Machine;
use dt_steps::{Ran, Step};
use std::alloc::Global;
use std::process::Abort;
use std::test::Fail;

/// Two processors, of which the first fires a system call twice, with 7 and with 8.
const MACHINE: &str = r#"{"cpus":2,
"accounts":[{"name":"root","uid":0,"privs":["dtrace_kernel"]},{"name":"joe","uid":501,"privs":["proc_owner"]}],
"processes":[{"pid":100,"uid":501,"execname":"sh"}],
"probes":["syscall::read:entry","profile:::tick-1sec"],
"scripts":[[{"probe":3,"pid":100,"args":[7]},{"probe":3,"pid":100,"args":[8]}],[]]}"#;

/// The second session fills its buffer, exits and closes, and a third takes its seat between a look and the offers. A
/// look has its processor, and the place of a firing in the first processor's script.
const SHARED: &str = r#"open 0 root
open 1 root
ask 0 {"cmd":"enable","text":"read:entry{trace(arg0)}"}
ask 1 {"cmd":"option","name":"bufpolicy","value":"fill"}
ask 1 {"cmd":"option","name":"bufsize","value":4}
ask 1 {"cmd":"enable","text":"read:entry{} read:entry{trace(arg0);exit(9)}"}
ask 0 {"cmd":"go"}
publish 0
finish 0
ask 1 {"cmd":"go"}
publish 1
finish 1
look 0 0
offer 0 0
offer 0 1
ask 1 {"cmd":"status"}
look 0 1
ask 1 {"cmd":"close"}
withdraw 1
close 1
open 1 root
ask 1 {"cmd":"enable","text":"read:entry{}"}
ask 1 {"cmd":"go"}
publish 1
finish 1
offer 0 1
offer 0 0
ask 1 {"cmd":"snap","cpu":0}
ask 0 {"cmd":"snap","cpu":0}"#;

const SHARED_ANSWERS: &str = r#"0 {"count":1,"first":1,"ok":true}
1 {"ok":true}
1 {"ok":true}
1 {"count":2,"first":1,"ok":true}
0 {"ok":true}
1 {"ok":true}
1 {"aggdrops":[0,0],"cause":"exit","dyndrops":[0,0],"errors":[0,0],"exit":9,"ok":true,"phase":"stopped","seen":1,"specdrops":[0,0],"specfails":0}
1 {"ok":true}
1 {"count":1,"first":1,"ok":true}
1 {"ok":true}
1 {"cpu":0,"data":"","drops":0,"filled":false,"ok":true}
0 {"cpu":0,"data":"000000010000000000000007000000010000000000000008","drops":0,"filled":false,"ok":true}
"#;

const SHARED_MASKS: &str = "0:0 1:0 / 0:0 1:0 / ";

#[test]
fn sessions_share_a_machine(rt: HostRuntime) -> Result<(), Fail> {
    let alloc = rt.alloc();
    let machine = machine_of(alloc, MACHINE)?;
    let ran = run_of(alloc, &machine, SHARED)?;
    told(
        &rt,
        alloc,
        &ran,
        SHARED_ANSWERS,
        SHARED_MASKS,
        "two sessions",
    )
}

/// In each row steps, with `;` between them, what is answered, and what the looks name.
const ROWS: &[(&str, &str, &str)] = &[
    // no account of the machine, and one without a privilege
    (r#"open 0 eve;open 0 joe;ask 0 {"cmd":"stop"}"#, "", ""),
    // a taken seat stays
    (
        r#"open 0 root;ask 0 {"cmd":"stop"};open 0 root;ask 0 {"cmd":"stop"};close 0;close 0;ask 0 {"cmd":"stop"}"#,
        "0 {\"error\":10,\"name\":\"Busy\"}\n0 {\"error\":10,\"name\":\"Busy\"}\n",
        "",
    ),
    // nothing is answered while a `go` is pending, and it is finished once, after it was published
    (
        r#"open 0 root;finish 0;publish 0;ask 0 {"cmd":"go"};ask 0 {"cmd":"stop"};finish 0;publish 0;finish 0;finish 0"#,
        "0 {\"ok\":true}\n",
        "",
    ),
    // a `go` takes effect at its finish: the firing before it is none of its
    (
        r#"open 0 root;ask 0 {"cmd":"enable","text":"read:entry{}"};ask 0 {"cmd":"go"};look 0 0;publish 0;look 0 0;offer 0 0;finish 0;look 0 1;offer 0 0;offer 0 0;ask 0 {"cmd":"snap","cpu":0}"#,
        "0 {\"count\":1,\"first\":1,\"ok\":true}\n0 {\"ok\":true}\n0 {\"cpu\":0,\"data\":\"00000001\",\"drops\":0,\"filled\":false,\"ok\":true}\n",
        "/ 0:0 / 0:0 / ",
    ),
    // a pending `go` is lost with its session, but what it published stays
    (
        r#"open 0 root;ask 0 {"cmd":"enable","text":"read:entry{}"};ask 0 {"cmd":"go"};publish 0;close 0;open 0 root;finish 0;look 0 0;offer 0 0;ask 0 {"cmd":"stop"};withdraw 0;look 0 1"#,
        "0 {\"count\":1,\"first\":1,\"ok\":true}\n0 {\"error\":10,\"name\":\"Busy\"}\n",
        "0:0 / / ",
    ),
    // an active session keeps its publication, a stopped one needs none
    (
        r#"open 5 root;ask 5 {"cmd":"enable","text":"read:entry{}"};ask 5 {"cmd":"go"};withdraw 5;publish 5;finish 5;withdraw 5;look 0 0;offer 0 5;ask 5 {"cmd":"stop"};withdraw 5;look 0 1"#,
        "5 {\"count\":1,\"first\":1,\"ok\":true}\n5 {\"ok\":true}\n5 {\"ok\":true}\n",
        "5:0 / / ",
    ),
    // no look while offers are left, none at another processor's firing, and none where there is no processor
    (
        r#"open 0 root;ask 0 {"cmd":"enable","text":"read:entry{}"};ask 0 {"cmd":"go"};publish 0;finish 0;look 1 0;look 2 0;look 0 0;look 0 1;offer 1 0;offer 0 1;look 0 1;offer 0 0;look 0 1"#,
        "0 {\"count\":1,\"first\":1,\"ok\":true}\n0 {\"ok\":true}\n",
        "0:0 / 0:0 / ",
    ),
    // nothing is answered after an accepted `close`
    (
        r#"open 0 root;ask 0 {"cmd":"close"};ask 0 {"cmd":"stop"};close 0;open 0 root;ask 0 {"cmd":"stop"}"#,
        "0 {\"ok\":true}\n0 {\"error\":10,\"name\":\"Busy\"}\n",
        "",
    ),
];

#[test]
fn steps_are_enabled_as_the_table_says(rt: HostRuntime) -> Result<(), Fail> {
    let alloc = rt.alloc();
    let machine = machine_of(alloc, MACHINE)?;
    for (steps, answers, masks) in ROWS {
        compared(&rt, alloc, &machine, steps, answers, masks)?;
    }
    Ok(())
}

fn compared(
    rt: &impl Abort,
    alloc: Global,
    machine: &Machine,
    steps: &str,
    answers: &str,
    masks: &str,
) -> Result<(), Fail> {
    let mut lines = String::new(alloc);
    for step in steps.split(';') {
        lines.push_str(step)?;
        lines.push_str("\n")?;
    }
    let ran = run_of(alloc, machine, lines.as_str())?;
    told(rt, alloc, &ran, answers, masks, steps)
}

/// Compares what was answered, and what the looks named.
fn told(
    rt: &impl Abort,
    alloc: Global,
    ran: &Ran,
    answers: &str,
    masks: &str,
    steps: &str,
) -> Result<(), Fail> {
    assert_eq!(rt;
        replies_of(alloc, ran)?.as_slice(),
        answers.as_bytes(),
        "{steps}"
    );
    assert_eq!(rt; masks_of(alloc, ran)?.as_str(), masks, "{steps}");
    Ok(())
}

/// What the steps in these lines are answered.
fn run_of(alloc: Global, machine: &Machine, lines: &str) -> Result<Ran, Fail> {
    let mut steps = Vec::new(alloc);
    for line in lines.lines() {
        steps.push(step_of(alloc, machine, words_of(line))?)?;
    }
    ran(alloc, machine, &steps)
}

fn step_of(alloc: Global, machine: &Machine, words: (&str, &str, &str)) -> Result<Step, Fail> {
    let (word, first, more) = words;
    let number = first.parse::<u32>()?;
    match word {
        "look" => look(machine, number, 0, more.parse::<u32>()?),
        "offer" => Ok(Step::Offer(number, seat_numbered(more.parse::<u32>()?)?)),
        _ => step_on(alloc, word, seat_numbered(number)?, more),
    }
}

/// The seats that each mask names, with their lives.
fn masks_of(alloc: Global, ran: &Ran) -> Result<String, Fail> {
    let mut text = String::new(alloc);
    for mask in &ran.masks {
        for (seat, life) in &named(alloc, *mask)? {
            text.push_str(format!(in alloc; "{seat}:{life} ")?.as_str())?;
        }
        text.push_str("/ ")?;
    }
    Ok(text)
}
