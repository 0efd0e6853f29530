//! Worked rows as the steps of a run; the same rows stand as replays in the examples.
use crate::calls::{
    MACHINE, asked, look, machine_of, named, ran, replies_of, seat_numbered, step_on, words_of,
};
use dt_chain::{Seat, SeatMask};
use dt_machine::Machine;
use dt_steps::Step;
use std::alloc::Global;
use std::process::Abort;
use std::test::Fail;

/// Three reads with an argument, and then the kernel's probe.
const READS: &str = r#"{"probe":3,"pid":100,"args":[7]},{"probe":3,"pid":100,"args":[8]},
{"probe":3,"pid":100,"args":[9]},{"probe":5,"pid":100}"#;

/// Reads of one's own process among those of another user's.
const OTHERS: &str =
    r#"{"probe":3,"pid":200},{"probe":3,"pid":100},{"probe":3,"pid":200},{"probe":3,"pid":200},
{"probe":3,"pid":100},{"probe":3,"pid":200},{"probe":3,"pid":200},{"probe":3,"pid":100}"#;

/// Two reads of `sh`.
const SHELL: &str = r#"{"probe":3,"pid":100,"args":[1]},{"probe":3,"pid":100,"args":[2]}"#;

/// A read of `sh`, and two of `cron`.
const BOTH: &str = r#"{"probe":3,"pid":100,"args":[9]},{"probe":3,"pid":200,"args":[3]},
{"probe":3,"pid":200,"args":[5]}"#;

/// In each row what the two processors of a machine of three probes fire, the step lines, and what is answered.
const ROWS: &[(&str, &str, &str, &str)] = &[
    // switch drops what doesn't fit, and what comes after is kept where it fits; drops are told once
    (
        READS,
        "",
        r#"open 0 root
call 0 {"cmd": "option", "name": "bufsize", "value": 28}
call 0 {"cmd": "enable", "text": "syscall::read:entry{trace(arg0)} fbt:::entry{}"}
call 0 {"cmd": "go"}
fire 0
fire 0
fire 0
fire 0
call 0 {"cmd": "snap", "cpu": 0}
call 0 {"cmd": "snap", "cpu": 0}
"#,
        r#"0 {"ok":true}
0 {"count":2,"first":1,"ok":true}
0 {"ok":true}
0 {"cpu":0,"data":"00000001000000000000000700000001000000000000000800000002","drops":1,"filled":false,"ok":true}
0 {"cpu":0,"data":"","drops":0,"filled":false,"ok":true}
"#,
    ),
    // ring keeps the latest, and is read once tracing has ended
    (
        READS,
        "",
        r#"open 0 root
call 0 {"cmd": "option", "name": "bufsize", "value": 28}
call 0 {"cmd": "option", "name": "bufpolicy", "value": "ring"}
call 0 {"cmd": "enable", "text": "syscall::read:entry{trace(arg0)} fbt:::entry{}"}
call 0 {"cmd": "go"}
fire 0
fire 0
fire 0
fire 0
call 0 {"cmd": "snap", "cpu": 0}
call 0 {"cmd": "stop"}
call 0 {"cmd": "snap", "cpu": 0}
"#,
        r#"0 {"ok":true}
0 {"ok":true}
0 {"count":2,"first":1,"ok":true}
0 {"ok":true}
0 {"error":10,"name":"Busy"}
0 {"ok":true}
0 {"cpu":0,"data":"00000001000000000000000800000001000000000000000900000002","drops":0,"filled":false,"ok":true}
"#,
    ),
    // under fill the first processor keeps room for END's records
    (
        READS,
        "",
        r#"open 0 root
call 0 {"cmd": "option", "name": "bufpolicy", "value": "fill"}
call 0 {"cmd": "option", "name": "bufsize", "value": 28}
call 0 {"cmd": "enable", "text": "syscall::read:entry{trace(arg0)} END{trace(5)}"}
call 0 {"cmd": "go"}
fire 0
fire 0
call 0 {"cmd": "stop"}
call 0 {"cmd": "snap", "cpu": 0}
"#,
        r#"0 {"ok":true}
0 {"ok":true}
0 {"count":2,"first":1,"ok":true}
0 {"ok":true}
0 {"ok":true}
0 {"cpu":0,"data":"000000010000000000000007000000020000000000000005","drops":0,"filled":true,"ok":true}
"#,
    ),
    // and tracing doesn't begin where there is no such room
    (
        READS,
        "",
        r#"open 0 root
call 0 {"cmd": "option", "name": "bufpolicy", "value": "fill"}
call 0 {"cmd": "option", "name": "bufsize", "value": 8}
call 0 {"cmd": "enable", "text": "syscall::read:entry{trace(arg0)} END{trace(5)}"}
call 0 {"cmd": "go"}
"#,
        r#"0 {"ok":true}
0 {"ok":true}
0 {"count":2,"first":1,"ok":true}
0 {"error":9,"name":"Limit"}
"#,
    ),
    // a history of two firings, of which only those are counted that are seen
    (
        OTHERS,
        "",
        r#"open 0 ann
call 0 {"cmd": "option", "name": "histsize", "value": 2}
call 0 {"cmd": "enable", "text": "syscall:::entry{trace(pid)}"}
call 0 {"cmd": "go"}
fire 0
fire 0
fire 0
fire 0
fire 0
fire 0
fire 0
fire 0
call 0 {"cmd": "status"}
call 0 {"cmd": "snap", "cpu": 0}
"#,
        r#"0 {"ok":true}
0 {"count":1,"first":1,"ok":true}
0 {"ok":true}
0 {"aggdrops":[0,0],"cause":"history","dyndrops":[0,0],"errors":[0,0],"exit":null,"ok":true,"phase":"stopped","seen":2,"specdrops":[0,0],"specfails":0}
0 {"cpu":0,"data":"000000010000000000000064000000010000000000000064","drops":0,"filled":false,"ok":true}
"#,
    ),
    // BEGIN exits, so tracing ends as it begins
    (
        READS,
        "",
        r#"open 0 root
call 0 {"cmd": "enable", "text": "BEGIN{exit(3)} END{trace(1)}"}
call 0 {"cmd": "go"}
call 0 {"cmd": "status"}
call 0 {"cmd": "snap", "cpu": 0}
call 0 {"cmd": "go"}
"#,
        r#"0 {"count":2,"first":1,"ok":true}
0 {"ok":true}
0 {"aggdrops":[0,0],"cause":"exit","dyndrops":[0,0],"errors":[0,0],"exit":3,"ok":true,"phase":"stopped","seen":0,"specdrops":[0,0],"specfails":0}
0 {"cpu":0,"data":"000000020000000000000001","drops":0,"filled":false,"ok":true}
0 {"error":10,"name":"Busy"}
"#,
    ),
    // values that no option takes, and lines that are too early or too late
    (
        READS,
        "",
        r#"open 0 root
call 0 {"cmd": "option", "name": "bufsize", "value": 0}
call 0 {"cmd": "option", "name": "bufpolicy", "value": null}
call 0 {"cmd": "option", "name": "bufsize"}
call 0 {"cmd": "stop"}
call 0 {"cmd": "enable", "text": "BEGIN{trace(1)} END{exit(2)}"}
call 0 {"cmd": "go"}
call 0 {"cmd": "option", "name": "nothing", "value": 0}
call 0 {"cmd": "stop"}
call 0 {"cmd": "stop"}
call 0 {"cmd": "status"}
call 0 {"cmd": "describe", "epid": 2}
"#,
        r#"0 {"error":11,"name":"Option"}
0 {"error":11,"name":"Option"}
0 {"error":2,"name":"Request"}
0 {"error":10,"name":"Busy"}
0 {"count":2,"first":1,"ok":true}
0 {"ok":true}
0 {"error":10,"name":"Busy"}
0 {"ok":true}
0 {"error":10,"name":"Busy"}
0 {"aggdrops":[0,0],"cause":"stop","dyndrops":[0,0],"errors":[0,0],"exit":null,"ok":true,"phase":"stopped","seen":0,"specdrops":[0,0],"specfails":0}
0 {"epid":2,"id":2,"layout":[],"ok":true,"probe":"dtrace:::END","size":0}
"#,
    ),
    // room for one entry on each processor, until the aggregation is truncated
    (
        SHELL,
        BOTH,
        r#"open 0 root
call 0 {"cmd":"option","name":"aggsize","value":56}
call 0 {"cmd":"enable","text":"read:entry{@a[execname]=avg(arg0)}"}
call 0 {"cmd":"go"}
fire 0
fire 0
fire 1
fire 1
call 0 {"cmd":"agg","name":"a"}
call 0 {"cmd":"status"}
call 0 {"cmd":"trunc","name":"a"}
call 0 {"cmd":"agg","name":"a"}
fire 1
call 0 {"cmd":"agg","name":"a"}
call 0 {"cmd":"status"}
"#,
        r#"0 {"ok":true}
0 {"count":1,"first":1,"ok":true}
0 {"ok":true}
0 {"fn":"avg","name":"a","ok":true,"rows":[{"key":["sh"],"value":4}]}
0 {"aggdrops":[0,1],"cause":null,"dyndrops":[0,0],"errors":[0,0],"exit":null,"ok":true,"phase":"active","seen":4,"specdrops":[0,0],"specfails":0}
0 {"ok":true}
0 {"fn":"avg","name":"a","ok":true,"rows":[]}
0 {"fn":"avg","name":"a","ok":true,"rows":[{"key":["cron"],"value":5}]}
0 {"aggdrops":[0,1],"cause":null,"dyndrops":[0,0],"errors":[0,0],"exit":null,"ok":true,"phase":"active","seen":5,"specdrops":[0,0],"specfails":0}
"#,
    ),
    // two sessions, of which the second fills its buffer, exits and closes, and a third that takes its seat before the offers
    (
        READS,
        "",
        r#"open 0 root
open 1 root
call 0 {"cmd":"enable","text":"read:entry{trace(arg0)}"}
call 1 {"cmd":"option","name":"bufpolicy","value":"fill"}
call 1 {"cmd":"option","name":"bufsize","value":4}
call 1 {"cmd":"enable","text":"read:entry{} read:entry{trace(arg0);exit(9)}"}
call 0 {"cmd":"go"}
call 1 {"cmd":"go"}
fire 0
call 1 {"cmd":"status"}
look 0
call 1 {"cmd":"close"}
open 1 root
call 1 {"cmd":"enable","text":"read:entry{}"}
call 1 {"cmd":"go"}
offer 0 1
offer 0 0
call 1 {"cmd":"snap","cpu":0}
call 0 {"cmd":"snap","cpu":0}
"#,
        r#"0 {"count":1,"first":1,"ok":true}
1 {"ok":true}
1 {"ok":true}
1 {"count":2,"first":1,"ok":true}
0 {"ok":true}
1 {"ok":true}
1 {"aggdrops":[0,0],"cause":"exit","dyndrops":[0,0],"errors":[0,0],"exit":9,"ok":true,"phase":"stopped","seen":1,"specdrops":[0,0],"specfails":0}
1 {"ok":true}
1 {"count":1,"first":1,"ok":true}
1 {"ok":true}
1 {"cpu":0,"data":"","drops":0,"filled":false,"ok":true}
0 {"cpu":0,"data":"000000010000000000000007000000010000000000000008","drops":0,"filled":false,"ok":true}
"#,
    ),
];

/// Inputs about the beginning and the end of sessions, with what is answered.
const AROUND: &[(&str, &str)] = &[
    ("", ""),
    ("\n\n", ""),
    ("fire 0\nfire 1\ncall 0 x\n", ""),
    // an account without a dtrace privilege opens nothing, before and after a session is opened
    ("open 0 joe\ncall 0 \nopen 0 joe\n", ""),
    (
        "open 0 joe\ncall 0 x\nopen 0 root\nopen 0 joe\ncall 0 \n",
        "0 {\"error\":1,\"name\":\"Json\"}\n",
    ),
    // a rest without a newline is no line
    (
        "\nopen 0 root\n\ncall 0 []\ncall 0 []",
        "0 {\"error\":2,\"name\":\"Request\"}\n",
    ),
    // a firing before the session takes its place in the script
    (
        "fire 0\nopen 0 root\ncall 0 {\"cmd\":\"enable\",\"text\":\"::read:entry{trace(arg0)}\"}\ncall 0 {\"cmd\":\"go\"}\nfire 0\ncall 0 {\"cmd\":\"snap\",\"cpu\":0}\n",
        "0 {\"count\":1,\"first\":1,\"ok\":true}\n0 {\"ok\":true}\n0 {\"cpu\":0,\"data\":\"\",\"drops\":0,\"filled\":false,\"ok\":true}\n",
    ),
    // a session ends by its close: nobody answers after it, until another one opens
    (
        "open 0 root\ncall 0 {\"cmd\":\"close\"}\ncall 0 x\nfire 0\ncall 0 {\"cmd\":\"close\"}\n",
        "0 {\"ok\":true}\n",
    ),
    (
        "open 0 root\ncall 0 {\"cmd\":\"close\"}\nopen 0 root\ncall 0 x\n",
        "0 {\"ok\":true}\n0 {\"error\":1,\"name\":\"Json\"}\n",
    ),
    // an open on a seat that is taken does nothing
    (
        "open 0 root\ncall 0 []\nopen 0 ann\ncall 0 {\"cmd\":\"list\",\"probe\":\"fbt:::\"}\n",
        "0 {\"error\":2,\"name\":\"Request\"}\n0 {\"ok\":true,\"probes\":[{\"id\":5,\"name\":\"fbt:genunix:kmem_alloc:entry\"}]}\n",
    ),
    // each seat up to the last, and none after it
    ("open 1 root\n", ""),
    (
        "open 255 root\ncall 255 []\n",
        "255 {\"error\":2,\"name\":\"Request\"}\n",
    ),
    // a seat on which no session is
    (
        "ask 0 []\npublish 0\nfinish 0\nwithdraw 0\nclose 0\nlook 0\noffer 0 0\n",
        "",
    ),
];

#[test]
fn lines_are_answered_as_their_steps(rt: HostRuntime) -> Result<(), Fail> {
    let alloc = rt.alloc();
    for (first, second, input, answer) in ROWS {
        let machine = machine_with(alloc, first, second)?;
        answered(&rt, alloc, &machine, input, answer)?;
    }
    let machine = machine_of(alloc, MACHINE)?;
    for (input, answer) in AROUND {
        answered(&rt, alloc, &machine, input, answer)?;
    }
    Ok(())
}

/// A machine of three probes whose two processors fire these scripts.
fn machine_with(alloc: Global, first: &str, second: &str) -> Result<Machine, Fail> {
    let mut machine = String::from_str(
        alloc,
        r#"{"cpus":2,"accounts":[{"name":"root","uid":0,"privs":["dtrace_kernel"]},
{"name":"ann","uid":501,"privs":["dtrace_user"]}],
"processes":[{"pid":100,"uid":501,"execname":"sh"},{"pid":200,"uid":0,"execname":"cron"}],
"probes":["syscall::read:entry","profile:::tick-1sec","fbt:genunix:kmem_alloc:entry"],"scripts":[["#,
    )?;
    for text in [first, "],[", second, "]]}"] {
        machine.push_str(text)?;
    }
    machine_of(alloc, machine.as_str())
}

/// An input that is accepted is answered with this text by a run of its steps.
fn answered(
    rt: &impl Abort,
    alloc: Global,
    machine: &Machine,
    input: &str,
    answer: &str,
) -> Result<(), Fail> {
    let steps = steps_of(alloc, machine, input)?;
    let told = replies_of(alloc, &ran(alloc, machine, &steps)?)?;
    assert_eq!(rt; told.as_slice(), answer.as_bytes(), "{input}");
    Ok(())
}

/// The steps that were made of step lines, and how many firings of each processor's script are among them.
#[derive(Drop)]
struct Made {
    steps: Vec<Step>,
    taken: [u32; 2],
}

/// The steps of an input that is accepted, in order.
fn steps_of(alloc: Global, machine: &Machine, input: &str) -> Result<Vec<Step>, Fail> {
    let mut made = Made {
        steps: Vec::new(alloc),
        taken: [0, 0],
    };
    // what stands after the last newline is no line
    let (whole, _rest) = input.rsplit_once('\n').unwrap_or(("", input));
    for line in whole.lines() {
        if !line.is_empty() {
            made.add(alloc, machine, words_of(line))?;
        }
    }
    Ok(made.steps)
}

impl Made {
    /// Adds the steps of a line.
    fn add(
        &mut self,
        alloc: Global,
        machine: &Machine,
        words: (&str, &str, &str),
    ) -> Result<(), Fail> {
        let (word, first, more) = words;
        let number = first.parse::<u32>()?;
        match word {
            "look" => {
                self.look(alloc, machine, number)?;
            }
            "fire" => self.fire(alloc, machine, number)?,
            "call" => self.call(alloc, seat_numbered(number)?, more.as_bytes())?,
            "offer" => {
                let seat = seat_numbered(more.parse::<u32>()?)?;
                self.steps.push(Step::Offer(number, seat))?;
            }
            _ => {
                let step = step_on(alloc, word, seat_numbered(number)?, more)?;
                self.steps.push(step)?;
            }
        }
        Ok(())
    }

    /// A call: an ask, and what a `go` or a `close` needs further. Where no `go` is pending, its further steps do nothing.
    fn call(&mut self, alloc: Global, seat: Seat, line: &[u8]) -> Result<(), Fail> {
        self.steps.push(Step::Ask(seat, asked(alloc, line)?))?;
        self.steps.push(Step::Publish(seat))?;
        self.steps.push(Step::Finish(seat))?;
        if line == b"{\"cmd\":\"close\"}".as_slice() {
            self.steps.push(Step::Withdraw(seat))?;
            self.steps.push(Step::Close(seat))?;
        }
        Ok(())
    }

    /// A look with the next firing of a processor's script, and what it names, where it is enabled. Else it takes no firing.
    fn look(
        &mut self,
        alloc: Global,
        machine: &Machine,
        cpu: u32,
    ) -> Result<Option<SeatMask>, Fail> {
        let taken = self.taken.get_mut(cpu as usize).ok_or("no processor")?;
        if machine.firing(cpu, *taken).is_none() {
            return Ok(None);
        }
        let step = look(machine, cpu, cpu, *taken)?;
        let before = ran(alloc, machine, &self.steps)?.masks.len();
        self.steps.push(step)?;
        let masks = ran(alloc, machine, &self.steps)?.masks;
        if masks.len() == before {
            return Ok(None);
        }
        *taken = taken.saturating_add(1);
        Ok(masks.last().copied())
    }

    /// A look, and an offer to each seat that it names.
    fn fire(&mut self, alloc: Global, machine: &Machine, cpu: u32) -> Result<(), Fail> {
        if let Some(mask) = self.look(alloc, machine, cpu)? {
            for (number, _life) in &named(alloc, mask)? {
                self.steps.push(Step::Offer(cpu, seat_numbered(*number)?))?;
            }
        }
        Ok(())
    }
}
