//! Lines of bytes, and what they ask.
use crate::asserts::same;
use dt_proto::{WholeLine, read_line};
use std::alloc::Global;
use std::test::Fail;

/// How a line is answered, as the names of the variants print.
fn told(alloc: Global, line: &[u8]) -> Result<String, Fail> {
    let text = match read_line(alloc, WholeLine::Bytes(line))? {
        Ok(command) => format!(in alloc; "{command:?}")?,
        Err(refusal) => format!(in alloc; "{refusal:?}")?,
    };
    Ok(text)
}

/// Lines, and what they ask or why they are refused.
const ROWS: &[(&[u8], &str)] = &[
    (b"{\"cmd\":\"go\"}", "Go"),
    (
        b"{\"cmd\": \"enable\", \"text\": \"x{}\"}",
        "Enable { text: \"x{}\" }",
    ),
    (b"{\"cmd\":\"snap\",\"cpu\":1}", "Snap { cpu: 1 }"),
    (
        b"{\"cmd\":\"list\",\"probe\":\"a\"}",
        "List { probe: \"a\" }",
    ),
    (b"{\"cmd\":\"list\"}", "Request"),
    (b"{\"cmd\":\"agg\",\"name\":\"a\"}", "Agg { name: \"a\" }"),
    (b"{\"cmd\":\"trunc\",\"name\":\"\"}", "Trunc { name: \"\" }"),
    (b"{\"cmd\":\"agg\"}", "Request"),
    (b"{\"cmd\":\"trunc\"}", "Request"),
    (b"{\"cmd\":\"trunc\",\"name\":1}", "Request"),
    (b"{\"cmd\":\"status\",\"epid\":1}", "Status"),
    (b"{\"cmd\":\"describe\",\"epid\":3}", "Describe { epid: 3 }"),
    (b"{\"cmd\":\"describe\"}", "Request"),
    (
        b" {\"cpu\":7,\"cmd\":\"go\",\"cmd\":\"snap\",\"cpu\":18446744073709551615,\"x\":null}\r",
        "Snap { cpu: 18446744073709551615 }",
    ),
    (b"", "Json"),
    (b"[", "Json"),
    (b"{\"cmd\":\"go\"} {}", "Json"),
    (b"{\"cmd\":\"\xff\"}", "Json"),
    (b"[]", "Request"),
    (b"{}", "Request"),
    (b"{\"cmd\":1}", "Request"),
    (b"{\"cmd\":\"stop\"}", "Stop"),
    (b"{\"cmd\":\"close\"}", "Close"),
    (b"{\"cmd\":\"Close\"}", "Request"),
    (
        b"{\"cmd\":\"option\",\"name\":\"bufsize\",\"value\":28}",
        "Option { name: \"bufsize\", value: Number(28) }",
    ),
    (
        b"{\"cmd\":\"option\",\"name\":\"bufpolicy\",\"value\":\"ring\"}",
        "Option { name: \"bufpolicy\", value: Text(\"ring\") }",
    ),
    // a value of any other kind is read, and is for the consumer to refuse
    (
        b"{\"cmd\":\"option\",\"name\":\"\",\"value\":18446744073709551615}",
        "Option { name: \"\", value: Number(18446744073709551615) }",
    ),
    (
        b"{\"cmd\":\"option\",\"name\":\"x\",\"value\":18446744073709551616}",
        "Option { name: \"x\", value: Other }",
    ),
    (
        b"{\"cmd\":\"option\",\"name\":\"x\",\"value\":-1}",
        "Option { name: \"x\", value: Other }",
    ),
    (
        b"{\"cmd\":\"option\",\"name\":\"x\",\"value\":1.0}",
        "Option { name: \"x\", value: Other }",
    ),
    (
        b"{\"cmd\":\"option\",\"name\":\"x\",\"value\":true}",
        "Option { name: \"x\", value: Other }",
    ),
    (
        b"{\"cmd\":\"option\",\"name\":\"x\",\"value\":null}",
        "Option { name: \"x\", value: Other }",
    ),
    (
        b"{\"cmd\":\"option\",\"name\":\"x\",\"value\":[1]}",
        "Option { name: \"x\", value: Other }",
    ),
    (b"{\"cmd\":\"option\",\"name\":\"bufsize\"}", "Request"),
    (b"{\"cmd\":\"option\",\"value\":1}", "Request"),
    (b"{\"cmd\":\"option\",\"name\":1,\"value\":1}", "Request"),
    (b"{\"cmd\":\"enable\",\"text\":1}", "Request"),
    (b"{\"cmd\":\"snap\"}", "Request"),
    (b"{\"cmd\":\"snap\",\"cpu\":-1}", "Request"),
    (b"{\"cmd\":\"snap\",\"cpu\":1.0}", "Request"),
    (
        b"{\"cmd\":\"snap\",\"cpu\":18446744073709551616}",
        "Request",
    ),
];

#[test]
fn answers_each_line(rt: HostRuntime) -> Result<(), Fail> {
    for (line, wanted) in ROWS {
        let text = told(rt.alloc(), line)?;
        assert_eq!(rt; text.as_str(), *wanted, "{line:?}");
    }
    Ok(())
}

/// How a line of this many brackets is answered.
fn told_of_brackets(alloc: Global, len: usize) -> Result<String, Fail> {
    let line = vec![in alloc; b'['; len]?;
    told(alloc, &line)
}

#[test]
fn measures_before_it_reads(rt: HostRuntime) -> Result<(), Fail> {
    for (len, wanted) in [(65_536, "Json"), (65_537, "LineLong")] {
        let text = told_of_brackets(rt.alloc(), len)?;
        same(&rt, text.as_str(), wanted, "brackets");
    }
    Ok(())
}
