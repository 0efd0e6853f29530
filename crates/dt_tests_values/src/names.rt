//! Names and the names of probes, from the rules.
use dt_names::{Name, ProbeTuple};
use std::alloc::Global;
use std::test::Fail;

#[test]
fn knows_names(rt: HostRuntime) {
    let rows: [(&[u8], bool); 6] = [
        (b"", true),
        (b"abcdefghijklmnopqrstuvwxyz01234", true),
        (b"abcdefghijklmnopqrstuvwxyz012345", false),
        (b"a.b-c_d*!~", true),
        (b"a b", false),
        (b"a:b", false),
    ];
    for (bytes, is_name) in rows {
        assert!(rt; name(bytes).is_some() == is_name, "{bytes:?}");
    }
}

#[test]
fn a_name_is_its_bytes_and_zeros(rt: HostRuntime) -> Result<(), Fail> {
    let name = name(b"ann").ok_or("no name")?;
    assert!(rt; name.as_bytes() == b"ann".as_slice() && !name.is_empty());
    let padded = name.padded();
    assert!(rt; padded.starts_with(b"ann\0") && padded.last() == Some(&0));
    assert!(rt; padded.len() == 32);
    Ok(())
}

fn name(bytes: &[u8]) -> Option<Name> {
    Name::new(bytes)
}

#[test]
fn reads_probes_and_nothing_else(rt: HostRuntime) {
    let rows: [(&[u8], bool); 9] = [
        (b"syscall::read:entry", true),
        (b"dtrace:::BEGIN", true),
        (b"fbt:genunix:kmem_alloc:entry", true),
        (b"a:b:c:abcdefghijklmnopqrstuvwxyz01234", true),
        (b"a:b:c:abcdefghijklmnopqrstuvwxyz012345", false),
        (b"read:entry", false),
        (b":m:f:n", false),
        (b"p:m:f:", false),
        (b"p:m:f:n:o", false),
    ];
    for (text, is_probe) in rows {
        assert!(rt; probe(text).is_some() == is_probe, "{text:?}");
    }
}

fn probe(text: &[u8]) -> Option<ProbeTuple> {
    ProbeTuple::parse(text)
}

fn printed(alloc: Global, text: &str) -> Result<String, Fail> {
    let tuple = probe(text.as_bytes()).ok_or("no probe")?;
    Ok(tuple.to_string(alloc)?)
}

#[test]
fn prints_as_it_was_read(rt: HostRuntime) -> Result<(), Fail> {
    for text in ["syscall::read:entry", "dtrace:::END"] {
        let printed = printed(rt.alloc(), text)?;
        assert!(rt; printed.as_str() == text);
    }
    Ok(())
}
