//! Descriptions and their faults, from the rules.
use dt_names::{NameFault, ProbeDesc};
use std::process::Abort;

const NAME_63: &[u8] = b"aaaaaaaaaabbbbbbbbbbccccccccccddddddddddeeeeeeeeeeffffffffff.63";

const NAME_64: &[u8] = b"aaaaaaaaaabbbbbbbbbbccccccccccddddddddddeeeeeeeeeeffffffffff..64";

/// Descriptions, and the provider, the module, the function and the name of each.
const ALIGNED: &[(&[u8], [&[u8]; 4])] = &[
    (b"", [b"", b"", b"", b""]),
    (b"entry", [b"", b"", b"", b"entry"]),
    (b"read:entry", [b"", b"", b"read", b"entry"]),
    (b"genunix::entry", [b"", b"genunix", b"", b"entry"]),
    (b"syscall::read:entry", [b"syscall", b"", b"read", b"entry"]),
    (b":::", [b"", b"", b"", b""]),
    (b"fbt:::", [b"fbt", b"", b"", b""]),
    (NAME_63, [b"", b"", b"", NAME_63]),
];

#[test]
fn aligns_descriptions_from_the_right(rt: HostRuntime) {
    for (text, want) in ALIGNED {
        has_fields(&rt, text, want);
    }
}

/// A text is a description of this provider, module, function and name.
fn has_fields(rt: &impl Abort, text: &[u8], want: &[&[u8]; 4]) {
    match parsed(text) {
        Err(fault) => panic!(rt; "{text:?} is refused: {fault}"),
        Ok(desc) => {
            is_field(rt, desc.provider, want[0], "provider", text);
            is_field(rt, desc.module, want[1], "module", text);
            is_field(rt, desc.function, want[2], "function", text);
            is_field(rt, desc.name, want[3], "name", text);
        }
    }
}

/// Ends the test where a field of a text isn't the one that is wanted.
fn is_field(rt: &impl Abort, found: &[u8], want: &[u8], field: &str, text: &[u8]) {
    assert!(rt; found == want, "the {field} of {text:?}");
}

fn parsed(text: &[u8]) -> Result<ProbeDesc<'_>, NameFault> {
    ProbeDesc::parse(text)
}

fn fault(text: &[u8]) -> Option<NameFault> {
    parsed(text).err()
}

/// Texts that are no description, and the fault of each.
const FAULTS: &[(&[u8], NameFault)] = &[
    (b"a b", NameFault::BadByte),
    (b"read:en\x7ftry", NameFault::BadByte),
    (b"a,b", NameFault::BadByte),
    (b"a{", NameFault::BadByte),
    (b"\xc3\xa9", NameFault::BadByte),
    (b"::::", NameFault::TooManyFields),
    (b"a:b:c:d:e f", NameFault::TooManyFields),
    (b"a b::::", NameFault::BadByte),
    (NAME_64, NameFault::TooLong),
];

#[test]
fn refuses_by_the_first_byte_that_shows_a_fault(rt: HostRuntime) {
    for (text, want) in FAULTS {
        assert!(rt; fault(text) == Some(*want), "{text:?}");
    }
}

/// On the 64th byte of a field a bad byte goes before the length, and a colon ends the field.
#[test]
fn tells_faults_of_the_64th_byte_apart(rt: HostRuntime) {
    let mut text = [b'a'; 70];
    for (byte, want) in [
        (b'a', Some(NameFault::TooLong)),
        (b'/', Some(NameFault::BadByte)),
        (b':', None),
    ] {
        text[63] = byte;
        assert!(rt; fault(&text) == want, "with byte {byte} at 63");
    }
}
