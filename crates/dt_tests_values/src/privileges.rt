//! The table of privileges, row by row.
use dt_cred::{Account, Class, Mode, Privs, Probe, Process, admits, may_enable, permits};
use dt_names::{Name, ProbeTuple, ShortText};
use std::test::Fail;

/// In each line a probe, the privileges that an account of uid 501 holds (`u` dtrace_user, `p` dtrace_proc, `k`
/// dtrace_kernel, `o` proc_owner, `-` none), and what follows, `y` or `n`:
/// - whether it may enable the probe, where process 100 is its own, where it is another user's, and where it isn't there;
/// - whether it is shown a firing of its own process in user and in kernel mode, and of the other user's in both modes;
/// - whether it has permission over its own process, and over the other user's;
/// - whether it holds a dtrace privilege.
const TABLE: &str = "
dtrace:::BEGIN - nnn/yyyy/yn/n
dtrace:::BEGIN o nnn/yyyy/yy/n
dtrace:::BEGIN u yyy/yyyy/yn/y
dtrace:::BEGIN p yyy/yyyy/yn/y
dtrace:::BEGIN k yyy/yyyy/yn/y
syscall::read:entry u yyy/yynn/yn/y
syscall::read:entry uo yyy/yyyy/yy/y
syscall::read:entry p nnn/yynn/yn/y
syscall::read:entry k yyy/yyyy/yn/y
profile:::tick u yyy/ynnn/yn/y
profile:::tick uo yyy/ynyn/yy/y
profile:::tick po nnn/ynyn/yy/y
profile:::tick k yyy/yyyy/yn/y
pid100:a:f:entry p ynn/yyyy/yn/y
pid100:a:f:entry po yyn/yyyy/yy/y
pid100:a:f:entry k ynn/yyyy/yn/y
pid100:a:f:entry uo nnn/yyyy/yy/y
pid7:a:f:entry po nnn/yyyy/yy/y
fbt:::entry k yyy/yyyy/yn/y
fbt:::entry uo nnn/yyyy/yy/y
";

/// An account of uid 501 with the privileges of these letters.
fn account(held: &str) -> Option<Account> {
    let privs = Privs {
        dtrace_user: held.contains('u'),
        dtrace_proc: held.contains('p'),
        dtrace_kernel: held.contains('k'),
        proc_owner: held.contains('o'),
    };
    Some(Account {
        name: Name::new(b"ann")?,
        uid: 501,
        privs,
    })
}

/// Process 100 of this user.
fn process(uid: u32) -> Option<Process> {
    Some(Process {
        pid: 100,
        uid,
        execname: ShortText::new(b"sh")?,
    })
}

fn probe(text: &[u8]) -> Option<Probe> {
    Some(Probe::new(3, ProbeTuple::parse(text)?))
}

const fn letter(is_so: bool) -> u8 {
    if is_so { b'y' } else { b'n' }
}

/// What the table says of a probe and these privileges.
fn answers(text: &str, held: &str) -> Option<[u8; 13]> {
    let probe = probe(text.as_bytes())?;
    let account = account(held)?;
    let own = process(501)?;
    let other = process(0)?;
    Some([
        letter(may_enable(&account, &probe, Some(&own))),
        letter(may_enable(&account, &probe, Some(&other))),
        letter(may_enable(&account, &probe, None)),
        b'/',
        letter(admits(&account, &probe, Mode::User, &own)),
        letter(admits(&account, &probe, Mode::Kernel, &own)),
        letter(admits(&account, &probe, Mode::User, &other)),
        letter(admits(&account, &probe, Mode::Kernel, &other)),
        b'/',
        letter(permits(&account, &own)),
        letter(permits(&account, &other)),
        b'/',
        letter(account.privs.has_dtrace()),
    ])
}

#[test]
fn follows_the_table(rt: HostRuntime) -> Result<(), Fail> {
    for line in TABLE.lines() {
        let mut words = line.split_whitespace();
        let (Some(text), Some(held), Some(want)) = (words.next(), words.next(), words.next()) else {
            continue;
        };
        let got = answers(text, held).ok_or("no probe")?;
        assert_eq!(rt; got.as_slice(), want.as_bytes(), "{line}");
    }
    Ok(())
}

/// Names of probes, and the classes of their providers.
const CLASSES: &[(&[u8], Class)] = &[
    (b"dtrace:::BEGIN", Class::Dtrace),
    (b"syscall::read:entry", Class::Syscall),
    (b"profile:::tick-1sec", Class::Profile),
    (b"pid100:a:f:entry", Class::Pid(100)),
    (b"pid0:a:f:entry", Class::Pid(0)),
    (
        b"pid9999999999999999999999999999:a:f:entry",
        Class::Pid(9_999_999_999_999_999_999_999_999_999),
    ),
    (b"pid01:a:f:entry", Class::Other),
    (b"pid:a:f:entry", Class::Other),
    (b"pid-1:a:f:entry", Class::Other),
    (b"pidx:a:f:entry", Class::Other),
    (b"pid1x:a:f:entry", Class::Other),
    (b"fbt:genunix:kmem_alloc:entry", Class::Other),
    (b"syscalls::read:entry", Class::Other),
    (b"dtrac:::BEGIN", Class::Other),
];

#[test]
fn classes_follow_the_provider(rt: HostRuntime) -> Result<(), Fail> {
    for (text, class) in CLASSES {
        let probe = probe(text).ok_or("no probe")?;
        assert_eq!(rt; probe.class, *class, "{text:?}");
    }
    Ok(())
}
