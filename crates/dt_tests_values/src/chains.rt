//! Publications, withdrawals and looks, as a table of them with what is named.
use crate::asserts::word_holds;
use dt_chain::{Entries, SEATS, Seat, SeatMask, SeatSet, Write};
use dt_cred::Account;
use dt_machine::{Firing, Interest, Machine, PROBE_ID_MAX};
use std::alloc::Global;
use std::process::Abort;
use std::test::Fail;

/// Probes 1 and 2 are `BEGIN` and `END`, those of the file have 3 to 6; the firings of processor 0 are numbered from
/// 0.
fn machine_file() -> &'static str {
    r#"{"cpus":1,
    "accounts":[{"name":"root","uid":0,"privs":["dtrace_kernel"]},{"name":"ann","uid":501,"privs":["dtrace_user"]},
        {"name":"eve","uid":7,"privs":["dtrace_user"]}],
    "processes":[{"pid":100,"uid":501,"execname":"sh"},{"pid":200,"uid":0,"execname":"cron"}],
    "probes":["syscall::read:entry","profile:::tick-1sec","fbt:genunix:kmem_alloc:entry","pid100:a:f:entry"],
    "scripts":[[{"probe":3,"pid":100},{"probe":4,"pid":100},{"probe":4,"pid":100,"mode":"kernel"},
        {"probe":3,"pid":200},{"probe":5,"pid":200},{"probe":6,"pid":100}]]}"#
}

/// A history in each line. `+ seat life account probes` publishes, `- seat` withdraws. `? firing seats` looks: at
/// the firing of that number, or at one that doesn't belong to the machine, by the letter of what is wrong with it;
/// the seats that are named stand with their lives, or `none`.
const TABLE: &str = "
? 0 none
+ 0 1 root 3 ? 0 0:1 ? 1 none ? 3 0:1
+ 0 1 root 3 - 0 ? 0 none
+ 0 1 root 3 - 1 ? 0 0:1
- 0 + 0 1 root 3 ? 0 0:1 - 0 - 0 ? 0 none
+ 0 1 root 3 - 0 + 0 2 root 3 ? 0 0:2
+ 0 1 root 3 + 0 2 root 4 ? 0 none ? 1 0:2
+ 0 2 root 3,4 + 0 2 root 4 ? 0 none ? 1 0:2
+ 0 1 root 3 + 0 2 ann 3 ? 0 0:2 ? 3 none
+ 0 1 root 3 + 1 1 root 4 ? 0 0:1 ? 1 1:1
+ 0 9 root 3 + 0 4 root 3 ? 0 0:4
+ 255 18446744073709551615 root 3 ? 0 255:18446744073709551615
+ 31 7 root 3 + 32 8 root 3 + 63 0 root 3 + 0 0 root 3 ? 0 0:0,31:7,32:8,63:0 - 32 ? 0 0:0,31:7,63:0
+ 63 1 root 3 + 64 2 root 3 + 127 3 ann 3 + 128 4 root 3 + 191 5 root 3 + 192 6 eve 3 + 255 7 root 3 ? 0 63:1,64:2,127:3,128:4,191:5,255:7 - 64 - 255 ? 0 63:1,127:3,128:4,191:5 ? b none ? 0 63:1,127:3,128:4,191:5
+ 5 1 ann 3,4 + 2 9 root 3,4 + 9 4 eve 3,4 ? 0 2:9,5:1 ? 1 2:9,5:1 ? 2 2:9 ? 3 2:9
+ 1 0 eve 3,4,5,6 ? 0 none ? 1 none ? 2 none ? 3 none ? 4 1:0 ? 5 1:0
+ 1 0 root 1,2,3,4,5,6,4098 ? b none ? e none ? l none ? a none ? p none ? o none ? c none ? 5 1:0
+ 1 0 root - ? 0 none ? 5 none
";

#[test]
fn looks_name_what_the_table_says(rt: HostRuntime) -> Result<(), Fail> {
    let alloc = rt.alloc();
    let machine = Machine::read(alloc, machine_file().as_bytes())?;
    for line in TABLE.lines() {
        plays(&rt, alloc, &machine, line)?;
    }
    Ok(())
}

/// Does what a line's words say, and compares what is named.
fn plays(rt: &impl Abort, alloc: Global, machine: &Machine, line: &str) -> Result<(), Fail> {
    let mut entries = Entries::new(alloc);
    play_on(rt, alloc, machine, &mut entries, line)
}

/// Does what a line's words say on these entries.
fn play_on(
    rt: &impl Abort,
    alloc: Global,
    machine: &Machine,
    entries: &mut Entries,
    line: &str,
) -> Result<(), Fail> {
    // one mask is lent to all looks of the line
    let mut lent = SeatMask::new();
    let mut words = line.split_whitespace();
    while let Some(word) = words.next() {
        let first = words.next().ok_or("no word")?;
        let done = match word {
            "+" => {
                let more = (words.next(), words.next(), words.next());
                publishes(alloc, machine, entries, first, more)
            }
            "-" => withdrawn(entries, first),
            _ => {
                let asked = (line, first, words.next());
                looks(rt, alloc, machine, entries, &mut lent, asked)
            }
        };
        done?;
    }
    Ok(())
}

/// Publishes at a seat: the life, the account and the probes of these words.
fn publishes(
    alloc: Global,
    machine: &Machine,
    entries: &mut Entries,
    seat: &str,
    (life, name, probes): (Option<&str>, Option<&str>, Option<&str>),
) -> Result<(), Fail> {
    let life = first_number(life)?;
    let name = name.ok_or("no account")?;
    let account = machine.account(name.as_bytes()).ok_or("no account")?;
    let interest = interest_of(probes.ok_or("no probes")?)?;
    published(alloc, entries, seat_of(seat)?, life, account, &interest)
}

/// Looks at the firing of a line's word in both ways, and compares what is named.
fn looks(
    rt: &impl Abort,
    alloc: Global,
    machine: &Machine,
    entries: &Entries,
    lent: &mut SeatMask,
    (line, word, wanted): (&str, &str, Option<&str>),
) -> Result<(), Fail> {
    let firing = firing_of(machine, word)?;
    looked_into(entries, machine, &firing, lent);
    for mask in [looked(entries, machine, &firing), *lent] {
        let named = named(rt, alloc, mask)?;
        word_holds(rt, Some(named.as_str()) == wanted, word, line);
    }
    Ok(())
}

/// Publishes by the call where the life is even, and else by a write that is applied.
fn published(
    alloc: Global,
    entries: &mut Entries,
    seat: Seat,
    life: u64,
    account: &Account,
    interest: &Interest,
) -> Result<(), Fail> {
    if life % 2 == 0 {
        return Ok(entries.publish(seat, life, account, interest)?);
    }
    applied(
        entries,
        Write::publication(alloc, seat, life, account, interest)?,
    )
}

/// Withdraws by the call on an even seat, and else by a write that is applied.
fn withdrawn(entries: &mut Entries, seat: &str) -> Result<(), Fail> {
    let seat = seat_of(seat)?;
    if seat.number() % 2 == 0 {
        entries.withdraw(seat);
        return Ok(());
    }
    applied(entries, Write::withdrawal(seat))
}

/// A write may be copied, and each copy applied.
fn applied(entries: &mut Entries, write: Write) -> Result<(), Fail> {
    Ok(entries.apply(&write.clone()?)?)
}

fn looked(entries: &Entries, machine: &Machine, firing: &Firing) -> SeatMask {
    entries.look(machine, firing)
}

fn looked_into(entries: &Entries, machine: &Machine, firing: &Firing, mask: &mut SeatMask) {
    entries.look_into(machine, firing, mask);
}

/// The first seat that a mask names, and its life; it is removed.
fn taken(rt: &impl Abort, mask: &mut SeatMask) -> Option<(u32, u64)> {
    let (seat, life) = mask.first()?;
    assert!(rt; !mask.is_empty() && mask.life_of(seat) == Some(life));
    assert!(rt; mask.seats().first() == Some(seat) && mask.seats().contains(seat));
    mask.remove(seat);
    assert!(rt; mask.life_of(seat).is_none() && !mask.seats().contains(seat));
    Some((seat.number(), life))
}

/// The seats that a mask names, each with its life.
fn named(rt: &impl Abort, alloc: Global, mut mask: SeatMask) -> Result<String, Fail> {
    let mut text = String::new(alloc);
    for _ in 0..SEATS {
        if let Some(taken) = taken(rt, &mut mask) {
            push_seat(alloc, &mut text, taken)?;
        }
    }
    assert!(rt; mask.is_empty());
    if text.is_empty() {
        text.push_str("none")?;
    }
    Ok(text)
}

/// Adds a seat and its life.
fn push_seat(alloc: Global, text: &mut String, (seat, life): (u32, u64)) -> Result<(), Fail> {
    let comma = if text.is_empty() { "" } else { "," };
    text.push_str(format!(in alloc; "{comma}{seat}:{life}")?.as_str())?;
    Ok(())
}

/// The firing of a number, or one that is foreign: of `BEGIN`, of `END`, of the last or a further probe that can be
/// (`l`, `a`), of no process, of another process than its provider's, or of no processor.
fn firing_of(machine: &Machine, word: &str) -> Result<Firing, Fail> {
    let mut firing = *machine.firing(0, 0).ok_or("no firing")?;
    match word {
        "b" => firing.probe = 1,
        "e" => firing.probe = 2,
        "l" => firing.probe = PROBE_ID_MAX,
        "a" => firing.probe = u32::MAX,
        "p" => firing.pid = 300,
        "o" => {
            firing.probe = 6;
            firing.pid = 200;
        }
        "c" => firing.cpu = 1,
        _ => firing = *machine.firing(0, word.parse::<u32>()?).ok_or("no firing")?,
    }
    Ok(firing)
}

/// The set of the probes whose identifiers stand between commas; `-` is none.
fn interest_of(word: &str) -> Result<Interest, Fail> {
    let mut interest = Interest::new();
    if word == "-" {
        return Ok(interest);
    }
    for id in word.split(',') {
        let id = id.parse::<u32>()?;
        if id <= PROBE_ID_MAX {
            interest.insert(id);
        }
    }
    Ok(interest)
}

fn seat_of(word: &str) -> Result<Seat, Fail> {
    seat_numbered(word.parse::<u32>()?)
}

fn first_number(word: Option<&str>) -> Result<u64, Fail> {
    Ok(word.ok_or("no number")?.parse::<u64>()?)
}

/// Room once taken serves every publication; there is no seat after the last.
#[test]
fn room_and_seats(rt: HostRuntime) -> Result<(), Fail> {
    let mut entries = Entries::new(rt.alloc());
    entries.reserve()?;
    entries.reserve()?;
    assert!(rt;
        Seat::new(255).is_some() && Seat::new(256).is_none() && Seat::new(u32::MAX).is_none()
    );
    assert!(rt; SeatMask::new().is_empty());
    Ok(())
}

/// A set has the seats that were put in and not taken out, and tells the least first.
#[test]
fn sets_of_seats(rt: HostRuntime) -> Result<(), Fail> {
    let mut seats = SeatSet::new();
    assert!(rt; seats.is_empty() && seats.first().is_none());
    for number in [255, 64, 63, 64, 128] {
        seats.insert(seat_numbered(number)?);
    }
    for number in [63, 64, 128, 255] {
        let seat = seat_numbered(number)?;
        assert!(rt;
            seats.contains(seat) && seats.first() == Some(seat),
            "{number}"
        );
        seats.remove(seat);
        assert!(rt; !seats.contains(seat), "{number}");
    }
    assert!(rt; seats.is_empty());
    Ok(())
}

fn seat_numbered(number: u32) -> Result<Seat, Fail> {
    Ok(Seat::new(number).ok_or("no seat")?)
}
