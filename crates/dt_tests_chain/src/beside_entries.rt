//! Writes one after another, with looks that are compared with those of plain `Entries` that had the same writes.
ghost use Rattle.std.specs.Prelude.{◌≡◌};

use crate::calls::{
    FIRINGS, applied, firing, life_of, looked, machine, named_by_entries, published, seat_numbered,
    told,
};
use dt_chain::{ChainReader, ChainWriter, Chains, Entries, SEATS, SeatMask, Site, Write};
use dt_machine::{Interest, Machine};
use std::alloc::{AllocError, Global};
use std::marker::Brand;
use std::process::Abort;
use std::sync::{Mutex, Wait};
use std::test::Fail;

/// How many writes are made.
const WRITES: u64 = 300;

/// After each write the chains name what the `Entries` name. A write that is refused for memory changes nothing, and comes with
/// the next one if it is in the list. One is refused at most, as one allocation is.
#[test]
fn looks_are_those_of_entries(rt: HostRuntime) -> Result<(), Fail> {
    let machine = machine(rt.alloc())?;
    plays::<Brand, _>(&rt, rt.alloc(), &machine, Chains::new())
}

fn plays<J: Site, R: Wait + Abort>(
    rt: &R,
    alloc: Global,
    machine: &Machine,
    chains: Chains,
) -> Result<(), Fail>
    requires { chains ≡ J.book }
{
    let writer = chains.writer::<J>(alloc, 1)?;
    let reader = writer.reader();
    let writer = Mutex::new(writer);
    let result = compares(rt, alloc, machine, &writer, reader);
    writer.into_inner().end(rt);
    result
}

fn compares<J: Site, R: Wait + Abort>(
    rt: &R,
    alloc: Global,
    machine: &Machine,
    writer: &Mutex<ChainWriter<J>>,
    reader: Result<ChainReader<J>, AllocError>,
) -> Result<(), Fail> {
    let mut reader = reader?;
    let mut beside = Beside::new(alloc)?;
    for number in 0..WRITES {
        beside.goes_on(rt, alloc, machine, writer, &mut reader, number)?;
    }
    beside.ends(rt, writer, &mut reader)
}

/// Plain `Entries` beside the chains: how many writes they had, the one that the chains refused last, and whether they refused any.
#[derive(Drop)]
struct Beside {
    entries: Entries,
    count: u64,
    refused: Option<Write>,
    was_refused: bool,
}

impl Beside {
    fn new(alloc: Global) -> Result<Beside, Fail> {
        let mut entries = Entries::new(alloc);
        entries.reserve()?;
        Ok(Beside {
            entries,
            count: 0,
            refused: None,
            was_refused: false,
        })
    }

    /// The write of a number, and looks after it.
    fn goes_on<J: Site, R: Wait + Abort>(
        &mut self,
        rt: &R,
        alloc: Global,
        machine: &Machine,
        writer: &Mutex<ChainWriter<J>>,
        reader: &mut ChainReader<J>,
        number: u64,
    ) -> Result<(), Fail> {
        let write = write_numbered(alloc, machine, number)?;
        self.writes(rt, writer, reader, write)?;
        name_alike(rt, machine, &self.entries, reader, self.count)
    }

    /// Both had as many writes.
    fn ends<J: Site, R: Wait + Abort>(
        &self,
        rt: &R,
        writer: &Mutex<ChainWriter<J>>,
        reader: &mut ChainReader<J>,
    ) -> Result<(), Fail> {
        assert_eq!(rt; told(rt, writer, reader), self.count);
        Ok(())
    }

    /// A write to the chains, and to the `Entries` if the chains have it.
    fn writes<J: Site, R: Wait + Abort>(
        &mut self,
        rt: &R,
        writer: &Mutex<ChainWriter<J>>,
        reader: &mut ChainReader<J>,
        write: Write,
    ) -> Result<(), Fail> {
        if published(rt, writer, write.clone()?).is_err() {
            return self.refuses(rt, write);
        }
        self.catches_up(rt, writer, reader)?;
        self.applies(&write)
    }

    fn refuses(&mut self, rt: &impl Abort, write: Write) -> Result<(), Fail> {
        assert!(rt; !self.was_refused);
        self.was_refused = true;
        self.refused = Some(write);
        Ok(())
    }

    /// The one that was refused comes with the next one, if it is in the list.
    fn catches_up<J: Site, R: Wait>(
        &mut self,
        rt: &R,
        writer: &Mutex<ChainWriter<J>>,
        reader: &mut ChainReader<J>,
    ) -> Result<(), Fail> {
        let Some(before) = self.refused.take() else {
            return Ok(());
        };
        if told(rt, writer, reader) == self.count.wrapping_add(2) {
            self.applies(&before)?;
        }
        Ok(())
    }

    fn applies(&mut self, write: &Write) -> Result<(), Fail> {
        applied(&mut self.entries, write)?;
        self.count = self.count.wrapping_add(1);
        Ok(())
    }
}

/// The write of a number: seats, lives, accounts and probes by an even mixture.
fn write_numbered(alloc: Global, machine: &Machine, number: u64) -> Result<Write, Fail> {
    let mixed = number
        .wrapping_mul(6_364_136_223_846_793_005)
        .wrapping_add(1_442_695_040_888_963_407)
        >> 33;
    let seat = seat_numbered([0, 1, 63, 64, 255][(mixed % 5) as usize])?;
    if mixed % 4 == 0 {
        return Ok(Write::withdrawal(seat));
    }
    let name: &[u8] = if mixed % 3 == 0 { b"ann" } else { b"root" };
    let account = machine.account(name).ok_or("no account")?;
    let mut interest = Interest::new();
    for probe in 3..7u32 {
        if (mixed >> probe) % 2 == 0 {
            interest.insert(probe);
        }
    }
    Ok(Write::publication(alloc, seat, number, account, &interest)?)
}

/// A look at each firing names what the `Entries` name, after so many writes.
fn name_alike<J: Site>(
    rt: &impl Abort,
    machine: &Machine,
    entries: &Entries,
    reader: &mut ChainReader<J>,
    count: u64,
) -> Result<(), Fail> {
    let mut mask = SeatMask::new();
    for place in 0..FIRINGS {
        let firing = firing(machine, place)?;
        let seen = looked(reader, machine, &firing, &mut mask);
        assert_eq!(rt; seen, Some(count));
        let wanted = named_by_entries(entries, machine, &firing);
        for seat in 0..SEATS as u32 {
            assert_eq!(rt; life_of(&mask, seat), life_of(&wanted, seat));
        }
    }
    Ok(())
}
