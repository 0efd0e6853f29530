//! What a buffer shows, computed anew from all that came to it.
ghost use Rattle.std.specs.Prelude.{◌≡◌, ◌≤◌, ◌<◌, ◌-◌, ◌⊎◌, ◌∷◌, [], ℕ, false, IfOk, length, drop};
ghost use Rattle.std.specs.List.{concat};
ghost use Rattle.dt_alone.specs.Happened.{all_to, fitting_on};
ghost use Rattle.dt_alone.specs.Shown.{IsBeginningOf, of_kind};
ghost use Rattle.dt_buffer.specs.Beginning.{ShowsFill, size_of};
ghost use Rattle.dt_buffer.specs.Choice.{ShowsSwitch};
ghost use Rattle.dt_buffer.specs.Ending.{ShowsRing, too_long};
ghost use Rattle.dt_buffer.specs.History.{attempts, of_end, ordinary, since_swap};
ghost use Rattle.dt_buffer.specs.Shows.{Shows};

use crate::happened::Happened;
use dt_buffer::Policy;
use dt_life::Options;
use std::alloc::{AllocError, Global};

/// What a buffer shows: the bytes of its records, how many it dropped, and whether it is filled.
#[derive(Drop)]
pub(crate) struct Shown {
    pub(crate) bytes: Vec<u8>,
    pub(crate) drops: u64,
    pub(crate) filled: bool,
}

/// The bytes of the longest beginning of some records that fits, and whether it hasn't all of them.
#[derive(Drop)]
pub(crate) struct FittingRecords {
    pub(crate) bytes: Vec<u8>,
    pub(crate) is_cut: bool,
}

/// What comes to a buffer.
#[derive(Clone, Copy)]
pub(crate) enum Came<'a> {
    Nothing,
    Put { bytes: &'a [u8], in_end: bool },
    Snapped,
}

impl Happened {
    ghost use Rattle.dt_alone.specs.Happened.{comes_to};
    ghost use Rattle.dt_alone.specs.Shown.{events_of};

    /// What comes by it to the buffer of a processor.
    pub(crate) fn comes_to(&self, on: u32) -> Came<'_>
        ensures { events_of result ≡ comes_to on self.now }
    {
        match self {
            Happened::Left { cpu, in_end, left } if *cpu == on => match &left.bytes {
                Some(bytes) => Came::Put {
                    bytes,
                    in_end: *in_end,
                },
                None => Came::Nothing,
            },
            Happened::Committed { cpu, in_end, part } if *cpu == on => Came::Put {
                bytes: part,
                in_end: *in_end,
            },
            Happened::Snapped { cpu } if *cpu == on => Came::Snapped,
            _ => Came::Nothing,
        }
    }
}

/// What the buffer of a processor shows after all that happened. Under fill, ordinary records have this room.
pub(crate) fn shown_on(
    alloc: Global,
    options: &Options,
    room: usize,
    happened: &[Happened],
    cpu: u32,
) -> Result<Shown, AllocError>
    requires { room ≤ options.now.bufsize }
    // for the reserve that leaves this room: what a buffer of this policy shows of all that came to it
    ensures { IfOk result (λ shown. (reserve : ℕ) → room ≡ options.now.bufsize - reserve → Shows (record {
      policy = options.now.bufpolicy;
      size = options.now.bufsize;
      reserve = reserve;
      events = all_to cpu happened.now;
    }) shown.bytes.items shown.drops shown.filled) }
{
    let size = options.bufsize;
    match options.bufpolicy {
        Policy::Switch => switch(alloc, size, happened, cpu),
        Policy::Fill => fill(alloc, size, room, happened, cpu),
        Policy::Ring => ring(alloc, size, happened, cpu),
    }
}

/// Under switch: since the last `snap` each record that fits after those that were kept before it.
fn switch(alloc: Global, size: usize, happened: &[Happened], cpu: u32) -> Result<Shown, AllocError>
    ensures shows { IfOk result (λ shown.
        ShowsSwitch size (since_swap (all_to cpu happened.now)) shown.bytes.items shown.drops) }
    ensures never { IfOk result (λ shown. shown.filled ≡ false) }
{
    let mut bytes: Vec<u8> = Vec::new(alloc);
    let mut drops = 0;
    for one in happened {
        match one.comes_to(cpu) {
            Came::Put { bytes: more, .. } => {
                if more.len() <= size - bytes.len() {
                    bytes.extend_from_slice(more)?;
                } else {
                    drops += 1;
                }
            }
            Came::Snapped => {
                bytes.clear();
                drops = 0;
            }
            Came::Nothing => {}
        }
    }
    Ok(Shown {
        bytes,
        drops,
        filled: false,
    })
}

/// Under fill: the longest beginning of the ordinary records that leaves the reserve free, and then the longest
/// beginning of END's that still fits.
fn fill(
    alloc: Global,
    size: usize,
    room: usize,
    happened: &[Happened],
    cpu: u32,
) -> Result<Shown, AllocError>
    requires { room ≤ size }
    ensures shows { IfOk result (λ shown. (reserve : ℕ) → room ≡ size - reserve
        → ShowsFill size reserve (ordinary (all_to cpu happened.now)) (of_end (all_to cpu happened.now))
        shown.bytes.items shown.filled) }
    ensures none { IfOk result (λ shown. shown.drops ≡ 0) }
{
    let ordinary = beginning_of(alloc, room, happened, cpu, false)?;
    let of_end = beginning_of(alloc, size - ordinary.bytes.len(), happened, cpu, true)?;
    let mut bytes = ordinary.bytes;
    bytes.extend_from_slice(&of_end.bytes)?;
    Ok(Shown {
        bytes,
        drops: 0,
        filled: ordinary.is_cut || of_end.is_cut,
    })
}

/// The longest beginning that fits into a room, of END's records or of the ordinary ones.
fn beginning_of(
    alloc: Global,
    room: usize,
    happened: &[Happened],
    cpu: u32,
    of_end: bool,
) -> Result<FittingRecords, AllocError>
    ensures { IfOk result (IsBeginningOf room (of_kind of_end (all_to cpu happened.now))) }
{
    let mut bytes: Vec<u8> = Vec::new(alloc);
    let mut is_cut = false;
    for one in happened {
        if let Came::Put {
            bytes: more,
            in_end,
        } = one.comes_to(cpu)
        {
            if in_end == of_end && !is_cut {
                if more.len() <= room - bytes.len() {
                    bytes.extend_from_slice(more)?;
                } else {
                    is_cut = true;
                }
            }
        }
    }
    Ok(FittingRecords { bytes, is_cut })
}

/// Under ring: the longest end that fits, of the records that aren't longer than the buffer.
fn ring(alloc: Global, size: usize, happened: &[Happened], cpu: u32) -> Result<Shown, AllocError>
    ensures shows { IfOk result (λ shown.
        ShowsRing size (attempts (all_to cpu happened.now)) shown.bytes.items shown.drops) }
    ensures never { IfOk result (λ shown. shown.filled ≡ false) }
{
    let start = start_of_end(size, happened, cpu);
    Ok(Shown {
        bytes: fitting_bytes(alloc, size, &happened[start..], cpu)?,
        drops: count_too_long(size, happened, cpu),
        filled: false,
    })
}

/// From which place on the records that aren't too long fit into the buffer together.
fn start_of_end(size: usize, happened: &[Happened], cpu: u32) -> usize
    ensures within { result ≤ length happened.now }
    ensures fits { size_of (fitting_on size cpu (drop result happened.now)) ≤ size }
    ensures least { (result ≡ 0) ⊎ (size < size_of (fitting_on size cpu (drop (result - 1) happened.now))) }
{
    let mut room = size;
    for later in 0..happened.len() {
        let start = happened.len() - later;
        let length = fitting_length(size, &happened[start - 1], cpu);
        // with this record the newer ones don't fit together: the longest end that does begins after it
        if room < length {
            return start;
        }
        room -= length;
    }
    0
}

/// The length of a record that comes to the buffer, and 0 where none comes or it is too long.
fn fitting_length(size: usize, one: &Happened, cpu: u32) -> usize
    ensures { result ≡ size_of (fitting_on size cpu (one.now ∷ [])) }
{
    match one.comes_to(cpu) {
        Came::Put { bytes, .. } if bytes.len() <= size => bytes.len(),
        _ => 0,
    }
}

/// The bytes of the records that aren't too long.
fn fitting_bytes(
    alloc: Global,
    size: usize,
    happened: &[Happened],
    cpu: u32,
) -> Result<Vec<u8>, AllocError>
    ensures { IfOk result (λ bytes. bytes.items ≡ concat (fitting_on size cpu happened.now)) }
{
    let mut all: Vec<u8> = Vec::new(alloc);
    for one in happened {
        if let Came::Put { bytes, .. } = one.comes_to(cpu) {
            if bytes.len() <= size {
                all.extend_from_slice(bytes)?;
            }
        }
    }
    Ok(all)
}

/// How many records are too long.
fn count_too_long(size: usize, happened: &[Happened], cpu: u32) -> u64
    ensures { result ≡ length (too_long size (attempts (all_to cpu happened.now))) }
{
    let mut count = 0;
    for one in happened {
        if let Came::Put { bytes, .. } = one.comes_to(cpu) {
            if bytes.len() > size {
                count += 1;
            }
        }
    }
    count
}
