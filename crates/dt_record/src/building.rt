//! A clause's record, built in place. Where the clause leaves none, nothing is written.
ghost use Rattle.std.specs.Prelude.{◌≡◌, ◌+◌, ◌*◌, ◌≤◌, ◌++◌, Some, None, OnOk, OnErr, [], length, if◌then◌else◌};
ghost use Rattle.std.specs.Option.{option_map};
ghost use Rattle.arrayvec.specs.ArrayVec.{array_vec_len};
ghost use Rattle.dt_expr.specs.Scene.{scene_of};
ghost use Rattle.dt_expr.specs.declared.text.Value.{Value as ShownValue};
ghost use Rattle.dt_locals.specs.History.{LocalsPast};
ghost use Rattle.dt_locals.specs.LocalsAreAt.{LocalsAreAt};
ghost use Rattle.dt_program.specs.Clause.{form_of_argument};
ghost use Rattle.dt_cred.specs.declared.firing.TheConstants.{FRAMES};
ghost use Rattle.dt_names.specs.declared.short_text.TheConstants.{PADDED_SIZE};
ghost use Rattle.dt_record.specs.Left.{bytes_of, record_len};
ghost use Rattle.dt_record.specs.Taking.{argument_value, epid_bytes, frames_bytes, number_bytes, value_bytes};
ghost use Rattle.dt_record.specs.declared.limits.TheConstants.{RECORD_MAX};

use crate::limits::{EPID_SIZE, RECORD_MAX};
use crate::values::shown;
use arrayvec::ArrayVec;
use byteorder::{BigEndian, ByteOrder};
use dt_cred::FRAMES;
use dt_expr::{EvalFault, Scene, eval};
use dt_locals::Locals;
use dt_program::{Argument, Frames};

/// The bytes of a record.
pub(crate) type Bytes = ArrayVec<u8, RECORD_MAX>;

/// How many bytes a number takes in a record.
pub(crate) const NUMBER_SIZE: usize = 8;

/// How many numbers most records hold at most.
const FEW_NUMBERS: usize = 4;

/// Begins the record with its EPID, where there is to be one. It takes the place of the record before it.
pub(crate) fn begin(record: &mut Option<Bytes>, epid: u32, leaves_record: bool)
    ensures { bytes_of record.new ≡ (if leaves_record then Some (epid_bytes epid) else None) }
{
    if leaves_record {
        let mut bytes = [0; EPID_SIZE];
        BigEndian::write_u32(&mut bytes, epid);
        begin_with(record, &bytes);
    } else if record.is_some() {
        // Only here: a `None` is written over the whole room.
        *record = None;
    }
}

/// Begins the record with an EPID's bytes. The room of the one before it serves again, and its first bytes are written over: of a
/// record that was an EPID alone nothing is blanked.
fn begin_with(record: &mut Option<Bytes>, epid: &[u8; EPID_SIZE])
    ensures { bytes_of record.new ≡ Some epid.now }
{
    match record {
        Some(bytes) if EPID_SIZE <= bytes.len() => {
            shorten(bytes);
            bytes.as_mut_slice().copy_from_slice(epid);
        }
        _ => {
            *record = Some(ArrayVec::new());
            put(record, epid);
        }
    }
}

/// Shortens the record before to an EPID. What a vector drops it blanks: of one word that takes no call, so the few numbers that most
/// records hold go one by one.
pub(crate) fn shorten(record: &mut Bytes)
    requires { EPID_SIZE ≤ array_vec_len record.old }
    ensures { array_vec_len record.new ≡ EPID_SIZE }
{
    if record.len() <= EPID_SIZE + FEW_NUMBERS * NUMBER_SIZE {
        while EPID_SIZE + NUMBER_SIZE <= record.len() {
            record.truncate(record.len() - NUMBER_SIZE);
        }
    }
    record.truncate(EPID_SIZE);
}

/// Adds the value of an argument: a number in eight bytes, the highest first, or a text with its zeros.
pub(crate) fn put_argument(
    record: &mut Option<Bytes>,
    argument: &Argument,
    scene: &Scene,
    locals: &Locals,
) -> Result<(), EvalFault>
    requires { record_len record.old + PADDED_SIZE ≤ RECORD_MAX }
    ensures written { OnOk result ((past : LocalsPast) → LocalsAreAt past locals.now → (value : ShownValue)
        × (argument_value (scene_of scene.now) past (form_of_argument argument.now) ≡ Some value)
        × (bytes_of record.new ≡ option_map (λ bytes. bytes ++ value_bytes value) (bytes_of record.old))) }
    ensures grows { OnOk result (record_len record.new ≤ record_len record.old + PADDED_SIZE) }
    ensures fault { OnErr result ((past : LocalsPast) → LocalsAreAt past locals.now
        → argument_value (scene_of scene.now) past (form_of_argument argument.now) ≡ None) }
{
    match argument {
        Argument::Number(expr) => {
            let number = eval(expr, scene, locals)?;
            put_number(record, number);
        }
        Argument::Text(text) => put(record, shown(text, scene)),
    }
    Ok(())
}

/// Adds the first frames of a stack: eight bytes each, the highest first.
pub(crate) fn put_stack(record: &mut Option<Bytes>, stack: &[u64; FRAMES], frames: Frames)
    requires { record_len record.old + 8 * FRAMES ≤ RECORD_MAX }
    ensures written { bytes_of record.new
        ≡ option_map (λ bytes. bytes ++ frames_bytes frames.count stack.now) (bytes_of record.old) }
    ensures grows { record_len record.new ≤ record_len record.old + 8 * frames.count }
{
    if let Some(bytes) = record {
        put_frames(bytes, stack, frames);
    }
}

pub(crate) fn put_frames(record: &mut Bytes, stack: &[u64; FRAMES], frames: Frames)
    requires { array_vec_len record.old + 8 * FRAMES ≤ RECORD_MAX }
    ensures written { record.new.items ≡ record.old.items ++ frames_bytes frames.count stack.now }
    ensures grows { array_vec_len record.new ≡ array_vec_len record.old + 8 * frames.count }
{
    for frame in &stack[..usize::from(frames.count)] {
        let mut bytes = [0; 8];
        BigEndian::write_u64(&mut bytes, *frame);
        record.try_extend_from_slice(&bytes).unwrap();
    }
}

/// Adds a number, where there is a record.
fn put_number(record: &mut Option<Bytes>, number: i64)
    requires { record_len record.old + 8 ≤ RECORD_MAX }
    ensures written { bytes_of record.new ≡ option_map (λ bytes. bytes ++ number_bytes number) (bytes_of record.old) }
    ensures grows { record_len record.new ≤ record_len record.old + 8 }
{
    if let Some(record) = record {
        add_number(record, number);
    }
}

/// Adds bytes, where there is a record.
fn put(record: &mut Option<Bytes>, bytes: &[u8])
    requires { record_len record.old + length bytes.now ≤ RECORD_MAX }
    ensures written { bytes_of record.new ≡ option_map (λ done. done ++ bytes.now) (bytes_of record.old) }
    ensures grows { record_len record.new ≤ record_len record.old + length bytes.now }
{
    if let Some(record) = record {
        add_bytes(record, bytes);
    }
}

/// Adds a number in eight bytes, the highest first.
pub(crate) fn add_number(record: &mut Bytes, number: i64)
    requires { array_vec_len record.old + 8 ≤ RECORD_MAX }
    ensures written { record.new.items ≡ record.old.items ++ number_bytes number }
    ensures grows { array_vec_len record.new ≡ array_vec_len record.old + 8 }
{
    let mut bytes = [0; 8];
    BigEndian::write_i64(&mut bytes, number);
    add_bytes(record, &bytes);
}

/// Adds bytes, for which there is room.
pub(crate) fn add_bytes(record: &mut Bytes, bytes: &[u8])
    requires { array_vec_len record.old + length bytes.now ≤ RECORD_MAX }
    ensures written { record.new.items ≡ record.old.items ++ bytes.now }
    ensures grows { array_vec_len record.new ≡ array_vec_len record.old + length bytes.now }
{
    record.try_extend_from_slice(bytes).unwrap();
}
