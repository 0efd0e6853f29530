//! What the variables of an expression name.
ghost use Rattle.std.specs.Prelude.{◌≡◌};
ghost use Rattle.dt_expr.specs.Scene.{scene_of, number_named, text_named, padded};

use dt_cred::{Firing, Probe, Process};
use dt_names::PADDED_SIZE;

/// A firing of a probe, and whom it is shown to: what the variables of an expression name. Its parts are lent.
///
/// Contracts see it as a `SceneForm`, which has the parts themselves.
#[derive(Clone, Copy)]
pub struct Scene<'a> {
    /// The number of the enabling in the consumer that it is shown to.
    pub epid: u32,
    /// The probe that fired.
    pub probe: &'a Probe,
    /// The process in which it fired.
    pub process: &'a Process,
    /// The firing: its processor, process, thread, time, arguments and stacks.
    pub firing: &'a Firing,
}

/// A variable that names a number.
#[derive(Clone, Copy, Debug, PartialEq, Eq)]
pub enum NumberVariable {
    /// `arg0`: the probe's first argument. The ten arguments that a firing has are `arg0` to `arg9`.
    Arg0,
    /// `arg1`
    Arg1,
    /// `arg2`
    Arg2,
    /// `arg3`
    Arg3,
    /// `arg4`
    Arg4,
    /// `arg5`
    Arg5,
    /// `arg6`
    Arg6,
    /// `arg7`
    Arg7,
    /// `arg8`
    Arg8,
    /// `arg9`
    Arg9,
    /// `cpu`: the processor, from 0 on.
    Cpu,
    /// `pid`: the process.
    Pid,
    /// `tid`: the thread.
    Tid,
    /// `uid`: the account on whose behalf the process runs.
    Uid,
    /// `timestamp`: the time of the firing.
    Timestamp,
    /// `id`: the identifier of the probe.
    Id,
    /// `epid`: the number of the enabling.
    Epid,
}

/// A variable that names a text.
#[derive(Clone, Copy, Debug, PartialEq, Eq)]
pub enum TextVariable {
    /// `execname`: the name of what the process runs.
    Execname,
    /// `probeprov`: the probe's provider.
    Probeprov,
    /// `probemod`: the probe's module.
    Probemod,
    /// `probefunc`: the probe's function.
    Probefunc,
    /// `probename`: the probe's own name.
    Probename,
}

impl<'a> Scene<'a> {
    /// The number that a variable names.
    pub fn number(&self, variable: NumberVariable) -> i64
        ensures { result ≡ number_named (scene_of self.now) variable }
    {
        let args = &self.firing.args;
        match variable {
            NumberVariable::Arg0 => args[0],
            NumberVariable::Arg1 => args[1],
            NumberVariable::Arg2 => args[2],
            NumberVariable::Arg3 => args[3],
            NumberVariable::Arg4 => args[4],
            NumberVariable::Arg5 => args[5],
            NumberVariable::Arg6 => args[6],
            NumberVariable::Arg7 => args[7],
            NumberVariable::Arg8 => args[8],
            NumberVariable::Arg9 => args[9],
            NumberVariable::Cpu => i64::from(self.firing.cpu),
            NumberVariable::Pid => i64::from(self.firing.pid),
            NumberVariable::Tid => i64::from(self.firing.tid),
            NumberVariable::Uid => i64::from(self.process.uid),
            NumberVariable::Timestamp => self.firing.timestamp,
            NumberVariable::Id => i64::from(self.probe.id),
            NumberVariable::Epid => i64::from(self.epid),
        }
    }

    /// The bytes of the text that a variable names.
    pub fn bytes(&self, variable: TextVariable) -> &'a [u8]
        ensures { result.now ≡ text_named (scene_of self.now) variable }
    {
        match variable {
            TextVariable::Execname => self.process.execname.as_bytes(),
            TextVariable::Probeprov => self.probe.tuple.provider.as_bytes(),
            TextVariable::Probemod => self.probe.tuple.module.as_bytes(),
            TextVariable::Probefunc => self.probe.tuple.function.as_bytes(),
            TextVariable::Probename => self.probe.tuple.name.as_bytes(),
        }
    }

    /// The text that a variable names as a record shows it: its bytes, and zeros up to 32 bytes in all.
    pub(crate) fn padded(&self, variable: TextVariable) -> &'a [u8; PADDED_SIZE]
        ensures { result.now ≡ padded (text_named (scene_of self.now) variable) }
    {
        match variable {
            TextVariable::Execname => self.process.execname.padded(),
            TextVariable::Probeprov => self.probe.tuple.provider.padded(),
            TextVariable::Probemod => self.probe.tuple.module.padded(),
            TextVariable::Probefunc => self.probe.tuple.function.padded(),
            TextVariable::Probename => self.probe.tuple.name.padded(),
        }
    }
}
