//! Whether the program's words are one of its forms.

use crate::words::Invocation;
use thiserror::Error;

/// Why words are none of the program's forms.
#[derive(Clone, Copy, Debug, PartialEq, Eq, Error)]
pub(crate) enum Misfit {
    /// A word isn't of the form that another asks for.
    #[error("{0} doesn't go with {1}")]
    Together(&'static str, &'static str),
    /// Nobody says where the service is.
    #[error("the path of a service's socket is missing")]
    NoSocket,
    /// Nothing is asked of the service.
    #[error("nothing is asked: -n PROGRAM or -s FILE traces, and -l lists probes")]
    Nothing,
    /// A list of several descriptions.
    #[error("-l takes one description, and -n is given twice")]
    Descriptions,
    /// A machine without a trail.
    #[error("--trail takes two files, and the trail is missing")]
    NoTrail,
}

impl Invocation<'_> {
    /// Why the words are none of the program's forms, where they aren't.
    pub(crate) fn misfit(&self) -> Option<Misfit> {
        if self.machine.is_some() {
            return self.misfit_of_machine();
        }
        if self.trail.is_some() {
            return self.misfit_of_trail();
        }
        if self.path.is_none() {
            return Some(Misfit::NoSocket);
        }
        if self.list {
            return self.misfit_of_list();
        }
        if self.programs.is_empty() && self.files.is_empty() {
            return Some(Misfit::Nothing);
        }
        None
    }

    /// A machine is judged, and nothing else is asked.
    fn misfit_of_machine(&self) -> Option<Misfit> {
        if self.trail.is_some() {
            return Some(Misfit::Together("--trail", "--machine"));
        }
        if self.path.is_some() {
            return Some(Misfit::Together("a socket", "--machine"));
        }
        match self.word_of_session() {
            Some(word) => Some(Misfit::Together(word, "--machine")),
            None if self.width.is_some() => Some(Misfit::Together("--width", "--machine")),
            None => None,
        }
    }

    /// A trail is judged, and nothing else is asked but for the width of what is told.
    fn misfit_of_trail(&self) -> Option<Misfit> {
        match self.word_of_session() {
            Some(word) => Some(Misfit::Together(word, "--trail")),
            None if self.path.is_none() => Some(Misfit::NoTrail),
            None => None,
        }
    }

    /// Probes are listed, and nothing is traced.
    fn misfit_of_list(&self) -> Option<Misfit> {
        match self.word_of_tracing() {
            Some(word) => Some(Misfit::Together(word, "-l")),
            None if self.programs.len() > 1 => Some(Misfit::Descriptions),
            None => None,
        }
    }

    /// A word that asks something of a service.
    fn word_of_session(&self) -> Option<&'static str> {
        if self.list {
            Some("-l")
        } else if !self.programs.is_empty() {
            Some("-n")
        } else if self.quiet {
            Some("-q")
        } else if self.output.is_some() {
            Some("-o")
        } else {
            self.word_of_tracing()
        }
    }

    /// A word that only tracing has.
    fn word_of_tracing(&self) -> Option<&'static str> {
        if !self.files.is_empty() {
            Some("-s")
        } else if !self.options.is_empty() {
            Some("-x")
        } else if self.json {
            Some("--json")
        } else if self.every.is_some() {
            Some("--every")
        } else if self.length.is_some() {
            Some("--for")
        } else {
            None
        }
    }
}
