//! The lines that command a service.
ghost use Rattle.std.specs.Prelude.{IfSome, IfNone};

use dt_world::two_numbers;

/// A line that commands a service.
#[derive(Clone, Copy, Debug, PartialEq, Eq)]
pub enum ServiceCommand {
    /// `step <cpu> <n>`: the processor makes so many firings.
    Step { cpu: u32, count: u32 },
    /// `quit`: the service ends.
    Quit,
}

impl ServiceCommand {
    ghost use Rattle.dtraced.specs.Commands.{SpellsCommand};

    /// Reads a line, given without its newline. The words stand one blank apart, and a number is decimal, without a sign or a leading zero, and below 2^32. Any
    /// other line gives `None`. Whether there is such a processor isn't asked here.
    pub fn parse(text: &[u8]) -> Option<ServiceCommand>
        ensures found { IfSome result (λ command. SpellsCommand text.now command) }
        ensures none { IfNone result ((command : ServiceCommand) → SpellsCommand text.now command → ⊥) }
    {
        if text == b"quit".as_slice() {
            return Some(ServiceCommand::Quit);
        }
        match two_numbers(text, b"step ") {
            Some((cpu, count)) => Some(ServiceCommand::Step { cpu, count }),
            None => None,
        }
    }
}
