//! The step lines of a replay.
ghost use Rattle.std.specs.Prelude.{◌≡◌, ◌≢◌, ℕ, List, ◌++◌, ◌^◌, ◌<◌, codes, decimal, IfSome, IfNone};
ghost use Rattle.dt_chain.specs.declared.seat.TheConstants.{SEATS};
ghost use Rattle.dt_world.specs.StepLine.{StepLineForm, SpellsStepLine, form_of_step_line};

use crate::words::{after_word, number_and_rest, seat_and_rest, seat_of};
use dt_chain::Seat;
use dt_proto::number_of;

/// A line of a replay: a step that is to be taken, or several.
#[derive(Clone, Copy, PartialEq, Eq)]
pub enum StepLine<'a> {
    /// `open <seat> <account>`: a session of this account begins on the seat.
    Open { seat: Seat, account: &'a [u8] },
    /// `close <seat>`: the session on the seat ends.
    Close { seat: Seat },
    /// `withdraw <seat>`: the seat's publication is withdrawn.
    Withdraw { seat: Seat },
    /// `ask <seat> <line>`: the session on the seat asks this line, which is all that stands behind the blank; it may be
    /// empty.
    Ask { seat: Seat, line: &'a [u8] },
    /// `publish <seat>`: what a pending `go` is interested in is published, as the seat's publication.
    Publish { seat: Seat },
    /// `finish <seat>`: a pending `go` takes effect.
    Finish { seat: Seat },
    /// `look <cpu>`: the processor takes the next firing of its script, and looks which seats it is for.
    Look { cpu: u32 },
    /// `offer <cpu> <seat>`: the processor offers its firing to the seat.
    Offer { cpu: u32, seat: Seat },
    /// `call <seat> <line>`: the session on the seat asks this line, with all steps that the line needs.
    Call { seat: Seat, line: &'a [u8] },
    /// `fire <cpu>`: the processor makes its next firing, and offers it to each seat that it is for.
    Fire { cpu: u32 },
}

impl<'a> StepLine<'a> {
    /// Reads a line, given without its newline, and takes no memory. The words stand one blank apart; a number is
    /// decimal, without a sign or a leading zero; a seat is one that there is. Any other line gives `None`. Whether there
    /// is such a processor or such an account isn't asked here.
    pub fn parse(text: &'a [u8]) -> Option<Self>
        ensures found { IfSome result (λ line. SpellsStepLine text.now (form_of_step_line line)) }
        ensures none { IfNone result ((line : StepLineForm) → SpellsStepLine text.now line → ⊥) }
    {
        if let Some((seat, account)) = seat_and_bytes(text, b"open ") {
            Some(StepLine::Open { seat, account })
        } else if let Some(seat) = seat_alone(text, b"close ") {
            Some(StepLine::Close { seat })
        } else if let Some(seat) = seat_alone(text, b"withdraw ") {
            Some(StepLine::Withdraw { seat })
        } else if let Some((seat, line)) = seat_and_bytes(text, b"ask ") {
            Some(StepLine::Ask { seat, line })
        } else if let Some(seat) = seat_alone(text, b"publish ") {
            Some(StepLine::Publish { seat })
        } else if let Some(seat) = seat_alone(text, b"finish ") {
            Some(StepLine::Finish { seat })
        } else if let Some(cpu) = cpu_alone(text, b"look ") {
            Some(StepLine::Look { cpu })
        } else if let Some((cpu, seat)) = cpu_and_seat(text, b"offer ") {
            Some(StepLine::Offer { cpu, seat })
        } else if let Some((seat, line)) = seat_and_bytes(text, b"call ") {
            Some(StepLine::Call { seat, line })
        } else {
            let cpu = cpu_alone(text, b"fire ")?;
            Some(StepLine::Fire { cpu })
        }
    }
}

/// The seat behind a word, where nothing else stands.
fn seat_alone(text: &[u8], word: &[u8]) -> Option<Seat>
    ensures found { IfSome result (λ seat. (seat < SEATS) × (text.now ≡ word.now ++ decimal seat)) }
    ensures none { IfNone result ((seat : ℕ) → seat < SEATS → text.now ≢ word.now ++ decimal seat) }
{
    seat_of(after_word(text, word)?)
}

/// The seat behind a word, and what stands behind the blank after it.
fn seat_and_bytes<'a>(text: &'a [u8], word: &[u8]) -> Option<(Seat, &'a [u8])>
    ensures found { IfSome result (λ read. (read.0 < SEATS)
        × (text.now ≡ word.now ++ (decimal read.0 ++ (codes " " ++ read.1.now)))) }
    ensures none { IfNone result ((seat : ℕ) (bytes : List ℕ) → seat < SEATS
        → text.now ≢ word.now ++ (decimal seat ++ (codes " " ++ bytes))) }
{
    seat_and_rest(after_word(text, word)?)
}

/// The processor behind a word, where nothing else stands.
fn cpu_alone(text: &[u8], word: &[u8]) -> Option<u32>
    ensures found { IfSome result (λ cpu. (cpu < 2 ^ 32) × (text.now ≡ word.now ++ decimal cpu)) }
    ensures none { IfNone result ((cpu : ℕ) → cpu < 2 ^ 32 → text.now ≢ word.now ++ decimal cpu) }
{
    number_of(after_word(text, word)?)
}

/// The processor and the seat behind a word.
fn cpu_and_seat(text: &[u8], word: &[u8]) -> Option<(u32, Seat)>
    ensures found { IfSome result (λ read. (read.0 < 2 ^ 32) × (read.1 < SEATS)
        × (text.now ≡ word.now ++ (decimal read.0 ++ (codes " " ++ decimal read.1)))) }
    ensures none { IfNone result ((cpu seat : ℕ) → cpu < 2 ^ 32 → seat < SEATS
        → text.now ≢ word.now ++ (decimal cpu ++ (codes " " ++ decimal seat))) }
{
    let (cpu, rest) = number_and_rest(after_word(text, word)?)?;
    let seat = seat_of(rest)?;
    Some((cpu, seat))
}

/// Law: a text spells one step line at most.
pub fn one_step_line()
    ensures { (text : List ℕ) (a b : StepLineForm) → SpellsStepLine text a → SpellsStepLine text b → a ≡ b }
{}
