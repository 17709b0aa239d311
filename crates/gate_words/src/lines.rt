//! The sides of a conversion on which a message is a line and not a frame.
ghost use Rattle.std.specs.Prelude.{◌≡◌};
ghost use Rattle.gate_words.specs.Lines.{line_sides_of, has_input, has_output, transport_if, input_of, output_of, can_convert, can_show, is_json};

use line_transport::Transport;
use protocol_traits::Proto;

/// Sides on which a message is a line.
#[derive(Clone, Copy)]
pub enum LineSides {
    In,
    Out,
    Both,
}

impl LineSides {
    /// Whether the input is one of them.
    fn has_input(self) -> bool
        ensures { result ≡ has_input self }
    {
        matches!(self, LineSides::In | LineSides::Both)
    }

    /// Whether the output is one of them.
    fn has_output(self) -> bool
        ensures { result ≡ has_output self }
    {
        matches!(self, LineSides::Out | LineSides::Both)
    }
}

/// The sides that a word names.
#[tactic(auto, unfolding(crate::specs::Lines::line_sides_of))]
pub fn read_line_sides(word: &[u8]) -> Option<LineSides>
    ensures { result ≡ line_sides_of word.now }
{
    if word == b"in".as_slice() {
        Some(LineSides::In)
    } else if word == b"out".as_slice() {
        Some(LineSides::Out)
    } else if word == b"both".as_slice() {
        Some(LineSides::Both)
    } else {
        None
    }
}

/// How messages stand on the input.
pub fn input_of(lines: Option<LineSides>) -> Transport
    ensures { result ≡ input_of lines }
{
    match lines {
        Some(sides) => transport_if(sides.has_input()),
        None => Transport::Frames,
    }
}

/// How messages stand on the output.
pub fn output_of(lines: Option<LineSides>) -> Transport
    ensures { result ≡ output_of lines }
{
    match lines {
        Some(sides) => transport_if(sides.has_output()),
        None => Transport::Frames,
    }
}

fn transport_if(lines: bool) -> Transport
    ensures { result ≡ transport_if lines }
{
    if lines {
        Transport::Lines
    } else {
        Transport::Frames
    }
}

/// Whether each side on which a message is a line speaks JSON: no other protocol's messages are lines of text.
pub fn can_convert(from: Proto, to: Proto, lines: Option<LineSides>) -> bool
    ensures { result ≡ can_convert from to lines }
{
    match lines {
        Some(sides) => {
            (!sides.has_input() || is_json(from)) && (!sides.has_output() || is_json(to))
        }
        None => true,
    }
}

/// Whether the input speaks JSON where its messages are lines. What is shown is no message, so the output has no such side.
pub fn can_show(from: Proto, lines: Option<LineSides>) -> bool
    ensures { result ≡ can_show from lines }
{
    match lines {
        Some(LineSides::In) => is_json(from),
        Some(LineSides::Out) => false,
        Some(LineSides::Both) => false,
        None => true,
    }
}

/// Whether the protocol is JSON.
pub fn is_json(protocol: Proto) -> bool
    ensures { result ≡ is_json protocol }
{
    matches!(protocol, Proto::Json)
}
