//! The help text.
ghost use Rattle.std.specs.Prelude.{◌≤◌};
ghost use Rattle.gate_start.specs.Calls.{OnOutput};
ghost use Rattle.gate_run.specs.Lines.{help_text};
ghost use Rattle.gate_start.specs.Writing.{Tells};

use gate_io::Sink;
use gate_start::{Ending, say};

/// Each command with its words and options, a line each, below the line of the usage.
const HELP: &[u8] = b"usage: thrift_gate check|convert|show|serve|drill|help
check FILE
convert FROM TO [--idl FILE] [--service NAME] [--limit F] [--lines SIDE]
show FROM [--idl FILE] [--service NAME] [--limit F] [--lines SIDE]
serve CLIENT UPSTREAM LISTEN TARGET [--idl FILE] [--service NAME] [--limit F] [--sessions N] [--accept C] [--events E] [--calls P] [--unframed SIDE] [--front KIND] [--threads N] [--tell refused]
route CLIENT UPSTREAM LISTEN TARGETS [--idl FILE] [--limit F] [--sessions N] [--accept C] [--events E] [--calls P] [--threads N] [--tell refused]
conform FROM --idl FILE [--service NAME] [--limit F]
drill SEED COUNT
help
";

/// Writes the help text.
#[tactic(auto, unfolding(crate::specs::Lines::help_text))]
pub fn help<O: Sink>(output: &mut O) -> Ending
    ensures helps { OnOutput O.Sink (Tells help_text) output.old output.new result }
    ensures later { O.faults output.old ≤ O.faults output.new }
{
    say(output, HELP, Ending::Done)
}
