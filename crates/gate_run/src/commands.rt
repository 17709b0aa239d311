//! The one call: the words of a command, and what it works on.
ghost use Rattle.std.specs.Prelude.{◌≡◌, ◌≤◌, ◌⊎◌, Some, false};
ghost use Rattle.gate_words.specs.Commands.{command, IsInRange};
ghost use Rattle.gate_words.specs.declared.command.Command.TheVariants.{Serve, Route};
ghost use Rattle.gate_words.specs.declared.options.Declared.{Declared};
ghost use Rattle.gate_words.specs.declared.routing.Routing.{Routing};
ghost use Rattle.gate_words.specs.declared.serving.Serving.{Serving};
ghost use Rattle.gate_fan.specs.Fans.{Later};
ghost use Rattle.gate_start.specs.Endings.{code_of};
ghost use Rattle.gate_serve.specs.Serving.{WaitsLater, LinkFaultsLater};
ghost use Rattle.gate_run.specs.Routed.{IsRouterRun, RoutesCommand};
ghost use Rattle.gate_run.specs.Running.{HasObeyed, ServesCommand, IsRun, IsServerRun, reads_input, has_posts, is_unframed};

use crate::help::help;
use crate::router::{RouterJob, start_router};
use crate::server::{ServerJob, start_server};
use gate_base::{OutOfMemory, Word};
use gate_fan::Fan;
use gate_hub::Hub;
use gate_io::{Files, Sink, Source};
use gate_start::{Ending, NoStart, Status, halt, usage};
use gate_streams::{Doing, StreamJob, check_idl, drill_all, start_stream};
use gate_words::{Command, read_command};
use line_transport::Transport;
use std::alloc::Global;

/// Does what the words say. Words that are no command are answered with the usage.
///
/// `check FILE` reads an IDL and what it includes, and writes how much is declared or reports the first thing that is wrong.
/// `convert FROM TO [--idl FILE] [--service NAME] [--limit F]` reads frames of at most F bytes from the input, writes each
/// message that passes, framed and in the plain spelling of the protocol TO, to the output, and reports each other frame. With
/// `--lines SIDE` a message is a line on that side, which speaks JSON. `show FROM` does the same with a line of text for each
/// message in place of its frame, and `conform FROM --idl FILE` with a line for each message that meets what the IDL declares of
/// it. `serve CLIENT UPSTREAM LISTEN TARGET` starts the hub, lets clients of one protocol talk to an upstream of another, and
/// writes one line for each session as soon as it ends. `route CLIENT UPSTREAM LISTEN TARGETS` does so over the fan for clients
/// whose calls name their services, and leads each call to its service's target. `drill SEED COUNT` writes messages that are
/// drawn from a number, and reports how long they are. `help` writes what the commands are.
///
/// It serves in the calling thread over the one hub or fan, whatever number of threads the words give.
///
/// The first fault that is met ends the command; its count says whose it is. Where there is no memory for the words, nothing is done.
pub fn run<I: Source, O: Sink, E: Sink, F: Files, H: Hub, G: Fan>(
    alloc: Global,
    words: &[Word],
    files: &mut F,
    input: &mut I,
    output: &mut O,
    report: &mut E,
    hub: &mut H,
    fan: &mut G,
) -> Status
    // What the words ask for was done, or it did not start; or there was no memory to read the words.
    ensures does { IsRun F.Files I.Source O.Sink E.Sink words.now files.old input.old output.old report.old files.new input.new output.new report.new result }
    ensures serves { IsServerRun F.Files O.Sink E.Sink H.Hub words.now files.old output.old report.old hub.old files.new output.new report.new hub.new result }
    ensures routes { IsRouterRun F.Files O.Sink E.Sink G.Fan words.now files.old output.old report.old fan.old files.new output.new report.new fan.new result }

    // Only a stream that is gone through uses the input, only a server the hub, and only a router the fan.
    ensures input { reads_input (command words.now) ≡ false → input.new ≡ input.old }
    ensures hub { ((s : Serving) (d : Declared) → command words.now ≡ Some (Serve s d) → ⊥) → hub.new ≡ hub.old }
    ensures fan { ((r : Routing) (d : Declared) → command words.now ≡ Some (Route r d) → ⊥) → fan.new ≡ fan.old }
    ensures holds { F.holds files.new ≡ F.holds files.old }

    // A fetch fails only where the command ends by it.
    ensures no_file_fault { (result.code ≡ code_of Ending.FileFault) ⊎ (F.faults files.new ≡ F.faults files.old) }
    ensures hub_faults { (H.counts hub.old).faults ≤ (H.counts hub.new).faults }
    ensures hub_waits { has_posts (command words.now) ≡ false → WaitsLater H.Hub hub.old hub.new }
    ensures hub_links { has_posts (command words.now) ≡ false → is_unframed (command words.now) ≡ false → LinkFaultsLater H.Hub hub.old hub.new }
    ensures fan_later { Later (G.counts fan.old) (G.counts fan.new) }
    ensures files_later { F.faults files.old ≤ F.faults files.new }
    ensures input_later { I.faults input.old ≤ I.faults input.new }
    ensures output_later { O.faults output.old ≤ O.faults output.new }
    ensures report_later { E.faults report.old ≤ E.faults report.new }
{
    match read_command(alloc, words) {
        Ok(Some(command)) => {
            let ending = obey(alloc, &command, files, input, output, report, hub, fan);
            give_up(command);
            ending.status()
        }
        Ok(None) => usage(report).status(),
        Err(OutOfMemory) => halt(alloc, &NoStart::OutOfMemory, report).status(),
    }
}

// Gives a command up, with its names, in one place.
fn give_up(_command: Command) {}

// Does what a command asks for.
fn obey<I: Source, O: Sink, E: Sink, F: Files, H: Hub, G: Fan>(
    alloc: Global,
    command: &Command,
    files: &mut F,
    input: &mut I,
    output: &mut O,
    report: &mut E,
    hub: &mut H,
    fan: &mut G,
) -> Ending
    requires { IsInRange command.now }
    ensures does { HasObeyed F.Files I.Source O.Sink E.Sink command.now files.old input.old output.old report.old files.new input.new output.new report.new result }
    ensures serves { ServesCommand F.Files O.Sink E.Sink H.Hub command.now files.old output.old report.old hub.old files.new output.new report.new hub.new result }
    ensures routes { RoutesCommand F.Files O.Sink E.Sink G.Fan command.now files.old output.old report.old fan.old files.new output.new report.new fan.new result }
    ensures input { reads_input (Some command.now) ≡ false → input.new ≡ input.old }
    ensures hub { ((s : Serving) (d : Declared) → command.now ≡ Serve s d → ⊥) → hub.new ≡ hub.old }
    ensures fan { ((r : Routing) (d : Declared) → command.now ≡ Route r d → ⊥) → fan.new ≡ fan.old }
    ensures holds { F.holds files.new ≡ F.holds files.old }
    ensures no_file_fault { (result ≡ Ending.FileFault) ⊎ (F.faults files.new ≡ F.faults files.old) }
    ensures hub_faults { (H.counts hub.old).faults ≤ (H.counts hub.new).faults }
    ensures hub_waits { has_posts (Some command.now) ≡ false → WaitsLater H.Hub hub.old hub.new }
    ensures hub_links { has_posts (Some command.now) ≡ false → is_unframed (Some command.now) ≡ false → LinkFaultsLater H.Hub hub.old hub.new }
    ensures fan_later { Later (G.counts fan.old) (G.counts fan.new) }
    ensures files_later { F.faults files.old ≤ F.faults files.new }
    ensures input_later { I.faults input.old ≤ I.faults input.new }
    ensures output_later { O.faults output.old ≤ O.faults output.new }
    ensures report_later { E.faults report.old ≤ E.faults report.new }
{
    match command {
        Command::Check(file) => check_idl(alloc, file.as_slice(), files, output, report),
        Command::Convert(k, declared) => {
            let (from, to, limit) = (k.from, k.to, k.limit);
            let job = StreamJob {
                declared,
                doing: Doing::Convert { from, to },
                limit,
                input: k.input,
                output: k.output,
            };
            start_stream(alloc, &job, files, input, output, report)
        }
        Command::Show(k, declared) => {
            let job = StreamJob {
                declared,
                doing: Doing::Show { from: k.from },
                limit: k.limit,
                input: k.input,
                output: Transport::Frames,
            };
            start_stream(alloc, &job, files, input, output, report)
        }
        Command::Conform(k, declared) => {
            let job = StreamJob {
                declared,
                doing: Doing::Conform { from: k.from },
                limit: k.limit,
                input: Transport::Frames,
                output: Transport::Frames,
            };
            start_stream(alloc, &job, files, input, output, report)
        }
        Command::Serve(serving, declared) => {
            let job = ServerJob { serving, declared };
            start_server(alloc, &job, files, output, report, hub)
        }
        Command::Route(routing, declared) => {
            let job = RouterJob { routing, declared };
            start_router(alloc, &job, files, output, report, fan)
        }
        Command::Drill(drilling) => drill_all(alloc, *drilling, output, report),
        Command::Help => help(output),
    }
}
