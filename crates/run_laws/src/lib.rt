//! Laws of what a command does where nothing disturbs it.
//!
//! Each law is the contract of a function that does nothing. The code rests on none of them.
#![tactic(auto)]

ghost use Rattle.std.specs.Prelude.{ℕ, List};
ghost use Rattle.gate_base.specs.Causes.{Rose};
ghost use Rattle.gate_words.specs.declared.command.Command.TheVariants.{Check, Help};
ghost use Rattle.gate_words.specs.declared.command.Drilling.{Drilling};
ghost use Rattle.gate_words.specs.declared.peers.Sides.{Sides};
ghost use Rattle.type_tables.specs.Declarations.{Declarations};
ghost use Rattle.gate_streams.specs.Drilling.{Drills};
ghost use Rattle.gate_start.specs.Streams.{Streams};
ghost use Rattle.gate_streams.specs.Outcome.{Streamed};
ghost use Rattle.gate_start.specs.Outside.{Outside};
ghost use Rattle.gate_run.specs.Running.{Obeys};
ghost use Rattle.run_laws.specs.Routed.{RouterRun, IsRoutingOf, RoutesFrom, HasRoutedFrom, IsFanUndisturbed, HasStoppedFan};
ghost use Rattle.gate_streams.specs.Terms.{Terms};
ghost use Rattle.run_laws.specs.Undisturbed.{IsGoodStream, HasNotFailed, HasWritten, IsDone, CanCheck, HasChecked, CanStart, StreamRun, IsStreamRun, HasGoneThrough};
ghost use Rattle.run_laws.specs.Undisturbed.{ServerRun, IsRunOf, RunsHub, RunsSides, RunsPosts, HasServedFrom, IsUndisturbed, HasStopped, HasStoppedOver, HasStoppedPosts};
ghost use Rattle.gate_start.specs.declared.start.Start.{Start};
ghost use Rattle.gate_start.specs.declared.status.Ending.{Ending};

use gate_fan::Fan;
use gate_hub::Hub;
use gate_idl::files_give_one_answer;

/// A stream is converted or shown to its end where it is fewer than 2^63 - 1 bytes of whole frames that all pass, no
/// stream failed and there was memory.
pub fn a_good_stream_is_done()
    ensures { (k : Terms) (a b : Streams) (ending : Ending) → Streamed k a b ending → IsGoodStream k a.left → HasNotFailed a b → IsDone ending }
{}

/// A good IDL is checked and what it declares is written, where neither the files nor a stream failed and there was memory.
pub fn a_good_idl_is_checked()
    ensures { (file : List ℕ) (d : Declarations) (x y : Outside) (ending : Ending) → Obeys (Check file) x y ending
        → CanCheck file d x y → HasChecked d x y ending }
{
    files_give_one_answer()
}

/// A stream is gone through by what the words name, where their IDL is good and knows their service, the files didn't fail and
/// there was memory.
pub fn a_good_idl_starts_a_stream()
    ensures { (x : StreamRun) (start : Start) → IsStreamRun x → CanStart x.declared start x.before x.behind → HasGoneThrough start x }
{
    files_give_one_answer()
}

/// A server is started by what the words name, where their IDL is good and knows their service, the files didn't fail and there
/// was memory.
pub fn a_good_idl_starts_a_server<H: Hub>()
    ensures { (x : ServerRun H) (start : Start) → IsRunOf H.Hub x → CanStart x.declared start x.before x.behind → HasServedFrom H.Hub start x }
{
    files_give_one_answer()
}

/// The help text is written where the output didn't fail and there was memory.
pub fn help_is_written()
    ensures { (x y : Outside) (ending : Ending) → Obeys Help x y ending → (Rose x.streams.output_faults y.streams.output_faults → ⊥) → IsDone ending }
{}

/// The messages of any seed are written and their lengths reported where neither stream failed and there was memory.
pub fn messages_are_made()
    ensures { (k : Drilling) (a b : Streams) (ending : Ending) → Drills k a b ending → HasWritten a b → IsDone ending }
{}

/// A server is done where neither its hub nor a stream failed, the hub stopped before the budget was spent and there was
/// memory: then each session that was announced has an outcome and was closed, or is settled.
pub fn a_stopped_hub_was_served<H: Hub>()
    ensures { (x : ServerRun H) (start : Start) → RunsHub H.Hub start x → IsUndisturbed H.Hub x → HasStopped (H.tells x.hub_behind) start x }
{}

/// The same of a server whose peers send messages without frames: of each session that the wrapping hub tells to be announced.
pub fn a_stopped_wrapped_hub_was_served<H: Hub>()
    ensures { (x : ServerRun H) (s : Start) (sides : Sides) → RunsSides H.Hub sides s x → IsUndisturbed H.Hub x → HasStoppedOver H.tells x.hub_behind s x }
{}

/// The same of a server whose clients send POSTs: of each session that the hub that reads them tells to be announced, or, where its
/// upstream sends messages without frames, the hub that wraps that one.
pub fn a_stopped_posting_hub_was_served<H: Hub>()
    ensures { (x : ServerRun H) (start : Start) → RunsPosts H.Hub start x → IsUndisturbed H.Hub x → HasStoppedPosts H.tells x.hub_behind start x }
{}

/// A router is started by what the words name, where their IDL is good, the files didn't fail and there was memory.
pub fn a_good_idl_starts_a_router<G: Fan>()
    ensures { (x : RouterRun G) (start : Start) → IsRoutingOf G.Fan x → CanStart x.declared start x.before x.behind → HasRoutedFrom G.Fan start x }
{
    files_give_one_answer()
}

/// A router is done where neither its fan nor a stream failed, the fan stopped before the budget was spent and there was
/// memory: then each session that was announced has an outcome and was closed, or is settled.
pub fn a_stopped_fan_was_served<G: Fan>()
    ensures { (x : RouterRun G) (start : Start) → RoutesFrom G.Fan start x → IsFanUndisturbed G.Fan x
        → HasStoppedFan (G.tells x.fan_behind) start x }
{}
