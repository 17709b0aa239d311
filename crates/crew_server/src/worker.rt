//! One of several servers at an address.
ghost use Rattle.std.specs.Prelude.{◌≡◌, true, false, [], IfOk};
ghost use Rattle.crew_server.specs.Workers.{is_done, Leaves};

use crew_exit::Exit;
use gate_base::OutOfMemory;
use gate_start::{Ending, Page};
use std::alloc::Global;

/// The room for what a worker reports: the name of a target has at most 253 bytes, and a last line at most 16.
const REPORT_ROOM: usize = 512;

/// One of several servers at an address: its hub or its fan, its output, how it tells the others that it ended, what it has to report,
/// and how it ended.
#[derive(Drop)]
pub struct Worker<H, O, X> {
    pub hub: H,
    pub output: O,
    pub exit: X,
    pub report: Page,
    pub ending: Ending,
}

impl<H: Drop, O: Drop, X: Drop> Worker<H, O, X> {
    /// A worker that has not served yet, and has nothing to report.
    ///
    /// `OutOfMemory`: the room for its report was not found.
    pub fn new(alloc: Global, hub: H, output: O, exit: X) -> Result<Worker<H, O, X>, OutOfMemory>
        ensures hub { IfOk result (λ worker. worker.hub ≡ hub) }
        ensures output { IfOk result (λ worker. worker.output ≡ output) }
        ensures exit { IfOk result (λ worker. worker.exit ≡ exit) }
        ensures report { IfOk result (λ worker. worker.report.out.bytes ≡ []) }
    {
        Ok(Worker {
            hub,
            output,
            exit,
            report: Page::open(alloc, REPORT_ROOM)?,
            ending: Ending::Done,
        })
    }
}

impl<H, O, X: Exit> Worker<H, O, X> {
    // Has the others end too where its server ended before its time.
    pub(crate) fn leave(&mut self)
        ensures leaves { Leaves X.Exit self.new }
        ensures same { self.new ≡ record self.old { exit = self.new.exit } }
    {
        if !is_done(self.ending) {
            self.exit.leave();
        }
    }
}

/// Whether a server stopped by itself.
pub fn is_done(ending: Ending) -> bool
    ensures { result ≡ is_done ending }
{
    matches!(ending, Ending::Done)
}
