//! How a server tells the others that it has ended.
ghost use Rattle.std.specs.Prelude.{◌≡◌, true};

use crate::crew::Crew;
use crew_exit::Exit;
use std::alloc::Global;
use std::sync::Arc;

/// How one of the servers at an address tells the others that it has ended before its time.
#[derive(Drop)]
pub struct Bell {
    crew: Arc<Crew, Global>,
    has_left: bool,
}

impl Bell {
    pub(crate) fn new(crew: Arc<Crew, Global>) -> Bell {
        Bell {
            crew,
            has_left: false,
        }
    }
}

impl Exit for Bell {
    ghost has_left = { λ bell. bell.has_left };

    fn leave(&mut self) {
        self.has_left = true;
        self.crew.leave();
    }
}
