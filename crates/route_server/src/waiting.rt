//! Which calls of a turn answered that they aren't ready.
ghost use Rattle.std.specs.Prelude.{◌≡◌, ◌<◌};
ghost use Rattle.route_server.specs.Turning.{write_waits, read_waits, with_write, with_read, no_waits};

/// A router has at most so many ports: its client's and those of its targets.
pub const MOST_PORTS: usize = 17;

/// The calls that answered in this turn that they aren't ready, by port: none of them is made again in it.
#[derive(Clone, Copy)]
pub struct Waits {
    pub writes: [bool; MOST_PORTS],
    pub reads: [bool; MOST_PORTS],
}

impl Waits {
    pub fn none() -> Waits
        ensures { result ≡ no_waits }
    {
        Waits {
            writes: [false; MOST_PORTS],
            reads: [false; MOST_PORTS],
        }
    }

    pub fn write(&self, port: usize) -> bool
        requires { port < MOST_PORTS }
        ensures { result ≡ write_waits self.now port }
    {
        self.writes[port]
    }

    pub fn read(&self, port: usize) -> bool
        requires { port < MOST_PORTS }
        ensures { result ≡ read_waits self.now port }
    {
        self.reads[port]
    }

    pub fn mark_write(&mut self, port: usize)
        requires { port < MOST_PORTS }
        ensures { self.new ≡ with_write port self.old }
    {
        self.writes[port] = true;
    }

    pub fn mark_read(&mut self, port: usize)
        requires { port < MOST_PORTS }
        ensures { self.new ≡ with_read port self.old }
    {
        self.reads[port] = true;
    }
}
