//! Which calls of a turn answered that they aren't ready.
ghost use Rattle.std.specs.Prelude.{◌≡◌};
ghost use Rattle.proxy_server.specs.Turning.{write_waits, read_waits, with_write, with_read};

use gate_hub::Side;

/// The calls that answered in this turn that they aren't ready: none of them is made again in it.
#[derive(Clone, Copy)]
pub struct Waits {
    pub client_write: bool,
    pub client_read: bool,
    pub upstream_write: bool,
    pub upstream_read: bool,
}

impl Waits {
    pub fn write(&self, side: Side) -> bool
        ensures { result ≡ write_waits self.now side }
    {
        match side {
            Side::Client => self.client_write,
            Side::Upstream => self.upstream_write,
        }
    }

    pub fn read(&self, side: Side) -> bool
        ensures { result ≡ read_waits self.now side }
    {
        match side {
            Side::Client => self.client_read,
            Side::Upstream => self.upstream_read,
        }
    }

    pub fn mark_write(&mut self, side: Side)
        ensures { self.new ≡ with_write side self.old }
    {
        match side {
            Side::Client => self.client_write = true,
            Side::Upstream => self.upstream_write = true,
        }
    }

    pub fn mark_read(&mut self, side: Side)
        ensures { self.new ≡ with_read side self.old }
    {
        match side {
            Side::Client => self.client_read = true,
            Side::Upstream => self.upstream_read = true,
        }
    }
}
