//! Whether messages are begun with what is declared of them.
ghost use Rattle.std.specs.Prelude.{◌≡◌, ◌<◌, ◌≤◌, true, false, if◌then◌else◌};

use protocol_traits::FormWrite;
use type_tables::Schema;

/// So many messages are begun with what is declared once two in a row asked for it, where a service is named.
const TYPED: u8 = 15;

/// What the messages of a stream asked for of late.
///
/// Where only an empty map asks for what is declared, most messages need nothing of it. So a message is first gone through with
/// nothing known, and one that asks is gone through again. Behind two in a row that ask, the next ones are begun with what is
/// declared; the one behind these is tried without it again. Where no name means a service nothing is looked up of a call or its
/// reply, so there all that follow are begun with what is declared.
#[derive(Clone, Copy)]
pub struct Habit {
    /// Above 0: the next messages are begun with what is declared, so many of them where a service is named.
    pub typed: u8,
    /// Whether the last one that was begun without it asked for it.
    pub asked: bool,
}

impl Habit {
    /// No message has asked yet.
    pub fn new() -> Habit
        ensures { result ≡ record { typed = 0; asked = false } }
    {
        Habit {
            typed: 0,
            asked: false,
        }
    }

    /// Whether the next message for this writer is begun with nothing known of its types. One that is begun with them is counted
    /// off where the schema names a service.
    #[inline(always)]
    pub fn begins_untyped<W: FormWrite>(&mut self, schema: &Schema) -> bool
        ensures unmarked { W.marked ≡ false → result ≡ true }
        ensures spent { self.old.typed ≡ 0 → result ≡ true }
        ensures typed { W.marked ≡ true → 0 < self.old.typed → result ≡ false }
        ensures untyped { result ≡ true → self.new ≡ self.old }
        ensures fewer { self.new.typed ≤ self.old.typed }
        ensures asked { self.new.asked ≡ self.old.asked }
    {
        if !W::is_marked() || self.typed == 0 {
            return true;
        }
        if schema.names_services() {
            self.typed -= 1;
        }
        false
    }

    /// A message was gone through with nothing known of its types.
    #[inline(always)]
    pub fn was_enough(&mut self)
        ensures { self.new ≡ record self.old { asked = false } }
    {
        self.asked = false;
    }

    /// A message couldn't be gone through so: it asked, or the quick way leaves it.
    #[inline(always)]
    pub fn asks(&mut self)
        ensures typed { self.new.typed ≡ (if self.old.asked then TYPED else self.old.typed) }
        ensures asked { self.new.asked ≡ true }
    {
        if self.asked {
            self.typed = TYPED;
        }
        self.asked = true;
    }
}
