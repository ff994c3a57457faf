ghost use Rattle.std.specs.Prelude.{◌≡◌, ℕ, ◌≤◌, ◌<◌, ◌-◌, ◌++◌, List, [], ◌∷◌, Option, option_map, IfOk, OnOk, OnErr, IfNone, OnSome};
ghost use Rattle.gob_outside.specs.Count.{Rose, one_more};
ghost use Rattle.gob_outside.specs.Door.{Gives};

use crate::connection::Connection;
use crate::failed::Failed;

/// What connections come from, one at a time, and what takes them back.
pub trait Door {
    /// What the door gives. It may be used in a thread of its own.
    type Conn: Connection + Send;

    // The connections still to come, each as `next` will give it, where the door tells them.
    ghost coming: { Self → Option (List Self.Conn) };
    // The finished connections, each as `done` got it, where the door tells them.
    ghost finished: { Self → Option (List Self.Conn) };
    // How many connections were given and didn't come back yet.
    ghost out: { Self → ℕ };
    // How many calls of `next` failed.
    ghost faults: { Self → ℕ };
    // How often the door was found to give no more.
    ghost ends: { Self → ℕ };

    /// The next connection. `None` means that the door gives no more; it comes only where the
    /// count of ends rose, and where the door tells its connections exactly where none is left.
    /// `Failed` comes only where the count of faults rose, and then no connection was taken.
    fn next(&mut self) -> Result<Option<Self::Conn>, Failed>
        ensures given { IfOk result (λ conn. Gives (coming self.old) conn (coming self.new)) }
        ensures kept { OnErr result (coming self.new ≡ coming self.old) }
        ensures finished { finished self.new ≡ finished self.old }

        ensures one_out { IfOk result (λ conn. OnSome conn (out self.new ≡ one_more (out self.old))) }
        ensures none_out { IfOk result (λ conn. IfNone conn (out self.new ≡ out self.old)) }
        ensures failed_out { OnErr result (out self.new ≡ out self.old) }

        ensures end { IfOk result (λ conn. IfNone conn (Rose (ends self.old) (ends self.new))) }
        ensures goes_on { IfOk result (λ conn. OnSome conn (ends self.new ≡ ends self.old)) }
        ensures ends_never_fall { ends self.old ≤ ends self.new }

        ensures fine { OnOk result (faults self.new ≡ faults self.old) }
        ensures failed { OnErr result (Rose (faults self.old) (faults self.new)) }
        ensures never_falls { faults self.old ≤ faults self.new };

    /// Takes a finished connection back. One that `next` gave must be out.
    fn done(&mut self, conn: Self::Conn)
        requires { 0 < out self.old }
        ensures finished { finished self.new ≡ option_map (λ before. before ++ conn ∷ []) (finished self.old) }
        ensures coming { coming self.new ≡ coming self.old }
        ensures out { out self.new ≡ out self.old - 1 }
        ensures ends { ends self.new ≡ ends self.old }
        ensures faults { faults self.new ≡ faults self.old };
}
