//! The traits of the outside world.

ghost use Rattle.std.specs.Prelude.{◌≡◌, ℕ, ◌<◌, ◌≤◌, List, length, IfOk};
ghost use Rattle.std.specs.declared.option.Option.{Option};
ghost use Rattle.std.specs.Io.{ReadsAtMost};
ghost use Rattle.std.specs.Io.KnownBytes.{ReadConsumes, WriteAppends};
ghost use Rattle.io_edge.specs.Faults.{HasCause};

/// A read or a write failed.
#[derive(Clone, Copy, Debug, PartialEq, Eq)]
pub struct Failed;

/// Where bytes come from.
pub trait Source {
    /// The bytes that are left, or None where the source doesn't tell them. Nothing is promised of the
    /// bytes of a source that doesn't.
    ghost left: { Self → Option (List ℕ) };

    /// A count of faults.
    ghost faults: { Self → ℕ };

    /// Puts the bytes that are left at the front of the buffer, which isn't empty, as many as it likes,
    /// and says how many: 0 just where none is left. At `Failed` what is left stays. The count of
    /// faults doesn't fall, and `Failed` comes only where it rose: it is greater than before, or is at
    /// least 2 ^ 64 - 1.
    fn read(&mut self, buf: &mut [u8]) -> Result<usize, Failed>
        requires { 0 < length buf.old }
        ensures bound { ReadsAtMost result buf.new }
        ensures bytes { ReadConsumes (left self.old) (left self.new) result buf.new }
        ensures cause { HasCause (faults self.old) (faults self.new) result };
}

/// Where bytes go.
pub trait Sink {
    /// The bytes that it has taken, or None where the sink doesn't tell them. Nothing is promised of
    /// the bytes of a sink that doesn't.
    ghost taken: { Self → Option (List ℕ) };

    /// A count of faults.
    ghost faults: { Self → ℕ };

    /// Takes some bytes, at least one, from the front of the piece, which isn't empty, and says how
    /// many. At `Failed` it takes none. The count of faults doesn't fall, and `Failed` comes only where
    /// it rose: it is greater than before, or is at least 2 ^ 64 - 1.
    fn write(&mut self, piece: &[u8]) -> Result<usize, Failed>
        requires { 0 < length piece.now }
        ensures some { IfOk result (λ n. 0 < n) }
        ensures bound { IfOk result (λ n. n ≤ length piece.now) }
        ensures bytes { WriteAppends (taken self.old) (taken self.new) result piece.now }
        ensures cause { HasCause (faults self.old) (faults self.new) result };
}

/// What a painter may call while it paints, and an artist before it sends. No clause says that they do,
/// or when.
pub trait Gate: Sync {
    /// Names a stroke and one of its jobs, whose numbers count from 1. Nothing is known of the call but
    /// that it returns.
    fn painting(&self, stroke: u32, job: u32);

    /// Names an artist, on its own thread and before it sends its first command. Nothing is known of the
    /// call but that it returns.
    fn sending(&self, _artist: u32) {}
}

/// A gate that does nothing.
#[derive(Clone, Copy, Debug)]
pub struct NoGate;

impl Gate for NoGate {
    fn painting(&self, _stroke: u32, _job: u32) {}
}
