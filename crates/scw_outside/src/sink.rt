//! A sink of bytes.

ghost use Rattle.std.specs.Prelude.{◌≡◌, ℕ, ◌-◌, ◌<◌, ◌≤◌, List, length, take, Option, Some, IfSome, IfOk, OnErr, IsOk};
ghost use Rattle.std.specs.Io.KnownBytes.{append_known};
ghost use Rattle.scw_outside.specs.Causes.{HasCause};

/// The sink failed and took nothing. The count of faults rose.
#[derive(Clone, Copy, Debug, PartialEq, Eq)]
pub struct SinkFailed;

/// What takes bytes, a front of them at a time.
pub trait Sink {
    /// The bytes taken so far, where the sink tells them.
    ghost taken: { Self → Option (List ℕ) };

    /// How many more bytes it takes without failing, where it tells.
    ghost room: { Self → Option ℕ };

    /// How often a call has failed.
    ghost fault_count: { Self → ℕ };

    /// Takes a front of at least one byte, and answers its length. `SinkFailed` where the sink fails
    /// or has no room.
    fn put(&mut self, bytes: &[u8]) -> Result<usize, SinkFailed>
        requires { 0 < length bytes.now }
        ensures some { IfOk result (λ n. (0 < n) × (n ≤ length bytes.now)) }
        ensures front { IfOk result (λ n. taken self.new ≡ append_known (taken self.old) (take n bytes.now)) }
        ensures kept { OnErr result (taken self.new ≡ taken self.old) }
        ensures sure { IfSome (room self.old) (λ r. 0 < r → IsOk result) }
        ensures left { IfOk result (λ n. IfSome (room self.old) (λ r. room self.new ≡ Some (r - n))) }
        ensures cause { HasCause (fault_count self.old) (fault_count self.new) result (record {}) };

    /// How often a call has failed. It stays at its last value.
    fn faults(&self) -> u64
        ensures { result ≡ fault_count self.now };
}
