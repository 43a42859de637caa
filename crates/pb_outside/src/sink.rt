ghost use Rattle.std.specs.Prelude.{ℕ, ◌<◌, List, length, Option};
ghost use Rattle.pb_outside.specs.Sink.{Puts, CountsPutFault};

/// Nothing of a piece could be put.
#[derive(Clone, Copy, Debug, PartialEq, Eq)]
pub struct Refused;

/// Where bytes are put.
pub trait Sink {
    /// The bytes that were put, where they are told.
    ghost written: { Self → Option (List ℕ) };

    /// How often nothing could be put; it stands still at its type's end.
    ghost faults: { Self → ℕ };

    /// Puts the first bytes of a piece, and says how many: at least one.
    fn put(&mut self, piece: &[u8]) -> Result<u64, Refused>
        requires { 0 < length piece.now }
        ensures written { Puts piece.now result (written self.old) (written self.new) }
        ensures faults { CountsPutFault result (faults self.old) (faults self.new) };
}
