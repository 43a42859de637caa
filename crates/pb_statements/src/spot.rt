ghost use Rattle.std.specs.Prelude.{◌^◌, ◌<◌};

/// An output in a scratch: its first number, and its sides.
#[derive(Clone, Copy)]
pub(crate) struct Spot {
    pub(crate) first: u64,
    pub(crate) width: u64,
    pub(crate) height: u64,
    pub(crate) ghost wide: { width < 2 ^ 63 },
    pub(crate) ghost tall: { height < 2 ^ 63 },
}
