// Intervals of bytes. The operations stand beside page spans, since the specification of these names the type.
ghost use Rattle.std.specs.Prelude.{◌≤◌};

#[derive(Clone, Copy, Debug, PartialEq, Eq)]
pub struct Interval {
    pub low: u8,
    pub high: u8,
    ghost ordered: { low ≤ high },
}
