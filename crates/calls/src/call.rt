// A call of the machine or of its memory, as a value.

#[derive(Clone, Copy, Debug, PartialEq, Eq)]
pub enum Call<'a> {
    Step { tick: u16 },
    Run { ticks: &'a [u16] },
    Reset,
    PageCount,
    Peek { page: u16, offset: u8 },
    Poke { page: u16, offset: u8, byte: u8 },
}
