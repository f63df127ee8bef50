// What a line of the replay program asks for.
#[derive(Clone, Copy, Debug, PartialEq, Eq)]
pub enum Line {
    New(u32, u32, u32, u32),
    Offer(u32, u8, u16),
    Flush(u32),
    Step(u32),
    Run(u32),
    Get,
    Put,
}
