// The first word of a line: how it is written, and which numbers follow it.
ghost use Rattle.std.specs.Prelude.{◌≡◌};
ghost use Rattle.lines.specs.Word.{word_from, text_of, numbers_of, limit_of};

#[derive(Clone, Copy, Debug, PartialEq, Eq)]
pub enum Word {
    New,
    Offer,
    Flush,
    Step,
    Run,
    Get,
    Put,
}

impl Word {
    // The word with this first letter: no two have the same.
    pub(crate) fn from_first(b: u8) -> Option<Word>
        ensures { result ≡ word_from b }
    {
        match b {
            b'n' => Some(Word::New),
            b'o' => Some(Word::Offer),
            b'f' => Some(Word::Flush),
            b's' => Some(Word::Step),
            b'r' => Some(Word::Run),
            b'g' => Some(Word::Get),
            b'p' => Some(Word::Put),
            _ => None,
        }
    }

    // Its letters.
    pub(crate) fn text(self) -> &'static [u8]
        ensures { result.now ≡ text_of self }
    {
        match self {
            Word::New => b"new",
            Word::Offer => b"offer",
            Word::Flush => b"flush",
            Word::Step => b"step",
            Word::Run => b"run",
            Word::Get => b"get",
            Word::Put => b"put",
        }
    }

    // How many numbers follow it.
    pub(crate) fn numbers(self) -> usize
        ensures { result ≡ numbers_of self }
    {
        match self {
            Word::New => 4,
            Word::Offer => 3,
            Word::Flush | Word::Step | Word::Run => 1,
            Word::Get | Word::Put => 0,
        }
    }

    // The largest number allowed at a place behind it, the first being 1: a kind has to fit a u8, L a u16, others a u32.
    pub(crate) fn limit(self, place: usize) -> u32
        ensures { result ≡ limit_of self place }
    {
        match (self, place) {
            (Word::Offer, 2) => u32::from(u8::MAX),
            (Word::Offer, 3) => u32::from(u16::MAX),
            _ => u32::MAX,
        }
    }
}
