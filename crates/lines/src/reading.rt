// Reading a line byte by byte, so that no line has to be held: a number may have any number of leading zeros.
ghost use Rattle.std.specs.Prelude.{◌≡◌};
ghost use Rattle.lines.specs.Reading.{start_of, is_empty_of, first_of, letter_of, with_digit_of, next_number_of, space_of, take_of};
ghost use Rattle.lines.specs.Reading.{bare_of, made_of, line_in};

use super::line::Line;
use super::word::Word;

// What the bytes of a line so far come to.
#[derive(Clone, Copy, Debug, PartialEq, Eq)]
pub enum Reading {
    // There are none.
    Start,
    // They are the first letters of a word, and read says how many. No slice of the letters to come: a reference has an address, of
    // which the clauses would speak too.
    Letters {
        word: Word,
        read: usize,
    },
    // They are a word and numbers behind it: the one at place is being read, the first being at 1. number: what its digits come to,
    // None before the first digit. before: the three numbers before it, the newest last, and 0 where there are fewer.
    Numbers {
        word: Word,
        place: usize,
        number: Option<u32>,
        before: [u32; 3],
    },
    // Whatever follows, the line is bad.
    Bad,
}

// The first byte of a line: a word's first letter, or the line is bad.
#[tactic(auto, unfolding(crate::specs::Reading::first_of))]
fn first(b: u8) -> Reading
    ensures { result ≡ first_of b }
{
    match Word::from_first(b) {
        Some(word) => Reading::Letters { word, read: 1 },
        None => Reading::Bad,
    }
}

// A further byte of a word: its next letter, or the line is bad.
#[tactic(auto, unfolding(crate::specs::Reading::letter_of))]
fn letter(word: Word, read: usize, b: u8) -> Reading
    ensures { result ≡ letter_of word read b }
{
    match word.text().get(read) {
        Some(&next) if next == b => Reading::Letters {
            word,
            read: read + 1,
        },
        _ => Reading::Bad,
    }
}

// A number with a digit more. None where b is no digit, or where the number is past its limit.
#[tactic(auto, unfolding(crate::specs::Reading::with_digit_of))]
fn with_digit(number: u32, b: u8, limit: u32) -> Option<u32>
    ensures { result ≡ with_digit_of number b limit }
{
    if !b.is_ascii_digit() {
        return None;
    }
    let value = number.checked_mul(10)?.checked_add(u32::from(b - b'0'))?;
    (value <= limit).then_some(value)
}

// A space behind the word or behind a number, so many numbers being read: the next number begins, or the line is bad if the word has
// no more.
#[tactic(auto, unfolding(crate::specs::Reading::next_number_of))]
fn next_number(word: Word, read: usize, before: [u32; 3]) -> Reading
    ensures { result ≡ next_number_of word read before }
{
    if read < word.numbers() {
        Reading::Numbers {
            word,
            place: read + 1,
            number: None,
            before,
        }
    } else {
        Reading::Bad
    }
}

// A line of a word that no number follows.
fn bare(word: Word) -> Option<Line>
    ensures { result ≡ bare_of word }
{
    match word {
        Word::Get => Some(Line::Get),
        Word::Put => Some(Line::Put),
        _ => None,
    }
}

// A line of a word and its numbers: the last one, and the three before it.
fn made(word: Word, before: [u32; 3], last: u32) -> Option<Line>
    ensures { result ≡ made_of word before last }
{
    let [a, b, c] = before;
    match word {
        Word::New => Some(Line::New(a, b, c, last)),
        // A kind or an L past its limit never comes here (reads); if it did, it would be cut off as made_of says.
        Word::Offer => Some(Line::Offer(b, (c % 256) as u8, (last % 65536) as u16)),
        Word::Flush => Some(Line::Flush(last)),
        Word::Step => Some(Line::Step(last)),
        Word::Run => Some(Line::Run(last)),
        Word::Get | Word::Put => None,
    }
}

impl Reading {
    // Before the first byte of a line.
    pub fn start() -> Reading
        ensures { result ≡ start_of }
    {
        Reading::Start
    }

    // Whether no byte of the line was read.
    pub fn is_empty(self) -> bool
        ensures { result ≡ is_empty_of self }
    {
        matches!(self, Reading::Start)
    }

    // A space: behind a whole word or number, before a number, or the line is bad.
    #[tactic(auto, unfolding(crate::specs::Reading::space_of))]
    fn space(self) -> Reading
        ensures { result ≡ space_of self }
    {
        match self {
            Reading::Letters { word, read } if read == word.text().len() => {
                next_number(word, 0, [0; 3])
            }
            Reading::Numbers {
                word,
                place,
                number: Some(last),
                before,
            } => {
                let [_, b, c] = before;
                next_number(word, place, [b, c, last])
            }
            _ => Reading::Bad,
        }
    }

    // The next byte of a line.
    #[tactic(auto, unfolding(crate::specs::Reading::take_of, crate::specs::Reading::byte_of))]
    pub fn take(self, b: u8) -> Reading
        ensures { result ≡ take_of self b }
    {
        if b == b' ' {
            return self.space();
        }
        match self {
            Reading::Start => first(b),
            Reading::Letters { word, read } => letter(word, read, b),
            Reading::Numbers {
                word,
                place,
                number,
                before,
            } => match with_digit(number.unwrap_or(0), b, word.limit(place)) {
                None => Reading::Bad,
                number => Reading::Numbers {
                    word,
                    place,
                    number,
                    before,
                },
            },
            Reading::Bad => Reading::Bad,
        }
    }

    // The line, its last byte being read. None for a bad line.
    #[tactic(auto, unfolding(crate::specs::Reading::line_in))]
    pub fn line(self) -> Option<Line>
        ensures { result ≡ line_in self }
    {
        match self {
            Reading::Letters { word, read } if read == word.text().len() => bare(word),
            Reading::Numbers {
                word,
                place,
                number: Some(last),
                before,
            } if place == word.numbers() => made(word, before, last),
            _ => None,
        }
    }
}
