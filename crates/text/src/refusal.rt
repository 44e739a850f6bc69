//! What every refusal says, whatever refused.
ghost use Rattle.std.specs.Prelude.{◌≡◌};
ghost use Rattle.text.specs.Refusals.{six_of, number_of, bare, at_byte, Numbered};

/// Why something is refused. The number of a reason is the first of a refusal's numbers.
#[derive(Clone, Copy, PartialEq, Eq, Debug)]
pub enum Reason {
    /// A setting or bound is out of range.
    OutOfRange = 1,
    /// A level is opened while one is open.
    LevelOpen = 2,
    /// A level is opened after nine.
    NoLevelLeft = 3,
    /// A pass or a close with no level open.
    NoLevelOpen = 4,
    /// A pass after the level's last.
    NoPassLeft = 5,
    /// A byte of a word line that is no letter and no mark.
    NoLetter = 6,
    /// A mark that is not after a letter, or is last in its line.
    LooseMark = 7,
    /// The 49th letter of a word.
    LongWord = 8,
    /// A line or a row after as many words as a list may have.
    TooManyWords = 9,
    /// A row that makes no word.
    BadRow = 10,
    /// More candidates in a pass than the tally can hold.
    FullTally = 11,
    /// A pass that would take the settled book past its limit.
    FullSettledBook = 12,
    /// A pass, or a raise, that would take the book past its limit.
    FullBook = 13,
    /// A text that is no pattern text.
    BadPattern = 14,
    /// Text memory that is shorter than the text.
    ShortMemory = 15,
    /// A sheet that is too long, or has a line that is wrong or missing.
    BadSheet = 16,
}

impl Reason {
    /// The number that the rules give the reason.
    pub fn number(self) -> u8
        ensures { result ≡ number_of self }
    {
        self as u8
    }
}

/// A number that no reason has.
#[derive(Clone, Copy, PartialEq, Eq, Debug)]
pub struct NoReason;

impl TryFrom<u8> for Reason {
    type Error = NoReason;

    ghost try_from_gives = { Numbered };

    /// The reason of a number.
    fn try_from(number: u8) -> Result<Reason, NoReason> {
        match number {
            1 => Ok(Reason::OutOfRange),
            2 => Ok(Reason::LevelOpen),
            3 => Ok(Reason::NoLevelLeft),
            4 => Ok(Reason::NoLevelOpen),
            5 => Ok(Reason::NoPassLeft),
            6 => Ok(Reason::NoLetter),
            7 => Ok(Reason::LooseMark),
            8 => Ok(Reason::LongWord),
            9 => Ok(Reason::TooManyWords),
            10 => Ok(Reason::BadRow),
            11 => Ok(Reason::FullTally),
            12 => Ok(Reason::FullSettledBook),
            13 => Ok(Reason::FullBook),
            14 => Ok(Reason::BadPattern),
            15 => Ok(Reason::ShortMemory),
            16 => Ok(Reason::BadSheet),
            _ => Err(NoReason),
        }
    }
}

/// A refusal by its six numbers, as its line prints them: that of its reason; the line and the column of the text, from 1; the
/// level, length and place of the pass that met it. A number that it has not is 0.
#[derive(Clone, Copy, PartialEq, Eq, Debug)]
pub struct Refusal {
    pub number: u8,
    pub line: usize,
    pub column: usize,
    pub level: usize,
    pub length: usize,
    pub place: usize,
}

impl Refusal {
    /// A refusal with its number alone.
    pub fn bare(number: u8) -> Refusal
        ensures { six_of result ≡ bare number }
    {
        Refusal::at_byte(number, 0, 0)
    }

    /// A refusal of a byte of a text, or of a whole line, where `column` is 0.
    pub fn at_byte(number: u8, line: usize, column: usize) -> Refusal
        ensures { six_of result ≡ at_byte number line column }
    {
        Refusal {
            number,
            line,
            column,
            level: 0,
            length: 0,
            place: 0,
        }
    }
}
