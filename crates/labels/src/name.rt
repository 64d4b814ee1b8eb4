//! Names.
ghost use Rattle.std.specs.Prelude.{◌-◌, ◌^◌, ◌<◌, ◌≤◌, min};
ghost use Rattle.labels.specs.Spelling.{name_limit};

use crate::kind::{LabelKind, NameLabel};
use crate::spelling::NAME_LIMIT;
use arrayvec::ArrayVec;
use std::error::Error;
use std::fmt;

/// A name of 0 to 32 bytes, eight bytes to a word: each word is the number that its bytes write in base 256.
#[derive(Clone, Copy, PartialEq, Eq, Hash, Debug)]
pub struct Name {
    len: usize,
    first: u64,
    second: u64,
    third: u64,
    fourth: u64,
    ghost few: { len ≤ name_limit },
    ghost first_fits: { first < 256 ^ min 8 len },
    ghost second_fits: { second < 256 ^ min 8 (len - 8) },
    ghost third_fits: { third < 256 ^ min 8 (len - 16) },
    ghost fourth_fits: { fourth < 256 ^ min 8 (len - 24) },
}

/// Why no name is made.
#[derive(Clone, Copy, PartialEq, Eq, Debug)]
pub enum NameRefusal {
    TooLong,
}

impl NameRefusal {
    ghost use Rattle.std.specs.Prelude.{◌≡◌};
    ghost use Rattle.labels.specs.Names.{number};

    pub fn number(&self) -> u32
        ensures { result ≡ number self.now }
    {
        match self {
            NameRefusal::TooLong => 36,
        }
    }
}

/// The number.
impl fmt::Display for NameRefusal {
    ghost use Rattle.std.specs.Prelude.{Some};
    ghost use Rattle.std.specs.Fmt.{decimal};
    ghost use Rattle.labels.specs.Names.{number};

    ghost output = { λ f. Some (decimal (number f)) };

    fn fmt<W: fmt::Write>(&self, f: &mut fmt::Formatter<W>) -> fmt::Result {
        write!(f, "{}", self.number())
    }
}

impl Error for NameRefusal {}

impl Name {
    ghost use Rattle.std.specs.Prelude.{◌≡◌, [], length, Some};
    ghost use Rattle.std.specs.List.{slice_get};
    ghost use Rattle.labels.specs.Words.{word_with};
    ghost use Rattle.labels.specs.Names.{digits, bytes_of};

    /// The name of no bytes.
    pub fn empty() -> Name
        ensures { bytes_of result ≡ [] }
    {
        Name {
            len: 0,
            first: 0,
            second: 0,
            third: 0,
            fourth: 0,
        }
    }

    /// The bytes of the name.
    #[tactic(auto, using(crate::specs::NameLaws::length_bytes, crate::proofs::ByteLaws::next_byte, crate::proofs::ByteLaws::all_bytes))]
    pub fn to_bytes(&self) -> ArrayVec<u8, NAME_LIMIT>
        ensures { result.items ≡ bytes_of self.now }
    {
        let mut bytes = ArrayVec::new();
        for at in 0..self.len {
            bytes.push(self.byte_at(at));
        }
        bytes
    }

    // The word with the byte at the place.
    fn word_with(&self, at: usize) -> u64
        ensures { result ≡ word_with self.now at }
    {
        if at < 8 {
            self.first
        } else if at < 16 {
            self.second
        } else if at < 24 {
            self.third
        } else {
            self.fourth
        }
    }

    // The byte at a place of the name: the byte is a digit of its word.
    fn byte_at(&self, at: usize) -> u8
        requires { at < self.now.len }
        ensures { slice_get (bytes_of self.now) at ≡ Some result }
    {
        let digit = at % 8;
        let count = (self.len - (at - digit)).min(8);
        let word = self.word_with(at);
        ((word >> (8 * (count - 1 - digit))) % 256) as u8
    }

    // The number that at most eight bytes write in base 256.
    fn word(bytes: &[u8]) -> u64
        requires { length bytes.now ≤ 8 }
        ensures spells { digits (length bytes.now) result ≡ bytes.now }
        ensures bound { result < 256 ^ length bytes.now }
    {
        let mut word: u64 = 0;
        for b in bytes {
            word = word * 256 + u64::from(*b);
        }
        word
    }
}

/// The name of these bytes, unless they are too many.
impl TryFrom<&[u8]> for Name {
    ghost use Rattle.labels.specs.Names.{Naming};

    type Error = NameRefusal;

    ghost try_from_gives = { λ bytes answer. Naming bytes.now answer };

    #[tactic(auto, using(crate::proofs::Making::few_name))]
    fn try_from(bytes: &[u8]) -> Result<Name, NameRefusal> {
        let len = bytes.len();
        if len > NAME_LIMIT {
            return Err(NameRefusal::TooLong);
        }
        let one = len.min(8);
        let two = len.min(16);
        let three = len.min(24);
        let first = Name::word(&bytes[..one]);
        let second = Name::word(&bytes[one..two]);
        let third = Name::word(&bytes[two..three]);
        let fourth = Name::word(&bytes[three..]);
        Ok(Name {
            len,
            first,
            second,
            third,
            fourth,
        })
    }
}

impl LabelKind for Name {}

impl NameLabel for Name {
    ghost use Rattle.std.specs.Str.{bytes_eq};
    ghost use Rattle.labels.specs.Names.{bytes_of};
    ghost use Rattle.labels.specs.NameLaws.{compared};

    ghost spelled = { bytes_of };

    ghost alike = { bytes_eq };

    #[tactic(auto, using(crate::proofs::Making::making_of))]
    fn from_bytes(bytes: &[u8]) -> Result<Name, NameRefusal> {
        Name::try_from(bytes)
    }

    ghost tied = { compared };
}
