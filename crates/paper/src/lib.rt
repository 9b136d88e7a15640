// The numbers of 01, each said once: limits, sizes, tags and refusals. What the paper says stands in specs/, as definitions over lists; its known
// queries are proved in proofs/.
#![tactic(auto)]

ghost use Rattle.std.specs.Prelude.{◌≡◌, Some};
ghost use Rattle.paper.specs.Reasons.{number_of, refused_text};

use std::error::Error;
use std::fmt;

// The most array terms, base terms and Booleans of a query, and its most bytes.
pub const MAX_ARRAYS: usize = 48;

pub const MAX_BASES: usize = 256;

pub const MAX_BOOLEANS: usize = 64;

pub const MAX_BYTES: usize = 4096;

// A source has a base or an array term to itself, an edge a Boolean or an array term.
pub const MAX_SOURCES: usize = MAX_BASES + MAX_ARRAYS;

pub const MAX_EDGES: usize = MAX_BOOLEANS + MAX_ARRAYS;

// "At most 49 literals", the bytes of the longest lemma, and the numbers of its clauses.
pub const MAX_LITERALS: usize = 49;

pub const MAX_ANSWER: usize = 343;

pub const MAX_NUMBERS: usize = 12625;

// The bits of a base term; indices and values are the numbers below this.
pub const WIDTH: usize = 32;

pub const NUMBERS: u64 = 4294967296;

// The tags of fields: "01 free base .. 07 equality"; 02, E1: "New tag 08". The decoder's table of kinds (`query`) begins with them.
pub const FREE_BASE: u8 = 0x01;

pub const FREE_BOOLEAN: u8 = 0x02;

pub const VARIABLE: u8 = 0x03;

pub const WRITE: u8 = 0x04;

pub const CONDITIONAL: u8 = 0x05;

pub const READ: u8 = 0x06;

pub const EQUALITY: u8 = 0x07;

pub const FIXED: u8 = 0x08;

// The tags of literals: "Fields: 21 equal, 22 differ, 25 conclusion .. 23 true, 24 false". They are bytes of a lemma, which are matched in patterns
// of slices (`lines`), where no enum can stand.
pub const EQUAL: u8 = 0x21;

pub const DIFFER: u8 = 0x22;

pub const IS_TRUE: u8 = 0x23;

pub const IS_FALSE: u8 = 0x24;

pub const CONCLUSION: u8 = 0x25;

// Why a call is refused: "Refusals by number".
#[derive(Clone, Copy, Debug, PartialEq, Eq)]
pub enum Reason {
    TooLong = 1,
    RunsPastEnd = 2,
    UnknownTag = 3,
    WrongLength = 4,
    TooMany = 5,
    NotGiven = 6,
    WrongTruth = 7,
    WrongWitness = 8,
    EqualWitnesses = 9,
    NoRoom = 10,
    NoCell = 11,
    OtherVerdict = 12,
}

impl Reason {
    // The number that 01 gives it, by 01's word: `From` would say only that there is one.
    pub fn number(self) -> u8
        ensures { result ≡ number_of self }
    {
        self as u8
    }
}

// A refused call: why, and at which byte of the query.
#[derive(Clone, Copy, Debug, PartialEq, Eq)]
pub struct Refusal {
    pub reason: Reason,
    pub offset: usize,
}

impl Refusal {
    // The refusal of a call as a whole, and of no field: its offset is 0.
    pub fn whole(reason: Reason) -> Self
        ensures { result ≡ record { reason = reason; offset = 0 } }
    {
        Refusal { reason, offset: 0 }
    }
}

// "`refused` number offset"
impl fmt::Display for Refusal {
    ghost output = { λ refusal. Some (refused_text refusal) };

    fn fmt<W: fmt::Write>(&self, f: &mut fmt::Formatter<W>) -> fmt::Result {
        write!(f, "refused {} {}", self.reason.number(), self.offset)
    }
}

impl Error for Refusal {}
