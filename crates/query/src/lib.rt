// Reads the fields of a query where they stand (01, The query): what stands at a place is a field of one of the eight kinds with its parts, the end, or a refusal.
#![tactic(auto)]

ghost use Rattle.std.specs.Prelude.{◌≡◌, ℕ, ◌+◌, ◌/◌, ◌^◌, ◌<◌, ◌≤◌, length, take, drop, IfOk};
ghost use Rattle.std.proofs.Math.Option.{some};
ghost use Rattle.paper.specs.Lists.{number, first_met};
ghost use Rattle.paper.specs.Fields.{kind_of, own_length, tag_at, head_tests};
ghost use Rattle.query.specs.Standing.{Carries, paper_kind, found_kind, refusal_of, standing, standing_of};

use paper::{
    CONDITIONAL, EQUALITY, FIXED, FREE_BASE, FREE_BOOLEAN, READ, Reason, Refusal, VARIABLE, WRITE,
};

// The bytes of a field's head: tag and length.
const HEAD: usize = 3;

// The table of fields by its kinds: their tags, their lengths, and with `field_of` their parts.
#[derive(Clone, Copy, Debug, PartialEq, Eq)]
enum Kind {
    FreeBase,
    FreeBoolean,
    Variable,
    Write,
    Conditional,
    Read,
    Equality,
    Fixed,
}

impl Kind {
    // The kind with a tag: "01 free base .. 07 equality"; 02, E1: "New tag 08". An `Option` and no `TryFrom`, whose error would say nothing more.
    fn of(tag: u8) -> Option<Kind>
        ensures { found_kind result ≡ kind_of tag }
    {
        match tag {
            FREE_BASE => Some(Kind::FreeBase),
            FREE_BOOLEAN => Some(Kind::FreeBoolean),
            VARIABLE => Some(Kind::Variable),
            WRITE => Some(Kind::Write),
            CONDITIONAL => Some(Kind::Conditional),
            READ => Some(Kind::Read),
            EQUALITY => Some(Kind::Equality),
            FIXED => Some(Kind::Fixed),
            _ => None,
        }
    }

    // The table's column of lengths; an assigned value takes the width.
    fn own_length(self, width: usize) -> usize
        requires { width ≤ 64 }
        ensures { result ≡ own_length width (some (paper_kind self)) }
    {
        let value = width / 8;
        match self {
            Kind::FreeBase | Kind::Fixed => value,
            Kind::FreeBoolean => 1,
            Kind::Variable => 0,
            Kind::Write | Kind::Conditional => 6,
            Kind::Read => 4 + value,
            Kind::Equality => 9,
        }
    }
}

// "write: array, index base, value base"
#[derive(Clone, Copy, Debug, PartialEq, Eq)]
pub struct WriteParts {
    pub beneath: u16,
    pub index: u16,
    pub value: u16,
}

// "conditional: Boolean, array if true, array if false"
#[derive(Clone, Copy, Debug, PartialEq, Eq)]
pub struct ConditionalParts {
    pub chooser: u16,
    pub if_true: u16,
    pub if_false: u16,
}

// "read: array, index base, assigned value"
#[derive(Clone, Copy, Debug, PartialEq, Eq)]
pub struct ReadParts {
    pub from: u16,
    pub index: u16,
    pub value: u64,
}

// "equality: left array, right array, truth (1 byte), left witness, right witness": the truth is the byte as it stands, since one above 1 is
// refused by 7, after 5 and 6 are tried.
#[derive(Clone, Copy, Debug, PartialEq, Eq)]
pub struct EqualityParts {
    pub left: u16,
    pub right: u16,
    pub truth: u8,
    pub left_witness: u16,
    pub right_witness: u16,
}

// "Each field is one of these seven kinds with its own parts"; 02, E1: a fixed number is the eighth.
#[derive(Clone, Copy, Debug, PartialEq, Eq)]
pub enum Field {
    FreeBase(u64),
    FreeBoolean(u8),
    Variable,
    Write(WriteParts),
    Conditional(ConditionalParts),
    Read(ReadParts),
    Equality(EqualityParts),
    Fixed(u64),
}

// "Numbers are big-endian, unsigned." The one reader of numbers, which serves every field: of two bytes, and of as many as the width has, so
// that no `from_be_bytes` serves all.
fn number(bytes: &[u8]) -> u64
    requires { length bytes.now ≤ 8 }
    ensures value { result ≡ number bytes.now }
    ensures fits { result < 256 ^ length bytes.now }
{
    let mut high = 0;
    for &byte in bytes {
        high = high * 256 + u64::from(byte);
    }
    high
}

// "Term numbers take two bytes", and so does a field's length.
fn number2(bytes: &[u8], at: usize) -> u16
    requires { at + 2 ≤ length bytes.now }
    ensures { result ≡ number (take 2 (drop at bytes.now)) }
{
    number(&bytes[at..at + 2]) as u16
}

// The field of a kind, from the bytes that its value begins: the table's column of parts.
fn field_of(kind: Kind, value: &[u8], width: usize) -> Field
    requires width { width ≤ 64 }
    requires whole { own_length width (some (paper_kind kind)) ≤ length value.now }
    ensures { Carries width kind value.now result }
{
    match kind {
        Kind::FreeBase => Field::FreeBase(number(&value[..width / 8])),
        Kind::FreeBoolean => Field::FreeBoolean(value[0]),
        Kind::Variable => Field::Variable,
        Kind::Write => Field::Write(WriteParts {
            beneath: number2(value, 0),
            index: number2(value, 2),
            value: number2(value, 4),
        }),
        Kind::Conditional => Field::Conditional(ConditionalParts {
            chooser: number2(value, 0),
            if_true: number2(value, 2),
            if_false: number2(value, 4),
        }),
        Kind::Read => Field::Read(ReadParts {
            from: number2(value, 0),
            index: number2(value, 2),
            value: number(&value[4..4 + width / 8]),
        }),
        Kind::Equality => Field::Equality(EqualityParts {
            left: number2(value, 0),
            right: number2(value, 2),
            truth: value[4],
            left_witness: number2(value, 5),
            right_witness: number2(value, 7),
        }),
        Kind::Fixed => Field::Fixed(number(&value[..width / 8])),
    }
}

// The kind of the field that these bytes begin, or the first of the head's tests that is met. "Within it: 2 for the head, 3, 4, 2 for the value".
fn tested(left: &[u8], width: usize) -> Result<Kind, Reason>
    requires { width ≤ 64 }
    ensures tests { refusal_of result ≡ first_met (head_tests width left.now) }
    ensures kind { IfOk result (λ kind. kind_of (tag_at left.now) ≡ some (paper_kind kind)) }
{
    if left.len() < HEAD {
        return Err(Reason::RunsPastEnd);
    }
    let Some(kind) = Kind::of(left[0]) else {
        return Err(Reason::UnknownTag);
    };
    let length = usize::from(number2(left, 1));
    if length != kind.own_length(width) {
        return Err(Reason::WrongLength);
    }
    if left.len() < HEAD + length {
        return Err(Reason::RunsPastEnd);
    }
    Ok(kind)
}

// What stands at a place, for values of a width in bits, of which a clause says that it is at most 64, since it is the caller's number: a field with the next place, the end, or a refusal, whose "offset is that of the field's first byte".
#[tactic(auto, using(crate::proofs::Heads::at_end))]
pub fn decode(query: &[u8], at: usize, width: usize) -> Result<Option<(Field, usize)>, Refusal>
    requires { width ≤ 64 }
    ensures { standing_of result ≡ standing width query.now at }
{
    if query.len() <= at {
        return Ok(None);
    }
    let left = &query[at..];
    let kind = tested(left, width).map_err(|reason| Refusal { reason, offset: at })?;
    let field = field_of(kind, &left[HEAD..], width);
    let next = at + HEAD + kind.own_length(width);
    Ok(Some((field, next)))
}
