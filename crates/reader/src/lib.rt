// "The fields are taken one after another from the lent query": a reader holds the query and the place of its next field. It is made at the
// first field, asked what stands at its place, and handed back at the next. Its functions are thin, and others call `field_at`.
#![tactic(auto)]

ghost use Rattle.std.specs.Prelude.{◌≡◌};
ghost use Rattle.query.specs.Standing.{standing, standing_of};

use paper::{Refusal, WIDTH};
use query::Field;

#[derive(Clone, Copy, Debug, PartialEq, Eq)]
pub struct Reader<'a> {
    pub query: &'a [u8],
    pub at: usize,
}

impl<'a> Reader<'a> {
    // A reader at the first field.
    pub fn new(query: &'a [u8]) -> Reader<'a>
        ensures { (result.query ≡ query.entry) × (result.at ≡ 0) }
    {
        Reader { query, at: 0 }
    }

    // The reader at another place: the next one, as the field's answer gives it.
    pub fn moved(self, at: usize) -> Reader<'a>
        ensures { (result.query ≡ self.entry.query) × (result.at ≡ at) }
    {
        Reader { at, ..self }
    }

    // What stands at the reader's place: a field with the next place, the end, or a refusal.
    pub fn field(self) -> Result<Option<(Field, usize)>, Refusal>
        ensures { standing_of result ≡ standing 32 self.entry.query.now self.entry.at }
    {
        stands_at(self.query, self.at)
    }
}

// What stands at a place of a slice: all that the reader's functions rest on.
pub fn stands_at(query: &[u8], at: usize) -> Result<Option<(Field, usize)>, Refusal>
    ensures { standing_of result ≡ standing 32 query.now at }
{
    query::decode(query, at, WIDTH)
}

// The same with plain parameters, for every caller that holds no reader. docs/PROMISES.md promises both.
pub fn field_at(query: &[u8], at: usize) -> Result<Option<(Field, usize)>, Refusal>
    ensures { standing_of result ≡ standing 32 query.now at }
{
    Reader::new(query).moved(at).field()
}
