// The refusals 5 to 9 of a field against what was given before it (01, Refusals by number), tried in order. What was given is told by counts, by
// the reads and by the assigned values, as the loader has them in its tables.
#![tactic(auto)]

ghost use Rattle.std.specs.Prelude.{◌≡◌, not, if◌then◌else◌};
ghost use Rattle.faults.specs.Faults.{fault_by, fault_number, bad_witnesses_by, equal_witnesses_by};

use paper::{MAX_ARRAYS, MAX_BASES, MAX_BOOLEANS, Reason};
use query::{EqualityParts, Field};

// How many terms of each series are given, and how many rows the tables of sources and edges have.
#[derive(Clone, Copy, Debug, Default, PartialEq, Eq)]
pub struct Counts {
    pub bases: u16,
    pub booleans: u16,
    pub arrays: u16,
    pub sources: u16,
    pub edges: u16,
}

// One test of a field: where it is met, the field is refused, and those that follow do not count.
fn unless(met: bool, reason: Reason) -> Result<(), Reason>
    ensures { result ≡ (if met then Err reason else Ok tt) }
{
    if met { Err(reason) } else { Ok(()) }
}

// 8: a witness isn't a read, or reads another array, or the two index numbers differ.
fn good_witnesses(reads: &[u16; MAX_BASES], p: EqualityParts) -> bool
    ensures { not result ≡ bad_witnesses_by reads.now p }
{
    let one = reads[(p.left_witness % 256) as usize];
    let other = reads[(p.right_witness % 256) as usize];
    (one % 256 == p.left) & (other % 256 == p.right) & (one / 256 == other / 256)
}

// 9: their assigned values are equal.
fn equal_witnesses(values: &[u64; MAX_BASES], p: EqualityParts) -> bool
    ensures { result ≡ equal_witnesses_by values.now p }
{
    values[(p.left_witness % 256) as usize] == values[(p.right_witness % 256) as usize]
}

// The first fault of a field against what was given before it, if it has one. The tables are of the crate above, which lends what is asked here.
pub fn fault(
    reads: &[u16; MAX_BASES],
    values: &[u64; MAX_BASES],
    counts: Counts,
    field: Field,
) -> Result<(), Reason>
    ensures { fault_number result ≡ fault_by reads.now values.now counts field }
{
    let Counts {
        bases,
        booleans,
        arrays,
        ..
    } = counts;
    let bases_full = MAX_BASES <= bases as usize;
    let booleans_full = MAX_BOOLEANS <= booleans as usize;
    let arrays_full = MAX_ARRAYS <= arrays as usize;
    match field {
        Field::FreeBase(_) => unless(bases_full, Reason::TooMany),
        Field::FreeBoolean(truth) => {
            unless(booleans_full, Reason::TooMany)?;
            unless(1 < truth, Reason::WrongTruth)
        }
        Field::Variable => unless(arrays_full, Reason::TooMany),
        Field::Write(p) => {
            unless(arrays_full, Reason::TooMany)?;
            let ungiven = (arrays <= p.beneath) | (bases <= p.index) | (bases <= p.value);
            unless(ungiven, Reason::NotGiven)
        }
        Field::Conditional(p) => {
            unless(arrays_full, Reason::TooMany)?;
            let ungiven = (booleans <= p.chooser) | (arrays <= p.if_true) | (arrays <= p.if_false);
            unless(ungiven, Reason::NotGiven)
        }
        Field::Read(p) => {
            unless(bases_full, Reason::TooMany)?;
            let ungiven = (arrays <= p.from) | (bases <= p.index);
            unless(ungiven, Reason::NotGiven)
        }
        Field::Equality(p) => {
            unless(booleans_full, Reason::TooMany)?;
            let ungiven = (arrays <= p.left)
                | (arrays <= p.right)
                | (bases <= p.left_witness)
                | (bases <= p.right_witness);
            unless(ungiven, Reason::NotGiven)?;
            unless(1 < p.truth, Reason::WrongTruth)?;
            unless(!good_witnesses(reads, p), Reason::WrongWitness)?;
            let equal = (p.truth == 0) & equal_witnesses(values, p);
            unless(equal, Reason::EqualWitnesses)
        }
        Field::Fixed(_) => unless(bases_full, Reason::TooMany),
    }
}
