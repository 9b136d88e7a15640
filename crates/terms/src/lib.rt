// The terms and the guess of a query, loaded from its bytes into tables that are lent, filled in the one pass over the fields.
#![tactic(auto)]

ghost use Rattle.std.specs.Prelude.{◌≡◌, ◌<◌, set};
ghost use Rattle.paper.specs.Sizes.{max_bases, max_booleans, max_sources, max_edges};
ghost use Rattle.terms.specs.Tables.{read_row, put_in, with_base, with_boolean, with_array, with_source, with_edge, Room};
ghost use Rattle.faults.specs.Faults.{fault_by, fault_number};
ghost use Rattle.terms.specs.Loads.{Loads};

pub mod graph;

use faults::Counts;
use graph::{CHOOSES, DIFFERS, EQUATES, edge_row, source_row};
use paper::{MAX_BASES, MAX_BOOLEANS, MAX_BYTES, MAX_EDGES, MAX_SOURCES, Reason, Refusal};
use query::Field;

// Stands for the read that gives a base term that is none: its array would have number 255. A fixed number has the like, with another
// index, so that it costs no table to know which base terms are fixed. Numbers and no enum, since `faults::fault` is promised of a table of
// numbers.
const NO_READ: u16 = 255;

const FIXED_MARK: u16 = 511;

// The terms and the guess of a query: the value of each base term, the truth of each Boolean, the read that gives each base term, the rows of
// sources and edges, and how many of each are in use: columns of fixed size, since no call takes from a heap (`values` and `reads` are
// two, as `faults::fault` takes them, and a truth is the byte of the query). What holds of all tables that
// are loaded stands in contracts, as `Within`, and not in a ghost field, which would have `put_in` carry a proof in each of its cases.
#[derive(Drop)]
pub struct Tables {
    pub values: [u64; MAX_BASES],
    pub truths: [u8; MAX_BOOLEANS],
    pub reads: [u16; MAX_BASES],
    pub sources: [u32; MAX_SOURCES],
    pub edges: [u32; MAX_EDGES],
    pub counts: Counts,
}

fn read_row(from: usize, index: usize) -> u16
    ensures { result ≡ read_row from index }
{
    let low = (from % 256) as u16;
    let high = (index % 256) as u16;
    low + 256 * high
}

impl Tables {
    // Tables that hold nothing yet.
    pub const EMPTY: Tables = Tables {
        values: [0; MAX_BASES],
        truths: [0; MAX_BOOLEANS],
        reads: [0; MAX_BASES],
        sources: [0; MAX_SOURCES],
        edges: [0; MAX_EDGES],
        counts: Counts {
            bases: 0,
            booleans: 0,
            arrays: 0,
            sources: 0,
            edges: 0,
        },
    };

    // A base term more: its value, and the read that gives it or what stands for that.
    fn put_base(&mut self, value: u64, read: u16)
        requires { self.old.counts.bases < max_bases }
        ensures { self.new ≡ with_base value read self.old }
    {
        let base = self.counts.bases as usize;
        self.values[base] = value;
        self.reads[base] = read;
        self.counts.bases += 1;
    }

    fn put_boolean(&mut self, truth: u8)
        requires { self.old.counts.booleans < max_booleans }
        ensures { self.new ≡ with_boolean truth self.old }
    {
        self.truths[self.counts.booleans as usize] = truth;
        self.counts.booleans += 1;
    }

    // A source more, and an edge: two columns with their counts, and no function over a column, which would borrow two fields.
    fn put_source(&mut self, row: u32)
        requires { self.old.counts.sources < max_sources }
        ensures { self.new ≡ with_source row self.old }
    {
        self.sources[self.counts.sources as usize] = row;
        self.counts.sources += 1;
    }

    fn put_edge(&mut self, row: u32)
        requires { self.old.counts.edges < max_edges }
        ensures { self.new ≡ with_edge row self.old }
    {
        self.edges[self.counts.edges as usize] = row;
        self.counts.edges += 1;
    }

    // Stores what an accepted field gives.
    fn put(&mut self, field: Field)
        requires { Room field self.old.counts }
        ensures { self.new ≡ put_in field self.old }
    {
        let base = self.counts.bases as usize;
        let boolean = self.counts.booleans as usize;
        let array = self.counts.arrays as usize;
        match field {
            Field::FreeBase(value) => self.put_base(value, NO_READ),
            Field::FreeBoolean(truth) => self.put_boolean(truth),
            Field::Variable => self.counts.arrays += 1,
            Field::Write(p) => {
                let index = p.index as usize;
                self.put_source(source_row(array, index, p.value as usize));
                self.put_edge(edge_row(array, p.beneath as usize, 0, index, DIFFERS));
                self.counts.arrays += 1;
            }
            Field::Conditional(p) => {
                let if_true = p.if_true as usize;
                let if_false = p.if_false as usize;
                self.put_edge(edge_row(array, if_true, if_false, p.chooser as usize, CHOOSES));
                self.counts.arrays += 1;
            }
            Field::Read(p) => {
                let from = p.from as usize;
                let index = p.index as usize;
                self.put_source(source_row(from, index, base));
                self.put_base(p.value, read_row(from, index));
            }
            Field::Equality(p) => {
                self.put_edge(edge_row(p.left as usize, p.right as usize, 0, boolean, EQUATES));
                self.put_boolean(p.truth);
            }
            Field::Fixed(value) => self.put_base(value, FIXED_MARK),
        }
    }

    // The first fault of a field against what the tables hold, if it has one.
    fn fault(&self, field: Field) -> Result<(), Reason>
        ensures { fault_number result ≡ fault_by self.now.reads self.now.values self.now.counts field }
    {
        faults::fault(&self.reads, &self.values, self.counts, field)
    }

    // Loads a query: its fields one after another, up to the first with a fault.
    pub fn load(&mut self, query: &[u8]) -> Result<(), Refusal>
        ensures { Loads query.now result self.new }
    {
        self.counts = Counts::default();
        if MAX_BYTES < query.len() {
            return Err(Refusal::whole(Reason::TooLong));
        }
        let mut at = 0;
        while let Some((field, next)) = reader::field_at(query, at)? {
            if let Err(reason) = self.fault(field) {
                return Err(Refusal { reason, offset: at });
            }
            self.put(field);
            at = next;
        }
        Ok(())
    }
}
