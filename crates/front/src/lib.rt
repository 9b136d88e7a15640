// The front of every call: a query is loaded into tables that the caller owns, marked, and searched for its conflicting pair.
#![tactic(auto)]

ghost use Rattle.std.specs.Prelude.{◌≤◌, get_or};
ghost use Rattle.reach.specs.Reached.{opens_in, sources_in, rows_in, links_in, max_rows};
ghost use Rattle.reach.specs.Steps.{Within};
ghost use Rattle.lemma.specs.Between.{LemmaBetween};
ghost use Rattle.front.specs.Fronted.{Unruled, Ruled, Fronted, Paired};

use lemma::{Literals, first_pair, literals_between};
use paper::Refusal;
use reach::{MAX_ROWS, Mark, mark};
use terms::Tables;

// So many sources have marks and notes of their own size: a small query clears no large table.
const FEW: usize = 32;

// What is ruled on the tables, which go on beside it, lent: the number of pairs, and the numbers of the two sources that conflict, s and t of
// the paper, if there are any.
#[derive(Clone, Copy, Debug, PartialEq, Eq)]
pub struct Ruling {
    pub pairs: usize,
    pub found: Option<(usize, usize)>,
}

// Marks the sources, and takes the first pair of sources that conflict, by notes on which are known to conflict with no later one.
fn rule(tables: &Tables, marks: &mut [Mark], clear: &mut [bool]) -> Ruling
    requires { Unruled tables.now (rows_in marks.old) (links_in marks.old) clear.old }
    ensures { Ruled tables.now result }
{
    let pairs = mark(tables, marks);
    let found = first_pair(tables, marks, clear);
    Ruling { pairs, found }
}

// The same, with marks and notes of its own, for so many sources.
fn rule_of<const ROWS: usize>(tables: &Tables) -> Ruling
    requires within { Within tables.now.edges tables.now.counts.edges (sources_in tables.now) tables.now.counts.arrays }
    requires room { tables.now.counts.sources ≤ ROWS }
    requires size { ROWS ≤ max_rows }
    ensures { Ruled tables.now result }
{
    let mut marks = [Mark::NONE; ROWS];
    let mut clear = [false; ROWS];
    rule(tables, &mut marks, &mut clear)
}

fn rule_alone(tables: &Tables) -> Ruling
    requires { Within tables.now.edges tables.now.counts.edges (sources_in tables.now) tables.now.counts.arrays × (tables.now.counts.sources ≤ max_rows) }
    ensures { Ruled tables.now result }
{
    if tables.counts.sources as usize <= FEW {
        rule_of::<FEW>(tables)
    } else {
        rule_of::<MAX_ROWS>(tables)
    }
}

// Loads the query into the tables that are lent, and rules on it.
pub fn judge(query: &[u8], tables: &mut Tables) -> Result<Ruling, Refusal>
    ensures { Fronted query.now tables.new result }
{
    tables.load(query)?;
    Ok(rule_alone(tables))
}

// The literals of the lemma for a pair that was found.
pub fn pair_literals(tables: &Tables, first: usize, later: usize, literals: &mut Literals)
    requires { Paired tables.now first later }
    ensures { LemmaBetween tables.now (get_or tables.now.sources first 0) (get_or tables.now.sources later 0) literals.new }
{
    let one = tables.sources[first];
    let other = tables.sources[later];
    literals_between(tables, one, other, literals);
}
