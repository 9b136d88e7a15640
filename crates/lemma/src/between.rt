// The literals between two sources (01, The lemma): the path from the one to the other, what it says, and of that what stays (02, E1).
ghost use Rattle.lemma.specs.Steps.{table_in, PathOf};
ghost use Rattle.lemma.specs.Between.{Reachable, Ready, LemmaBetween};

use crate::fixed::leave_out;
use crate::literal::literals_of;
use crate::paths::least_path;
use crate::rows::Literals;
use paper::MAX_ARRAYS;
use terms::Tables;
use terms::graph::origin_of;

// The path from an array term to one that it reaches. There is none to look for where they are one, and so no distances are made.
fn path_between(
    tables: &Tables,
    x: u64,
    from: usize,
    goal: usize,
    path: &mut [u8; MAX_ARRAYS],
) -> usize
    requires { Reachable tables.now x from goal path.old }
    ensures { PathOf (table_in tables.now) x tables.now.counts.arrays from goal path.new result }
{
    if from == goal {
        return 0;
    }
    let mut distances = [[255u8; MAX_ARRAYS]; MAX_ARRAYS];
    costs::put_distances(tables, x, &mut distances);
    least_path(tables, &distances, x, from, goal, path)
}

// The lemma's literals for the rows of two sources of one index value, of which the first reaches the origin of the other, in a list that
// is lent: by value it would be copied at each return.
pub fn literals_between(tables: &Tables, one: u32, other: u32, literals: &mut Literals)
    requires { Ready tables.now one other }
    ensures { LemmaBetween tables.now one other literals.new }
{
    let x = tables.index_value(one);
    let from = origin_of(one);
    let goal = origin_of(other);
    let mut path = [0u8; MAX_ARRAYS];
    let steps = path_between(tables, x, from, goal, &mut path);
    literals_of(tables, x, &path[..steps], one, other, literals);
    leave_out(tables, literals);
}
