// The path (02, E6): of the fewest writes, and among those of the fewest edges, found by comparing distances.
ghost use Rattle.std.specs.Prelude.{◌≡◌, ◌<◌, length};
ghost use Rattle.paper.specs.Sizes.{max_arrays};
ghost use Rattle.paper.specs.Reach.{step_cost};
ghost use Rattle.terms.specs.Graph.{guard_found, edge_found, edges_found, open_in};
ghost use Rattle.lemma.specs.Steps.{table_in, Ends, far_end, step_less, nearer_over, nearer_in, nearer_edge, edge_numbered, Asked, PathOf, RowWithin, touches_in};

use costs::{ENTRIES, WRITE_COST};
use paper::MAX_ARRAYS;
use terms::Tables;
use terms::graph::{Edge, Guard, left_of, other_of, right_of};

// "An edge can be walked both ways": the other end of an edge, or a itself where the edge does not join it.
fn other_end(edge: Edge, a: usize) -> usize
    ensures { result ≡ far_end (edge_found edge) a }
{
    if edge.left == a {
        edge.right
    } else if edge.right == a {
        edge.left
    } else {
        a
    }
}

// What a step costs, by the guard of its edge.
fn step_cost(guard: Guard) -> u16
    ensures { result ≡ step_cost (guard_found guard) }
{
    match guard {
        Guard::Differ(_) => WRITE_COST,
        Guard::IsTrue(_) | Guard::IsFalse(_) => 1,
    }
}

// Is the one distance what is left of the other after a step of that cost?
fn step_less(onward: u8, cost: u16, away: u8) -> bool
    ensures { result ≡ step_less onward cost away }
{
    let through = onward as usize + cost as usize;
    let entry = through % ENTRIES as usize;
    entry == away as usize
}

// Does an open edge lie on a path of least cost from a?
fn leads_nearer(
    edge: Edge,
    distances: &[[u8; MAX_ARRAYS]; MAX_ARRAYS],
    a: usize,
    goal: usize,
) -> bool
    requires { (edge.left < max_arrays) × (edge.right < max_arrays) × (a < max_arrays) × (goal < max_arrays) }
    ensures { result ≡ nearer_over (edge_found edge) distances.now a goal }
{
    let b = other_end(edge, a);
    let cost = step_cost(edge.guard);
    step_less(distances[b][goal], cost, distances[a][goal])
}

// Can a row join the array term at all? Most cannot, and need not be opened.
fn touches(row: u32, a: usize) -> bool
    ensures { result ≡ touches_in row a }
{
    left_of(row) == a || right_of(row) == a || other_of(row) == a
}

// The edge of a row, if it is open and lies on a path of least cost from a. (Tables, index value, distances and goal go through three functions
// of this file alone.)
fn row_leads(
    tables: &Tables,
    x: u64,
    row: u32,
    distances: &[[u8; MAX_ARRAYS]; MAX_ARRAYS],
    a: usize,
    goal: usize,
) -> Option<Edge>
    requires { RowWithin (open_in tables.now.values tables.now.truths x row) × (a < max_arrays) × (goal < max_arrays) }
    ensures { edges_found result ≡ nearer_in (open_in tables.now.values tables.now.truths x row) distances.now a goal }
{
    if !touches(row, a) {
        return None;
    }
    let edge = tables.open(x, row)?;
    leads_nearer(edge, distances, a, goal).then_some(edge)
}

// "the lowest-numbered open edge that lies on such a path", with its number, or nothing where there is none
fn nearer_edge(
    tables: &Tables,
    distances: &[[u8; MAX_ARRAYS]; MAX_ARRAYS],
    x: u64,
    a: usize,
    goal: usize,
) -> Option<(usize, Edge)>
    requires { Ends (table_in tables.now) x max_arrays × (a < max_arrays) × (goal < max_arrays) }
    ensures { edge_numbered result ≡ nearer_edge (table_in tables.now) distances.now x a goal }
{
    let count = tables.counts.edges as usize;
    for (k, &row) in tables.edges[..count].iter().enumerate() {
        if let Some(edge) = row_leads(tables, x, row, distances, a, goal) {
            return Some((k, edge));
        }
    }
    None
}

// "The path shall have the fewest write edges, and among those the fewest edges; at each step the lowest-numbered open edge that lies on
// such a path." Puts the edges' numbers into the path, and answers how many steps it has: `PathOf` is promised of the two.
pub fn least_path(
    tables: &Tables,
    distances: &[[u8; MAX_ARRAYS]; MAX_ARRAYS],
    x: u64,
    from: usize,
    goal: usize,
    path: &mut [u8; MAX_ARRAYS],
) -> usize
    requires { Asked (table_in tables.now) x tables.now.counts.arrays from goal distances.now × (length path.old ≡ max_arrays) }
    ensures { PathOf (table_in tables.now) x tables.now.counts.arrays from goal path.new result }
{
    let mut steps = 0;
    let mut a = from;
    while a != goal {
        // Away from a goal that is reached some edge leads nearer.
        let Some((k, edge)) = nearer_edge(tables, distances, x, a, goal) else {
            unreachable!()
        };
        path[steps] = k as u8;
        steps += 1;
        a = other_end(edge, a);
    }
    steps
}
