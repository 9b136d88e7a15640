// The conflicting pair (01, The lemma): the first of the sources that conflicts with a later one, and the first of those.
ghost use Rattle.std.specs.Prelude.{◌≡◌, cond, ◌<◌, eqb};
ghost use Rattle.paper.specs.Sizes.{max_arrays};
ghost use Rattle.reach.specs.Reached.{bit, sources_in, rows_in, links_in};
ghost use Rattle.lemma.specs.Pairs.{clash_of, settled_by, pair_in, found_of, Searchable};

use reach::{Mark, stands_in};
use terms::Tables;
use terms::graph::origin_of;

// "their values differ, and the first reaches the origin of the second"
fn clashes(one: u64, other: u64, row: u64, origin: usize) -> bool
    requires { origin < max_arrays }
    ensures { result ≡ clash_of one other row origin }
{
    one != other && stands_in(row, origin)
}

// Need a source not be tried: was that known, or has the one that is tried now, which does not conflict with it, its origin in its row?
fn settles(known: bool, row: u64, origin: usize) -> bool
    requires { origin < max_arrays }
    ensures { result ≡ settled_by known row origin }
{
    known || stands_in(row, origin)
}

// The first source to try: the next one of the index value, or none where it is known that none conflicts. The count stands for none, as in the
// links themselves.
fn first_tried(known: bool, next: u16, count: usize) -> usize
    ensures { result ≡ cond known count next }
{
    if known { count } else { next as usize }
}

// "the least first source s that stands in a pair with a later one, and with it the least later source t". Only sources of one index
// value conflict, so the later ones are taken along the links. A source whose origin an earlier one reaches has its row, since reach
// goes both ways; where they do not conflict it has its value too, conflicts with none if the earlier one does not, and is not tried again:
// `clear` has a note of each source whether it is known to conflict with no later one.
pub fn first_pair(tables: &Tables, marks: &[Mark], clear: &mut [bool]) -> Option<(usize, usize)>
    requires { Searchable (sources_in tables.now) (rows_in marks.now) (links_in marks.now) clear.old }
    ensures { found_of result ≡ pair_in (sources_in tables.now) (rows_in marks.now) }
{
    let count = tables.counts.sources as usize;
    // By the number, since the notes on later sources are written meanwhile.
    for s in 0..count {
        let row = marks[s].row();
        let value = tables.assigned_value(tables.sources[s]);
        let mut t = first_tried(clear[s], marks[s].next, count);
        while t < count {
            let later = tables.sources[t];
            let other = tables.assigned_value(later);
            let origin = origin_of(later);
            if clashes(value, other, row, origin) {
                return Some((s, t));
            }
            clear[t] = settles(clear[t], row, origin);
            t = marks[t].next as usize;
        }
    }
    None
}
