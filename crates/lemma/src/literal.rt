// The literals (01, The lemma): "equal", one for each edge of the path, and the conclusion; a repeated one stands once.
ghost use Rattle.std.specs.Prelude.{◌≡◌, ◌<◌};
ghost use Rattle.paper.specs.Lemma.{literal_of};
ghost use Rattle.terms.specs.Graph.{guard_found};
ghost use Rattle.lemma.specs.Steps.{table_in};
ghost use Rattle.lemma.specs.Rows.{literal_in};
ghost use Rattle.lemma.specs.Literals.{guard_number, Opening, Walked, LemmaOf};

use crate::rows::{Literal, Literals};
use terms::Tables;
use terms::graph::{Guard, index_of, value_of};

// "for a write edge "index of s differs from the write's index", for a conditional its Boolean true or false, for an equality its Boolean
// true"
fn edge_literal(guard: Guard, index: u8) -> Literal
    requires { guard_number (guard_found guard) < 256 }
    ensures { literal_in result ≡ literal_of index (guard_found guard) }
{
    match guard {
        Guard::Differ(other) => Literal::Differ(index, other as u8),
        Guard::IsTrue(boolean) => Literal::IsTrue(boolean as u8),
        Guard::IsFalse(boolean) => Literal::IsFalse(boolean as u8),
    }
}

// "index of s equal to index of t (left out if both are one base number)"
fn opening(index: u8, later_index: u8, literals: &mut Literals)
    ensures { Opening index later_index literals.new }
{
    literals.clear();
    if index != later_index {
        literals.push(Literal::Equal(index, later_index));
    }
}

// "Literals, in order: index of s equal to index of t ..; along the path ..; A repeated literal stands once, at its first place. Last the
// conclusion: value of s equals value of t."
pub fn literals_of(
    tables: &Tables,
    x: u64,
    path: &[u8],
    one: u32,
    other: u32,
    literals: &mut Literals,
)
    requires { Walked (table_in tables.now) x path.now }
    ensures { LemmaOf (table_in tables.now) x path.now one other literals.new }
{
    let index = index_of(one) as u8;
    opening(index, index_of(other) as u8, literals);
    for &k in path {
        // Each edge of the path is open.
        let Some(edge) = tables.open(x, tables.edges[k as usize]) else {
            unreachable!()
        };
        literals.push_once(edge_literal(edge.guard, index));
    }
    literals.push(Literal::Conclusion(value_of(one) as u8, value_of(other) as u8));
}
