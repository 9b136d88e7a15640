// Fixed numbers in a lemma (02, E1): what a literal says of two of them every interpretation says, and so it is left out.
ghost use Rattle.std.specs.Prelude.{◌≡◌, ◌&&◌, ◌<◌};
ghost use Rattle.paper.specs.Sizes.{max_bases};
ghost use Rattle.paper.specs.Lemma.{left_out};
ghost use Rattle.terms.specs.Tables.{fixed_in};
ghost use Rattle.lemma.specs.Rows.{literal_in};
ghost use Rattle.lemma.specs.Fixed.{Kept};

use crate::rows::{Literal, Literals};
use terms::Tables;

fn both_fixed(tables: &Tables, one: usize, other: usize) -> bool
    requires { (one < max_bases) × (other < max_bases) }
    ensures { result ≡ (fixed_in tables.now.reads one && fixed_in tables.now.reads other) }
{
    tables.is_fixed(one) && tables.is_fixed(other)
}

// "An "equal" or "differ" between two fixed numbers is left out of the lemma; a conclusion always stays."
fn left_out(tables: &Tables, literal: Literal) -> bool
    ensures { result ≡ left_out (fixed_in tables.now.reads) (literal_in literal) }
{
    match literal {
        Literal::Equal(i, j) | Literal::Differ(i, j) => both_fixed(tables, i as usize, j as usize),
        Literal::IsTrue(_) | Literal::IsFalse(_) | Literal::Conclusion(_, _) => false,
    }
}

// Leaves out of the literals those that do not stay.
pub fn leave_out(tables: &Tables, literals: &mut Literals)
    ensures { Kept tables.now.reads literals.old literals.new }
{
    literals.retain(|literal| !left_out(tables, literal));
}
