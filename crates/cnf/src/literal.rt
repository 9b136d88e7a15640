// What one literal brings (01, The clauses): its place in the linking clause, and how many fresh variables and clauses it has.
ghost use Rattle.std.specs.Prelude.{◌≡◌, ℕ, ◌≤◌, length};
ghost use Rattle.paper.specs.Clauses.{gadget};
ghost use Rattle.lemma.specs.Rows.{literal_in};
ghost use Rattle.cnf.specs.Parts.{rank_number};

use lemma::Literal;

// The place of a literal in the linking clause: "each Boolean literal reversed, in lemma order, then all d, then all e".
#[derive(Clone, Copy, PartialEq, Eq)]
pub enum Rank {
    Boolean,
    Difference,
    Agreement,
}

// The parts of what a literal brings: its clauses, and its members of the linking clause, which stand there by their rank. An enum, by whose cases
// `part_of` is defined: a closure would need a contract for each.
#[derive(Clone, Copy)]
pub enum Part {
    Clauses,
    Links(Rank),
}

// "Boolean .. then all d, then all e"
pub fn rank_of(literal: Literal) -> Rank
    ensures { (w n : ℕ) → rank_number result ≡ (gadget w n (literal_in literal)).rank }
{
    match literal {
        Literal::IsTrue(_) | Literal::IsFalse(_) => Rank::Boolean,
        Literal::Equal(_, _) => Rank::Difference,
        Literal::Differ(_, _) | Literal::Conclusion(_, _) => Rank::Agreement,
    }
}

// How many fresh variables it has: "d for bits 0 to 31 if the lemma begins with 'equal', then one e for each ..".
pub fn freshes(literal: Literal, width: usize) -> usize
    requires { width ≤ 64 }
    ensures { ((n : ℕ) → result ≡ (gadget width n (literal_in literal)).freshes) × (result ≤ 64) }
{
    match literal {
        Literal::Equal(_, _) => width,
        Literal::IsTrue(_) | Literal::IsFalse(_) => 0,
        Literal::Differ(_, _) | Literal::Conclusion(_, _) => 1,
    }
}

// How many clauses it has: two for each bit, if it compares.
pub fn clause_count(literal: Literal, width: usize) -> usize
    requires { width ≤ 64 }
    ensures { ((n : ℕ) → result ≡ length (gadget width n (literal_in literal)).clauses) × (result ≤ 128) }
{
    match literal {
        Literal::IsTrue(_) | Literal::IsFalse(_) => 0,
        _ => 2 * width,
    }
}
