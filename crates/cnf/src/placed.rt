// A literal at its place among the lemma's (01, The clauses): its clauses, and its members of the linking clause.
ghost use Rattle.std.specs.Prelude.{◌≡◌, ◌<◌, ◌≤◌, map};

use crate::literal::{Part, Rank, rank_of};
use crate::numbers::{Run, Sizes};
use lemma::Literal;

// A literal, with its first fresh variable counted from 0: a lemma has at most 49 literals, of at most 64 fresh variables each.
#[derive(Clone, Copy)]
pub struct Placed {
    pub literal: Literal,
    pub fresh: usize,
    ghost near: { fresh ≤ 3136 },
}

impl Placed {
    ghost use Rattle.paper.specs.Clauses.{agreeing};
    ghost use Rattle.cnf.specs.Parts.{Room, Wrote, numbers_of, closed, bit_clauses, bit_numbers, differences, gadget_of, part_of};

    // "For each e with its two terms v w, each bit: (not v, w, not e), (v, not w, not e)".
    fn agreeing(self, sizes: Sizes, v: u8, w: u8, bit: usize) -> [[i32; 4]; 2]
        requires { bit < sizes.width }
        ensures { result ≡ map (closed sizes) (agreeing v w self.fresh bit) }
    {
        let v = sizes.variable(v as usize, bit);
        let w = sizes.variable(w as usize, bit);
        let e = sizes.fresh_variable(self.fresh);
        [[-v, w, -e, 0], [v, -w, -e, 0]]
    }

    // The two clauses of a bit, closed by 0. "For 'equal i j', each bit: (i, j, not d), (not i, not j, not d)". Of a Boolean nobody asks.
    pub fn bit_clauses(self, sizes: Sizes, bit: usize) -> [[i32; 4]; 2]
        requires { bit < sizes.width }
        ensures { result ≡ map (closed sizes) (bit_clauses self bit) }
    {
        match self.literal {
            Literal::Equal(i, j) => {
                let i = sizes.variable(i as usize, bit);
                let j = sizes.variable(j as usize, bit);
                let d = sizes.fresh_variable(self.fresh + bit);
                [[i, j, -d, 0], [-i, -j, -d, 0]]
            }
            Literal::Differ(v, w) | Literal::Conclusion(v, w) => self.agreeing(sizes, v, w, bit),
            Literal::IsTrue(m) | Literal::IsFalse(m) => self.agreeing(sizes, m, 0, bit),
        }
    }

    // The clauses of a literal that compares, bit by bit.
    pub fn put_bits(self, sizes: Sizes, run: &mut Run)
        requires { Room run.old (bit_numbers sizes self) }
        ensures { Wrote run.old run.new (bit_numbers sizes self) }
    {
        // A run of its own for the loop, whose place stays in a register: it is four times as fast.
        let mut here = Run {
            numbers: &mut *run.numbers,
            at: run.at,
        };
        for bit in 0..sizes.width {
            let [one, other] = self.bit_clauses(sizes, bit);
            here.put(&one);
            here.put(&other);
        }
        run.at = here.at;
    }

    // "all d": the fresh variables of an "equal".
    pub fn put_differences(self, sizes: Sizes, run: &mut Run)
        requires { Room run.old (differences sizes self.fresh) }
        ensures { Wrote run.old run.new (differences sizes self.fresh) }
    {
        for k in 0..sizes.width {
            run.put(&[sizes.fresh_variable(self.fresh + k)]);
        }
    }

    // What a literal puts into the linking clause: "each Boolean literal reversed .. all d .. all e".
    pub fn put_link(self, sizes: Sizes, run: &mut Run)
        requires { Room run.old (numbers_of sizes (gadget_of sizes.width self).link) }
        ensures { Wrote run.old run.new (numbers_of sizes (gadget_of sizes.width self).link) }
    {
        match self.literal {
            Literal::Equal(_, _) => self.put_differences(sizes, run),
            Literal::IsTrue(m) => run.put(&[-sizes.variable(sizes.bases, m as usize)]),
            Literal::IsFalse(m) => run.put(&[sizes.variable(sizes.bases, m as usize)]),
            Literal::Differ(_, _) | Literal::Conclusion(_, _) => {
                run.put(&[sizes.fresh_variable(self.fresh)])
            }
        }
    }

    // One part of what a literal brings: its clauses, or its link if that is of the rank asked for.
    pub fn put_part(self, sizes: Sizes, part: Part, run: &mut Run)
        requires { Room run.old (part_of sizes part (gadget_of sizes.width self)) }
        ensures { Wrote run.old run.new (part_of sizes part (gadget_of sizes.width self)) }
    {
        let rank = rank_of(self.literal);
        match part {
            Part::Clauses => {
                if rank != Rank::Boolean {
                    self.put_bits(sizes, run);
                }
            }
            Part::Links(asked) => {
                if rank == asked {
                    self.put_link(sizes, run);
                }
            }
        }
    }
}
