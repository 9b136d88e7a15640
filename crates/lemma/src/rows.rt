// A literal of the lemma, and the list of a lemma's literals.
ghost use Rattle.std.specs.Prelude.{◌≡◌, ◌<◌, Bool, [], ◌∷◌, ◌++◌, length, filter};
ghost use Rattle.paper.specs.Sizes.{max_literals};
ghost use Rattle.lemma.specs.declared.rows.Literal.{Literal};
ghost use Rattle.lemma.specs.Literals.{once};

use paper::MAX_LITERALS;
use std::marker::Model;

// A literal (01, The lemma), with its one or two term numbers: "equal", "differ", "true", "false" and the conclusion.
#[derive(Clone, Copy, Debug, PartialEq, Eq)]
pub enum Literal {
    Equal(u8, u8),
    Differ(u8, u8),
    IsTrue(u8),
    IsFalse(u8),
    Conclusion(u8, u8),
}

// "At most 49 literals", in order.
#[derive(Drop)]
pub struct Literals {
    rows: [Literal; MAX_LITERALS],
    count: usize,
}

impl Model for Literals {
    ghost use Rattle.std.specs.Prelude.{◌≤◌, List, take};
    ghost use Rattle.paper.specs.Sizes.{max_literals};
    ghost use Rattle.lemma.specs.declared.rows.Literal.{Literal};

    ghost Value = { List Literal };

    ghost view = { λ a. take a.count a.rows };

    ghost invariant = { λ a. a.count ≤ max_literals };
}

impl Literals {
    // No literals. Who owns a list makes it of the constant, where it stands: what `new` returns is copied there.
    pub const EMPTY: Literals = Literals {
        rows: [Literal::IsTrue(0); MAX_LITERALS],
        count: 0,
    };

    pub fn new() -> Self
        ensures { result ≡ [] }
    {
        Literals::EMPTY
    }

    pub fn rows(&self) -> &[Literal]
        ensures { result.now ≡ self.now }
    {
        &self.rows[..self.count]
    }

    pub fn clear(&mut self)
        ensures { self.new ≡ [] }
    {
        self.count = 0;
    }

    pub fn push(&mut self, literal: Literal)
        requires { length self.old < max_literals }
        ensures { self.new ≡ self.old ++ literal ∷ [] }
    {
        self.rows[self.count] = literal;
        self.count += 1;
    }

    // "A repeated literal stands once, at its first place": puts a new one at the end.
    pub fn push_once(&mut self, literal: Literal)
        requires { length self.old < max_literals }
        ensures { self.new ≡ once self.old literal }
    {
        let stands = self.rows().contains(&literal);
        if !stands {
            self.push(literal);
        }
    }

    // Keeps those that pass the test, where they stand in order. By the number, since one that is kept moves to a place before it in the same array.
    pub fn retain<F: Fn(Literal) -> bool>(&mut self, stays: F)
        requires { F.IsAlwaysCallable stays }
        ensures { (test : Literal → Bool) → ((row : Literal) (b : Bool) → F.post stays row b → b ≡ test row) → self.new ≡ filter test self.old }
    {
        let mut kept = 0;
        for k in 0..self.count {
            let row = self.rows[k];
            if stays(row) {
                self.rows[kept] = row;
                kept += 1;
            }
        }
        self.count = kept;
    }
}
