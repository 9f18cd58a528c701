//! A type of keys with a sign: rows above and below another one.

ghost use Rattle.std.specs.Prelude.{◌≡◌};

use intmap::IntKey;
use std::marker::Model;

/// How many rows one row lies under another. The number is negative if the row lies above.
/// Contracts see an integer.
#[derive(Clone, Copy, PartialEq, Eq, Debug)]
pub struct Offset {
    rows: i64,
}

impl Model for Offset {
    ghost use Rattle.std.specs.Prelude.{ℤ};

    ghost Value = { ℤ };

    ghost view = { λ offset. offset.rows };

    ghost inverse = { λ rows. record { rows = rows } };
}

impl Offset {
    /// The offset of `rows` rows.
    pub fn new(rows: i64) -> Offset
        ensures offset { result ≡ rows }
    {
        Offset { rows }
    }
}

/// An offset below zero has the number that is `2 ^ 64` more, any other is its own number.
impl IntKey for Offset {
    ghost use Rattle.std.specs.Prelude.{FitsSigned};
    ghost use Rattle.std.specs.Int.{w64};
    ghost use Rattle.std.proofs.Common.{arith};
    ghost use Rattle.std.proofs.lemmas.Int.{ints};
    ghost use Rattle.std.proofs.lemmas.Bool.Decides.{nat_tests};
    ghost use Rattle.cells.specs.Cells.{offset_number};

    ghost is_valid = { FitsSigned w64 };

    ghost number_of = { offset_number };

    ghost number_injective = { λ x y x_is y_is equal. Prim.grind (arith, ints) };

    ghost eq_agrees = { λ x y x_is y_is. Prim.grind (arith, ints, nat_tests) };

    fn number(&self) -> u64 {
        self.rows.cast_unsigned()
    }
}
