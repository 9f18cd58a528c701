//! A type of keys of one field, which is its number.

ghost use Rattle.std.specs.Prelude.{◌^◌, ◌<◌, refl};
ghost use Rattle.std.proofs.Common.{ap};
ghost use Rattle.std.specs.Prelude.{◌≡◌, IfOk, Some};

use intmap::{Cause, IntKey, IntMap};
use std::alloc::Global;

/// An article of a shop. Its number is its key.
#[derive(Clone, Copy, PartialEq, Eq)]
struct Article {
    number: u32,
}

impl IntKey for Article {
    ghost is_valid = { λ article. article.number < 2 ^ 32 };

    ghost number_of = { λ article. article.number };

    ghost number_injective = { λ x y x_is_valid y_is_valid equal.
        ap (λ number. record x { number = number }) equal };

    ghost eq_agrees = { λ x y x_is_valid y_is_valid. refl };

    fn number(&self) -> u64 {
        self.number as u64
    }
}

/// Notes the price of an article in a map of its own, and returns the price that the map then has.
///
/// It fails if there is no memory.
pub fn noted_price(alloc: Global, number: u32, price: u64) -> Result<Option<u64>, Cause>
    ensures { IfOk result (λ noted. noted ≡ Some price) }
{
    let prices = IntMap::from_array(alloc, [(Article { number }, price)])?;
    Ok(prices.get(Article { number }).copied())
}
