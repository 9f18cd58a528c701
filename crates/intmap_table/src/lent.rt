//! Values while they are lent one by one.
ghost use Rattle.std.specs.Prelude.{List};
ghost use base.Fml.{GName, ffalse, feq};
ghost use base.Stored.{coded×};
ghost use denote.RawPtr.{Ptr, coded_ptr};

use std::marker::{Model, Move, Owns, PhantomData};

/// Stands in the place of a value while the value is lent. A `&` to it shows where the value lies
/// and what it was. It has the layout of a struct whose one field is the value.
/// No `Hole` is ever made.
pub struct Hole<V> {
    value: V,
}

impl<V> Owns for Hole<V> {
    ghost Value = { Ptr × V };

    ghost coded = { coded× coded_ptr V.code };

    ghost shr_at = { λ hole place _. feq Ptr hole.0 place };
}

impl<V> Move for Hole<V> {
    ghost own_val = { λ _ _. ffalse };
}

/// The right to write values in separate places, each of which is taken once. Contracts see three
/// things: `loan`, the name of the loan of these values; `behind`, the name of the loan that the
/// owner of the values follows; and `cells`, which says of each value that is left, in order, where
/// it lies and what it was.
pub struct Lent<'a, V> {
    pub mark: PhantomData<&'a mut V>,
    ghost loan: { GName },
    ghost behind: { GName },
    ghost cells: { List (Ptr × V) },
}

impl<'a, V> Model for Lent<'a, V> {
    ghost use base.Fml.{ftrue};
    ghost use Rattle.intmap_table.specs.Apart.{lent_cells};

    ghost also_owns = { λ lent. lent_cells 'a V.row lent.loan lent.cells };

    ghost also_shares = { λ _ _ _. ftrue };
}

impl<V> Drop for Lent<'_, V> {
    fn drop(self) {
        let Self { mark: _ } = self;
    }
}

impl<'a, V> Lent<'a, V> {
    ghost use Rattle.std.specs.Prelude.{◌≡◌, List, ◌∷◌};
    ghost use denote.RawPtr.{Ptr};

    /// A mutable reference to the first of the values that are left. The hole shows where it lies.
    pub fn next_mut(&mut self, hole: &'a Hole<V>) -> &'a mut V
        requires { (rest : List (Ptr × V)) × (self.old.cells ≡ hole.now ∷ rest) }
        ensures { (result.now ≡ hole.now.1) × (self.old.cells ≡ hole.now ∷ self.new.cells) }
    {
        unsafe { &mut *(hole as *const Hole<V> as *mut V) }
    }
}
