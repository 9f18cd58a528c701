//! Tables of a caller's own: structs around one map or two.
ghost use Rattle.std.specs.Prelude.{◌+◌, ◌<◌, ◌↔◌, ◌≡◌, ◌≤◌, IfErr, IfOk, IfSome, IsErrAnd, IsSome, None, Ok, OnErr, OnOk, Some, ℕ, length, option_copied};
ghost use Rattle.intmap.specs.Bindings.{Updates};
ghost use Rattle.intmap.specs.Unsigned.{value_at};
ghost use Rattle.callers.specs.Bindings.{AllStay, OthersStay};
ghost use Rattle.callers.specs.Tables.{AreInverse, GivesBack, IsTaken};

use intmap::steps::Steps;
use intmap::{Cause, IntMap, Refused, laws};
use std::alloc::{Allocator, Global};
use std::marker::Model;

// Values by id. Each id is given once.

/// A table of values by id. Contracts see it as a list of pairs and read that list by `value_at`,
/// which is `None` at an id without a value.
#[derive(Drop)]
pub struct IdTable<V, A: Allocator + Copy = Global> {
    values: IntMap<u64, V, A>,
}

impl<V, A: Allocator + Copy> Model for IdTable<V, A> {
    ghost use Rattle.std.specs.Prelude.{ℕ, List};

    ghost Value = { List (ℕ × V) };

    ghost view = { λ table. table.values.walk };
}

/// Why a value was not added, with the value.
#[derive(Drop)]
pub enum NotAdded<V> {
    /// The id has a value already.
    Taken(V),
    /// The insertion of the new id failed.
    Refused(Refused<V>),
}

impl<V: Drop, A: Allocator + Copy> IdTable<V, A> {
    /// A table without values. It fails if an allocation fails.
    pub fn new(alloc: A) -> Result<IdTable<V, A>, Cause>
        ensures { IfOk result (λ table. (id : ℕ) → value_at table id ≡ None) }
    {
        Ok(IdTable {
            values: IntMap::new(alloc)?,
        })
    }

    /// The value of an id.
    pub fn find(&self, id: u64) -> Option<&V>
        ensures { option_copied result ≡ value_at self.now id }
    {
        self.values.get(id)
    }

    /// Gives a new id its value. If the id has a value, it keeps that value.
    ///
    /// It fails if the id has a value, or if the insertion of a new id fails, and returns the given
    /// value. Every id then keeps its value.
    pub fn add(&mut self, id: u64, value: V) -> Result<(), NotAdded<V>>
        ensures here { OnOk result (value_at self.new id ≡ Some value) }
        ensures others { OthersStay self.old self.new id }
        ensures len { OnOk result (length self.new ≡ length self.old + 1) }
        ensures taken { IsErrAnd result IsTaken ↔ IsSome (value_at self.old id) }
        ensures value_returned { IfErr result (GivesBack value) }
        ensures err { OnErr result (AllStay self.old self.new) }
    {
        if self.values.get(id).is_some() {
            return Err(NotAdded::Taken(value));
        }
        match self.values.insert(id, value) {
            Ok(_) => Ok(()),
            Err(refused) => Err(NotAdded::Refused(refused)),
        }
    }

    /// Replaces the value of an id, and returns the value before.
    ///
    /// It fails if the id has no value, and returns the given one. Every id then keeps its value.
    pub fn replace(&mut self, id: u64, value: V) -> Result<V, V>
        ensures before { IfOk result (λ before. value_at self.old id ≡ Some before) }
        ensures here { OnOk result (value_at self.new id ≡ Some value) }
        ensures others { OthersStay self.old self.new id }
        ensures missing { OnErr result (value_at self.old id ≡ None) }
        ensures value_returned { IfErr result (λ returned. returned ≡ value) }
        ensures err { OnErr result (AllStay self.old self.new) }
    {
        if self.values.get(id).is_none() {
            return Err(value);
        }
        match self.values.insert(id, value) {
            Ok(Some(before)) => Ok(before),
            Ok(None) => unreachable!(),
            Err(_) => unreachable!(),
        }
    }

    /// Removes an id, and returns its value.
    pub fn forget(&mut self, id: u64) -> Option<V>
        ensures value { result ≡ value_at self.old id }
        ensures here { value_at self.new id ≡ None }
        ensures others { OthersStay self.old self.new id }
    {
        self.values.remove(id)
    }
}

// Values by the numbers from 0 up, which are handed out in order.

/// A table that gives each value the next number, from 0 up. Each number always has a slot to
/// itself, so a look-up compares at most one number. Contracts see the table as a list of pairs and
/// read that list by `value_at`, which is `None` at a number that wasn't handed out.
#[derive(Drop)]
pub struct Dense<V, A: Allocator + Copy = Global> {
    values: IntMap<u64, V, A>,
}

impl<V, A: Allocator + Copy> Model for Dense<V, A> {
    ghost use Rattle.std.specs.Prelude.{ℕ, List};
    ghost use Rattle.callers.specs.Tables.{IsDense};

    ghost Value = { List (ℕ × V) };

    ghost view = { λ table. table.values.walk };

    ghost invariant = { λ table. IsDense table.values.walk table.values.capacity };
}

impl<V: Drop, A: Allocator + Copy> Dense<V, A> {
    /// A table without values.
    ///
    /// It fails if an allocation fails, or if `capacity` is above 2^63.
    pub fn with_capacity(alloc: A, capacity: usize) -> Result<Dense<V, A>, Cause>
        ensures { IfOk result (λ table. length table ≡ 0) }
    {
        Ok(Dense {
            values: IntMap::with_capacity(alloc, capacity)?,
        })
    }

    /// Gives the value the next number, and returns that number.
    ///
    /// It fails if there is no memory, or if the table would need more than 2^63 slots, and returns
    /// the value. Each number then keeps its value.
    pub fn add(&mut self, value: V) -> Result<u64, Refused<V>>
        ensures next { IfOk result (λ number. number ≡ length self.old) }
        ensures len { OnOk result (length self.new ≡ length self.old + 1) }
        ensures here { OnOk result (value_at self.new (length self.old) ≡ Some value) }
        ensures others { OthersStay self.old self.new (length self.old) }
        ensures value_returned { IfErr result (λ refused. refused.value ≡ value) }
        ensures err { OnErr result (AllStay self.old self.new) }
        ensures err_len { OnErr result (length self.new ≡ length self.old) }
    {
        laws::insertions_keep_capacity::<u64, V>();
        laws::present_keys_are_below::<u64, V>();
        if let Err(cause) = self.values.reserve(1) {
            return Err(Refused { value, cause });
        }
        let number = self.values.len() as u64;
        match self.values.insert(number, value) {
            Ok(_) => Ok(number),
            Err(refused) => Err(refused),
        }
    }

    /// The value of a number. It is looked up with at most one comparison, which is counted in
    /// `steps`.
    pub fn find(&self, number: u64, steps: &mut Steps) -> Option<&V>
        ensures value { option_copied result ≡ value_at self.now number }
        ensures given { IsSome result ↔ (number < length self.now) }
        ensures counted { steps.new ≤ steps.old + 1 }
    {
        laws::small_keys_are_found_at_once::<u64, V>();
        self.values.get_counted(number, steps)
    }

    /// The number of slots that hold a value. It is the number of values, since each value has a
    /// slot to itself.
    pub fn slots_in_use(&self) -> u64
        ensures { result ≡ length self.now }
    {
        laws::small_keys_fill_slots::<u64, V>();
        self.values.load()
    }

    /// How many numbers were handed out.
    pub fn len(&self) -> usize
        ensures { result ≡ length self.now }
    {
        self.values.len()
    }
}

// Ids of codes, handed out from 0 up, over two maps: from codes to ids, and from ids to codes.

/// Codes with ids. The two maps are inverse to each other, and the ids are the numbers below their
/// count. Contracts see two lists of pairs, and read them by `value_at`.
#[derive(Drop)]
pub struct Interner<A: Allocator + Copy = Global> {
    ids: IntMap<u64, u64, A>,
    codes: IntMap<u64, u64, A>,
    ghost inverse: { AreInverse (value_at ids.walk) (value_at codes.walk) (length codes.walk) },
}

impl<A: Allocator + Copy> Model for Interner<A> {
    ghost use Rattle.callers.specs.Tables.{Interned};

    ghost Value = { Interned };

    ghost view = { λ it. record { ids = it.ids.walk; codes = it.codes.walk } };
}

/// Gives a code without an id the next id, and inserts both ways.
///
/// It fails if an insertion fails. Both maps then have the same bindings as before.
fn bind_both<A: Allocator + Copy>(
    ids: &mut IntMap<u64, u64, A>,
    codes: &mut IntMap<u64, u64, A>,
    code: u64,
) -> Result<u64, Cause>
    requires next { value_at codes.old.walk (length codes.old.walk) ≡ None }
    ensures id { IfOk result (λ id. id ≡ length codes.old.walk) }
    ensures ids { IfOk result (λ id.
        Updates (λ key. key) ids.old.walk ids.new.walk code (Some id)) }
    ensures codes { IfOk result (λ id.
        Updates (λ key. key) codes.old.walk codes.new.walk id (Some code)) }
    ensures len { OnOk result (length codes.new.walk ≡ length codes.old.walk + 1) }
    ensures ids_stay { OnErr result (AllStay ids.old.walk ids.new.walk) }
    ensures codes_stay { OnErr result (AllStay codes.old.walk codes.new.walk) }
    ensures len_stays { OnErr result (length codes.new.walk ≡ length codes.old.walk) }
{
    let id = codes.len() as u64;
    codes.insert(id, code)?;
    if let Err(refused) = ids.insert(code, id) {
        codes.remove(id);
        return Err(refused.cause);
    }
    Ok(id)
}

impl<A: Allocator + Copy> Interner<A> {
    /// An interner without codes. It fails if an allocation fails.
    pub fn new(alloc: A) -> Result<Interner<A>, Cause>
        ensures { IfOk result (λ made. (code : ℕ) → value_at made.ids code ≡ None) }
    {
        Ok(Interner {
            ids: IntMap::new(alloc)?,
            codes: IntMap::new(alloc)?,
        })
    }

    /// The id of the code: the one that it has already, or otherwise the next. No other code gets
    /// an id.
    ///
    /// It fails if the insertion of a new pair fails. Every code then keeps its id, and every id
    /// its code.
    pub fn id_of(&mut self, code: u64) -> Result<u64, Cause>
        ensures here { IfOk result (λ id. value_at self.new.ids code ≡ Some id) }
        ensures known { IfSome (value_at self.old.ids code) (λ id. result ≡ Ok id) }
        ensures next { value_at self.old.ids code ≡ None
            → IfOk result (λ id. id ≡ length self.old.codes) }
        ensures others { OthersStay self.old.ids self.new.ids code }
        ensures kept { (q id : ℕ) → value_at self.old.ids q ≡ Some id
            → value_at self.new.ids q ≡ Some id }
        ensures ids_stay { OnErr result (AllStay self.old.ids self.new.ids) }
        ensures codes_stay { OnErr result (AllStay self.old.codes self.new.codes) }
    {
        if let Some(id) = self.ids.get(code) {
            return Ok(*id);
        }
        bind_both(&mut self.ids, &mut self.codes, code)
    }

    /// The code of the id, if it was handed out.
    pub fn code_of(&self, id: u64) -> Option<u64>
        ensures { result ≡ value_at self.now.codes id }
    {
        self.codes.get(id).copied()
    }
}
