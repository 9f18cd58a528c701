//! Three types of keys: the articles of a shop, with one field, the cells of a sheet, with two, and
//! how far rows are apart, with a sign.
#![tactic(auto)]

ghost use Rattle.std.specs.Prelude.{◌≡◌, ◌≢◌, ◌↔◌, ℕ, ◌<◌, IfErr, IfOk, IfSome, IsSome, OnOk, OnErr, Some};
ghost use Rattle.intmap.specs.Bindings.{value_of};
ghost use Rattle.intmap.specs.PlainLists.{RefusalIsDue, list_of};
ghost use Rattle.cells.specs.Cells.{IsCell, cell_number};

use intmap::{Cause, IntKey, IntMap};
use std::alloc::Allocator;
use std::marker::Model;

pub mod article;
pub mod offset;

/// How many columns a sheet has.
pub const WIDTH: u32 = 26;

/// A cell of a sheet, by its row and its column. Contracts see it as the pair of both.
#[derive(Clone, Copy, PartialEq, Eq, Debug)]
pub struct Cell {
    row: u32,
    column: u32,
}

impl Model for Cell {
    ghost use Rattle.std.specs.Prelude.{ℕ, ◌<◌};

    ghost Value = { ℕ × ℕ };

    ghost view = { λ cell. (cell.row, cell.column) };

    ghost inverse = { λ pair. record { row = pair.0; column = pair.1 } };

    ghost invariant = { λ cell. cell.column < 26 };
}

impl Cell {
    /// The cell, or `None` if the sheet has no such column.
    pub fn new(row: u32, column: u32) -> Option<Cell>
        ensures cell { IfSome result (λ cell. cell ≡ (row, column)) }
        ensures some { IsSome result ↔ (column < 26) }
    {
        if column < WIDTH {
            Some(Cell { row, column })
        } else {
            None
        }
    }
}

/// The number of a cell is its place if the sheet is read row by row.
impl IntKey for Cell {
    ghost use Rattle.std.proofs.Common.{arith};
    ghost use Rattle.std.proofs.lemmas.Grind.{common_steps};
    ghost use Rattle.std.proofs.lemmas.Bool.Decides.{nat_tests};
    ghost use Rattle.cells.specs.Cells.{IsCell, cell_number};

    ghost is_valid = { IsCell };

    ghost number_of = { cell_number };

    ghost number_injective = { λ x y x_is y_is equal. Prim.grind (arith, common_steps) };

    ghost eq_agrees = { λ x y x_is y_is. Prim.grind (arith, common_steps, nat_tests) };

    fn number(&self) -> u64 {
        self.row as u64 * WIDTH as u64 + self.column as u64
    }
}

/// Writes a value into the cell of a sheet, and returns the value that was there, if there was one.
///
/// It fails if the cell has no value, and there is no memory or the map would be too large. Each
/// cell then keeps its value.
pub fn write<V: Drop, A: Allocator + Copy>(
    sheet: &mut IntMap<Cell, V, A>,
    cell: Cell,
    value: V,
) -> Result<Option<V>, Cause>
    ensures before { IfOk result (λ before. before ≡ value_of cell_number sheet.old.walk cell) }
    ensures here { OnOk result (value_of cell_number sheet.new.walk cell ≡ Some value) }
    ensures others { (other : ℕ × ℕ) → IsCell other → other ≢ cell
        → value_of cell_number sheet.new.walk other ≡ value_of cell_number sheet.old.walk other }
    ensures refused { IfErr result (RefusalIsDue cell_number (list_of sheet.old) cell) }
    ensures err { OnErr result ((other : ℕ × ℕ)
        → value_of cell_number sheet.new.walk other ≡ value_of cell_number sheet.old.walk other) }
{
    Ok(sheet.insert(cell, value)?)
}
