ghost use Rattle.std.specs.Prelude.{◌≡◌, true, Bool, IfSome, IfNone};
ghost use Rattle.std.specs.FinSet as set;

use ft_cells::Cell;

/// A record of which cells are locked and which were released. The place of a locked cell must be
/// kept.
pub trait Keeps {
    ghost use Rattle.ft_cells.specs.declared.cell.Cell.{Cell};
    ghost use Rattle.ft_tree.specs.Sweep.{ReleasedCells};

    /// Whether a cell is kept.
    ghost kept: { Self → Cell → Bool };

    /// The cells that were released and not yet taken out.
    ghost released_cells: { Self → ReleasedCells };

    /// The state after all released cells were taken out.
    ghost all_told: { Self → Self };

    /// Returns whether the cell is kept.
    fn keeps(&self, cell: &Cell) -> bool
        ensures { result ≡ kept self.now cell.now };

    /// Removes a released cell, if there is one, and returns it, so that each is reported once. The
    /// kept cells do not change.
    fn take_released(&mut self) -> Option<Cell>
        ensures cell { IfSome result (λ cell. set.contains (released_cells self.old) cell ≡ true) }
        ensures taken { IfSome result
            (λ cell. released_cells self.new ≡ set.remove (released_cells self.old) cell) }
        ensures kept { kept self.new ≡ kept self.old }
        ensures told { all_told self.new ≡ all_told self.old }
        ensures none { IfNone result ((released_cells self.old ≡ set.empty)
            × (all_told self.old ≡ self.old) × (self.new ≡ self.old)) };
}
