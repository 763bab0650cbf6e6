// The cells of a table, and the searches for one that is wrong: refusals 4 and 5.
ghost use Rattle.std.specs.Prelude.{◌≡◌, true, ◌+◌, ◌*◌, ◌≤◌, ◌<◌, MatchOption};
ghost use Rattle.std.proofs.Math.Option.{none, some};
ghost use Rattle.refusals.specs.Refusals.{outcome_of};
ghost use Rattle.trees.specs.Tables.{cell, first_filled, first_unequal, cells_refusal};
ghost use Rattle.table_checks.specs.inner.Searches.{Square, unequal_from, FourAgree, halves_refusal};

use refusals::Refusal;

// A table of n leaves that has as many cells as are due.
#[derive(Clone, Copy)]
pub(crate) struct Table<'a> {
    pub(crate) n: usize,
    pub(crate) cells: &'a [u32],
    ghost square: { Square n cells.now },
}

impl<'a> Table<'a> {
    // Cell (i, j).
    fn cell(self, i: usize, j: usize) -> u32
        requires { (i < self.n) × (j < self.n) }
        ensures { result ≡ cell self.entry.n self.entry.cells.now i j }
    {
        self.cells[i * self.n + j]
    }

    // The first leaf whose diagonal cell is not 0.
    fn filled(self) -> Option<usize>
        ensures { MatchOption result (first_filled self.entry.n self.entry.cells.now ≡ none)
            (λ i. first_filled self.entry.n self.entry.cells.now ≡ some i) }
    {
        for i in 0..self.n {
            if self.cell(i, i) != 0 {
                return Some(i);
            }
        }
        None
    }

    // The first j after i whose cell (i, j) differs from (j, i); where there is none, the search goes on in the row
    // after it.
    fn unequal_in_row(self, i: usize) -> Option<usize>
        requires { i < self.n }
        ensures { let n = self.entry.n in let t = self.entry.cells.now in
            MatchOption result (unequal_from n t (i * n) ≡ unequal_from n t ((i + 1) * n))
            (λ j. unequal_from n t (i * n) ≡ some (i, j)) }
    {
        for j in i + 1..self.n {
            if self.cell(i, j) != self.cell(j, i) {
                return Some(j);
            }
        }
        None
    }

    // 1 where cell (i, j) equals its mirror cell, else 0.
    fn agrees(self, i: usize, j: usize) -> u32
        requires { (i < self.n) × (j < self.n) }
        ensures { let n = self.entry.n in let t = self.entry.cells.now in
            (result ≤ 1) × (result ≡ 1 → cell n t j i ≡ cell n t i j) }
    {
        u32::from(self.cell(j, i) == self.cell(i, j))
    }

    // How many of the cells of leaf j with the four leaves from i on equal their mirror cells.
    fn count_agreeing(self, i: usize, j: usize) -> u32
        requires { (i + 3 < self.n) × (j < self.n) }
        ensures { (result ≤ 4) × (result ≡ 4 → FourAgree self.entry.n self.entry.cells.now i j) }
    {
        self.agrees(i, j) + self.agrees(i + 1, j) + self.agrees(i + 2, j) + self.agrees(i + 3, j)
    }

    // Whether no cell of the four rows from i on differs from its mirror cell: these lie side by side, so that they are
    // compared row by row of the table. All are gone through, so that there is no branch on a cell.
    fn four_rows_agree(self, i: usize) -> bool
        requires { i + 3 < self.n }
        ensures { let n = self.entry.n in let t = self.entry.cells.now in
            result ≡ true → unequal_from n t (i * n) ≡ unequal_from n t ((i + 4) * n) }
    {
        let mut right: u32 = 0;
        for leaf in i + 1..self.n {
            right += self.count_agreeing(i, leaf);
        }
        right as usize == 4 * (self.n - (i + 1))
    }

    // So many rows from the first on have no cell that differs from its mirror cell, or more: four and four are looked
    // at.
    fn agreeing_rows(self) -> usize
        ensures { let n = self.entry.n in let t = self.entry.cells.now in
            (result ≤ n) × (first_unequal n t ≡ unequal_from n t (result * n)) }
    {
        let fours = self.n / 4;
        for k in 0..fours {
            if !self.four_rows_agree(4 * k) {
                return 4 * k;
            }
        }
        4 * fours
    }

    // The refusal of the first unequal pair, row by row.
    fn unequal(self) -> Result<(), Refusal>
        ensures { result ≡ outcome_of (halves_refusal (first_unequal self.entry.n self.entry.cells.now)) }
    {
        for i in self.agreeing_rows()..self.n {
            if let Some(j) = self.unequal_in_row(i) {
                return Err(Refusal::Halves(i, j));
            }
        }
        Ok(())
    }

    // The checks 4 and 5: the whole diagonal is judged before the halves.
    pub(crate) fn wrong(self) -> Result<(), Refusal>
        ensures { result ≡ outcome_of (cells_refusal self.entry.n self.entry.cells.now) }
    {
        if let Some(i) = self.filled() {
            return Err(Refusal::Diagonal(i));
        }
        self.unequal()
    }
}
