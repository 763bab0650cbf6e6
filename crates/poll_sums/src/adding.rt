// The sums of a poll, in sixths, those of the cells above the diagonal: what a record adds to them. The cells with its
// fourth leaf get their shares at once; those of its first three leaves are kept back, and given after the last record
// of these three. Three shares, or sums of them, stand in one number, ten bits each.
ghost use Rattle.std.specs.Prelude.{◌≡◌, ◌+◌, ◌*◌, ◌≤◌, ◌<◌, length};
ghost use Rattle.base.specs.Numbers.{indicator};
ghost use Rattle.limits.specs.Limits.{most_poll_cells, most_polled};
ghost use Rattle.trees.specs.Tables.{cell};
ghost use Rattle.poll_rules.specs.Counts.{cell_of, share, adds};
ghost use Rattle.poll_rules.specs.inner.Quartets.{record_of, Leaves, next_of};
ghost use Rattle.poll_sums.specs.inner.Sums.{together, dealt, with_fourth, of_three, Ready, Placed};
ghost use Rattle.poll_sums.specs.inner.Sums.{most_given, RoomFor, Grown, Added};

use crate::Cell;
use limits::MOST_POLL_CELLS;
use poll_records::{Due, begin, next};
use poll_rules::Quartet;

// The shares of the pairings 0, 1 and 2 in one number.
fn in_one(x: u32, y: u32, z: u32) -> u32
    requires { (x < 1024) × (y < 1024) × (z < 1024) }
    ensures { result ≡ together x y z }
{
    x + 1024 * y + 1048576 * z
}

// The shares of a code.
fn shares_of(code: u8) -> u32
    ensures { result ≡ together (share code 0) (share code 1) (share code 2) }
{
    match code {
        0 => in_one(6, 0, 0),
        1 => in_one(0, 6, 0),
        2 => in_one(0, 0, 6),
        3 => in_one(2, 2, 2),
        4 => in_one(3, 3, 0),
        5 => in_one(3, 0, 3),
        6 => in_one(0, 3, 3),
        _ => in_one(0, 0, 0),
    }
}

// Adds a share to a cell above the diagonal, which has room for it in 32 bits.
fn add_share(n: usize, to: Cell, share: u32, sums: &mut [u32; MOST_POLL_CELLS])
    requires { Placed n to × (n ≤ most_polled) × (length sums.old ≡ most_poll_cells)
        × (cell n sums.old to.row to.column + share < 4294967296) }
    ensures { (length sums.new ≡ most_poll_cells)
        × Grown n (λ x y. indicator (cell_of to.row to.column x y) share) sums.old sums.new }
{
    sums[to.at] += share;
}

// Deals the three numbers in w to three cells.
fn deal(n: usize, x: Cell, y: Cell, z: Cell, w: u32, sums: &mut [u32; MOST_POLL_CELLS])
    requires { Placed n x × Placed n y × Placed n z × (n ≤ most_polled)
        × (length sums.old ≡ most_poll_cells) × RoomFor n w sums.old }
    ensures { (length sums.new ≡ most_poll_cells)
        × Grown n (dealt x.row x.column y.row y.column z.row z.column w)
        sums.old sums.new }
{
    add_share(n, x, w % 1024, sums);
    add_share(n, y, w / 1024 % 1024, sums);
    add_share(n, z, w / 1048576, sums);
}

// Deals shares to the cells of the fourth leaf: with the third, the second and the first.
fn deal_with_fourth(n: usize, due: Due, w: u32, sums: &mut [u32; MOST_POLL_CELLS])
    requires { Leaves n due.quartet.a due.quartet.b due.quartet.c due.quartet.d × Ready n due
        × (n ≤ most_polled) × (length sums.old ≡ most_poll_cells) × RoomFor n w sums.old }
    ensures { (length sums.new ≡ most_poll_cells)
        × Grown n (with_fourth due.quartet w) sums.old sums.new }
{
    let Quartet { a, b, c, d } = due.quartet;
    let x = Cell {
        row: c,
        column: d,
        at: due.third + d,
    };
    let y = Cell {
        row: b,
        column: d,
        at: due.second + d,
    };
    let z = Cell {
        row: a,
        column: d,
        at: due.first + d,
    };
    deal(n, x, y, z, w, sums);
}

// Deals shares to the cells of the first three leaves: first with second, first with third, second with third.
fn deal_of_three(n: usize, due: Due, w: u32, sums: &mut [u32; MOST_POLL_CELLS])
    requires { Leaves n due.quartet.a due.quartet.b due.quartet.c due.quartet.d × Ready n due
        × (n ≤ most_polled) × (length sums.old ≡ most_poll_cells) × RoomFor n w sums.old }
    ensures { (length sums.new ≡ most_poll_cells)
        × Grown n (of_three due.quartet w) sums.old sums.new }
{
    let Quartet { a, b, c, .. } = due.quartet;
    let x = Cell {
        row: a,
        column: b,
        at: due.first + b,
    };
    let y = Cell {
        row: a,
        column: c,
        at: due.first + c,
    };
    let z = Cell {
        row: b,
        column: c,
        at: due.second + c,
    };
    deal(n, x, y, z, w, sums);
}

// Adds what the record of the quartet due adds with this pairing code, and says what is due next. For the crates above.
pub fn add_record(n: usize, due: Due, code: u8, sums: &mut [u32; MOST_POLL_CELLS]) -> Due
    requires { Leaves n due.quartet.a due.quartet.b due.quartet.c due.quartet.d × Ready n due
        × (n ≤ most_polled) × (length sums.old ≡ most_poll_cells) × RoomFor n most_given sums.old }
    ensures { (length sums.new ≡ most_poll_cells) × (result.quartet ≡ next_of n due.quartet) × Ready n result
        × Added n due result (adds (record_of due.quartet code)) sums.old sums.new }
{
    let q = due.quartet;
    let shares = shares_of(code);
    let kept = due.kept + shares;
    deal_with_fourth(n, due, shares, sums);
    if q.d + 1 < n {
        return Due {
            quartet: Quartet { d: q.d + 1, ..q },
            leaves: due.leaves + 16777216,
            kept,
            ..due
        };
    }
    deal_of_three(n, due, kept, sums);
    begin(n, next(n, q))
}
