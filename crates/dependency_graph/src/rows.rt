//! For each task, the callbacks that wait for it.

ghost use Rattle.std.specs.Prelude.{◌≡◌, ◌<◌, length, OnOk};
ghost use Rattle.dependency_graph.specs.Callbacks.{AreDistinctNumbers, AreBelow};
ghost use Rattle.dependency_graph.specs.Rows.{rows_of, pushed_at, pushed, RowHasRoom, RowsHaveRoom, KeepsRoom, KeepsOthers};

use std::alloc::AllocError;

/// Makes room for one more in the row of each of these tasks.
pub fn reserve_each(rows: &mut Vec<Vec<usize>>, tasks: &[usize]) -> Result<(), AllocError>
    requires { AreBelow (length rows.old.items) tasks.now }
    ensures same { rows_of rows.new.items ≡ rows_of rows.old.items }
    ensures room { OnOk result (RowsHaveRoom rows.new.items tasks.now) }
{
    for &n in tasks {
        reserve_one(rows, n)?;
    }
    Ok(())
}

fn reserve_one(rows: &mut Vec<Vec<usize>>, n: usize) -> Result<(), AllocError>
    requires { n < length rows.old.items }
    ensures same { rows_of rows.new.items ≡ rows_of rows.old.items }
    ensures keeps { KeepsRoom rows.old.items rows.new.items }
    ensures room { OnOk result (RowHasRoom rows.new.items n) }
{
    rows[n].reserve(1)?;
    Ok(())
}

/// Puts the callback behind the row of each of these tasks.
pub fn push_each(rows: &mut Vec<Vec<usize>>, tasks: &[usize], c: usize)
    requires distinct { AreDistinctNumbers tasks.now }
    requires room { RowsHaveRoom rows.old.items tasks.now }
    ensures { rows_of rows.new.items ≡ pushed tasks.now c (rows_of rows.old.items) }
{
    for &n in tasks {
        push_one(rows, n, c);
    }
}

fn push_one(rows: &mut Vec<Vec<usize>>, n: usize, c: usize)
    requires { RowHasRoom rows.old.items n }
    ensures pushed { rows_of rows.new.items ≡ pushed_at (rows_of rows.old.items) n c }
    ensures keeps { KeepsOthers rows.old.items rows.new.items n }
{
    rows[n].push_reserved(c);
}
