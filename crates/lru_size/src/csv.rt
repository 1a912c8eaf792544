//! The curve as CSV, for other programs.

use crate::order::{Order, OtherHits};
use crate::results::{Results, Row, evenly_spaced};
use std::alloc::Global;
use std::io;
use std::io::Write;

// The maximum number of rows if the capacities are evenly spaced.
const ROWS: u64 = 1_000;

/// Writes the curve as CSV: a header, and a row for each of up to 1,000 evenly spaced capacities.
/// If there are other orders, the rows are those of the table, since each takes a replay.
///
/// # Errors
///
/// The error of `out`, or one of the kind `OutOfMemory` if memory runs out.
pub fn write_csv<O: Write>(alloc: Global, results: &Results, out: &mut O) -> io::Result<()> {
    let Results { curve, orders, .. } = results;
    write_header(orders, out)?;
    if !orders.is_empty() {
        for row in &results.rows {
            write_row(row, orders, curve.uses(), out)?;
        }
        return Ok(());
    }
    for capacity in &evenly_spaced(alloc, curve, ROWS)? {
        let row = Row::new(curve, *capacity, OtherHits::default());
        write_row(&row, orders, curve.uses(), out)?;
    }
    Ok(())
}

fn write_header<O: Write>(orders: &[Order], out: &mut O) -> io::Result<()> {
    write!(out, "capacity,uses,hits,charge_made")?;
    for order in orders {
        write!(out, ",{}_hits", order.name())?;
    }
    writeln!(out)
}

fn write_row<O: Write>(row: &Row, orders: &[Order], uses: u64, out: &mut O) -> io::Result<()> {
    write!(
        out,
        "{},{uses},{},{}",
        row.capacity, row.hits, row.charge_made
    )?;
    for order in orders {
        if let Some(hits) = row.others.of(*order) {
            write!(out, ",{hits}")?;
        }
    }
    writeln!(out)
}
