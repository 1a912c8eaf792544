//! The table of hits by capacity.

use crate::hit_curve::HitCurve;
use crate::order::Order;
use crate::results::{Results, Row};
use crate::scale::Percentage;
use std::io;
use std::io::Write;

/// Percentages of the greatest hit ratio. A knee is the least capacity that reaches one of them.
pub const KNEES: [u64; 4] = [50, 80, 90, 95];

/// Writes the table: the rows, and the knees of the curve.
///
/// # Errors
///
/// The error of `out`.
pub fn write_table<O: Write>(results: &Results, out: &mut O) -> io::Result<()> {
    write_header(&results.orders, out)?;
    for row in &results.rows {
        write_row(row, &results.orders, results.curve.uses(), out)?;
    }
    write_knees(&results.curve, out)
}

fn write_header<O: Write>(orders: &[Order], out: &mut O) -> io::Result<()> {
    write!(
        out,
        "{:>20} {:>20} {:>9} {:>20}",
        "capacity", "hits", "hit ratio", "charge made"
    )?;
    for order in orders {
        write!(out, " {:>11} hits {:>9}", order.name(), "hit ratio")?;
    }
    writeln!(out)
}

fn write_row<O: Write>(row: &Row, orders: &[Order], uses: u64, out: &mut O) -> io::Result<()> {
    let points = basis_points(row.hits, uses);
    write!(
        out,
        "{:>20} {:>20} {:>5}.{:02}% {:>20}",
        row.capacity,
        row.hits,
        points / 100,
        points % 100,
        row.charge_made
    )?;
    for order in orders {
        if let Some(hits) = row.others.of(*order) {
            let points = basis_points(hits, uses);
            write!(out, " {hits:>16} {:>5}.{:02}%", points / 100, points % 100)?;
        }
    }
    writeln!(out)
}

fn basis_points(hits: u64, uses: u64) -> u64 {
    let ratio = Percentage {
        part: hits,
        whole: uses,
    };
    ratio.basis_points()
}

fn write_knees<O: Write>(curve: &HitCurve, out: &mut O) -> io::Result<()> {
    if curve.most_hits() == 0 {
        return writeln!(out, "no use hits at any capacity");
    }
    let greatest = Percentage {
        part: curve.most_hits(),
        whole: curve.uses(),
    };
    writeln!(
        out,
        "greatest hit ratio {greatest} from capacity {} on",
        curve.full_capacity()
    )?;
    for percent in KNEES {
        if let Some(capacity) = curve.knee(percent) {
            writeln!(out, "{percent}% of it from capacity {capacity} on")?;
        }
    }
    Ok(())
}
