//! The curve as an SVG image that is legible on light and on dark pages.
//! Lengths are in tenths of a pixel, so that they are integers.

use crate::hit_curve::HitCurve;
use crate::order::Order;
use crate::results::Results;
use crate::scale::{Percentage, digits, fraction, round_step};
use crate::table::KNEES;
use std::alloc::{AllocError, Global};
use std::io;
use std::io::Write;

// The edges of the area between the axes.
const LEFT: u64 = 800;

const RIGHT: u64 = 7_700;

const TOP: u64 = 700;

const BOTTOM: u64 = 3_700;

const WIDTH: u64 = RIGHT - LEFT;

const HEIGHT: u64 = BOTTOM - TOP;

// The right end that no label goes beyond.
const EDGE: u64 = 7_960;

// An upper bound on the width of a character of a label, in any common font.
const CHARACTER: u64 = 85;

// The minimum space between two labels of the x axis.
const GAP: u64 = 150;

// The number of points of the curve, one for each pixel of its width.
const POINTS: u64 = 690;

// The number of rows of the grid.
const GRID_ROWS: u64 = 5;

// The start of the image: its size, its colors and its background.
const HEAD: &str =
    "<svg xmlns='http://www.w3.org/2000/svg' viewBox='0 0 8000 4400' width='800' height='440'
font-family='sans-serif' font-size='130'>
<style>
.page { fill: #ffffff }
.text { fill: #1f2328 }
.label { fill: #1f2328; stroke: #ffffff; stroke-width: 40; paint-order: stroke }
.axis { stroke: #59636e; stroke-width: 12; fill: none }
.grid { stroke: #d1d9e0; stroke-width: 8 }
.curve { stroke: #0969da; stroke-width: 24; fill: none; stroke-linejoin: round }
.mark { fill: #cf222e }
@media (prefers-color-scheme: dark) {
.page { fill: #0d1117 }
.text { fill: #e6edf3 }
.label { fill: #e6edf3; stroke: #0d1117 }
.axis { stroke: #9198a1 }
.grid { stroke: #30363d }
.curve { stroke: #4493f8 }
.mark { fill: #ff7b72 }
}
</style>
<rect class='page' width='8000' height='4400'/>
";

// The colors of the orders, if there are several.
const COLORS: &str =
    "<style>.exact { color: #0969da } .clock { color: #bc4c00 } .optimum { color: #1a7f37 } \
    @media (prefers-color-scheme: dark) { .exact { color: #4493f8 } .clock { color: #f0883e } \
    .optimum { color: #3fb950 } }</style>";

/// A plot of a curve: the hit ratio over the capacity.
#[derive(Drop)]
pub struct Plot<'a> {
    results: &'a Results,
    curve: &'a HitCurve,
    // The capacity at the right edge, at least 1.
    max_capacity: u64,
    // The hit ratio at the top edge, in percent.
    max_percent: u64,
}

impl<'a> Plot<'a> {
    /// Creates a plot of the curve, up to the least capacity with the greatest hit ratio, and of
    /// the hits in other orders up to there.
    pub fn new(results: &'a Results) -> Plot<'a> {
        let curve = &results.curve;
        Plot {
            results,
            curve,
            max_capacity: curve.full_capacity().max(1),
            max_percent: max_percent(curve.most_hits(), curve.uses()),
        }
    }

    /// Writes the plot as an SVG image.
    ///
    /// # Errors
    ///
    /// The error of `out`, or one of the kind `OutOfMemory` if memory runs out.
    pub fn write_svg<O: Write>(&self, alloc: Global, out: &mut O) -> io::Result<()> {
        out.write_all(HEAD.as_bytes())?;
        self.write_titles(out)?;
        self.write_grid(out)?;
        self.write_axes(out)?;
        self.write_orders(alloc, out)?;
        self.write_curve(out)?;
        self.write_knees(out)?;
        writeln!(out, "</svg>")
    }

    // Returns the x coordinate of a capacity.
    fn x(&self, capacity: u64) -> u64 {
        let capacity = capacity.min(self.max_capacity);
        LEFT.saturating_add(fraction(WIDTH, capacity, self.max_capacity))
    }

    // Returns the y coordinate of a number of hits. The y axis points down.
    fn y(&self, hits: u64) -> u64 {
        let height = u128::from(HEIGHT * 100).saturating_mul(u128::from(hits));
        let whole = u128::from(self.curve.uses()).saturating_mul(u128::from(self.max_percent));
        BOTTOM.saturating_sub(u64::try_from(height / whole.max(1)).unwrap_or(u64::MAX))
    }

    fn write_titles<O: Write>(&self, out: &mut O) -> io::Result<()> {
        let note = match self.curve {
            HitCurve::Exact(_) => "",
            HitCurve::Estimated(_) => ", estimated from a sample of the keys",
        };
        writeln!(
            out,
            "<text class='text' x='{LEFT}' y='350' font-size='180'>\
                Hit ratio by capacity, {} uses{note}</text>",
            self.curve.uses()
        )?;
        writeln!(
            out,
            "<text class='text' x='{LEFT}' y='600'>\
                the marks are at 50%, 80%, 90% and 95% of the greatest hit ratio</text>"
        )
    }

    // Writes the lines of the grid, each with its hit ratio.
    fn write_grid<O: Write>(&self, out: &mut O) -> io::Result<()> {
        for line in 0..=GRID_ROWS {
            let y = BOTTOM.saturating_sub(fraction(HEIGHT, line, GRID_ROWS));
            writeln!(
                out,
                "<path class='grid' d='M{LEFT} {y}H{RIGHT}'/>\
                <text class='text' x='720' y='{}' text-anchor='end'>{}%</text>",
                y.saturating_add(45),
                fraction(self.max_percent, line, GRID_ROWS)
            )?;
        }
        Ok(())
    }

    // Writes the two axes, a tick at the greatest capacity, and one at each round capacity whose
    // label has room beside the others.
    fn write_axes<O: Write>(&self, out: &mut O) -> io::Result<()> {
        let last = self.tick(self.max_capacity);
        let step = round_step(self.max_capacity);
        let mut free = 0;
        for number in 0..=6u64 {
            let tick = self.tick(step.saturating_mul(number));
            if free <= tick.start() && tick.end().saturating_add(GAP) <= last.start() {
                tick.write(out)?;
                free = tick.end().saturating_add(GAP);
            }
        }
        last.write(out)?;
        writeln!(
            out,
            "<path class='axis' d='M{LEFT} {TOP}V{BOTTOM}H{RIGHT}'/>\
                <text class='text' x='{LEFT}' y='4250'>capacity, in units of charge</text>"
        )
    }

    fn tick(&self, capacity: u64) -> Tick {
        let half = digits(capacity).saturating_mul(CHARACTER) / 2;
        let x = self.x(capacity);
        Tick {
            capacity,
            x,
            center: x.min(EDGE.saturating_sub(half)),
            half,
        }
    }

    // Writes the names of the orders, and the hits in those beside the exact one.
    fn write_orders<O: Write>(&self, alloc: Global, out: &mut O) -> io::Result<()> {
        if self.results.orders.is_empty() {
            return Ok(());
        }
        write!(
            out,
            "{COLORS}\n<text x='{RIGHT}' y='350' text-anchor='end'>\
                <tspan class='exact' fill='currentColor'>exact order</tspan>"
        )?;
        for order in &self.results.orders {
            let name = order.name();
            write!(
                out,
                "<tspan class='{name}' dx='120' fill='currentColor'>{name}</tspan>"
            )?;
        }
        writeln!(out, "</text>")?;
        if self.results.ignore_charges() {
            writeln!(
                out,
                "<text class='text' x='{RIGHT}' y='4250' text-anchor='end'>\
                    the optimum ignores charges</text>"
            )?;
        }
        for order in &self.results.orders {
            write_order(*order, &self.points(alloc, *order)?, out)?;
        }
        Ok(())
    }

    // Returns the points of an order from left to right: one for each of the table's capacities, as
    // far as the plot goes.
    fn points(&self, alloc: Global, order: Order) -> Result<Vec<(u64, u64)>, AllocError> {
        let mut points = Vec::new(alloc);
        for row in &self.results.rows {
            if let Some(hits) = row.others.of(order)
                && row.capacity <= self.max_capacity
            {
                points.push((self.x(row.capacity), self.y(hits)))?;
            }
        }
        points.sort_unstable_by_key(|point| point.0);
        Ok(points)
    }

    // Writes the curve, with a step at each point where more uses hit than at the one before.
    fn write_curve<O: Write>(&self, out: &mut O) -> io::Result<()> {
        let mut previous = self.y(self.curve.hits(0));
        write!(out, "<path class='curve' d='M{LEFT} {previous}")?;
        for point in 1..=POINTS {
            let capacity = fraction(self.max_capacity, point, POINTS);
            let y = self.y(self.curve.hits(capacity));
            if y != previous {
                write!(out, "H{}V{y}", self.x(capacity))?;
                previous = y;
            }
        }
        writeln!(out, "H{RIGHT}'/>")
    }

    // Writes a mark at each knee, or a single one if several are at one capacity. The labels are
    // below and above the curve in turn, so that neighbors do not overlap.
    fn write_knees<O: Write>(&self, out: &mut O) -> io::Result<()> {
        let mut side = Side::Below;
        let mut previous = None;
        for percent in KNEES {
            let knee = self.curve.knee(percent);
            if let Some(capacity) = knee
                && knee != previous
            {
                self.write_knee(capacity, side, out)?;
                side = side.opposite();
            }
            previous = knee;
        }
        Ok(())
    }

    fn write_knee<O: Write>(&self, capacity: u64, side: Side, out: &mut O) -> io::Result<()> {
        let hits = self.curve.hits(capacity);
        let (x, y) = (self.x(capacity), self.y(hits));
        writeln!(out, "<circle class='mark' cx='{x}' cy='{y}' r='45'/>")?;
        let ratio = Percentage {
            part: hits,
            whole: self.curve.uses(),
        };
        // The capacity, and at most 9 characters of punctuation and percentage.
        let width = digits(capacity).saturating_add(9).saturating_mul(CHARACTER);
        let (x, y, anchor) = match side {
            Side::Below => (
                x.saturating_add(80).min(EDGE.saturating_sub(width)),
                y.saturating_add(150),
                "start",
            ),
            Side::Above => (
                x.saturating_sub(60).max(LEFT.saturating_add(width)),
                y.saturating_sub(70),
                "end",
            ),
        };
        writeln!(
            out,
            "<text class='label' x='{x}' y='{y}' text-anchor='{anchor}'>{capacity}: {ratio}</text>"
        )
    }
}

// Writes a dot at each of the points of an order, and lines between them, which guide the eye. The
// first line starts at the capacity 0, at which no use hits.
fn write_order<O: Write>(order: Order, points: &[(u64, u64)], out: &mut O) -> io::Result<()> {
    let name = order.name();
    write!(
        out,
        "<path class='{name}' stroke='currentColor' stroke-width='14' fill='none' \
            d='M{LEFT} {BOTTOM}"
    )?;
    for (x, y) in points {
        write!(out, "L{x} {y}")?;
    }
    write!(
        out,
        "'/><path class='{name}' stroke='currentColor' stroke-width='70' stroke-linecap='round' d='"
    )?;
    for (x, y) in points {
        write!(out, "M{x} {y}h0")?;
    }
    writeln!(out, "'/>")
}

// A mark on the x axis, with its capacity below it. The label is moved left if it would not fit on
// the image otherwise.
#[derive(Clone, Copy)]
struct Tick {
    capacity: u64,
    x: u64,
    // The middle of the label, and half of its width.
    center: u64,
    half: u64,
}

impl Tick {
    // Returns the left edge of the label.
    fn start(&self) -> u64 {
        self.center.saturating_sub(self.half)
    }

    // Returns the right edge of the label.
    fn end(&self) -> u64 {
        self.center.saturating_add(self.half)
    }

    fn write<O: Write>(&self, out: &mut O) -> io::Result<()> {
        let Tick {
            capacity,
            x,
            center,
            ..
        } = self;
        writeln!(
            out,
            "<path class='axis' d='M{x} {BOTTOM}v60'/>\
                <text class='text' x='{center}' y='3960' text-anchor='middle'>{capacity}</text>"
        )
    }
}

// The side of the curve that a label is on: below it and to the right, or above it and to the left,
// as far as the image has room.
#[derive(Clone, Copy)]
enum Side {
    Below,
    Above,
}

impl Side {
    fn opposite(self) -> Side {
        match self {
            Side::Below => Side::Above,
            Side::Above => Side::Below,
        }
    }
}

// Returns the least of some round percentages that `hits` of `uses` do not exceed.
fn max_percent(hits: u64, uses: u64) -> u64 {
    let hits = u128::from(hits).saturating_mul(100);
    for percent in [5u64, 10, 20, 50] {
        if hits <= u128::from(uses).saturating_mul(u128::from(percent)) {
            return percent;
        }
    }
    100
}
