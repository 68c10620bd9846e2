// Drawings: for each its number, what the check of its facets says, and the heights of its map.
use crate::points::facet;
use crate::tables::{FACETS, MAPS};
use facets::Facet;
use fields::Facets;
use std::alloc::{AllocError, Global};
use zmap::{Class, Field, Grid, Node};

// Prints each drawing.
pub(crate) fn print(rt: &HostRuntime) -> anyhow::Result<()> {
    for (number, [columns, rows, pitch]) in MAPS.into_iter().enumerate() {
        let facets = drawn(rt.alloc(), number)?;
        let field = Facets {
            grid: Grid::new(columns, rows, pitch)?,
            facets: facets.as_slice(),
        };
        match field.check() {
            Ok(()) => println!(rt; "drawing {number}: taken")?,
            Err(fault) => println!(rt; "drawing {number}: no {fault}")?,
        }
        for row in 0..field.grid.rows {
            show_row(rt, &field, row)?;
        }
    }
    Ok(())
}

// The facets of the drawing of that number.
fn drawn(heap: Global, number: usize) -> Result<Vec<Facet>, AllocError> {
    FACETS
        .iter()
        .filter(|row| usize::try_from(row[0]) == Ok(number))
        .map(|row| {
            let [_, ax, ay, az, bx, by, bz, cx, cy, cz] = *row;
            facet([ax, ay, az], [bx, by, bz], [cx, cy, cz])
        })
        .collect(heap)
}

// Prints the heights of a row, with a space between.
fn show_row<F: Field>(rt: &HostRuntime, field: &F, row: usize) -> anyhow::Result<()> {
    for column in 0..field.grid().columns {
        if column > 0 {
            rt.print(" ")?;
        }
        match field.sample(Node { column, row }) {
            Some(s) if s.class == Class::Part => rt.print(s.height)?,
            _ => rt.print("no part")?,
        }
    }
    rt.println("")?;
    Ok(())
}
