// Marks of the locations that some items assign, where they are live at a label, in the rows of sites.

ghost use Rattle.std.specs.Prelude.{◌≡◌, ◌<◌, Some, length, slice_get, OnOk};
ghost use Rattle.bril_tree.specs.Operand.{Location};
ghost use Rattle.flow_graph.specs.Location.{number_of};
ghost use Rattle.live_sets.specs.Liveness.{is_live};
ghost use Rattle.shadow_place.specs.Marks.{Adds, AddsAll, IsMarkedAt, IsMarkedIn, site_in, site_told};
ghost use Rattle.shadow_place.specs.Placement.{AreAnalyses};

use crate::analyses::Analyses;
use bril_tree::sequence::Seq;
use flow_graph::{Graph, point_number};
use live_sets::Live;
use std::alloc::{AllocError, Global};
use std::mem;

// Whether the location of a number is live at a point.
pub(crate) fn is_live_at(live: &Live, number: u32, point: u32) -> bool
    ensures { (x : Location) → number_of x ≡ number → result ≡ is_live live.now x point }
{
    if number % 2 == 0 {
        return live.at(point, number / 2);
    }
    live.shadow_at(point, number / 2)
}

// The site of a level, from 1, among open sites, of which the newest stands first.
fn site_in(sites: &[u32], level: usize) -> Option<u32>
    ensures { result ≡ site_in level sites.now }
{
    if sites.len() < level {
        return None;
    }
    sites.get(sites.len() - level).copied()
}

// The site of a level, from 1, that is open at a point.
fn site_at(graph: &Graph, level: usize, point: u32) -> Option<u32>
    requires { point < length graph.now.sites }
    ensures { result ≡ site_told level (slice_get graph.now.sites point) }
{
    site_in(graph.sites(point)?, level)
}

// Marks a number, where it has a place in the row.
fn mark(row: &mut Vec<bool>, number: u32)
    ensures { Adds (λ n. n ≡ number) row.old.items row.new.items }
{
    if (number as usize) < row.len() {
        row[number as usize] = true;
    }
}

// Marks a number in the row of a site, where it has a place there.
fn mark_in(alloc: Global, rows: &mut Vec<Seq<bool>>, site: usize, number: u32)
    ensures { AddsAll (λ s n. (s ≡ site) × (n ≡ number)) rows.old.items rows.new.items }
{
    if site < rows.len() {
        let mut row = mem::replace(&mut rows[site], Seq::new(alloc)).into_items();
        mark(&mut row, number);
        rows[site] = Seq::of_items(row);
    }
}

// Marks a number in the row of a site, where there is a site.
fn mark_if(alloc: Global, rows: &mut Vec<Seq<bool>>, site: Option<u32>, number: u32)
    ensures { AddsAll (λ s n. (site ≡ Some s) × (n ≡ number)) rows.old.items rows.new.items }
{
    if let Some(site) = site {
        mark_in(alloc, rows, site as usize, number);
    }
}

// Marks the location that the item at a point assigns, where it is live at the label, in the row of the site of the level there.
fn mark_point(
    alloc: Global,
    rows: &mut Vec<Seq<bool>>,
    known: &Analyses<'_>,
    level: usize,
    label: u32,
    point: u32,
) -> Result<(), AllocError>
    requires { AreAnalyses known.now }
    ensures { OnOk result (AddsAll (IsMarkedAt known.now level label point) rows.old.items rows.new.items) }
{
    if let Some(number) = point_number(known.func.code.as_slice(), point)? {
        if is_live_at(known.live, number, label) {
            mark_if(alloc, rows, site_at(known.graph, level, point), number);
        }
    }
    Ok(())
}

// Marks the locations that the items at these points assign, where they are live at the label, in the rows of the sites of the
// level there.
pub(crate) fn mark_points(
    alloc: Global,
    rows: &mut Vec<Seq<bool>>,
    known: &Analyses<'_>,
    level: usize,
    label: u32,
    points: &[u32],
) -> Result<(), AllocError>
    requires { AreAnalyses known.now }
    ensures { OnOk result (AddsAll (IsMarkedIn known.now level label points.now) rows.old.items rows.new.items) }
{
    for point in points {
        mark_point(alloc, rows, known, level, label, *point)?;
    }
    Ok(())
}
