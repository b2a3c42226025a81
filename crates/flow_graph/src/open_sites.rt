// The open sites at each point.

ghost use Rattle.std.specs.Prelude.{◌≡◌, ◌++◌, map, IfOk};
ghost use Rattle.std.specs.Option.{option_to_list};
ghost use Rattle.bril_tree.specs.Sites.{most_sites};
ghost use Rattle.flow_graph.specs.Visits.{below, sites_kept, sites_shown};

use crate::visits::{MOST_SITES, Visit, visit_at};
use bril_tree::sequence::Seq;
use std::alloc::{AllocError, Global};

// The open sites at each point, the newest first, where none has more than 8; None where no walk leads.
pub fn all_sites(
    alloc: Global,
    visits: &[Option<Visit>],
) -> Result<Seq<Option<Seq<u32>>>, AllocError>
    ensures { IfOk result (λ sites. sites ≡ map (sites_shown visits.now) visits.now) }
{
    let mut all = Seq::new(alloc);
    for visit in visits {
        all.push(sites_of(alloc, visits, *visit)?)?;
    }
    Ok(all)
}

// The open sites of what is kept for a point.
fn sites_of(
    alloc: Global,
    visits: &[Option<Visit>],
    kept: Option<Visit>,
) -> Result<Option<Seq<u32>>, AllocError>
    ensures { IfOk result (λ sites. sites ≡ sites_shown visits.now kept) }
{
    match kept {
        None => Ok(None),
        Some(visit) => Ok(Some(sites_from(alloc, visits, visit.newest)?)),
    }
}

// The sites from the newest on.
fn sites_from(
    alloc: Global,
    visits: &[Option<Visit>],
    newest: Option<u32>,
) -> Result<Seq<u32>, AllocError>
    ensures { IfOk result (λ sites. sites ≡ sites_kept visits.now most_sites newest) }
{
    let mut sites = Seq::new(alloc);
    let mut next = newest;
    for _site in 0..MOST_SITES {
        next = push_site(&mut sites, visits, next)?;
    }
    Ok(sites)
}

// Adds a site, and gives the one below it.
fn push_site(
    sites: &mut Seq<u32>,
    visits: &[Option<Visit>],
    site: Option<u32>,
) -> Result<Option<u32>, AllocError>
    ensures next { IfOk result (λ next. next ≡ below visits.now site) }
    ensures pushed { IfOk result (λ _. sites.new ≡ sites.old ++ option_to_list site) }
{
    match site {
        None => Ok(None),
        Some(site) => {
            sites.push(site)?;
            Ok(visit_at(visits, site).newest)
        }
    }
}
