ghost use Rattle.std.specs.Prelude.{◌≡◌};
ghost use Rattle.std.specs.List.{list_all};
ghost use Rattle.gx_rules.specs.Fits as fits;

use gx_tree::{Group, Part, Query, Stmt};

fn fits_group(query: &Query, group: &Group) -> bool
    ensures { result ≡ fits.fits_group query.now group.now }
{
    group.key.as_slice().len() == query.group.len() && group.cells.len() == query.items.len()
}

fn fit_groups(query: &Query, groups: &[Group]) -> bool
    ensures { result ≡ list_all (fits.fits_group query.now) groups.now }
{
    groups.iter().all(|group| fits_group(query, group))
}

fn fits_query(query: &Query, part: &Part) -> bool
    ensures { result ≡ fits.fits_query query.now part.now }
{
    match part {
        Part::Rows(_) => !query.grouped,
        Part::Groups(groups) => query.grouped && fit_groups(query, groups.as_slice()),
    }
}

fn is_no_rows(part: &Part) -> bool
    ensures { result ≡ fits.is_no_rows part.now }
{
    match part {
        Part::Rows(rows) => rows.is_empty(),
        Part::Groups(_) => false,
    }
}

/// Whether a segment's part has the form that the statement asks for: rows where a query gives rows, groups of the
/// query's key and items where it groups, and nothing for any other statement.
pub fn fits_part(stmt: &Stmt, part: &Part) -> bool
    ensures { result ≡ fits.fits_part stmt.now part.now }
{
    match stmt {
        Stmt::Select(query) => fits_query(query.get(), part),
        _ => is_no_rows(part),
    }
}
