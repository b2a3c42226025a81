// What follows of tables that are made item by item.

ghost use Rattle.ssa_laws.specs.reaching_definitions.Laws.{TablesAgree, TablesKeepTypes, TablesTellLive};

/// Each location that is live at a reached point has a definition by the tables, or a `get` behind the point is one. A call does
/// nothing.
pub fn tables_tell_live()
    ensures { TablesTellLive }
{}

/// The tables agree along each branch, also where trivial `get`s are left out, and no two items, `get`s or arguments are one
/// definition. A call does nothing.
pub fn tables_agree()
    ensures { TablesAgree }
{}

/// Where trivial `get`s are left out, each location that has a type has definitions of this type alone. A call does nothing.
pub fn tables_keep_types()
    ensures { TablesKeepTypes }
{}
