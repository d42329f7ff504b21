//! Laws of tables. The calls do nothing.

ghost use Rattle.wgsl_nodes.specs.Canonical.{TheTableIsThatOfTheType};
ghost use Rattle.wgsl_nodes.specs.Names.{NamesAreNoPart, NamesAreNoPartOfTables};

/// A law: a table with other names is the layout of the same type.
pub fn names_are_no_part_of_a_layout()
    ensures { NamesAreNoPart }
{}

/// A law: a table with other names is a table.
pub fn names_are_no_part_of_a_table()
    ensures { NamesAreNoPartOfTables }
{}

/// A law: the records that a type alone determines are a table, and the layout of the type.
pub fn the_table_is_that_of_the_type()
    ensures { TheTableIsThatOfTheType }
{}
