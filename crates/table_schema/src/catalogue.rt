// The tables that are defined.
ghost use Rattle.std.specs.Prelude.{◌≡◌, ◌+◌, ◌<◌, [], ◌∷◌, ◌++◌, length, ◌^◌, IfSome, IfNone, OnOk, OnErr};
ghost use Rattle.table_schema.specs.Named.{IsNamed, IsNew, IsCatalogue};

use cell_base::{Items, Memory, Text};
use sql_tree::Table;
use std::alloc::Global;
use std::marker::Model;

/// The tables that are defined, in order of definition. No two have one name.
#[derive(Debug, Drop)]
pub struct Catalogue {
    tables: Items<Table>,
}

impl Model for Catalogue {
    ghost use Rattle.std.specs.Prelude.{List};
    ghost use Rattle.std.specs.Coded.{codes};
    ghost use Rattle.sql_tree.specs.declared.table.Table.{Table};
    ghost use Rattle.sql_tree.specs.contracts.typed_expr.TypedNode as typed_node;
    ghost use Rattle.table_schema.specs.Named.{IsCatalogue};

    ghost Value = { List Table };

    ghost coded = { Prim.hlevel (codes, typed_node.the_row.coded) };

    ghost view = { λ c. c.tables };

    ghost invariant = { λ c. IsCatalogue c.tables };
}

impl Catalogue {
    /// No table. Takes no memory.
    pub fn new(alloc: Global) -> Catalogue
        ensures { result ≡ [] }
    {
        Catalogue {
            tables: Items::new(alloc),
        }
    }

    /// Puts a table of a new name after the others. Out of memory, nothing changes.
    pub fn add(&mut self, table: Table) -> Result<(), Memory>
        requires new { IsNew self.old table.name }
        requires room { length self.old < 4294967295 }
        ensures ok { OnOk result (self.new ≡ self.old ++ table ∷ []) }
        ensures err { OnErr result (self.new ≡ self.old) }
    {
        self.tables.push(table)
    }

    /// The number of the table of this name, from 0, in order of definition; none where no table has the name. No two have
    /// one name. Copies nothing.
    pub fn find(&self, name: &Text) -> Option<u32>
        ensures some { IfSome result (IsNamed self.now name.now) }
        ensures none { IfNone result (IsNew self.now name.now) }
    {
        number_of(self.tables.as_slice(), name)
    }

    /// The tables, in order of definition.
    pub fn tables(&self) -> &[Table]
        ensures tables { result.now ≡ self.now }
        ensures apart { IsCatalogue result.now }
    {
        self.tables.as_slice()
    }
}

fn number_of(tables: &[Table], name: &Text) -> Option<u32>
    requires { length tables.now < 2 ^ 32 }
    ensures some { IfSome result (IsNamed tables.now name.now) }
    ensures none { IfNone result (IsNew tables.now name.now) }
{
    for (number, table) in tables.iter().enumerate() {
        if table.name.is_same(name) {
            return Some(number as u32);
        }
    }
    None
}
