// The entries of FROM, as names are looked up in them.
use cell_base::Text;
use sql_tree::Table;

/// An entry of FROM: the name by which its columns are qualified, and its table.
#[derive(Clone, Copy, Debug)]
pub struct Entry<'a> {
    pub name: &'a Text,
    pub table: &'a Table,
}
