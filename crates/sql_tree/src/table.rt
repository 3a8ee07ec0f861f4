// Tables and the columns of results.
ghost use Rattle.std.specs.Prelude.{◌≡◌, IfOk};

use crate::TypedExpr;
use cell_base::{Items, Memory, SqlType, Text, Value};
use std::alloc::Global;

/// A column of a table.
#[derive(Debug, Drop)]
pub struct Column {
    pub name: Text,
    pub kind: SqlType,
    pub not_null: bool,
    pub default: Value,
}

/// A table. Its columns are numbered from 0 in order of declaration.
#[derive(Debug, Drop)]
pub struct Table {
    pub name: Text,
    pub columns: Items<Column>,
    /// The number of the primary key's column.
    pub key: u32,
    pub checks: Items<TypedExpr>,
}

/// A column of a result.
#[derive(Debug, Drop)]
pub struct OutField {
    pub name: Text,
    pub kind: SqlType,
}

impl Column {
    /// The same column once more.
    pub fn copy(&self, alloc: Global) -> Result<Column, Memory>
        ensures { IfOk result (λ column. column ≡ self.now) }
    {
        Ok(Column {
            name: self.name.copy(alloc)?,
            kind: self.kind,
            not_null: self.not_null,
            default: self.default.copy(alloc)?,
        })
    }
}

impl Table {
    /// The same table once more.
    pub fn copy(&self, alloc: Global) -> Result<Table, Memory>
        ensures { IfOk result (λ table. table ≡ self.now) }
    {
        Ok(Table {
            name: self.name.copy(alloc)?,
            columns: copy_columns(alloc, &self.columns)?,
            key: self.key,
            checks: copy_checks(alloc, &self.checks)?,
        })
    }
}

fn copy_columns(alloc: Global, columns: &Items<Column>) -> Result<Items<Column>, Memory>
    ensures { IfOk result (λ items. items ≡ columns.now) }
{
    let mut copies = Items::new(alloc);
    for column in columns.as_slice() {
        copies.push(column.copy(alloc)?)?;
    }
    Ok(copies)
}

fn copy_checks(alloc: Global, checks: &Items<TypedExpr>) -> Result<Items<TypedExpr>, Memory>
    ensures { IfOk result (λ items. items ≡ checks.now) }
{
    let mut copies = Items::new(alloc);
    for check in checks.as_slice() {
        copies.push(check.copy(alloc)?)?;
    }
    Ok(copies)
}

impl OutField {
    /// The same column of a result once more.
    pub fn copy(&self, alloc: Global) -> Result<OutField, Memory>
        ensures { IfOk result (λ field. field ≡ self.now) }
    {
        Ok(OutField {
            name: self.name.copy(alloc)?,
            kind: self.kind,
        })
    }
}
