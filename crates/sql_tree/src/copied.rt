// Copies of statements and their parts.
ghost use Rattle.std.specs.Prelude.{◌≡◌, IfOk};

use crate::{
    ColumnDef, CreateTable, Delete, Expr, Insert, Item, OrderTerm, OutField, Select, Statement,
    TableRef, Typed, TypedChange, TypedExpr, TypedInsert, TypedSelect, Update,
};
use cell_base::{Items, Key, Memory, Text};
use std::alloc::Global;

/// What can be copied.
trait Copied: Drop {
    /// The same value once more.
    fn copied(&self, alloc: Global) -> Result<Self, Memory>
        ensures { IfOk result (λ copy. copy ≡ self.now) };
}

fn copied_items<T: Copied>(items: &Items<T>, alloc: Global) -> Result<Items<T>, Memory>
    ensures { IfOk result (λ copy. copy ≡ items.now) }
{
    let mut copies = Items::new(alloc);
    for item in items.as_slice() {
        copies.push(item.copied(alloc)?)?;
    }
    Ok(copies)
}

fn copied_option<T: Copied>(value: &Option<T>, alloc: Global) -> Result<Option<T>, Memory>
    ensures { IfOk result (λ copy. copy ≡ value.now) }
{
    match value {
        Some(value) => Ok(Some(value.copied(alloc)?)),
        None => Ok(None),
    }
}

impl Copied for Text {
    fn copied(&self, alloc: Global) -> Result<Self, Memory> {
        self.copy(alloc)
    }
}

impl Copied for Expr {
    fn copied(&self, alloc: Global) -> Result<Self, Memory> {
        self.copy(alloc)
    }
}

impl Copied for Option<Expr> {
    fn copied(&self, alloc: Global) -> Result<Self, Memory> {
        copied_option(self, alloc)
    }
}

impl Copied for Items<Option<Expr>> {
    fn copied(&self, alloc: Global) -> Result<Self, Memory> {
        copied_items(self, alloc)
    }
}

impl Copied for (Text, Option<Expr>) {
    fn copied(&self, alloc: Global) -> Result<Self, Memory> {
        let name = self.0.copy(alloc)?;
        Ok((name, copied_option(&self.1, alloc)?))
    }
}

impl Copied for ColumnDef {
    fn copied(&self, alloc: Global) -> Result<Self, Memory> {
        self.copy(alloc)
    }
}

impl Copied for Item {
    fn copied(&self, alloc: Global) -> Result<Self, Memory> {
        self.copy(alloc)
    }
}

impl Copied for TableRef {
    fn copied(&self, alloc: Global) -> Result<Self, Memory> {
        self.copy(alloc)
    }
}

impl Copied for OrderTerm {
    fn copied(&self, alloc: Global) -> Result<Self, Memory> {
        self.copy(alloc)
    }
}

impl Copied for u32 {
    fn copied(&self, _alloc: Global) -> Result<Self, Memory> {
        Ok(*self)
    }
}

impl Copied for Items<u32> {
    fn copied(&self, alloc: Global) -> Result<Self, Memory> {
        copied_items(self, alloc)
    }
}

impl Copied for Key {
    fn copied(&self, alloc: Global) -> Result<Self, Memory> {
        self.copy(alloc)
    }
}

impl Copied for Option<Key> {
    fn copied(&self, alloc: Global) -> Result<Self, Memory> {
        copied_option(self, alloc)
    }
}

impl Copied for OutField {
    fn copied(&self, alloc: Global) -> Result<Self, Memory> {
        self.copy(alloc)
    }
}

impl Copied for TypedExpr {
    fn copied(&self, alloc: Global) -> Result<Self, Memory> {
        self.copy(alloc)
    }
}

impl Copied for Items<TypedExpr> {
    fn copied(&self, alloc: Global) -> Result<Self, Memory> {
        copied_items(self, alloc)
    }
}

impl Copied for (TypedExpr, bool) {
    fn copied(&self, alloc: Global) -> Result<Self, Memory> {
        Ok((self.0.copy(alloc)?, self.1))
    }
}

impl Copied for (u32, TypedExpr) {
    fn copied(&self, alloc: Global) -> Result<Self, Memory> {
        Ok((self.0, self.1.copy(alloc)?))
    }
}

impl ColumnDef {
    /// The same column once more.
    pub fn copy(&self, alloc: Global) -> Result<ColumnDef, Memory>
        ensures { IfOk result (λ column. column ≡ self.now) }
    {
        Ok(ColumnDef {
            name: self.name.copy(alloc)?,
            kind: self.kind,
            not_null: self.not_null,
            default: copied_option(&self.default, alloc)?,
            key: self.key,
        })
    }
}

impl CreateTable {
    /// The same CREATE TABLE once more.
    pub fn copy(&self, alloc: Global) -> Result<CreateTable, Memory>
        ensures { IfOk result (λ create. create ≡ self.now) }
    {
        Ok(CreateTable {
            name: self.name.copy(alloc)?,
            columns: copied_items(&self.columns, alloc)?,
            keys: copied_items(&self.keys, alloc)?,
            checks: copied_items(&self.checks, alloc)?,
        })
    }
}

impl Item {
    /// The same item once more.
    pub fn copy(&self, alloc: Global) -> Result<Item, Memory>
        ensures { IfOk result (λ item. item ≡ self.now) }
    {
        match self {
            Item::Star => Ok(Item::Star),
            Item::Expr(expr, alias) => {
                Ok(Item::Expr(expr.copy(alloc)?, copied_option(alias, alloc)?))
            }
        }
    }
}

impl TableRef {
    /// The same entry of FROM once more.
    pub fn copy(&self, alloc: Global) -> Result<TableRef, Memory>
        ensures { IfOk result (λ entry. entry ≡ self.now) }
    {
        Ok(TableRef {
            name: self.name.copy(alloc)?,
            alias: copied_option(&self.alias, alloc)?,
            on: copied_option(&self.on, alloc)?,
        })
    }
}

impl OrderTerm {
    /// The same term of ORDER BY once more.
    pub fn copy(&self, alloc: Global) -> Result<OrderTerm, Memory>
        ensures { IfOk result (λ term. term ≡ self.now) }
    {
        Ok(OrderTerm {
            expr: self.expr.copy(alloc)?,
            descending: self.descending,
        })
    }
}

impl Select {
    /// The same SELECT once more.
    pub fn copy(&self, alloc: Global) -> Result<Select, Memory>
        ensures { IfOk result (λ select. select ≡ self.now) }
    {
        Ok(Select {
            items: copied_items(&self.items, alloc)?,
            from: copied_items(&self.from, alloc)?,
            filter: copied_option(&self.filter, alloc)?,
            order: copied_items(&self.order, alloc)?,
            limit: self.limit,
            offset: self.offset,
        })
    }
}

impl Insert {
    /// The same INSERT once more.
    pub fn copy(&self, alloc: Global) -> Result<Insert, Memory>
        ensures { IfOk result (λ insert. insert ≡ self.now) }
    {
        Ok(Insert {
            table: self.table.copy(alloc)?,
            columns: copied_items(&self.columns, alloc)?,
            rows: copied_items(&self.rows, alloc)?,
        })
    }
}

impl Update {
    /// The same UPDATE once more.
    pub fn copy(&self, alloc: Global) -> Result<Update, Memory>
        ensures { IfOk result (λ update. update ≡ self.now) }
    {
        Ok(Update {
            table: self.table.copy(alloc)?,
            set: copied_items(&self.set, alloc)?,
            filter: copied_option(&self.filter, alloc)?,
        })
    }
}

impl Delete {
    /// The same DELETE once more.
    pub fn copy(&self, alloc: Global) -> Result<Delete, Memory>
        ensures { IfOk result (λ delete. delete ≡ self.now) }
    {
        Ok(Delete {
            table: self.table.copy(alloc)?,
            filter: copied_option(&self.filter, alloc)?,
        })
    }
}

impl Statement {
    /// The same statement once more.
    pub fn copy(&self, alloc: Global) -> Result<Statement, Memory>
        ensures { IfOk result (λ statement. statement ≡ self.now) }
    {
        Ok(match self {
            Statement::Select(select) => Statement::Select(select.copy(alloc)?),
            Statement::Insert(insert) => Statement::Insert(insert.copy(alloc)?),
            Statement::Update(update) => Statement::Update(update.copy(alloc)?),
            Statement::Delete(delete) => Statement::Delete(delete.copy(alloc)?),
            Statement::Create(create) => Statement::Create(create.copy(alloc)?),
            Statement::Begin(start) => Statement::Begin(*start),
            Statement::Commit => Statement::Commit,
            Statement::Rollback => Statement::Rollback,
            Statement::Set(name, values) => {
                Statement::Set(name.copy(alloc)?, copied_items(values, alloc)?)
            }
            Statement::SetModes => Statement::SetModes,
            Statement::Show(name) => Statement::Show(name.copy(alloc)?),
        })
    }
}

impl TypedSelect {
    /// The same SELECT once more.
    pub fn copy(&self, alloc: Global) -> Result<TypedSelect, Memory>
        ensures { IfOk result (λ select. select ≡ self.now) }
    {
        Ok(TypedSelect {
            fields: copied_items(&self.fields, alloc)?,
            tables: copied_items(&self.tables, alloc)?,
            mentioned: copied_items(&self.mentioned, alloc)?,
            points: copied_items(&self.points, alloc)?,
            conditions: copied_items(&self.conditions, alloc)?,
            items: copied_items(&self.items, alloc)?,
            order: copied_items(&self.order, alloc)?,
            aggregate: self.aggregate,
            limit: self.limit,
            offset: self.offset,
        })
    }
}

impl TypedInsert {
    /// The same INSERT once more.
    pub fn copy(&self, alloc: Global) -> Result<TypedInsert, Memory>
        ensures { IfOk result (λ insert. insert ≡ self.now) }
    {
        Ok(TypedInsert {
            table: self.table,
            rows: copied_items(&self.rows, alloc)?,
        })
    }
}

impl TypedChange {
    /// The same UPDATE or DELETE once more.
    pub fn copy(&self, alloc: Global) -> Result<TypedChange, Memory>
        ensures { IfOk result (λ change. change ≡ self.now) }
    {
        Ok(TypedChange {
            table: self.table,
            point: copied_option(&self.point, alloc)?,
            mentioned: copied_items(&self.mentioned, alloc)?,
            filter: copied_option(&self.filter, alloc)?,
            set: copied_items(&self.set, alloc)?,
            delete: self.delete,
        })
    }
}

impl Typed {
    /// The same statement once more.
    pub fn copy(&self, alloc: Global) -> Result<Typed, Memory>
        ensures { IfOk result (λ typed. typed ≡ self.now) }
    {
        Ok(match self {
            Typed::Select(select) => Typed::Select(select.copy(alloc)?),
            Typed::Insert(insert) => Typed::Insert(insert.copy(alloc)?),
            Typed::Change(change) => Typed::Change(change.copy(alloc)?),
        })
    }
}
