// The types of SELECT, part by part.
ghost use Rattle.std.specs.Prelude.{◌≡◌, ◌++◌, IfOk, length, map};
ghost use Rattle.typing_rules.specs.Select as spec;
ghost use Rattle.typing_rules.specs.Gives.{Gives, GivesBy};
ghost use Rattle.expr_typing.specs.Scope.{IsNarrow, sources};
ghost use Rattle.typing_parts.specs.Narrow.{AreFewAndNarrow};
ghost use Rattle.select_typing.specs.Entries as shown;
ghost use Rattle.select_typing.specs.Lists.{AreLists, listed, typed_of};
ghost use Rattle.select_typing.specs.Parts.{select_parts, parts_of, whole, is_group};

use crate::aggregates::has_aggregate;
use crate::from::{FromEntry, entries_of, numbers_of, scope_of};
use crate::items::outputs_of;
use crate::joins::ons_of;
use crate::kept::beside;
use crate::order::order_of;
use crate::output::{Columns, Output, columns_of};
use crate::points::points_of;
use crate::reads::{Read, mentioned};
use cell_base::{Items, Key, Memory, SqlFault};
use expr_typing::Entry;
use sql_tree::{Select, Table, TypedExpr, TypedSelect};
use std::alloc::Global;
use typing_parts::typed_filter;
use typing_rules::Place;

/// What a SELECT is typed to, part by part.
#[derive(Debug, Drop)]
pub struct Parts {
    pub ons: Items<TypedExpr>,
    pub filter: Option<TypedExpr>,
    pub outputs: Items<Output>,
    pub order: Items<(TypedExpr, bool)>,
}

/// Where the items stand: over groups of rows where an aggregate is called.
fn place_of(select: &Select) -> Place
    ensures { result ≡ spec.place_of (spec.has_aggregate select.now) }
{
    if has_aggregate(select) {
        Place::Group
    } else {
        Place::Row
    }
}

/// Whether it is that of groups of rows.
fn is_group(place: Place) -> bool
    ensures { result ≡ is_group place }
{
    match place {
        Place::Group => true,
        Place::Row => false,
    }
}

/// The parts after FROM, in the order in which they are typed.
fn parts_of(
    alloc: Global,
    select: &Select,
    scope: &[Entry<'_>],
    place: Place,
) -> Result<Parts, SqlFault>
    requires as_many { length scope.now ≡ length select.now.from }
    requires narrow { IsNarrow scope.now }
    ensures { GivesBy select_parts (parts_of (sources scope.now) select.now place) result }
{
    let ons = ons_of(alloc, select.from.as_slice(), scope)?;
    let filter = typed_filter(alloc, select.filter.as_ref(), scope);
    let (ons, filter) = beside(ons, filter)?;
    let outputs = outputs_of(alloc, select.items.as_slice(), scope, place);
    let ((ons, filter), outputs) = beside((ons, filter), outputs)?;
    let order = order_of(
        alloc,
        select.order.as_slice(),
        scope,
        outputs.as_slice(),
        place,
    );
    let ((ons, filter, outputs), order) = beside((ons, filter, outputs), order)?;
    Ok(Parts {
        ons,
        filter,
        outputs,
        order,
    })
}

/// The conditions of JOIN, and then WHERE.
fn conditions_of(
    ons: Items<TypedExpr>,
    filter: Option<TypedExpr>,
) -> Result<Items<TypedExpr>, Memory>
    ensures { IfOk result (λ all. all ≡ ons ++ spec.option_list filter) }
{
    let mut all = ons;
    if let Some(filter) = filter {
        all.push(filter)?;
    }
    Ok(all)
}

/// The expressions of a typed SELECT, and the fields of its result.
#[derive(Drop)]
struct Lists {
    conditions: Items<TypedExpr>,
    columns: Columns,
    order: Items<(TypedExpr, bool)>,
}

fn lists_of(alloc: Global, parts: Parts) -> Result<Lists, Memory>
    ensures { IfOk result (λ lists. AreLists lists (select_parts parts)) }
{
    let Parts {
        ons,
        filter,
        outputs,
        order,
    } = parts;
    let conditions = conditions_of(ons, filter);
    let ((outputs, order), conditions) = beside((outputs, order), conditions)?;
    let columns = columns_of(alloc, outputs);
    let ((conditions, order), columns) = beside((conditions, order), columns)?;
    Ok(Lists {
        conditions,
        columns,
        order,
    })
}

/// The columns of each entry's table that the SELECT mentions.
fn mentioned_in(
    alloc: Global,
    entries: &[FromEntry<'_>],
    lists: &Lists,
) -> Result<Items<Items<u32>>, Memory>
    requires { IsNarrow (map shown.seen entries.now) }
    ensures { IfOk result (λ all. all
        ≡ map (spec.mentioned_of (shown.entries entries.now) (listed lists.now)) (shown.entries entries.now)) }
{
    let read = Read {
        conditions: lists.conditions.as_slice(),
        items: lists.columns.items.as_slice(),
        order: lists.order.as_slice(),
    };
    mentioned(alloc, entries, &read)
}

fn assembled(
    select: &Select,
    lists: Lists,
    points: Items<Option<Key>>,
    mentioned: Items<Items<u32>>,
    tables: Items<u32>,
    place: Place,
) -> TypedSelect
    ensures { result ≡ typed_of select.now lists points mentioned tables (is_group place) }
{
    let Lists {
        conditions,
        columns: Columns { fields, items },
        order,
    } = lists;
    TypedSelect {
        fields,
        tables,
        mentioned,
        points,
        conditions,
        items,
        order,
        aggregate: is_group(place),
        limit: select.limit,
        offset: select.offset.unwrap_or(0),
    }
}

/// The typed SELECT of its parts.
fn whole(
    alloc: Global,
    select: &Select,
    entries: &[FromEntry<'_>],
    parts: Parts,
    place: Place,
) -> Result<TypedSelect, Memory>
    requires { IsNarrow (map shown.seen entries.now) }
    ensures { IfOk result (λ typed. typed ≡ whole (shown.entries entries.now) select.now (is_group place) (select_parts parts)) }
{
    let points = points_of(alloc, entries, parts.filter.as_ref());
    let (parts, points) = beside(parts, points)?;
    let lists = lists_of(alloc, parts);
    let (points, lists) = beside(points, lists)?;
    let mentioned = mentioned_in(alloc, entries, &lists);
    let ((points, lists), mentioned) = beside((points, lists), mentioned)?;
    let tables = numbers_of(alloc, entries);
    let ((points, lists, mentioned), tables) = beside((points, lists, mentioned), tables)?;
    Ok(assembled(select, lists, points, mentioned, tables, place))
}

/// The typed tree of a SELECT over these tables, which are numbered from 0, or the code that comes first (PostgreSQL's
/// documentation, "SELECT").
///
/// FROM comes first: more than four entries are `S54000`, an unknown table `S42P01`, a name that stands twice `S42712`. Then
/// the conditions of JOIN, of which each sees the entries up to its own, and WHERE, with the codes of `typed_flag`. Then the
/// items: more than 1,664 columns are `S54000`, `*` without FROM `S42601` and beside an aggregate `S42803`, and a column
/// outside an aggregate beside one `S42803`. Then ORDER BY: a position that no column has is `S42601`, and a term beside an
/// aggregate `S0A000`.
#[tactic(auto, unfolding(typing_rules::specs::Select::typed_select))]
pub fn typed_select(
    alloc: Global,
    select: &Select,
    tables: &[Table],
) -> Result<TypedSelect, SqlFault>
    requires { AreFewAndNarrow tables.now }
    ensures { Gives (spec.typed_select tables.now select.now) result }
{
    let entries = entries_of(alloc, tables, select.from.as_slice())?;
    let scope = scope_of(alloc, entries.as_slice())?;
    let place = place_of(select);
    let parts = parts_of(alloc, select, scope.as_slice(), place)?;
    Ok(whole(alloc, select, entries.as_slice(), parts, place)?)
}
