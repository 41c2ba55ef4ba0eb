// Bound requests and refusals as texts: what has a number stands as that, and a column as `source.column`.
use ifdb_bound::{
    Bound, BoundAssignment, BoundColumn, BoundCond, BoundExpr, BoundItem, BoundOperand,
    BoundSelect, BoundSource, Change, Column, Foreign, OrderKey, Relation, Schema, ViewDef,
};
use ifdb_label::{Label, Tag, TagKind};
use ifdb_value::{Compare, Name, TableId, Value, ValueKind, ValueRow};
use ifdb_wire::Fault;
use std::alloc::{AllocError, Global};

/// What a request is bound to, or its refusal.
pub(super) fn shown(alloc: Global, answer: &Result<Bound, Fault>) -> Result<String, AllocError> {
    let mut text = String::new(alloc);
    match answer {
        Ok(bound) => bound.show(&mut text)?,
        Err(fault) => write!(text, "{fault:?}")?,
    }
    Ok(text)
}

/// What is written behind a text.
trait Show {
    fn show(&self, text: &mut String) -> Result<(), AllocError>;
}

/// Things, in order, joined by commas.
fn list<T: Show>(text: &mut String, things: &[T]) -> Result<(), AllocError> {
    for (place, thing) in things.iter().enumerate() {
        if place > 0 {
            text.push_str(", ")?;
        }
        thing.show(text)?;
    }
    Ok(())
}

/// Things in parentheses, behind a word.
fn listed<T: Show>(text: &mut String, word: &str, things: &[T]) -> Result<(), AllocError> {
    text.push_str(word)?;
    text.push_str("(")?;
    list(text, things)?;
    text.push_str(")")
}

/// A word and what stands behind it, or nothing where nothing stands there.
fn behind<T: Show>(text: &mut String, word: &str, things: &[T]) -> Result<(), AllocError> {
    if things.is_empty() {
        return Ok(());
    }
    text.push_str(word)?;
    list(text, things)
}

/// A word and a number.
fn numbered(text: &mut String, word: &str, number: u64) -> Result<(), AllocError> {
    text.push_str(word)?;
    write!(text, "{number}")
}

impl Show for Bound {
    fn show(&self, text: &mut String) -> Result<(), AllocError> {
        match self {
            Bound::Change(change) => change.show(text),
            Bound::SetLabel { label } => listed(text, "label ", label.tags()),
            Bound::Select(query) => query.show(text),
            Bound::Insert { table, rows, given } => insert(text, *table, rows.items(), given),
            Bound::Update {
                table,
                assignments,
                cond,
                given,
            } => update(text, *table, assignments.items(), cond, given),
            Bound::Delete { table, cond } => delete(text, *table, cond),
            Bound::Other => text.push_str("other"),
        }
    }
}

// ---- writes

fn insert(
    text: &mut String,
    table: TableId,
    rows: &[ValueRow],
    given: &Label,
) -> Result<(), AllocError> {
    numbered(text, "insert ", table.0)?;
    behind(text, " ", rows)?;
    listed(text, " given ", given.tags())
}

fn update(
    text: &mut String,
    table: TableId,
    assignments: &[BoundAssignment],
    cond: &Option<BoundCond>,
    given: &Label,
) -> Result<(), AllocError> {
    numbered(text, "update ", table.0)?;
    behind(text, " set ", assignments)?;
    behind_where(text, cond)?;
    listed(text, " given ", given.tags())
}

fn delete(text: &mut String, table: TableId, cond: &Option<BoundCond>) -> Result<(), AllocError> {
    numbered(text, "delete ", table.0)?;
    behind_where(text, cond)
}

// ---- changes

impl Show for Change {
    fn show(&self, text: &mut String) -> Result<(), AllocError> {
        match self {
            Change::Principal {
                asker,
                name,
                key,
                clearance,
            } => {
                principal(text, name, key.as_str())?;
                if let Some(label) = clearance {
                    listed(text, " clearance ", label.tags())?;
                }
                numbered(text, " by ", asker.0)
            }
            Change::Tag {
                asker,
                name,
                kind,
                parents,
            } => {
                tag(text, name, *kind, parents.items())?;
                numbered(text, " by ", asker.0)
            }
            Change::Table { asker, schema } => {
                schema.show(text)?;
                numbered(text, " by ", asker.0)
            }
            Change::View { view } => view.show(text),
            Change::Grant { asker, tag, to } => {
                numbered(text, "grant ", tag.0)?;
                numbered(text, " to ", to.0)?;
                numbered(text, " by ", asker.0)
            }
            Change::Revoke { asker, tag, from } => {
                numbered(text, "revoke ", tag.0)?;
                numbered(text, " from ", from.0)?;
                numbered(text, " by ", asker.0)
            }
        }
    }
}

fn principal(text: &mut String, name: &Name, key: &str) -> Result<(), AllocError> {
    text.push_str("principal ")?;
    name.show(text)?;
    text.push_str(" key ")?;
    quoted(text, key)
}

fn tag(text: &mut String, name: &Name, kind: TagKind, parents: &[Tag]) -> Result<(), AllocError> {
    let word = match kind {
        TagKind::Plain => "plain tag ",
        TagKind::Compound => "compound tag ",
    };
    text.push_str(word)?;
    name.show(text)?;
    listed(text, " in ", parents)
}

impl Show for Schema {
    fn show(&self, text: &mut String) -> Result<(), AllocError> {
        text.push_str("table ")?;
        self.name.show(text)?;
        listed(text, " ", self.columns.items())?;
        listed(text, " key ", self.key.items())?;
        behind(text, " foreign ", self.foreign.items())
    }
}

impl Show for Foreign {
    fn show(&self, text: &mut String) -> Result<(), AllocError> {
        listed(text, "", self.columns.items())?;
        numbered(text, " to ", self.parent.0)
    }
}

impl Show for ViewDef {
    fn show(&self, text: &mut String) -> Result<(), AllocError> {
        text.push_str("view ")?;
        self.name.show(text)?;
        listed(text, " ", self.names.items())?;
        numbered(text, " by ", self.owner.0)?;
        listed(text, " for ", self.declassifying.tags())?;
        text.push_str(": ")?;
        self.select.show(text)
    }
}

// ---- SELECT

impl Show for BoundSelect {
    fn show(&self, text: &mut String) -> Result<(), AllocError> {
        list(text, self.items.items())?;
        behind(text, " from ", self.sources.items())?;
        behind_where(text, &self.cond)?;
        behind(text, " group ", self.group.items())?;
        behind(text, " order ", self.order.items())
    }
}

/// What stands behind WHERE, if anything does.
fn behind_where(text: &mut String, cond: &Option<BoundCond>) -> Result<(), AllocError> {
    match cond {
        Some(cond) => {
            text.push_str(" where ")?;
            show_cond(text, cond)
        }
        None => Ok(()),
    }
}

impl Show for BoundSource {
    fn show(&self, text: &mut String) -> Result<(), AllocError> {
        match self.relation {
            Relation::Table(table) => numbered(text, "table ", table.0)?,
            Relation::View(view) => numbered(text, "view ", view.0)?,
        }
        listed(text, " ", self.key.items())
    }
}

impl Show for BoundItem {
    fn show(&self, text: &mut String) -> Result<(), AllocError> {
        match self {
            BoundItem::Expr(expr) => show_expr(text, expr),
            BoundItem::LabelOf(source) => numbered(text, "label ", *source as u64),
            BoundItem::CountAll => text.push_str("count"),
            BoundItem::Sum(column) => aggregate(text, "sum ", column),
            BoundItem::Min(column) => aggregate(text, "min ", column),
            BoundItem::Max(column) => aggregate(text, "max ", column),
        }
    }
}

fn aggregate(text: &mut String, word: &str, column: &BoundColumn) -> Result<(), AllocError> {
    text.push_str(word)?;
    column.show(text)
}

impl Show for OrderKey {
    fn show(&self, text: &mut String) -> Result<(), AllocError> {
        self.place.show(text)?;
        if self.descending {
            text.push_str(" desc")?;
        }
        Ok(())
    }
}

// ---- conditions

/// A condition, its members in parentheses.
#[cycle(shows)]
fn show_cond(text: &mut String, cond: &BoundCond) -> Result<(), AllocError> {
    match cond {
        BoundCond::Or(members) => show_members(text, "or(", members.items()),
        BoundCond::And(members) => show_members(text, "and(", members.items()),
        BoundCond::Not(inner) => {
            text.push_str("not(")?;
            show_cond(text, inner.get())?;
            text.push_str(")")
        }
        BoundCond::Compare { left, how, right } => compared(text, left, *how, right),
        BoundCond::IsNull { operand, negated } => {
            operand.show(text)?;
            text.push_str(if *negated { " is not null" } else { " is null" })
        }
    }
}

/// The members of a condition behind a word, joined by commas.
#[cycle(shows)]
fn show_members(text: &mut String, word: &str, members: &[BoundCond]) -> Result<(), AllocError> {
    text.push_str(word)?;
    for (place, member) in members.iter().enumerate() {
        if place > 0 {
            text.push_str(", ")?;
        }
        show_cond(text, member)?;
    }
    text.push_str(")")
}

fn compared(
    text: &mut String,
    left: &BoundOperand,
    how: Compare,
    right: &BoundOperand,
) -> Result<(), AllocError> {
    left.show(text)?;
    text.push_str(sign(how))?;
    right.show(text)
}

/// The sign of a comparison.
fn sign(how: Compare) -> &'static str {
    match how {
        Compare::Equal => " = ",
        Compare::NotEqual => " <> ",
        Compare::Less => " < ",
        Compare::AtMost => " <= ",
        Compare::Greater => " > ",
        Compare::AtLeast => " >= ",
    }
}

impl Show for BoundOperand {
    fn show(&self, text: &mut String) -> Result<(), AllocError> {
        match self {
            BoundOperand::Column(column) => column.show(text),
            BoundOperand::Literal(value) => value.show(text),
        }
    }
}

// ---- expressions

/// An expression, each operation in parentheses.
fn show_expr(text: &mut String, expr: &BoundExpr) -> Result<(), AllocError> {
    match expr {
        BoundExpr::Column(column) => column.show(text),
        BoundExpr::Literal(value) => value.show(text),
        BoundExpr::Add(left, right) => {
            text.push_str("(")?;
            show_expr(text, left.get())?;
            text.push_str(" + ")?;
            show_expr(text, right.get())?;
            text.push_str(")")
        }
        BoundExpr::Sub(left, right) => {
            text.push_str("(")?;
            show_expr(text, left.get())?;
            text.push_str(" - ")?;
            show_expr(text, right.get())?;
            text.push_str(")")
        }
        BoundExpr::Mul(left, right) => {
            text.push_str("(")?;
            show_expr(text, left.get())?;
            text.push_str(" * ")?;
            show_expr(text, right.get())?;
            text.push_str(")")
        }
    }
}

impl Show for BoundAssignment {
    fn show(&self, text: &mut String) -> Result<(), AllocError> {
        self.column.show(text)?;
        text.push_str(" = ")?;
        show_expr(text, &self.expr)
    }
}

impl Show for BoundColumn {
    fn show(&self, text: &mut String) -> Result<(), AllocError> {
        self.source.show(text)?;
        text.push_str(".")?;
        self.column.show(text)
    }
}

// ---- names, numbers and values

impl Show for Column {
    fn show(&self, text: &mut String) -> Result<(), AllocError> {
        self.name.show(text)?;
        match self.kind {
            ValueKind::Int => text.push_str(" INT"),
            ValueKind::Text => text.push_str(" TEXT"),
        }
    }
}

impl Show for ValueRow {
    fn show(&self, text: &mut String) -> Result<(), AllocError> {
        listed(text, "", self.items())
    }
}

impl Show for Value {
    fn show(&self, text: &mut String) -> Result<(), AllocError> {
        match self {
            Value::Null => text.push_str("null"),
            Value::Int(number) => write!(text, "{number}"),
            Value::Text(word) => quoted(text, word.as_str()),
        }
    }
}

/// A text between quotes.
fn quoted(text: &mut String, word: &str) -> Result<(), AllocError> {
    text.push_str("'")?;
    text.push_str(word)?;
    text.push_str("'")
}

impl Show for Name {
    fn show(&self, text: &mut String) -> Result<(), AllocError> {
        text.push_str(self.as_str())
    }
}

impl Show for Tag {
    fn show(&self, text: &mut String) -> Result<(), AllocError> {
        numbered(text, "", self.0)
    }
}

impl Show for usize {
    fn show(&self, text: &mut String) -> Result<(), AllocError> {
        numbered(text, "", *self as u64)
    }
}
