// The rows of a model's table.
ghost use Rattle.std.specs.Prelude.{◌≡◌, ◌<◌, ◌≤◌, ◌-◌, IfOk, IsTrue, map, drop, length, take};
ghost use Rattle.std.specs.List.{All};
ghost use Rattle.model_leaves.specs.declared.table.Row.{Row as AnyRow};
ghost use Rattle.model_leaves.specs.Rows.{head_of, span_of};
ghost use Rattle.std.specs.Prelude.{slice_index_or};

use crate::table::Row;
use quantity::OutOfMemory;
use std::alloc::Global;
use std::marker::Model;

/// The part that a leaf belongs to, and its number there.
#[derive(Clone, Copy)]
pub(crate) struct Head {
    pub(crate) part: u32,
    pub(crate) cell: u32,
}

/// Where the names of a leaf's input ports begin, and how many there are.
#[derive(Clone, Copy)]
pub(crate) struct PortSpan {
    pub(crate) first: u32,
    pub(crate) count: u32,
}

/// A row for each leaf. The spans of the last leaves are kept once where they are the same, as those
/// of cells without ports. It is seen as the rows.
#[derive(Drop)]
pub(crate) struct Rows {
    heads: Vec<Head>,
    spans: Vec<PortSpan>,
    rest: PortSpan,
}

impl Model for Rows {
    ghost use Rattle.std.specs.Prelude.{List};
    ghost use Rattle.model_leaves.specs.declared.table.Row.{Row as AnyRow};

    ghost Value = { List AnyRow };

    ghost use Rattle.model_leaves.specs.Rows.{rows_of};

    ghost view = { λ r. rows_of r.heads.items r.spans.items r.rest };
}

impl Rows {
    /// These rows.
    pub(crate) fn of(alloc: Global, rows: &[Row]) -> Result<Rows, OutOfMemory>
        ensures { IfOk result (λ made. made ≡ rows.now) }
    {
        let rest = last_span(rows);
        let own = rows.len() - shared_at_end(rows, rest);
        let heads = heads_of(alloc, rows)?;
        let spans = spans_of(alloc, &rows[..own])?;
        Ok(Rows { heads, spans, rest })
    }

    /// The number of rows.
    pub(crate) fn len(&self) -> usize
        ensures { result ≡ length self.now }
    {
        self.heads.len()
    }

    /// The row of a leaf.
    pub(crate) fn at(&self, leaf: u32) -> Row
        requires { leaf < length self.now }
        ensures { result ≡ slice_index_or self.now leaf result }
    {
        let head = self.heads[leaf as usize];
        let span = span_at(&self.spans, leaf as usize, self.rest);
        Row {
            part: head.part,
            cell: head.cell,
            first_port: span.first,
            ports: span.count,
        }
    }
}

/// The span of a row, which is the last one where none is kept of it.
fn span_at(spans: &[PortSpan], row: usize, rest: PortSpan) -> PortSpan
    ensures { result ≡ slice_index_or spans.now row rest }
{
    match spans.get(row) {
        Some(span) => *span,
        None => rest,
    }
}

/// The span of the last row.
fn last_span(rows: &[Row]) -> PortSpan {
    match rows.last() {
        Some(row) => span_of(row),
        None => PortSpan { first: 0, count: 0 },
    }
}

/// Where the names of the input ports of a row's leaf stand.
fn span_of(row: &Row) -> PortSpan
    ensures { result ≡ span_of row.now }
{
    PortSpan {
        first: row.first_port,
        count: row.ports,
    }
}

/// How many rows at the end have this span.
fn shared_at_end(rows: &[Row], rest: PortSpan) -> usize
    ensures within { result ≤ length rows.now }
    ensures same { All (λ (row : AnyRow). span_of row ≡ rest)
        (drop (length rows.now - result) rows.now) }
{
    let mut first = rows.len();
    'ends: while first > 0 {
        if !has_span(&rows[first - 1], rest) {
            return rows.len() - first;
        }
        first -= 1;
    }
    rows.len()
}

fn has_span(row: &Row, span: PortSpan) -> bool
    ensures { IsTrue result → span_of row.now ≡ span }
{
    let first = row.first_port == span.first;
    first & (row.ports == span.count)
}

/// The parts and numbers of rows.
fn heads_of(alloc: Global, rows: &[Row]) -> Result<Vec<Head>, OutOfMemory>
    ensures { IfOk result (λ heads. heads.items ≡ map head_of rows.now) }
{
    let mut heads = Vec::with_capacity(alloc, rows.len())?;
    for row in rows {
        heads.push_reserved(Head {
            part: row.part,
            cell: row.cell,
        });
    }
    Ok(heads)
}

/// The spans of rows.
fn spans_of(alloc: Global, rows: &[Row]) -> Result<Vec<PortSpan>, OutOfMemory>
    ensures { IfOk result (λ spans. spans.items ≡ map span_of rows.now) }
{
    let mut spans = Vec::with_capacity(alloc, rows.len())?;
    for row in rows {
        spans.push_reserved(span_of(row));
    }
    Ok(spans)
}
