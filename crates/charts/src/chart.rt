//! The picture of a history.
ghost use Rattle.std.specs.Prelude.{◌≡◌, ◌++◌, ◌∷◌, [], ℕ, length, List, IfOk, OnOk};
ghost use Rattle.ipdl_base.specs.Sound.{IsSound};
ghost use Rattle.ipdl_base.specs.declared.line.Line.{Line as TheLine};
ghost use Rattle.history.specs.Text.{line_begin};
ghost use Rattle.charts.specs.Chart as chart;
ghost use Rattle.charts.specs.Noted.{noted};
ghost use Rattle.charts.specs.Tallies.{AreBelow, KnowsLines, place_by, tally_at};

use crate::escapes::push_shown;
use crate::labels::{push_cut, push_row_words};
use crate::marks::{Place, push_marks};
use crate::rows::{Rows, SideRows};
use crate::strokes::{Point, height, lane, push_stroke, push_words_begin};
use crate::tally::Tally;
use history::LineWriter;
use ipdl_base::{Line, Schema, Side, What, is_effect};
use std::alloc::{AllocError, Global};
use value_types::push_decimal;

/// The style of a lifeline.
const LIFE_STYLE: &[u8] = b"class=\"life\" stroke=\"#555\" stroke-width=\"1\"";

/// Returns the beginning of the document, up to its height.
#[tactic(auto, unfolding(crate::specs::Chart::head_start))]
fn head_start() -> &'static [u8]
    ensures { result.now ≡ chart.head_start }
{
    b"<svg xmlns=\"http://www.w3.org/2000/svg\" viewBox=\"0 0 1400 "
}

/// Returns the beginning of the document after its height: names for readers that do not see it, colors for dark screens, the
/// head of an arrow, the ground and the names of the sides.
#[tactic(auto, unfolding(crate::specs::Chart::head_end))]
fn head_end() -> &'static [u8]
    ensures { result.now ≡ chart.head_end }
{
    b"\" role=\"img\" aria-labelledby=\"name about\" font-family=\"ui-monospace, Menlo, Consolas, 'DejaVu Sans Mono', monospace\" font-size=\"13\">\n<title id=\"name\">The history of a channel</title>\n<desc id=\"about\">The lifeline of the parent is on the left and that of the child on the right. Each row is a line of the history. Arrows go from a send to its delivery, bars are handlers and waits.</desc>\n<style>@media(prefers-color-scheme:dark){.ground{fill:#16181c}text{fill:#e6e6e6}.trouble{fill:#ffa07a}.life{stroke:#aaa}.request,.outbox,.wait{stroke:#56b4e9}.wait{fill:#16181c}.reply{stroke:#2fc79b}.farewell,.fall{stroke:#ff8c42}.item{stroke:#e58fd2}}</style>\n<defs><marker id=\"head\" viewBox=\"0 0 8 8\" refX=\"8\" refY=\"4\" markerWidth=\"8\" markerHeight=\"8\" markerUnits=\"userSpaceOnUse\" orient=\"auto\"><path fill=\"context-stroke\" d=\"M0 0L8 4L0 8Z\"/></marker></defs>\n<rect class=\"ground\" width=\"100%\" height=\"100%\" fill=\"#fff\"/>\n<text x=\"600\" y=\"32\" text-anchor=\"middle\" font-size=\"16\">parent</text>\n<text x=\"800\" y=\"32\" text-anchor=\"middle\" font-size=\"16\">child</text>\n"
}

/// Returns whether a line tells of trouble: a refusal, a drop, a fault, a fall or a death.
fn is_trouble(what: &What) -> bool
    ensures { result ≡ chart.is_trouble what.now }
{
    matches!(
        what,
        What::RefusedSend(..)
            | What::RefusedClose(..)
            | What::RefusedResolve(..)
            | What::RefusedReject(..)
            | What::Drop(..)
            | What::Replaced(..)
            | What::ResumeFault(..)
            | What::AnswerFault(..)
            | What::Fails(..)
            | What::Rejected(..)
            | What::Fall(..)
            | What::Die
            | What::DeliverBroken
    )
}

/// Returns the color of words.
fn tone(what: &What) -> &'static [u8]
    ensures { result.now ≡ chart.tone what.now }
{
    if is_trouble(what) {
        b" class=\"trouble\" fill=\"#9a3412\""
    } else if is_effect(what) {
        b" opacity=\".75\""
    } else {
        b""
    }
}

/// Returns on which side of their place the words of a label are.
fn anchor(side: Side) -> &'static [u8]
    ensures { result.now ≡ chart.anchor side }
{
    match side {
        Side::Parent => b"text-anchor=\"end\"",
        Side::Child => b"text-anchor=\"start\"",
    }
}

/// Returns where the words of a label are.
fn label_place(side: Side) -> u32
    ensures { result ≡ chart.label_place side }
{
    match side {
        Side::Parent => 545,
        Side::Child => 855,
    }
}

/// Appends the label of a row, by the words of its line. What `scratch` had is gone.
fn push_label(
    out: &mut Vec<u8>,
    scratch: &mut Vec<u8>,
    schema: &Schema,
    place: Place,
    words: &[u8],
    what: &What,
) -> Result<(), AllocError>
    requires { IsSound schema.now }
    ensures { OnOk result (out.new.items ≡ out.old.items ++ chart.label schema.now place words.now what.now) }
{
    scratch.clear();
    push_row_words(scratch, schema, words, what)?;
    let at = Point {
        x: label_place(place.side),
        y: 74 + 20 * (place.row as u128),
    };
    push_words_begin(out, anchor(place.side), tone(what), at)?;
    push_cut(out, scratch.as_slice())?;
    out.extend_from_slice(b"</text>")
}

/// Appends the title of a row.
fn push_title(out: &mut Vec<u8>, title: &[u8]) -> Result<(), AllocError>
    ensures { OnOk result (out.new.items ≡ out.old.items ++ chart.title title.now) }
{
    out.extend_from_slice(b"<g><title>")?;
    push_shown(out, title)?;
    out.extend_from_slice(b"</title>")
}

/// Returns how many bytes the beginning of a line takes.
fn begin_length(line: &Line) -> usize
    ensures { result ≡ length (line_begin line.now) }
{
    match (is_effect(&line.what), line.side) {
        (true, _) => 2,
        (false, Side::Parent) => 7,
        (false, Side::Child) => 6,
    }
}

/// Appends a row, by the text of its line without the line feed.
fn push_row_of(
    out: &mut Vec<u8>,
    scratch: &mut Vec<u8>,
    schema: &Schema,
    rows: &Rows,
    place: Place,
    line: &Line,
    text: &[u8],
) -> Result<(), AllocError>
    requires sound { IsSound schema.now }
    requires begins { (words : List ℕ) × (text.now ≡ line_begin line.now ++ words) }
    ensures { OnOk result ((words : List ℕ) → text.now ≡ line_begin line.now ++ words → out.new.items ≡ out.old.items ++ chart.row_at schema.now (noted rows.now) place line.now words) }
{
    let words = &text[begin_length(line)..];
    push_title(out, text)?;
    push_marks(out, rows, place, &line.what)?;
    push_label(out, scratch, schema, place, words, &line.what)?;
    out.extend_from_slice(b"</g>\n")
}

/// Writes the rows of a picture one after another.
#[derive(Drop)]
pub struct Pen {
    /// The writer of the lines of the transcript.
    pub writer: LineWriter,
    /// Room for the words of a row.
    pub scratch: Vec<u8>,
    /// The tally of the parent.
    pub parent: Tally,
    /// The tally of the child.
    pub child: Tally,
}

impl Pen {
    /// Creates a pen that has written no row. Takes no memory.
    fn new(alloc: Global) -> Pen
        ensures { KnowsLines [] result }
    {
        Pen {
            writer: LineWriter::new(alloc),
            scratch: Vec::new(alloc),
            parent: Tally::none(),
            child: Tally::none(),
        }
    }

    /// Returns the tally of a side.
    fn tally(&self, side: Side) -> Tally
        ensures { result ≡ tally_at self.now side }
    {
        match side {
            Side::Parent => self.parent,
            Side::Child => self.child,
        }
    }

    /// Returns where a line is drawn.
    fn place(&self, side: Side, row: usize, count: usize) -> Place
        ensures { result ≡ place_by count row (tally_at self.now side) side }
    {
        let tally = self.tally(side);
        Place {
            side,
            row,
            count,
            depth: tally.depth(),
            brought: tally.brought,
        }
    }

    /// Appends the row of the next line, of so many.
    fn push_row(
        &mut self,
        out: &mut Vec<u8>,
        schema: &Schema,
        rows: &Rows,
        row: usize,
        count: usize,
        line: &Line,
    ) -> Result<(), AllocError>
        requires sound { IsSound schema.now }
        requires known { (before : List TheLine) × KnowsLines before self.old }
        requires parent { AreBelow 18446744073709551615 self.old.parent }
        requires child { AreBelow 18446744073709551615 self.old.child }
        ensures knows { OnOk result ((before : List TheLine) → KnowsLines before self.old → KnowsLines (before ++ line.now ∷ []) self.new) }
        ensures text { OnOk result ((before : List TheLine) → KnowsLines before self.old → row ≡ length before → out.new.items ≡ out.old.items ++ chart.row_text schema.now (noted rows.now) count before line.now) }
    {
        self.writer.write(schema, line)?;
        let place = self.place(line.side, row, count);
        let text = self.writer.newest();
        let text = &text[..text.len() - 1];
        push_row_of(out, &mut self.scratch, schema, rows, place, line, text)?;
        self.parent = self.parent.with(Side::Parent, line);
        self.child = self.child.with(Side::Child, line);
        Ok(())
    }

    /// Appends the rows of lines, starting with none.
    fn push_rows(
        &mut self,
        out: &mut Vec<u8>,
        schema: &Schema,
        rows: &Rows,
        lines: &[Line],
    ) -> Result<(), AllocError>
        requires sound { IsSound schema.now }
        requires new { KnowsLines [] self.old }
        ensures { OnOk result (out.new.items ≡ out.old.items ++ chart.rows_text schema.now (noted rows.now) (length lines.now) [] lines.now) }
    {
        let mut row = 0;
        for line in lines {
            self.push_row(out, schema, rows, row, lines.len(), line)?;
            row += 1;
        }
        Ok(())
    }
}

/// Appends the end of a lifeline.
fn push_cap(out: &mut Vec<u8>, side: Side, row: usize) -> Result<(), AllocError>
    ensures { OnOk result (out.new.items ≡ out.old.items ++ chart.cap side row) }
{
    let x = lane(side);
    let y = height(row);
    push_stroke(
        out,
        LIFE_STYLE,
        Point { x: x - 12, y },
        Point { x: x + 12, y },
    )
}

/// Appends the lifeline of a side, down to its end, which is marked if the side has ended.
fn push_lifeline(
    out: &mut Vec<u8>,
    rows: SideRows,
    side: Side,
    count: usize,
) -> Result<(), AllocError>
    ensures { OnOk result (out.new.items ≡ out.old.items ++ chart.lifeline rows side count) }
{
    let bottom = rows.bottom(count);
    let x = lane(side);
    let y = height(bottom);
    push_stroke(out, LIFE_STYLE, Point { x, y: 44 }, Point { x, y })?;
    if rows.ended {
        push_cap(out, side, bottom)
    } else {
        Ok(())
    }
}

/// Appends the beginning of the document, up to the lifelines.
fn push_opening(out: &mut Vec<u8>, count: usize) -> Result<(), AllocError>
    ensures { OnOk result (out.new.items ≡ out.old.items ++ chart.opening count) }
{
    out.extend_from_slice(head_start())?;
    push_decimal(out, 130 + 20 * (count as u128))?;
    out.extend_from_slice(head_end())
}

/// Appends the beginning of the document, with the lifelines of so many rows.
fn push_head(out: &mut Vec<u8>, rows: &Rows, count: usize) -> Result<(), AllocError>
    ensures { OnOk result (out.new.items ≡ out.old.items ++ chart.head (noted rows.now) count) }
{
    push_opening(out, count)?;
    push_lifeline(out, rows.parent, Side::Parent, count)?;
    push_lifeline(out, rows.child, Side::Child, count)?;
    out.extend_from_slice(b"\n")
}

/// Returns how the run ended, by the side that has the most events, if one has.
fn ending_words(spent: Option<Side>) -> &'static [u8]
    ensures { result.now ≡ chart.ending_words spent }
{
    match spent {
        None => b"finished",
        Some(Side::Parent) => b"spent parent",
        Some(Side::Child) => b"spent child",
    }
}

/// Appends the end of the document, after so many rows.
fn push_foot(out: &mut Vec<u8>, count: usize, spent: Option<Side>) -> Result<(), AllocError>
    ensures { OnOk result (out.new.items ≡ out.old.items ++ chart.foot count spent) }
{
    let at = Point {
        x: 700,
        y: 110 + 20 * (count as u128),
    };
    push_words_begin(out, b"text-anchor=\"middle\"", b" font-size=\"16\"", at)?;
    out.extend_from_slice(ending_words(spent))?;
    out.extend_from_slice(b"</text>\n</svg>\n")
}

/// Appends the picture of a history, by its rows.
fn push_chart(
    out: &mut Vec<u8>,
    pen: &mut Pen,
    schema: &Schema,
    rows: &Rows,
    lines: &[Line],
    spent: Option<Side>,
) -> Result<(), AllocError>
    requires sound { IsSound schema.now }
    requires new { KnowsLines [] pen.old }
    ensures { OnOk result (out.new.items ≡ out.old.items ++ chart.chart_by schema.now (noted rows.now) lines.now spent) }
{
    push_head(out, rows, lines.len())?;
    pen.push_rows(out, schema, rows, lines)?;
    push_foot(out, lines.len(), spent)
}

/// Returns the picture of a history as an SVG document (docs/chart.md). `spent` is the side that has the most events, if the run
/// ended so. The time is in proportion to the length of the picture. Fails only if memory runs out.
pub fn chart_text(
    alloc: Global,
    schema: &Schema,
    lines: &[Line],
    spent: Option<Side>,
) -> Result<Vec<u8>, AllocError>
    requires { IsSound schema.now }
    ensures { IfOk result (λ text. text.items ≡ chart.chart_text schema.now lines.now spent) }
{
    let rows = Rows::of(alloc, schema, lines)?;
    let mut pen = Pen::new(alloc);
    let mut out = Vec::new(alloc);
    push_chart(&mut out, &mut pen, schema, &rows, lines, spent)?;
    Ok(out)
}
