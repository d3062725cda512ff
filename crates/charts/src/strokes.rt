//! The marks of a picture as text.
ghost use Rattle.std.specs.Prelude.{◌≡◌, ◌+◌, ◌*◌, ◌++◌, OnOk};
ghost use Rattle.charts.specs.Strokes as stroke;

use ipdl_base::Side;
use std::alloc::AllocError;
use value_types::push_decimal;

/// What an arrow shows.
#[derive(Clone, Copy)]
pub enum Arrow {
    /// A request whose sender waits.
    Sync,
    /// Another request.
    Async,
    /// A reply.
    Reply,
    /// A goodbye, or the mark of a death.
    Farewell,
}

/// A point of the page, from the left and from the top.
#[derive(Clone, Copy)]
pub struct Point {
    /// How far it is from the left.
    pub x: u32,
    /// How far it is from the top.
    pub y: u128,
}

/// Returns how far below the top of the page a row is.
pub fn height(row: usize) -> u128
    ensures { result ≡ stroke.height row }
{
    70 + 20 * (row as u128)
}

/// Returns where the lifeline of a side is.
pub fn lane(side: Side) -> u32
    ensures { result ≡ stroke.lane side }
{
    match side {
        Side::Parent => 600,
        Side::Child => 800,
    }
}

/// Returns where arrows begin and end at a side.
fn edge(side: Side) -> u32
    ensures { result ≡ stroke.edge side }
{
    match side {
        Side::Parent => 607,
        Side::Child => 793,
    }
}

/// Appends two numbers with a text between them.
fn push_pair(out: &mut Vec<u8>, point: Point, between: &[u8]) -> Result<(), AllocError>
    ensures { OnOk result (out.new.items ≡ out.old.items ++ stroke.pair point.x between.now point.y) }
{
    push_decimal(out, point.x)?;
    out.extend_from_slice(between)?;
    push_decimal(out, point.y)
}

/// Appends the ends of a line, after its style.
fn push_ends(out: &mut Vec<u8>, from: Point, to: Point) -> Result<(), AllocError>
    ensures { OnOk result (out.new.items ≡ out.old.items ++ stroke.ends from.x from.y to.x to.y) }
{
    out.extend_from_slice(b" d=\"M")?;
    push_pair(out, from, b" ")?;
    out.extend_from_slice(b"L")?;
    push_pair(out, to, b" ")?;
    out.extend_from_slice(b"\"/>")
}

/// Appends a line between two points.
pub fn push_stroke(
    out: &mut Vec<u8>,
    style: &[u8],
    from: Point,
    to: Point,
) -> Result<(), AllocError>
    ensures { OnOk result (out.new.items ≡ out.old.items ++ stroke.stroke style.now from.x from.y to.x to.y) }
{
    out.extend_from_slice(b"<path ")?;
    out.extend_from_slice(style)?;
    push_ends(out, from, to)
}

/// Appends where something is.
fn push_place(out: &mut Vec<u8>, at: Point) -> Result<(), AllocError>
    ensures { OnOk result (out.new.items ≡ out.old.items ++ stroke.place at.x at.y) }
{
    out.extend_from_slice(b" x=\"")?;
    push_pair(out, at, b"\" y=\"")?;
    out.extend_from_slice(b"\"")
}

/// Appends how high a bar is.
fn push_bar_size(out: &mut Vec<u8>, size: u128) -> Result<(), AllocError>
    ensures { OnOk result (out.new.items ≡ out.old.items ++ stroke.bar_size size) }
{
    out.extend_from_slice(b" width=\"10\" height=\"")?;
    push_decimal(out, size)?;
    out.extend_from_slice(b"\"/>")
}

/// Appends a bar.
pub fn push_bar(out: &mut Vec<u8>, style: &[u8], at: Point, size: u128) -> Result<(), AllocError>
    ensures { OnOk result (out.new.items ≡ out.old.items ++ stroke.bar style.now at.x at.y size) }
{
    out.extend_from_slice(b"<rect ")?;
    out.extend_from_slice(style)?;
    push_place(out, at)?;
    push_bar_size(out, size)
}

/// Appends the beginning of words at a place, with two styles after one another.
pub fn push_words_begin(
    out: &mut Vec<u8>,
    style: &[u8],
    more: &[u8],
    at: Point,
) -> Result<(), AllocError>
    ensures { OnOk result (out.new.items ≡ out.old.items ++ stroke.words_begin (style.now ++ more.now) at.x at.y) }
{
    out.extend_from_slice(b"<text ")?;
    out.extend_from_slice(style)?;
    out.extend_from_slice(more)?;
    push_place(out, at)?;
    out.extend_from_slice(b">")
}

/// Returns the style of an arrow's line.
fn arrow_style(arrow: Arrow) -> &'static [u8]
    ensures { result.now ≡ stroke.arrow_style arrow }
{
    match arrow {
        Arrow::Sync => b"class=\"request\" stroke=\"#0072b2\" stroke-width=\"2\"",
        Arrow::Async => {
            b"class=\"request\" stroke=\"#0072b2\" stroke-width=\"2\" stroke-dasharray=\"7 4\""
        }
        Arrow::Reply => b"class=\"reply\" stroke=\"#007a5a\" stroke-width=\"1\"",
        Arrow::Farewell => {
            b"class=\"farewell\" stroke=\"#b34700\" stroke-width=\"2\" stroke-dasharray=\"2 3\""
        }
    }
}

/// Returns the end of an arrow: a head where it arrives.
fn arrow_end(arrives: bool) -> &'static [u8]
    ensures { result.now ≡ stroke.arrow_end arrives }
{
    if arrives {
        b" marker-end=\"url(#head)\""
    } else {
        b" opacity=\".5\""
    }
}

/// Appends an arrow of a side from a row to the row of the other side at which it arrives, or to the bottom if it does not.
pub fn push_arrow(
    out: &mut Vec<u8>,
    arrow: Arrow,
    side: Side,
    from: usize,
    to: Option<usize>,
    bottom: usize,
) -> Result<(), AllocError>
    ensures { OnOk result (out.new.items ≡ out.old.items ++ stroke.arrow_text arrow side from to bottom) }
{
    out.extend_from_slice(b"<path ")?;
    out.extend_from_slice(arrow_style(arrow))?;
    out.extend_from_slice(arrow_end(to.is_some()))?;
    let start = Point {
        x: edge(side),
        y: height(from),
    };
    let end = Point {
        x: edge(side.other()),
        y: height(to.unwrap_or(bottom)),
    };
    push_ends(out, start, end)
}
