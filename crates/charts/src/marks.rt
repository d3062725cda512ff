//! What is drawn of a line.
ghost use Rattle.std.specs.Prelude.{◌≡◌, ◌-◌, ◌++◌, OnOk};
ghost use Rattle.charts.specs.Marks as mark;
ghost use Rattle.charts.specs.Noted.{noted};

use crate::rows::Rows;
use crate::strokes::{Arrow, Point, height, lane, push_arrow, push_bar, push_stroke};
use ipdl_base::{Side, What};
use std::alloc::AllocError;

/// Where a line is drawn.
#[derive(Clone, Copy)]
pub struct Place {
    /// The side of the line.
    pub side: Side,
    /// The row of the line.
    pub row: usize,
    /// How many rows there are.
    pub count: usize,
    /// How many bars of the side the row lies in.
    pub depth: usize,
    /// How many items have arrived at the side before.
    pub brought: usize,
}

/// Returns where a bar is, by how many others of its side it lies in.
fn bar_place(side: Side, depth: usize) -> u32
    ensures { result ≡ mark.bar_place side depth }
{
    let shift = 5 * depth.min(9) as u32;
    match side {
        Side::Parent => 595 - shift,
        Side::Child => 795 + shift,
    }
}

/// Returns where a waiting item is, by how many arrived before it.
fn item_place(side: Side, count: usize) -> u32
    ensures { result ≡ mark.item_place side count }
{
    let shift = 4 * (count % 8) as u32;
    match side {
        Side::Parent => 618 + shift,
        Side::Child => 782 - shift,
    }
}

/// Returns where an outbox is.
fn outbox_place(side: Side) -> u32
    ensures { result ≡ mark.outbox_place side }
{
    match side {
        Side::Parent => 611,
        Side::Child => 789,
    }
}

/// Returns the bottom of the side of a place.
fn bottom_at(rows: &Rows, place: Place) -> usize
    ensures { result ≡ mark.bottom_at (noted rows.now) place }
{
    rows.of_side(place.side).bottom(place.count)
}

/// Appends an arrow from a place.
fn push_arrow_at(
    out: &mut Vec<u8>,
    arrow: Arrow,
    place: Place,
    to: Option<usize>,
) -> Result<(), AllocError>
    ensures { OnOk result (out.new.items ≡ out.old.items ++ mark.arrow_at arrow place to) }
{
    push_arrow(out, arrow, place.side, place.row, to, place.count)
}

/// Appends the bar of a handler or of a wait.
fn push_bar_at(
    out: &mut Vec<u8>,
    rows: &Rows,
    place: Place,
    style: &[u8],
    to: Option<usize>,
) -> Result<(), AllocError>
    ensures { OnOk result (out.new.items ≡ out.old.items ++ mark.bar_at (noted rows.now) place style.now to) }
{
    let end = height(to.unwrap_or(bottom_at(rows, place)));
    let at = Point {
        x: bar_place(place.side, place.depth),
        y: height(place.row),
    };
    push_bar(out, style, at, end.saturating_sub(at.y))
}

/// Appends a line down from the row of a place to another row.
fn push_down(
    out: &mut Vec<u8>,
    style: &[u8],
    place: Place,
    x: u32,
    to: usize,
) -> Result<(), AllocError>
    ensures { OnOk result (out.new.items ≡ out.old.items ++ mark.down style.now place x to) }
{
    let from = Point {
        x,
        y: height(place.row),
    };
    push_stroke(out, style, from, Point { x, y: height(to) })
}

/// Appends an item that waits.
fn push_item_at(
    out: &mut Vec<u8>,
    rows: &Rows,
    place: Place,
    to: Option<usize>,
) -> Result<(), AllocError>
    ensures { OnOk result (out.new.items ≡ out.old.items ++ mark.item_at (noted rows.now) place to) }
{
    let style = b"class=\"item\" stroke=\"#aa4499\" stroke-width=\"3\"";
    let x = item_place(place.side, place.brought);
    push_down(out, style, place, x, to.unwrap_or(bottom_at(rows, place)))
}

/// Appends a lazy send, which waits in the outbox and leaves with a later packet, if it does.
fn push_lazy_at(
    out: &mut Vec<u8>,
    rows: &Rows,
    place: Place,
    number: i32,
    leave: Option<usize>,
) -> Result<(), AllocError>
    ensures { OnOk result (out.new.items ≡ out.old.items ++ mark.lazy_at (noted rows.now) place number leave) }
{
    let style = b"class=\"outbox\" stroke=\"#0072b2\" stroke-width=\"2\" stroke-dasharray=\"2 3\"";
    let x = outbox_place(place.side);
    match leave {
        None => push_down(out, style, place, x, bottom_at(rows, place)),
        Some(left) => {
            push_down(out, style, place, x, left)?;
            let to = rows.arrivals.get(&number).copied();
            push_arrow(out, Arrow::Async, place.side, left, to, place.count)
        }
    }
}

/// Appends an async send, lazy or not.
fn push_send_at(out: &mut Vec<u8>, rows: &Rows, place: Place, number: i32) -> Result<(), AllocError>
    ensures { OnOk result (out.new.items ≡ out.old.items ++ mark.send_at (noted rows.now) place number ((noted rows.now).leaves number)) }
{
    match rows.leaves.get(&number).copied() {
        None => push_arrow_at(
            out,
            Arrow::Async,
            place,
            rows.arrivals.get(&number).copied(),
        ),
        Some(leave) => push_lazy_at(out, rows, place, number, leave),
    }
}

/// Appends a call: the bar of its wait, and its arrow.
fn push_call_at(out: &mut Vec<u8>, rows: &Rows, place: Place, number: i32) -> Result<(), AllocError>
    ensures { OnOk result (out.new.items ≡ out.old.items ++ mark.call_at (noted rows.now) place number) }
{
    let style = b"class=\"wait\" fill=\"#fff\" stroke=\"#0072b2\" stroke-dasharray=\"3 2\"";
    let resumes = rows.reply_departures.get(&number).copied();
    push_bar_at(out, rows, place, style, resumes)?;
    push_arrow_at(out, Arrow::Sync, place, rows.arrivals.get(&number).copied())
}

/// Appends the bar of a handler.
fn push_take_at(out: &mut Vec<u8>, rows: &Rows, place: Place, number: i32) -> Result<(), AllocError>
    ensures { OnOk result (out.new.items ≡ out.old.items ++ mark.bar_at (noted rows.now) place mark.dispatch_style ((noted rows.now).returns number)) }
{
    let style = b"class=\"dispatch\" fill=\"#e69f00\" stroke=\"#7a5400\"";
    push_bar_at(out, rows, place, style, rows.returns.get(&number).copied())
}

/// Appends a cross on the lifeline.
fn push_cross(out: &mut Vec<u8>, place: Place) -> Result<(), AllocError>
    ensures { OnOk result (out.new.items ≡ out.old.items ++ mark.cross place) }
{
    let style = b"class=\"fall\" stroke=\"#b34700\" stroke-width=\"2\"";
    let left = lane(place.side) - 6;
    let right = lane(place.side) + 6;
    let high = 64 + 20 * (place.row as u128);
    let low = 76 + 20 * (place.row as u128);
    push_stroke(
        out,
        style,
        Point { x: left, y: high },
        Point { x: right, y: low },
    )?;
    push_stroke(
        out,
        style,
        Point { x: left, y: low },
        Point { x: right, y: high },
    )
}

/// Returns whether the row of a place is the first at which an end of the channel is sent or arrives at its side.
fn is_closing(rows: &Rows, place: Place) -> bool
    ensures { result ≡ mark.is_closing (noted rows.now) place }
{
    match rows.of_side(place.side).closing {
        Some(row) => row == place.row,
        None => false,
    }
}

/// Appends the arrow of a goodbye, or of a death, unless an end of the channel was sent or arrived before.
fn push_farewell_at(out: &mut Vec<u8>, rows: &Rows, place: Place) -> Result<(), AllocError>
    ensures { OnOk result (out.new.items ≡ out.old.items ++ mark.farewell_at (noted rows.now) place) }
{
    if !is_closing(rows, place) {
        return Ok(());
    }
    let to = rows.of_side(place.side.other()).farewell;
    push_arrow_at(out, Arrow::Farewell, place, to)
}

/// Appends what is drawn of a line at its place: arrows, bars, what waits, and falls.
pub fn push_marks(
    out: &mut Vec<u8>,
    rows: &Rows,
    place: Place,
    what: &What,
) -> Result<(), AllocError>
    ensures { OnOk result (out.new.items ≡ out.old.items ++ mark.marks (noted rows.now) place what.now) }
{
    match what {
        What::Send(number, ..) => push_send_at(out, rows, place, *number),
        What::Call(number, ..) => push_call_at(out, rows, place, *number),
        What::Resolve(number, _)
        | What::Reject(number)
        | What::AnswerOk(number, _)
        | What::AnswerFault(number, _) => {
            push_arrow_at(
                out,
                Arrow::Reply,
                place,
                rows.reply_arrivals.get(number).copied(),
            )
        }
        What::DeliverRequest(number) => {
            push_item_at(out, rows, place, rows.departures.get(number).copied())
        }
        What::DeliverReply(number) => {
            push_item_at(out, rows, place, rows.reply_departures.get(number).copied())
        }
        What::Take(number, ..) => push_take_at(out, rows, place, *number),
        What::Close | What::Die => push_farewell_at(out, rows, place),
        What::Fall(..) => push_cross(out, place),
        _ => Ok(()),
    }
}
