//! A picture as SVG.
ghost use Rattle.std.specs.Prelude.{◌≡◌, ◌++◌, map, IfOk, OnOk};
ghost use Rattle.view_drawing.specs.Canvas.{next_line};
ghost use Rattle.view_drawing.specs.CanvasViews.{sketch};
ghost use Rattle.view_drawing.specs.Svg.{with_legend, edge, ink, with_guest, with_guests, with_loads, with_holder, with_holding, with_holdings, blank, drawing, style_text, head_text, document, svg_text};
ghost use Rattle.view_leaves.specs.Views.{step_seen};
ghost use Rattle.view_picture.specs.PictureViews.{guest_seen, load_seen, holding_seen, holdings_seen};

use crate::canvas::Canvas;
use crate::classes::{classes_of, colour_of, palette};
use crate::names::{has_failed, name_of};
use crate::shapes::push_points;
use std::alloc::{AllocError, Global};
use view_leaves::{Step, push_word};
use view_picture::{Guest, Holding, Load};

/// What all that is drawn looks up.
#[derive(Clone, Copy)]
struct Marks<'m, 'f, 'n, 'c> {
    /// The names of what failed.
    failed: &'m [&'f str],
    /// The classes that have a colour of their own.
    classes: &'n [&'c str],
}

/// The edge of a box.
fn edge(failed: bool) -> &'static str
    ensures { result.now ≡ edge failed }
{
    if failed { "#dc2626" } else { "#6b7280" }
}

/// The colour of words that have no box.
fn ink(failed: bool) -> &'static str
    ensures { result.now ≡ ink failed }
{
    if failed { "#dc2626" } else { "#111827" }
}

/// Draws the classes, each in a box of its colour.
fn draw_legend(alloc: Global, canvas: &mut Canvas, classes: &[&str]) -> Result<(), AllocError>
    ensures { OnOk result (sketch canvas.new
        ≡ with_legend 0 (map (λ w. w.now) classes.now) (sketch canvas.old)) }
{
    for (index, class) in classes.iter().enumerate() {
        let mut words = Vec::new(alloc);
        push_word(&mut words, class)?;
        canvas.draw_box(palette(index), "#6b7280", &words)?;
    }
    Ok(())
}

/// Draws a guest.
fn draw_guest(
    alloc: Global,
    canvas: &mut Canvas,
    marks: Marks<'_, '_, '_, '_>,
    guest: &Guest<'_, '_>,
) -> Result<(), AllocError>
    ensures { OnOk result (sketch canvas.new ≡ with_guest (map (λ w. w.now) marks.entry.failed.now)
        (map (λ w. w.now) marks.entry.classes.now) (guest_seen guest.now) (sketch canvas.old)) }
{
    let fill = colour_of(marks.classes, guest.class);
    let stroke = edge(has_failed(alloc, marks.failed, guest.path)?);
    let name = name_of(alloc, marks.failed, guest.path)?;
    canvas.draw_box(fill, stroke, &name)
}

/// Draws the guests of a holder.
fn draw_guests(
    alloc: Global,
    canvas: &mut Canvas,
    marks: Marks<'_, '_, '_, '_>,
    guests: &[Guest<'_, '_>],
) -> Result<(), AllocError>
    ensures { OnOk result (sketch canvas.new ≡ with_guests (map (λ w. w.now) marks.entry.failed.now)
        (map (λ w. w.now) marks.entry.classes.now) (map guest_seen guests.now) (sketch canvas.old)) }
{
    for guest in guests {
        draw_guest(alloc, canvas, marks, guest)?;
    }
    Ok(())
}

/// Draws the loads of a holder.
fn draw_loads(alloc: Global, canvas: &mut Canvas, loads: &[Load<'_>]) -> Result<(), AllocError>
    ensures { OnOk result (sketch canvas.new
        ≡ with_loads (map load_seen loads.now) (sketch canvas.old)) }
{
    for load in loads {
        canvas.draw_load(alloc, load)?;
    }
    Ok(())
}

/// Draws the line of a holder's name.
fn draw_holder(
    alloc: Global,
    canvas: &mut Canvas,
    failed: &[&str],
    holder: &[Step<'_>],
) -> Result<(), AllocError>
    ensures { OnOk result (sketch canvas.new
        ≡ with_holder (map (λ w. w.now) failed.now) (map step_seen holder.now) (sketch canvas.old)) }
{
    let colour = ink(has_failed(alloc, failed, holder)?);
    let name = name_of(alloc, failed, holder)?;
    canvas.draw_words(12, colour, &name)?;
    canvas.next_line();
    Ok(())
}

/// Draws a holder with its loads and guests.
fn draw_holding(
    alloc: Global,
    canvas: &mut Canvas,
    marks: Marks<'_, '_, '_, '_>,
    holding: &Holding<'_, '_, '_>,
) -> Result<(), AllocError>
    ensures { OnOk result (sketch canvas.new ≡ with_holding (map (λ w. w.now) marks.entry.failed.now)
        (map (λ w. w.now) marks.entry.classes.now) (holding_seen holding.now) (sketch canvas.old)) }
{
    draw_holder(alloc, canvas, marks.failed, holding.holder)?;
    draw_loads(alloc, canvas, &holding.loads)?;
    draw_guests(alloc, canvas, marks, &holding.guests)?;
    canvas.next_line();
    Ok(())
}

/// Draws all holders.
fn draw_holdings(
    alloc: Global,
    canvas: &mut Canvas,
    marks: Marks<'_, '_, '_, '_>,
    holdings: &[Holding<'_, '_, '_>],
) -> Result<(), AllocError>
    ensures { OnOk result (sketch canvas.new ≡ with_holdings (map (λ w. w.now)
        marks.entry.failed.now) (map (λ w. w.now) marks.entry.classes.now) (holdings_seen
        holdings.now) (sketch canvas.old)) }
{
    for holding in holdings {
        draw_holding(alloc, canvas, marks, holding)?;
    }
    Ok(())
}

/// Writes the letters of a document, and what is below all.
#[tactic(auto, unfolding(crate::specs::Svg::style_text))]
fn push_style(text: &mut Vec<u8>) -> Result<(), AllocError>
    ensures { OnOk result (text.new.items ≡ text.old.items ++ style_text) }
{
    text.extend_from_slice(b" font-family=\"monospace\" font-size=\"13\">\n")?;
    text.extend_from_slice(b"<rect width=\"100%\" height=\"100%\" fill=\"#ffffff\"/>\n")
}

/// Writes the head of a document of this size.
fn push_head(text: &mut Vec<u8>, width: u64, height: u64) -> Result<(), AllocError>
    ensures { OnOk result (text.new.items ≡ text.old.items ++ head_text width height) }
{
    text.extend_from_slice(b"<svg xmlns=\"http://www.w3.org/2000/svg\"")?;
    push_points(text, b" width=\"", width)?;
    push_points(text, b" height=\"", height)?;
    push_style(text)?;
    Ok(())
}

/// The document of what is drawn.
fn document(alloc: Global, canvas: &Canvas) -> Result<Vec<u8>, AllocError>
    ensures { IfOk result (λ text. text.items ≡ document (sketch canvas.now)) }
{
    let mut text = Vec::new(alloc);
    push_head(
        &mut text,
        canvas.right.saturating_add(12),
        canvas.y.saturating_add(12),
    )?;
    text.extend_from_slice(&canvas.body)?;
    text.extend_from_slice(b"</svg>\n")?;
    Ok(text)
}

/// A picture as SVG, with a mark on those that failed.
pub fn svg_of(
    alloc: Global,
    failed: &[&str],
    holdings: &[Holding<'_, '_, '_>],
) -> Result<Vec<u8>, AllocError>
    ensures { IfOk result (λ text. text.items ≡ svg_text (map (λ w. w.now) failed.now)
        (holdings_seen holdings.now)) }
{
    let classes = classes_of(alloc, holdings)?;
    let marks = Marks {
        failed,
        classes: &classes,
    };
    let mut canvas = Canvas {
        body: Vec::new(alloc),
        x: 24,
        y: 12,
        right: 988,
    };
    draw_legend(alloc, &mut canvas, &classes)?;
    canvas.next_line();
    draw_holdings(alloc, &mut canvas, marks, holdings)?;
    let text = document(alloc, &canvas)?;
    Ok(text)
}
