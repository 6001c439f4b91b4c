//! The shapes of a drawing, as SVG spells them.
ghost use Rattle.std.specs.Prelude.{◌≡◌, ◌++◌, true, OnOk};
ghost use Rattle.std.specs.List.{flat_map};
ghost use Rattle.view_drawing.specs.Shapes.{escaped_mark, escaped, is_tame, points_text, area_text, colour_text, box_text, words_text};
ghost use Rattle.view_drawing.specs.ShapeViews.{area_seen};

use itoa::Buffer;
use std::alloc::AllocError;

/// Where a rectangle lies, in points.
#[derive(Clone, Copy)]
pub(crate) struct Area {
    pub x: u64,
    pub y: u64,
    pub width: u64,
    pub height: u64,
}

/// Writes a byte of a name as it may stand in SVG.
fn push_mark(text: &mut Vec<u8>, byte: u8) -> Result<(), AllocError>
    ensures { OnOk result (text.new.items ≡ text.old.items ++ escaped_mark byte) }
{
    match byte {
        b'<' => text.extend_from_slice(b"&lt;"),
        b'>' => text.extend_from_slice(b"&gt;"),
        b'&' => text.extend_from_slice(b"&amp;"),
        b'"' => text.extend_from_slice(b"&quot;"),
        _ => Ok(text.push(byte)?),
    }
}

/// Writes a name as it may stand in SVG.
#[tactic(auto, using(crate::proofs::DrawingLaws::escaped_tame))]
pub fn push_escaped(text: &mut Vec<u8>, name: &[u8]) -> Result<(), AllocError>
    ensures text { OnOk result (text.new.items ≡ text.old.items ++ escaped name.now) }
    ensures tame { is_tame (escaped name.now) ≡ true }
{
    for byte in name {
        push_mark(text, *byte)?;
    }
    Ok(())
}

/// Writes a number of points behind the name of its attribute.
pub(crate) fn push_points(text: &mut Vec<u8>, name: &[u8], number: u64) -> Result<(), AllocError>
    ensures { OnOk result (text.new.items ≡ text.old.items ++ points_text name.now number) }
{
    text.extend_from_slice(name)?;
    text.extend_from_slice(Buffer::new().format(number).as_bytes())?;
    text.extend_from_slice(b"\"")
}

/// Writes where a rectangle lies.
#[tactic(auto, unfolding(crate::specs::Shapes::area_text))]
fn push_area(text: &mut Vec<u8>, area: Area) -> Result<(), AllocError>
    ensures { OnOk result (text.new.items ≡ text.old.items ++ area_text (area_seen area)) }
{
    push_points(text, b" x=\"", area.x)?;
    push_points(text, b" y=\"", area.y)?;
    push_points(text, b" width=\"", area.width)?;
    push_points(text, b" height=\"", area.height)
}

/// Writes a colour behind the name of its attribute.
#[tactic(auto, unfolding(crate::specs::Shapes::colour_text))]
fn push_colour(text: &mut Vec<u8>, name: &[u8], colour: &str) -> Result<(), AllocError>
    ensures { OnOk result (text.new.items ≡ text.old.items ++ colour_text name.now colour.now) }
{
    text.extend_from_slice(name)?;
    text.extend_from_slice(colour.as_bytes())?;
    text.extend_from_slice(b"\"")
}

/// Writes a rectangle with its inner and its outer colour.
pub(crate) fn push_box(
    text: &mut Vec<u8>,
    area: Area,
    fill: &str,
    stroke: &str,
) -> Result<(), AllocError>
    ensures { OnOk result (text.new.items
        ≡ text.old.items ++ box_text (area_seen area) fill.now stroke.now) }
{
    text.extend_from_slice(b"<rect")?;
    push_area(text, area)?;
    push_colour(text, b" rx=\"3\" fill=\"", fill)?;
    push_colour(text, b" stroke=\"", stroke)?;
    text.extend_from_slice(b"/>\n")?;
    Ok(())
}

/// Writes words that begin here, in a colour.
pub(crate) fn push_words(
    text: &mut Vec<u8>,
    x: u64,
    y: u64,
    fill: &str,
    words: &[u8],
) -> Result<(), AllocError>
    ensures { OnOk result (text.new.items
        ≡ text.old.items ++ words_text x y fill.now words.now) }
{
    text.extend_from_slice(b"<text")?;
    push_points(text, b" x=\"", x)?;
    push_points(text, b" y=\"", y)?;
    push_colour(text, b" fill=\"", fill)?;
    text.push(b'>')?;
    push_escaped(text, words)?;
    text.extend_from_slice(b"</text>\n")
}
