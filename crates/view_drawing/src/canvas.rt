//! What is drawn, from left to right and from line to line.
ghost use Rattle.std.specs.Prelude.{◌≡◌, ◌≤◌, codes, OnOk};
ghost use Rattle.view_drawing.specs.Canvas.{width_of, next_line, with_room, box_here, with_box, with_words, with_bar, load_colour, with_load};
ghost use Rattle.view_drawing.specs.CanvasViews.{sketch};
ghost use Rattle.view_picture.specs.PictureViews.{load_seen};

use crate::names::{fill_of, is_over, push_load};
use crate::shapes::{Area, push_box, push_words};
use std::alloc::{AllocError, Global};
use view_picture::Load;

/// Where the first box of a line begins.
const LEFT: u64 = 24;

/// Where the last box of a line is to end.
const RIGHT: u64 = 988;

/// From line to line.
const LINE: u64 = 24;

/// The colour of words.
const INK: &str = "#111827";

/// A drawing that isn't done.
#[derive(Drop)]
pub(crate) struct Canvas {
    /// What is drawn.
    pub body: Vec<u8>,
    /// Where the next box may begin.
    pub x: u64,
    pub y: u64,
    /// How far to the right something stands.
    pub right: u64,
}

/// The width of words.
fn width_of(words: &[u8]) -> u64
    ensures { result ≡ width_of words.now }
{
    (words.len() as u64).saturating_mul(8)
}

impl Canvas {
    /// Goes to the left of the next line.
    pub(crate) fn next_line(&mut self)
        ensures { sketch self.new ≡ next_line (sketch self.old) }
    {
        self.x = LEFT;
        self.y = self.y.saturating_add(LINE);
    }

    /// Goes to the next line where a box of this width has no room on this one.
    fn make_room(&mut self, width: u64)
        ensures { sketch self.new ≡ with_room width (sketch self.old) }
    {
        if self.x > LEFT && self.x.saturating_add(width) > RIGHT {
            self.next_line();
        }
    }

    /// Draws a box of this width here, with words in it.
    fn box_here(
        &mut self,
        fill: &str,
        stroke: &str,
        words: &[u8],
        width: u64,
    ) -> Result<(), AllocError>
        ensures { OnOk result (sketch self.new
            ≡ box_here fill.now stroke.now words.now width (sketch self.old)) }
    {
        let area = Area {
            x: self.x,
            y: self.y,
            width,
            height: 18,
        };
        push_box(&mut self.body, area, fill, stroke)?;
        let x = self.x.saturating_add(6);
        push_words(&mut self.body, x, self.y.saturating_add(13), INK, words)?;
        let end = self.x.saturating_add(width);
        self.x = end.saturating_add(6);
        self.right = self.right.max(end);
        Ok(())
    }

    /// Draws a box with words in it.
    pub(crate) fn draw_box(
        &mut self,
        fill: &str,
        stroke: &str,
        words: &[u8],
    ) -> Result<(), AllocError>
        ensures { OnOk result (sketch self.new
            ≡ with_box fill.now stroke.now words.now (sketch self.old)) }
    {
        let width = width_of(words).saturating_add(12);
        self.make_room(width);
        self.box_here(fill, stroke, words, width)
    }

    /// Draws words on this line.
    pub(crate) fn draw_words(&mut self, x: u64, fill: &str, words: &[u8]) -> Result<(), AllocError>
        ensures { OnOk result (sketch self.new
            ≡ with_words x fill.now words.now (sketch self.old)) }
    {
        push_words(&mut self.body, x, self.y.saturating_add(13), fill, words)?;
        self.right = self.right.max(x.saturating_add(width_of(words)));
        Ok(())
    }

    /// Draws a bar of which so many hundredths are filled.
    fn draw_bar(&mut self, hundredths: u64, fill: &str) -> Result<(), AllocError>
        requires { hundredths ≤ 100 }
        ensures { OnOk result (sketch self.new
            ≡ with_bar hundredths fill.now (sketch self.old)) }
    {
        let whole = Area {
            x: LEFT,
            y: self.y,
            width: 200,
            height: 16,
        };
        let part = Area {
            x: LEFT,
            y: self.y,
            width: 2 * hundredths,
            height: 16,
        };
        push_box(&mut self.body, whole, "#f3f4f6", "#9ca3af")?;
        push_box(&mut self.body, part, fill, "none")
    }

    /// Draws the line of a load.
    pub(crate) fn draw_load(&mut self, alloc: Global, load: &Load<'_>) -> Result<(), AllocError>
        ensures { OnOk result (sketch self.new
            ≡ with_load (load_seen load.now) (sketch self.old)) }
    {
        let mut words = Vec::new(alloc);
        push_load(&mut words, load)?;
        let colour = if is_over(load) { "#dc2626" } else { "#60a5fa" };
        self.draw_bar(fill_of(load), colour)?;
        self.draw_words(236, INK, &words)?;
        self.next_line();
        Ok(())
    }
}
