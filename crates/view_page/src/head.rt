//! What stands on a page before and behind the answers.
ghost use Rattle.std.specs.Prelude.{◌≡◌, ◌++◌, OnOk};
ghost use Rattle.view_page.specs.Page.{head_text, tail_text};

use std::alloc::AllocError;

/// The head of a page: letters, and how what moved stands beside a picture. What isn't in sight
/// isn't drawn.
const HEAD: &[u8] =
    b"<!DOCTYPE html>\n<html lang=\"en\">\n<head>\n<meta charset=\"utf-8\"/>\n<title>session</title>\n<style>\nbody { font: 14px monospace; margin: 16px; color: #111827 }\nsection { display: flex; flex-wrap: wrap; gap: 24px; padding: 8px 0; border-top: 1px solid #9ca3af; content-visibility: auto; contain-intrinsic-size: auto 600px }\nh2 { margin: 0; font-size: 16px }\npre { max-height: 90vh; overflow: auto }\n</style>\n</head>\n<body>\n";

/// Writes the head of a page.
#[tactic(auto, unfolding(crate::specs::Page::head_text))]
pub(crate) fn push_head(page: &mut Vec<u8>) -> Result<(), AllocError>
    ensures { OnOk result (page.new.items ≡ page.old.items ++ head_text) }
{
    page.extend_from_slice(HEAD)
}

/// Writes the end of a page.
pub(crate) fn push_tail(page: &mut Vec<u8>) -> Result<(), AllocError>
    ensures { OnOk result (page.new.items ≡ page.old.items ++ tail_text) }
{
    page.extend_from_slice(b"</body>\n</html>\n")
}
