//! What the types of lines keep.
ghost use Rattle.std.specs.List.{All};
ghost use Rattle.run_law.specs.Lines.{HasSets};

use log_form::Line;

/// What the types of the lines' parts keep. It looks at each line once.
pub fn know_lines(lines: &[Line])
    ensures { All (λ l. HasSets l) lines.now }
{
    for line in lines {
        know_line(line);
    }
}

/// What the types of a line's parts keep.
fn know_line(line: &Line)
    ensures { HasSets line.now }
{
    match line {
        Line::Axiom(_, clause) | Line::Chain(_, clause) => {
            clause.clause().literals();
        }
        Line::Decide(_, half) => {
            half.ranges();
        }
        _ => {}
    }
}
