//! That the clauses of lines have a clause's form.
ghost use Rattle.std.specs.List.{All};
ghost use Rattle.log_check.specs.Soundness.{HasClause};

use log_form::Line;

/// The clauses in the lines have a clause's form, which their type keeps. It looks at each line
/// once.
#[tactic(auto, using(crate::proofs::Lines::forms_step, crate::proofs::Lines::forms_all))]
pub fn know_lines(lines: &[Line])
    ensures { All (λ l. HasClause l) lines.now }
{
    for line in lines {
        know_line(line);
    }
}

/// The clause in a line has a clause's form, which its type keeps.
fn know_line(line: &Line)
    ensures { HasClause line.now }
{
    match line {
        Line::Axiom(_, clause) | Line::Chain(_, clause) => {
            clause.clause().literals();
        }
        _ => {}
    }
}
