//! The text, line by line. The entry point is `generate`.
ghost use Rattle.std.specs.Prelude.{◌≡◌, ◌+◌, ◌*◌, ◌≤◌, ◌++◌, IfOk, OnOk, length, decimal};
ghost use Rattle.model_limits.specs.Limits.{model_bytes};
ghost use Rattle.model_generator.specs.Generated.{generated, ended, sized};

use std::alloc::{AllocError, Global};

const HOST: &str =
    "class Host { var cap as 8..8; where sum v in Vm where v.host = this { v.size } <= cap; }";

const MACHINE: &str = "abstract class Vm { var size as 1..4; var host as ref Host; }";

const SMALL: &str = "class Small extends Vm { where size = 1; }";

const LARGE: &str = "class Large extends Vm { where size = 3; }";

const GOAL: &str = "maximize count v in Vm { v.host in home.hosts };";

/// Puts a line behind a text.
fn add(text: &mut Vec<u8>, line: &str) -> Result<(), AllocError>
    ensures { OnOk result (text.new.items ≡ text.old.items ++ ended line.now) }
{
    text.extend_from_slice(line.as_bytes())?;
    text.extend_from_slice(b"\n")
}

/// Puts a line with a number in it behind a text.
fn add_sized(text: &mut Vec<u8>, front: &str, n: u32, back: &str) -> Result<(), AllocError>
    ensures { OnOk result (text.new.items ≡ text.old.items ++ ended (sized front.now n back.now)) }
{
    let line = format!(in *text.allocator(); "{front}{n}{back}")?;
    add(text, line.as_str())
}

/// The text of the model with n hosts a site and n machines of each kind.
#[tactic(auto, using(crate::proofs::Lengths::length_laws))]
pub fn generate(alloc: Global, n: u32) -> Result<Vec<u8>, AllocError>
    requires some { 1 ≤ n }
    requires few { n ≤ 100 }
    ensures text { IfOk result (λ text. text.items ≡ generated n) }
    ensures length { length (generated n) ≡ 402 + 3 * length (decimal n) }
    ensures short { length (generated n) ≤ model_bytes }
{
    let mut text = Vec::new(alloc);
    add(&mut text, HOST)?;
    add(&mut text, MACHINE)?;
    add(&mut text, SMALL)?;
    add(&mut text, LARGE)?;
    add_sized(&mut text, "class Site { var hosts as Host[", n, "]; }")?;
    add(&mut text, "var home as Site;")?;
    add(&mut text, "var away as Site;")?;
    add_sized(&mut text, "var small as Small[", n, "];")?;
    add_sized(&mut text, "var large as Large[", n, "];")?;
    add(&mut text, GOAL)?;
    Ok(text)
}
