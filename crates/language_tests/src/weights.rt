//! Weights and limits of models. `weighs MODEL` asks for the weight of a model and the limit that
//! it breaks, and `sites N` the same of two sites of N hosts each.
use conf_eval::{limits, model_weight};
use object_alloc::allocate;
use std::alloc::{AllocError, Global};
use test_case_files::{Case, Subject, number_at, words_of};
use test_models::typed_of;

/// What is asked of weights.
#[derive(Drop)]
pub(crate) struct Weights;

/// What a model's text weighs, and the limit that it breaks.
fn measures_of(alloc: Global, text: &[u8]) -> Result<String, AllocError> {
    let Some(typed) = typed_of(alloc, text) else {
        return String::from_str(alloc, "no model");
    };
    let Ok(objects) = allocate(alloc, &typed.table) else {
        return String::from_str(alloc, "no objects");
    };
    let weight = model_weight(&typed.model, &objects);
    match limits(&typed.model, &objects) {
        Ok(_) => format!(in alloc; "{weight}"),
        Err(fault) => format!(in alloc; "{weight} {fault:?}"),
    }
}

/// Two sites of n hosts each, and 2n machines that are placed on hosts.
fn sites(alloc: Global, n: u32) -> Result<String, AllocError> {
    format!(in alloc;
        "class Host {{ var cap as 8..8; \
        where sum v in Vm where v.host = this {{ v.size }} <= cap; }} \
        abstract class Vm {{ var size as 1..4; var host as ref Host; }} \
        class Small extends Vm {{ where size = 1; }} \
        class Large extends Vm {{ where size = 3; }} \
        class Site {{ var hosts as Host[{n}]; }} \
        var home as Site; var away as Site; var small as Small[{n}]; var large as Large[{n}]; \
        maximize count v in Vm {{ v.host in home.hosts }};"
    )
}

impl Subject for Weights {
    fn answer(&mut self, alloc: Global, case: &Case<'_>) -> Result<String, AllocError> {
        match case.ask {
            "weighs" => measures_of(alloc, &case.text),
            _ => {
                let text = sites(alloc, number_at(&words_of(alloc, &case.text)?, 0))?;
                measures_of(alloc, text.as_bytes())
            }
        }
    }
}
