//! The calls of rows.
mod apl;
mod bitmap;
mod blocks;
mod canonical;
mod data;
mod digits;
mod field;
mod fields;
mod gateway;
mod generate;
mod head;
mod kind;
mod list;
mod record;
mod results;
mod rules;
mod set;
mod sorted;
mod spelling;
mod store;
mod tape;
mod wire;
mod zone;

use test_support::{Answer, Calls, Failure, Inputs};

/// The calls about record data.
pub struct Records;

/// The beginning of the errors of an allocation that fails.
const SHORT: &str = "buffer size exceeded";

impl Calls for Records {
    fn call(&self, name: &str, inputs: &Inputs, answer: &mut Answer<'_>) {
        call(name, inputs, answer);
    }

    fn lacks_memory(&self, refusal: &str) -> bool {
        refusal.starts_with(SHORT)
    }
}

/// Adds the result of a call with some inputs.
fn call(name: &str, inputs: &Inputs, answer: &mut Answer) {
    let (group, name) = name.split_once('.').unwrap_or((name, ""));
    match group {
        "field" => field::call(name, inputs, answer),
        "fields" => fields::call(name, inputs, answer),
        "octets" => spelling::octets(name, inputs, answer),
        "digits" => digits::call(name, inputs, answer),
        "bitmap" => bitmap::call(name, inputs, answer),
        "list" => list::call(name, inputs, answer),
        "apl" => apl::call(name, inputs, answer),
        "gateway" => gateway::call(name, inputs, answer),
        "generate" => generate::call(name, inputs, answer),
        "canonical" => canonical::call(name, inputs, answer),
        "head" => head::call(name, inputs, answer),
        "record" => record::call(name, inputs, answer),
        "set" => set::call(name, inputs, answer),
        "store" => store::call(name, inputs, answer),
        "tape" => tape::call(name, inputs, answer),
        "wire" => wire::call(name, inputs, answer),
        "zone" => zone::call(name, inputs, answer),
        _ => answer.fail(Failure::NoCall),
    }
}
