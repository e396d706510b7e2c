//! The calls that rows name.
mod absolute;
mod author;
mod build;
mod charstr;
mod dnstext;
mod encoding;
mod label;
mod law;
mod name;
mod octets;
mod parts;
mod report;
mod scan;
mod steps;
mod symbol;
mod zone;
mod zonetext;

use self::encoding::Base;
use test_support::{Answer, Calls, Failure, Inputs};

/// The calls of the library.
pub struct Library;

/// The prefixes of errors for lack of memory.
const SHORT: [&str; 3] = [
    "buffer size exceeded",
    "short buffer",
    "invalid domain name",
];

impl Calls for Library {
    fn call(&self, name: &str, inputs: &Inputs, answer: &mut Answer<'_>) {
        call(name, inputs, answer);
    }

    fn lacks_memory(&self, refusal: &str) -> bool {
        SHORT.iter().any(|short| refusal.starts_with(*short))
    }
}

/// Spells the result of a call with its inputs.
fn call(name: &str, inputs: &Inputs, answer: &mut Answer) {
    let (group, name) = name.split_once('.').unwrap_or((name, ""));
    match group {
        "charstr" => charstr::call(name, inputs, answer),
        "symbol" => symbol::call(name, inputs, answer),
        "base16" => encoding::call(Base::Base16, name, inputs, answer),
        "base32" => encoding::call(Base::Base32, name, inputs, answer),
        "base64" => encoding::call(Base::Base64, name, inputs, answer),
        "label" => label::call(name, inputs, answer),
        "law" => law::call(name, inputs, answer),
        "name" => name::call(name, inputs, answer),
        "octets" => octets::call(name, inputs, answer),
        "scan" => scan::call(name, inputs, answer),
        "zone" => zone::call(name, inputs, answer),
        "zonetext" => zonetext::call(name, inputs, answer),
        "report" => report::call(name, inputs, answer),
        "failing" => dnstext::fail(name, inputs.all(), answer),
        "author" => author::call(name, inputs, answer),
        _ => answer.fail(Failure::NoCall),
    }
}
