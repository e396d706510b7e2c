//! The trait by which a program of rows defines its calls.
use crate::answer::Answer;
use crate::input::Inputs;

/// The calls that rows name.
pub trait Calls {
    /// Spells the result of a call with these inputs. Fails the row if the call is unknown, or
    /// doesn't accept the inputs.
    fn call(&self, name: &str, inputs: &Inputs, answer: &mut Answer<'_>);

    /// Returns whether a text that begins with an error can be one for lack of memory.
    fn lacks_memory(&self, refusal: &str) -> bool;
}
