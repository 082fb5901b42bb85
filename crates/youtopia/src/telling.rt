//! A command that prints a fixed text, whatever its input.
ghost use Rattle.std.specs.Prelude.{◌≡◌};
ghost use Rattle.youtopia.specs.Calls.{telling};

use cmd_frame::{Command, Ending, Memory, Output};
use std::alloc::Global;

/// The command that prints the text.
#[derive(Drop)]
pub struct Telling {
    pub text: &'static str,
}

impl Command for Telling {
    ghost gives = { λ t. telling t.text.now };

    fn run(&self, alloc: Global, _input: &[u8]) -> Result<Output, Memory> {
        let mut text = Vec::new(alloc);
        text.extend_from_slice(self.text.as_bytes())?;
        Ok(Output::Text(Ending::Ended, text))
    }
}
