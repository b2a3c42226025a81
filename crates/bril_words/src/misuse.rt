// Why words ask for nothing.

ghost use Rattle.std.specs.Prelude.{◌≡◌};
ghost use Rattle.bril_words.specs.declared.misuse.Misuse.TheVariants.{Memory};

use crate::options::Setting;
use std::alloc::AllocError;

/// Why words ask for nothing.
#[derive(Drop)]
pub enum Misuse {
    /// `clap` refuses them, a request for help among them, with this text.
    Words { text: String },
    /// The option's value is no number or out of its range, or names too many passes.
    Value { setting: Setting },
    /// The number of functions of the demo program is no number, or isn't from 1 to 150.
    Functions,
    /// Memory was wanting.
    Memory,
}

impl From<AllocError> for Misuse {
    ghost from_gives = { λ _ misuse. misuse ≡ Memory };

    fn from(_fault: AllocError) -> Misuse {
        Misuse::Memory
    }
}
