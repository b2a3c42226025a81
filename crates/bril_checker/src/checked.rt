// A program that was accepted.

ghost use Rattle.std.specs.Prelude.{◌≡◌, ◌<◌, IfSome, length, slice_get};
ghost use Rattle.bril_tree.specs.Accepted.{IsAccepted};

use bril_tree::program::Prog;
use bril_tree::sequence::Seq;
use std::marker::Model;

/// A program that is accepted, with the words of its functions' frames.
#[derive(Drop)]
pub struct Checked {
    prog: Prog,
    words: Seq<u64>,
}

impl Model for Checked {
    ghost use Rattle.std.specs.Prelude.{◌≡◌, ◌<◌};
    ghost use Rattle.bril_tree.specs.Accepted.{IsAccepted};
    ghost use Rattle.bril_checker.specs.Checked.{CheckedView, IsChecked};

    ghost Value = { CheckedView };

    ghost view = { λ c. record { prog = c.prog } };

    ghost invariant = { λ c. IsChecked c.prog c.words };
}

impl Checked {
    ghost use Rattle.std.specs.List.{AllZip};
    ghost use Rattle.bril_tree.specs.FrameWords.{AreFrameWords};
    ghost use Rattle.bril_tree.specs.Size.{IsCounted};

    // An accepted program, with the words of its functions' frames.
    pub(crate) fn new(prog: Prog, words: Seq<u64>) -> Checked
        requires accepted { IsAccepted prog }
        requires words { AllZip AreFrameWords prog.funcs words }
        requires counted { IsCounted prog }
        ensures { result.prog ≡ prog }
    {
        Checked { prog, words }
    }

    /// The program, which is accepted; its functions, and the points of each, have numbers of 32 bits. Takes no memory.
    pub fn prog(&self) -> &Prog
        ensures value { result.now ≡ self.now.prog }
        ensures accepted { IsAccepted result.now }
        ensures counted { IsCounted result.now }
    {
        &self.prog
    }

    /// The program, which is accepted. Takes no memory.
    pub fn into_prog(self) -> Prog
        ensures value { result ≡ self.prog }
        ensures accepted { IsAccepted result }
        ensures counted { IsCounted result }
    {
        self.prog
    }

    /// The words of 64 bits that a frame of the function of this number has: two, and one for each variable and each
    /// shadow that some `get` or `set` names, as it is and as it was at each open `speculate`. Takes no memory.
    pub fn frame_words(&self, func: u32) -> u64
        requires { func < length self.now.prog.funcs }
        ensures { IfSome (slice_get self.now.prog.funcs func) (λ f. AreFrameWords f result) }
    {
        self.words.as_slice()[func as usize]
    }
}
