ghost use Rattle.std.specs.Prelude.{◌≡◌, ◌+◌, ◌^◌, ◌≤◌};
ghost use Rattle.flow_spec.specs.Instruction.{IsText, parts_at};
ghost use Rattle.flow_spec.specs.Next.{next_at};
ghost use Rattle.flow_spec.specs.Acceptance.{is_good_entry};

use elf_image::Image;
use flow_graph::{is_target, next_of, parts};
use flow_spec::{FlowFault, Frame, Isa, Next};
use std::marker::Model;

/// The program that is expanded: its image, the instructions that this is read as, the bytes of a cache line, and its
/// entry.
#[derive(Drop)]
pub(crate) struct Program<'a> {
    pub(crate) image: &'a Image,
    pub(crate) isa: Isa,
    pub(crate) line: u32,
    pub(crate) entry: u32,
}

impl<'a> Model for Program<'a> {
    ghost use Rattle.std.specs.Prelude.{◌<◌};
    ghost use Rattle.flow_spec.specs.Program.{Program, program};

    ghost Value = { Program };

    ghost view = { λ p. program p.image.now p.isa p.line p.entry };

    ghost invariant = { λ p. 0 < p.line };
}

impl Program<'_> {
    pub(crate) fn entry(&self) -> u32
        ensures { result ≡ self.now.entry }
    {
        self.entry
    }

    /// Whether the program may begin at its entry.
    pub(crate) fn has_good_entry(&self) -> bool
        ensures { result ≡ is_good_entry self.now }
    {
        is_target(self.image, self.isa, self.entry)
    }

    /// In how many parts the instruction at an address of the text is fetched.
    pub(crate) fn parts(&self, at: u32) -> u32
        requires { IsText self.now.isa self.now.image at }
        ensures parts { result ≡ parts_at self.now.isa self.now.image self.now.line at }
        ensures end { result ≡ 2 → at + 4 ≤ 2 ^ 32 }
    {
        parts(self.image, self.isa, self.line, at)
    }

    /// Where control goes from an address of the text, with this newest open call.
    pub(crate) fn next_of(&self, at: u32, top: Option<Frame>) -> Result<Next, FlowFault>
        requires { IsText self.now.isa self.now.image at }
        ensures { result ≡ next_at self.now.isa self.now.image at top }
    {
        next_of(self.image, self.isa, at, top)
    }
}
