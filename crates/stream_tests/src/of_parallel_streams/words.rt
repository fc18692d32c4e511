//! Functions of stages and collectors, over texts.
ghost use Rattle.std.specs.Prelude.{◌≡◌, ◌==◌, IfOk, map};
ghost use Rattle.std.specs.List.{slice_split};

use spliterator::NoMemory;
use stages::Mapping;
use std::alloc::{AllocError, Global};

fn pieces(alloc: Global, text: &str) -> Result<Vec<&str>, AllocError>
    ensures { IfOk result (λ v. map (λ word. word.now) v.items ≡ slice_split (λ b. b == 32) text.now) }
{
    text.split(' ').collect(alloc)
}

/// The pieces of a text between its spaces, empty ones too.
#[derive(Drop)]
pub struct Words {
    pub alloc: Global,
}

impl<'a> Mapping<&'a str> for Words {
    type Out = Vec<&'a str>;

    ghost image = { λ _ x. slice_split (λ b. b == 32) x };

    ghost images_are_values = { λ _ x _. Prim.search };

    fn image(&self, x: &&'a str) -> Result<Vec<&'a str>, NoMemory> {
        Ok(pieces(self.alloc, *x)?)
    }
}
