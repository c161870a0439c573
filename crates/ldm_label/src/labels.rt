//! The labels of several disks.
ghost use Rattle.std.specs.Prelude.{◌≡◌, List};
ghost use Rattle.ldm_label.specs.declared.Label.{Label};

use crate::Label;
use std::marker::Model;

/// The labels of images, in their order. Contracts see them as that list.
#[derive(Drop)]
pub struct Labels {
    items: Vec<Label>,
}

impl Model for Labels {
    ghost Value = { List Label };

    ghost view = { λ labels. labels.items.items };
}

impl Labels {
    /// The list of these labels. It takes no memory.
    pub fn from_vec(items: Vec<Label>) -> Labels
        ensures { result ≡ items.items }
    {
        Labels { items }
    }

    /// The labels in their order.
    pub fn as_slice(&self) -> &[Label]
        ensures { result.now ≡ self.now }
    {
        self.items.as_slice()
    }
}
