//! What is damaged on an image.
use ldm_copy::CopyFault;
use ldm_label::LabelFault;

/// What is damaged on an image, as far as a view of it gets over that.
#[derive(Clone, Copy)]
pub struct Damage {
    /// The fault of its label, where the view mends the label.
    pub label: Option<LabelFault>,
    /// The fault of its copy of the database, where the view passes over the copy.
    pub copy: Option<CopyFault>,
}
