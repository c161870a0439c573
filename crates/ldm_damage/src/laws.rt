//! What holds of what is damaged.
ghost use Rattle.ldm_damage.specs.Laws.{PlainIsShown, OneDamage};

/// A law, which does nothing: where nothing is damaged the views are the images, and there is one
/// answer for given images.
pub fn damage_is_told_once()
    ensures plain { PlainIsShown }
    ensures one { OneDamage }
{}
