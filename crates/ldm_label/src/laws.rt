//! What a label depends on, and that one which was written reads back.
ghost use Rattle.ldm_label.specs.Laws.{LabelsFit, LabelsStay, WrittenLabelsRead, WrittenLabelsStay};
ghost use Rattle.ldm_label.specs.Laws.{WrittenGptsRead};

/// A law, which does nothing: what is written in the config area of a disk leaves its label as it
/// is, where no sector of the label lies in that area. Editing a group writes nothing else.
pub fn label_is_outside_its_area()
    ensures fit { LabelsFit }
    ensures stay { LabelsStay }
{}

/// A law, which does nothing: an image that has the sectors of a label, which fits it, reads as
/// that label, and what is written in its config area leaves those sectors as they are. Whoever
/// writes a label sector by sector has the label by this law.
pub fn written_label_reads_back()
    ensures reads_back { WrittenLabelsRead }
    ensures stay { WrittenLabelsStay }
{}

/// A law, which does nothing: an image that has what is written of the label of a GPT disk, which
/// fits it, reads as that label.
pub fn written_gpt_reads_back()
    ensures { WrittenGptsRead }
{}
