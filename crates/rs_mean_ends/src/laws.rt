ghost use Rattle.rs_mean_ends.specs.Laws.{EndsByForm, LabelsGo};

/// Law: a statement and a list of statements end in ways alone in which they can by their form. Used for
/// text that is written from a graph: what stands behind statements that don't come to their end needs no
/// `else`.
pub fn ends_by_form()
    ensures { EndsByForm }
{}

/// Law: a label that nothing inside names can go, or be another. Used for text in which a block or a label
/// is written where it is named alone.
pub fn labels_go()
    ensures { LabelsGo }
{}
