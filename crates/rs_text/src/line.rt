use cr_base::Name;

/// A printed line.
#[derive(Drop)]
pub struct Line {
    /// How many braces are open where the line begins, one that it closes first not counted.
    pub depth: u32,
    /// The text of the line, without indentation and without newline.
    pub text: Name,
}
